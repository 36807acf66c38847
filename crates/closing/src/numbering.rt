//! Numbers for the views of a list of ranked pairs, so that those that begin alike are gone over together.

ghost use Rattle.std.specs.Prelude.{◌≡◌, ◌<◌, ◌↔◌, ℕ, if◌then◌else◌, IfOk, IfSome, IsTrue, Some, slice_get};
ghost use Rattle.closing.specs.inner.Numbered.{AreDistinct, AreNumbered, AreWithin, HaveNumbers, IsNumberOfView, first_view, second_view};

use crate::codes::view_code;
use crate::ranked::RankedPair;
use base::NoMemory;
use pairs::{Pair, PairSide, Shared};
use std::alloc::Global;
use std::collections::HashMap;

/// What one cache sees of a block.
#[derive(Clone, Copy, Debug)]
pub struct View {
    pub shared: Shared,
    pub side: PairSide,
}

/// The places from one on and below another.
#[derive(Clone, Copy, Debug)]
pub struct Span {
    pub begin: usize,
    pub end: usize,
}

/// The views of the pairs of a list, each once; of each pair the numbers of its first and of its second one; and of each view
/// the span of the list in which all pairs stand that begin with it.
#[derive(Drop)]
pub struct ViewNumbers {
    pub views: Vec<View>,
    pub firsts: Vec<usize>,
    pub seconds: Vec<usize>,
    pub spans: Vec<Span>,
}

impl View {
    fn is_same(&self, other: &View) -> bool
        ensures { IsTrue result ↔ (self.now ≡ other.now) }
    {
        self.shared.is_same(&other.shared) & self.side.is_same(&other.side)
    }

    /// The view of a pair's second cache, or of its first one.
    fn of(pair: &Pair, second: bool) -> View
        ensures { result ≡ (if second then second_view pair.now else first_view pair.now) }
    {
        View {
            shared: pair.shared,
            side: if second { pair.second } else { pair.first },
        }
    }
}

/// The views that pairs begin with, in their order, the number of each by its code, and where the pairs stand.
#[derive(Drop)]
struct Views {
    all: Vec<View>,
    known: HashMap<u128, usize>,
    spans: Vec<Span>,
}

/// The number of a view.
fn number_of(views: &[View], known: &HashMap<u128, usize>, view: &View) -> Option<usize>
    requires { AreDistinct views.now }
    ensures { IfSome result (λ number. IsNumberOfView views.now view.now number) }
{
    let number = *known.get(&view_code(&view.shared, &view.side))?;
    match views.get(number) {
        Some(found) if found.is_same(view) => Some(number),
        _ => None,
    }
}

/// The numbers of all first views, or of all second ones, if each is known.
fn numbers_of(
    alloc: Global,
    list: &[RankedPair],
    views: &[View],
    known: &HashMap<u128, usize>,
    second: bool,
) -> Result<Option<Vec<usize>>, NoMemory>
    requires { AreDistinct views.now }
    ensures { IfOk result (λ found. IfSome found (λ numbers. HaveNumbers second list.now views.now numbers.items)) }
{
    let mut numbers = Vec::with_capacity(alloc, list.len())?;
    for ranked in list {
        match number_of(views, known, &View::of(&ranked.pair, second)) {
            Some(number) => numbers.push(number)?,
            None => return Ok(None),
        }
    }
    Ok(Some(numbers))
}

/// Whether a view is unlike the first ones of these.
fn is_new(views: &[View], count: usize, view: &View) -> bool
    ensures { IsTrue result → (k : ℕ) → k < count → ¬ (slice_get views.now k ≡ Some view.now) }
{
    for number in 0..count {
        if let Some(known) = views.get(number) {
            if known.is_same(view) {
                return false;
            }
        }
    }
    true
}

/// Whether each of these views is unlike all before it.
fn are_distinct(views: &[View]) -> bool
    ensures { IsTrue result → AreDistinct views.now }
{
    for (number, view) in views.iter().enumerate() {
        if !is_new(views, number, view) {
            return false;
        }
    }
    true
}

fn ends_with(views: &[View], view: &View) -> bool {
    match views.last() {
        Some(last) => last.is_same(view),
        None => false,
    }
}

fn views_of(alloc: Global, list: &[RankedPair]) -> Result<Views, NoMemory> {
    let mut all = Vec::new(alloc);
    let mut known = HashMap::new(alloc);
    let mut spans: Vec<Span> = Vec::new(alloc);
    for (place, ranked) in list.iter().enumerate() {
        let view = View::of(&ranked.pair, false);
        if !ends_with(&all, &view) {
            known.insert(view_code(&view.shared, &view.side), all.len())?;
            all.push(view)?;
            spans.push(Span {
                begin: place,
                end: place,
            })?;
        }
        if let Some(span) = spans.last_mut() {
            span.end = place + 1;
        }
    }
    Ok(Views { all, known, spans })
}

/// Whether each pair stands within the span of its first view.
fn are_within(firsts: &[usize], spans: &[Span]) -> bool
    ensures { IsTrue result → AreWithin firsts.now spans.now }
{
    for (place, number) in firsts.iter().enumerate() {
        match spans.get(*number) {
            Some(span) if span.begin <= place && place < span.end => {}
            _ => return false,
        }
    }
    true
}

impl ViewNumbers {
    /// Those of a list, if pairs that begin alike stand together, and each view begins a pair.
    pub(crate) fn of(alloc: Global, list: &[RankedPair]) -> Result<Option<ViewNumbers>, NoMemory>
        ensures { IfOk result (λ found. IfSome found (λ n. AreNumbered list.now n.views.items n.firsts.items n.seconds.items n.spans.items)) }
    {
        let Views { all, known, spans } = views_of(alloc, list)?;
        if !are_distinct(&all) {
            return Ok(None);
        }
        let (Some(firsts), Some(seconds)) = (
            numbers_of(alloc, list, &all, &known, false)?,
            numbers_of(alloc, list, &all, &known, true)?,
        ) else {
            return Ok(None);
        };
        if !are_within(&firsts, &spans) {
            return Ok(None);
        }
        Ok(Some(ViewNumbers {
            views: all,
            firsts,
            seconds,
            spans,
        }))
    }
}
