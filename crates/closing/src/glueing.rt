//! Whether three ranked pairs of three caches stay among these where one of the caches takes a step.

ghost use Rattle.std.specs.Prelude.{◌≡◌, ◌≤◌, ◌<◌, ◌↔◌, ℕ, IsTrue, Some, length, slice_get};
ghost use Rattle.closing.specs.Closed as closed;
ghost use Rattle.closing.specs.declared.ranked.RankedPair.{RankedPair};
ghost use Rattle.closing.specs.inner.Told.{AllGlueOver, AreOne, GlueTogether, Glues, GluesAt, GluesOver, GluesWith};

use crate::following::Followed;
use crate::index::{Index, is_listed};
use crate::numbering::{Span, ViewNumbers};
use crate::ranked::RankedPair;
use pairs::{Link, Marks, Pair, Party};

/// Whether no place of a link is marked twice.
pub(crate) fn are_apart(marks: &Marks, others: &Marks) -> bool
    ensures { result ≡ closed.are_apart marks.now others.now }
{
    let mut mine = *marks;
    let mut theirs = *others;
    for _ in 0..marks.len() {
        if mine.head() == Some(true) && theirs.head() == Some(true) {
            return false;
        }
        mine = mine.behind();
        theirs = theirs.behind();
    }
    true
}

/// Marks for a link that may have grown at its end: no later place is marked.
fn lengthened(link: &Link, marks: &Marks) -> Marks
    ensures { result ≡ closed.lengthened link.now marks.now }
{
    let mut all = Marks::empty();
    let mut places = *link;
    let mut rest = *marks;
    for _ in 0..link.len() {
        all.push(rest.head().unwrap_or(false));
        places = places.behind();
        rest = rest.behind();
    }
    all
}

/// The pair of the two that don't act, after a step that made these two pairs with the one that does.
pub(crate) fn glued(one: &Pair, other: &Pair, between: &Pair) -> Pair
    ensures { result ≡ closed.glued one.now other.now between.now }
{
    Pair {
        shared: one.shared,
        first: one.second,
        second: other.second,
        first_names: lengthened(&one.second.link, &between.first_names),
        second_names: lengthened(&other.second.link, &between.second_names),
    }
}

/// Whether a step, as two ranked pairs of its actor see it, leads to one of these in the third one, and in that of the cache that
/// it doesn't concern.
fn is_glued(
    list: &[RankedPair],
    index: &Index,
    neighbour: &RankedPair,
    between: &RankedPair,
    one: &Followed,
    other: &Followed,
) -> bool
    ensures { IsTrue result → Glues list.now neighbour.now between.now one.now other.now }
{
    let kept = match (one.concerned, other.concerned) {
        (Party::Second, Party::Third) => {
            let order = neighbour.order.after(other.rule);
            is_listed(list, index, &RankedPair::of(&other.after, order))
        }
        (Party::Nobody, Party::Nobody)
        | (Party::Third, Party::Third)
        | (Party::Third, Party::Second) => true,
        _ => return true,
    };
    let pair = glued(&one.after, &other.after, &between.pair);
    kept && (!pair.fits() || is_listed(list, index, &RankedPair::of(&pair, between.order)))
}

/// Whether two steps may be one, as two pairs of its actor see it.
pub(crate) fn is_one(one: &Followed, other: &Followed) -> bool
    ensures { IsTrue result ↔ AreOne one.now other.now }
{
    one.rule.is_same(other.rule)
        && one.after.shared.is_same(&other.after.shared)
        && one.after.first.is_same(&other.after.first)
}

/// Whether a step is glued over each third pair that stands within a span and has this number as its second one.
fn is_glued_within(
    list: &[RankedPair],
    index: &Index,
    numbers: &ViewNumbers,
    span: Span,
    second: usize,
    neighbour: &RankedPair,
    one: &Followed,
    other: &Followed,
) -> bool
    ensures { IsTrue result → GluesOver list.now numbers.now.seconds.items span second neighbour.now one.now other.now }
{
    for place in span.begin..span.end {
        if !is_glued_over(list, index, numbers, place, second, neighbour, one, other) {
            return false;
        }
    }
    true
}

/// Whether a step is glued over the pair at a place, if that has this number as its second one.
fn is_glued_over(
    list: &[RankedPair],
    index: &Index,
    numbers: &ViewNumbers,
    place: usize,
    second: usize,
    neighbour: &RankedPair,
    one: &Followed,
    other: &Followed,
) -> bool
    ensures { IsTrue result → (r : RankedPair) → slice_get numbers.now.seconds.items place ≡ Some second → slice_get list.now place ≡ Some r →
        Glues list.now neighbour.now r one.now other.now }
{
    let (Some(number), Some(between)) = (numbers.seconds.get(place), list.get(place)) else {
        return true;
    };
    *number != second || is_glued(list, index, neighbour, between, one, other)
}

/// Whether a step is glued so with each of these that is one with it.
fn is_glued_to(
    list: &[RankedPair],
    index: &Index,
    numbers: &ViewNumbers,
    span: Span,
    second: usize,
    neighbour: &RankedPair,
    one: &Followed,
    theirs: &[Followed],
) -> bool
    ensures { IsTrue result → AllGlueOver list.now numbers.now.seconds.items span second neighbour.now one.now theirs.now }
{
    for other in theirs {
        if !may_be_glued(list, index, numbers, span, second, neighbour, one, other) {
            return false;
        }
    }
    true
}

/// Whether two steps aren't one or are glued so.
fn may_be_glued(
    list: &[RankedPair],
    index: &Index,
    numbers: &ViewNumbers,
    span: Span,
    second: usize,
    neighbour: &RankedPair,
    one: &Followed,
    other: &Followed,
) -> bool
    ensures { IsTrue result → AreOne one.now other.now →
        GluesOver list.now numbers.now.seconds.items span second neighbour.now one.now other.now }
{
    !is_one(one, other)
        || is_glued_within(list, index, numbers, span, second, neighbour, one, other)
}

/// Whether all steps of two pairs that begin alike are glued so.
fn are_glued_within(
    list: &[RankedPair],
    index: &Index,
    numbers: &ViewNumbers,
    span: Span,
    second: usize,
    neighbour: &RankedPair,
    mine: &[Followed],
    theirs: &[Followed],
) -> bool
    ensures { IsTrue result → GlueTogether list.now numbers.now.seconds.items span second neighbour.now mine.now theirs.now }
{
    for one in mine {
        if !is_glued_to(list, index, numbers, span, second, neighbour, one, theirs) {
            return false;
        }
    }
    true
}

/// Whether the pair at a place is glued with each that begins like it.
fn is_glued_at(
    list: &[RankedPair],
    index: &Index,
    numbers: &ViewNumbers,
    steps: &[Vec<Followed>],
    place: usize,
) -> bool
    ensures { IsTrue result → GluesAt list.now numbers.now steps.now place }
{
    let (Some(ranked), Some(mine), Some(first), Some(second)) = (
        list.get(place),
        steps.get(place),
        numbers.firsts.get(place),
        numbers.seconds.get(place),
    ) else {
        return false;
    };
    let (Some(beside), Some(between)) = (numbers.spans.get(*first), numbers.spans.get(*second))
    else {
        return false;
    };
    is_glued_beside(list, index, numbers, steps, ranked, mine, *beside, *between)
}

/// Whether a pair is glued with each that stands within a span.
fn is_glued_beside(
    list: &[RankedPair],
    index: &Index,
    numbers: &ViewNumbers,
    steps: &[Vec<Followed>],
    ranked: &RankedPair,
    mine: &[Followed],
    beside: Span,
    between: Span,
) -> bool
    ensures { IsTrue result → (j : ℕ) → beside.begin ≤ j → j < beside.end →
        GluesWith list.now numbers.now.seconds.items steps.now ranked.now mine.now between j }
{
    for other in beside.begin..beside.end {
        if !is_glued_with(list, index, numbers, steps, ranked, mine, between, other) {
            return false;
        }
    }
    true
}

/// Whether a pair is glued with the one at a place.
fn is_glued_with(
    list: &[RankedPair],
    index: &Index,
    numbers: &ViewNumbers,
    steps: &[Vec<Followed>],
    ranked: &RankedPair,
    mine: &[Followed],
    between: Span,
    place: usize,
) -> bool
    ensures { IsTrue result → GluesWith list.now numbers.now.seconds.items steps.now ranked.now mine.now between place }
{
    let (Some(other), Some(theirs), Some(second)) = (
        list.get(place),
        steps.get(place),
        numbers.seconds.get(place),
    ) else {
        return true;
    };
    !are_apart(&ranked.pair.first_names, &other.pair.first_names)
        || are_glued_within(list, index, numbers, between, *second, other, mine, theirs)
}

/// Whether all pairs are.
pub(crate) fn are_glued(
    list: &[RankedPair],
    index: &Index,
    numbers: &ViewNumbers,
    steps: &[Vec<Followed>],
) -> bool
    ensures { IsTrue result → (place : ℕ) → place < length list.now → GluesAt list.now numbers.now steps.now place }
{
    for place in 0..list.len() {
        if !is_glued_at(list, index, numbers, steps, place) {
            return false;
        }
    }
    true
}
