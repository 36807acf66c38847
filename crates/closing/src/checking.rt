//! Whether no step leaves a list of ranked pairs.

ghost use Rattle.std.specs.Prelude.{◌≡◌, ◌⊎◌, Contains, IfOk, IfSome, IsTrue};
ghost use Rattle.pairs.specs.Marking.{CanBeFollowed};
ghost use Rattle.closing.specs.inner.Told.{AllLeadInto, AreSound, AreTold, HomeStays, IsFollowedBy, IsSingle, IsSound, Keeps, LeadsInto, Stays};

use crate::following::{Breach, Followed, steps_of};
use crate::glueing::are_glued;
use crate::index::{Index, is_listed};
use crate::numbering::ViewNumbers;
use crate::ranked::RankedPair;
use base::NoMemory;
use control::{may_read, may_write};
use pairs::{Pair, Party, Sight, home_data_seen};
use std::alloc::Global;
use tables::Tables;

/// The steps of each of these ranked pairs, place by place, if none of them leaves the list, meets a blank cell or returns a stale
/// value, and no writer stands beside a reader. A list that doesn't have pairs that begin alike together is turned down too.
pub(crate) fn kept_steps(
    alloc: Global,
    tables: &Tables,
    list: &[RankedPair],
) -> Result<Option<Vec<Vec<Followed>>>, NoMemory>
    ensures { IfOk result (λ found. IfSome found (λ steps. Keeps tables.now list.now steps.items)) }
{
    let index = Index::of(alloc, list)?;
    if !is_listed(list, &index, &RankedPair::opened()) || !are_sound(tables, list, &index) {
        return Ok(None);
    }
    let Some(numbers) = ViewNumbers::of(alloc, list)? else {
        return Ok(None);
    };
    let Some(steps) = all_steps(alloc, tables, list, &index)? else {
        return Ok(None);
    };
    if !are_glued(list, &index, &numbers, &steps) {
        return Ok(None);
    }
    Ok(Some(steps))
}

/// Whether each ranked pair is followed, stands here in the other order too, has no writer beside a reader, and stays among these
/// where Data comes to the home.
fn are_sound(tables: &Tables, list: &[RankedPair], index: &Index) -> bool
    ensures { IsTrue result → AreSound tables.now list.now }
{
    for ranked in list {
        if !is_sound(tables, list, index, ranked) {
            return false;
        }
    }
    true
}

fn is_sound(tables: &Tables, list: &[RankedPair], index: &Index, ranked: &RankedPair) -> bool
    ensures { IsTrue result → IsSound tables.now list.now ranked.now }
{
    if !ranked.pair.is_few() || !ranked.pair.is_marked() {
        return false;
    }
    is_single(&ranked.pair)
        & is_listed(list, index, &ranked.turned())
        & home_stays(tables, list, index, ranked)
}

/// Whether no writer stands beside a reader.
fn is_single(pair: &Pair) -> bool
    ensures { IsTrue result → IsSingle pair.now }
{
    !(may_write(pair.first.state) & may_read(pair.second.state))
}

/// Whether a ranked pair stays among these where Data comes to the home.
fn home_stays(tables: &Tables, list: &[RankedPair], index: &Index, ranked: &RankedPair) -> bool
    requires { CanBeFollowed ranked.now.pair }
    ensures { IsTrue result → HomeStays tables.now list.now ranked.now }
{
    let pair = &ranked.pair;
    stays(list, index, ranked, &home_data_seen(tables, false, pair))
        & stays(list, index, ranked, &home_data_seen(tables, true, pair))
}

/// Whether what is seen from a ranked pair by Data at the home is among these.
fn stays(list: &[RankedPair], index: &Index, ranked: &RankedPair, sight: &Sight) -> bool
    ensures { IsTrue result → Stays list.now ranked.now sight.now }
{
    match sight {
        Sight::Unmoved | Sight::Spoilt(Party::Third) => true,
        Sight::Lost | Sight::Spoilt(_) => false,
        Sight::Seen(concerned, after) => {
            let after = RankedPair::of(after, ranked.order);
            is_reached(list, index, *concerned, &after)
        }
    }
}

/// Whether a step that concerns no third cache leads to one of these.
fn is_reached(list: &[RankedPair], index: &Index, concerned: Party, after: &RankedPair) -> bool
    ensures { IsTrue result → concerned ≡ Party.Third ⊎ Contains list.now after.now }
{
    match concerned {
        Party::Third => true,
        _ => is_listed(list, index, after),
    }
}

/// Whether a step leads to one of these, if it concerns no third cache.
fn leads(list: &[RankedPair], index: &Index, ranked: &RankedPair, step: &Followed) -> bool
    ensures { IsTrue result → LeadsInto list.now ranked.now step.now }
{
    let after = RankedPair::of(&step.after, ranked.order.after(step.rule));
    is_reached(list, index, step.concerned, &after)
}

/// Whether all steps do.
fn all_lead(list: &[RankedPair], index: &Index, ranked: &RankedPair, steps: &[Followed]) -> bool
    ensures { IsTrue result → AllLeadInto list.now ranked.now steps.now }
{
    for step in steps {
        if !leads(list, index, ranked, step) {
            return false;
        }
    }
    true
}

/// The steps of a ranked pair, if they stay among these.
fn followed(
    alloc: Global,
    tables: &Tables,
    list: &[RankedPair],
    index: &Index,
    ranked: &RankedPair,
) -> Result<Option<Vec<Followed>>, NoMemory>
    ensures { IfOk result (λ found. IfSome found (λ steps. IsFollowedBy tables.now list.now ranked.now steps.items)) }
{
    if !ranked.pair.is_few() || !ranked.pair.is_marked() {
        return Ok(None);
    }
    match steps_of(alloc, tables, &ranked.pair) {
        Ok(steps) => {
            if !all_lead(list, index, ranked, &steps) {
                return Ok(None);
            }
            Ok(Some(steps))
        }
        Err(Breach::NoMemory) => Err(NoMemory),
        Err(_) => Ok(None),
    }
}

/// The steps of each ranked pair, if they stay among these.
fn all_steps(
    alloc: Global,
    tables: &Tables,
    list: &[RankedPair],
    index: &Index,
) -> Result<Option<Vec<Vec<Followed>>>, NoMemory>
    ensures { IfOk result (λ found. IfSome found (λ steps. AreTold tables.now list.now steps.items)) }
{
    let mut all = Vec::with_capacity(alloc, list.len())?;
    for ranked in list {
        match followed(alloc, tables, list, index, ranked)? {
            Some(steps) => all.push(steps)?,
            None => return Ok(None),
        }
    }
    Ok(Some(all))
}
