//! Gathers the least list of ranked pairs that no step leaves. Nothing is promised of it: whether no step does is looked at
//! apart.

use crate::following::{Breach, Followed, steps_of};
use crate::glueing::{are_apart, glued, is_one};
use crate::listing::{Ends, Listing};
use crate::ranked::RankedPair;
use base::NoMemory;
use control::{may_read, may_write};
use pairs::{Pair, Party, Rule, Sight, home_data_seen};
use std::alloc::Global;
use tables::Tables;

/// The most ranked pairs that are gathered, each counted in both orders.
pub const MOST_PAIRS: usize = 40_000;

/// Why no closed list of pairs is known.
#[derive(Clone, Copy, Debug, PartialEq, Eq)]
pub enum Refusal {
    /// Memory was refused.
    NoMemory,
    /// There are more than [`MOST_PAIRS`].
    TooMany,
    /// This pair has more messages than are followed. It doesn't come about, as no step leads there.
    Crowded(Pair),
    /// In this pair a writer stands beside a reader.
    TwoHolders(Pair),
    /// What comes of this pair by a step of its first cache isn't followed.
    Lost(Pair, Rule),
    /// By a step of this pair's first cache a blank cell is met, or a load returns what may not be the last store's value.
    Spoilt(Pair, Rule),
    /// Data that comes to the home of this pair isn't followed, or meets a blank cell.
    AtHome(Pair),
    /// The list that was gathered isn't closed.
    NotClosed,
}

impl From<NoMemory> for Refusal {
    fn from(_refused: NoMemory) -> Refusal {
        Refusal::NoMemory
    }
}

/// The ranked pairs that can come about under these tables, each in both orders and those that begin alike together; or why
/// they aren't followed to the end.
pub fn gather(alloc: Global, tables: &Tables) -> Result<Vec<RankedPair>, Refusal> {
    let mut listing = Listing::empty(alloc);
    listing.add(alloc, &RankedPair::opened())?;
    for place in 0..MOST_PAIRS {
        let (Some(ranked), Some(ends)) = (listing.list.get(place).copied(), listing.ends_of(place))
        else {
            return Ok(listing.grouped(alloc)?);
        };
        step(alloc, tables, &mut listing, &ranked)?;
        glue_beside(alloc, &mut listing, place, ends)?;
        glue_over(alloc, &mut listing, place, ends)?;
    }
    Err(Refusal::TooMany)
}

/// Adds what can come of a ranked pair by itself, and notes its steps.
fn step(
    alloc: Global,
    tables: &Tables,
    listing: &mut Listing,
    ranked: &RankedPair,
) -> Result<(), Refusal> {
    let pair = &ranked.pair;
    if may_write(pair.first.state) && may_read(pair.second.state) {
        return Err(Refusal::TwoHolders(*pair));
    }
    if !(pair.is_few() && pair.is_marked()) {
        return Err(Refusal::Crowded(*pair));
    }
    for third_shares in [false, true] {
        match home_data_seen(tables, third_shares, pair) {
            Sight::Unmoved => {}
            Sight::Seen(_, after) => listing.add(alloc, &RankedPair::of(&after, ranked.order))?,
            Sight::Lost | Sight::Spoilt(_) => return Err(Refusal::AtHome(*pair)),
        }
    }
    let steps = match steps_of(alloc, tables, pair) {
        Ok(steps) => steps,
        Err(Breach::NoMemory) => return Err(Refusal::NoMemory),
        Err(Breach::Lost(rule)) => return Err(Refusal::Lost(*pair, rule)),
        Err(Breach::Spoilt(rule)) => return Err(Refusal::Spoilt(*pair, rule)),
    };
    for step in &steps {
        if step.concerned != Party::Third {
            listing.add(
                alloc,
                &RankedPair::of(&step.after, ranked.order.after(step.rule)),
            )?;
        }
    }
    Ok(listing.note(steps)?)
}

/// Adds what two sights of one step make of three ranked pairs: of the cache that the step doesn't concern, and of the two that
/// don't act.
fn glue(
    alloc: Global,
    listing: &mut Listing,
    one: (&RankedPair, &Followed),
    other: (&RankedPair, &Followed),
    between: &RankedPair,
) -> Result<(), NoMemory> {
    let ((first, mine), (second, theirs)) = (one, other);
    if !is_one(mine, theirs) {
        return Ok(());
    }
    match (mine.concerned, theirs.concerned) {
        (Party::Nobody, Party::Nobody) | (Party::Third, Party::Third) => {}
        (Party::Second, Party::Third) => {
            let order = second.order.after(theirs.rule);
            listing.add(alloc, &RankedPair::of(&theirs.after, order))?;
        }
        (Party::Third, Party::Second) => {
            let order = first.order.after(mine.rule);
            listing.add(alloc, &RankedPair::of(&mine.after, order))?;
        }
        _ => return Ok(()),
    }
    let pair = glued(&mine.after, &theirs.after, &between.pair);
    if pair.fits() {
        listing.add(alloc, &RankedPair::of(&pair, between.order))?;
    }
    Ok(())
}

/// Glues all steps of two ranked pairs that begin alike over a third one.
fn glue_all(
    alloc: Global,
    listing: &mut Listing,
    one: usize,
    other: usize,
    between: usize,
) -> Result<(), NoMemory> {
    let (Some(first), Some(second), Some(third)) = (
        listing.list.get(one).copied(),
        listing.list.get(other).copied(),
        listing.list.get(between).copied(),
    ) else {
        return Ok(());
    };
    if !are_apart(&first.pair.first_names, &second.pair.first_names) {
        return Ok(());
    }
    for number in 0..listing.step_count(one) {
        for against in 0..listing.step_count(other) {
            if let (Some(mine), Some(theirs)) = (
                listing.step(one, number),
                listing.step(other, against),
            ) {
                glue(alloc, listing, (&first, &mine), (&second, &theirs), &third)?;
            }
        }
    }
    Ok(())
}

/// Glues a ranked pair with each that begins like it.
fn glue_beside(
    alloc: Global,
    listing: &mut Listing,
    one: usize,
    ends: Ends,
) -> Result<(), NoMemory> {
    let others = listing.starting(ends.first).to_vec(alloc)?;
    for other in &others {
        let Some(other_ends) = listing.ends_of(*other) else {
            continue;
        };
        for between in &listing.between(alloc, ends.second, other_ends.second)? {
            glue_all(alloc, listing, one, *other, *between)?;
            if let Some(turned) = listing.turned(*between) {
                glue_all(alloc, listing, *other, one, turned)?;
            }
        }
    }
    Ok(())
}

/// Glues over a ranked pair of two that don't act.
fn glue_over(
    alloc: Global,
    listing: &mut Listing,
    between: usize,
    ends: Ends,
) -> Result<(), NoMemory> {
    let acting = listing.starting(ends.first).to_vec(alloc)?;
    for turned in &acting {
        let (Some(acting_ends), Some(one)) = (listing.ends_of(*turned), listing.turned(*turned))
        else {
            continue;
        };
        for other in &listing.between(alloc, acting_ends.second, ends.second)? {
            glue_all(alloc, listing, one, *other, between)?;
        }
    }
    Ok(())
}
