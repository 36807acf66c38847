//! Beginning a tree in the memory that a part has. Growths come on the way down to the offer, where they change nothing
//! that means anything, and changes on the way back.

ghost use Rattle.std.specs.Prelude.{◌≡◌, ◌<◌, ◌≤◌, MatchResult, OnOk, length, map};
ghost use Rattle.cursors.specs.Cursors.{progress};
ghost use Rattle.cursors.specs.Stock.{Empty, With, room, room_in_turn, room_of_all, stock};
ghost use Rattle.cursors.specs.inner.Parts.{Adds, AddsBoth, BeginsAmong, Grows, IsWholeBut, MovesBy, at_place, bare, holding, parts_of, place_of};
ghost use Rattle.scenario.specs.Taking.{offers, offers_in_turn, offers_of_all};
ghost use Rattle.scenario.specs.Tree as tree;
ghost use Rattle.scenario.specs.Tree.{plain, plain_all};

use super::{Part, PartPlace};
use base::NoMemory;
use scenario::Scenario;
use scenario::seeking::{place_among, place_in_turn};
use std::alloc::Allocator;
use std::mem;

/// Takes an offer of a tree: the part is at what is left of the tree, whatever it was at before.
#[cycle(starting)]
#[tactic(auto, using(scenario::proofs::Children::children, crate::proofs::Cursors::parts))]
pub(super) fn start<'t, A: Allocator, B: Allocator + Clone>(
    part: &mut Part<'t, A, B>,
    tree: &'t Scenario<A>,
    alloc: &B,
    at: usize,
) -> Result<(), NoMemory>
    requires { at < length (offers (plain tree.now)) }
    ensures moves { MovesBy (plain tree.now) at (room (plain tree.now)) result part.old part.new }
    ensures held { Adds (stock part.old) (room (plain tree.now)) (stock part.new) }
{
    match tree {
        Scenario::One(_) => {
            part.move_to(PartPlace::Nothing);
            Ok(())
        }
        Scenario::Seq(children) => start_row(part, children.as_slice(), alloc, at),
        Scenario::Any(children) => {
            let offer = place_among(children.as_slice(), at);
            start(part, &children[offer.child], alloc, offer.at)
        }
        Scenario::Times(turns, child) => start_turn(part, *turns, child, alloc, at),
        Scenario::Both(children) => start_both(part, children.as_slice(), alloc, at),
    }
}

/// Takes an offer of children in turn. Those before the one that offered it go.
#[cycle(starting)]
#[tactic(auto, using(crate::proofs::Cursors::parts))]
pub(super) fn start_row<'t, A: Allocator, B: Allocator + Clone>(
    part: &mut Part<'t, A, B>,
    children: &'t [Scenario<A>],
    alloc: &B,
    at: usize,
) -> Result<(), NoMemory>
    requires { at < length (offers_in_turn (plain_all children.now)) }
    ensures moves { MovesBy (tree.Seq (plain_all children.now)) at (room_in_turn (plain_all children.now))
        result part.old part.new }
    ensures held { Adds (stock part.old) (room_in_turn (plain_all children.now)) (stock part.new) }
{
    let offer = place_in_turn(children, at);
    start_part(part, 1, 0, &children[offer.child], alloc, offer.at)?;
    part.move_to(PartPlace::InSeq(&children[offer.child + 1..]));
    Ok(())
}

/// Takes an offer of the first of so many turns.
#[cycle(starting)]
#[tactic(auto, using(crate::proofs::Cursors::parts))]
pub(super) fn start_turn<'t, A: Allocator, B: Allocator + Clone>(
    part: &mut Part<'t, A, B>,
    turns: u32,
    child: &'t Scenario<A>,
    alloc: &B,
    at: usize,
) -> Result<(), NoMemory>
    requires turns { 0 < turns }
    requires offer { at < length (offers (plain child.now)) }
    ensures moves { MovesBy (tree.Times turns (plain child.now)) at (With (room (plain child.now)) Empty)
        result part.old part.new }
    ensures held { Adds (stock part.old) (With (room (plain child.now)) Empty) (stock part.new) }
{
    start_part(part, 1, 0, child, alloc, at)?;
    part.move_to(PartPlace::InTimes(turns - 1, child));
    Ok(())
}

/// Takes an offer of children that go on at once. The others are still whole.
#[cycle(starting)]
#[tactic(auto, using(crate::proofs::Cursors::parts))]
fn start_both<'t, A: Allocator, B: Allocator + Clone>(
    part: &mut Part<'t, A, B>,
    children: &'t [Scenario<A>],
    alloc: &B,
    at: usize,
) -> Result<(), NoMemory>
    requires { at < length (offers_of_all (plain_all children.now)) }
    ensures moves { MovesBy (tree.Both (plain_all children.now)) at (room_of_all (plain_all children.now))
        result part.old part.new }
    ensures held { Adds (stock part.old) (room_of_all (plain_all children.now)) (stock part.new) }
{
    let offer = place_among(children, at);
    start_part(
        part,
        children.len(),
        offer.child,
        &children[offer.child],
        alloc,
        offer.at,
    )?;
    keep_others(part, children, offer.child);
    part.move_to(PartPlace::InBoth(children.len()));
    Ok(())
}

/// Takes an offer of a tree, in the part of this number, of so many at least.
#[cycle(starting)]
#[tactic(auto, using(crate::proofs::Cursors::parts))]
fn start_part<'t, A: Allocator, B: Allocator + Clone>(
    part: &mut Part<'t, A, B>,
    count: usize,
    number: usize,
    tree: &'t Scenario<A>,
    alloc: &B,
    at: usize,
) -> Result<(), NoMemory>
    requires part { number < count }
    requires offer { at < length (offers (plain tree.now)) }
    ensures moves { MatchResult result (λ _. BeginsAmong count number (plain tree.now) at (parts_of part.new))
        (λ _. progress part.new ≡ progress part.old) }
    ensures held { AddsBoth (stock part.old) (bare count) (at_place number (room (plain tree.now))) (stock part.new) }
{
    make_room(part, alloc, count)?;
    match part {
        Part::Begun(_place, parts) => start(&mut parts[number], tree, alloc, at),
        Part::Fresh(_) => unreachable!(),
    }
}

/// Each other part is all of its child.
#[tactic(auto, using(crate::proofs::Cursors::parts))]
fn keep_others<'t, A: Allocator, B: Allocator>(
    part: &mut Part<'t, A, B>,
    children: &'t [Scenario<A>],
    number: usize,
)
    requires part { number < length children.now }
    requires room { length children.now ≤ length (parts_of part.old) }
    ensures whole { IsWholeBut number (map plain children.now) (parts_of part.old) (parts_of part.new) }
    ensures count { length (parts_of part.new) ≡ length (parts_of part.old) }
    ensures held { stock part.new ≡ stock part.old }
{
    match part {
        Part::Begun(_place, parts) => make_whole_but(parts, children, number),
        Part::Fresh(_) => unreachable!(),
    }
}

#[tactic(auto, using(crate::proofs::Cursors::parts))]
fn make_whole_but<'t, A: Allocator, B: Allocator>(
    parts: &mut Vec<Part<'t, A, B>, B>,
    children: &'t [Scenario<A>],
    number: usize,
)
    requires part { number < length children.now }
    requires room { length children.now ≤ length parts.old.items }
    ensures whole { IsWholeBut number (map plain children.now) (map progress parts.old.items) (map progress parts.new.items) }
    ensures count { length parts.new.items ≡ length parts.old.items }
    ensures held { map stock parts.new.items ≡ map stock parts.old.items }
{
    let begun = mem::replace(&mut parts[number], Part::ended());
    for (i, child) in children.iter().enumerate() {
        parts[i].move_to(PartPlace::Whole(child));
    }
    parts[number] = begun;
}

/// It has so many parts at least. Nothing is left of those that come new.
#[tactic(auto, using(crate::proofs::Cursors::parts))]
pub(super) fn make_room<A: Allocator, B: Allocator + Clone>(
    part: &mut Part<'_, A, B>,
    alloc: &B,
    count: usize,
) -> Result<(), NoMemory>
    ensures place { place_of part.new ≡ place_of part.old }
    ensures grown { Grows (parts_of part.old) (parts_of part.new) }
    ensures same { progress part.new ≡ progress part.old }
    ensures room { OnOk result (count ≤ length (parts_of part.new)) }
    ensures held { Adds (stock part.old) (bare count) (stock part.new) }
{
    match part {
        Part::Begun(_place, parts) => push_ended(parts, count),
        Part::Fresh(place) => {
            let place = *place;
            let mut parts = Vec::new(alloc.clone()?);
            push_ended(&mut parts, count)?;
            *part = Part::Begun(place, parts);
            Ok(())
        }
    }
}

/// Adds parts up to this number. Where memory is refused, none is added.
#[tactic(auto, using(crate::proofs::Cursors::parts))]
fn push_ended<A: Allocator, B: Allocator>(
    parts: &mut Vec<Part<'_, A, B>, B>,
    count: usize,
) -> Result<(), NoMemory>
    ensures grown { Grows (map progress parts.old.items) (map progress parts.new.items) }
    ensures room { OnOk result (count ≤ length parts.new.items) }
    ensures held { Adds (holding (map stock parts.old.items)) (bare count) (holding (map stock parts.new.items)) }
{
    let len = parts.len();
    parts.reserve_exact(count.saturating_sub(len))?;
    for _ in len..count {
        parts.push_reserved(Part::ended());
    }
    Ok(())
}
