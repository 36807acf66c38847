//! Taking an offer of what is left.

ghost use Rattle.std.specs.Prelude.{◌≡◌, ◌<◌, MatchResult, length};
ghost use Rattle.cursors.specs.Cursors.{progress};
ghost use Rattle.cursors.specs.inner.Parts.{Adds, MovesPart, MovesBy, OffersAt, behind, part_left, parts_of, place_of, wants_at, wants_behind};
ghost use Rattle.cursors.specs.Stock.{stock, wants};
ghost use Rattle.scenario.specs.Taking.{offers};

use super::starting::{start, start_row, start_turn};
use super::{Part, PartPlace};
use base::NoMemory;
use scenario::seeking::find_among;
use std::alloc::Allocator;

/// Takes an offer of one of the parts in use, or of what is behind them.
#[cycle(taking_from_parts)]
#[tactic(auto, using(crate::proofs::Cursors::parts))]
pub(crate) fn take_from<A: Allocator, B: Allocator + Clone>(
    part: &mut Part<'_, A, B>,
    alloc: &B,
    at: usize,
) -> Result<(), NoMemory>
    requires { at < length (offers (part_left part.old)) }
    ensures moves { MovesBy (part_left part.old) at (wants (progress part.old)) result part.old part.new }
    ensures held { Adds (stock part.old) (wants (progress part.old)) (stock part.new) }
{
    match find_among(part.in_use(), at) {
        Ok(offer) => take_from_part(part, offer.child, alloc, offer.at),
        Err(further) => go_on(part, alloc, further),
    }
}

/// Takes an offer of the part of this number.
#[cycle(taking_from_parts)]
#[tactic(auto, using(crate::proofs::Cursors::parts))]
fn take_from_part<A: Allocator, B: Allocator + Clone>(
    part: &mut Part<'_, A, B>,
    number: usize,
    alloc: &B,
    at: usize,
) -> Result<(), NoMemory>
    requires { OffersAt (parts_of part.old) number at }
    ensures place { place_of part.new ≡ place_of part.old }
    ensures moves { MatchResult result (λ _. MovesPart (parts_of part.old) number at (parts_of part.new))
        (λ _. progress part.new ≡ progress part.old) }
    ensures held { Adds (stock part.old) (wants_at (parts_of part.old) number) (stock part.new) }
{
    match part {
        Part::Begun(_place, parts) => take_from(&mut parts[number], alloc, at),
        Part::Fresh(_) => unreachable!(),
    }
}

/// Takes an offer of what is behind the parts in use. These go.
#[tactic(auto, using(crate::proofs::Cursors::parts))]
fn go_on<A: Allocator, B: Allocator + Clone>(
    part: &mut Part<'_, A, B>,
    alloc: &B,
    at: usize,
) -> Result<(), NoMemory>
    requires { at < length (offers (behind (place_of part.old))) }
    ensures moves { MovesBy (behind (place_of part.old)) at (wants_behind (place_of part.old)) result part.old part.new }
    ensures held { Adds (stock part.old) (wants_behind (place_of part.old)) (stock part.new) }
{
    match part.place() {
        PartPlace::Nothing | PartPlace::InBoth(_) => unreachable!(),
        PartPlace::Whole(tree) => start(part, tree, alloc, at),
        PartPlace::InSeq(others) => start_row(part, others, alloc, at),
        PartPlace::InTimes(turns, child) => start_turn(part, turns, child, alloc, at),
    }
}
