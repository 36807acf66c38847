//! Passing an offer that a place alone tells of, without a look for the tree that has it and without new parts.

ghost use Rattle.std.specs.Prelude.{◌≡◌, ◌<◌, ℕ, false, length, true};
ghost use Rattle.cursors.specs.Cursors.{Nothing, first_part, progress};
ghost use Rattle.cursors.specs.Repeats.{Repeats};
ghost use Rattle.cursors.specs.Stock.{room_in_turn, stock, wants};
ghost use Rattle.cursors.specs.inner.Parts.{MovesTo, part_left, parts_of, place_of};
ghost use Rattle.scenario.specs.Taking.{offers};
ghost use Rattle.scenario.specs.Tree as tree;
ghost use Rattle.scenario.specs.Tree.{plain_all};
ghost use Rattle.cursors.specs.inner.Turns.{chooses};

use super::repeating::{first_is_over, is_ask};
use super::{Part, PartPlace};
use scenario::Scenario;
use std::alloc::Allocator;

/// Passes an offer of a choice of asks that is made turn by turn, whichever it is, where more turns are left than one; the same is
/// offered again then. Else it answers `false`, and nothing has changed.
#[tactic(auto, using(crate::proofs::Cursors::parts))]
pub(crate) fn pass_turn<A: Allocator, B: Allocator>(part: &mut Part<'_, A, B>) -> bool
    requires { chooses part.old ≡ true }
    ensures repeats { result ≡ true → Repeats (part_left part.old) }
    ensures passed { result ≡ true → (at : ℕ) → at < length (offers (part_left part.old)) →
        MovesTo (part_left part.old) at (wants (progress part.old)) (progress part.new) }
    ensures same { result ≡ false → progress part.new ≡ progress part.old }
    ensures chooses { chooses part.new ≡ true }
    ensures held { stock part.new ≡ stock part.old }
{
    let PartPlace::InTimes(turns, child) = part.place() else {
        return false;
    };
    if turns <= 1 || !first_is_over(part) {
        return false;
    }
    part.move_to(PartPlace::InTimes(turns - 1, child));
    true
}

/// Passes an offer where it is an ask that comes next in a row. Else it answers `false`, and nothing has changed.
#[tactic(auto, using(crate::proofs::Cursors::parts))]
pub(crate) fn pass_at_once<A: Allocator, B: Allocator>(part: &mut Part<'_, A, B>, at: usize) -> bool
    requires { at < length (offers (part_left part.old)) }
    ensures passed { result ≡ true → MovesTo (part_left part.old) at (wants (progress part.old)) (progress part.new) }
    ensures same { result ≡ false → progress part.new ≡ progress part.old }
    ensures chooses { chooses part.new ≡ chooses part.old }
    ensures held { stock part.new ≡ stock part.old }
{
    match part.place() {
        PartPlace::InSeq(others) => first_is_over(part) && pass_ask(part, others, at),
        PartPlace::Whole(Scenario::Seq(children)) => pass_ask(part, children.as_slice(), at),
        PartPlace::Nothing | PartPlace::Whole(_) | PartPlace::InTimes(..) | PartPlace::InBoth(_) =>
            false,
    }
}

/// Passes the ask that comes first in a row, where offer `at` is one and the part has a part of its own. Else nothing has changed.
#[tactic(auto, using(crate::proofs::Cursors::parts))]
fn pass_ask<'t, A: Allocator, B: Allocator>(
    part: &mut Part<'t, A, B>,
    row: &'t [Scenario<A>],
    at: usize,
) -> bool
    ensures passed { result ≡ true → MovesTo (tree.Seq (plain_all row.entry.now)) at (room_in_turn (plain_all row.entry.now)) (progress part.new) }
    ensures place { result ≡ true → chooses part.new ≡ false }
    ensures same { result ≡ false → part.new ≡ part.old }
    ensures held { stock part.new ≡ stock part.old }
{
    if at != 0 || row.is_empty() || !is_ask(&row[0]) || !end_first(part) {
        return false;
    }
    part.move_to(PartPlace::InSeq(&row[1..]));
    true
}

/// Nothing is left of the first part from now on, if there is one.
#[tactic(auto, using(crate::proofs::Cursors::parts))]
fn end_first<A: Allocator, B: Allocator>(part: &mut Part<'_, A, B>) -> bool
    ensures ended { result ≡ true → first_part (parts_of part.new) ≡ Nothing }
    ensures same { result ≡ false → part.new ≡ part.old }
    ensures place { place_of part.new ≡ place_of part.old }
    ensures held { stock part.new ≡ stock part.old }
{
    match part {
        Part::Begun(_place, parts) => {
            if parts.is_empty() {
                return false;
            }
            parts[0].move_to(PartPlace::Nothing);
            true
        }
        Part::Fresh(_) => false,
    }
}
