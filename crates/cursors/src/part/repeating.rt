//! Whether the same is offered again, whichever offer is taken: by a look at how far a cursor is, without a list.

ghost use Rattle.std.specs.Prelude.{◌≡◌, ◌<◌, true};
ghost use Rattle.cursors.specs.Cursors.{Nothing, first_part, progress};
ghost use Rattle.cursors.specs.inner.Parts.{part_left, parts_of};
ghost use Rattle.cursors.specs.Repeats.{Repeats};
ghost use Rattle.scenario.specs.Tree.{plain, plain_all};
ghost use Rattle.cursors.specs.inner.Turns.{all_asks, chooses, is_ask, is_choice};

use super::{Part, PartPlace};
use scenario::Scenario;
use std::alloc::Allocator;

/// Whether the same is offered again, whichever offer is taken, as the part is all of a tree that says so. `false` promises nothing.
#[tactic(auto, using(crate::proofs::Cursors::parts))]
pub(crate) fn part_repeats<A: Allocator, B: Allocator>(part: &Part<'_, A, B>) -> bool
    ensures { result ≡ true → Repeats (part_left part.now) }
{
    match part.place() {
        PartPlace::Whole(tree) => tree_repeats(tree),
        PartPlace::Nothing | PartPlace::InSeq(_) | PartPlace::InTimes(..) | PartPlace::InBoth(_) =>
            false,
    }
}

/// Whether a part is in turns of a choice of asks.
#[tactic(auto, using(crate::proofs::Cursors::parts))]
pub(crate) fn chooses<A: Allocator, B: Allocator>(part: &Part<'_, A, B>) -> bool
    ensures { result ≡ chooses part.now }
{
    match part.place() {
        PartPlace::InTimes(_, child) => is_choice(child),
        PartPlace::Nothing | PartPlace::Whole(_) | PartPlace::InSeq(_) | PartPlace::InBoth(_) =>
            false,
    }
}

/// Whether nothing is left of the first part.
pub(super) fn first_is_over<A: Allocator, B: Allocator>(part: &Part<'_, A, B>) -> bool
    ensures { result ≡ true → first_part (parts_of part.now) ≡ Nothing }
{
    match part.parts().first() {
        Some(first) => is_over(first),
        None => true,
    }
}

/// Whether nothing is left of a part, as its place says.
#[tactic(auto, using(crate::proofs::Cursors::parts))]
fn is_over<A: Allocator, B: Allocator>(part: &Part<'_, A, B>) -> bool
    ensures { result ≡ true → progress part.now ≡ Nothing }
{
    match part.place() {
        PartPlace::Nothing => true,
        _ => false,
    }
}

/// Whether a tree offers the same again, whichever offer is taken.
fn tree_repeats<A: Allocator>(tree: &Scenario<A>) -> bool
    ensures { result ≡ true → Repeats (plain tree.now) }
{
    match tree {
        Scenario::Times(turns, child) => repeats_turns(*turns, child),
        _ => false,
    }
}

/// Whether so many turns of a tree offer the same again, as it is a choice of asks.
fn repeats_turns<A: Allocator>(turns: u32, child: &Scenario<A>) -> bool
    ensures turns { result ≡ true → 1 < turns }
    ensures choice { result ≡ true → is_choice (plain child.now) ≡ true }
{
    turns > 1 && is_choice(child)
}

/// Whether a tree is one ask, or a choice of asks.
#[tactic(auto, using(scenario::proofs::Children::children))]
fn is_choice<A: Allocator>(tree: &Scenario<A>) -> bool
    ensures { result ≡ is_choice (plain tree.now) }
{
    match tree {
        Scenario::One(_) => true,
        Scenario::Any(children) => are_asks(children.as_slice()),
        Scenario::Seq(_) | Scenario::Times(..) | Scenario::Both(_) => false,
    }
}

/// Whether all of these are asks.
fn are_asks<A: Allocator>(children: &[Scenario<A>]) -> bool
    ensures { result ≡ all_asks (plain_all children.now) }
{
    for child in children {
        if !is_ask(child) {
            return false;
        }
    }
    true
}

/// Whether a tree is one ask.
pub(super) fn is_ask<A: Allocator>(tree: &Scenario<A>) -> bool
    ensures { result ≡ is_ask (plain tree.now) }
{
    match tree {
        Scenario::One(_) => true,
        _ => false,
    }
}
