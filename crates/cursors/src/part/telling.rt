//! What a part offers, where its place alone tells that it is one ask at most.

ghost use Rattle.cursors.specs.inner.Parts.{part_left};
ghost use Rattle.scenario.specs.Taking.{offers};
ghost use Rattle.cursors.specs.Telling.{Tells};

use super::repeating::first_is_over;
use super::{Part, PartPlace};
use crate::telling::{Next, row_next, tree_next, turn_next};
use std::alloc::Allocator;

/// What a part offers, as far as it is told by a look at its place, and whether nothing is left of its first part.
pub(crate) fn part_next<A: Allocator, B: Allocator>(part: &Part<'_, A, B>) -> Next
    ensures { Tells result (offers (part_left part.now)) }
{
    match part.place() {
        PartPlace::Nothing => Next::Nothing,
        PartPlace::Whole(tree) => tree_next(tree),
        PartPlace::InSeq(others) if first_is_over(part) => row_next(others),
        PartPlace::InTimes(turns, child) if first_is_over(part) => turn_next(turns, child),
        PartPlace::InSeq(_) | PartPlace::InTimes(..) | PartPlace::InBoth(_) => Next::Unknown,
    }
}
