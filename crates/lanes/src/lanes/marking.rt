//! Marking the asks of lanes again.

ghost use Rattle.std.specs.Prelude.{◌≡◌, ◌<◌, ℕ, Some, true, length, slice_index_or};
ghost use Rattle.schedule.specs.Listed.{nothing_listed};
ghost use Rattle.lanes.specs.inner.Changes.{IsMarkedIn};
ghost use Rattle.lanes.specs.inner.Kept.{listed_in, stocks_in, trees_in};

use super::changing::row_of;
use super::{Lane, Lanes};
use base::{BlockId, CacheId};
use blocks::HeldAsks;
use machine::{Actor, Made};
use std::alloc::Allocator;
use world::World;

impl<'s, A: Allocator, B: Allocator + Clone> Lanes<'s, A, B> {
    ghost use Rattle.std.specs.Prelude.{◌≡◌, ◌<◌, false, true, length};
    ghost use Rattle.lanes.specs.inner.Changes.{ChangesMarks, EachIsMarkedOf, IsLaneMarked, MarksAgain, marked_in};

    /// Marks again what a step about a block changed, of which it is told what it came to, but for a lane that is marked already, if
    /// there is one, and answers whether it did. Where no line holds other asks than before there is nothing to mark.
    #[inline(always)]
    pub(super) fn mark_again(
        &mut self,
        done: Option<usize>,
        made: &Made,
        block: BlockId,
        world: &World,
    ) -> bool
        ensures same { ChangesMarks self.old self.new }
        ensures left { result ≡ false → self.new ≡ self.old }
        ensures marked { MarksAgain world.now.tables made.now block done self.old self.new }
    {
        let Some(acted) = made.acted else {
            return false;
        };
        let Actor::Line {
            cache,
            before,
            after,
        } = acted.by
        else {
            return false;
        };
        let held = world.held_asks(after);
        if held == world.held_asks(before) {
            return false;
        }
        self.mark_core(done, cache, block, held);
        true
    }

    /// Marks anew all that a lane offers, if it isn't marked already.
    pub(super) fn mark_lane(&mut self, lane: usize, is_marked: bool, world: &World)
        requires there { lane < length self.old.trees }
        requires marked { is_marked ≡ true → IsLaneMarked world.now self.old lane }
        ensures { self.new ≡ marked_in world.now.tables world.now.state lane self.old }
    {
        if is_marked {
            return;
        }
        self.lanes[lane].asks.mark_all(world);
    }

    /// Marks anew the offers of a core about a block, of which these are held, but for a lane that is marked already, if there is one.
    #[inline(always)]
    fn mark_core(&mut self, done: Option<usize>, core: CacheId, block: BlockId, held: HeldAsks)
        ensures same { ChangesMarks self.old self.new }
        ensures each { EachIsMarkedOf core held block done self.old self.new }
    {
        let row = row_of(&self.reached, core);
        mark_each(
            held,
            core,
            block,
            done,
            &mut self.lanes,
            self.reached[row].as_slice(),
        );
    }
}

/// Marks anew the offers of a core about a block, of which these are held, in each of these lanes, but for one that is marked already,
/// if there is one.
#[inline(always)]
fn mark_each<A: Allocator, B: Allocator>(
    held: HeldAsks,
    core: CacheId,
    block: BlockId,
    done: Option<usize>,
    lanes: &mut Vec<Lane<'_, A, B>>,
    which: &[u32],
)
    ensures count { length lanes.new.items ≡ length lanes.old.items }
    ensures trees { trees_in lanes.new.items ≡ trees_in lanes.old.items }
    ensures stocks { stocks_in lanes.new.items ≡ stocks_in lanes.old.items }
    ensures each { (lane : ℕ) → lane < length lanes.old.items →
        IsMarkedIn held core block which.now done
        (slice_index_or (listed_in lanes.old.items) lane nothing_listed)
        (slice_index_or (listed_in lanes.new.items) lane nothing_listed) lane }
{
    for number in which {
        let lane = *number as usize;
        if is_lane(done, lane) {
            continue;
        }
        if lane < lanes.len() {
            lanes[lane].asks.mark(held, core, block);
        }
    }
}

/// Whether there is a lane, and it is this one.
fn is_lane(of: Option<usize>, lane: usize) -> bool
    ensures { result ≡ true → of ≡ Some lane }
{
    match of {
        Some(of) => of == lane,
        None => false,
    }
}
