//! What is left of a scenario by its lanes: the trees that go on at once at its top.

mod changing;
mod counting;
mod making;
mod marking;

use cursors::Cursor;
use rows::{Bits, Sums};
use scenario::Scenario;
use schedule::Asks;
use std::alloc::Allocator;
use std::marker::Model;

/// What is left of a scenario, by its lanes: the trees that go on at once at its top, or itself alone where it is no such row.
///
/// Of each lane it keeps what it offers, which of these offers wouldn't be held, and how many of them can be put. So nothing is
/// listed to count the choices of a moment, or to find one of them. A step changes what can be put for one core: in the lanes of
/// that core the offers about the step's block are marked again, and what can be put of these lanes is counted by the marks.
///
/// A lane has at most 4,294,967,295 offers at once, which would take over 100 GB: more of them are refused for want of memory.
///
/// Where memory was refused lanes are spoilt: they have no choice, and are of use again once they are restarted.
pub struct Lanes<'s, A: Allocator, B: Allocator> {
    // Of each lane the tree that it goes on from where it is restarted, the marks of what this offers, and whether what is listed
    // is that.
    sources: Vec<&'s Scenario<A>>,
    marks: Vec<Bits>,
    as_opened: Vec<bool>,
    lanes: Vec<Lane<'s, A, B>>,
    // Of each lane how many offers it has, and how many of them can be put.
    lengths: Sums,
    ready: Sums,
    // For each core the lanes that may offer an ask of it, in order. A lane too many costs a count.
    reached: Vec<Vec<u32>>,
    // Whether what is kept of each lane is right. Where it isn't, the lanes are spoilt.
    usable: bool,
}

impl<'s, A: Allocator, B: Allocator> Model for Lanes<'s, A, B> {
    ghost use Rattle.std.specs.Coded.{codes};
    ghost use Rattle.lanes.specs.Lanes.{Laned};
    ghost use Rattle.lanes.specs.inner.Code.{stock_code, tree_code};

    ghost Value = { Laned };

    ghost coded = { Prim.hlevel (codes, tree_code, stock_code) };

    ghost use Rattle.lanes.specs.inner.Kept.{AreSound, laned};

    ghost view = { laned };

    ghost invariant = { AreSound };
}

impl<'s, A: Allocator, B: Allocator> Drop for Lanes<'s, A, B> {
    fn drop(self) {
        // One call drops all its parts.
        let Lanes {
            sources: _,
            marks: _,
            as_opened: _,
            lanes: _,
            lengths: _,
            ready: _,
            reached: _,
            usable: _,
        } = self;
    }
}

/// One of the trees that go on at once: what is left of it, and what that offers.
#[derive(Drop)]
pub(crate) struct Lane<'s, A: Allocator, B: Allocator> {
    rest: Cursor<'s, A, B>,
    asks: Asks,
}
