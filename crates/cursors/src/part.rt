//! The parts of a cursor: how far it is in each of the trees that it has begun.

mod looking;
mod passing;
mod repeating;
mod starting;
mod taking;
mod telling;

pub(crate) use looking::part_may_end;
pub(crate) use passing::{pass_at_once, pass_turn};
pub(crate) use repeating::{chooses, part_repeats};
use scenario::Scenario;
use std::alloc::{AllocError, Allocator};
pub(crate) use taking::take_from;
pub(crate) use telling::part_next;

/// How far a cursor is in a tree. Its own parts are in memory of the allocator `B`, and memory that one no longer needs is
/// used for the next.
#[derive(Drop)]
pub(crate) enum Part<'t, A: Allocator, B: Allocator> {
    /// It never had parts of its own.
    Fresh(PartPlace<'t, A>),
    /// Those in use stand first. Parts behind them are kept for later, and mean nothing.
    Begun(PartPlace<'t, A>, Vec<Part<'t, A, B>, B>),
}

/// Where a part is in its tree.
pub(crate) enum PartPlace<'t, A: Allocator> {
    /// Nothing is left.
    Nothing,
    /// All of this tree is left.
    Whole(&'t Scenario<A>),
    /// The first part is left, and then these children of its row.
    InSeq(&'t [Scenario<A>]),
    /// The first part is left, and then so many turns of the child.
    InTimes(u32, &'t Scenario<A>),
    /// So many parts are left, all at once.
    InBoth(usize),
}

impl<'t, A: Allocator> Clone for PartPlace<'t, A> {
    ghost use Rattle.std.specs.Prelude.{◌≡◌, ⊤};

    ghost is_clone = { λ x y. y ≡ x };

    ghost is_infallible = { λ _. ⊤ };

    fn clone(&self) -> Result<PartPlace<'t, A>, AllocError> {
        Ok(*self)
    }
}

impl<'t, A: Allocator> Copy for PartPlace<'t, A> {}

impl<'t, A: Allocator, B: Allocator> Part<'t, A, B> {
    ghost use Rattle.std.specs.Prelude.{◌≡◌, map};
    ghost use Rattle.cursors.specs.Cursors.{Nothing, progress, progress_at};
    ghost use Rattle.cursors.specs.Stock.{Empty, stock};
    ghost use Rattle.cursors.specs.inner.Parts.{parts_of, place_of};

    /// Nothing is left.
    pub(crate) fn ended() -> Part<'t, A, B>
        ensures ended { progress result ≡ Nothing }
        ensures held { stock result ≡ Empty }
    {
        Part::Fresh(PartPlace::Nothing)
    }

    #[tactic(auto, using(crate::proofs::Cursors::parts))]
    pub(crate) fn place(&self) -> PartPlace<'t, A>
        ensures { result ≡ place_of self.now }
    {
        match self {
            Part::Fresh(place) => *place,
            Part::Begun(place, _) => *place,
        }
    }

    /// All parts that it has.
    #[tactic(auto, using(crate::proofs::Cursors::parts))]
    fn parts(&self) -> &[Part<'t, A, B>]
        ensures { map progress result.now ≡ parts_of self.now }
    {
        match self {
            Part::Fresh(_) => &[],
            Part::Begun(_, parts) => parts.as_slice(),
        }
    }

    /// It is at this place from now on. Its parts stay.
    #[tactic(auto, using(crate::proofs::Cursors::parts))]
    pub(crate) fn move_to(&mut self, to: PartPlace<'t, A>)
        ensures place { progress self.new ≡ progress_at to.entry (parts_of self.old) }
        ensures parts { parts_of self.new ≡ parts_of self.old }
        ensures held { stock self.new ≡ stock self.old }
    {
        match self {
            Part::Fresh(place) => *place = to,
            Part::Begun(place, _) => *place = to,
        }
    }
}
