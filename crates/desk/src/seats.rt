//! Those who claim numbers and post their results.

ghost use Rattle.std.specs.Prelude.{◌≡◌, replicate, IfOk};
ghost use Rattle.desk.specs.declared.seats.NumberStage.TheVariants.{Free};

use crate::cells::CellNote;
use crate::faults::PostFault;
use crate::jobs::Planned;
use crate::word::Token;
use base::NoMemory;
use std::alloc::Global;
use std::marker::Model;

/// How far a seat is with a number.
#[derive(Clone, Copy, Debug, PartialEq, Eq)]
pub(crate) enum NumberStage {
    /// It hasn't claimed it.
    Free,
    /// It has claimed it, and not posted it.
    Claimed,
    /// It has posted its result.
    Posted,
}

/// The stages of so many numbers, of which none is claimed.
pub(crate) fn make_stages(alloc: Global, count: usize) -> Result<Vec<NumberStage>, NoMemory>
    ensures { IfOk result (λ stages. stages.items ≡ replicate count Free) }
{
    Ok(vec![in alloc; NumberStage::Free; count]?)
}

/// One who claims numbers at a desk and posts their results.
#[derive(Drop)]
pub struct DeskSeat<D: Planned> {
    pub(crate) token: Token,
    pub(crate) told: bool,
    pub(crate) stages: Vec<NumberStage>,
    pub(crate) notes: Vec<CellNote<D>>,
}

impl<D: Planned> Model for DeskSeat<D> {
    ghost use Rattle.std.specs.Prelude.{map, length};
    ghost use Rattle.desk.specs.Seats.{DeskSeatView};
    ghost use Rattle.desk.specs.inner.Keeping.{IsDeskSeat, is_claimed, is_posted};

    ghost Value = { DeskSeatView };

    ghost view = { λ s. record {
      desk = record { table = s.token.table_id; cells = map (λ n. n.cell) s.notes.items };
      claimed = s.token.me.0.drawn;
      told = s.told;
      posted = map is_posted s.stages.items;
      known = map (λ n. n.known) s.notes.items;
    } };

    ghost invariant = { λ s. IsDeskSeat s.token.me (length s.notes.items) s.told
        (map is_claimed s.stages.items) (map is_posted s.stages.items) (map (λ n. n.known) s.notes.items) };
}

impl<D: Planned> DeskSeat<D> {
    ghost use Rattle.std.specs.Prelude.{◌≡◌, slice_index_or, MatchOption, false};
    ghost use Rattle.desk.specs.Calls.{CanPost, IsPostFault};

    /// Why a result of this number isn't taken.
    pub(crate) fn refusal(&self, number: u32) -> Option<PostFault>
        ensures { MatchOption result (CanPost self.now number) (IsPostFault self.now number) }
    {
        match self.stages.get(number as usize) {
            Some(NumberStage::Claimed) => None,
            Some(NumberStage::Posted) => Some(PostFault::Already),
            Some(NumberStage::Free) | None => Some(PostFault::NotYours),
        }
    }

    /// Whether it has posted the result of this number.
    pub(crate) fn has_posted(&self, number: usize) -> bool
        ensures { result ≡ slice_index_or self.now.posted number false }
    {
        match self.stages.get(number) {
            Some(NumberStage::Posted) => true,
            _ => false,
        }
    }
}
