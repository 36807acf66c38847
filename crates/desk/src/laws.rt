//! What holds of every desk and of every seat, whatever was called.

ghost use Rattle.desk.specs.Opening.{AreWithinLimits};
ghost use Rattle.desk.specs.Seats.{ClaimsInOrder, numbers_of};

use crate::desks::Desk;
use crate::jobs::Planned;
use crate::seats::DeskSeat;

/// A desk has at most 1,000,000 numbers, and one to 64 seats.
#[inline(always)]
pub fn desks_are_within_limits<D: Planned>(desk: &Desk<'_, D>)
    ensures { AreWithinLimits (numbers_of desk.now.id) desk.now.seats }
{
    let _ = &desk.cells;
}

/// What a seat has claimed rises, and is of its desk; and it has claimed whatever it has posted.
#[inline(always)]
pub fn seats_claim_in_order<D: Planned>(seat: &DeskSeat<D>)
    ensures { ClaimsInOrder seat.now }
{
    let _ = &seat.notes;
}
