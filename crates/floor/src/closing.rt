//! The end of a floor.

ghost use Rattle.std.specs.Prelude.{◌≡◌, ◌≢◌, ◌<◌, All, MatchBool};
ghost use Rattle.floor.specs.Closing.{AllThere, AreHistories, IsMissing, IsThere};

use crate::grounds::Naming;
use crate::halls::Hall;
use crate::seats::Seat;
use monitor::Violation;
use record::Recording;
use thiserror::Error;

/// Why a floor wasn't closed.
#[derive(Clone, Copy, Debug, PartialEq, Eq, Error)]
pub enum CloseFault {
    /// One of the floor's seats wasn't handed in.
    #[error("a seat of the floor is missing")]
    SeatMissing,
}

/// What was done at a floor.
#[derive(Drop)]
pub struct Closed<F: Naming> {
    /// The steps of all turns with their outcomes and the seats that own them, in order.
    pub recording: Recording,
    /// The number of the seat that owns each entry.
    pub owners: Vec<u32>,
    /// The seats, as they were handed in.
    pub seats: Vec<Seat<F>>,
    /// The first violation, with the number of its entry.
    pub violation: Option<(u64, Violation)>,
}

/// Whether the seat of this number is there.
fn is_there<F: Naming>(seats: &[Seat<F>], number: u32) -> bool
    ensures { MatchBool result (IsThere seats.now number) (All (λ seat. seat.number ≢ number) seats.now) }
{
    for seat in seats {
        if seat.number() == number {
            return true;
        }
    }
    false
}

/// Whether the seats of all numbers below this one are there.
pub fn all_there<F: Naming>(seats: &[Seat<F>], count: u32) -> bool
    ensures { MatchBool result (AllThere count seats.now) (IsMissing count seats.now) }
{
    for number in 0..count {
        if !is_there(seats, number) {
            return false;
        }
    }
    true
}

/// The receipts of each seat are its history.
pub(crate) fn compare_all<F: Naming>(hall: &mut Hall<F>, seats: &mut Vec<Seat<F>>)
    ensures histories { AreHistories hall.old.entries hall.old.owners seats.old.items }
    ensures same { (hall.new ≡ hall.old) × (seats.new.items ≡ seats.old.items) }
{
    for seat in seats.iter_mut() {
        hall.compare(seat);
    }
}
