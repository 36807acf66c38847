//! The floor: a hall behind its lock.

ghost use Rattle.std.specs.Prelude.{◌≡◌};

use crate::closing::{CloseFault, Closed, all_there};
use crate::grounds::{Ground, Naming};
use crate::halls::{Hall, TurnFault};
use crate::opening::open_hall;
use crate::seats::{Receipt, Seat};
use base::Step;
use record::MOST_ENTRIES;
use std::alloc::Global;
use std::sync::{Mutex, Wait};
use thiserror::Error;
use trials::Setup;

/// The most seats of a floor.
pub const MOST_SEATS: u32 = 64;

/// Why a floor wasn't opened. The faults are tested in this order.
#[derive(Clone, Copy, Debug, PartialEq, Eq, Error)]
pub enum FloorFault {
    /// There is no seat.
    #[error("a floor has at least one seat")]
    NoSeats,
    /// There are more than 64 seats.
    #[error("a floor has at most {MOST_SEATS} seats")]
    TooManySeats,
    /// The capacity is over 1,000,000.
    #[error("a floor takes at most {MOST_ENTRIES} entries")]
    OverLimit,
    /// A growth was refused.
    #[error("no memory")]
    NoMemory,
}

/// A world at which the threads that have its seats take turns, one step a turn, under one lock.
#[derive(Drop)]
pub struct Floor<F: Naming> {
    hall: Mutex<Hall<F>>,
    seats: u32,
    ghost seats_is: { seats ≡ F.floor.seats },
}

impl<F: Naming> Floor<F> {
    ghost use Rattle.std.specs.Prelude.{◌≡◌, map, IfErr, IfOk, MatchResult, OnErr};
    ghost use Rattle.std.specs.List.{range_with_len};
    ghost use Rattle.floor.specs.FloorId.{floor_id};
    ghost use Rattle.floor.specs.Opening.{IsFloorSize, IsUnopened};
    ghost use Rattle.floor.specs.Turning.{new_seat};
    ghost use Rattle.floor.specs.SeatCalling.{Receives, ReceivesAny, WasDrawRefused, WasRefused};
    ghost use Rattle.floor.specs.Accounts.{IsWholeAccount};
    ghost use Rattle.floor.specs.Closing.{IsMissing};

    /// Opens a world under a setup, with so many seats round it and room for so many entries. The seats come in the order of
    /// their numbers, without receipts.
    ///
    /// It is refused `NoSeats` exactly where there are none, else `TooManySeats` exactly where there are over 64, else
    /// `OverLimit` exactly where the capacity is over 1,000,000.
    pub fn open(
        ground: Ground,
        alloc: Global,
        setup: &Setup,
        seats: u32,
        capacity: u32,
    ) -> Result<(Floor<F>, Vec<Seat<F>>), FloorFault>
        requires { F.floor ≡ floor_id ground setup.now seats capacity }
        ensures size { MatchResult result (λ _. IsFloorSize seats capacity) (IsUnopened seats capacity) }
        ensures seats { IfOk result (λ opened. opened.1.items ≡ map new_seat (range_with_len 0 seats)) }
    {
        if seats == 0 {
            return Err(FloorFault::NoSeats);
        }
        if seats > MOST_SEATS {
            return Err(FloorFault::TooManySeats);
        }
        if capacity as usize > MOST_ENTRIES {
            return Err(FloorFault::OverLimit);
        }
        match open_hall(ground, alloc, setup, seats, capacity) {
            Ok((hall, row)) => Ok((
                Floor {
                    hall: Mutex::new(hall),
                    seats,
                },
                row,
            )),
            Err(_) => Err(FloorFault::NoMemory),
        }
    }

    /// Takes the lock, and makes the hall's [`turn`](Hall::turn): one step of the seat's, after whatever entries stand there by then.
    pub fn turn(
        &self,
        wait: &impl Wait,
        seat: &mut Seat<F>,
        step: Step,
    ) -> Result<Receipt<F>, TurnFault>
        ensures ok { IfOk result (Receives F.floor seat.old seat.new step) }
        ensures err { IfErr result (WasRefused F.floor seat.old seat.new step) }
    {
        self.hall.lock(wait).turn(seat, step)
    }

    /// Takes the lock, and makes the hall's [`turn_any`](Hall::turn_any): the step that the word draws, after whatever entries
    /// stand there by then.
    pub fn turn_any(
        &self,
        wait: &impl Wait,
        seat: &mut Seat<F>,
        word: u32,
    ) -> Result<Option<Receipt<F>>, TurnFault>
        ensures ok { IfOk result (ReceivesAny F.floor seat.old seat.new word) }
        ensures err { IfErr result (WasDrawRefused F.floor seat.old seat.new) }
    {
        self.hall.lock(wait).turn_any(seat, word)
    }

    /// Ends the floor, where all its seats are handed in. It waits for nobody, and takes no memory.
    ///
    /// It is refused `SeatMissing` exactly where a seat is missing. Then the seats come back as they were, with the floor.
    pub fn close(
        self,
        seats: Vec<Seat<F>>,
    ) -> Result<Closed<F>, (CloseFault, Floor<F>, Vec<Seat<F>>)>
        ensures closed { IfOk result (IsWholeAccount F.floor seats.items) }
        ensures missing { OnErr result (IsMissing F.floor.seats seats.items) }
        ensures back { IfErr result (λ refused. (refused.0 ≡ CloseFault.SeatMissing) × (refused.1 ≡ self) × (refused.2.items ≡ seats.items)) }
    {
        if !all_there(&seats, self.seats) {
            return Err((CloseFault::SeatMissing, self, seats));
        }
        let Floor { hall, seats: _ } = self;
        Ok(hall.into_inner().close(seats))
    }
}
