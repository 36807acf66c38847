//! The hall, which lies behind the lock: a world, and what was done in it.

ghost use Rattle.std.specs.Prelude.{◌≡◌, ◌<◌, IfOk, OnErr, OnOk};
ghost use Rattle.floor.specs.inner.Keeping.{Advances, HasRoomForOne, IsSame};

use crate::belonging::is_of;
use crate::closing::{Closed, compare_all};
use crate::grounds::Naming;
use crate::seats::{Receipt, Seat};
use crate::shares::{draw, recount};
use crate::tokens::{Log, Token, add_entry, compare_seat};
use base::{NoMemory, Step};
use machine::Made;
use monitor::{Violation, Watch, no_violation_under_restrained_tables};
use record::{Entry, Recording};
use std::marker::{Model, PhantomData};
use thiserror::Error;
use world::{Counts, World};

/// Why a turn wasn't made. The faults are tested in this order.
#[derive(Clone, Copy, Debug, PartialEq, Eq, Error)]
pub enum TurnFault {
    /// The step belongs to another seat.
    #[error("the step belongs to another seat")]
    NotYours,
    /// The recording has as many entries as the floor takes.
    #[error("the floor takes no more entries")]
    Full,
    /// A growth was refused.
    #[error("no memory")]
    NoMemory,
}

/// The value behind the lock of a floor: its world and watch, its recording, the seat of each entry, and the first violation.
pub struct Hall<F: Naming> {
    pub(crate) world: World,
    pub(crate) watch: Watch,
    pub(crate) recording: Recording,
    pub(crate) owners: Vec<u32>,
    pub(crate) violation: Option<(u64, Violation)>,
    // For each seat how many of each block's deliveries are ready for it.
    pub(crate) shares: Vec<Counts>,
    pub(crate) seats: u32,
    pub(crate) capacity: u32,
    pub(crate) log: Log,
    pub(crate) token: Token,
    pub(crate) of: PhantomData<F>,
}

impl<F: Naming> Drop for Hall<F> {
    fn drop(self) {
        // One call drops all its parts.
        let Hall {
            world: _,
            watch: _,
            recording: _,
            owners: _,
            violation: _,
            shares: _,
            seats: _,
            capacity: _,
            log: _,
            token: _,
            of: _,
        } = self;
    }
}

impl<F: Naming> Model for Hall<F> {
    ghost use Rattle.floor.specs.Turning.{HallView};
    ghost use Rattle.floor.specs.inner.Keeping.{IsHall, IsKeptUp};

    ghost Value = { HallView };

    ghost view = { λ h. record { entries = h.recording.entries; owners = h.owners.items; violation = h.violation } };

    ghost invariant = { λ h. IsKeptUp F.floor h.world h.watch h.recording h.owners.items h.violation
        × IsHall F.floor h.world h.recording.entries h.owners.items h.shares.items h.capacity h.seats h.log.shared.table_id h.token.table_id h.token.me };
}

impl<F: Naming> Hall<F> {
    ghost use Rattle.std.specs.Prelude.{◌≡◌, ◌<◌, length, true, IfErr, IfOk, IsOkUnless, OnErr};
    ghost use Rattle.floor.specs.Turning.{is_its};
    ghost use Rattle.floor.specs.SeatCalling.{IsMoment};
    ghost use Rattle.floor.specs.HallCalling.{LeavesBoth, Refuses, RefusesDraw, Turns, TurnsAny};
    ghost use Rattle.floor.specs.Accounts.{IsAccount};

    /// Makes one step for a seat, and answers the receipt of its entry. A refused turn changes neither hall nor seat.
    ///
    /// It is refused `NotYours` exactly where the step doesn't belong to the seat, and else `Full` exactly where there are
    /// as many entries as the floor takes.
    pub fn turn(&mut self, seat: &mut Seat<F>, step: Step) -> Result<Receipt<F>, TurnFault>
        ensures ok { IfOk result (Turns F.floor self.old self.new seat.old seat.new step) }
        ensures err { IfErr result (Refuses F.floor self.old self.new seat.old seat.new step) }
    {
        if !is_of(&self.world, self.seats, seat.number, step) {
            self.compare(seat);
            return Err(TurnFault::NotYours);
        }
        if self.recording.entries().len() >= self.capacity as usize {
            self.compare(seat);
            return Err(TurnFault::Full);
        }
        self.enter(seat, step)
    }

    /// Makes the step that a word draws among the deliveries that are enabled and belong to the seat, and answers the
    /// receipt of its entry. Where there are none it makes no turn, and answers `None`.
    ///
    /// It is refused `Full` exactly where there are as many entries as the floor takes. A refused turn changes neither hall
    /// nor seat.
    pub fn turn_any(
        &mut self,
        seat: &mut Seat<F>,
        word: u32,
    ) -> Result<Option<Receipt<F>>, TurnFault>
        ensures ok { IfOk result (TurnsAny F.floor self.old self.new seat.old seat.new word) }
        ensures err { IfErr result (RefusesDraw F.floor self.old self.new seat.old seat.new) }
    {
        if self.recording.entries().len() >= self.capacity as usize {
            self.compare(seat);
            return Err(TurnFault::Full);
        }
        let shares = self.shares.as_slice();
        let Some(step) = draw(shares, &self.world, self.seats, seat.number, word) else {
            self.compare(seat);
            return Ok(None);
        };
        match self.enter(seat, step) {
            Ok(receipt) => Ok(Some(receipt)),
            Err(fault) => Err(fault),
        }
    }

    /// What was done in the hall, once its entries were compared with what the seats have.
    pub fn close(mut self, mut seats: Vec<Seat<F>>) -> Closed<F>
        ensures { IsAccount F.floor seats.items result }
    {
        no_violation_under_restrained_tables();
        compare_all(&mut self, &mut seats);
        let Hall {
            world: _,
            watch: _,
            recording,
            owners,
            violation,
            shares: _,
            seats: _,
            capacity: _,
            log: _,
            token: _,
            of: _,
        } = self;
        // There is one opening value for each block.
        let _opening = recording.opening();
        Closed {
            recording,
            owners,
            seats,
            violation,
        }
    }

    /// Makes a step that is the seat's, where there is room for its entry.
    fn enter(&mut self, seat: &mut Seat<F>, step: Step) -> Result<Receipt<F>, TurnFault>
        requires yours { is_its F.floor self.old.entries seat.old.number step ≡ true }
        requires room { length self.old.entries < F.floor.capacity }
        ensures else_memory { IsOkUnless result TurnFault.NoMemory }
        ensures moment { IsMoment F.floor seat.old self.old.entries self.old.owners }
        ensures ok { IfOk result (Turns F.floor self.old self.new seat.old seat.new step) }
        ensures err { OnErr result ((self.new ≡ self.old) × (seat.new ≡ seat.old)) }
    {
        if let Err(_) = grow(&mut self.owners, &mut seat.receipts) {
            self.compare(seat);
            return Err(TurnFault::NoMemory);
        }
        let number = self.recording.entries().len() as u64;
        let Ok(made) = advance(&mut self.world, &mut self.recording, seat.number, step) else {
            self.compare(seat);
            return Err(TurnFault::NoMemory);
        };
        recount(&mut self.shares, &self.world, self.seats, step.block());
        let seen = self.watch.see_made(&self.world, step, &made);
        let entry = Entry {
            step,
            outcome: made.outcome,
        };
        self.violation = self.violation.or(Some(number).zip(seen));
        add_entry(&self.log, &mut self.token, &mut seat.token, &entry);
        self.owners.push_reserved(seat.number);
        seat.receipts.push_reserved(Receipt::new(number, entry));
        Ok(Receipt::new(number, entry))
    }

    /// A seat's receipts are its history: what a call finds is a moment at its floor.
    pub(crate) fn compare(&mut self, seat: &mut Seat<F>)
        ensures { LeavesBoth F.floor self.old self.new seat.old seat.new }
    {
        compare_seat(&self.log, &mut self.token, &mut seat.token);
    }
}

/// Makes room for one more owner and one more receipt.
fn grow<F: Naming>(owners: &mut Vec<u32>, receipts: &mut Vec<Receipt<F>>) -> Result<(), NoMemory>
    ensures room { OnOk result (HasRoomForOne owners.new × HasRoomForOne receipts.new) }
    ensures same { (owners.new.items ≡ owners.old.items) × (receipts.new.items ≡ receipts.old.items) }
{
    owners.reserve(1)?;
    receipts.reserve(1)?;
    Ok(())
}

/// Makes a step of a seat's, and adds it to a recording. Where memory is refused, world and recording are as they were.
fn advance(
    world: &mut World,
    recording: &mut Recording,
    seat: u32,
    step: Step,
) -> Result<Made, NoMemory>
    requires { seat < recording.old.seats }
    ensures ok { IfOk result (Advances world.old world.new recording.old recording.new seat step) }
    ensures err { OnErr result (IsSame world.old world.new × (recording.new ≡ recording.old)) }
{
    let outcome = world.ready(step)?;
    let entry = Entry { step, outcome };
    if let Err(_) = recording.push_by(entry, seat) {
        return Err(NoMemory);
    }
    // Directly after its `ready` the step succeeds, with the outcome that was foreseen.
    let Ok(made) = world.make(step) else {
        unreachable!();
    };
    Ok(made)
}
