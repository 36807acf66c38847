//! Seats, and the receipts that they have.

use crate::grounds::Naming;
use crate::tokens::Token;
use record::Entry;
use std::marker::{Model, PhantomData};

/// What a turn answered: the entry that it made, and the entry's number in the floor's recording.
#[derive(Drop)]
pub struct Receipt<F: Naming> {
    number: u64,
    entry: Entry,
    of: PhantomData<F>,
}

impl<F: Naming> Model for Receipt<F> {
    ghost use Rattle.std.specs.Prelude.{ℕ};
    ghost use Rattle.record_lines.specs.declared.entry.Entry.{Entry};

    ghost Value = { ℕ × Entry };

    ghost view = { λ r. (r.number, r.entry) };
}

impl<F: Naming> Receipt<F> {
    ghost use Rattle.std.specs.Prelude.{◌≡◌};

    pub(crate) fn new(number: u64, entry: Entry) -> Receipt<F>
        ensures { result ≡ (number, entry) }
    {
        Receipt {
            number,
            entry,
            of: PhantomData,
        }
    }

    /// The number of the entry in the recording, counted from 0.
    pub fn number(&self) -> u64
        ensures { result ≡ self.now.0 }
    {
        self.number
    }

    /// The step of the turn, and what came of it.
    pub fn entry(&self) -> Entry
        ensures { result ≡ self.now.1 }
    {
        self.entry
    }
}

/// One who takes turns at a floor.
#[derive(Drop)]
pub struct Seat<F: Naming> {
    pub(crate) number: u32,
    pub(crate) receipts: Vec<Receipt<F>>,
    pub(crate) token: Token,
    pub(crate) of: PhantomData<F>,
}

impl<F: Naming> Model for Seat<F> {
    ghost use Rattle.floor.specs.Turning.{SeatView};
    ghost use Rattle.floor.specs.inner.Keeping.{IsFloorSeat};

    ghost Value = { SeatView };

    ghost view = { λ s. record { number = s.number; made = s.receipts.items } };

    ghost invariant = { λ s. IsFloorSeat F.floor s.number s.receipts.items s.token.table_id s.token.me };
}

impl<F: Naming> Seat<F> {
    ghost use Rattle.std.specs.Prelude.{◌≡◌, ◌<◌, length};

    /// Its number among the seats of its floor, counted from 0.
    pub fn number(&self) -> u32
        ensures value { result ≡ self.now.number }
        ensures within { self.now.number < F.floor.seats }
    {
        self.number
    }

    /// How many receipts it has.
    pub fn made(&self) -> usize
        ensures { result ≡ length self.now.made }
    {
        self.receipts.len()
    }

    /// Its receipts, in the order of their turns.
    pub fn receipts(&self) -> &[Receipt<F>]
        ensures { result.now ≡ self.now.made }
    {
        self.receipts.as_slice()
    }
}
