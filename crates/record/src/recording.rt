use base::controller::Protocol;
use base::{NoMemory, Shape};
use record_lines::{Entry, Told};
use std::alloc::Global;
use std::marker::Model;
use tables::Tables;
use thiserror::Error;
use world::OpenFault;

/// The most entries that a recording has.
pub const MOST_ENTRIES: usize = 1_000_000;

/// The most seats that a recording tells of.
pub const MOST_SEATS: u32 = 64;

/// Why an entry wasn't added. The faults are tested in this order.
#[derive(Clone, Copy, Debug, PartialEq, Eq, Error)]
pub enum PushFault {
    /// There are 1,000,000 entries already.
    #[error("a recording has at most {MOST_ENTRIES} entries")]
    Full,
    /// A growth was refused.
    #[error("no memory")]
    NoMemory,
}

/// What a world of this shape and these tables, opened with these values, is said to have done: steps with their outcomes,
/// at most 1,000,000. Where it has seats, each entry has the one that owns it.
///
/// That the outcomes are those that the steps have isn't known of it: a replay tells.
pub struct Recording {
    seats: u32,
    shape: Shape,
    tables: Tables,
    opening: Vec<u64>,
    entries: Vec<Entry>,
    owners: Vec<u32>,
}

impl Drop for Recording {
    fn drop(self) {
        // Whoever drops one has a call to prove, and not the drops of all its parts.
        let Recording {
            seats: _,
            shape: _,
            tables: _,
            opening: _,
            entries: _,
            owners: _,
        } = self;
    }
}

impl Model for Recording {
    ghost use Rattle.record.specs.View.{RecordingView, IsRecordKept};

    ghost Value = { RecordingView };

    ghost view = { λ r. record {
      seats = r.seats;
      shape = r.shape;
      tables = r.tables;
      opening = r.opening.items;
      entries = r.entries.items;
      owners = r.owners.items;
    } };

    ghost invariant = { λ r. IsRecordKept (record {
      seats = r.seats;
      shape = r.shape;
      tables = r.tables;
      opening = r.opening.items;
      entries = r.entries.items;
      owners = r.owners.items;
    }) };
}

impl Recording {
    ghost use Rattle.std.specs.Prelude.{◌≡◌, ◌≢◌, ◌≤◌, ◌<◌, Some, MatchResult, OnOk, length, slice_get};
    ghost use Rattle.base.specs.Extent.{IsWithinLimits};
    ghost use Rattle.record.specs.View.{with_entry, with_owned, AreOwners};
    ghost use Rattle.record.specs.Keeping.{IsNotFull, IsPushFault, OpensRecording};
    ghost use Rattle.world.specs.declared.worlds.OpenFault.TheVariants as fault;

    /// A recording of a world to which nothing has happened, with one opening value for each block. It takes no memory.
    ///
    /// It is refused `OpeningLength` exactly where there is another number of values than blocks, and `NoMemory` never.
    pub fn open(
        alloc: Global,
        shape: Shape,
        tables: Tables,
        opening: Vec<u64>,
    ) -> Result<Recording, OpenFault>
        ensures { MatchResult result (OpensRecording 0 shape tables opening.items)
            (λ refused. (refused ≡ fault.OpeningLength) × (length opening.items ≢ shape.blocks)) }
    {
        if opening.len() != shape.blocks() as usize {
            return Err(OpenFault::OpeningLength);
        }
        Ok(Recording {
            seats: 0,
            shape,
            tables,
            opening,
            entries: Vec::new(alloc),
            owners: Vec::new(alloc),
        })
    }

    /// The same of so many seats, each of which may own entries.
    pub fn open_seats(
        alloc: Global,
        shape: Shape,
        tables: Tables,
        opening: Vec<u64>,
        seats: u32,
    ) -> Result<Recording, OpenFault>
        requires { (1 ≤ seats) × (seats ≤ 64) }
        ensures { MatchResult result (OpensRecording seats shape tables opening.items)
            (λ refused. (refused ≡ fault.OpeningLength) × (length opening.items ≢ shape.blocks)) }
    {
        if opening.len() != shape.blocks() as usize {
            return Err(OpenFault::OpeningLength);
        }
        Ok(Recording {
            seats,
            shape,
            tables,
            opening,
            entries: Vec::new(alloc),
            owners: Vec::new(alloc),
        })
    }

    /// The recording of these entries, with these owners.
    pub(crate) fn of(
        seats: u32,
        shape: Shape,
        tables: Tables,
        opening: Vec<u64>,
        entries: Vec<Entry>,
        owners: Vec<u32>,
    ) -> Recording
        requires within { IsWithinLimits shape }
        requires each { length opening.items ≡ shape.blocks }
        requires few { length entries.items ≤ 1000000 }
        requires owned { AreOwners seats owners.items entries.items }
        ensures { result ≡ record {
          seats = seats;
          shape = shape;
          tables = tables;
          opening = opening.items;
          entries = entries.items;
          owners = owners.items;
        } }
    {
        Recording {
            seats,
            shape,
            tables,
            opening,
            entries,
            owners,
        }
    }

    /// Adds an entry behind the others. Where it is refused nothing has changed.
    ///
    /// It is refused `Full` exactly where there are 1,000,000 entries, and `NoMemory` where a growth was refused.
    pub fn push(&mut self, entry: Entry) -> Result<(), PushFault>
        requires seats { self.old.seats ≡ 0 }
        ensures ok { OnOk result (self.new ≡ with_entry self.old entry) }
        ensures refused { MatchResult result (λ _. IsNotFull self.old)
            (λ fault. IsPushFault self.old fault × (self.new ≡ self.old)) }
    {
        if self.entries.len() >= MOST_ENTRIES {
            return Err(PushFault::Full);
        }
        match self.entries.push(entry) {
            Ok(()) => Ok(()),
            Err(_) => Err(PushFault::NoMemory),
        }
    }

    /// Adds an entry of this seat behind the others. Where it is refused nothing has changed.
    ///
    /// It is refused `Full` exactly where there are 1,000,000 entries, and `NoMemory` where a growth was refused.
    pub fn push_by(&mut self, entry: Entry, seat: u32) -> Result<(), PushFault>
        requires seat { seat < self.old.seats }
        ensures ok { OnOk result (self.new ≡ with_owned self.old entry (Some seat)) }
        ensures refused { MatchResult result (λ _. IsNotFull self.old)
            (λ fault. IsPushFault self.old fault × (self.new ≡ self.old)) }
    {
        if self.entries.len() >= MOST_ENTRIES {
            return Err(PushFault::Full);
        }
        if self.owners.reserve(1).is_err() {
            return Err(PushFault::NoMemory);
        }
        if self.entries.push(entry).is_err() {
            return Err(PushFault::NoMemory);
        }
        self.owners.push_reserved(seat);
        Ok(())
    }

    /// The protocol of the world's controllers.
    pub fn protocol(&self) -> Protocol
        ensures { result ≡ self.now.tables.protocol }
    {
        self.tables.protocol()
    }

    /// How many seats there are. Where there is none, nobody owns an entry.
    pub fn seats(&self) -> u32
        ensures value { result ≡ self.now.seats }
        ensures few { self.now.seats ≤ 64 }
    {
        self.seats
    }

    /// The seat that owns the entry of this number, counted from 0, if there are seats and there is such an entry.
    pub fn owner(&self, number: usize) -> Option<u32>
        ensures { result ≡ slice_get self.now.owners number }
    {
        self.owners.get(number).copied()
    }

    /// The entry of this number, counted from 0, as it is told.
    pub(crate) fn told(&self, number: usize) -> Told
        requires within { number < length self.now.entries }
        ensures owner { result.owner ≡ slice_get self.now.owners number }
        ensures entry { slice_get self.now.entries number ≡ Some result.entry }
    {
        Told {
            owner: self.owner(number),
            entry: self.entries[number],
        }
    }

    /// How many caches and blocks the world has.
    pub fn shape(&self) -> Shape
        ensures value { result ≡ self.now.shape }
        ensures within { IsWithinLimits self.now.shape }
    {
        self.shape
    }

    /// The tables of the world's controllers.
    pub fn tables(&self) -> Tables
        ensures { result ≡ self.now.tables }
    {
        self.tables
    }

    /// The value that each block opened with.
    pub fn opening(&self) -> &[u64]
        ensures value { result.now ≡ self.now.opening }
        ensures each { length self.now.opening ≡ self.now.shape.blocks }
        ensures within { IsWithinLimits self.now.shape }
    {
        self.opening.as_slice()
    }

    /// The steps with their outcomes, in order.
    pub fn entries(&self) -> &[Entry]
        ensures value { result.now ≡ self.now.entries }
        ensures few { length self.now.entries ≤ 1000000 }
        ensures owned { AreOwners self.now.seats self.now.owners self.now.entries }
    {
        self.entries.as_slice()
    }
}
