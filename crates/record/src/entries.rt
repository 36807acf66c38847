//! What becomes of the entries of a text as they are read.

use base::{NoMemory, Shape};
use record_lines::{Entry, Told};
use std::alloc::Global;
use tables::Tables;

/// What takes the entries of a text, one after the other. It may keep less of them than the recording of which it tells.
pub trait Entries: Drop {
    ghost use Rattle.std.specs.Prelude.{◌≡◌, ◌<◌, ◌+◌, ℕ, Option, Some, None, OnOk, length};
    ghost use Rattle.record.specs.View.{RecordingView, opened_of, with_owned};
    ghost use Rattle.record.specs.Telling.{HasRoomUpTo};

    // It tells of this recording, or of none yet.
    ghost tells: { Self → Option RecordingView → Type 0 };

    // It has room for so many entries more.
    ghost has_room: { Self → ℕ → Type 0 };

    /// Makes room for so many entries more.
    fn reserve(&mut self, entries: usize) -> Result<(), NoMemory>
        ensures told { (r : Option RecordingView) → tells self.old r → tells self.new r }
        ensures ok { OnOk result (has_room self.old 0 → HasRoomUpTo has_room self.new entries) };

    /// Takes what stands in front of the entries: the shape, the tables and the opening values.
    fn open(&mut self, shape: Shape, tables: Tables, opening: &[u64])
        requires none { tells self.old None }
        requires each { length opening.now ≡ shape.blocks }
        ensures told { (seats : ℕ) → tells self.new (Some (opened_of seats shape tables opening.now)) }
        ensures room { (n : ℕ) → has_room self.old n → has_room self.new n };

    /// Takes one more entry, for which there is room.
    fn add(&mut self, told: Told)
        requires room { has_room self.old 1 }
        requires few { (r : RecordingView) × tells self.old (Some r) × (length r.entries < 1000000) }
        ensures told { (r : RecordingView) → tells self.old (Some r) → tells self.new (Some (with_owned r told.entry told.owner)) }
        ensures room { (n : ℕ) → has_room self.old (n + 1) → has_room self.new n };
}

/// Entries that are kept, with their owners.
#[derive(Drop)]
pub(crate) struct KeptEntries {
    pub entries: Vec<Entry>,
    pub owners: Vec<u32>,
}

impl KeptEntries {
    ghost use Rattle.std.specs.Prelude.{None};
    ghost use Rattle.record.specs.inner.Holding.{has_space, holds};

    /// No entries yet. It takes no memory.
    pub(crate) fn new(alloc: Global) -> KeptEntries
        ensures none { holds result None }
        ensures room { has_space result 0 }
    {
        KeptEntries {
            entries: Vec::new(alloc),
            owners: Vec::new(alloc),
        }
    }
}

impl Entries for KeptEntries {
    ghost use Rattle.record.specs.inner.Holding.{has_space, holds};

    ghost tells = { holds };

    ghost has_room = { has_space };

    fn reserve(&mut self, entries: usize) -> Result<(), NoMemory> {
        self.entries.reserve(entries)?;
        self.owners.reserve(entries)?;
        Ok(())
    }

    fn open(&mut self, _shape: Shape, _tables: Tables, _opening: &[u64]) {}

    fn add(&mut self, told: Told) {
        self.entries.push_reserved(told.entry);
        if let Some(seat) = told.owner {
            self.owners.push_reserved(seat);
        }
    }
}
