ghost use Rattle.std.specs.Prelude.{◌≡◌, ◌≤◌};
ghost use Rattle.record_lines.specs.Cells.{cell_at, is_known, is_same, most_cells, place_of, FitsCell, IsInWhole};

use base::controller::Protocol;
use cache_table::{CacheEntry, CacheEvent, CacheState, knows_cell};
use directory_table::{DirectoryEntry, DirectoryEvent, DirectoryState, knows_entry};
use tables::{CellPlace, Tables};

/// A cell with its place.
#[derive(Clone, Copy)]
pub enum Cell {
    Cache {
        state: CacheState,
        event: CacheEvent,
        entry: CacheEntry,
    },
    Directory {
        state: DirectoryState,
        event: DirectoryEvent,
        entry: DirectoryEntry,
    },
}

/// How many cells the tables of a protocol have, and so a text lists at most.
pub fn most_cells(protocol: Protocol) -> u32
    ensures most { result ≡ most_cells protocol }
    ensures small { most_cells protocol ≤ 184 }
{
    match protocol {
        Protocol::Msi => 160,
        Protocol::MsiE => 184,
    }
}

impl Cell {
    /// The cell at a place of these tables.
    pub fn at(tables: &Tables, place: CellPlace) -> Cell
        ensures cell { result ≡ cell_at tables.now place }
        ensures whole { IsInWhole tables.now place }
    {
        match place {
            CellPlace::Cache(state, event) => Cell::Cache {
                state,
                event,
                entry: tables.cache.entry(state, event),
            },
            CellPlace::Directory(state, event) => Cell::Directory {
                state,
                event,
                entry: tables.directory.entry(state, event),
            },
        }
    }

    /// Whether these tables hold the same in the cell's place.
    pub fn is_in(&self, tables: &Tables) -> bool
        ensures same { result ≡ is_same self.now (cell_at tables.now (place_of self.now)) }
        ensures fits { FitsCell self.now }
    {
        match *self {
            Cell::Cache {
                state,
                event,
                entry,
            } => entry.is_same(&tables.cache.entry(state, event)),
            Cell::Directory {
                state,
                event,
                entry,
            } => entry.is_same(&tables.directory.entry(state, event)),
        }
    }

    /// Whether a protocol has all that the cell and its entry name.
    pub fn is_known(&self, protocol: Protocol) -> bool
        ensures { result ≡ is_known protocol self.now }
    {
        match self {
            Cell::Cache {
                state,
                event,
                entry,
            } => knows_cell(protocol, *state, *event, entry),
            Cell::Directory { entry, .. } => knows_entry(protocol, entry),
        }
    }

    /// The place of the cell.
    pub fn place(&self) -> CellPlace
        ensures { result ≡ place_of self.now }
    {
        match *self {
            Cell::Cache { state, event, .. } => CellPlace::Cache(state, event),
            Cell::Directory { state, event, .. } => CellPlace::Directory(state, event),
        }
    }
}
