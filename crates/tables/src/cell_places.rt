//! The places of the cells of both tables, in order.

ghost use Rattle.std.specs.Prelude.{◌≡◌, ◌<◌, Some, slice_get};
ghost use Rattle.tables.specs.CellPlaces.{all_places, place_number};

use cache_table::{CacheEvent, CacheState};
use directory_table::{DirectoryEvent, DirectoryState};

/// How many cells both tables have, also those that a protocol hasn't got.
pub const CELLS: usize = 184;

/// The place of a cell.
#[derive(Clone, Copy, Debug, PartialEq, Eq)]
pub enum CellPlace {
    /// That of a cell of the caches' table.
    Cache(CacheState, CacheEvent),
    /// That of a cell of the directory's table.
    Directory(DirectoryState, DirectoryEvent),
}

impl CellPlace {
    ghost use Rattle.std.specs.Prelude.{◌≡◌, ◌<◌, Some, slice_get};
    ghost use Rattle.tables.specs.CellPlaces.{all_places, place_number};

    /// The place with this number, counted from 0: the caches' cells come before the directory's, by state and then by
    /// event. `None` comes exactly from 184 on.
    pub fn at(number: usize) -> Option<CellPlace>
        ensures { result ≡ slice_get all_places number }
    {
        if number < CELLS {
            Some(CellPlace::with_number(number))
        } else {
            None
        }
    }

    /// The place with this number, of which there is one below 184.
    pub fn with_number(number: usize) -> CellPlace
        requires { number < 184 }
        ensures { slice_get all_places number ≡ Some result }
    {
        if number < 156 {
            CellPlace::Cache(CacheState::ALL[number / 13], CacheEvent::ALL[number % 13])
        } else {
            let number = number - 156;
            CellPlace::Directory(
                DirectoryState::ALL[number / 7],
                DirectoryEvent::ALL[number % 7],
            )
        }
    }

    /// The number of the place, in the order of all places.
    pub fn number(self) -> usize
        ensures number { result ≡ place_number self }
        ensures small { result < 184 }
    {
        match self {
            CellPlace::Cache(state, event) => state as usize * 13 + event as usize,
            CellPlace::Directory(state, event) => 156 + state as usize * 7 + event as usize,
        }
    }
}
