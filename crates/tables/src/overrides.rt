ghost use Rattle.std.specs.Prelude.{◌≡◌, IsErrOf};
ghost use Rattle.serde_json.specs.View.{view};
ghost use Rattle.base.specs.declared.controller.protocol.Protocol.TheVariants as Protocol;
ghost use Rattle.tables.specs.Overrides.{AnswersOverrides, overridden};
ghost use Rattle.tables.specs.inner.Seen.{Gives};

use crate::tables::Tables;
use base::controller::Protocol;
use cache_table::CacheTable;
use directory_table::DirectoryTable;
use serde_json::Value;
use std::alloc::{AllocFailed, Global};
use std::{error, fmt};

mod changes;
mod written;

use changes::changes;
use written::written_sides;

/// Why overrides in JSON are refused. `docs/FORMATS.md` has their form.
///
/// `NotJson` is tested first, and then the form of the outer object. Then the cells are read in order, the cache's before
/// the directory's, and the first fault counts; of one cell `BadShape` is tested first and `SameCellTwice` last.
#[derive(Clone, Copy, Debug, PartialEq, Eq)]
pub enum TablesFault {
    /// The bytes aren't JSON.
    NotJson,
    /// A key is missing or one too many, or there is something of another kind, or a cell has more than eight actions.
    BadShape,
    /// A cell's state or its next state is none of its side.
    UnknownState,
    /// A cell's event is none of its side.
    UnknownEvent,
    /// An action is none of its side.
    UnknownAction,
    /// A cell before has this state and this event too.
    SameCellTwice,
    /// A growth was refused.
    NoMemory,
}

impl TablesFault {
    fn text(self) -> &'static str {
        match self {
            TablesFault::NotJson => "not JSON",
            TablesFault::BadShape => "not of the form of overrides",
            TablesFault::UnknownState => "an unknown state",
            TablesFault::UnknownEvent => "an unknown event",
            TablesFault::UnknownAction => "an unknown action",
            TablesFault::SameCellTwice => "the same cell twice",
            TablesFault::NoMemory => "no memory",
        }
    }
}

impl fmt::Display for TablesFault {
    fn fmt<W: fmt::Write>(&self, f: &mut fmt::Formatter<W>) -> fmt::Result {
        f.write_str(self.text())
    }
}

impl error::Error for TablesFault {}

impl<T: Drop> From<AllocFailed<T>> for TablesFault {
    ghost use Rattle.std.specs.Prelude.{◌≡◌};
    ghost use Rattle.tables.specs.declared.overrides.TablesFault.TheVariants as fault;

    ghost from_gives = { λ _ e. e ≡ fault.NoMemory };

    fn from(_refused: AllocFailed<T>) -> TablesFault {
        TablesFault::NoMemory
    }
}

impl Tables {
    /// The own tables of MSI with the cells of these overrides in place of their own.
    pub fn from_json(alloc: Global, bytes: &[u8]) -> Result<Tables, TablesFault>
        ensures { AnswersOverrides Protocol.Msi bytes.now result }
    {
        Tables::from_json_of(alloc, Protocol::Msi, bytes)
    }

    /// A protocol's own tables with the cells of these overrides in place of their own.
    pub fn from_json_of(
        alloc: Global,
        protocol: Protocol,
        bytes: &[u8],
    ) -> Result<Tables, TablesFault>
        ensures { AnswersOverrides protocol bytes.now result }
    {
        match Value::from_slice(alloc, bytes) {
            Ok(value) => overridden(alloc, protocol, &value),
            Err(error) => {
                if error.is_memory() {
                    Err(TablesFault::NoMemory)
                } else {
                    Err(TablesFault::NotJson)
                }
            }
        }
    }
}

fn overridden(alloc: Global, protocol: Protocol, value: &Value) -> Result<Tables, TablesFault>
    ensures gives { Gives (λ t. t) result (overridden protocol (view value.now)) }
    ensures json { IsErrOf result TablesFault.NotJson → ⊥ }
{
    let Some(sides) = written_sides(value) else {
        return Err(TablesFault::BadShape);
    };
    let of_cache = changes(alloc, protocol, sides.cache)?;
    let of_directory = changes(alloc, protocol, sides.directory)?;
    Ok(Tables {
        cache: cache_table::with_changes(CacheTable::baseline_of(protocol), of_cache.as_slice()),
        directory: directory_table::with_changes(
            DirectoryTable::baseline_of(protocol),
            of_directory.as_slice(),
        ),
    })
}
