//! How a cell stands to the protocol's own.

ghost use Rattle.std.specs.Prelude.{◌≡◌};
ghost use Rattle.tables.specs.Tables.{baseline_of};
ghost use Rattle.certify.specs.Standings.{IsReason, HasStanding};

use base::controller::{CellEntry, Listed};
use tables::{CellPlace, Tables};

/// Why a cell of changed tables is admitted, which is the first reason that holds, or that it isn't.
#[derive(Clone, Copy, Debug, PartialEq, Eq)]
pub enum Standing {
    /// It holds the protocol's own entry.
    Own,
    /// It holds a stall.
    Stall,
    /// The protocol's own entry is blank: no run under restrained tables meets the cell.
    NeverMet,
    /// None of these. The tables may be safe all the same.
    Open,
}

/// How a cell of these tables stands to the protocol's own.
pub fn standing_of(tables: &Tables, cell: CellPlace) -> Standing
    ensures { HasStanding tables.now cell result }
{
    standing_beside(tables, &Tables::baseline_of(tables.protocol()), cell)
}

/// The same, where the protocol's own tables are at hand.
pub fn standing_beside(tables: &Tables, own: &Tables, cell: CellPlace) -> Standing
    requires { own.now ≡ baseline_of tables.now.protocol }
    ensures { HasStanding tables.now cell result }
{
    match cell {
        CellPlace::Cache(state, event) => reason(
            &own.cache.entry(state, event),
            &tables.cache.entry(state, event),
        ),
        CellPlace::Directory(state, event) => reason(
            &own.directory.entry(state, event),
            &tables.directory.entry(state, event),
        ),
    }
}

fn reason<S: Listed, A: Listed>(own: &CellEntry<S, A>, entry: &CellEntry<S, A>) -> Standing
    ensures { IsReason own.now entry.now result }
{
    if entry.is_same(own) {
        return Standing::Own;
    }
    match (own, entry) {
        (_, CellEntry::Stall) => Standing::Stall,
        (CellEntry::Blank, _) => Standing::NeverMet,
        _ => Standing::Open,
    }
}
