ghost use Rattle.std.specs.Prelude.{◌≡◌, true};
ghost use Rattle.base.specs.declared.controller.protocol.Protocol.TheVariants as Protocol;
ghost use Rattle.cache_table.specs.Table.{cell, laid_over, with_cell, with_entry, has_entry, has_cell, IsWhole};
ghost use Rattle.cache_table.specs.Baseline.{baseline_cells, baseline_entry};
ghost use Rattle.cache_table.specs.Keeping.{IsCacheTable};

use crate::actions::CacheAction;
use crate::baseline::baseline_rows;
use crate::event::CacheEvent;
use crate::state::CacheState;
use base::controller::{Actions, CellEntry, Change, Listed, Protocol};
use std::marker::Model;

/// What a cache's controller does in a cell, in order.
pub type CacheActions = Actions<CacheAction>;

/// One cell of a cache's table: what the controller does in a state on an event.
pub type CacheEntry = CellEntry<CacheState, CacheAction>;

/// An entry that one cell of a cache's table is to have.
pub type CacheChange = Change<CacheState, CacheEvent, CacheAction>;

/// The table of a cache's controller: a cell for each state and each event.
///
/// It is a table of one protocol. What that protocol hasn't got has cells too, which nothing comes to.
#[derive(Clone, Copy, PartialEq, Eq, Debug)]
pub struct CacheTable {
    protocol: Protocol,
    cells: [[CacheEntry; 13]; 12],
}

impl Model for CacheTable {
    ghost use Rattle.cache_table.specs.Keeping.{IsCacheTable};
    ghost use Rattle.cache_table.specs.Table.{CacheTableView};

    ghost Value = { CacheTableView };

    ghost view = { λ t. record { protocol = t.protocol; cells = t.cells } };

    ghost invariant = { λ t. IsCacheTable t.protocol t.cells };

    ghost inverse = { λ t. record { protocol = t.protocol; cells = t.cells } };
}

/// Whether a protocol has what an entry names.
fn knows_entry(protocol: Protocol, entry: &CacheEntry) -> bool
    ensures { result ≡ has_entry protocol entry.now }
{
    match entry {
        CellEntry::Act { next, .. } => next.is_in(protocol),
        _ => true,
    }
}

/// Whether a protocol has all that a cell and its entry name.
pub fn knows_cell(
    protocol: Protocol,
    state: CacheState,
    event: CacheEvent,
    entry: &CacheEntry,
) -> bool
    ensures { result ≡ has_cell protocol state event entry.now }
{
    state.is_in(protocol) && event.is_in(protocol) && knows_entry(protocol, entry)
}

impl CacheTable {
    /// The table that MSI starts from (after Primer, section 8.2).
    pub fn baseline() -> CacheTable
        ensures { result ≡ record { protocol = Protocol.Msi; cells = baseline_cells Protocol.Msi } }
    {
        CacheTable::baseline_of(Protocol::Msi)
    }

    /// The table that a protocol starts from.
    pub fn baseline_of(protocol: Protocol) -> CacheTable
        ensures table { result ≡ record { protocol = protocol; cells = baseline_cells protocol } }
        ensures entries { (state : CacheState) (event : CacheEvent) →
            cell result.cells state event ≡ baseline_entry protocol state event }
    {
        CacheTable {
            protocol,
            cells: baseline_rows(protocol),
        }
    }

    /// The protocol that it is a table of.
    pub fn protocol(&self) -> Protocol
        ensures { result ≡ self.now.protocol }
    {
        self.protocol
    }

    /// What the controller does in this state on this event.
    pub fn entry(&self, state: CacheState, event: CacheEvent) -> CacheEntry
        ensures entry { result ≡ cell self.now.cells state event }
        ensures whole { IsWhole self.now.cells }
        ensures table { IsCacheTable self.now.protocol self.now.cells }
    {
        let row = &self.cells[state.number()];
        row[event.number()]
    }

    /// This table with another entry in one cell. Where the table's protocol hasn't got what is named, it stays as it is.
    pub fn with(self, state: CacheState, event: CacheEvent, entry: CacheEntry) -> CacheTable
        ensures table { result ≡ with_entry self state event entry }
        ensures protocol { result.protocol ≡ self.protocol }
        ensures here { has_cell self.protocol state event entry ≡ true → cell result.cells state event ≡ entry }
        ensures others { (s : CacheState) (e : CacheEvent) → ¬ ((s ≡ state) × (e ≡ event)) →
            cell result.cells s e ≡ cell self.cells s e }
    {
        let known = knows_cell(self.protocol, state, event, &entry);
        if known {
            self.replaced(state, event, entry)
        } else {
            self
        }
    }

    /// This table with another entry in one cell, all of which its protocol has.
    fn replaced(self, state: CacheState, event: CacheEvent, entry: CacheEntry) -> CacheTable
        requires { has_cell self.protocol state event entry ≡ true }
        ensures table { result ≡ record self { cells = with_cell self.cells state event entry } }
        ensures here { cell result.cells state event ≡ entry }
        ensures others { (s : CacheState) (e : CacheEvent) → ¬ ((s ≡ state) × (e ≡ event)) →
            cell result.cells s e ≡ cell self.cells s e }
    {
        let mut cells = self.cells;
        cells[state.number()][event.number()] = entry;
        CacheTable {
            protocol: self.protocol,
            cells,
        }
    }
}

/// A table after these changes, made in order.
pub fn with_changes(table: CacheTable, changes: &[CacheChange]) -> CacheTable
    ensures table { result ≡ laid_over changes.now table }
    ensures protocol { result.protocol ≡ table.protocol }
{
    let mut changed = table;
    for change in changes {
        changed = changed.with(change.state, change.event, change.entry);
    }
    changed
}
