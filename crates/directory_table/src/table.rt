ghost use Rattle.std.specs.Prelude.{◌≡◌, true};
ghost use Rattle.base.specs.declared.controller.protocol.Protocol.TheVariants as Protocol;
ghost use Rattle.directory_table.specs.Table.{cell, laid_over, with_cell, with_entry, has_actions, has_entry, IsWhole};
ghost use Rattle.directory_table.specs.Baseline.{baseline_cells, baseline_entry};
ghost use Rattle.directory_table.specs.Keeping.{IsDirectoryTable};

use crate::actions::DirectoryAction;
use crate::baseline::baseline_rows;
use crate::event::DirectoryEvent;
use crate::state::DirectoryState;
use base::controller::{Actions, CellEntry, Change, Listed, Protocol};
use std::marker::Model;

/// What the directory's controller does in a cell, in order.
pub type DirectoryActions = Actions<DirectoryAction>;

/// One cell of the directory's table: what the controller does in a state on an event.
pub type DirectoryEntry = CellEntry<DirectoryState, DirectoryAction>;

/// An entry that one cell of the directory's table is to have.
pub type DirectoryChange = Change<DirectoryState, DirectoryEvent, DirectoryAction>;

/// The table of the directory's controller: a cell for each state and each event.
///
/// It is a table of one protocol.
#[derive(Clone, Copy, PartialEq, Eq, Debug)]
pub struct DirectoryTable {
    protocol: Protocol,
    cells: [[DirectoryEntry; 7]; 4],
}

impl Model for DirectoryTable {
    ghost use Rattle.directory_table.specs.Keeping.{IsDirectoryTable};
    ghost use Rattle.directory_table.specs.Table.{DirectoryTableView};

    ghost Value = { DirectoryTableView };

    ghost view = { λ t. record { protocol = t.protocol; cells = t.cells } };

    ghost invariant = { λ t. IsDirectoryTable t.protocol t.cells };

    ghost inverse = { λ t. record { protocol = t.protocol; cells = t.cells } };
}

/// Whether a protocol has all of these.
fn knows_actions(protocol: Protocol, actions: &[DirectoryAction]) -> bool
    ensures { result ≡ has_actions protocol actions.now }
{
    for action in actions {
        if !action.is_in(protocol) {
            return false;
        }
    }
    true
}

/// Whether a protocol has what an entry names.
pub fn knows_entry(protocol: Protocol, entry: &DirectoryEntry) -> bool
    ensures { result ≡ has_entry protocol entry.now }
{
    match entry {
        CellEntry::Act { actions, .. } => knows_actions(protocol, actions.as_slice()),
        _ => true,
    }
}

impl DirectoryTable {
    /// The table that MSI starts from (after Primer, section 8.2). The cells of a PutS or a PutM in `S^D` are this
    /// project's choice.
    pub fn baseline() -> DirectoryTable
        ensures { result ≡ record { protocol = Protocol.Msi; cells = baseline_cells Protocol.Msi } }
    {
        DirectoryTable::baseline_of(Protocol::Msi)
    }

    /// The table that a protocol starts from.
    pub fn baseline_of(protocol: Protocol) -> DirectoryTable
        ensures table { result ≡ record { protocol = protocol; cells = baseline_cells protocol } }
        ensures entries { (state : DirectoryState) (event : DirectoryEvent) →
            cell result.cells state event ≡ baseline_entry protocol state event }
    {
        DirectoryTable {
            protocol,
            cells: baseline_rows(protocol),
        }
    }

    /// The protocol that it is a table of.
    pub fn protocol(&self) -> Protocol
        ensures { result ≡ self.now.protocol }
    {
        self.protocol
    }

    /// What the controller does in this state on this event.
    pub fn entry(&self, state: DirectoryState, event: DirectoryEvent) -> DirectoryEntry
        ensures entry { result ≡ cell self.now.cells state event }
        ensures whole { IsWhole self.now.cells }
        ensures table { IsDirectoryTable self.now.protocol self.now.cells }
    {
        let row = &self.cells[state.number()];
        row[event.number()]
    }

    /// This table with another entry in one cell. Where the table's protocol hasn't got what is named, it stays as it is.
    pub fn with(
        self,
        state: DirectoryState,
        event: DirectoryEvent,
        entry: DirectoryEntry,
    ) -> DirectoryTable
        ensures table { result ≡ with_entry self state event entry }
        ensures protocol { result.protocol ≡ self.protocol }
        ensures here { has_entry self.protocol entry ≡ true → cell result.cells state event ≡ entry }
        ensures others { (s : DirectoryState) (e : DirectoryEvent) → ¬ ((s ≡ state) × (e ≡ event)) →
            cell result.cells s e ≡ cell self.cells s e }
    {
        let known = knows_entry(self.protocol, &entry);
        if known {
            self.replaced(state, event, entry)
        } else {
            self
        }
    }

    /// This table with another entry in one cell, all of which its protocol has.
    fn replaced(
        self,
        state: DirectoryState,
        event: DirectoryEvent,
        entry: DirectoryEntry,
    ) -> DirectoryTable
        requires { has_entry self.protocol entry ≡ true }
        ensures table { result ≡ record self { cells = with_cell self.cells state event entry } }
        ensures here { cell result.cells state event ≡ entry }
        ensures others { (s : DirectoryState) (e : DirectoryEvent) → ¬ ((s ≡ state) × (e ≡ event)) →
            cell result.cells s e ≡ cell self.cells s e }
    {
        let mut cells = self.cells;
        cells[state.number()][event.number()] = entry;
        DirectoryTable {
            protocol: self.protocol,
            cells,
        }
    }
}

/// A table after these changes, made in order.
pub fn with_changes(table: DirectoryTable, changes: &[DirectoryChange]) -> DirectoryTable
    ensures table { result ≡ laid_over changes.now table }
    ensures protocol { result.protocol ≡ table.protocol }
{
    let mut changed = table;
    for change in changes {
        changed = changed.with(change.state, change.event, change.entry);
    }
    changed
}
