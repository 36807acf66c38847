//! The changes that the cells of one side make.

ghost use Rattle.std.specs.Prelude.{◌≡◌, ◌≤◌, IfSome, IsErrOf, option_map, length};
ghost use Rattle.std.specs.List.{list_any};
ghost use Rattle.serde_json.specs.View.{items_view};
ghost use Rattle.base.specs.Cells.{is_of};
ghost use Rattle.base.specs.Spelling.{named_of};
ghost use Rattle.tables.specs.Overrides.{change_of, changes_of, entry_of, known_actions, known_next};
ghost use Rattle.tables.specs.inner.Seen.{Gives, HasFew, seen_cell, seen_entry, text};

use crate::overrides::TablesFault;
use crate::overrides::written::{WrittenCell, WrittenEntry, written_cell};
use base::controller::{Actions, CellEntry, Change, Listed, Protocol, named_of};
use serde_json::Value;
use std::alloc::Global;

/// The changes that the cells make in order, or the first fault.
pub fn changes<S: Listed, E: Listed, A: Listed>(
    alloc: Global,
    protocol: Protocol,
    values: &[Value],
) -> Result<Vec<Change<S, E, A>>, TablesFault>
    ensures changes { Gives (λ v. v.items) result
        (changes_of (named_of (S.has protocol) S.spelling S.kind) (named_of (E.has protocol) E.spelling E.kind)
        (named_of (A.has protocol) A.spelling A.kind) S.place E.place (items_view values.now)) }
    ensures json { IsErrOf result TablesFault.NotJson → ⊥ }
{
    let mut changes = Vec::new(alloc);
    for value in values {
        let Some(cell) = written_cell(value) else {
            return Err(TablesFault::BadShape);
        };
        let change = change_of(protocol, cell)?;
        if is_changed(changes.as_slice(), &change) {
            return Err(TablesFault::SameCellTwice);
        }
        changes.push(change)?;
    }
    Ok(changes)
}

/// Whether one of the changes is of the cell of this one.
fn is_changed<S: Listed, E: Listed, A: Listed>(
    changes: &[Change<S, E, A>],
    change: &Change<S, E, A>,
) -> bool
    ensures { result ≡ list_any (λ c. is_of S.place E.place c change.now.state change.now.event) changes.now }
{
    for earlier in changes {
        if earlier.is_of_same_cell(change) {
            return true;
        }
    }
    false
}

fn change_of<S: Listed, E: Listed, A: Listed>(
    protocol: Protocol,
    cell: WrittenCell<'_>,
) -> Result<Change<S, E, A>, TablesFault>
    requires { HasFew cell.entry }
    ensures change { result ≡
        change_of (named_of (S.has protocol) S.spelling S.kind) (named_of (E.has protocol) E.spelling E.kind)
        (named_of (A.has protocol) A.spelling A.kind) (seen_cell cell.entry) }
    ensures json { IsErrOf result TablesFault.NotJson → ⊥ }
{
    let Some(state) = named_of::<S>(protocol, cell.state.as_bytes()) else {
        return Err(TablesFault::UnknownState);
    };
    let Some(entry) = known_next::<S>(protocol, cell.entry) else {
        return Err(TablesFault::UnknownState);
    };
    let Some(event) = named_of::<E>(protocol, cell.event.as_bytes()) else {
        return Err(TablesFault::UnknownEvent);
    };
    let Some(entry) = entry_of::<S, A>(protocol, entry) else {
        return Err(TablesFault::UnknownAction);
    };
    Ok(Change {
        state,
        event,
        entry,
    })
}

fn known_next<'a, S: Listed>(
    protocol: Protocol,
    written: WrittenEntry<'a, &'a str>,
) -> Option<WrittenEntry<'a, S>>
    ensures next { option_map (seen_entry (λ s. s)) result ≡ known_next (named_of (S.has protocol) S.spelling S.kind) (seen_entry text written.entry) }
    ensures few { HasFew written.entry → IfSome result HasFew }
{
    Some(match written {
        WrittenEntry::Blank => WrittenEntry::Blank,
        WrittenEntry::Stall => WrittenEntry::Stall,
        WrittenEntry::Act { next, actions } => WrittenEntry::Act {
            next: named_of::<S>(protocol, next.as_bytes())?,
            actions,
        },
    })
}

fn entry_of<S: Listed, A: Listed>(
    protocol: Protocol,
    written: WrittenEntry<'_, S>,
) -> Option<CellEntry<S, A>>
    requires { HasFew written }
    ensures { result ≡ entry_of (named_of (A.has protocol) A.spelling A.kind) (seen_entry (λ s. s) written.entry) }
{
    Some(match written {
        WrittenEntry::Blank => CellEntry::Blank,
        WrittenEntry::Stall => CellEntry::Stall,
        WrittenEntry::Act { next, actions } => CellEntry::Act {
            next,
            actions: known_actions::<A>(protocol, actions)?,
        },
    })
}

/// The actions that the values name, if each names one.
fn known_actions<A: Listed>(protocol: Protocol, values: &[Value]) -> Option<Actions<A>>
    requires { length values.now ≤ 8 }
    ensures { result ≡ known_actions (named_of (A.has protocol) A.spelling A.kind) (items_view values.now) }
{
    let mut actions = Actions::none();
    for value in values {
        actions = actions.with(named_of::<A>(protocol, value.as_str()?.as_bytes())?);
    }
    Some(actions)
}
