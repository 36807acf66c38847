//! The cells of a directory's table, and those that are replaced.

use crate::asserting::{same, same_at};
use directory_table::{
    DirectoryAction, DirectoryActions, DirectoryEntry, DirectoryEvent, DirectoryState,
    DirectoryTable,
};
use std::process::Abort;

const HELD: [(DirectoryState, DirectoryEvent, DirectoryEntry); 3] = [
    (
        DirectoryState::I,
        DirectoryEvent::PutMOwner,
        DirectoryEntry::Blank,
    ),
    (
        DirectoryState::M,
        DirectoryEvent::Data,
        DirectoryEntry::Blank,
    ),
    (
        DirectoryState::SD,
        DirectoryEvent::GetM,
        DirectoryEntry::Stall,
    ),
];

const ACTING: [(
    DirectoryState,
    DirectoryEvent,
    DirectoryState,
    &[DirectoryAction],
); 6] = [
    (
        DirectoryState::I,
        DirectoryEvent::GetS,
        DirectoryState::S,
        &[DirectoryAction::DataReq, DirectoryAction::AddReq],
    ),
    (
        DirectoryState::S,
        DirectoryEvent::GetM,
        DirectoryState::M,
        &[
            DirectoryAction::DataAcks,
            DirectoryAction::InvSharers,
            DirectoryAction::ClearSharers,
            DirectoryAction::SetOwner,
        ],
    ),
    (
        DirectoryState::S,
        DirectoryEvent::PutSLast,
        DirectoryState::I,
        &[DirectoryAction::RemoveReq, DirectoryAction::PutAck],
    ),
    (
        DirectoryState::M,
        DirectoryEvent::GetS,
        DirectoryState::SD,
        &[
            DirectoryAction::FwdGetS,
            DirectoryAction::AddReq,
            DirectoryAction::AddOwner,
            DirectoryAction::ClearOwner,
        ],
    ),
    (
        DirectoryState::M,
        DirectoryEvent::PutMOwner,
        DirectoryState::I,
        &[
            DirectoryAction::CopyData,
            DirectoryAction::ClearOwner,
            DirectoryAction::PutAck,
        ],
    ),
    (
        DirectoryState::SD,
        DirectoryEvent::Data,
        DirectoryState::S,
        &[DirectoryAction::CopyData],
    ),
];

/// Compares a cell.
fn holds(
    rt: &impl Abort,
    table: &DirectoryTable,
    state: DirectoryState,
    event: DirectoryEvent,
    wanted: &DirectoryEntry,
) {
    same_at(rt, &table.entry(state, event), wanted, &(state, event));
}

fn acting(rt: &impl Abort, next: DirectoryState, actions: &[DirectoryAction]) -> DirectoryEntry {
    let actions = DirectoryActions::of(actions).expect(rt, "few actions");
    DirectoryEntry::Act { next, actions }
}

#[test]
fn baseline_cells(rt: HostRuntime) {
    let table = DirectoryTable::baseline();
    for (state, event, entry) in &HELD {
        holds(&rt, &table, *state, *event, entry);
    }
    for (state, event, next, actions) in &ACTING {
        let entry = acting(&rt, *next, actions);
        holds(&rt, &table, *state, *event, &entry);
    }
}

#[test]
fn one_cell_of_a_home_is_replaced(rt: HostRuntime) {
    let (state, event) = (DirectoryState::SD, DirectoryEvent::GetS);
    let baseline = DirectoryTable::baseline();
    let table = baseline.with(state, event, DirectoryEntry::Blank);
    holds(&rt, &table, state, event, &DirectoryEntry::Blank);
    holds(
        &rt,
        &table,
        state,
        DirectoryEvent::GetM,
        &DirectoryEntry::Stall,
    );
    let other = baseline.entry(DirectoryState::S, event);
    holds(&rt, &table, DirectoryState::S, event, &other);
    let back = table.with(state, event, DirectoryEntry::Stall);
    same(&rt, &back, &baseline);
}

const NINE: [DirectoryAction; 9] = [
    DirectoryAction::DataReq,
    DirectoryAction::DataAcks,
    DirectoryAction::InvSharers,
    DirectoryAction::FwdGetS,
    DirectoryAction::PutAck,
    DirectoryAction::AddReq,
    DirectoryAction::ClearOwner,
    DirectoryAction::SetOwner,
    DirectoryAction::CopyData,
];

#[test]
fn a_home_does_at_most_eight_actions(rt: HostRuntime) {
    same(&rt, &DirectoryActions::of(&NINE).is_none(), &true);
    let eight = DirectoryActions::of(&NINE[..8]).expect(&rt, "eight actions");
    same(&rt, &eight.as_slice(), &&NINE[..8]);
    same(&rt, &eight.len(), &8);
    same(&rt, &eight.is_empty(), &false);
    same(&rt, &DirectoryActions::none().is_empty(), &true);
}
