//! The cells of a cache's table, and those that are replaced.

use crate::asserting::{same, same_at};
use cache_table::{CacheAction, CacheActions, CacheEntry, CacheEvent, CacheState, CacheTable};
use std::process::Abort;

const HELD: [(CacheState, CacheEvent, CacheEntry); 4] = [
    (CacheState::I, CacheEvent::Inv, CacheEntry::Blank),
    (CacheState::IsD, CacheEvent::Inv, CacheEntry::Stall),
    (CacheState::SmAd, CacheEvent::DataOwner, CacheEntry::Blank),
    (CacheState::IiA, CacheEvent::Store, CacheEntry::Stall),
];

const ACTING: [(CacheState, CacheEvent, CacheState, &[CacheAction]); 6] = [
    (
        CacheState::I,
        CacheEvent::Load,
        CacheState::IsD,
        &[CacheAction::GetS],
    ),
    (
        CacheState::ImAd,
        CacheEvent::DataDirMore,
        CacheState::ImA,
        &[],
    ),
    (CacheState::SmA, CacheEvent::LastInvAck, CacheState::M, &[]),
    (
        CacheState::M,
        CacheEvent::FwdGetS,
        CacheState::S,
        &[CacheAction::DataReq, CacheAction::DataDir],
    ),
    (
        CacheState::SiA,
        CacheEvent::Inv,
        CacheState::IiA,
        &[CacheAction::InvAck],
    ),
    (CacheState::IiA, CacheEvent::PutAck, CacheState::I, &[]),
];

/// Compares a cell.
fn holds(
    rt: &impl Abort,
    table: &CacheTable,
    state: CacheState,
    event: CacheEvent,
    wanted: &CacheEntry,
) {
    same_at(rt, &table.entry(state, event), wanted, &(state, event));
}

fn acting(rt: &impl Abort, next: CacheState, actions: &[CacheAction]) -> CacheEntry {
    let actions = CacheActions::of(actions).expect(rt, "few actions");
    CacheEntry::Act { next, actions }
}

#[test]
fn baseline_cells(rt: HostRuntime) {
    let table = CacheTable::baseline();
    for (state, event, entry) in &HELD {
        holds(&rt, &table, *state, *event, entry);
    }
    for (state, event, next, actions) in &ACTING {
        let entry = acting(&rt, *next, actions);
        holds(&rt, &table, *state, *event, &entry);
    }
}

/// Cells of a table of which one was replaced, the first of them.
const REPLACED: [(CacheState, CacheEvent, CacheEntry); 3] = [
    (CacheState::IsD, CacheEvent::Inv, CacheEntry::Blank),
    (CacheState::IsD, CacheEvent::Load, CacheEntry::Stall),
    (CacheState::SiA, CacheEvent::Load, CacheEntry::Stall),
];

#[test]
fn one_cell_is_replaced(rt: HostRuntime) {
    let baseline = CacheTable::baseline();
    let table = baseline.with(CacheState::IsD, CacheEvent::Inv, CacheEntry::Blank);
    for (state, event, entry) in &REPLACED {
        holds(&rt, &table, *state, *event, entry);
    }
    let back = table.with(CacheState::IsD, CacheEvent::Inv, CacheEntry::Stall);
    same(&rt, &back, &baseline);
}

const NINE: [CacheAction; 9] = [
    CacheAction::GetS,
    CacheAction::GetM,
    CacheAction::PutS,
    CacheAction::PutM,
    CacheAction::InvAck,
    CacheAction::DataReq,
    CacheAction::DataDir,
    CacheAction::InvAck,
    CacheAction::GetS,
];

#[test]
fn at_most_eight_actions(rt: HostRuntime) {
    same(&rt, &CacheActions::of(&NINE).is_none(), &true);
    let eight = CacheActions::of(&NINE[..8]).expect(&rt, "eight actions");
    same(&rt, &eight.as_slice(), &&NINE[..8]);
    same(&rt, &eight.len(), &8);
    same(&rt, &eight.is_empty(), &false);
    same(&rt, &CacheActions::none().is_empty(), &true);
}
