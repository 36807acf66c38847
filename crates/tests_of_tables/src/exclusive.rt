//! MSI+E: what its tables may name, and what MSI's may not.

use crate::asserting::{same, same_at};
use crate::certifying::{Answer, certified, changed, stalled};
use crate::making::acting;
use crate::overrides::makes;
use base::controller::Protocol;
use cache_table::{CacheAction, CacheEntry, CacheEvent, CacheState};
use certify::{Standing, standing_of};
use directory_table::{
    DirectoryAction, DirectoryActions, DirectoryEntry, DirectoryEvent, DirectoryState,
};
use std::alloc::Global;
use std::process::Abort;
use tables::{CELLS, CellPlace, Tables, TablesFault};

#[test]
fn what_a_first_reader_is_sent(rt: HostRuntime) {
    let own = Tables::baseline_of(Protocol::MsiE);
    same(&rt, &own.protocol(), &Protocol::MsiE);
    let actions = [DirectoryAction::DataExcl, DirectoryAction::SetOwner];
    let actions = DirectoryActions::of(&actions).expect(&rt, "two actions");
    let next = DirectoryState::M;
    let found = own.directory.entry(DirectoryState::I, DirectoryEvent::GetS);
    same(&rt, &found, &DirectoryEntry::Act { next, actions });
    let left = acting(&rt, CacheState::MiA, &[CacheAction::PutM]);
    let found = own.cache.entry(CacheState::E, CacheEvent::Replacement);
    same(&rt, &found, &left);
}

/// Compares how many cells the tables of a protocol list.
fn lists(rt: &impl Abort, protocol: Protocol, wanted: (u32, u32)) {
    let own = Tables::baseline_of(protocol);
    let (mut caches, mut directories) = (0u32, 0u32);
    for number in 0..CELLS {
        match CellPlace::at(number) {
            Some(CellPlace::Cache(state, event)) => {
                let blank = matches!(own.cache.entry(state, event), CacheEntry::Blank);
                caches = caches.saturating_add(u32::from(!blank));
            }
            Some(CellPlace::Directory(state, event)) => {
                let blank = matches!(own.directory.entry(state, event), DirectoryEntry::Blank);
                directories = directories.saturating_add(u32::from(!blank));
            }
            None => {}
        }
    }
    same_at(rt, &(caches, directories), &wanted, &protocol);
}

#[test]
fn how_many_cells_are_listed(rt: HostRuntime) {
    lists(&rt, Protocol::Msi, (64, 22));
    lists(&rt, Protocol::MsiE, (72, 22));
}

/// A cell that names what MSI hasn't got changes nothing of MSI's own tables.
#[test]
fn names_that_msi_has_not(rt: HostRuntime) {
    let own = Tables::baseline();
    let to_e = acting(&rt, CacheState::E, &[]);
    for (state, event, entry) in &[
        (CacheState::E, CacheEvent::Load, CacheEntry::Stall),
        (CacheState::I, CacheEvent::DataDirExcl, CacheEntry::Stall),
        (CacheState::I, CacheEvent::Load, to_e),
    ] {
        let cell = CellPlace::Cache(*state, *event);
        same_at(
            &rt,
            &changed(own, cell, *entry, DirectoryEntry::Stall),
            &own,
            &cell,
        );
    }
    let actions = DirectoryActions::of(&[DirectoryAction::DataExcl]).expect(&rt, "one action");
    let next = DirectoryState::M;
    let giving = DirectoryEntry::Act { next, actions };
    let cell = CellPlace::Directory(DirectoryState::I, DirectoryEvent::GetS);
    same_at(
        &rt,
        &changed(own, cell, CacheEntry::Stall, giving),
        &own,
        &cell,
    );
}

/// Overrides that MSI+E takes, and how MSI refuses them.
const OVERRIDES: [(&str, TablesFault); 4] = [
    (
        r#"{"cache":[{"state":"E","event":"Load","entry":"stall"}]}"#,
        TablesFault::UnknownState,
    ),
    (
        r#"{"cache":[{"state":"I","event":"Load","entry":{"next":"E","do":[]}}]}"#,
        TablesFault::UnknownState,
    ),
    (
        r#"{"cache":[{"state":"I","event":"Data-Dir-Excl","entry":"stall"}]}"#,
        TablesFault::UnknownEvent,
    ),
    (
        r#"{"directory":[{"state":"S","event":"GetS","entry":{"next":"S","do":["data-excl"]}}]}"#,
        TablesFault::UnknownAction,
    ),
];

#[test]
fn overrides_of_either(rt: HostRuntime) {
    for (text, fault) in &OVERRIDES {
        makes(&rt, rt.alloc(), text, Err(*fault));
        let msi_e = Tables::from_json_of(rt.alloc(), Protocol::MsiE, text.as_bytes());
        same_at(&rt, &msi_e.is_ok(), &true, text);
    }
}

/// How many stalls over a cell each leave messages or asks stuck.
fn counts(alloc: Global, own: Tables) -> (u32, u32) {
    let (mut messages, mut asks) = (0u32, 0u32);
    for number in 0..CELLS {
        if let Some(cell) = CellPlace::at(number) {
            match certified(alloc, &stalled(own, cell)) {
                Answer::MessagesMayGetStuck(_) => messages = messages.saturating_add(1),
                Answer::AsksMayBeHeld(_) => asks = asks.saturating_add(1),
                _ => {}
            }
        }
    }
    (messages, asks)
}

#[test]
fn what_is_certified(rt: HostRuntime) {
    let own = Tables::baseline_of(Protocol::MsiE);
    same(&rt, &certified(rt.alloc(), &own), &Answer::NeverStuck);
    same(&rt, &counts(rt.alloc(), Tables::baseline()), &(34, 8));
    same(&rt, &counts(rt.alloc(), own), &(37, 11));
    let actions = [CacheAction::DataReq, CacheAction::DataDir];
    let kept = acting(&rt, CacheState::E, &actions);
    let mut tables = own;
    tables.cache = own.cache.with(CacheState::E, CacheEvent::FwdGetS, kept);
    let cell = CellPlace::Cache(CacheState::E, CacheEvent::FwdGetS);
    same(
        &rt,
        &certified(rt.alloc(), &tables),
        &Answer::NotProved(cell),
    );
    same(&rt, &standing_of(&tables, cell), &Standing::Open);
}

/// Three caches don't break these tables; four do.
#[test]
fn a_table_that_four_caches_break(rt: HostRuntime) {
    let own = Tables::baseline_of(Protocol::MsiE);
    let actions = DirectoryActions::of(&[DirectoryAction::AddOwner]).expect(&rt, "few actions");
    let next = DirectoryState::M;
    let entry = DirectoryEntry::Act { next, actions };
    let mut tables = own;
    tables.directory = own
        .directory
        .with(DirectoryState::M, DirectoryEvent::PutSNotLast, entry);
    let cell = CellPlace::Directory(DirectoryState::M, DirectoryEvent::PutSNotLast);
    same(
        &rt,
        &certified(rt.alloc(), &tables),
        &Answer::NotProved(cell),
    );
}
