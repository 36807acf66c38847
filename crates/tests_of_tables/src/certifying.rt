//! What is certified of changed tables, with stalls that cross and the greatest sets of stalls that let messages flow.

use crate::asserting::{same, same_at};
use cache_table::{CacheAction, CacheEntry, CacheEvent, CacheState};
use certify::{Certificate, Flow, Standing, certify, standing_of};
use directory_table::{DirectoryEntry, DirectoryEvent, DirectoryState};
use std::alloc::Global;
use std::process::Abort;
use tables::{CELLS, CellPlace, Tables};

/// An answer without the pairs of caches: why none are closed, or how many are.
#[derive(Clone, Copy, Debug, PartialEq, Eq)]
pub enum Answer {
    NotProved(CellPlace),
    Closed(CellPlace, Flow),
    NeverStuck,
    AsksMayBeHeld(CellPlace),
    MessagesMayGetStuck(CellPlace),
}

pub fn certified(alloc: Global, tables: &Tables) -> Answer {
    match certify(alloc, tables) {
        Certificate::NotProved(cell, _) => Answer::NotProved(cell),
        Certificate::ClosedPairs(cell, _, flow) => Answer::Closed(cell, flow),
        Certificate::NeverStuck => Answer::NeverStuck,
        Certificate::AsksMayBeHeld(cell) => Answer::AsksMayBeHeld(cell),
        Certificate::MessagesMayGetStuck(cell) => Answer::MessagesMayGetStuck(cell),
    }
}

/// These tables with another entry in one cell: the caches' or the directory's.
pub fn changed(
    own: Tables,
    cell: CellPlace,
    cache: CacheEntry,
    directory: DirectoryEntry,
) -> Tables {
    let mut tables = own;
    match cell {
        CellPlace::Cache(state, event) => tables.cache = own.cache.with(state, event, cache),
        CellPlace::Directory(state, event) => {
            tables.directory = own.directory.with(state, event, directory);
        }
    }
    tables
}

/// These tables with a stall in one more cell.
pub fn stalled(own: Tables, cell: CellPlace) -> Tables {
    changed(own, cell, CacheEntry::Stall, DirectoryEntry::Stall)
}

/// Tables that hold whatever comes.
fn held(rt: &impl Abort) -> Tables {
    let mut tables = Tables::baseline();
    for number in 0..CELLS {
        tables = stalled(tables, CellPlace::at(number).expect(rt, "a cell"));
    }
    tables
}

#[test]
fn tables_of_stalls(rt: HostRuntime) {
    let tables = held(&rt);
    let data = CellPlace::Cache(CacheState::IsD, CacheEvent::DataDirZero);
    same(
        &rt,
        &certified(rt.alloc(), &tables),
        &Answer::MessagesMayGetStuck(data),
    );
    let load = CellPlace::Cache(CacheState::M, CacheEvent::Load);
    let held_anyway = CellPlace::Cache(CacheState::IsD, CacheEvent::Inv);
    let standings = (
        standing_of(&tables, load),
        standing_of(&tables, held_anyway),
    );
    same(&rt, &standings, &(Standing::Stall, Standing::Own));
}

/// A stall over each of these cells alone leaves nothing stuck.
const HARMLESS: [CellPlace; 11] = [
    CellPlace::Cache(CacheState::ImAd, CacheEvent::DataDirMore),
    CellPlace::Cache(CacheState::ImAd, CacheEvent::InvAck),
    CellPlace::Cache(CacheState::SmAd, CacheEvent::Load),
    CellPlace::Cache(CacheState::SmAd, CacheEvent::DataDirMore),
    CellPlace::Cache(CacheState::SmAd, CacheEvent::InvAck),
    CellPlace::Cache(CacheState::SmA, CacheEvent::Load),
    CellPlace::Directory(DirectoryState::I, DirectoryEvent::PutSLast),
    CellPlace::Directory(DirectoryState::M, DirectoryEvent::PutSLast),
    CellPlace::Directory(DirectoryState::SD, DirectoryEvent::PutSNotLast),
    CellPlace::Directory(DirectoryState::SD, DirectoryEvent::PutSLast),
    CellPlace::Directory(DirectoryState::SD, DirectoryEvent::PutMNonOwner),
];

/// A stall over each of these holds an ask where nothing is on its way.
const HOLDING: [CellPlace; 8] = [
    CellPlace::Cache(CacheState::I, CacheEvent::Load),
    CellPlace::Cache(CacheState::I, CacheEvent::Store),
    CellPlace::Cache(CacheState::S, CacheEvent::Load),
    CellPlace::Cache(CacheState::S, CacheEvent::Store),
    CellPlace::Cache(CacheState::S, CacheEvent::Replacement),
    CellPlace::Cache(CacheState::M, CacheEvent::Load),
    CellPlace::Cache(CacheState::M, CacheEvent::Store),
    CellPlace::Cache(CacheState::M, CacheEvent::Replacement),
];

fn acts(tables: &Tables, cell: CellPlace) -> bool {
    match cell {
        CellPlace::Cache(state, event) => matches!(
            tables.cache.entry(state, event),
            CacheEntry::Act { .. }
        ),
        CellPlace::Directory(state, event) => {
            matches!(
                tables.directory.entry(state, event),
                DirectoryEntry::Act { .. }
            )
        }
    }
}

/// What a walk over all states with three and with four caches found of a stall over a cell.
fn walked(own: &Tables, cell: CellPlace) -> Answer {
    if HOLDING.contains(&cell) {
        Answer::AsksMayBeHeld(cell)
    } else if HARMLESS.contains(&cell) || !acts(own, cell) {
        Answer::NeverStuck
    } else {
        Answer::MessagesMayGetStuck(cell)
    }
}

/// What is certified where a cell of the own tables is left blank: it is named, unless it is blank anyway, or no run meets it.
fn named(own: &Tables, blank: &Tables, cell: CellPlace) -> Answer {
    match cell {
        _ if blank == own => Answer::NeverStuck,
        CellPlace::Directory(DirectoryState::I | DirectoryState::M, DirectoryEvent::PutSLast) => {
            Answer::Closed(cell, Flow::NeverStuck)
        }
        _ => Answer::NotProved(cell),
    }
}

/// Compares how a cell of the own tables stands, and what is certified where it alone is a stall, and where it is left blank.
fn is_certified(rt: &impl Abort, alloc: Global, own: &Tables, cell: CellPlace) {
    let stall = stalled(*own, cell);
    let blank = changed(*own, cell, CacheEntry::Blank, DirectoryEntry::Blank);
    let found = (
        standing_of(own, cell),
        certified(alloc, &stall),
        certified(alloc, &blank),
    );
    let wanted = (Standing::Own, walked(own, cell), named(own, &blank, cell));
    same_at(rt, &found, &wanted, &cell);
}

#[test]
fn each_cell_of_the_own_tables(rt: HostRuntime) {
    let own = Tables::baseline();
    same(&rt, &certified(rt.alloc(), &own), &Answer::NeverStuck);
    for number in 0..CELLS {
        let cell = CellPlace::at(number).expect(&rt, "a cell");
        is_certified(&rt, rt.alloc(), &own, cell);
    }
    same(&rt, &CellPlace::at(CELLS), &None);
}

/// Whether a cell is a stall in a greatest set of them under which nothing gets stuck: a store's Data comes before its acks, or
/// behind them.
fn is_in_greatest(cell: CellPlace, modified_late: bool, shared_late: bool) -> bool {
    match cell {
        CellPlace::Cache(CacheState::ImAd, CacheEvent::DataDirMore) => modified_late,
        CellPlace::Cache(CacheState::ImAd, CacheEvent::InvAck) => !modified_late,
        CellPlace::Cache(CacheState::ImA, CacheEvent::InvAck | CacheEvent::LastInvAck) =>
            modified_late,
        CellPlace::Cache(CacheState::SmAd, CacheEvent::DataDirMore) => shared_late,
        CellPlace::Cache(CacheState::SmAd, CacheEvent::InvAck) => !shared_late,
        CellPlace::Cache(CacheState::SmA, CacheEvent::InvAck | CacheEvent::LastInvAck) =>
            shared_late,
        _ => HARMLESS.contains(&cell),
    }
}

/// The own tables with the stalls of a greatest set, and how many they are.
fn greatest(modified_late: bool, shared_late: bool) -> (Tables, u32) {
    let (mut tables, mut count) = (Tables::baseline(), 0u32);
    for number in 0..CELLS {
        if let Some(cell) = CellPlace::at(number) {
            if is_in_greatest(cell, modified_late, shared_late) {
                tables = stalled(tables, cell);
                count = count.saturating_add(1);
            }
        }
    }
    (tables, count)
}

#[test]
fn the_greatest_sets_of_stalls(rt: HostRuntime) {
    let sizes = [
        (false, false, 9),
        (false, true, 11),
        (true, false, 11),
        (true, true, 13),
    ];
    for (modified_late, shared_late, size) in sizes {
        let (tables, count) = greatest(modified_late, shared_late);
        same_at(
            &rt,
            &(certified(rt.alloc(), &tables), count),
            &(Answer::NeverStuck, size),
            &size,
        );
    }
}

#[test]
fn stalls_that_cross(rt: HostRuntime) {
    for state in [CacheState::ImAd, CacheState::SmAd] {
        let data = stalled(
            Tables::baseline(),
            CellPlace::Cache(state, CacheEvent::DataDirMore),
        );
        let acks = CellPlace::Cache(state, CacheEvent::InvAck);
        let wanted = Answer::MessagesMayGetStuck(acks);
        same_at(
            &rt,
            &certified(rt.alloc(), &stalled(data, acks)),
            &wanted,
            &state,
        );
    }
}

#[test]
fn a_load_that_asks_to_write(rt: HostRuntime) {
    let own = Tables::baseline();
    let mut tables = own;
    let entry = CacheEntry::one(CacheAction::GetM, CacheState::ImAd);
    tables.cache = own.cache.with(CacheState::I, CacheEvent::Load, entry);
    let cell = CellPlace::Cache(CacheState::I, CacheEvent::Load);
    same(
        &rt,
        &certified(rt.alloc(), &tables),
        &Answer::Closed(cell, Flow::NeverStuck),
    );
}
