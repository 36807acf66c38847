//! What tests begin with: entries, and tables with one in a cell.

use cache_table::{CacheAction, CacheActions, CacheEntry, CacheEvent, CacheState};
use std::process::Abort;
use tables::Tables;

/// An entry that goes to a state and does these actions.
pub fn acting(rt: &impl Abort, next: CacheState, actions: &[CacheAction]) -> CacheEntry {
    let actions = CacheActions::of(actions).expect(rt, "few actions");
    CacheEntry::Act { next, actions }
}

/// The own tables, where the caches have another entry in one cell.
pub fn with_entry(state: CacheState, event: CacheEvent, entry: CacheEntry) -> Tables {
    let mut tables = Tables::baseline();
    tables.cache = tables.cache.with(state, event, entry);
    tables
}
