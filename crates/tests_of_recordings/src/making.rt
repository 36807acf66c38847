//! What tests begin with: a table with an entry in a cell, shapes, values and steps.

use base::{Shape, Step};
use cache_table::{CacheEntry, CacheEvent, CacheState};
use std::alloc::Global;
use std::process::Abort;
use tables::Tables;

/// The own tables, where the caches have another entry in one cell.
pub fn with_entry(state: CacheState, event: CacheEvent, entry: CacheEntry) -> Tables {
    let mut tables = Tables::baseline();
    tables.cache = tables.cache.with(state, event, entry);
    tables
}

pub fn shape_of(rt: &impl Abort, caches: u32, blocks: u32) -> Shape {
    Shape::new(caches, blocks).expect(rt, "a shape")
}

/// The values of one block that opens at 0.
pub fn zero(rt: &impl Abort, alloc: Global) -> Vec<u64> {
    vec![in alloc; 0; 1].expect(rt, "memory")
}

pub fn step_of(rt: &impl Abort, line: &str) -> Step {
    Step::read(line.as_bytes()).expect(rt, "a step")
}
