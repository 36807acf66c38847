//! What tests begin with. A call with a long contract stands in one function here, as it is proved anew wherever it stands.

use base::{Shape, Step};
use cache_table::{CacheAction, CacheActions, CacheEntry, CacheEvent, CacheState};
use std::alloc::Global;
use std::process::Abort;
use tables::Tables;
use world::{OpenFault, World};

/// An entry that goes to a state and does these actions.
pub fn acting(rt: &impl Abort, next: CacheState, actions: &[CacheAction]) -> CacheEntry {
    let actions = CacheActions::of(actions).expect(rt, "few actions");
    CacheEntry::Act { next, actions }
}

/// The own tables, where the caches have another entry in one cell.
pub fn with_entry(state: CacheState, event: CacheEvent, entry: CacheEntry) -> Tables {
    let mut tables = Tables::baseline();
    tables.cache = tables.cache.with(state, event, entry);
    tables
}

pub fn shape_of(rt: &impl Abort, caches: u32, blocks: u32) -> Shape {
    Shape::new(caches, blocks).expect(rt, "a shape")
}

/// So many values: the first one, and each that follows higher by a step.
pub fn values(rt: &impl Abort, alloc: Global, count: u32, first: u64, step: u64) -> Vec<u64> {
    let mut values = Vec::new(alloc);
    let mut value = first;
    for _ in 0..count {
        values.push(value).expect(rt, "memory");
        value = value.saturating_add(step);
    }
    values
}

pub fn open_world(
    alloc: Global,
    shape: Shape,
    tables: Tables,
    opening: Vec<u64>,
) -> Result<World, OpenFault> {
    World::open(alloc, shape, tables, opening)
}

/// A world of so many caches and blocks, each of which opens at this value.
pub fn opened(
    rt: &impl Abort,
    alloc: Global,
    caches: u32,
    blocks: u32,
    tables: Tables,
    value: u64,
) -> World {
    let opening = values(rt, alloc, blocks, value, 0);
    open_world(alloc, shape_of(rt, caches, blocks), tables, opening).expect(rt, "a world")
}

pub fn step_of(rt: &impl Abort, line: &str) -> Step {
    Step::read(line.as_bytes()).expect(rt, "a step")
}

pub fn make_all(rt: &impl Abort, world: &mut World, steps: &[&str]) {
    for line in steps {
        let step = step_of(rt, line);
        world.step(step).expect(rt, "memory");
    }
}
