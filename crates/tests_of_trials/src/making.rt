//! What tests begin with: steps, tables, setups and scenarios. A call with a long contract stands in one function here,
//! as it is proved anew wherever it stands.

use base::{NoMemory, Shape, Step};
use cache_table::{CacheAction, CacheActions, CacheEntry, CacheEvent, CacheState};
use scenario::{Scenario, ScenarioFault};
use std::alloc::Global;
use std::process::Abort;
use tables::Tables;
use trials::{BatchFault, Setup, SetupFault, Trial, TrialResult, batch, trial};

/// An entry that goes to a state and does these actions.
pub fn acting(rt: &impl Abort, next: CacheState, actions: &[CacheAction]) -> CacheEntry {
    let actions = CacheActions::of(actions).expect(rt, "few actions");
    CacheEntry::Act { next, actions }
}

/// The own tables, where the caches have another entry in one cell.
pub fn with_entry(state: CacheState, event: CacheEvent, entry: CacheEntry) -> Tables {
    let mut tables = Tables::baseline();
    tables.cache = tables.cache.with(state, event, entry);
    tables
}

pub fn shape_of(rt: &impl Abort, caches: u32, blocks: u32) -> Shape {
    Shape::new(caches, blocks).expect(rt, "a shape")
}

/// So many values: the first one, and each that follows higher by a step.
pub fn values(rt: &impl Abort, alloc: Global, count: u32, first: u64, step: u64) -> Vec<u64> {
    let mut values = Vec::new(alloc);
    let mut value = first;
    for _ in 0..count {
        values.push(value).expect(rt, "memory");
        value = value.saturating_add(step);
    }
    values
}

pub fn step_of(rt: &impl Abort, line: &str) -> Step {
    Step::read(line.as_bytes()).expect(rt, "a step")
}

pub fn open_setup(
    shape: Shape,
    tables: Tables,
    opening: Vec<u64>,
    seed: u64,
    limit: u32,
) -> Result<Setup, SetupFault> {
    Setup::new(shape, tables, opening, seed, limit)
}

/// The setup of so many caches and blocks, each of which opens at 0.
pub fn setup(
    rt: &impl Abort,
    alloc: Global,
    caches: u32,
    blocks: u32,
    tables: Tables,
    seed: u64,
    limit: u32,
) -> Setup {
    let opening = values(rt, alloc, blocks, 0, 0);
    open_setup(shape_of(rt, caches, blocks), tables, opening, seed, limit).expect(rt, "a setup")
}

pub fn read_scenario(
    alloc: Global,
    text: &str,
    shape: Shape,
) -> Result<Scenario<Global>, ScenarioFault> {
    Scenario::read(alloc, alloc, text.as_bytes(), shape)
}

/// What comes of one trial.
pub fn trial_of(
    alloc: Global,
    tree: &Scenario<Global>,
    setup: &Setup,
    number: u32,
) -> Result<Trial, NoMemory> {
    trial(alloc, tree, setup, number)
}

/// What comes of so many trials.
pub fn batch_of(
    alloc: Global,
    tree: &Scenario<Global>,
    setup: &Setup,
    n: u32,
) -> Result<Vec<TrialResult>, BatchFault> {
    batch(alloc, tree, setup, n)
}

/// A scenario for so many caches and one block.
pub fn scenario(rt: &impl Abort, alloc: Global, text: &str, caches: u32) -> Scenario<Global> {
    read_scenario(alloc, text, shape_of(rt, caches, 1)).expect(rt, "a scenario")
}
