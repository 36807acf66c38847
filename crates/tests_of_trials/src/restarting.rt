use crate::asserting::same;
use crate::making::{
    acting, batch_of, open_setup, read_scenario, shape_of, trial_of, values, with_entry,
};
use base::Shape;
use cache_table::{CacheAction, CacheEvent, CacheState};
use scenario::Scenario;
use std::alloc::Global;
use std::process::Abort;
use trials::{Setup, TrialResult, Verdict};

/// The setup of the largest shape, over tables under which a cache that waits for its data answers an Inv at once.
fn largest(rt: &impl Abort, alloc: Global, shape: Shape) -> Setup {
    let acks = acting(rt, CacheState::IsD, &[CacheAction::InvAck]);
    let tables = with_entry(CacheState::IsD, CacheEvent::Inv, acks);
    let opening = values(rt, alloc, shape.blocks(), 100, 1);
    open_setup(shape, tables, opening, 42, 100).expect(rt, "a setup")
}

/// Compares a few results with those of the trials alone, each of which opens a world.
fn are_alone(
    rt: &impl Abort,
    alloc: Global,
    tree: &Scenario<Global>,
    setup: &Setup,
    results: &[TrialResult],
) {
    for result in results.get(52..).expect(rt, "more results") {
        let alone = trial_of(alloc, tree, setup, result.number).expect(rt, "memory");
        same(rt, result, &alone.result);
    }
}

/// Whether one of these trials broke.
fn one_broke(results: &[TrialResult]) -> bool {
    for result in results {
        if let Verdict::Broke(_) = result.verdict {
            return true;
        }
    }
    false
}

/// Two cores that race for the last block.
const RACE: &str = r#"{"both":[{"op":"load","core":4095,"block":65535},
    {"op":"store","core":0,"block":65535,"value":9}]}"#;

fn race(rt: &impl Abort, alloc: Global, setup: &Setup) {
    let tree = read_scenario(alloc, RACE, setup.shape()).expect(rt, "a scenario");
    let results = batch_of(alloc, &tree, setup, 56).expect(rt, "a batch");
    are_alone(rt, alloc, &tree, setup, results.as_slice());
    same(
        rt,
        &(results.len(), one_broke(results.as_slice())),
        &(56, true),
    );
}

#[test]
fn a_batch_in_the_largest_shape(rt: HostRuntime) {
    let setup = largest(&rt, rt.alloc(), shape_of(&rt, 4096, 65_536));
    race(&rt, rt.alloc(), &setup);
}
