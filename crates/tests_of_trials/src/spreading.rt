use crate::asserting::same;
use crate::making::{batch_of, scenario, setup};
use crate::trying::{ONE_LOAD, RACING_PAIR, are_results};
use scenario::Scenario;
use std::alloc::Global;
use std::process::Abort;
use std::thread::Threads;
use tables::Tables;
use trials::{BatchFault, Setup, TrialResult, Verdict, spread};

/// The trials of a scenario, spread.
fn spread_of<R: Threads + Sync>(
    rt: &R,
    alloc: Global,
    tree: &Scenario<Global>,
    setup: &Setup,
    n: u32,
) -> Result<Vec<TrialResult>, BatchFault> {
    spread(rt, alloc, tree, setup, n)
}

#[test]
fn one_load_is_spread(rt: HostRuntime) {
    for (limit, verdict, steps) in &[(9, Verdict::Quiet, 3), (2, Verdict::Cut, 2)] {
        let load = scenario(&rt, rt.alloc(), ONE_LOAD, 1);
        let setup = setup(&rt, rt.alloc(), 1, 1, Tables::baseline(), 5, *limit);
        let results = spread_of(&rt, rt.alloc(), &load, &setup, 3).expect(&rt, "a batch");
        are_results(&rt, results.as_slice(), 3, *verdict, *steps);
    }
}

/// Compares what is spread with the batch.
fn is_batch<R: Threads + Abort + Sync>(
    rt: &R,
    alloc: Global,
    tree: &Scenario<Global>,
    setup: &Setup,
    n: u32,
) {
    let results = spread_of(rt, alloc, tree, setup, n).expect(rt, "a batch");
    let wanted = batch_of(alloc, tree, setup, n).expect(rt, "a batch");
    same(rt, &results.as_slice(), &wanted.as_slice());
}

#[test]
fn what_is_spread_is_the_batch(rt: HostRuntime) {
    let pair = scenario(&rt, rt.alloc(), RACING_PAIR, 2);
    let setup = setup(&rt, rt.alloc(), 2, 1, Tables::baseline(), 42, 100);
    for n in &[0, 1, 200] {
        is_batch(&rt, rt.alloc(), &pair, &setup, *n);
    }
    let refused = spread_of(&rt, rt.alloc(), &pair, &setup, 1_000_001);
    same(&rt, &refused.err(), &Some(BatchFault::TooMany));
}
