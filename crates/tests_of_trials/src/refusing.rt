//! Runs that go on behind a refusal. `ci/refuse-growths` refuses each of their growths in turn: what stood before the call
//! has to stand then, and the second call has to succeed. Where nothing is refused they are plain runs.

use crate::asserting::same;
use crate::making::{batch_of, open_setup, read_scenario, shape_of, trial_of};
use crate::trying::{ONE_LOAD, RACING_PAIR, are_results, is_cut};
use scenario::Scenario;
use std::alloc::{AllocError, Global};
use std::process::Abort;
use std::test::Fail;
use tables::Tables;
use trials::{BatchFault, Setup, Verdict};

/// The values of one block that opens at 0.
fn zero(alloc: Global) -> Result<Vec<u64>, AllocError> {
    vec![in alloc; 0; 1]
}

fn setup(rt: &impl Abort, alloc: Global, caches: u32, limit: u32) -> Result<Setup, Fail> {
    let opening = zero(alloc)?;
    let shape = shape_of(rt, caches, 1);
    Ok(open_setup(shape, Tables::baseline(), opening, 42, limit).expect(rt, "a setup"))
}

fn scenario(
    rt: &impl Abort,
    alloc: Global,
    text: &str,
    caches: u32,
) -> Result<Scenario<Global>, Fail> {
    Ok(read_scenario(alloc, text, shape_of(rt, caches, 1))?)
}

fn trial_at_last(rt: &impl Abort, alloc: Global, pair: &Scenario<Global>, setup: &Setup) {
    let made = match trial_of(alloc, pair, setup, 54) {
        Ok(made) => made,
        Err(_) => trial_of(alloc, pair, setup, 54).expect(rt, "a second refusal"),
    };
    is_cut(rt, &made);
}

#[test]
fn a_trial(rt: HostRuntime) -> Result<(), Fail> {
    let setup = setup(&rt, rt.alloc(), 2, 6)?;
    let pair = scenario(&rt, rt.alloc(), RACING_PAIR, 2)?;
    trial_at_last(&rt, rt.alloc(), &pair, &setup);
    Ok(())
}

fn batch_at_last(rt: &impl Abort, alloc: Global, load: &Scenario<Global>, setup: &Setup) {
    let results = match batch_of(alloc, load, setup, 3) {
        Ok(results) => results,
        Err(fault) => {
            same(rt, &fault, &BatchFault::NoMemory);
            batch_of(alloc, load, setup, 3).expect(rt, "a second refusal")
        }
    };
    are_results(rt, results.as_slice(), 3, Verdict::Quiet, 3);
}

#[test]
fn a_batch(rt: HostRuntime) -> Result<(), Fail> {
    let setup = setup(&rt, rt.alloc(), 1, 9)?;
    let load = scenario(&rt, rt.alloc(), ONE_LOAD, 1)?;
    batch_at_last(&rt, rt.alloc(), &load, &setup);
    Ok(())
}
