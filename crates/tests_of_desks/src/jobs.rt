ghost use Rattle.std.specs.Prelude.{◌≡◌, IfOk};
ghost use Rattle.desk.specs.Plans.{IsResultOf, plan_of};

use crate::asserting::same;
use base::{Ask, BlockId, CacheId, CoreAsk, NoMemory, Shape};
use desk::{Job, Planned};
use scenario::Scenario;
use std::alloc::Global;
use std::process::Abort;
use tables::Tables;
use trials::{Setup, SetupFault, TrialResult, batch, trial};

/// A load of core 0 and a store of core 1, which race for one block.
const RACE: [CoreAsk; 2] = [
    CoreAsk {
        core: CacheId(0),
        block: BlockId(0),
        ask: Ask::Load,
    },
    CoreAsk {
        core: CacheId(1),
        block: BlockId(0),
        ask: Ask::Store(9),
    },
];

/// The asks of the race, in any order.
pub fn race(alloc: Global) -> Result<Scenario<Global>, NoMemory> {
    let mut asks = Vec::with_capacity(alloc, RACE.len())?;
    for ask in &RACE {
        asks.push(Scenario::One(*ask))?;
    }
    Ok(Scenario::Both(asks))
}

pub fn open_setup(
    shape: Shape,
    opening: Vec<u64>,
    seed: u64,
    limit: u32,
) -> Result<Setup, SetupFault> {
    Setup::new(shape, Tables::baseline(), opening, seed, limit)
}

/// Two cores that race for one block, which opens at 0.
pub fn racing_pair(rt: &impl Abort, alloc: Global) -> Job {
    let shape = Shape::new(2, 1).expect(rt, "a shape");
    let scenario = race(alloc).expect(rt, "memory");
    let opening = vec![in alloc; 0; 1].expect(rt, "memory");
    let setup = open_setup(shape, opening, 42, 100).expect(rt, "a setup");
    Job { scenario, setup }
}

/// What comes of a trial of a job.
pub fn result_of<D: Planned>(alloc: Global, job: &Job, number: u32) -> Result<TrialResult, NoMemory>
    requires { D.plan ≡ plan_of job.now }
    ensures { IfOk result (λ made. IsResultOf D.plan number made) }
{
    match trial(alloc, &job.scenario, &job.setup, number) {
        Ok(made) => Ok(made.result),
        Err(fault) => Err(fault),
    }
}

/// Compares a closed desk with the trials of its job, made one after another.
pub fn compare_with_trials<D: Planned, R: Abort>(
    rt: &R,
    alloc: Global,
    job: &Job,
    n: u32,
    places: &[Option<TrialResult>],
)
    requires { D.plan ≡ plan_of job.now }
{
    same(rt, &places.len(), &(n as usize));
    for (number, place) in (0..n).zip(places) {
        let wanted = result_of::<D>(alloc, job, number).expect(rt, "memory");
        same(rt, place, &Some(wanted));
    }
}

/// Compares a closed desk with the batch of its job.
pub fn compare_with_batch(
    rt: &impl Abort,
    alloc: Global,
    job: &Job,
    n: u32,
    places: &[Option<TrialResult>],
) {
    let wanted = batch(alloc, &job.scenario, &job.setup, n).expect(rt, "a batch");
    same(rt, &places.len(), &wanted.len());
    for (place, made) in places.iter().zip(wanted.as_slice()) {
        same(rt, place, &Some(*made));
    }
}

/// Holds that both were found, and are two of the places. Which seat has which number is up to the threads.
pub fn are_places(
    rt: &impl Abort,
    found: &[Option<TrialResult>; 2],
    places: &[Option<TrialResult>],
) {
    let [first, second] = found;
    same(rt, &(first.is_some() && second.is_some()), &true);
    same(rt, &(first != second), &true);
    for one in found {
        same(rt, &places.contains(one), &true);
    }
}
