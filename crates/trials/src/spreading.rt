ghost use Rattle.std.specs.Prelude.{IfOk, IfErr};
ghost use Rattle.scenario.specs.Tree.{plain};
ghost use Rattle.trials.specs.Making.{IsBatchFault, MakesBatch};
ghost use Rattle.trials.specs.Trial.{AreResults, IsResult};

use crate::batches::{BatchFault, MOST_TRIALS};
use crate::laws::{trials_under_restrained_tables, trials_under_tables_that_keep_going};
use crate::making::trial;
use crate::setup::{Setup, setups_are_lawful};
use crate::verdict::TrialResult;
use base::NoMemory;
use rayon::prelude::*;
use scenario::Scenario;
use std::alloc::Global;
use std::thread::Threads;

/// The answer of [`batch`](crate::batch), made by several threads where there are several processors, each trial by any of them.
///
/// It is refused `TooMany` exactly where `n` is over 1,000,000. `NoMemory` also stands for threads that can't be had.
pub fn spread(
    rt: &(impl Threads + Sync),
    alloc: Global,
    scenario: &Scenario<Global>,
    setup: &Setup,
    n: u32,
) -> Result<Vec<TrialResult>, BatchFault>
    ensures made { IfOk result (λ results. MakesBatch setup.now (plain scenario.now) n results.items) }
    ensures refused { IfErr result (IsBatchFault n) }
{
    trials_under_restrained_tables();
    trials_under_tables_that_keep_going();
    setups_are_lawful(setup);
    if n > MOST_TRIALS {
        return Err(BatchFault::TooMany);
    }
    match all_results(rt, alloc, scenario, setup, n) {
        Ok(results) => Ok(results),
        Err(_) => Err(BatchFault::NoMemory),
    }
}

fn all_results(
    rt: &(impl Threads + Sync),
    alloc: Global,
    scenario: &Scenario<Global>,
    setup: &Setup,
    n: u32,
) -> Result<Vec<TrialResult>, NoMemory>
    ensures { IfOk result (λ results. AreResults setup.now (plain scenario.now) n results.items) }
{
    // A trial may take long, so few of them are worth a thread too. The list is made of the calls' results: `Ok` where all are.
    let made: Result<Vec<TrialResult>, NoMemory> = (0..n)
        .into_par_iter()
        .with_min_len(1)
        .map(
            |number: u32| -> Result<TrialResult, NoMemory>
                ensures { IfOk result (λ made. IsResult setup.entry.now (plain scenario.entry.now) number made) }
            { one_result(alloc, scenario, setup, number) },
        )
        .collect(rt, alloc)?;
    made
}

/// What came of the trial of one number.
fn one_result(
    alloc: Global,
    scenario: &Scenario<Global>,
    setup: &Setup,
    number: u32,
) -> Result<TrialResult, NoMemory>
    ensures { IfOk result (λ made. IsResult setup.now (plain scenario.now) number made) }
{
    let made = trial(alloc, scenario, setup, number)?;
    Ok(made.result)
}
