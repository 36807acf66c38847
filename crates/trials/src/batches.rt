ghost use Rattle.std.specs.Prelude.{◌≡◌, ◌≤◌, [], IfOk, IfErr, OnOk, vec_capacity};
ghost use Rattle.scenario.specs.Tree.{plain};
ghost use Rattle.trials.specs.Series.{planned};
ghost use Rattle.trials.specs.Making.{IsBatchFault, MakesBatch};
ghost use Rattle.trials.specs.Trial.{AreResults};

use crate::laws::{trials_under_restrained_tables, trials_under_tables_that_keep_going};
use crate::series::Series;
use crate::setup::{Setup, setups_are_lawful};
use crate::verdict::TrialResult;
use base::NoMemory;
use bumpalo::Bump;
use scenario::Scenario;
use std::alloc::{Allocator, Global};
use thiserror::Error;

/// The most trials of a batch.
pub const MOST_TRIALS: u32 = 1_000_000;

/// Why a batch wasn't made. The faults are tested in this order.
#[derive(Clone, Copy, Debug, PartialEq, Eq, Error)]
pub enum BatchFault {
    /// More than 1,000,000 trials are asked for.
    #[error("a batch has at most {MOST_TRIALS} trials")]
    TooMany,
    /// A growth was refused.
    #[error("no memory")]
    NoMemory,
}

/// The results of the trials of numbers 0 to `n` - 1, in order. It keeps no recording. Under restrained
/// tables, of which the protocol's own are some, none of them broke; under those that keep going and
/// serve asks, of which the protocol's own are some too, none is stuck either.
///
/// It is refused `TooMany` exactly where `n` is over 1,000,000.
pub fn batch<A: Allocator>(
    alloc: Global,
    scenario: &Scenario<A>,
    setup: &Setup,
    n: u32,
) -> Result<Vec<TrialResult>, BatchFault>
    ensures made { IfOk result (λ results. MakesBatch setup.now (plain scenario.now) n results.items) }
    ensures refused { IfErr result (IsBatchFault n) }
{
    trials_under_restrained_tables();
    trials_under_tables_that_keep_going();
    setups_are_lawful(setup);
    if n > MOST_TRIALS {
        return Err(BatchFault::TooMany);
    }
    let Ok(mut results) = Vec::with_capacity(alloc, n as usize) else {
        return Err(BatchFault::NoMemory);
    };
    match fill(alloc, scenario, setup, n, &mut results) {
        Ok(()) => Ok(results),
        Err(_) => Err(BatchFault::NoMemory),
    }
}

/// Makes the trials of numbers 0 to `n` - 1, whose results the list has room for.
fn fill<A: Allocator>(
    alloc: Global,
    scenario: &Scenario<A>,
    setup: &Setup,
    n: u32,
    results: &mut Vec<TrialResult>,
) -> Result<(), NoMemory>
    requires none { results.old.items ≡ [] }
    requires room { n ≤ vec_capacity results.old }
    ensures { OnOk result (AreResults setup.now (plain scenario.now) n results.new.items) }
{
    let arena = Bump::new(alloc);
    let mut series = Series::new(alloc, &arena, scenario, setup);
    append(&mut series, n, results)
}

/// Makes the first `n` trials of a series.
fn append<A: Allocator>(
    series: &mut Series<'_, '_, A>,
    n: u32,
    results: &mut Vec<TrialResult>,
) -> Result<(), NoMemory>
    requires none { results.old.items ≡ [] }
    requires room { n ≤ vec_capacity results.old }
    ensures { OnOk result (AreResults (planned series.old).terms (planned series.old).tree n results.new.items) }
{
    for number in 0..n {
        match series.result(number) {
            Ok(made) => results.push_reserved(made),
            Err(refused) => return Err(refused),
        }
    }
    Ok(())
}
