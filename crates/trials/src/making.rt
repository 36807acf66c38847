ghost use Rattle.std.specs.Prelude.{IfOk};
ghost use Rattle.scenario.specs.Tree.{plain};
ghost use Rattle.trials.specs.Making.{MakesTrial};
ghost use Rattle.trials.specs.Trial.{IsTrial};

use crate::course::Course;
use crate::laws::{
    cores_are_answered_in_turn, trials_break_where_they_arent_safe, trials_under_restrained_tables,
    trials_under_tables_that_keep_going,
};
use crate::setup::{Setup, open_recording, setups_are_lawful};
use crate::verdict::{Trial, TrialResult, Verdict};
use base::NoMemory;
use bumpalo::Bump;
use record::Recording;
use scenario::Scenario;
use std::alloc::{Allocator, Global};

/// The trial of this number: at each moment a word of the dice chooses what happens next, until a step shows a violation,
/// nothing can happen, or the limit is reached.
///
/// It borrows the scenario, and keeps in an arena of its own how far it has come. Each core has one load or store outstanding at most, and
/// its completions answer its loads and stores in its order. The trial breaks exactly where its steps aren't safe: where
/// a block has a writer beside another reader or writer, a blank cell is met, or a load doesn't return the latest store.
/// Under restrained tables, of which the protocol's own are some, it never breaks, and its completions are sequentially consistent; under
/// those that keep going and serve asks, of which the protocol's own are some too, it is never stuck either.
pub fn trial<A: Allocator>(
    alloc: Global,
    scenario: &Scenario<A>,
    setup: &Setup,
    number: u32,
) -> Result<Trial, NoMemory>
    ensures { IfOk result (λ made. MakesTrial setup.now (plain scenario.now) number made.recording made.result) }
{
    cores_are_answered_in_turn();
    trials_break_where_they_arent_safe();
    trials_under_restrained_tables();
    trials_under_tables_that_keep_going();
    let arena = Bump::new(alloc);
    setups_are_lawful(setup);
    let (recording, verdict) = record_trial(alloc, &arena, scenario, setup, number)?;
    let steps = recording.entries().len() as u32;
    Ok(Trial {
        recording,
        result: TrialResult {
            number,
            verdict,
            steps,
        },
    })
}

/// Makes the trial of this number, from its start, and keeps its steps.
fn record_trial<A: Allocator>(
    alloc: Global,
    arena: &Bump,
    scenario: &Scenario<A>,
    setup: &Setup,
    number: u32,
) -> Result<(Recording, Verdict), NoMemory>
    ensures { IfOk result (λ made. IsTrial setup.now (plain scenario.now) number made.0 made.1) }
{
    let recording = open_recording(alloc, setup)?;
    let mut course = Course::open(alloc, scenario, setup, number, recording)?;
    let verdict = course.run(arena, setup.limit())?;
    Ok((course.into_notes(), verdict))
}
