ghost use Rattle.std.specs.Prelude.{◌≡◌, [], IfOk, IfErr};
ghost use Rattle.replays.specs.Replaying.{FaultOf, FindsViolation};
ghost use Rattle.replays.specs.inner.Making.{HasMadeFirst};
ghost use Rattle.replays.specs.inner.SoFar.{IsSoFar};

use crate::making::Run;
use base::Outcome;
use monitor::{Violation, no_violation_under_restrained_tables, violations_are_what_isnt_safe};
use record::{Entry, Recording};
use std::alloc::Global;
use thiserror::Error;

/// What the replay of a recording found.
#[derive(Drop)]
pub struct Replayed {
    /// The steps of the recording, each with the outcome that it had.
    pub entries: Vec<Entry>,
    /// The first violation, with the number of its step, counted from 0.
    pub violation: Option<(u64, Violation)>,
}

/// Why a recording has no replay. The faults are looked for step by step.
#[derive(Clone, Copy, Debug, PartialEq, Eq, Error)]
pub enum ReplayFault {
    /// The recording tells of another outcome than the step has. The first such entry is named, counted from 0.
    #[error("entry {entry} has another outcome")]
    Differs {
        entry: u64,
        /// The outcome in the recording.
        told: Outcome,
        /// The outcome of the step.
        found: Outcome,
    },
    /// A growth was refused.
    #[error("no memory")]
    NoMemory,
}

/// Makes the steps of a recording in a world of its own, from the recording's opening values and under its tables.
///
/// It is refused `Differs` exactly where the recording isn't legal, memory aside: all outcomes are compared, also those
/// behind a violation. No violation is found exactly where the steps are safe: where each block always has one writer or
/// many readers, no blank cell is met, and each load returns the latest store. Under restrained tables, of which the protocol's own are some, they are.
pub fn replay(alloc: Global, recording: &Recording) -> Result<Replayed, ReplayFault>
    ensures entries { IfOk result (λ replayed. replayed.entries.items ≡ recording.now.entries) }
    ensures finds { IfOk result (λ replayed. FindsViolation recording.now replayed.violation) }
    ensures differs { IfErr result (FaultOf recording.now) }
{
    let violation = first_violation(alloc, recording)?;
    let Ok(entries) = Vec::from_slice(alloc, recording.entries()) else {
        return Err(ReplayFault::NoMemory);
    };
    Ok(Replayed { entries, violation })
}

/// Makes the steps of a recording as `replay` does, and keeps none of them: answers the first violation, with the number of
/// its step, counted from 0.
pub fn first_violation(
    alloc: Global,
    recording: &Recording,
) -> Result<Option<(u64, Violation)>, ReplayFault>
    ensures finds { IfOk result (FindsViolation recording.now) }
    ensures differs { IfErr result (FaultOf recording.now) }
{
    violations_are_what_isnt_safe();
    no_violation_under_restrained_tables();
    let opened = Run::open(
        alloc,
        recording.shape(),
        recording.tables(),
        recording.opening(),
    );
    let Ok(mut run) = opened else {
        return Err(ReplayFault::NoMemory);
    };
    make_all(&mut run, recording)
}

/// Makes the steps of a recording by a replay of no step yet, and answers the first violation.
fn make_all(run: &mut Run, recording: &Recording) -> Result<Option<(u64, Violation)>, ReplayFault>
    requires { HasMadeFirst recording.now [] run.old }
    ensures ok { IfOk result (λ violation. IsSoFar recording.now recording.now.entries run.new.world run.new.watch violation) }
    ensures differs { IfErr result (FaultOf recording.now) }
{
    let told = recording.entries();
    for (number, entry) in told.iter().enumerate() {
        run.make(number as u64, *entry)?;
    }
    Ok(run.first_violation())
}
