use crate::worlds::World;
use base::{Outcome, Step};
use thiserror::Error;

/// Memory was refused in a run: exactly the first `done` steps were made.
#[derive(Clone, Copy, Debug, PartialEq, Eq, Error)]
#[error("no memory after {done} steps")]
pub struct RunStop {
    pub done: usize,
}

impl World {
    ghost use Rattle.std.specs.Prelude.{◌≡◌, ◌<◌, ◌≤◌, ◌⊎◌, IfErr, OnOk, length, take, vec_capacity};
    ghost use Rattle.world.specs.Keeping.{KeepsOthers};
    ghost use Rattle.world.specs.Runs.{FoundNoMemory, IsRun, RunsSafely, StopsSafely};

    /// Makes these steps, and appends an outcome for each.
    ///
    /// Where memory is refused exactly the first `done` steps stand, and their outcomes are appended. That is so only where `outcomes`
    /// is full, or where the step behind them wants memory: so a run never stops at a step that [`step`](World::step) is never refused.
    pub fn run(&mut self, steps: &[Step], outcomes: &mut Vec<Outcome>) -> Result<(), RunStop>
        ensures ok { OnOk result (RunsSafely self.old steps.now outcomes.old.items self.new outcomes.new.items) }
        ensures err { IfErr result (λ stop. StopsSafely self.old steps.now stop.done outcomes.old.items self.new outcomes.new.items) }
        ensures wanted { IfErr result (λ stop.
            (vec_capacity outcomes.new ≤ length outcomes.new.items) ⊎ FoundNoMemory self.old steps.now stop.done self.new) }
    {
        // The shape is within the limits, as that of every world.
        let _ = &self.shape;
        self.advance_all(steps, outcomes)
    }

    fn advance_all(&mut self, steps: &[Step], outcomes: &mut Vec<Outcome>) -> Result<(), RunStop>
        ensures ok { OnOk result (IsRun self.old steps.now outcomes.old.items self.new outcomes.new.items) }
        ensures err { IfErr result (λ stop.
            (stop.done < length steps.now) × IsRun self.old (take stop.done steps.now) outcomes.old.items self.new outcomes.new.items) }
        ensures wanted { IfErr result (λ stop.
            (vec_capacity outcomes.new ≤ length outcomes.new.items) ⊎ FoundNoMemory self.old steps.now stop.done self.new) }
        ensures keeps { KeepsOthers self.old steps.now self.new }
        ensures shape { self.new.shape ≡ self.old.shape }
    {
        for (i, step) in steps.iter().enumerate() {
            if let Err(_) = outcomes.reserve(1) {
                return Err(RunStop { done: i });
            }
            let Ok(made) = self.make(*step) else {
                return Err(RunStop { done: i });
            };
            outcomes.push_reserved(made.outcome);
        }
        Ok(())
    }
}
