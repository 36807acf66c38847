use crate::finding::{find, find_stale, is_suspect};
use crate::violation::Violation;
use base::{BlockId, NoMemory, Outcome, Step};
use machine::Made;
use std::alloc::Global;
use std::marker::Model;
use world::World;

/// The value that each block ought to have, noted from the outcomes of steps alone.
#[derive(Drop)]
pub struct Watch {
    values: Vec<u64>,
}

impl Model for Watch {
    ghost use Rattle.std.specs.Prelude.{ℕ, List};

    ghost Value = { List ℕ };

    ghost view = { λ w. w.values.items };
}

impl Watch {
    ghost use Rattle.std.specs.Prelude.{◌≡◌, ◌≢◌, [], IfOk, OnOk, slice_get};
    ghost use Rattle.base.specs.Steps.{block_of};
    ghost use Rattle.machine.specs.Machine.{State};
    ghost use Rattle.machine.specs.Made.{WasTold};
    ghost use Rattle.world.specs.View.{View};
    ghost use Rattle.monitor.specs.Scenes.{Answers, scene_in};
    ghost use Rattle.machine.specs.Completions.{noted};
    ghost use Rattle.monitor.specs.Watching.{HasSeen, SeesStep};
    ghost use Rattle.monitor.specs.Finding.{IsUncrowdedIf};

    /// A watch over blocks that have their opening values, and to which nothing has happened.
    pub fn open(alloc: Global, opening: &[u64]) -> Result<Watch, NoMemory>
        ensures values { IfOk result (λ watch. watch ≡ opening.now) }
        ensures seen { IfOk result (λ watch. (world : View) → HasSeen world opening.now [] watch) }
    {
        Ok(Watch {
            values: Vec::from_slice(alloc, opening)?,
        })
    }

    /// Notes a step, and answers what is wrong after it.
    ///
    /// The world is that after the step, and the outcome is the one that the step had. The watch has to see each step:
    /// what a load ought to return is the value of the last store that it has seen, or the opening value.
    pub fn see(&mut self, world: &World, step: Step, outcome: Outcome) -> Option<Violation>
        ensures { SeesStep world.now self.old step outcome result self.new }
    {
        let block = step.block();
        let due = self.due(block);
        self.note(block, outcome);
        find(world, step, outcome, due)
    }

    /// Notes a step, and answers what is wrong after it, as [`see`](Watch::see) does. It takes what [`World::make`] answered
    /// of the step, and doesn't look at the world where the block isn't crowded and no cell was blank.
    #[inline(always)]
    pub fn see_made(&mut self, world: &World, step: Step, made: &Made) -> Option<Violation>
        requires { WasTold world.now.tables step made.now world.now.state }
        ensures { SeesStep world.now self.old step made.now.outcome result self.new }
    {
        if is_suspect(made) {
            return self.see_any(world, step, made.outcome);
        }
        self.see_value(step, made.outcome)
    }

    /// The same as [`see`](Watch::see). It is the call, taken apart (docs/PERFORMANCE.md, "Seldom calls").
    #[inline(always)]
    fn see_any(&mut self, world: &World, step: Step, outcome: Outcome) -> Option<Violation>
        ensures { SeesStep world.now self.old step outcome result self.new }
    {
        let seen = self.see(world, step, outcome)?;
        Some(seen)
    }

    /// Notes a step that met no blank cell, and answers what is wrong after it where its block isn't crowded if it
    /// is looked at: only a load may be.
    fn see_value(&mut self, step: Step, outcome: Outcome) -> Option<Violation>
        requires { outcome ≢ Outcome.Blank }
        ensures noted { self.new ≡ noted self.old (block_of step) outcome }
        ensures violation { (state : State) → IsUncrowdedIf outcome state (block_of step) →
            Answers (scene_in state step outcome (slice_get self.old (block_of step))) result }
    {
        match outcome {
            Outcome::Load { .. } => {
                let due = self.due(step.block());
                find_stale(step, outcome, due)
            }
            Outcome::Store { .. } => {
                self.note(step.block(), outcome);
                None
            }
            _ => None,
        }
    }

    /// The value that a load of a block ought to return, if the block is known.
    fn due(&self, block: BlockId) -> Option<u64>
        ensures { result ≡ slice_get self.now block.0 }
    {
        self.values.get(block.0 as usize).copied()
    }

    fn note(&mut self, block: BlockId, outcome: Outcome)
        ensures { self.new ≡ noted self.old block.0 outcome }
    {
        if let Outcome::Store { cache: _, value } = outcome {
            if let Some(latest) = self.values.get_mut(block.0 as usize) {
                *latest = value;
            }
        }
    }
}
