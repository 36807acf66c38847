//! What is wrong after a step, by what the world itself knows.

ghost use Rattle.std.specs.Prelude.{◌≢◌};
ghost use Rattle.base.specs.Steps.{block_of};
ghost use Rattle.machine.specs.Made.{WasTold};
ghost use Rattle.world.specs.Looks.{latest_at};
ghost use Rattle.monitor.specs.Scenes.{Answers, scene_in};
ghost use Rattle.monitor.specs.Watching.{AnswersLast};
ghost use Rattle.monitor.specs.Finding.{IsUncrowdedIf};

use crate::finding::{find, find_stale, is_suspect};
use crate::violation::Violation;
use base::{Outcome, Step};
use machine::Made;
use world::World;

/// What is wrong after a step. The world is that after the step, and `made` is what [`World::make`] answered of it.
///
/// It is what a [`Watch`](crate::Watch) answers that has seen each step, and nothing has to be noted for it: what a load ought
/// to have returned is the latest value of its block, which the world has, and which a load leaves as it was. It looks at the
/// world only where the block is crowded, a cell was blank or a load completed.
#[inline(always)]
pub fn violation_after(world: &World, step: Step, made: &Made) -> Option<Violation>
    requires { WasTold world.now.tables step made.now world.now.state }
    ensures violation { Answers (scene_in world.now.state step made.now.outcome (latest_at world.now.state (block_of step))) result }
    ensures history { AnswersLast world.now step made.now.outcome result }
{
    find_after(world, step, made)
}

#[inline(always)]
fn find_after(world: &World, step: Step, made: &Made) -> Option<Violation>
    requires { WasTold world.now.tables step made.now world.now.state }
    ensures { Answers (scene_in world.now.state step made.now.outcome (latest_at world.now.state (block_of step))) result }
{
    if is_suspect(made) {
        return find_seldom(world, step, made.outcome);
    }
    find_loaded(world, step, made.outcome)
}

/// What is wrong after a step of any outcome. It is the call of what stands apart, taken apart (docs/PERFORMANCE.md, "Seldom calls").
#[inline(always)]
fn find_seldom(world: &World, step: Step, outcome: Outcome) -> Option<Violation>
    ensures { Answers (scene_in world.now.state step outcome (latest_at world.now.state (block_of step))) result }
{
    let found = find_any(world, step, outcome)?;
    Some(found)
}

/// The same. It stands apart, as few steps come here.
fn find_any(world: &World, step: Step, outcome: Outcome) -> Option<Violation>
    ensures { Answers (scene_in world.now.state step outcome (latest_at world.now.state (block_of step))) result }
{
    find(world, step, outcome, world.latest(step.block()))
}

/// What is wrong after a step that met no blank cell, where its block isn't crowded if it is looked at: only a load may be.
#[inline(always)]
fn find_loaded(world: &World, step: Step, outcome: Outcome) -> Option<Violation>
    requires met { outcome ≢ Outcome.Blank }
    requires uncrowded { IsUncrowdedIf outcome world.now.state (block_of step) }
    ensures { Answers (scene_in world.now.state step outcome (latest_at world.now.state (block_of step))) result }
{
    match outcome {
        Outcome::Load { .. } => find_stale(step, outcome, world.latest(step.block())),
        _ => None,
    }
}
