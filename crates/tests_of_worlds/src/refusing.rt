//! Runs that go on behind a refusal. `ci/refuse-growths` refuses each of their growths in turn: what stood before the call
//! has to stand then, and the second call has to succeed. Where nothing is refused they are plain runs.

use crate::asserting::same;
use crate::comparing::same_worlds;
use crate::entries::entry_of;
use crate::making::{open_world, shape_of};
use base::{NoMemory, Outcome, Step};
use std::alloc::{AllocError, Global};
use std::process::Abort;
use std::test::Fail;
use tables::Tables;
use world::World;

/// A PutS that comes late, among three caches.
const LATE_PUTS: [&str; 24] = [
    "ask 0 0 load = sent",
    "request 0 0 = moved",
    "response 0 0 = load 0 0",
    "ask 0 0 replace = sent",
    "ask 1 0 store 9 = sent",
    "request 0 1 = moved",
    "forward 0 0 = moved",
    "response 0 0 = moved",
    "response 0 0 = store 1 9",
    "ask 2 0 load = sent",
    "request 0 1 = moved",
    "forward 0 1 = moved",
    "response 0 0 = load 2 9",
    "response 0 0 = moved",
    "ask 1 0 replace = sent",
    "request 0 1 = moved",
    "forward 0 1 = moved",
    "request 0 0 = moved",
    "forward 0 0 = moved",
    "ask 1 0 store 3 = sent",
    "request 0 0 = moved",
    "forward 0 2 = moved",
    "response 0 1 = moved",
    "response 0 0 = store 1 3",
];

/// The values of one block that opens at 0.
fn zero(alloc: Global) -> Result<Vec<u64>, AllocError> {
    vec![in alloc; 0; 1]
}

fn opened(rt: &impl Abort, alloc: Global) -> Result<World, Fail> {
    let opening = zero(alloc)?;
    Ok(open_world(alloc, shape_of(rt, 3, 1), Tables::baseline(), opening)?)
}

/// Compares all that can be seen of two worlds of three caches and a block.
fn same_world(rt: &impl Abort, found: &World, wanted: &World) {
    same_worlds(rt, found, wanted, &[0], &[0, 1, 2]);
}

/// Makes a step by one of the two calls that make one.
fn outcome_of(world: &mut World, step: Step, tells: bool) -> Result<Outcome, NoMemory> {
    if tells {
        let made = world.make(step)?;
        return Ok(made.outcome);
    }
    world.step(step)
}

/// Makes a step, at the second call where the first one is refused memory and changes nothing.
fn made_at_last(
    rt: &impl Abort,
    world: &mut World,
    before: &World,
    step: Step,
    tells: bool,
) -> Outcome {
    if let Ok(outcome) = outcome_of(world, step, tells) {
        return outcome;
    }
    same_world(rt, world, before);
    outcome_of(world, step, tells).expect(rt, "a second refusal")
}

fn made(
    rt: &impl Abort,
    alloc: Global,
    world: &mut World,
    step: Step,
    tells: bool,
) -> Result<Outcome, NoMemory> {
    let before = world.try_clone(alloc)?;
    Ok(made_at_last(rt, world, &before, step, tells))
}

fn make_each(
    rt: &impl Abort,
    alloc: Global,
    world: &mut World,
    tells: bool,
) -> Result<(), NoMemory> {
    for line in &LATE_PUTS {
        let (step, wanted) = entry_of(rt, line);
        let outcome = made(rt, alloc, world, step, tells)?;
        same(rt, &outcome, &wanted);
    }
    Ok(())
}

fn make_each_in_new(rt: &impl Abort, alloc: Global, tells: bool) -> Result<(), Fail> {
    let mut world = opened(rt, alloc)?;
    Ok(make_each(rt, alloc, &mut world, tells)?)
}

#[test]
fn a_step_of_which_more_is_told_or_not(rt: HostRuntime) -> Result<(), Fail> {
    make_each_in_new(&rt, rt.alloc(), false)?;
    make_each_in_new(&rt, rt.alloc(), true)
}

/// Compares the outcomes of the first steps of a run.
fn compare(rt: &impl Abort, outcomes: &[Outcome], count: usize) {
    same(rt, &outcomes.len(), &count);
    for (outcome, line) in outcomes.iter().zip(&LATE_PUTS) {
        let (_, wanted) = entry_of(rt, line);
        same(rt, outcome, &wanted);
    }
}

fn late_steps(rt: &impl Abort, alloc: Global) -> Result<Vec<Step>, NoMemory> {
    let mut steps = Vec::new(alloc);
    for line in &LATE_PUTS {
        let (step, _) = entry_of(rt, line);
        steps.push(step)?;
    }
    Ok(steps)
}

/// Compares a world with another one, once that has made these steps, too.
fn has_made(rt: &impl Abort, world: &World, other: &mut World, steps: &[Step]) {
    for step in steps {
        other.step(*step).expect(rt, "a second refusal");
    }
    same_world(rt, world, other);
}

/// Makes steps in one run, and what is left of them in a second one where a step is refused memory.
fn run_at_last(
    rt: &impl Abort,
    world: &mut World,
    other: &mut World,
    steps: &[Step],
    outcomes: &mut Vec<Outcome>,
) {
    if let Err(stop) = world.run(steps, outcomes) {
        compare(rt, outcomes.as_slice(), stop.done);
        let (front, rest) = steps.split_at(stop.done);
        has_made(rt, world, other, front);
        world.run(rest, outcomes).expect(rt, "a second refusal");
    }
    compare(rt, outcomes.as_slice(), LATE_PUTS.len());
}

fn run_late(rt: &impl Abort, alloc: Global, steps: &[Step]) -> Result<(), Fail> {
    let mut world = opened(rt, alloc)?;
    let mut other = opened(rt, alloc)?;
    let mut outcomes = Vec::new(alloc);
    run_at_last(rt, &mut world, &mut other, steps, &mut outcomes);
    Ok(())
}

#[test]
fn a_run(rt: HostRuntime) -> Result<(), Fail> {
    let steps = late_steps(&rt, rt.alloc())?;
    run_late(&rt, rt.alloc(), steps.as_slice())
}
