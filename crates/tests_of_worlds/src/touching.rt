use crate::asserting::same;
use crate::making::opened;
use base::{Ask, BlockId, CacheId, Outcome, Step};
use schedule::Dice;
use std::alloc::Global;
use std::process::Abort;
use tables::Tables;
use world::World;

fn load(cache: u32, block: u32) -> Step {
    Step::Ask {
        cache: CacheId(cache),
        block: BlockId(block),
        ask: Ask::Load,
    }
}

fn request(block: u32) -> Step {
    Step::Request {
        block: BlockId(block),
        index: 0,
    }
}

/// Compares what is enabled, and how many messages were tested.
fn enables(rt: &impl Abort, alloc: Global, world: &World, wanted: &[Step], tested: u64) {
    let found = world.enabled(alloc).expect(rt, "memory");
    same(rt, &(found.as_slice(), world.tested()), &(wanted, tested));
}

/// Asks for the last block and for another one.
fn touch_two(rt: &impl Abort, alloc: Global, world: &mut World) {
    same(rt, &world.tested(), &0);
    same(rt, &world.step(load(1023, 4095)), &Ok(Outcome::Sent));
    enables(rt, alloc, world, &[request(4095)], 1);
    same(rt, &world.step(load(0, 7)), &Ok(Outcome::Sent));
    enables(rt, alloc, world, &[request(7), request(4095)], 2);
}

/// Compares a copy of a world in which two blocks were touched.
fn is_copy(rt: &impl Abort, alloc: Global, copy: &World, world: &World) {
    let untouched = world.line(CacheId(1023), BlockId(0));
    same(rt, &copy.line(CacheId(3), BlockId(9)), &untouched);
    enables(rt, alloc, copy, &[request(7), request(4095)], 2);
}

/// Touches two blocks, and copies the world.
fn touch_and_copy(rt: &impl Abort, alloc: Global, world: &mut World) {
    touch_two(rt, alloc, world);
    let copy = world.try_clone(alloc).expect(rt, "memory");
    is_copy(rt, alloc, &copy, world);
}

#[test]
fn two_blocks_of_a_large_shape(rt: HostRuntime) {
    let mut world = opened(&rt, rt.alloc(), 1024, 4096, Tables::baseline(), 0);
    touch_and_copy(&rt, rt.alloc(), &mut world);
}

/// Compares a world whose first step was refused with what it was.
fn is_untouched(rt: &impl Abort, world: &World, before: u64) {
    same(rt, &world.tested(), &before);
    same(rt, &world.enabled_count(), &0);
    let line = world.line(CacheId(0), BlockId(0));
    same(rt, &world.line(CacheId(2), BlockId(1)), &line);
    same(rt, &world.home(BlockId(1)), &world.home(BlockId(0)));
}

/// Makes a step. Where memory is refused to it, its block has to be as it opens, and nothing to be tested.
fn made(rt: &impl Abort, world: &mut World, step: Step) -> Outcome {
    let before = world.tested();
    match world.step(step) {
        Ok(outcome) => outcome,
        Err(_) => {
            is_untouched(rt, world, before);
            panic!(rt; "memory")
        }
    }
}

fn make_a_load(rt: &impl Abort, world: &mut World) {
    let outcome = made(rt, world, load(2, 1));
    same(rt, &outcome, &Outcome::Sent);
    same(rt, &world.enabled_at(0), &Some(request(1)));
}

/// `ci/refuse-growths` refuses each of its growths in turn.
#[test]
fn a_refused_step_leaves_an_untouched_block_alone(rt: HostRuntime) {
    let mut world = opened(&rt, rt.alloc(), 3, 2, Tables::baseline(), 0);
    make_a_load(&rt, &mut world);
}

/// One of the first deliveries that are enabled, or an ask of any cache for any block, where few are enabled more likely.
fn draw(world: &World, dice: &mut Dice) -> Step {
    let count = world.enabled_count();
    let choices = if count < 6 { count + 4 } else { 7 };
    let drawn = dice.pick(choices) as u64;
    if let Some(step) = world.enabled_at(drawn) {
        return step;
    }
    let shape = world.shape();
    let cache = CacheId(dice.pick(shape.caches() as u64));
    let block = BlockId(dice.pick(shape.blocks() as u64));
    let ask = match dice.pick(3) {
        0 => Ask::Load,
        1 => Ask::Store(drawn),
        _ => Ask::Replace,
    };
    Step::Ask { cache, block, ask }
}

/// Compares the list of what is enabled with its count and its places.
fn compare(rt: &impl Abort, world: &World, list: &[Step]) {
    same(rt, &world.enabled_count(), &(list.len() as u64));
    for (k, step) in list.iter().enumerate() {
        let found = (world.enabled_at(k as u64), world.held(*step));
        same(rt, &found, &(Some(*step), false));
    }
    same(rt, &world.enabled_at(list.len() as u64), &None);
}

/// Makes a random step, and compares what is enabled then.
fn go_on(rt: &impl Abort, alloc: Global, world: &mut World, dice: &mut Dice) {
    let before = world.tested();
    let _outcome = world.step(draw(world, dice)).expect(rt, "memory");
    let list = world.enabled(alloc).expect(rt, "memory");
    same(rt, &(world.tested() >= before), &true);
    compare(rt, world, list.as_slice());
}

/// Makes so many random steps.
fn go_far(rt: &impl Abort, alloc: Global, world: &mut World, dice: &mut Dice, steps: u32) {
    for _ in 0..steps {
        go_on(rt, alloc, world, dice);
    }
}

/// Makes so many random steps from the start.
fn wander(rt: &impl Abort, alloc: Global, caches: u32, blocks: u32, steps: u32) {
    let mut world = opened(rt, alloc, caches, blocks, Tables::baseline(), 0);
    let mut dice = Dice::new(7, caches as u64);
    go_far(rt, alloc, &mut world, &mut dice, steps);
}

#[test]
fn random_steps_over_a_small_and_the_largest_shape(rt: HostRuntime) {
    wander(&rt, rt.alloc(), 3, 2, 50_000);
    wander(&rt, rt.alloc(), 4096, 65_536, 50_000);
}
