use crate::asserting::same;
use crate::comparing::same_worlds;
use crate::making::{make_all, open_world, shape_of, values, with_entry};
use base::Shape;
use cache_table::{CacheEntry, CacheEvent, CacheState};
use std::alloc::Global;
use std::process::Abort;
use tables::Tables;
use world::World;

/// The protocol's own tables, where a load in I meets a blank cell if that is wanted.
fn tables(blank: bool) -> Tables {
    if blank {
        with_entry(CacheState::I, CacheEvent::Load, CacheEntry::Blank)
    } else {
        Tables::baseline()
    }
}

/// A world whose blocks open at 100 and their number each, or at 7.
fn opened(rt: &impl Abort, alloc: Global, shape: Shape, blank: bool, rises: bool) -> World {
    let (first, step) = if rises { (100, 1) } else { (7, 0) };
    let opening = values(rt, alloc, shape.blocks(), first, step);
    open_world(alloc, shape, tables(blank), opening).expect(rt, "a world")
}

/// Compares what can be seen of two worlds.
fn same_world(rt: &impl Abort, alloc: Global, world: &World, fresh: &World) {
    let last_block = world.shape().blocks().saturating_sub(1);
    let last_cache = world.shape().caches().saturating_sub(1);
    same_worlds(rt, world, fresh, &[0, 1, last_block], &[0, last_cache]);
    let found = world.enabled(alloc).expect(rt, "memory");
    let wanted = fresh.enabled(alloc).expect(rt, "memory");
    same(rt, &found.as_slice(), &wanted.as_slice());
}

/// Compares a world that begins again with one that opens, before these steps and after them.
fn begins_as(rt: &impl Abort, alloc: Global, world: &mut World, fresh: &mut World, steps: &[&str]) {
    same_world(rt, alloc, world, fresh);
    make_all(rt, world, steps);
    make_all(rt, fresh, steps);
    same_world(rt, alloc, world, fresh);
}

/// The same with one that it opens.
fn begins_as_opened(
    rt: &impl Abort,
    alloc: Global,
    world: &mut World,
    round: &Round<'_>,
    rises: bool,
) {
    let mut fresh = opened(rt, alloc, world.shape(), round.blank, rises);
    begins_as(rt, alloc, world, &mut fresh, round.steps);
}

/// Has a world begin again with 7 in each block.
fn reset_to_7(rt: &impl Abort, alloc: Global, world: &mut World) {
    let blocks = world.shape().blocks();
    let opening = vec![in alloc; 7u64; blocks as usize].expect(rt, "memory");
    world.reset(opening.as_slice());
}

/// Has a world begin again behind these steps, with the values that it has and with others.
fn begins_again(rt: &impl Abort, alloc: Global, world: &mut World, round: &Round<'_>) {
    make_all(rt, world, round.steps);
    world.restart();
    begins_as_opened(rt, alloc, world, round, true);
    reset_to_7(rt, alloc, world);
    begins_as_opened(rt, alloc, world, round, false);
}

struct Round<'a> {
    caches: u32,
    blocks: u32,
    blank: bool,
    steps: &'a [&'a str],
}

const ROUNDS: [Round<'static>; 5] = [
    Round {
        caches: 2,
        blocks: 3,
        blank: false,
        steps: &[
            "ask 0 0 store 7",
            "request 0 0",
            "response 0 0",
            "ask 1 2 store 8",
            "request 2 0",
            "response 2 0",
        ],
    },
    Round {
        caches: 2,
        blocks: 3,
        blank: false,
        steps: &["ask 0 1 load", "request 1 0", "ask 1 1 store 5"],
    },
    Round {
        caches: 2,
        blocks: 3,
        blank: true,
        steps: &["ask 0 2 load", "ask 0 0 store 3"],
    },
    Round {
        caches: 1,
        blocks: 2,
        blank: false,
        steps: &["ask 0 1 replace"],
    },
    Round {
        caches: 4096,
        blocks: 65_536,
        blank: false,
        steps: &[
            "ask 4095 65535 store 7",
            "request 65535 0",
            "response 65535 0",
            "ask 0 0 load",
            "ask 0 65535 load",
        ],
    },
];

fn plays(rt: &impl Abort, alloc: Global, round: &Round<'_>) {
    let shape = shape_of(rt, round.caches, round.blocks);
    let mut world = opened(rt, alloc, shape, round.blank, true);
    begins_again(rt, alloc, &mut world, round);
}

#[test]
fn worlds_begin_again(rt: HostRuntime) {
    for round in &ROUNDS {
        plays(&rt, rt.alloc(), round);
    }
}
