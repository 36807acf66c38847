use crate::asserting::{same, same_at};
use crate::entries::outcome_of;
use crate::making::{open_world, opened, shape_of, step_of, values, with_entry};
use base::{BlockId, CacheId, Outcome, Place, Shape, Step};
use cache_table::{CacheEntry, CacheEvent, CacheState};
use directory_table::DirectoryState;
use std::alloc::Global;
use std::process::Abort;
use tables::Tables;
use world::{OpenFault, World};

const BLOCK: BlockId = BlockId(0);

fn steps(rt: &impl Abort, alloc: Global, text: &str) -> Vec<Step> {
    let mut steps = Vec::new(alloc);
    for line in text.split(',') {
        steps.push(step_of(rt, line)).expect(rt, "memory");
    }
    steps
}

/// Makes a step that has to be foreseen by `ready`.
fn make_foreseen(rt: &impl Abort, world: &mut World, step: Step) {
    let foreseen = world.ready(step).expect(rt, "memory");
    let held = world.held(step);
    let made = world.step(step).expect(rt, "memory");
    let is_held = made == Outcome::Held;
    same_at(rt, &(made, is_held), &(foreseen, held), &step);
}

fn make_each(rt: &impl Abort, world: &mut World, text: &str) {
    for line in text.split(',') {
        make_foreseen(rt, world, step_of(rt, line));
    }
}

/// A world of two caches that has made these steps, each of which was foreseen by `ready`.
fn after(rt: &impl Abort, alloc: Global, text: &str) -> World {
    let mut world = opened(rt, alloc, 2, 1, Tables::baseline(), 0);
    make_each(rt, &mut world, text);
    world
}

/// The outcomes of a run.
fn ran(rt: &impl Abort, alloc: Global, world: &mut World, steps: &[Step]) -> Vec<Outcome> {
    let mut found = Vec::new(alloc);
    world.run(steps, &mut found).expect(rt, "memory");
    found
}

/// Compares the outcomes of steps.
fn have_come(rt: &impl Abort, found: &[Outcome], came: &str) {
    same_at(rt, &found.len(), &came.split(',').count(), &came);
    for (outcome, text) in found.iter().zip(came.split(',')) {
        same_at(rt, outcome, &outcome_of(rt, text), &came);
    }
}

/// Makes these steps in one run, and compares their outcomes.
fn runs(rt: &impl Abort, alloc: Global, world: &mut World, made: &str, came: &str) {
    let steps = steps(rt, alloc, made);
    let found = ran(rt, alloc, world, steps.as_slice());
    have_come(rt, found.as_slice(), came);
}

const WORKED: [(u32, &str, &str); 9] = [
    (
        2,
        "ask 0 0 load,request 0 0,response 0 0",
        "sent,moved,load 0 0",
    ),
    (
        2,
        "ask 0 0 store 7,request 0 0,response 0 0,ask 1 0 load,request 0 0,forward 0 0,\
         response 0 0,response 0 0",
        "sent,moved,store 0 7,sent,moved,moved,load 1 7,moved",
    ),
    (
        2,
        "ask 0 0 store 7,request 0 0,ask 1 0 load,request 0 0,forward 0 0,response 0 0,\
         forward 0 0,response 0 0,response 0 0",
        "sent,moved,sent,moved,held,store 0 7,moved,load 1 7,moved",
    ),
    (
        2,
        "ask 0 0 load,request 0 0,ask 1 0 store 5,request 0 0,forward 0 0,response 0 0,\
         forward 0 0,response 0 1,response 0 0",
        "sent,moved,sent,moved,held,load 0 0,moved,moved,store 1 5",
    ),
    (
        2,
        "ask 0 0 store 7,request 0 0,response 0 0,ask 0 0 replace,ask 1 0 store 8,request 0 1,\
         request 0 0,forward 0 0,forward 0 0,response 0 0",
        "sent,moved,store 0 7,sent,sent,moved,moved,moved,moved,store 1 8",
    ),
    (
        3,
        "ask 0 0 load,request 0 0,response 0 0,ask 0 0 replace,ask 1 0 store 9,request 0 1,\
         forward 0 0,response 0 0,response 0 0,ask 2 0 load,request 0 1,forward 0 1,response 0 0,\
         response 0 0,ask 1 0 replace,request 0 1,forward 0 1,request 0 0,forward 0 0,\
         ask 1 0 store 3,request 0 0,forward 0 2,response 0 1,response 0 0",
        "sent,moved,load 0 0,sent,sent,moved,moved,moved,store 1 9,sent,moved,moved,load 2 9,\
         moved,sent,moved,moved,moved,moved,sent,moved,moved,moved,store 1 3",
    ),
    (
        2,
        "ask 0 0 store 7,request 0 0,response 0 0,ask 0 0 replace,ask 1 0 load,request 0 1,\
         forward 0 0,response 0 1,response 0 0,ask 1 0 replace,request 0 1,forward 0 1,\
         request 0 0,forward 0 0,ask 1 0 store 4,request 0 0,response 0 0",
        "sent,moved,store 0 7,sent,sent,moved,moved,moved,load 1 7,sent,moved,moved,moved,moved,\
         sent,moved,store 1 4",
    ),
    (
        2,
        "ask 0 0 load,request 0 0,response 0 0,ask 1 0 load,request 0 0,response 0 0,\
         ask 0 0 store 1,ask 1 0 store 2,request 0 0,request 0 0,forward 0 0,forward 0 1,\
         response 0 0,ask 0 0 load,response 0 0,forward 0 0,response 0 0",
        "sent,moved,load 0 0,sent,moved,load 1 0,sent,sent,moved,moved,held,moved,moved,load 0 0,\
         store 0 1,moved,store 1 2",
    ),
    (
        2,
        "ask 0 0 replace,request 0 5,ask 9 0 load,ask 0 0 store 1,ask 0 0 store 2",
        "idle,absent,absent,sent,held",
    ),
];

/// Makes these steps in a new world, and compares their outcomes.
fn comes(rt: &impl Abort, alloc: Global, caches: u32, made: &str, came: &str) {
    let mut world = opened(rt, alloc, caches, 1, Tables::baseline(), 0);
    runs(rt, alloc, &mut world, made, came);
}

#[test]
fn worked_rows(rt: HostRuntime) {
    for (caches, made, came) in &WORKED {
        comes(&rt, rt.alloc(), *caches, made, came);
    }
}

/// Steps of two caches, and what can be seen of the block behind them.
struct Seen<'a> {
    made: &'a str,
    home: (DirectoryState, Option<CacheId>, u64),
    /// Whether the first cache is among the sharers, and whether the second is.
    shares: (bool, bool),
    latest: u64,
    readers: u32,
    writer: Option<CacheId>,
    /// Whether nothing is on its way, and whether a blank was met.
    ends: (bool, bool),
}

/// A PutM meets a load, and is served at once or waits; a line is stored.
const SEEN: [Seen<'static>; 3] = [
    Seen {
        made: "ask 0 0 store 7,request 0 0,response 0 0,ask 0 0 replace,ask 1 0 load,request 0 1,\
               request 0 0,forward 0 0,forward 0 0,response 0 0,response 0 0",
        home: (DirectoryState::S, None, 7),
        shares: (false, true),
        latest: 7,
        readers: 1,
        writer: None,
        ends: (true, false),
    },
    Seen {
        made: "ask 0 0 store 7,request 0 0,response 0 0,ask 0 0 replace,ask 1 0 load,request 0 1,\
               forward 0 0,response 0 1,response 0 0,ask 1 0 replace,request 0 1,forward 0 1,request 0 0",
        home: (DirectoryState::S, None, 7),
        shares: (false, false),
        latest: 7,
        readers: 0,
        writer: None,
        ends: (false, false),
    },
    Seen {
        made: "ask 0 0 store 7,request 0 0,response 0 0",
        home: (DirectoryState::M, Some(CacheId(0)), 0),
        shares: (false, false),
        latest: 7,
        readers: 1,
        writer: Some(CacheId(0)),
        ends: (true, false),
    },
];

fn is_seen(rt: &impl Abort, world: &World, seen: &Seen<'_>) {
    same_at(rt, &world.home(BLOCK), &Some(seen.home), &seen.made);
    let shares = (
        world.shares(CacheId(0), BLOCK),
        world.shares(CacheId(1), BLOCK),
    );
    same_at(rt, &shares, &seen.shares, &seen.made);
    same_at(rt, &world.latest(BLOCK), &Some(seen.latest), &seen.made);
    same_at(rt, &world.readers(BLOCK), &seen.readers, &seen.made);
    same_at(rt, &world.writer(BLOCK), &seen.writer, &seen.made);
    let ends = (world.empty(), world.broken());
    same_at(rt, &ends, &seen.ends, &seen.made);
}

fn copy_is_seen(rt: &impl Abort, alloc: Global, world: &World, seen: &Seen<'_>) {
    let copy = world.try_clone(alloc).expect(rt, "memory");
    is_seen(rt, &copy, seen);
}

#[test]
fn what_is_seen_of_a_block(rt: HostRuntime) {
    for seen in &SEEN {
        let world = after(&rt, rt.alloc(), seen.made);
        is_seen(&rt, &world, seen);
        copy_is_seen(&rt, rt.alloc(), &world, seen);
    }
}

/// Compares what is enabled.
fn enables(rt: &impl Abort, alloc: Global, world: &World, wanted: &[Step]) {
    let found = world.enabled(alloc).expect(rt, "memory");
    same(rt, &found.as_slice(), &wanted);
}

const PLACES: [(&str, Option<Place>); 5] = [
    ("ask 1 0 load", Some(Place::Cache(CacheId(1)))),
    ("ask 2 0 load", None),
    ("request 0 0", None),
    ("forward 0 0", Some(Place::Cache(CacheId(0)))),
    ("response 0 0", Some(Place::Cache(CacheId(0)))),
];

/// Compares where steps take place.
fn takes_place(rt: &impl Abort, world: &World) {
    for (text, place) in &PLACES {
        same_at(rt, &world.at(step_of(rt, text)), place, text);
    }
}

/// Compares what is enabled where a forward is held behind its response, and where steps take place.
fn is_in_order(rt: &impl Abort, alloc: Global, world: &World) {
    let response = Step::Response {
        block: BLOCK,
        index: 0,
    };
    enables(rt, alloc, world, &[response]);
    same(rt, &world.writer(BLOCK), &None);
    takes_place(rt, world);
}

#[test]
fn deliveries_in_their_order(rt: HostRuntime) {
    let held = "ask 0 0 store 7,request 0 0,ask 1 0 load,request 0 0";
    let world = after(&rt, rt.alloc(), held);
    is_in_order(&rt, rt.alloc(), &world);
}

/// Makes steps in a new world, behind which nothing is enabled, and compares their outcomes and how it ends.
fn comes_to_an_end(
    rt: &impl Abort,
    alloc: Global,
    caches: u32,
    tables: Tables,
    made: &str,
    came: &str,
    ends: (bool, bool),
) {
    let mut world = opened(rt, alloc, caches, 1, tables, 0);
    runs(rt, alloc, &mut world, made, came);
    enables(rt, alloc, &world, &[]);
    same_at(rt, &(world.empty(), world.broken()), &ends, &made);
}

/// Makes a load that meets a blank cell, and compares what it and a second one do.
fn breaks(rt: &impl Abort, alloc: Global, world: &mut World) {
    let load = step_of(rt, "ask 0 0 load");
    same(rt, &world.step(load), &Ok(Outcome::Blank));
    same(rt, &world.broken(), &true);
    same(rt, &world.step(load), &Ok(Outcome::Broken));
    enables(rt, alloc, world, &[]);
}

/// An Inv is held for good, and a blank breaks a world.
#[test]
fn worlds_that_come_to_an_end(rt: HostRuntime) {
    let held = with_entry(CacheState::SiA, CacheEvent::Inv, CacheEntry::Stall);
    let made = "ask 0 0 load,request 0 0,response 0 0,ask 0 0 replace,ask 1 0 store 5,request 0 1,\
         response 0 0,request 0 0,forward 0 0";
    let came = "sent,moved,load 0 0,sent,sent,moved,moved,moved,held";
    comes_to_an_end(&rt, rt.alloc(), 2, held, made, came, (false, false));
    let blank = with_entry(CacheState::I, CacheEvent::Load, CacheEntry::Blank);
    let loads = "ask 0 0 load,ask 0 0 load";
    comes_to_an_end(
        &rt,
        rt.alloc(),
        1,
        blank,
        loads,
        "blank,broken",
        (true, true),
    );
    let mut world = opened(&rt, rt.alloc(), 1, 1, blank, 0);
    breaks(&rt, rt.alloc(), &mut world);
}

/// Compares what can be seen of a world of one cache and two blocks that open at 3 and 4.
fn has_opened(rt: &impl Abort, world: &World) {
    same(rt, &Ok(world.shape()), &Shape::new(1, 2));
    let home = Some((DirectoryState::I, None, 4));
    same(rt, &world.home(BlockId(1)), &home);
    same(rt, &world.line(CacheId(1), BLOCK), &None);
}

#[test]
fn an_opening_of_two_blocks(rt: HostRuntime) {
    let (shape, tables) = (shape_of(&rt, 1, 2), Tables::baseline());
    let opening = values(&rt, rt.alloc(), 2, 3, 1);
    let world = open_world(rt.alloc(), shape, tables, opening).expect(&rt, "a world");
    has_opened(&rt, &world);
    let opening = values(&rt, rt.alloc(), 1, 0, 0);
    let refused = open_world(rt.alloc(), shape, tables, opening).err();
    same(&rt, &refused, &Some(OpenFault::OpeningLength));
}
