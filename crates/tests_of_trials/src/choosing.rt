use crate::asserting::same;
use crate::worlds::{make_all, opened};
use base::{Ask, BlockId, CacheId, CoreAsk, Step};
use cores::Cores;
use lanes::Lanes;
use scenario::Scenario;
use schedule::{Choice, Dice, choices, step_of};
use std::alloc::Global;
use std::process::Abort;
use world::World;

const BLOCK: BlockId = BlockId(0);

const LOAD: CoreAsk = CoreAsk {
    core: CacheId(0),
    block: BLOCK,
    ask: Ask::Load,
};

const STORE: CoreAsk = CoreAsk {
    core: CacheId(1),
    block: BLOCK,
    ask: Ask::Store(9),
};

fn occupy(cores: &mut Cores, core: CacheId) {
    if cores.free(core) {
        cores.issue(core, Ask::Load);
    }
}

/// What can happen next, where these cores are busy.
fn listed(
    rt: &impl Abort,
    alloc: Global,
    world: &World,
    busy: &[u32],
    scenario: &Scenario<Global>,
) -> Vec<Choice> {
    let mut cores = Cores::open(alloc, 2).expect(rt, "memory");
    for core in busy {
        occupy(&mut cores, CacheId(*core));
    }
    choices(alloc, world, &cores, scenario).expect(rt, "memory")
}

const WORDS: [u32; 6] = [
    0xa15c02b7, 0x7b47f409, 0xba1d3330, 0x83d2f293, 0xbfa4784b, 0xcbed606e,
];

#[test]
fn the_first_words_and_choices(rt: HostRuntime) {
    let mut dice = Dice::new(42, 54);
    for word in &WORDS {
        same(&rt, &dice.pick(4294967296), word);
    }
    let mut dice = Dice::new(42, 54);
    for (count, picked) in &[(2, 1), (2, 1), (2, 0), (2, 1), (1, 0), (1, 0)] {
        same(&rt, &dice.pick(*count), picked);
    }
}

/// The scenario of one of these asks.
fn one_of(rt: &impl Abort, alloc: Global, asks: &[CoreAsk]) -> Scenario<Global> {
    let mut children = Vec::new(alloc);
    for ask in asks {
        children.push(Scenario::One(*ask)).expect(rt, "memory");
    }
    Scenario::Any(children)
}

const OFFERED_LOAD: Choice = Choice::Offer(0, LOAD);

const OFFERED_STORE: Choice = Choice::Offer(1, STORE);

const REQUEST: Choice = Choice::Deliver(Step::Request {
    block: BLOCK,
    index: 0,
});

const RESPONSE: Choice = Choice::Deliver(Step::Response {
    block: BLOCK,
    index: 0,
});

/// Compares what can happen next behind these steps, where these cores are busy.
fn comes_next(
    rt: &impl Abort,
    alloc: Global,
    scenario: &Scenario<Global>,
    steps: &[&str],
    busy: &[u32],
    wanted: &[Choice],
) {
    let mut world = opened(rt, alloc, 2);
    make_all(rt, &mut world, steps);
    let found = listed(rt, alloc, &world, busy, scenario);
    same(rt, &found.as_slice(), &wanted);
}

/// Asks of which one is put, steps, the cores that are busy behind them, and what can happen next.
const NEXT: &[(&[CoreAsk], &[&str], &[u32], &[Choice])] = &[
    (
        &[LOAD],
        &[
            "ask 0 0 store 7",
            "request 0 0",
            "ask 1 0 load",
            "request 0 0",
        ],
        &[],
        &[RESPONSE],
    ),
    (&[LOAD, STORE], &[], &[], &[OFFERED_LOAD, OFFERED_STORE]),
    (
        &[LOAD, STORE],
        &["ask 1 0 store 9"],
        &[1],
        &[OFFERED_LOAD, REQUEST],
    ),
    (&[LOAD, STORE], &["ask 1 0 store 9"], &[0, 1], &[REQUEST]),
];

/// Offers come before deliveries, before and behind the store's ask; and a forward that is held behind the Data is no choice.
#[test]
fn what_comes_next(rt: HostRuntime) {
    for (asks, steps, busy, wanted) in NEXT {
        let tree = one_of(&rt, rt.alloc(), asks);
        comes_next(&rt, rt.alloc(), &tree, steps, busy, wanted);
    }
}

/// Picks the only choice there is, which is the load's ask, makes its step and follows it: then nothing is offered any more.
fn takes_only(
    rt: &impl Abort,
    alloc: Global,
    world: &mut World,
    cores: &Cores,
    scenario: &Scenario<Global>,
) {
    let opened = Lanes::open(alloc, scenario, 2, world, cores);
    let mut lanes: Lanes<'_, Global, Global> = opened.expect(rt, "memory");
    same(rt, &lanes.count(world, cores), &1);
    let pick = lanes.pick(world, cores, 0).expect(rt, "a choice");
    same(rt, &pick.step(), &step_of(LOAD));
    let made = world.make(pick.step()).expect(rt, "memory");
    lanes
        .follow(alloc, &pick, &made, false, world, cores)
        .expect(rt, "memory");
    same(rt, &lanes.is_done(), &true);
}

#[test]
fn what_is_picked_is_taken(rt: HostRuntime) {
    let mut world = opened(&rt, rt.alloc(), 2);
    let cores = Cores::open(rt.alloc(), 2).expect(&rt, "memory");
    takes_only(&rt, rt.alloc(), &mut world, &cores, &Scenario::One(LOAD));
}
