//! Runs that go on behind a refusal. `ci/refuse-growths` refuses each of their growths in turn: what stood before the call
//! has to stand then, and the second call has to succeed. Where nothing is refused they are plain runs.

use crate::asserting::same;
use crate::worlds::{open_world, shape_of};
use base::NoMemory;
use moment::Moment;
use scenario::Scenario;
use std::alloc::Global;
use std::process::Abort;
use std::test::Fail;
use world::World;

/// A world of three caches and one block that opens at 0.
fn opened(rt: &impl Abort, alloc: Global) -> Result<World, Fail> {
    let opening = vec![in alloc; 0; 1]?;
    Ok(open_world(alloc, shape_of(rt, 3), opening)?)
}

/// Makes the first choice again and again, until there is none, and answers how many there were.
fn lead(alloc: Global, moment: &mut Moment<'_, Global, Global>) -> Result<u32, NoMemory> {
    for made in 0..64 {
        if moment.count() == 0 {
            return Ok(made);
        }
        let _ = moment.make(alloc, 0)?;
    }
    Ok(64)
}

/// Leads a moment to its rest, from the start again where a refusal has spoilt it.
fn lead_at_last(
    rt: &impl Abort,
    alloc: Global,
    moment: &mut Moment<'_, Global, Global>,
    wanted: u32,
) {
    let mut made = lead(alloc, moment);
    if made.is_err() {
        same(rt, &moment.count(), &0);
        moment.restart().expect(rt, "a second refusal");
        made = lead(alloc, moment);
    }
    same(rt, &made.expect(rt, "a second refusal"), &wanted);
    same(rt, &moment.is_at_rest(), &true);
}

/// Leads a moment to its rest, and once more from the start.
fn lead_twice(
    rt: &impl Abort,
    alloc: Global,
    moment: &mut Moment<'_, Global, Global>,
    wanted: u32,
) -> Result<(), NoMemory> {
    lead_at_last(rt, alloc, moment, wanted);
    moment.restart()?;
    lead_at_last(rt, alloc, moment, wanted);
    Ok(())
}

fn lead_new(
    rt: &impl Abort,
    alloc: Global,
    tree: &Scenario<Global>,
    wanted: u32,
) -> Result<(), Fail> {
    let mut world = opened(rt, alloc)?;
    world.restart();
    let mut moment = Moment::open(alloc, tree, world)?;
    Ok(lead_twice(rt, alloc, &mut moment, wanted)?)
}

/// Leads moments of a scenario for three caches, of which so many choices lead to the rest.
fn leads(rt: &impl Abort, alloc: Global, text: &str, wanted: u32) -> Result<(), Fail> {
    let tree = Scenario::read(alloc, alloc, text.as_bytes(), shape_of(rt, 3))?;
    lead_new(rt, alloc, &tree, wanted)
}

/// Two lanes, of which the first has turns and each has both cores: 10 choices, four of which are asks.
const TWO_LANES: &str = r#"{"both":[
    {"times":2,"of":{"any":[{"op":"load","core":0,"block":0},{"op":"store","core":1,"block":0,"value":9}]}},
    {"seq":[{"op":"load","core":1,"block":0},{"op":"replace","core":0,"block":0}]}
]}"#;

#[test]
fn moments(rt: HostRuntime) -> Result<(), Fail> {
    leads(&rt, rt.alloc(), r#"{"op":"load","core":0,"block":0}"#, 3)?;
    leads(&rt, rt.alloc(), TWO_LANES, 10)
}
