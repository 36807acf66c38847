//! Going on by a pick.

ghost use Rattle.std.specs.Prelude.{MatchResult};
ghost use Rattle.lanes.specs.Lanes.{IsSpoilt};
ghost use Rattle.moment.specs.inner.Going.{GoesOn, IsNext, StaysUnder};

use crate::noting::note;
use base::{NoMemory, Step};
use cores::Cores;
use lanes::{Lanes, Pick};
use machine::Made;
use std::alloc::Allocator;
use world::World;

/// Makes the step of a pick, notes it in the cores and follows it in the lanes, and answers the step and what that came to. Where
/// memory is refused the lanes are spoilt.
#[inline(always)]
pub(crate) fn go_on<A: Allocator, B: Allocator + Clone>(
    world: &mut World,
    cores: &mut Cores,
    lanes: &mut Lanes<'_, A, B>,
    alloc: B,
    pick: Pick,
) -> Result<(Step, Made), NoMemory>
    requires { IsNext pick world.old cores.old lanes.old }
    ensures under { StaysUnder world.old world.new lanes.old lanes.new }
    ensures made { MatchResult result
        (λ made. GoesOn pick made.0 made.1 world.old cores.old lanes.old world.new cores.new lanes.new)
        (λ _. IsSpoilt lanes.new) }
{
    let step = pick.step();
    let Ok(made) = world.make(step) else {
        lanes.spoil();
        return Err(NoMemory);
    };
    let turned = note(cores, step, made.outcome);
    let Ok(()) = lanes.follow(alloc, &pick, &made, turned, world, cores) else {
        return Err(NoMemory);
    };
    Ok((step, made))
}
