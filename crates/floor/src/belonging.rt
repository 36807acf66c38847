//! To whom steps belong.

ghost use Rattle.std.specs.Prelude.{◌≡◌, ◌<◌};
ghost use Rattle.floor.specs.Belonging.{belongs};
ghost use Rattle.floor.specs.inner.Sharing.{owner_of};

use base::{Place, Step};
use world::World;

/// The seat that a step's controller belongs to. Where the controller isn't there the step belongs to all.
pub(crate) fn owner(world: &World, seats: u32, step: Step) -> Option<u32>
    requires { 0 < seats }
    ensures { result ≡ owner_of seats world.now.shape.caches world.now.state step }
{
    let number = match world.at(step)? {
        Place::Cache(cache) => u64::from(cache.0),
        Place::Dir => u64::from(world.shape().caches()) + u64::from(step.block().0),
    };
    Some((number % u64::from(seats)) as u32)
}

/// Whether a step belongs to a seat.
pub(crate) fn is_of(world: &World, seats: u32, seat: u32, step: Step) -> bool
    requires { 0 < seats }
    ensures { result ≡ belongs seats world.now.shape.caches world.now.state seat step }
{
    match owner(world, seats, step) {
        None => true,
        Some(owner) => owner == seat,
    }
}
