ghost use Rattle.std.specs.Prelude.{◌≡◌, ◌++◌, map, IfOk, OnOk};
ghost use Rattle.schedule.specs.Choices.{can_be_put, choices_of, offers_from, step_of};
ghost use Rattle.schedule.specs.declared.choosing.Choice.TheVariants.{Deliver};

use base::{CoreAsk, NoMemory, Step};
use cores::Cores;
use scenario::Rest;
use std::alloc::Global;
use world::World;

/// One thing that can happen next.
#[derive(Clone, Copy, Debug, PartialEq, Eq)]
pub enum Choice {
    /// The offer of this number is taken, and its ask is put to the core's cache.
    Offer(usize, CoreAsk),
    /// A message is served: a step that isn't an ask.
    Deliver(Step),
}

/// All that can happen next: first the offers of what is left of a scenario whose core is free and whose step wouldn't be
/// held, in their order, and then the messages that can be served and wouldn't be held, in the order of [`World::enabled`].
///
/// A step that would come to nothing otherwise, or meet a blank cell, is among them. A broken world has none.
pub fn choices<R: Rest>(
    alloc: Global,
    world: &World,
    cores: &Cores,
    rest: &R,
) -> Result<Vec<Choice>, NoMemory>
    ensures { IfOk result (λ choices. choices.items ≡ choices_of world.now.tables world.now.state cores.now (R.left rest.now)) }
{
    let mut choices = Vec::new(alloc);
    if world.broken() {
        return Ok(choices);
    }
    let mut offers = Vec::new(alloc);
    rest.offers(&mut offers)?;
    push_offers(world, cores, offers.as_slice(), &mut choices)?;
    let deliveries = world.enabled(alloc)?;
    push_deliveries(deliveries.as_slice(), &mut choices)?;
    Ok(choices)
}

fn push_offers(
    world: &World,
    cores: &Cores,
    offers: &[CoreAsk],
    choices: &mut Vec<Choice>,
) -> Result<(), NoMemory>
    ensures { OnOk result (choices.new.items ≡ choices.old.items ++ offers_from world.now.tables world.now.state cores.now 0 offers.now) }
{
    for (number, ask) in offers.iter().enumerate() {
        if can_be_put(world, cores, *ask) {
            choices.push(Choice::Offer(number, *ask))?;
        }
    }
    Ok(())
}

fn push_deliveries(steps: &[Step], choices: &mut Vec<Choice>) -> Result<(), NoMemory>
    ensures { OnOk result (choices.new.items ≡ choices.old.items ++ map Deliver steps.now) }
{
    for step in steps {
        choices.push(Choice::Deliver(*step))?;
    }
    Ok(())
}

impl Choice {
    ghost use Rattle.std.specs.Prelude.{◌≡◌};
    ghost use Rattle.schedule.specs.Choices.{chosen_step};

    /// The step that this choice makes.
    pub fn step(self) -> Step
        ensures { result ≡ chosen_step self }
    {
        match self {
            Choice::Offer(_, ask) => step_of(ask),
            Choice::Deliver(step) => step,
        }
    }
}

/// The step of putting the ask to its core's cache.
pub fn step_of(ask: CoreAsk) -> Step
    ensures { result ≡ step_of ask }
{
    Step::Ask {
        cache: ask.core,
        block: ask.block,
        ask: ask.ask,
    }
}

/// Whether the ask can be put now: its core is free, and its step wouldn't be held.
fn can_be_put(world: &World, cores: &Cores, ask: CoreAsk) -> bool
    ensures { result ≡ can_be_put world.now.tables world.now.state cores.now ask }
{
    cores.free(ask.core) && !world.held(step_of(ask))
}
