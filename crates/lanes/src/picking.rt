//! Choices by the lane of an offer, which is found there without its number.

use base::{CoreAsk, Step};
use schedule::step_of;

/// One thing that can happen next, as [`Lanes`](crate::Lanes) find it: a [`Choice`](schedule::Choice) that says of an offer where it
/// is, in place of its number.
#[derive(Clone, Copy)]
pub enum Pick {
    /// An offer is taken, and its ask is put to the core's cache.
    Offer {
        /// The lane that offers it.
        lane: usize,
        /// Its place among what that lane offers.
        place: usize,
        /// The ask that is offered.
        ask: CoreAsk,
    },
    /// A message is served: a step that isn't an ask.
    Deliver(Step),
}

impl Pick {
    ghost use Rattle.std.specs.Prelude.{◌≡◌};
    ghost use Rattle.schedule.specs.Choices.{chosen_step};
    ghost use Rattle.lanes.specs.Lanes.{Laned};
    ghost use Rattle.lanes.specs.Picks.{choice_of};

    /// The step that this pick makes, whatever the lanes.
    pub fn step(self) -> Step
        ensures { (lanes : Laned) → result ≡ chosen_step (choice_of lanes self) }
    {
        match self {
            Pick::Offer { ask, .. } => step_of(ask),
            Pick::Deliver(step) => step,
        }
    }
}
