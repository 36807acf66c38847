//! How many choices there are, and which is the k-th, without a list.

use super::Lanes;
use crate::picking::Pick;
use cores::Cores;
use std::alloc::Allocator;
use world::World;

impl<'s, A: Allocator, B: Allocator> Lanes<'s, A, B> {
    ghost use Rattle.std.specs.Prelude.{◌≡◌, ◌↔◌, IfSome, length, slice_get, true};
    ghost use Rattle.std.specs.Option.{option_map};
    ghost use Rattle.lanes.specs.Lanes.{AreCurrent, AreDone, AreReadyIn, choices_by};
    ghost use Rattle.lanes.specs.Picks.{HasPick, choice_of};

    /// How many choices there are: the length of the list that [`choices`](schedule::choices) gives of this rest, and 0 where the
    /// lanes are spoilt.
    pub fn count(&self, world: &World, cores: &Cores) -> u64
        requires { self.now.usable ≡ true → AreReadyIn world.now cores.now self.now }
        ensures { result ≡ length (choices_by world.now cores.now self.now) }
    {
        if !self.usable || world.broken() {
            return 0;
        }
        self.ready.total() + world.enabled_count()
    }

    /// The k-th choice of that list, counted from 0, if it has so many: of an offer the lane that has it and its place there.
    // Its answer isn't handed up by memory where it is inlined.
    #[inline(always)]
    pub fn pick(&self, world: &World, cores: &Cores, k: u64) -> Option<Pick>
        requires { AreCurrent world.now cores.now self.now }
        ensures choice { option_map (choice_of self.now) result
            ≡ slice_get (choices_by world.now cores.now self.now) k }
        ensures there { IfSome result (HasPick self.now) }
    {
        if world.broken() {
            return None;
        }
        let offers = self.ready.total();
        if k < offers {
            let found = self.ready.find(k);
            let lane = found.place;
            let (place, ask) = self.lanes[lane].asks.find(cores, found.rest)?;
            return Some(Pick::Offer { lane, place, ask });
        }
        let step = world.enabled_at(k - offers)?;
        Some(Pick::Deliver(step))
    }

    /// Whether nothing is offered. Of lanes that are spoilt it isn't known.
    pub fn is_done(&self) -> bool
        ensures { (result ≡ true) ↔ AreDone self.now }
    {
        self.usable && self.lengths.total() == 0
    }
}
