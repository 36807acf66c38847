//! The type of a moment.

use crate::going::go_on;
use base::{NoMemory, Step};
use cores::Cores;
use lanes::Lanes;
use machine::Made;
use scenario::Scenario;
use std::alloc::{Allocator, Global};
use std::marker::Model;
use world::World;

/// A moment of a run: a world, its cores, and what is left of a scenario. One choice after another leads it on.
///
/// Where memory is refused it is spoilt: it has no choice, and is of use again once it is restarted.
pub struct Moment<'s, A: Allocator, B: Allocator> {
    world: World,
    cores: Cores,
    // The moment is spoilt where these are.
    lanes: Lanes<'s, A, B>,
}

impl<'s, A: Allocator, B: Allocator> Model for Moment<'s, A, B> {
    ghost use Rattle.std.specs.Coded.{codes};
    ghost use Rattle.lanes.specs.inner.Code.{tree_code};
    ghost use Rattle.moment.specs.Seen.{Seen};

    ghost Value = { Seen };

    ghost coded = { Prim.hlevel (codes, tree_code) };

    ghost use Rattle.moment.specs.inner.Holding.{IsSound, seen};

    ghost view = { seen };

    ghost invariant = { IsSound };
}

impl<'s, A: Allocator, B: Allocator> Drop for Moment<'s, A, B> {
    fn drop(self) {
        // One call drops all its parts.
        let Moment {
            world: _,
            cores: _,
            lanes: _,
        } = self;
    }
}

impl<'s, A: Allocator, B: Allocator + Clone> Moment<'s, A, B> {
    ghost use Rattle.std.specs.Prelude.{◌≡◌, ◌<◌, IfOk, MatchResult, OnErr, OnOk, None, length};
    ghost use Rattle.machine.specs.Machine.{opened};
    ghost use Rattle.scenario.specs.Tree.{plain};
    ghost use Rattle.moment.specs.Moments.{opened_moment};
    ghost use Rattle.moment.specs.Seen.{IsAt, IsLike, MakesChoice, StartsIn, choices_in};

    /// The moment at which a run of a scenario starts, in a world that has made no step.
    pub fn open(
        alloc: Global,
        scenario: &'s Scenario<A>,
        world: World,
    ) -> Result<Moment<'s, A, B>, NoMemory>
        requires { world.state ≡ opened world.shape world.opening }
        ensures { IfOk result (StartsIn world (plain scenario.entry.now)) }
    {
        let caches = world.shape().caches();
        let cores = Cores::open(alloc, caches)?;
        let lanes = Lanes::open(alloc, scenario, caches, &world, &cores)?;
        Ok(Moment {
            world,
            cores,
            lanes,
        })
    }

    /// The moment at which another run of the scenario starts, whatever moment it was before. Its memory is used again, so that the
    /// start costs what the runs have touched, however many blocks and asks there are.
    pub fn restart(&mut self) -> Result<(), NoMemory>
        ensures like { IsLike self.old self.new }
        ensures ok { OnOk result (IsAt self.new (opened_moment self.old.shape self.old.opening self.old.scenario)) }
        ensures err { OnErr result (self.new.now ≡ None) }
    {
        self.lanes.spoil();
        let caches = self.world.shape().caches();
        self.world.restart();
        self.cores.reset(caches)?;
        self.lanes.restart(&self.world, &self.cores)
    }

    /// Makes the k-th choice, counted from 0, and answers its step and what that came to. What is made anew for the scenario is `alloc`'s.
    #[inline(always)]
    pub fn make(&mut self, alloc: B, k: u64) -> Result<(Step, Made), NoMemory>
        requires { k < length (choices_in self.old) }
        ensures like { IsLike self.old self.new }
        ensures made { MatchResult result (λ made. MakesChoice self.old k made.0 made.1 self.new) (λ _. self.new.now ≡ None) }
    {
        let Some(pick) = self.lanes.pick(&self.world, &self.cores, k) else {
            unreachable!();
        };
        let (world, cores, lanes) = (&mut self.world, &mut self.cores, &mut self.lanes);
        go_on(world, cores, lanes, alloc, pick)
    }
}

impl<'s, A: Allocator, B: Allocator> Moment<'s, A, B> {
    ghost use Rattle.std.specs.Prelude.{◌≡◌, ◌↔◌, true, length};
    ghost use Rattle.moment.specs.Seen.{IsWorldOf, Rests, choices_in};

    /// How many choices there are.
    #[inline(always)]
    pub fn count(&self) -> u64
        ensures { result ≡ length (choices_in self.now) }
    {
        self.lanes.count(&self.world, &self.cores)
    }

    /// Whether nothing is left to do: nothing is offered, no message is on its way, and no core waits.
    pub fn is_at_rest(&self) -> bool
        ensures { (result ≡ true) ↔ Rests self.now }
    {
        self.lanes.is_done() && self.world.empty() && self.cores.all_free()
    }

    /// The world.
    #[inline(always)]
    pub fn world(&self) -> &World
        ensures { IsWorldOf result.now self.now }
    {
        &self.world
    }
}
