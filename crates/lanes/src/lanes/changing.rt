//! Keeping lanes up to date.

ghost use Rattle.std.specs.Prelude.{◌≡◌, ◌≢◌, ◌≤◌, ◌<◌, ◌-◌, ◌⊎◌, ℕ, None, Some, OnOk, IfSome, IfNone, false, true, if◌then◌else◌, length, map, min, slice_get};
ghost use Rattle.std.specs.List.{Contains};
ghost use Rattle.base.specs.declared.ids.CacheId.{CacheId};
ghost use Rattle.base.specs.declared.ids.Place.TheVariants.{Cache};
ghost use Rattle.base.specs.declared.step.CoreAsk.{CoreAsk};
ghost use Rattle.machine.specs.Made.{place_of};
ghost use Rattle.lanes.specs.inner.Changes.{IsCountedIn};
ghost use Rattle.lanes.specs.inner.Kept.{lanes_of, listed_in};

use super::{Lane, Lanes};
use crate::picking::Pick;
use base::{CacheId, CoreAsk, NoMemory, Place};
use cores::Cores;
use machine::Made;
use rows::Sums;
use std::alloc::Allocator;
use world::World;

impl<'s, A: Allocator, B: Allocator + Clone> Lanes<'s, A, B> {
    ghost use Rattle.std.specs.Prelude.{◌≡◌, ◌<◌, MatchResult, OnOk, IfOk, length, slice_index, true};
    ghost use Rattle.lanes.specs.Fitting.{KeepSource};
    ghost use Rattle.lanes.specs.Lanes.{IsSpoilt, listed_at, offers_at};
    ghost use Rattle.lanes.specs.Picks.{AreLeftBehind, FollowsPick, HasPick};
    ghost use Rattle.lanes.specs.inner.Kept.{IsLevel, IsListed};
    ghost use Rattle.lanes.specs.inner.Changes.{AreCountedAt, ChangesCounts, EachIsCountedAt, EachIsCountedIf, EachIsCountedOf, IsLaneMarkedIf};
    ghost use Rattle.lanes.specs.inner.Changes.{IsLaneThere, IsMarkedAnew, IsReachedAt, KeepsOtherLanes, TakesPlace};
    ghost use Rattle.lanes.specs.inner.Changes.{WereReadyBut, count_by, counted_at};

    /// Follows a pick that was made, by a step that came to this: an offer is taken, what is made anew for it is `alloc`'s, and the
    /// lanes that this and the step changed are marked and counted again. It is told whether a core may have turned: whether one
    /// is free that wasn't, or the other way round.
    ///
    /// Where memory is refused, the lanes are spoilt.
    // Inlined with all that it calls: trials that keep their entries and those that count them are two loops, so each call would be one.
    #[inline(always)]
    pub fn follow(
        &mut self,
        alloc: B,
        pick: &Pick,
        made: &Made,
        turned: bool,
        world: &World,
        cores: &Cores,
    ) -> Result<(), NoMemory>
        requires { HasPick self.old pick.now }
        ensures made { MatchResult result
            (λ _. FollowsPick pick.now made.now turned world.now cores.now self.old self.new)
            (λ _. IsSpoilt self.new) }
        ensures stays { KeepSource self.old self.new }
    {
        let anew = self.take_picked(alloc, pick, world)?;
        prove!(self.usable);
        let marked = self.mark_again(anew, made, pick.step().block(), world);
        let at = changed_at(turned, marked, made);
        self.count_at(at, cores);
        self.count_anew(anew, at, cores);
        Ok(())
    }

    /// Takes the offer that was picked, where the pick is one, and answers the lane that was listed and marked anew, if one was.
    #[inline(always)]
    fn take_picked(
        &mut self,
        alloc: B,
        pick: &Pick,
        world: &World,
    ) -> Result<Option<usize>, NoMemory>
        requires { HasPick self.old pick.now }
        ensures left { MatchResult result (λ _. AreLeftBehind pick.now self.old self.new) (λ _. IsSpoilt self.new) }
        ensures there { IfOk result (IsLaneThere self.new) }
        ensures marked { IfOk result (IsMarkedAnew world.now self.new) }
        ensures were { IfOk result (WereReadyBut world.now self.old self.new) }
        ensures stays { KeepSource self.old self.new }
    {
        match *pick {
            Pick::Offer { lane, place, .. } => {
                let anew = self.take_at(alloc, lane, place, world)?;
                Ok(lane_if(anew, lane))
            }
            Pick::Deliver(_) => Ok(None),
        }
    }

    /// Counts again what can be put of each lane that may offer an ask of the core whose cache a step went to.
    #[inline(always)]
    fn count_at(&mut self, at: Option<Place>, cores: &Cores)
        ensures counts { ChangesCounts self.old self.new }
        ensures each { EachIsCountedAt cores.now at self.old self.new }
    {
        if let Some(core) = cache_of(at) {
            self.count_core(core, cores);
        }
    }

    /// Counts what can be put of a lane that was listed anew, if there is one, but where it was counted with those of the core whose
    /// cache a step went to.
    #[inline(always)]
    fn count_anew(&mut self, anew: Option<usize>, at: Option<Place>, cores: &Cores)
        requires there { IsLaneThere self.old anew }
        requires counted { AreCountedAt cores.now at self.old }
        ensures counts { ChangesCounts self.old self.new }
        ensures each { EachIsCountedIf cores.now anew self.old self.new }
    {
        let Some(lane) = anew else {
            return;
        };
        if self.is_reached(at, lane) {
            return;
        }
        self.count_lane(lane, cores);
    }

    /// Whether a lane is among those that may offer an ask of the core whose cache this is.
    #[inline(always)]
    fn is_reached(&self, at: Option<Place>, lane: usize) -> bool
        requires { lane < length self.now.trees }
        ensures { result ≡ true → IsReachedAt at self.now lane }
    {
        match cache_of(at) {
            Some(core) => {
                let row = row_of(&self.reached, core);
                has(&self.reached[row], lane as u32)
            }
            None => false,
        }
    }

    /// Takes the offer of a lane at a place, and answers whether the lane was marked anew. It is listed anew, but where it offers the
    /// same again.
    #[inline(always)]
    fn take_at(
        &mut self,
        alloc: B,
        lane: usize,
        place: usize,
        world: &World,
    ) -> Result<bool, NoMemory>
        requires usable { self.old.usable ≡ true }
        requires there { lane < length self.old.trees }
        requires offered { place < length (offers_at self.old lane) }
        ensures takes { MatchResult result (λ _. TakesPlace lane place self.old self.new) (λ _. IsSpoilt self.new) }
        ensures marks { IfOk result (IsLaneMarkedIf world.now lane self.old self.new) }
        ensures stays { KeepSource self.old self.new }
    {
        self.usable = false;
        let repeats = self.lanes[lane].rest.pass_on(alloc, place)?;
        if repeats {
            self.usable = true;
            return Ok(false);
        }
        let anew = self.list(lane, world)?;
        self.usable = true;
        Ok(anew)
    }

    /// Lists anew what a lane of spoilt lanes offers, and answers whether it was marked. Where that is what it offered before, the marks
    /// stay.
    #[inline(always)]
    pub(super) fn list(&mut self, lane: usize, world: &World) -> Result<bool, NoMemory>
        requires spoilt { IsSpoilt self.old }
        requires there { lane < length self.old.trees }
        ensures spoilt { IsSpoilt self.new }
        ensures trees { OnOk result (self.new.trees ≡ self.old.trees) }
        ensures source { self.new.source ≡ self.old.source }
        ensures stocks { self.new.stocks ≡ self.old.stocks }
        ensures level { OnOk result (IsLevel self.new) }
        ensures listed { OnOk result (IsListed self.new lane) }
        ensures others { OnOk result (KeepsOtherLanes lane self.old self.new) }
        ensures marks { IfOk result (IsLaneMarkedIf world.now lane self.old self.new) }
    {
        self.as_opened[lane] = false;
        let anew = self.lanes[lane].list(world)?;
        let offers = self.lanes[lane].asks.asks();
        self.lengths.set(lane, offers.len() as u32);
        reach(&mut self.reached, offers, lane as u32)?;
        Ok(anew)
    }

    /// Counts anew what can be put of a lane.
    pub(super) fn count_lane(&mut self, lane: usize, cores: &Cores)
        requires { lane < length self.old.trees }
        ensures counts { self.new ≡ counted_at cores.now lane self.old }
        ensures here { slice_index self.new.ready lane ≡ count_by cores.now (listed_at self.old lane) }
    {
        let count = self.lanes[lane].asks.count(cores);
        self.ready.set(lane, count);
    }

    /// Counts anew what can be put of each lane that may offer an ask of a core.
    #[inline(always)]
    fn count_core(&mut self, core: CacheId, cores: &Cores)
        ensures counts { ChangesCounts self.old self.new }
        ensures each { EachIsCountedOf core cores.now self.old self.new }
    {
        let row = row_of(&self.reached, core);
        count_each(
            cores,
            self.lanes.as_slice(),
            self.reached[row].as_slice(),
            &mut self.ready,
        );
    }
}

impl<'s, A: Allocator, B: Allocator + Clone> Lane<'s, A, B> {
    ghost use Rattle.std.specs.Prelude.{◌≡◌, IfOk, OnOk};
    ghost use Rattle.cursors.specs.Cursors.{remaining};
    ghost use Rattle.scenario.specs.Taking.{offers};
    ghost use Rattle.lanes.specs.inner.Kept.{stocked};
    ghost use Rattle.schedule.specs.Owned.{IsMarkedIf};

    /// Lists anew what is offered, and answers whether it was marked. Where that is what was offered before, the marks stay.
    #[inline(always)]
    fn list(&mut self, world: &World) -> Result<bool, NoMemory>
        ensures rest { remaining self.new.rest ≡ remaining self.old.rest }
        ensures stock { stocked self.new.rest ≡ stocked self.old.rest }
        ensures asks { OnOk result (self.new.asks.asks ≡ offers (remaining self.old.rest)) }
        ensures marks { IfOk result (λ anew. IsMarkedIf world.now.tables world.now.state anew self.old.asks self.new.asks) }
    {
        self.asks.list(&self.rest, world)
    }
}

/// The cache, where a controller is one.
fn cache_of(at: Option<Place>) -> Option<CacheId>
    ensures some { IfSome result (λ cache. at ≡ Some (Cache cache)) }
    ensures none { IfNone result ((cache : CacheId) → at ≢ Some (Cache cache)) }
{
    match at {
        Some(Place::Cache(cache)) => Some(cache),
        Some(Place::Dir) => None,
        None => None,
    }
}

/// This lane, where it was marked anew.
fn lane_if(is_marked: bool, lane: usize) -> Option<usize>
    ensures { result ≡ (if is_marked then Some lane else None) }
{
    if is_marked { Some(lane) } else { None }
}

/// The controller whose cell acted in a step, if one did, where a core may have turned or lanes were marked again. Else nothing that is
/// counted has changed.
fn changed_at(turned: bool, marked: bool, made: &Made) -> Option<Place>
    ensures { (result ≡ place_of made.now) ⊎ ((result ≡ None) × (turned ≡ false) × (marked ≡ false)) }
{
    if turned || marked {
        return made.place();
    }
    None
}

/// Counts anew what can be put of each of these lanes.
#[inline(always)]
fn count_each<A: Allocator, B: Allocator>(
    cores: &Cores,
    lanes: &[Lane<'_, A, B>],
    which: &[u32],
    ready: &mut Sums,
)
    requires { length ready.old ≡ length lanes.now }
    ensures long { length ready.new ≡ length ready.old }
    ensures each { (lane : ℕ) → lane < length lanes.now →
        IsCountedIn cores.now (listed_in lanes.now) which.now ready.old ready.new lane }
{
    for number in which {
        let lane = *number as usize;
        if lane < lanes.len() {
            let count = lanes[lane].asks.count(cores);
            ready.set(lane, count);
        }
    }
}

/// The row of a core among those of the cores. Cores that have no row of their own share the last one.
pub(super) fn row_of(reached: &Vec<Vec<u32>>, core: CacheId) -> usize
    requires { 1 ≤ length reached.now.items }
    ensures { result ≡ min core.0 (length reached.now.items - 1) }
{
    (core.0 as usize).min(reached.len() - 1)
}

/// The lane is among those of each core of whom it offers an ask, from now on.
fn reach(reached: &mut Vec<Vec<u32>>, offers: &[CoreAsk], lane: u32) -> Result<(), NoMemory>
    requires { 1 ≤ length reached.old.items }
    ensures count { length reached.new.items ≡ length reached.old.items }
    ensures more { (core other : ℕ) → Contains (lanes_of (map (λ of. of.items) reached.old.items) core) other →
        Contains (lanes_of (map (λ of. of.items) reached.new.items) core) other }
    ensures ok { OnOk result ((at : ℕ) (ask : CoreAsk) → slice_get offers.now at ≡ Some ask →
        Contains (lanes_of (map (λ of. of.items) reached.new.items) ask.core.0) lane) }
{
    let mut last = None;
    for ask in offers {
        if is_of(last, *ask) {
            continue;
        }
        let row = row_of(reached, ask.core);
        add(&mut reached[row], lane)?;
        last = Some(ask.core);
    }
    Ok(())
}

/// Whether there is a core, and the ask is its.
fn is_of(core: Option<CacheId>, ask: CoreAsk) -> bool
    ensures { result ≡ true → core ≡ Some ask.core }
{
    match core {
        Some(core) => core == ask.core,
        None => false,
    }
}

/// Whether the lane is among these, which stand in order.
fn has(lanes: &Vec<u32>, lane: u32) -> bool
    ensures { result ≡ true → Contains lanes.now.items lane }
{
    lanes.binary_search(&lane).is_ok()
}

/// The lane is among these from now on, in its order.
fn add(lanes: &mut Vec<u32>, lane: u32) -> Result<(), NoMemory>
    ensures more { (other : ℕ) → Contains lanes.old.items other → Contains lanes.new.items other }
    ensures ok { OnOk result (Contains lanes.new.items lane) }
{
    if let Err(place) = lanes.binary_search(&lane) {
        lanes.insert(place, lane)?;
    }
    Ok(())
}
