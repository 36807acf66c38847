//! Asks that are offered together, with a mark beside each.

ghost use Rattle.std.specs.Prelude.{◌≡◌, ◌<◌, ◌+◌, ◌^◌, ◌&&◌, ℕ, IfSome, OnErr, OnOk, length, map, slice_get, true};
ghost use Rattle.std.specs.Option.{option_map};
ghost use Rattle.cores.specs.Cores.{is_free};
ghost use Rattle.rows.specs.Flags.{is_set};
ghost use Rattle.cursors.specs.Cursors.{remaining};
ghost use Rattle.scenario.specs.Taking.{offers};
ghost use Rattle.cursors.specs.Telling.{Tells};
ghost use Rattle.schedule.specs.Listed.{is_unheld};
ghost use Rattle.schedule.specs.Marks.{is_at, marks_by, offers_by};
ghost use Rattle.schedule.specs.Owned.{AreOf};
ghost use Rattle.schedule.specs.declared.choosing.Choice.TheVariants.{Offer};

use crate::choosing::step_of;
use crate::groups::{Groups, MOST};
use crate::places::Places;
use base::{BlockId, CacheId, CoreAsk, NoMemory};
use blocks::HeldAsks;
use cores::Cores;
use cursors::{Cursor, Next};
use rows::Bits;
use scenario::Rest;
use std::alloc::{Allocator, Global};
use std::marker::Model;
use std::mem::swap;
use world::World;

/// How the asks about a block are found.
#[derive(Clone, Copy)]
pub(crate) enum Search {
    /// All are looked through.
    All,
    /// By the bits of their groups.
    Groups,
    /// By their places.
    Places,
}

/// What a lane offers: asks, at most 4,294,967,295, and beside each whether it wouldn't be held. Whether its core is free isn't
/// kept, so that a mark changes only where a step went to the core's cache, about the ask's block.
#[derive(Drop)]
pub struct Asks {
    alloc: Global,
    asks: Vec<CoreAsk>,
    unheld: Bits,
    // Whose all asks are, where there are some and they are one core's.
    core: Option<CacheId>,
    // How those about a block are found, and by what.
    search: Search,
    groups: Groups,
    places: Places,
    // Where what is offered next is listed.
    next: Vec<CoreAsk>,
}

impl Model for Asks {
    ghost use Rattle.std.specs.Prelude.{◌≡◌, true};
    ghost use Rattle.schedule.specs.Listed.{Listed};
    ghost use Rattle.schedule.specs.inner.Search.{AreFound};
    ghost use Rattle.schedule.specs.Owned.{AreKept};

    ghost Value = { Listed };

    ghost view = { λ a. record { asks = a.asks.items; unheld = a.unheld } };

    ghost invariant = { λ a. AreKept a.asks.items a.unheld a.core × AreFound a.search a.groups a.places a.asks.items };
}

impl Asks {
    ghost use Rattle.std.specs.Prelude.{◌≡◌, ◌<◌, ◌+◌, ◌^◌, ℕ, [], ◌∷◌, IfOk, IfSome, OnOk, length, slice_get};
    ghost use Rattle.std.specs.Option.{option_map};
    ghost use Rattle.cursors.specs.Cursors.{remaining};
    ghost use Rattle.scenario.specs.Taking.{offers};
    ghost use Rattle.schedule.specs.Listed.{nothing_listed};
    ghost use Rattle.schedule.specs.Marks.{all_marked, marked_by, offers_by};
    ghost use Rattle.schedule.specs.Owned.{IsMarkedIf};
    ghost use Rattle.tables.specs.Tables.{Tables};
    ghost use Rattle.machine.specs.Machine.{State};
    ghost use Rattle.schedule.specs.declared.choosing.Choice.TheVariants.{Offer};

    /// No asks.
    pub fn open(alloc: Global) -> Result<Asks, NoMemory>
        ensures { IfOk result (λ asks. asks ≡ nothing_listed) }
    {
        let unheld = Bits::open(alloc, 0)?;
        Ok(Asks {
            alloc,
            asks: Vec::new(alloc),
            unheld,
            core: None,
            search: Search::All,
            groups: Groups::none(),
            places: Places::none(alloc),
            next: Vec::new(alloc),
        })
    }

    /// The asks.
    pub fn asks(&self) -> &[CoreAsk]
        ensures value { result.now ≡ self.now.asks }
        ensures short { length self.now.asks < 2 ^ 32 }
    {
        self.asks.as_slice()
    }

    /// Lists what is offered, and answers whether it was marked. Where that is what was offered before, the marks stay.
    pub fn list<A: Allocator, B: Allocator + Clone>(
        &mut self,
        rest: &Cursor<'_, A, B>,
        world: &World,
    ) -> Result<bool, NoMemory>
        ensures asks { OnOk result (self.new.asks ≡ offers (remaining rest.now)) }
        ensures marked { IfOk result (λ anew. IsMarkedIf world.now.tables world.now.state anew self.old self.new) }
    {
        let told = rest.peek();
        match told {
            Next::Nothing => return self.put_none(),
            Next::Alone(ask) => {
                if self.asks.is_empty() {
                    return self.put_first(ask, world);
                }
                if self.asks.len() == 1 {
                    return Ok(self.put_alone(ask, world));
                }
            }
            Next::Unknown => {}
        }
        list_told(told, rest, &mut self.next)?;
        if are_same(self.next.as_slice(), self.asks.as_slice()) {
            return Ok(false);
        }
        self.search = Search::All;
        take_over(
            self.alloc,
            world,
            &mut self.next,
            &mut self.asks,
            &mut self.unheld,
        )?;
        self.core = core_of(self.asks.as_slice());
        self.note_places();
        Ok(true)
    }

    /// Notes where the asks about a block are, but of too few. Where there is no memory for that all are looked through.
    fn note_places(&mut self)
        ensures { self.new ≡ self.old }
    {
        let asks = self.asks.as_slice();
        self.search = Search::All;
        if self.groups.group(asks) {
            self.search = Search::Groups;
            return;
        }
        if asks.len() > MOST && self.places.place(self.alloc, asks).is_ok() {
            self.search = Search::Places;
        }
    }

    /// Lists nothing from now on, and answers whether there was anything.
    fn put_none(&mut self) -> Result<bool, NoMemory>
        ensures asks { OnOk result (self.new.asks ≡ []) }
        ensures marked { (tables : Tables) (state : State) → IfOk result (λ anew. IsMarkedIf tables state anew self.old self.new) }
    {
        let were_some = !self.asks.is_empty();
        if were_some {
            self.unheld.reopen(self.alloc, 0)?;
            self.asks.clear();
            self.core = None;
            self.search = Search::All;
        }
        Ok(were_some)
    }

    /// Lists an ask that is offered alone where there was none, and answers that it was marked.
    fn put_first(&mut self, ask: CoreAsk, world: &World) -> Result<bool, NoMemory>
        requires { self.old.asks ≡ [] }
        ensures asks { OnOk result (self.new.asks ≡ ask ∷ []) }
        ensures marked { IfOk result (λ anew. IsMarkedIf world.now.tables world.now.state anew self.old self.new) }
    {
        self.asks.reserve(1)?;
        self.unheld.reopen(self.alloc, 1)?;
        self.asks.push_reserved(ask);
        let unheld = is_unheld(world, ask);
        self.unheld.set(0, unheld);
        let CoreAsk { core, .. } = ask;
        self.core = Some(core);
        self.search = Search::All;
        Ok(true)
    }

    /// Lists an ask that is offered alone in the place of the only one that there was, and answers whether it was marked.
    fn put_alone(&mut self, ask: CoreAsk, world: &World) -> bool
        requires { length self.old.asks ≡ 1 }
        ensures asks { self.new.asks ≡ ask ∷ [] }
        ensures marked { IsMarkedIf world.now.tables world.now.state result self.old self.new }
    {
        if self.asks[0] == ask {
            return false;
        }
        self.search = Search::All;
        self.core = Some(ask.core);
        self.asks[0] = ask;
        self.unheld.set(0, is_unheld(world, ask));
        true
    }

    /// The marks, one beside each ask.
    pub fn marks(&self) -> &Bits
        ensures { result.now ≡ self.now.unheld }
    {
        &self.unheld
    }

    /// Has these marks in place of its own.
    pub fn put_marks(&mut self, marks: &Bits)
        requires { length marks.now ≡ length self.old.asks }
        ensures { self.new ≡ record { asks = self.old.asks; unheld = marks.now } }
    {
        self.unheld.copy_from(marks);
    }

    /// Marks all asks anew.
    pub fn mark_all(&mut self, world: &World)
        ensures { self.new ≡ all_marked world.now.tables world.now.state self.old }
    {
        mark_each(world, self.asks.as_slice(), &mut self.unheld);
    }

    /// Marks a core's asks about a block anew, of which these are held.
    #[inline(always)]
    pub fn mark(&mut self, held: HeldAsks, core: CacheId, block: BlockId)
        ensures { self.new ≡ marked_by held core block self.old }
    {
        let asks = self.asks.as_slice();
        let unheld = &mut self.unheld;
        match self.search {
            Search::All => mark_at(held, core, block, asks, unheld),
            Search::Groups => self.groups.mark(held, core, block, asks, unheld),
            Search::Places => self.places.mark(held, core, block, asks, unheld),
        }
    }

    /// How many asks can be put, by their marks.
    pub fn count(&self, cores: &Cores) -> u32
        ensures { result ≡ length (offers_by cores.now 0 self.now.asks self.now.unheld) }
    {
        match self.core {
            Some(core) => {
                if cores.free(core) {
                    self.unheld.ones()
                } else {
                    0
                }
            }
            None => count_by(cores, self.asks.as_slice(), &self.unheld),
        }
    }

    /// The place of the k-th of the asks that can be put, by their marks, and that ask; whatever number the first ask has.
    #[inline(always)]
    pub fn find(&self, cores: &Cores, k: u32) -> Option<(usize, CoreAsk)>
        ensures there { IfSome result (λ found. found.0 < length self.now.asks) }
        ensures kth { (first : ℕ) → option_map (λ found. Offer (first + found.0) found.1) result
            ≡ slice_get (offers_by cores.now first self.now.asks self.now.unheld) k }
    {
        match self.core {
            Some(core) => {
                if !cores.free(core) {
                    return None;
                }
                let at = self.unheld.find(k)? as usize;
                Some((at, self.asks[at]))
            }
            None => find_by(cores, self.asks.as_slice(), &self.unheld, k),
        }
    }
}

/// Lists what is offered, of which a look has told what it tells.
fn list_told<A: Allocator, B: Allocator + Clone>(
    told: Next,
    rest: &Cursor<'_, A, B>,
    next: &mut Vec<CoreAsk>,
) -> Result<(), NoMemory>
    requires { Tells told (offers (remaining rest.now)) }
    ensures { OnOk result (next.new.items ≡ offers (remaining rest.now)) }
{
    next.clear();
    match told {
        Next::Nothing => Ok(()),
        Next::Alone(ask) => Ok(next.push(ask)?),
        Next::Unknown => rest.offers(next),
    }
}

/// Takes the asks that were listed next in the place of those that there were, and marks them. Where memory is refused nothing has
/// changed.
fn take_over(
    alloc: Global,
    world: &World,
    next: &mut Vec<CoreAsk>,
    asks: &mut Vec<CoreAsk>,
    unheld: &mut Bits,
) -> Result<(), NoMemory>
    ensures asks { OnOk result (asks.new.items ≡ next.old.items) }
    ensures short { OnOk result (length asks.new.items < 2 ^ 32) }
    ensures marks { OnOk result (unheld.new ≡ map (is_unheld world.now.tables world.now.state) asks.new.items) }
    ensures err { OnErr result (asks.new ≡ asks.old) }
    ensures err_marks { OnErr result (unheld.new ≡ unheld.old) }
{
    let Ok(count) = u32::try_from(next.len()) else {
        return Err(NoMemory);
    };
    if count != unheld.places() {
        unheld.reopen(alloc, count)?;
    }
    swap(asks, next);
    mark_each(world, asks.as_slice(), unheld);
    Ok(())
}

/// Whether these are the same asks in the same order.
fn are_same(asks: &[CoreAsk], others: &[CoreAsk]) -> bool
    ensures { result ≡ true → asks.now ≡ others.now }
{
    if asks.len() != others.len() {
        return false;
    }
    for (number, ask) in asks.iter().enumerate() {
        if *ask != others[number] {
            return false;
        }
    }
    true
}

/// The core that all these asks are of, where there are some and there is one.
fn core_of(asks: &[CoreAsk]) -> Option<CacheId>
    ensures { IfSome result (λ core. AreOf core asks.now) }
{
    let core = asks.first()?.core;
    for ask in asks {
        if ask.core != core {
            return None;
        }
    }
    Some(core)
}

/// Whether the ask's step wouldn't be held.
#[inline(always)]
fn is_unheld(world: &World, ask: CoreAsk) -> bool
    ensures { result ≡ is_unheld world.now.tables world.now.state ask }
{
    !world.held(step_of(ask))
}

/// Whether the ask is this core's, and about this block.
pub(crate) fn is_at(core: CacheId, block: BlockId, ask: CoreAsk) -> bool
    ensures { result ≡ is_at core block ask }
{
    // Of most asks that are looked at the core is this one and the block isn't, so the block is compared first.
    ask.block.0 == block.0 && ask.core.0 == core.0
}

/// Marks these asks.
fn mark_each(world: &World, asks: &[CoreAsk], unheld: &mut Bits)
    requires long { length unheld.old ≡ length asks.now }
    requires short { length asks.now < 2 ^ 32 }
    ensures { unheld.new ≡ map (is_unheld world.now.tables world.now.state) asks.now }
{
    for (number, ask) in asks.iter().enumerate() {
        unheld.set(number as u32, is_unheld(world, *ask));
    }
}

/// Marks a core's asks about a block anew, of which these are held.
fn mark_at(held: HeldAsks, core: CacheId, block: BlockId, asks: &[CoreAsk], unheld: &mut Bits)
    requires long { length unheld.old ≡ length asks.now }
    requires short { length asks.now < 2 ^ 32 }
    ensures { unheld.new ≡ marks_by held core block asks.now unheld.old }
{
    for (number, ask) in asks.iter().enumerate() {
        if is_at(core, block, *ask) {
            unheld.set(number as u32, !held.holds(ask.ask));
        }
    }
}

/// Whether the ask of this number can be put, by its mark.
fn is_ready(cores: &Cores, unheld: &Bits, number: u32, ask: CoreAsk) -> bool
    ensures { result ≡ (is_free cores.now ask.core.0 && is_set unheld.now number) }
{
    cores.free(ask.core) && unheld.contains(number)
}

/// How many of these asks can be put, by their marks.
fn count_by(cores: &Cores, asks: &[CoreAsk], unheld: &Bits) -> u32
    requires long { length unheld.now ≡ length asks.now }
    requires short { length asks.now < 2 ^ 32 }
    ensures { result ≡ length (offers_by cores.now 0 asks.now unheld.now) }
{
    let mut count = 0;
    for (number, ask) in asks.iter().enumerate() {
        if is_ready(cores, unheld, number as u32, *ask) {
            count += 1;
        }
    }
    count
}

/// The place of the k-th of these asks that can be put, by their marks, and that ask; whatever number the first ask has.
fn find_by(cores: &Cores, asks: &[CoreAsk], unheld: &Bits, k: u32) -> Option<(usize, CoreAsk)>
    requires long { length unheld.now ≡ length asks.now }
    requires short { length asks.now < 2 ^ 32 }
    ensures there { IfSome result (λ found. found.0 < length asks.now) }
    ensures kth { (first : ℕ) → option_map (λ found. Offer (first + found.0) found.1) result
        ≡ slice_get (offers_by cores.now first asks.now unheld.now) k }
{
    let mut left = k;
    for (number, ask) in asks.iter().enumerate() {
        if is_ready(cores, unheld, number as u32, *ask) {
            if left == 0 {
                return Some((number, *ask));
            }
            left -= 1;
        }
    }
    None
}
