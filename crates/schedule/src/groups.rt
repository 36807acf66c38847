//! Where the asks about a block are, so that those about other blocks need not be looked at.

ghost use Rattle.std.specs.Prelude.{◌≡◌, ◌==◌, if◌then◌else◌, ◌<◌, ◌≤◌, ◌%◌, ◌^◌, ℕ, Some, length, slice_get, true};
ghost use Rattle.std.specs.Int.{bit_at};
ghost use Rattle.base.specs.declared.step.CoreAsk.{CoreAsk};
ghost use Rattle.blocks.specs.Asking.{holds};
ghost use Rattle.schedule.specs.inner.Groups.{AreIn, IsIn, Stands};
ghost use Rattle.schedule.specs.Marks.{is_at, marks_by};

use crate::asks::is_at;
use base::{BlockId, CacheId, CoreAsk};
use blocks::HeldAsks;
use rows::Bits;

/// Fewer asks are looked through as fast.
const FEW: usize = 5;

/// The most asks: a bit for each.
pub(crate) const MOST: usize = 64;

/// What the asks of a row have in common.
#[derive(Clone, Copy)]
pub(crate) enum Row {
    /// There are none.
    Empty,
    /// All are this core's, about this block.
    One(CacheId, BlockId),
    /// It isn't known.
    Mixed,
}

/// Where the asks of a list are: by the rows of their blocks, and by their kinds, with a bit for each.
#[derive(Drop)]
pub(crate) struct Groups {
    rows: [Row; 16],
    places: [u64; 16],
    loads: u64,
    stores: u64,
    replaces: u64,
}

/// The row of a block: blocks are told apart by the last bits of their numbers.
fn row_of(block: BlockId) -> usize
    ensures { result ≡ block.0 % 16 }
{
    (block.0 % 16) as usize
}

impl Groups {
    ghost use Rattle.std.specs.Prelude.{◌≡◌, ◌==◌, ℕ, List, Some, length, slice_get, true};
    ghost use Rattle.std.specs.Int.{bit_at};
    ghost use Rattle.base.specs.declared.step.CoreAsk.{CoreAsk};
    ghost use Rattle.blocks.specs.Asking.{holds};
    ghost use Rattle.schedule.specs.inner.Groups.{AreKinds, Cover};
    ghost use Rattle.schedule.specs.Marks.{marks_by};

    /// Those of no asks.
    pub(crate) fn none() -> Groups {
        Groups {
            rows: [Row::Empty; 16],
            places: [0; 16],
            loads: 0,
            stores: 0,
            replaces: 0,
        }
    }

    /// Groups these asks, where they are neither too few for that nor too many.
    pub(crate) fn group(&mut self, asks: &[CoreAsk]) -> bool
        ensures { result ≡ true → Cover self.new asks.now }
    {
        if asks.len() < FEW || asks.len() > MOST {
            return false;
        }
        self.rows = rows_of(asks);
        self.places = places_of(asks);
        self.loads = held_places(
            HeldAsks {
                load: true,
                store: false,
                replace: false,
            },
            asks,
        );
        self.stores = held_places(
            HeldAsks {
                load: false,
                store: true,
                replace: false,
            },
            asks,
        );
        self.replaces = held_places(
            HeldAsks {
                load: false,
                store: false,
                replace: true,
            },
            asks,
        );
        true
    }

    /// The bits of the asks that are among these kinds.
    #[inline(always)]
    fn held(&self, held: HeldAsks) -> u64
        ensures { (asks : List CoreAsk) → AreKinds self.now.loads self.now.stores self.now.replaces asks → (n : ℕ) (ask : CoreAsk) →
            slice_get asks n ≡ Some ask → (bit_at result n == 1) ≡ holds held ask.ask }
    {
        bits_if(held.load, self.loads)
            | bits_if(held.store, self.stores)
            | bits_if(held.replace, self.replaces)
    }

    /// Marks a core's asks about a block anew, of which these are held: all at once, where its row has no others.
    #[inline(always)]
    pub(crate) fn mark(
        &self,
        held: HeldAsks,
        core: CacheId,
        block: BlockId,
        asks: &[CoreAsk],
        unheld: &mut Bits,
    )
        requires cover { Cover self.now asks.now }
        requires long { length unheld.old ≡ length asks.now }
        ensures { unheld.new ≡ marks_by held core block asks.now unheld.old }
    {
        let row = row_of(block);
        let places = self.places[row];
        match self.rows[row] {
            Row::One(of, about) if of.0 == core.0 && about.0 == block.0 => {
                unheld.put(places, !self.held(held));
            }
            _ => mark_places(held, core, block, places, asks, unheld),
        }
    }
}

/// These bits, or none.
#[inline(always)]
fn bits_if(are: bool, bits: u64) -> u64
    ensures { result ≡ (if are then bits else 0) }
{
    if are { bits } else { 0 }
}

/// By row, what the asks there have in common.
fn rows_of(asks: &[CoreAsk]) -> [Row; 16]
    ensures { AreIn result asks.now (length asks.now) }
{
    let mut rows = [Row::Empty; 16];
    for ask in asks {
        let row = row_of(ask.block);
        rows[row] = joined(rows[row], *ask);
    }
    rows
}

/// What the asks of a row have in common with one more.
fn joined(row: Row, ask: CoreAsk) -> Row
    ensures here { IsIn result ask }
    ensures others { (other : CoreAsk) → IsIn row other → IsIn result other }
{
    match row {
        Row::Empty => Row::One(ask.core, ask.block),
        Row::One(core, block) => {
            if is_at(core, block, ask) {
                row
            } else {
                Row::Mixed
            }
        }
        Row::Mixed => Row::Mixed,
    }
}

/// By row, the bits of the asks there.
fn places_of(asks: &[CoreAsk]) -> [u64; 16]
    requires { length asks.now ≤ 64 }
    ensures { Stands result asks.now (length asks.now) }
{
    let mut places = [0; 16];
    for (number, ask) in asks.iter().enumerate() {
        let row = row_of(ask.block);
        places[row] |= 1u64 << number;
    }
    places
}

/// The bits of the asks that are among these kinds.
fn held_places(held: HeldAsks, asks: &[CoreAsk]) -> u64
    requires { length asks.now ≤ 64 }
    ensures { (n : ℕ) (ask : CoreAsk) → slice_get asks.now n ≡ Some ask → (bit_at result n == 1) ≡ holds held ask.ask }
{
    let mut places = 0;
    for (number, ask) in asks.iter().enumerate() {
        if held.holds(ask.ask) {
            places |= 1u64 << number;
        }
    }
    places
}

/// Marks a core's asks about a block anew, of which these are held, and all of which are among those at these places.
fn mark_places(
    held: HeldAsks,
    core: CacheId,
    block: BlockId,
    places: u64,
    asks: &[CoreAsk],
    unheld: &mut Bits,
)
    requires long { length unheld.old ≡ length asks.now }
    requires short { length asks.now < 2 ^ 32 }
    requires there { (n : ℕ) (ask : CoreAsk) → slice_get asks.now n ≡ Some ask → is_at core block ask ≡ true → bit_at places n ≡ 1 }
    ensures { unheld.new ≡ marks_by held core block asks.now unheld.old }
{
    let mut rest = places;
    while rest != 0 {
        let number = rest.trailing_zeros();
        rest &= rest - 1;
        if number as usize >= asks.len() {
            continue;
        }
        let ask = asks[number as usize];
        if is_at(core, block, ask) {
            unheld.set(number, !held.holds(ask.ask));
        }
    }
}
