//! Where the asks about a block are in a long list.

ghost use Rattle.std.specs.Prelude.{◌≡◌, ◌<◌, ◌%◌, ◌^◌, ℕ, [], OnOk, Some, length, map, slice_get, true};
ghost use Rattle.std.specs.List.{Contains};
ghost use Rattle.base.specs.declared.step.CoreAsk.{CoreAsk};
ghost use Rattle.schedule.specs.Marks.{is_at, marks_by};
ghost use Rattle.schedule.specs.inner.Places.{AreInRows};

use crate::asks::is_at;
use base::{BlockId, CacheId, CoreAsk, NoMemory};
use blocks::HeldAsks;
use rows::Bits;
use std::alloc::Global;

/// How many rows there are.
const ROWS: usize = 64;

/// The places of the asks of a list, in rows: blocks are told apart by the last bits of their numbers.
#[derive(Drop)]
pub(crate) struct Places {
    rows: Vec<Vec<u32>>,
}

/// The row of a block.
fn row_of(block: BlockId) -> usize
    ensures { result ≡ block.0 % 64 }
{
    (block.0 % 64) as usize
}

impl Places {
    ghost use Rattle.std.specs.Prelude.{◌≡◌, ◌<◌, ◌^◌, OnOk, length, map};
    ghost use Rattle.schedule.specs.Marks.{marks_by};
    ghost use Rattle.schedule.specs.inner.Places.{ArePlaced};

    /// Those of no list.
    pub(crate) fn none(alloc: Global) -> Places {
        Places {
            rows: Vec::new(alloc),
        }
    }

    /// Notes where these asks are. It takes memory only where a row gets longer than it has been.
    pub(crate) fn place(&mut self, alloc: Global, asks: &[CoreAsk]) -> Result<(), NoMemory>
        requires { length asks.now < 2 ^ 32 }
        ensures { OnOk result (ArePlaced self.new asks.now) }
    {
        empty_rows(alloc, &mut self.rows)?;
        place_all(asks, &mut self.rows)?;
        Ok(())
    }

    /// Marks a core's asks about a block anew, of which these are held.
    pub(crate) fn mark(
        &self,
        held: HeldAsks,
        core: CacheId,
        block: BlockId,
        asks: &[CoreAsk],
        unheld: &mut Bits,
    )
        requires placed { ArePlaced self.now asks.now }
        requires long { length unheld.old ≡ length asks.now }
        requires short { length asks.now < 2 ^ 32 }
        ensures { unheld.new ≡ marks_by held core block asks.now unheld.old }
    {
        let row = self.rows[row_of(block)].as_slice();
        mark_listed(held, core, block, row, asks, unheld);
    }
}

/// Has as many rows as there are, all of them empty.
fn empty_rows(alloc: Global, rows: &mut Vec<Vec<u32>>) -> Result<(), NoMemory>
    ensures { OnOk result (length rows.new.items ≡ 64) }
{
    rows.truncate(ROWS);
    for number in 0..rows.len() {
        rows[number].clear();
    }
    for _ in rows.len()..ROWS {
        rows.push(Vec::new(alloc))?;
    }
    Ok(())
}

/// Puts the place of each of these asks into the row of its block.
fn place_all(asks: &[CoreAsk], rows: &mut Vec<Vec<u32>>) -> Result<(), NoMemory>
    requires rows { length rows.old.items ≡ 64 }
    requires short { length asks.now < 2 ^ 32 }
    ensures rows { OnOk result (length rows.new.items ≡ 64) }
    ensures placed { OnOk result (AreInRows (map (λ row. row.items) rows.new.items) asks.now (length asks.now)) }
{
    for (number, ask) in asks.iter().enumerate() {
        rows[row_of(ask.block)].push(number as u32)?;
    }
    Ok(())
}

/// Marks a core's asks about a block anew, of which these are held, and all of which are among those at these places.
fn mark_listed(
    held: HeldAsks,
    core: CacheId,
    block: BlockId,
    places: &[u32],
    asks: &[CoreAsk],
    unheld: &mut Bits,
)
    requires long { length unheld.old ≡ length asks.now }
    requires short { length asks.now < 2 ^ 32 }
    requires there { (n : ℕ) (ask : CoreAsk) → slice_get asks.now n ≡ Some ask → is_at core block ask ≡ true → Contains places.now n }
    ensures { unheld.new ≡ marks_by held core block asks.now unheld.old }
{
    for place in places {
        let number = *place as usize;
        if number >= asks.len() {
            continue;
        }
        let ask = asks[number];
        if is_at(core, block, ask) {
            unheld.set(*place, !held.holds(ask.ask));
        }
    }
}
