//! Tables, with what is told of their cells once and asked at each step.

ghost use Rattle.std.specs.Prelude.{◌≡◌, Some, false, slice_get, slice_index_or, true};
ghost use Rattle.directory_table.specs.Table as directory_table;
ghost use Rattle.directory_table.specs.declared.state.DirectoryState.{DirectoryState};
ghost use Rattle.cache_table.specs.Table as cache_table;
ghost use Rattle.cache_table.specs.declared.state.CacheState.{CacheState};
ghost use Rattle.blocks.specs.Passing.{ForwardsPass, IsClear};
ghost use Rattle.blocks.specs.inner.Told.{AreHeldByState};

use crate::block::{HeldAsks, forwards_pass, held_asks_in, is_clear, responses_pass};
use base::controller::Listed;
use cache_table::CacheState;
use directory_table::DirectoryState;
use std::marker::Model;
use tables::Tables;

/// The controllers of a world: their tables, and what these stall on.
#[derive(Drop)]
pub struct Controllers {
    tables: Tables,
    // By the state of a line.
    held_asks: [HeldAsks; 12],
    // By the state of a line, whether it is known that it holds nothing that comes on its link.
    forwards_pass: [bool; 12],
    // By the state of a home, whether it is known that it holds nothing.
    clear: [bool; 4],
    // Whether it is known that no response is ever held.
    pass: bool,
}

impl Model for Controllers {
    ghost use Rattle.tables.specs.Tables.{Tables};
    ghost use Rattle.blocks.specs.inner.Told.{AreTold};

    ghost Value = { Tables };

    ghost view = { λ c. c.tables };

    ghost invariant = { λ c. AreTold c.tables c.held_asks c.forwards_pass c.clear c.pass };
}

impl Controllers {
    ghost use Rattle.std.specs.Prelude.{◌≡◌, true};
    ghost use Rattle.base.specs.declared.step.Ask.{Ask};
    ghost use Rattle.blocks.specs.Asking.{holds, stalls_in};
    ghost use Rattle.blocks.specs.Passing.{ForwardsPass, IsClear, ResponsesPass};

    /// Those that go by these tables.
    // Inlined it would have the tables copied cell by cell where a world is opened.
    #[inline(never)]
    pub fn new(tables: Tables) -> Controllers
        ensures { result ≡ tables }
    {
        let held_asks = held_by_state(&tables);
        let forwards_pass = passing_by_state(&tables);
        let clear = clear_by_state(&tables);
        let pass = responses_pass(&tables);
        Controllers {
            tables,
            held_asks,
            forwards_pass,
            clear,
            pass,
        }
    }

    /// Their tables.
    #[inline(always)]
    pub fn tables(&self) -> &Tables
        ensures { result.now ≡ self.now }
    {
        &self.tables
    }

    /// Which asks would be held at a line in this state.
    #[inline(always)]
    pub fn held_asks(&self, state: CacheState) -> HeldAsks
        ensures { (ask : Ask) → holds result ask ≡ stalls_in self.now.cache ask state }
    {
        self.held_asks[state.number()]
    }

    /// Whether it is known that a line in this state holds nothing that comes on its link.
    #[inline(always)]
    pub(crate) fn forwards_pass(&self, state: CacheState) -> bool
        ensures { result ≡ true → ForwardsPass self.now.cache state }
    {
        self.forwards_pass[state.number()]
    }

    /// Whether it is known that a home in this state holds nothing.
    #[inline(always)]
    pub(crate) fn are_clear(&self, state: DirectoryState) -> bool
        ensures { result ≡ true → IsClear self.now.directory state }
    {
        self.clear[state as usize]
    }

    /// Whether it is known that no response is ever held.
    #[inline(always)]
    pub(crate) fn responses_pass(&self) -> bool
        ensures { result ≡ true → ResponsesPass self.now }
    {
        self.pass
    }
}

/// Which asks would be held, by the state of the line.
fn held_by_state(tables: &Tables) -> [HeldAsks; 12]
    ensures { AreHeldByState tables.now result }
{
    [
        held_asks_in(tables, CacheState::I),
        held_asks_in(tables, CacheState::IsD),
        held_asks_in(tables, CacheState::ImAd),
        held_asks_in(tables, CacheState::ImA),
        held_asks_in(tables, CacheState::S),
        held_asks_in(tables, CacheState::SmAd),
        held_asks_in(tables, CacheState::SmA),
        held_asks_in(tables, CacheState::M),
        held_asks_in(tables, CacheState::MiA),
        held_asks_in(tables, CacheState::SiA),
        held_asks_in(tables, CacheState::IiA),
        held_asks_in(tables, CacheState::E),
    ]
}

/// Whether a line holds nothing that comes on its link, by its state.
fn passing_by_state(tables: &Tables) -> [bool; 12]
    ensures { (state : CacheState) → slice_index_or result (cache_table.state_number state) false ≡ true → ForwardsPass tables.now.cache state }
{
    [
        forwards_pass(tables, CacheState::I),
        forwards_pass(tables, CacheState::IsD),
        forwards_pass(tables, CacheState::ImAd),
        forwards_pass(tables, CacheState::ImA),
        forwards_pass(tables, CacheState::S),
        forwards_pass(tables, CacheState::SmAd),
        forwards_pass(tables, CacheState::SmA),
        forwards_pass(tables, CacheState::M),
        forwards_pass(tables, CacheState::MiA),
        forwards_pass(tables, CacheState::SiA),
        forwards_pass(tables, CacheState::IiA),
        forwards_pass(tables, CacheState::E),
    ]
}

/// Whether a home holds nothing, by its state.
fn clear_by_state(tables: &Tables) -> [bool; 4]
    ensures { (state : DirectoryState) → slice_get result (directory_table.state_number state) ≡ Some true →
        IsClear tables.now.directory state }
{
    [
        is_clear(tables, DirectoryState::I),
        is_clear(tables, DirectoryState::S),
        is_clear(tables, DirectoryState::M),
        is_clear(tables, DirectoryState::SD),
    ]
}
