//! Which asks of a cache's core would be held at a line: all kinds at once, as the state of the line tells.

ghost use Rattle.std.specs.Prelude.{◌≡◌};
ghost use Rattle.base.specs.declared.step.Ask.{Ask};
ghost use Rattle.blocks.specs.Asking.{holds, stalls_in};

use crate::block::deciding::is_idle_ask;
use crate::block::passing::stalls_at_line;
use base::Ask;
use cache_table::{CacheEvent, CacheState};
use tables::Tables;

/// Which asks would be held, each kind by itself. Whether a store is doesn't depend on its value.
#[derive(Clone, Copy, PartialEq, Eq)]
pub struct HeldAsks {
    pub load: bool,
    pub store: bool,
    pub replace: bool,
}

impl HeldAsks {
    ghost use Rattle.blocks.specs.Asking.{holds};

    /// Whether an ask is one of them.
    pub fn holds(self, ask: Ask) -> bool
        ensures { result ≡ holds self ask }
    {
        match ask {
            Ask::Load => self.load,
            Ask::Store(_) => self.store,
            Ask::Replace => self.replace,
        }
    }
}

/// Which asks would be held at a line in this state.
pub(crate) fn held_asks_in(tables: &Tables, state: CacheState) -> HeldAsks
    ensures { (ask : Ask) → holds result ask ≡ stalls_in tables.now.cache ask state }
{
    HeldAsks {
        load: stalls_at_line(tables, state, CacheEvent::Load),
        store: stalls_at_line(tables, state, CacheEvent::Store),
        replace: !is_idle_ask(Ask::Replace, state)
            && stalls_at_line(tables, state, CacheEvent::Replacement),
    }
}
