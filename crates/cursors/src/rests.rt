//! That a cursor is what is left of a scenario, from which offers are taken.

use crate::cursor::Cursor;
use crate::part::part_may_end;
use base::{CoreAsk, NoMemory};
use scenario::Rest;
use scenario::seeking::{count_offers, find_offer, list_offers};
use std::alloc::Allocator;

impl<'t, A: Allocator, B: Allocator + Clone> Rest for Cursor<'t, A, B> {
    ghost use Rattle.std.specs.Prelude.{◌≡◌, IfOk, OnErr};
    ghost use Rattle.cursors.specs.Calls.{StaysSmall};
    ghost use Rattle.cursors.specs.Cursors.{remaining};
    ghost use Rattle.scenario.specs.Alike.{Takes};

    type Alloc = B;

    ghost left = { remaining };

    fn may_end(&self) -> bool {
        part_may_end(&self.root)
    }

    fn offers(&self, out: &mut Vec<CoreAsk>) -> Result<(), NoMemory> {
        list_offers(&self.root, out)
    }

    fn offer_count(&self) -> usize {
        count_offers(&self.root)
    }

    fn offer_at(&self, at: usize) -> Option<CoreAsk> {
        find_offer(&self.root, at)
    }

    /// Takes an offer as said there. The cursor fits in every tree in which it fitted, and comes to have no more parts in use at once.
    fn take(&mut self, alloc: B, at: usize) -> Result<Option<CoreAsk>, NoMemory>
        ensures ok { IfOk result (λ taken. Takes (remaining self.old) at taken (remaining self.new)) }
        ensures err { OnErr result (remaining self.new ≡ remaining self.old) }
        ensures small { StaysSmall self.old self.new }
    {
        let Some(ask) = self.offer_at(at) else {
            return Ok(None);
        };
        self.pass(alloc, at)?;
        Ok(Some(ask))
    }
}
