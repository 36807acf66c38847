//! What is left of a scenario, however it is kept.

use crate::looking::tree_may_end;
use crate::seeking::{count_offers, find_offer, list_offers};
use crate::tree::Scenario;
use base::{CoreAsk, NoMemory};
use std::alloc::Allocator;

/// What is left of a scenario, from which offers are taken.
pub trait Rest {
    ghost use Rattle.std.specs.Prelude.{◌≡◌, ◌++◌, IfOk, OnErr, OnOk, length, min, slice_get};
    ghost use Rattle.scenario.specs.Alike.{Takes};
    ghost use Rattle.scenario.specs.Taking.{ends, offers};
    ghost use Rattle.scenario.specs.Tree.{Tree};

    /// Where new parts lie.
    type Alloc: Allocator + Clone;

    /// The tree that is left.
    ghost left: { Self → Tree };

    /// Whether nothing more need be asked: the empty list is a word.
    fn may_end(&self) -> bool
        ensures { result ≡ ends (left self.now) };

    /// Appends what may be asked next, in order. An ask that is offered twice is listed twice.
    ///
    /// Where memory is refused, the list is as it was.
    fn offers(&self, out: &mut Vec<CoreAsk>) -> Result<(), NoMemory>
        ensures ok { OnOk result (out.new.items ≡ out.old.items ++ offers (left self.now)) }
        ensures err { OnErr result (out.new.items ≡ out.old.items) };

    /// How many offers there are, or `usize::MAX` where there are more.
    fn offer_count(&self) -> usize
        ensures { result ≡ min (length (offers (left self.now))) 18446744073709551615 };

    /// Offer `at`, counted from 0 in their order. `None` where there is no such offer.
    fn offer_at(&self, at: usize) -> Option<CoreAsk>
        ensures { result ≡ slice_get (offers (left self.now)) at };

    /// Takes offer `at`, counted from 0 in their order: answers its ask, and what is then left is left. `None` comes where
    /// there is no such offer, and then nothing has changed.
    ///
    /// What is made anew is `alloc`'s. Where memory is refused, nothing has changed.
    fn take(&mut self, alloc: Self::Alloc, at: usize) -> Result<Option<CoreAsk>, NoMemory>
        ensures ok { IfOk result (λ taken. Takes (left self.old) at taken (left self.new)) }
        ensures err { OnErr result (left self.new ≡ left self.old) };
}

impl<A: Allocator + Clone> Rest for Scenario<A> {
    ghost use Rattle.scenario.specs.Tree.{plain};

    type Alloc = A;

    ghost left = { plain };

    fn may_end(&self) -> bool {
        tree_may_end(self)
    }

    fn offers(&self, out: &mut Vec<CoreAsk>) -> Result<(), NoMemory> {
        list_offers(self, out)
    }

    fn offer_count(&self) -> usize {
        count_offers(self)
    }

    fn offer_at(&self, at: usize) -> Option<CoreAsk> {
        find_offer(self, at)
    }

    fn take(&mut self, alloc: A, at: usize) -> Result<Option<CoreAsk>, NoMemory> {
        Scenario::take(self, alloc, at)
    }
}
