//! What a scenario offers, and whether it may end.

ghost use Rattle.std.specs.Prelude.{◌≡◌, ◌++◌, OnErr, OnOk, length, take};
ghost use Rattle.scenario.specs.Tree.{plain, plain_all};
ghost use Rattle.scenario.specs.Taking.{ends, all_end, some_ends, offers, offers_in_turn, offers_of_all};

use crate::seeking::list_offers;
use crate::tree::Scenario;
use base::{CoreAsk, NoMemory};
use std::alloc::Allocator;

impl<A: Allocator> Scenario<A> {
    /// Whether nothing more need be asked: the empty list is a word.
    pub fn may_end(&self) -> bool
        ensures { result ≡ ends (plain self.now) }
    {
        tree_may_end(self)
    }

    /// Appends what may be asked next, in order. An ask that is offered twice is listed twice.
    ///
    /// Where memory is refused, the list is as it was.
    pub fn offers(&self, out: &mut Vec<CoreAsk>) -> Result<(), NoMemory>
        ensures ok { OnOk result (out.new.items ≡ out.old.items ++ offers (plain self.now)) }
        ensures err { OnErr result (out.new.items ≡ out.old.items) }
    {
        list_offers(self, out)
    }
}

/// Whether nothing more need be asked of a tree.
#[cycle(ending)]
#[tactic(auto, using(crate::proofs::Children::children))]
pub fn tree_may_end<A: Allocator>(tree: &Scenario<A>) -> bool
    ensures { result ≡ ends (plain tree.now) }
{
    match tree {
        Scenario::One(_) => false,
        Scenario::Seq(children) | Scenario::Both(children) => all_may_end(children.as_slice()),
        Scenario::Any(children) => some_may_end(children.as_slice()),
        Scenario::Times(turns, child) => *turns == 0 || tree_may_end(child),
    }
}

/// Appends what a tree offers, or a front of it where memory is refused.
#[cycle(offering)]
#[tactic(auto, using(crate::proofs::Children::children, crate::proofs::Fronts::fronts))]
pub fn offers_of_tree<A: Allocator>(
    tree: &Scenario<A>,
    out: &mut Vec<CoreAsk>,
) -> Result<(), NoMemory>
    ensures ok { OnOk result (out.new.items ≡ out.old.items ++ offers (plain tree.now)) }
    ensures front { take (length out.old.items) out.new.items ≡ out.old.items }
{
    match tree {
        Scenario::One(ask) => Ok(out.push(*ask)?),
        Scenario::Seq(children) => offers_in_turn(children.as_slice(), out),
        Scenario::Any(children) | Scenario::Both(children) => {
            offers_of_all(children.as_slice(), out)
        }
        Scenario::Times(turns, child) => {
            if *turns > 0 {
                offers_of_tree(child, out)?;
            }
            Ok(())
        }
    }
}

/// Whether nothing more need be asked of any of these.
#[cycle(ending)]
pub fn all_may_end<A: Allocator>(children: &[Scenario<A>]) -> bool
    ensures { result ≡ all_end (plain_all children.now) }
{
    for child in children {
        if !tree_may_end(child) {
            return false;
        }
    }
    true
}

#[cycle(ending)]
fn some_may_end<A: Allocator>(children: &[Scenario<A>]) -> bool
    ensures { result ≡ some_ends (plain_all children.now) }
{
    for child in children {
        if tree_may_end(child) {
            return true;
        }
    }
    false
}

/// Appends what children offer that come one behind the other, or a front of it where memory is refused.
#[cycle(offering)]
#[tactic(auto, using(crate::proofs::Fronts::fronts))]
pub fn offers_in_turn<A: Allocator>(
    children: &[Scenario<A>],
    out: &mut Vec<CoreAsk>,
) -> Result<(), NoMemory>
    ensures ok { OnOk result (out.new.items ≡ out.old.items ++ offers_in_turn (plain_all children.now)) }
    ensures front { take (length out.old.items) out.new.items ≡ out.old.items }
{
    for child in children {
        offers_of_tree(child, out)?;
        if !tree_may_end(child) {
            return Ok(());
        }
    }
    Ok(())
}

#[cycle(offering)]
#[tactic(auto, using(crate::proofs::Fronts::fronts))]
fn offers_of_all<A: Allocator>(
    children: &[Scenario<A>],
    out: &mut Vec<CoreAsk>,
) -> Result<(), NoMemory>
    ensures ok { OnOk result (out.new.items ≡ out.old.items ++ offers_of_all (plain_all children.now)) }
    ensures front { take (length out.old.items) out.new.items ≡ out.old.items }
{
    for child in children {
        offers_of_tree(child, out)?;
    }
    Ok(())
}
