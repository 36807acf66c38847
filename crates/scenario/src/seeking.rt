//! Where an offer is: the one of a number, how many there are, and which child has it.

ghost use Rattle.std.specs.Prelude.{◌≡◌, ◌<◌, ◌+◌, ◌++◌, OnErr, OnOk, IfErr, IfOk, length, map, min, slice_get};
ghost use Rattle.scenario.specs.Tree.{plain, plain_all, trees_of};
ghost use Rattle.scenario.specs.Rests.{IsPlaceAmong, IsPlaceInTurn};
ghost use Rattle.scenario.specs.Taking.{offers, offers_in_turn, offers_of_all};
ghost use Rattle.scenario.specs.Seeking.{IsOfferOf, sought};

use crate::looking::{offers_of_tree, tree_may_end};
use crate::tree::Scenario;
use base::{CoreAsk, NoMemory};
use std::alloc::Allocator;

/// Where an offer of several trees is.
#[derive(Clone, Copy)]
pub struct Offer {
    /// The tree that offers it.
    pub child: usize,
    /// Which of that tree's offers it is.
    pub at: usize,
}

/// What has offers.
pub trait HasOffers {
    ghost use Rattle.std.specs.Prelude.{◌≡◌, ◌++◌, OnOk, length, take};
    ghost use Rattle.scenario.specs.Tree.{Tree};
    ghost use Rattle.scenario.specs.Taking.{offers};
    ghost use Rattle.scenario.specs.Seeking.{sought};

    /// The tree whose offers it has.
    ghost tree: { Self → Tree };

    /// The offer of this number, or how far behind the last one the number is.
    fn seek(&self, at: usize) -> Result<CoreAsk, usize>
        ensures { result ≡ sought (offers (tree self.now)) at };

    /// Appends the offers, or some of them where memory is refused.
    fn append_offers(&self, out: &mut Vec<CoreAsk>) -> Result<(), NoMemory>
        ensures ok { OnOk result (out.new.items ≡ out.old.items ++ offers (tree self.now)) }
        ensures front { take (length out.old.items) out.new.items ≡ out.old.items };
}

impl<A: Allocator> HasOffers for Scenario<A> {
    ghost use Rattle.scenario.specs.Tree.{plain};

    ghost tree = { plain };

    #[inline(always)]
    fn seek(&self, at: usize) -> Result<CoreAsk, usize> {
        if let Scenario::One(ask) = self {
            return if at == 0 { Ok(*ask) } else { Err(at - 1) };
        }
        seek_in_tree(self, at)
    }

    fn append_offers(&self, out: &mut Vec<CoreAsk>) -> Result<(), NoMemory> {
        offers_of_tree(self, out)
    }
}

/// Appends the offers, in order. Where memory is refused, the list is as it was.
#[tactic(auto, using(crate::proofs::Fronts::fronts))]
pub fn list_offers<S: HasOffers>(it: &S, out: &mut Vec<CoreAsk>) -> Result<(), NoMemory>
    ensures ok { OnOk result (out.new.items ≡ out.old.items ++ offers (S.tree it.now)) }
    ensures err { OnErr result (out.new.items ≡ out.old.items) }
{
    let before = out.len();
    match it.append_offers(out) {
        Ok(()) => Ok(()),
        Err(refused) => {
            out.truncate(before);
            Err(refused)
        }
    }
}

/// How many offers there are, or `usize::MAX` where there are more.
pub fn count_offers<S: HasOffers>(it: &S) -> usize
    ensures { result ≡ min (length (offers (S.tree it.now))) 18446744073709551615 }
{
    match it.seek(usize::MAX) {
        Ok(_) => usize::MAX,
        Err(behind) => usize::MAX - behind,
    }
}

/// The offer of this number, if there is one.
pub fn find_offer<S: HasOffers>(it: &S, at: usize) -> Option<CoreAsk>
    ensures { result ≡ slice_get (offers (S.tree it.now)) at }
{
    it.seek(at).ok()
}

/// Where offer `at` of all these is, or how far it is behind the last one.
pub fn find_among<S: HasOffers>(items: &[S], at: usize) -> Result<Offer, usize>
    ensures within { IfOk result (λ offer. offer.child < length items.now) }
    ensures ok { IfOk result (λ offer. IsOfferOf (map S.tree items.now) at offer.child offer.at) }
    ensures err { IfErr result (λ behind. at ≡ length (offers_of_all (trees_of (map S.tree items.now))) + behind) }
{
    let mut further = at;
    for (i, item) in items.iter().enumerate() {
        match item.seek(further) {
            Ok(_) => return Ok(Offer {
                child: i,
                at: further,
            }),
            Err(behind) => further = behind,
        }
    }
    Err(further)
}

/// The offer of this number, or how far behind the last one the number is.
#[cycle(seeking)]
#[tactic(auto, using(crate::proofs::Children::children))]
pub fn seek_in_tree<A: Allocator>(tree: &Scenario<A>, at: usize) -> Result<CoreAsk, usize>
    ensures { result ≡ sought (offers (plain tree.now)) at }
{
    match tree {
        Scenario::One(ask) => if at == 0 { Ok(*ask) } else { Err(at - 1) },
        Scenario::Seq(children) => seek_in_turn(children.as_slice(), at),
        Scenario::Any(children) | Scenario::Both(children) => seek_in_all(children.as_slice(), at),
        Scenario::Times(turns, child) => {
            if *turns == 0 {
                return Err(at);
            }
            seek_in_tree(child, at)
        }
    }
}

/// The offer of this number of children that come one behind the other, or how far behind the last one the number is.
#[cycle(seeking)]
pub fn seek_in_turn<A: Allocator>(children: &[Scenario<A>], at: usize) -> Result<CoreAsk, usize>
    ensures { result ≡ sought (offers_in_turn (plain_all children.now)) at }
{
    let mut further = at;
    for child in children {
        match seek_in_tree(child, further) {
            Ok(ask) => return Ok(ask),
            Err(behind) => further = behind,
        }
        if !tree_may_end(child) {
            return Err(further);
        }
    }
    Err(further)
}

#[cycle(seeking)]
fn seek_in_all<A: Allocator>(children: &[Scenario<A>], at: usize) -> Result<CoreAsk, usize>
    ensures { result ≡ sought (offers_of_all (plain_all children.now)) at }
{
    let mut further = at;
    for child in children {
        if let Scenario::One(ask) = child {
            if further == 0 {
                return Ok(*ask);
            }
            further -= 1;
            continue;
        }
        match seek_in_tree(child, further) {
            Ok(ask) => return Ok(ask),
            Err(behind) => further = behind,
        }
    }
    Err(further)
}

/// Where offer `at` of the children in turn is.
#[tactic(auto, using(crate::proofs::Children::children))]
pub fn place_in_turn<A: Allocator>(children: &[Scenario<A>], at: usize) -> Offer
    requires { at < length (offers_in_turn (plain_all children.now)) }
    ensures within { result.child < length children.now }
    ensures place { IsPlaceInTurn children.now at result.child result.at }
{
    let mut further = at;
    for (i, child) in children.iter().enumerate() {
        match seek_in_tree(child, further) {
            Ok(_) => return Offer {
                child: i,
                at: further,
            },
            Err(behind) => further = behind,
        }
    }
    unreachable!()
}

/// Where offer `at` of all the children is.
pub fn place_among<A: Allocator>(children: &[Scenario<A>], at: usize) -> Offer
    requires { at < length (offers_of_all (plain_all children.now)) }
    ensures within { result.child < length children.now }
    ensures place { IsPlaceAmong children.now at result.child result.at }
{
    match find_among(children, at) {
        Ok(offer) => offer,
        Err(_) => unreachable!(),
    }
}
