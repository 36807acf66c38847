//! Taking an offer: the ask goes out, and the scenario becomes what is left.

ghost use Rattle.std.specs.Prelude.{◌≡◌, ◌<◌, ◌≤◌, Some, drop, length, vec_capacity, IfNone, IfOk, IfSome, MatchResult, OnErr};
ghost use Rattle.scenario.specs.Tree as tree;
ghost use Rattle.scenario.specs.Tree.{Trees, plain, plain_all};
ghost use Rattle.scenario.specs.Taking.{offers, offers_in_turn, offers_of_all};
ghost use Rattle.scenario.specs.Alike.{Takes};
ghost use Rattle.scenario.specs.Rests.{Leaves, LeavesInTurn, row_of};

use crate::copying::copy_one;
use crate::making::children_in;
use crate::seeking::{place_among, place_in_turn, seek_in_tree};
use crate::tree::Scenario;
use base::{CoreAsk, NoMemory};
use std::alloc::Allocator;
use std::mem;

impl<A: Allocator + Clone> Scenario<A> {
    /// Takes offer `at`, counted from 0 in the order of [`Scenario::offers`]: answers its ask, and the scenario becomes
    /// what is left. `None` comes where there is no such offer, and then nothing has changed.
    ///
    /// What is made anew is `alloc`'s. Where memory is refused, nothing has changed.
    pub fn take(&mut self, alloc: A, at: usize) -> Result<Option<CoreAsk>, NoMemory>
        ensures ok { IfOk result (λ taken. Takes (plain self.old) at taken (plain self.new)) }
        ensures err { OnErr result (plain self.new ≡ plain self.old) }
    {
        if let Err(_) = seek_in_tree(self, at) {
            return Ok(None);
        }
        Ok(Some(take_one(self, alloc, at)?))
    }
}

#[cycle(taking)]
#[tactic(auto, using(crate::proofs::Children::children))]
fn take_one<A: Allocator + Clone>(
    tree: &mut Scenario<A>,
    alloc: A,
    at: usize,
) -> Result<CoreAsk, NoMemory>
    requires { at < length (offers (plain tree.old)) }
    ensures { MatchResult result (λ ask. Leaves (plain tree.old) at (Some ask) (plain tree.new)) (λ _. plain tree.new ≡ plain tree.old) }
{
    match tree {
        Scenario::One(ask) => {
            let ask = *ask;
            leave(tree, Scenario::Seq(Vec::new(alloc)));
            Ok(ask)
        }
        Scenario::Seq(children) => {
            let Ok(ask) = take_in_turn(children, alloc, at) else {
                return Err(NoMemory);
            };
            shorten_row(tree);
            Ok(ask)
        }
        Scenario::Any(children) => {
            let Ok((ask, left)) = take_from_any(children, alloc, at) else {
                return Err(NoMemory);
            };
            leave(tree, left);
            Ok(ask)
        }
        Scenario::Times(turns, child) => {
            let Ok((ask, parts)) = take_from_turn(child, alloc, at) else {
                return Err(NoMemory);
            };
            *turns -= 1;
            put_before(tree, ask, parts);
            Ok(ask)
        }
        Scenario::Both(children) => take_among(children, alloc, at),
    }
}

/// Takes from children that come one behind the other. Those before the one that offered it go.
#[cycle(taking)]
#[tactic(auto, using(crate::proofs::Children::children))]
fn take_in_turn<A: Allocator + Clone>(
    children: &mut Vec<Scenario<A>, A>,
    alloc: A,
    at: usize,
) -> Result<CoreAsk, NoMemory>
    requires { at < length (offers_in_turn (plain_all children.old.items)) }
    ensures { MatchResult result (λ ask. LeavesInTurn (plain_all children.old.items) at ask (plain_all children.new.items))
        (λ _. plain_all children.new.items ≡ plain_all children.old.items) }
{
    let offer = place_in_turn(children.as_slice(), at);
    let Ok(ask) = take_one(&mut children[offer.child], alloc, offer.at) else {
        return Err(NoMemory);
    };
    drop_front(children, offer.child);
    Ok(ask)
}

/// This is what is left of a scenario.
fn leave<A: Allocator>(scenario: &mut Scenario<A>, left: Scenario<A>)
    ensures { plain scenario.new ≡ plain left }
{
    *scenario = left;
}

/// A row of one child becomes the child.
fn shorten_row<A: Allocator>(scenario: &mut Scenario<A>)
    ensures { (ts : Trees) → plain scenario.old ≡ tree.Seq ts → plain scenario.new ≡ row_of ts }
{
    if let Scenario::Seq(children) = scenario {
        if let Some(only) = only_child(children) {
            *scenario = only;
        }
    }
}

/// The child of a row that has no other: it is taken out, and stands for the row.
#[tactic(auto, using(crate::proofs::Children::children))]
fn only_child<A: Allocator>(children: &mut Vec<Scenario<A>, A>) -> Option<Scenario<A>>
    ensures some { IfSome result (λ only. plain only ≡ row_of (plain_all children.old.items)) }
    ensures none { IfNone result (children.new.items ≡ children.old.items) }
    ensures row { IfNone result (row_of (plain_all children.old.items) ≡ tree.Seq (plain_all children.old.items)) }
{
    if children.len() == 1 {
        children.pop()
    } else {
        None
    }
}

/// Takes from one of the children, and takes out what is left of it. The others are of no use from then on.
#[cycle(taking)]
#[tactic(auto, using(crate::proofs::Children::children))]
fn take_from_any<A: Allocator + Clone>(
    children: &mut Vec<Scenario<A>, A>,
    alloc: A,
    at: usize,
) -> Result<(CoreAsk, Scenario<A>), NoMemory>
    requires { at < length (offers_of_all (plain_all children.old.items)) }
    ensures { MatchResult result (λ turn. Leaves (tree.Any (plain_all children.old.items)) at (Some turn.0) (plain turn.1))
        (λ _. plain_all children.new.items ≡ plain_all children.old.items) }
{
    let offer = place_among(children.as_slice(), at);
    let Ok(ask) = take_one(&mut children[offer.child], alloc, offer.at) else {
        return Err(NoMemory);
    };
    Ok((ask, children.swap_remove(offer.child)))
}

/// Takes from children that go on at once. The others stay.
#[cycle(taking)]
#[tactic(auto, using(crate::proofs::Children::children))]
fn take_among<A: Allocator + Clone>(
    children: &mut Vec<Scenario<A>, A>,
    alloc: A,
    at: usize,
) -> Result<CoreAsk, NoMemory>
    requires { at < length (offers_of_all (plain_all children.old.items)) }
    ensures { MatchResult result (λ ask. Leaves (tree.Both (plain_all children.old.items)) at (Some ask) (tree.Both (plain_all children.new.items)))
        (λ _. plain_all children.new.items ≡ plain_all children.old.items) }
{
    let offer = place_among(children.as_slice(), at);
    let child = &mut children[offer.child];
    take_one(child, alloc, offer.at)
}

/// What is left of a turn of the child, which itself stays as it is, alone in a row with room for both.
#[cycle(taking)]
fn take_from_turn<A: Allocator + Clone>(
    child: &mut Scenario<A>,
    alloc: A,
    at: usize,
) -> Result<(CoreAsk, Vec<Scenario<A>, A>), NoMemory>
    requires { at < length (offers (plain child.old)) }
    ensures ok { IfOk result (λ taken. Leaves (plain child.old) at (Some taken.0) (row_of (plain_all taken.1.items))) }
    ensures parts { IfOk result (λ taken. (length taken.1.items ≡ 1) × (2 ≤ vec_capacity taken.1)) }
    ensures child { plain child.new ≡ plain child.old }
{
    let Ok(mut parts) = copy_with_room(child, &alloc) else {
        return Err(NoMemory);
    };
    let Ok(ask) = take_one(child, alloc, at) else {
        return Err(NoMemory);
    };
    mem::swap(child, &mut parts[0]);
    Ok((ask, parts))
}

/// A copy of a scenario, alone in a row with room for another child.
fn copy_with_room<A: Allocator + Clone>(
    scenario: &Scenario<A>,
    alloc: &A,
) -> Result<Vec<Scenario<A>, A>, NoMemory>
    ensures copy { IfOk result (λ parts. row_of (plain_all parts.items) ≡ plain scenario.now) }
    ensures parts { IfOk result (λ parts. (length parts.items ≡ 1) × (2 ≤ vec_capacity parts)) }
{
    let Ok(mut parts) = children_in(alloc, 2) else {
        return Err(NoMemory);
    };
    let Ok(copy) = copy_one(scenario, alloc) else {
        return Err(NoMemory);
    };
    parts.push_reserved(copy);
    Ok(parts)
}

/// What is left of a turn, alone in a row, goes before the scenario: the row of both stands in its place.
#[tactic(auto, using(crate::proofs::Children::children))]
fn put_before<A: Allocator>(
    scenario: &mut Scenario<A>,
    ask: CoreAsk,
    mut parts: Vec<Scenario<A>, A>,
)
    requires turn { length parts.items ≡ 1 }
    requires room { 2 ≤ vec_capacity parts }
    ensures { plain scenario.new ≡ tree.Seq (tree.Cons (row_of (plain_all parts.items)) (tree.Cons (plain scenario.old) tree.Nil)) }
{
    // An ask takes no memory, so it stands in the place until the row does.
    let later = mem::replace(scenario, Scenario::One(ask));
    parts.push_reserved(later);
    *scenario = Scenario::Seq(parts);
}

fn drop_front<T: Drop, A: Allocator>(items: &mut Vec<T, A>, n: usize)
    requires { n ≤ length items.old.items }
    ensures { items.new.items ≡ drop n items.old.items }
{
    for _ in 0..n {
        items.remove(0);
    }
}
