//! What is offered next, where a look tells that it is one ask at most.

ghost use Rattle.scenario.specs.Taking.{offers};
ghost use Rattle.cursors.specs.Telling.{Tells};
ghost use Rattle.scenario.specs.Tree as tree;
ghost use Rattle.scenario.specs.Tree.{plain, plain_all};

use base::CoreAsk;
use scenario::Scenario;
use std::alloc::Allocator;

/// What is offered next, as far as a look tells it.
#[derive(Clone, Copy)]
pub enum Next {
    /// Nothing is offered.
    Nothing,
    /// This ask is offered, once, and no other.
    Alone(CoreAsk),
    /// It isn't told.
    Unknown,
}

/// What a whole tree offers.
#[tactic(auto, using(scenario::proofs::Children::children))]
pub(crate) fn tree_next<A: Allocator>(tree: &Scenario<A>) -> Next
    ensures { Tells result (offers (plain tree.now)) }
{
    match tree {
        Scenario::One(ask) => Next::Alone(*ask),
        Scenario::Seq(children) => row_next(children.as_slice()),
        Scenario::Times(turns, child) => turn_next(*turns, child),
        Scenario::Any(_) | Scenario::Both(_) => Next::Unknown,
    }
}

/// What children in turn offer: an ask that comes first can't end empty, so nothing behind it is offered.
pub(crate) fn row_next<A: Allocator>(row: &[Scenario<A>]) -> Next
    ensures { Tells result (offers (tree.Seq (plain_all row.now))) }
{
    match row.first() {
        Some(Scenario::One(ask)) => Next::Alone(*ask),
        Some(_) => Next::Unknown,
        None => Next::Nothing,
    }
}

/// What so many turns of a tree offer.
pub(crate) fn turn_next<A: Allocator>(turns: u32, child: &Scenario<A>) -> Next
    ensures { Tells result (offers (tree.Times turns (plain child.now))) }
{
    if turns == 0 {
        return Next::Nothing;
    }
    match child {
        Scenario::One(ask) => Next::Alone(*ask),
        _ => Next::Unknown,
    }
}
