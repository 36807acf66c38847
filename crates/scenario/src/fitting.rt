//! That the numbers of a scenario are in range of their types.

ghost use Rattle.scenario.specs.Tree as tree;
ghost use Rattle.scenario.specs.Tree.{plain, plain_all};
ghost use Rattle.scenario.specs.Limits.{FitsTypes, InEach, Throughout};

use crate::tree::Scenario;
use base::CoreAsk;
use std::alloc::Allocator;

/// Reads each number of the scenario: each is in the range of its type.
#[cycle(fitting)]
#[tactic(auto, using(crate::proofs::Children::children))]
pub(crate) fn read_numbers<A: Allocator>(scenario: &Scenario<A>)
    ensures { Throughout FitsTypes (plain scenario.now) }
{
    match scenario {
        Scenario::One(ask) => read_ask(*ask),
        Scenario::Seq(children) | Scenario::Any(children) | Scenario::Both(children) => {
            read_all_numbers(children.as_slice());
        }
        Scenario::Times(turns, child) => {
            let _turns = *turns;
            read_numbers(child);
        }
    }
}

/// Reads each number of the children.
#[cycle(fitting)]
fn read_all_numbers<A: Allocator>(children: &[Scenario<A>])
    ensures { InEach FitsTypes (plain_all children.now) }
{
    for child in children {
        read_numbers(child);
    }
}

/// An ask's numbers are in range, as it is passed by value.
fn read_ask(ask: CoreAsk)
    ensures { FitsTypes (tree.One ask) }
{}
