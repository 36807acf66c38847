//! Parts of scenarios, made in the memory of an allocator that is lent.

ghost use Rattle.std.specs.Prelude.{◌≡◌, ◌≤◌, [], vec_capacity, IfOk};
ghost use Rattle.scenario.specs.Tree as tree;
ghost use Rattle.scenario.specs.Tree.{plain};

use crate::tree::Scenario;
use std::alloc::{AllocError, Allocator};

/// An empty list with room for so many children.
pub(crate) fn children_in<A: Allocator + Clone>(
    alloc: &A,
    room: usize,
) -> Result<Vec<Scenario<A>, A>, AllocError>
    ensures items { IfOk result (λ children. children.items ≡ []) }
    ensures room { IfOk result (λ children. room ≤ vec_capacity children) }
{
    Vec::with_capacity(alloc.clone()?, room)
}

pub(crate) fn times_in<A: Allocator + Clone>(
    alloc: &A,
    turns: u32,
    child: Scenario<A>,
) -> Result<Scenario<A>, AllocError>
    ensures { IfOk result (λ made. plain made ≡ tree.Times turns (plain child)) }
{
    Ok(Scenario::Times(turns, Box::new(alloc.clone()?, child)?))
}
