//! The same scenario under another allocator.

ghost use Rattle.std.specs.Prelude.{◌≡◌, map, IfOk};
ghost use Rattle.scenario.specs.Tree.{plain};

use crate::making::{children_in, times_in};
use crate::tree::Scenario;
use base::NoMemory;
use std::alloc::Allocator;

impl<A: Allocator> Scenario<A> {
    /// An equal scenario whose memory is `alloc`'s.
    pub fn copy_in<B: Allocator + Clone>(&self, alloc: B) -> Result<Scenario<B>, NoMemory>
        ensures { IfOk result (λ copy. plain copy ≡ plain self.now) }
    {
        copy_one(self, &alloc)
    }
}

#[cycle(copying)]
#[tactic(auto, using(crate::proofs::Children::children))]
pub(crate) fn copy_one<A: Allocator, B: Allocator + Clone>(
    scenario: &Scenario<A>,
    alloc: &B,
) -> Result<Scenario<B>, NoMemory>
    ensures { IfOk result (λ copy. plain copy ≡ plain scenario.now) }
{
    match scenario {
        Scenario::One(ask) => Ok(Scenario::One(*ask)),
        Scenario::Seq(children) => Ok(Scenario::Seq(copy_all(children.as_slice(), alloc)?)),
        Scenario::Any(children) => Ok(Scenario::Any(copy_all(children.as_slice(), alloc)?)),
        Scenario::Times(turns, child) => Ok(times_in(alloc, *turns, copy_one(child, alloc)?)?),
        Scenario::Both(children) => Ok(Scenario::Both(copy_all(children.as_slice(), alloc)?)),
    }
}

#[cycle(copying)]
fn copy_all<A: Allocator, B: Allocator + Clone>(
    children: &[Scenario<A>],
    alloc: &B,
) -> Result<Vec<Scenario<B>, B>, NoMemory>
    ensures { IfOk result (λ copies. map plain copies.items ≡ map plain children.now) }
{
    let mut copies = children_in(alloc, children.len())?;
    for child in children {
        copies.push(copy_one(child, alloc)?)?;
    }
    Ok(copies)
}
