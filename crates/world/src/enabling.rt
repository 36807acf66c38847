ghost use Rattle.std.specs.Prelude.{◌≡◌};
ghost use Rattle.world.specs.inner.Counts.{step_in};
ghost use Rattle.world.specs.inner.Holding.{kept_at};

use crate::counts::{DeliveryKind, Spot};
use crate::worlds::World;
use base::{BlockId, NoMemory, Step};
use blocks::Block;
use rows::Sparse;
use std::alloc::Global;

impl World {
    ghost use Rattle.std.specs.Prelude.{◌≡◌, ◌<◌, ◌^◌, IfOk, length, slice_get};
    ghost use Rattle.world.specs.Enabled.{enabled_at_block, enabled_steps};

    /// The deliveries that are there and wouldn't be held: the requests by block and place, then
    /// the heads of links by block and cache, then the responses by block and place. A broken
    /// world has none.
    pub fn enabled(&self, alloc: Global) -> Result<Vec<Step>, NoMemory>
        ensures { IfOk result (λ steps. steps.items ≡ enabled_steps self.now.tables self.now.state) }
    {
        let mut steps = Vec::new(alloc);
        for k in 0..self.enabled_count() {
            let Some(step) = self.enabled_at(k) else {
                unreachable!();
            };
            steps.push(step)?;
        }
        Ok(steps)
    }

    /// How many deliveries [`enabled`](World::enabled) lists: fewer than 2^50.
    pub fn enabled_count(&self) -> u64
        ensures count { result ≡ length (enabled_steps self.now.tables self.now.state) }
        ensures few { result < 2 ^ 50 }
    {
        if self.met_blank {
            return 0;
        }
        self.counts.total()
    }

    /// The k-th delivery that [`enabled`](World::enabled) lists, counted from 0, if it lists so many.
    #[inline(always)]
    pub fn enabled_at(&self, k: u64) -> Option<Step>
        ensures { result ≡ slice_get (enabled_steps self.now.tables self.now.state) k }
    {
        if self.met_blank {
            return None;
        }
        let spot = self.counts.find(k)?;
        delivery_at(&self.blocks, spot)
    }

    /// How many deliveries of a kind a block has that wouldn't be held if the world weren't broken: fewer than 2^32. A block that
    /// isn't in the shape has none.
    pub fn enabled_count_of(&self, kind: DeliveryKind, block: BlockId) -> u32
        ensures { result ≡ length (enabled_at_block self.now.tables kind self.now.state block) }
    {
        // The counts are those of the state, whatever the world has done.
        let _ = &self.blocks;
        self.counts.of_block(kind, block.0)
    }

    /// The k-th of them, counted from 0, if there are so many: in the order in which [`enabled`](World::enabled) lists them in a world
    /// that isn't broken.
    pub fn enabled_of(&self, kind: DeliveryKind, block: BlockId, k: u32) -> Option<Step>
        ensures { result ≡ slice_get (enabled_at_block self.now.tables kind self.now.state block) k }
    {
        // The counts are those of the state, whatever the world has done.
        let _ = &self.counts;
        let spot = Spot {
            kind,
            block: block.0,
            rest: k,
        };
        delivery_at(&self.blocks, spot)
    }
}

/// The delivery at a spot, if its block is kept.
#[inline(always)]
fn delivery_at(blocks: &Sparse<Block>, spot: Spot) -> Option<Step>
    ensures { result ≡ step_in spot (kept_at blocks.now.items spot.block) }
{
    let kept = blocks.get(spot.block)?;
    let block = BlockId(spot.block);
    match spot.kind {
        DeliveryKind::Request => {
            let index = kept.free_request(spot.rest)?;
            Some(Step::Request { block, index })
        }
        DeliveryKind::Head => {
            let cache = kept.free_head(spot.rest)?;
            Some(Step::Forward { block, cache })
        }
        DeliveryKind::Response => {
            let index = kept.free_response(spot.rest)?;
            Some(Step::Response { block, index })
        }
    }
}
