ghost use Rattle.std.specs.Prelude.{◌≡◌, ℕ, Some, slice_get};
ghost use Rattle.base.specs.declared.step.Ask.{Ask};
ghost use Rattle.base.specs.declared.step.Step.TheVariants as step;
ghost use Rattle.machine.specs.Block.{opened_block};
ghost use Rattle.blocks.specs.Looks.{place_in};
ghost use Rattle.world.specs.inner.Found.{is_quiet_kept};
ghost use Rattle.world.specs.inner.Holding.{kept_at};

use crate::worlds::{World, opening_value};
use base::{BlockId, CacheId, Outcome, Place, Shape, Step};
use blocks::{Block, HeldAsks, is_held_opened, opened_line};
use cache_table::CacheState;
use control::Line;
use directory_table::DirectoryState;
use network::{Forward, Message};
use rows::Sparse;

/// A block: what is kept of it, or its opening value where nothing is.
#[derive(Clone, Copy)]
enum FoundBlock<'a> {
    Kept(&'a Block),
    Opened(u64),
}

impl World {
    ghost use Rattle.std.specs.Prelude.{◌≡◌, ◌<◌, ◌≤◌, ◌↔◌, ◌⊎◌, IfNone, IfSome, IsSome, IsTrue, List, None, Some, ℕ, slice_get};
    ghost use Rattle.std.specs.Option.{option_map};
    ghost use Rattle.world.specs.inner.Found.{is_held_found, state_found};
    ghost use Rattle.base.specs.Steps.{block_of};
    ghost use Rattle.base.specs.declared.step.Step.{Step};
    ghost use Rattle.machine.specs.Transition.{transition};
    ghost use Rattle.machine.specs.Machine.{next, IsHistory};
    ghost use Rattle.machine.specs.Completions.{completions_of, due};
    ghost use Rattle.machine.specs.Coherence.{line_at};
    ghost use Rattle.world.specs.View.{home_at, shares_at};
    ghost use Rattle.blocks.specs.Asking.{holds, stalls_in};
    ghost use Rattle.world.specs.Looks.{held_at, latest_at, readers_of, writer_of, all_quiet, forward_at, message_at, place_at};

    /// How many caches and blocks there are.
    pub fn shape(&self) -> Shape
        ensures { result ≡ self.now.shape }
    {
        self.shape
    }

    /// The line of a cache for a block, if both are in the shape.
    pub fn line(&self, cache: CacheId, block: BlockId) -> Option<Line>
        ensures line { result ≡ line_at self.now.state cache.0 block.0 }
        ensures there { IsSome result ↔ ((cache.0 < self.now.shape.caches) × (block.0 < self.now.shape.blocks)) }
    {
        // Each block of the shape has a line for each cache.
        let _ = &self.blocks;
        self.find_line(cache, block)
    }

    fn find_line(&self, cache: CacheId, block: BlockId) -> Option<Line>
        ensures { result ≡ line_at self.now.state cache.0 block.0 }
    {
        match self.find(block.0)? {
            FoundBlock::Kept(block) => block.line(cache),
            FoundBlock::Opened(_) => opened_line(cache, self.shape.caches()),
        }
    }

    /// A block, if it is in the shape.
    fn find(&self, number: u32) -> Option<FoundBlock<'_>>
        ensures state { option_map (state_found self.now.shape.caches) result ≡ slice_get self.now.state.blocks number }
        ensures there { IsSome result ↔ (number < self.now.shape.blocks) }
    {
        let value = opening_value(self.opening.as_slice(), number)?;
        match self.blocks.get(number) {
            Some(block) => Some(FoundBlock::Kept(block)),
            None => Some(FoundBlock::Opened(value)),
        }
    }

    /// State, owner and memory of a block's home, if the block is in the shape.
    pub fn home(&self, block: BlockId) -> Option<(DirectoryState, Option<CacheId>, u64)>
        ensures home { result ≡ home_at self.now.state block.0 }
        ensures there { IsSome result ↔ (block.0 < self.now.shape.blocks) }
    {
        match self.find(block.0)? {
            FoundBlock::Kept(block) => Some(block.home()),
            FoundBlock::Opened(value) => Some((DirectoryState::I, None, value)),
        }
    }

    /// Whether a cache is among the sharers of a block. Where either isn't in the shape it is not.
    pub fn shares(&self, cache: CacheId, block: BlockId) -> bool
        ensures { result ≡ shares_at self.now.state cache.0 block.0 }
    {
        match self.find(block.0) {
            Some(FoundBlock::Kept(block)) => block.shares(cache),
            Some(FoundBlock::Opened(_)) | None => false,
        }
    }

    /// The value of the last store to a block, or its opening value, if the block is in the shape.
    ///
    /// It is the value that a load of the block ought to return next: whatever steps led to the world, it is that of
    /// the last of their completed stores to the block.
    pub fn latest(&self, block: BlockId) -> Option<u64>
        ensures latest { result ≡ latest_at self.now.state block.0 }
        ensures due { (opening : List ℕ) (steps : List Step) → IsHistory self.now.shape self.now.tables opening steps self.now.state →
            result ≡ due opening (completions_of self.now.shape self.now.tables opening steps) block.0 }
        ensures there { IsSome result ↔ (block.0 < self.now.shape.blocks) }
    {
        self.find_latest(block)
    }

    fn find_latest(&self, block: BlockId) -> Option<u64>
        ensures latest { result ≡ latest_at self.now.state block.0 }
        ensures there { IsSome result ↔ (block.0 < self.now.shape.blocks) }
    {
        match self.find(block.0)? {
            FoundBlock::Kept(block) => Some(block.latest()),
            FoundBlock::Opened(value) => Some(value),
        }
    }

    /// How many caches are in S, SM^AD, SM^A, M or E. Of a block that isn't in the shape it is 0.
    pub fn readers(&self, block: BlockId) -> u32
        ensures { result ≡ readers_of self.now.state block.0 }
    {
        match self.find(block.0) {
            Some(FoundBlock::Kept(block)) => block.readers(),
            Some(FoundBlock::Opened(_)) | None => 0,
        }
    }

    /// The least cache in M or E, if there is one and the block is in the shape.
    pub fn writer(&self, block: BlockId) -> Option<CacheId>
        ensures { result ≡ writer_of self.now.state block.0 }
    {
        match self.find(block.0)? {
            FoundBlock::Kept(block) => block.writer(),
            FoundBlock::Opened(_) => None,
        }
    }

    /// The least cache in M or E, where more than one cache is in S, SM^AD, SM^A, M or E and the block is in the shape. It takes one
    /// look where [`writer`](World::writer) and [`readers`](World::readers) take two.
    pub fn crowded_writer(&self, block: BlockId) -> Option<CacheId>
        ensures some { IfSome result (λ cache. Some cache ≡ writer_of self.now.state block.0) }
        ensures many { IfSome result (λ cache. 1 < readers_of self.now.state block.0) }
        ensures none { IfNone result ((readers_of self.now.state block.0 ≤ 1) ⊎ (None ≡ writer_of self.now.state block.0)) }
    {
        match self.find(block.0) {
            Some(FoundBlock::Kept(block)) => block.crowded_writer(),
            Some(FoundBlock::Opened(_)) | None => None,
        }
    }

    /// Whether a blank cell was met.
    pub fn broken(&self) -> bool
        ensures { result ≡ self.now.state.broken }
    {
        self.met_blank
    }

    /// How many messages the steps since the world was opened have tested for being held; it stays at `u64::MAX`. A step whose cell
    /// acts counts each message of its block, also where it knows the mark without a test: so it makes no more tests than that.
    pub fn tested(&self) -> u64
        ensures { result ≡ self.now.tested }
    {
        self.tested
    }

    /// Whether nothing is on the wires of any block.
    pub fn empty(&self) -> bool
        ensures { result ≡ all_quiet self.now.state.blocks }
    {
        // Nothing is on the wires of a block that isn't kept.
        for index in 0..self.blocks.held() {
            if !is_quiet_nth(&self.blocks, index) {
                return false;
            }
        }
        true
    }

    /// Whether a step would be held.
    pub fn held(&self, step: Step) -> bool
        ensures { IsTrue result ↔ ((next self.now.tables self.now.state step).outcome ≡ Outcome.Held) }
    {
        if self.broken() {
            return false;
        }
        self.holds(step)
    }

    /// Whether a step would be held in a world that isn't broken. Where its block isn't there it wouldn't.
    fn holds(&self, step: Step) -> bool
        ensures { result ≡ is_held_found self.now.tables step (slice_get self.now.state.blocks (block_of step)) }
    {
        match self.find(step.block().0) {
            Some(FoundBlock::Kept(block)) => block.is_held(self.controllers.tables(), step),
            Some(FoundBlock::Opened(_)) => is_held_opened(
                self.controllers.tables(),
                self.shape.caches(),
                step,
            ),
            None => false,
        }
    }

    /// Which asks would be held at a line in this state, in a world that isn't broken.
    #[inline(always)]
    pub fn held_asks(&self, state: CacheState) -> HeldAsks
        ensures { (ask : Ask) → holds result ask ≡ stalls_in self.now.tables.cache ask state }
    {
        self.controllers.held_asks(state)
    }

    /// The controller that a step goes to. There is none where cache, block or message isn't there, in a broken world too.
    pub fn at(&self, step: Step) -> Option<Place>
        ensures { result ≡ place_at self.now.state step }
    {
        if let Step::Ask { cache, block, .. } = step {
            return self.place_asked(cache, block);
        }
        match self.find(step.block().0)? {
            FoundBlock::Kept(block) => block.place(step),
            FoundBlock::Opened(_) => place_opened(self.shape.caches(), step),
        }
    }

    /// The controller that an ask goes to: that of the core's cache, if cache and block are there. No look-up is needed.
    fn place_asked(&self, cache: CacheId, block: BlockId) -> Option<Place>
        ensures { (ask : Ask) → result ≡ place_at self.now.state (step.Ask cache block ask) }
    {
        if cache.0 >= self.shape.caches() {
            return None;
        }
        if block.0 >= self.shape.blocks() {
            return None;
        }
        Some(Place::Cache(cache))
    }

    /// The message that a delivery would serve, whether or not it would be held. There is none where block or message isn't
    /// there, nor of an ask.
    pub fn message(&self, step: Step) -> Option<Message>
        ensures { result ≡ message_at self.now.state step }
    {
        match self.find(step.block().0)? {
            FoundBlock::Kept(block) => block.message(step),
            FoundBlock::Opened(_) => None,
        }
    }

    /// The message at a place of the link from a block's home to a cache, the first one at 0, if there is one.
    pub fn forward(&self, block: BlockId, cache: CacheId, index: u64) -> Option<Forward>
        ensures { result ≡ forward_at self.now.state block.0 cache.0 index }
    {
        match self.find(block.0)? {
            FoundBlock::Kept(block) => block.forward(cache, index),
            FoundBlock::Opened(_) => None,
        }
    }
}

/// Whether nothing is on the wires of a block that is kept: of the one that was kept after so many others.
fn is_quiet_nth(blocks: &Sparse<Block>, index: usize) -> bool
    ensures { (at : ℕ) → slice_get blocks.now.keys index ≡ Some at → result ≡ is_quiet_kept (kept_at blocks.now.items at) }
{
    match blocks.nth(index) {
        Some((_, block)) => block.is_quiet(),
        None => true,
    }
}

/// The controller that a step goes to in a block that isn't kept, if the cache is one of so many.
fn place_opened(caches: u32, step: Step) -> Option<Place>
    ensures { (value : ℕ) → result ≡ place_in step (opened_block caches value) }
{
    match step {
        Step::Ask {
            cache,
            block: _,
            ask: _,
        } => {
            if cache.0 < caches {
                Some(Place::Cache(cache))
            } else {
                None
            }
        }
        Step::Request { .. } | Step::Forward { .. } | Step::Response { .. } => None,
    }
}
