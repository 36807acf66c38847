mod access;
mod acting;
mod asking;
mod deciding;
mod free;
mod looking;
mod passing;
mod serving;
mod testing;

use access::Access;
pub use asking::HeldAsks;
pub(crate) use asking::held_asks_in;
use base::{CacheId, NoMemory};
use control::{Home, Line};
pub use deciding::{decide_opened, opened_line};
use directory_table::DirectoryState;
pub use looking::{foreseen, is_held_opened};
use network::Wires;
pub(crate) use passing::{forwards_pass, is_clear, responses_pass};
use rows::{Sparse, TryClone};
use std::alloc::Global;
use std::marker::Model;
pub use testing::Tested;

/// One block: its line in each cache, its home, its wires, and the value of the last store to it.
///
/// Only lines that a cell has acted at are kept; the others are as they open.
pub struct Block {
    lines: Sparse<Line>,
    home: Home,
    wires: Wires,
    latest: u64,
    access: Access,
}

impl Drop for Block {
    fn drop(self) {
        // One call drops all its parts.
        let Block {
            lines: _,
            home: _,
            wires: _,
            latest: _,
            access: _,
        } = self;
    }
}

impl Model for Block {
    ghost use Rattle.blocks.specs.View.{BlockView};
    ghost use Rattle.blocks.specs.inner.Lined.{IsHeld, kept_lines, lines_of};

    ghost Value = { BlockView };

    ghost view = { λ b. record {
      state = record { lines = lines_of b.lines.items; home = b.home; traffic = b.wires.traffic; latest = b.latest };
      marks = b.wires.marks;
      space = record { wires = b.wires.room; lines = kept_lines b.lines.items; spare = b.lines.spare };
    } };

    ghost invariant = { λ b. IsHeld (record {
      lines = lines_of b.lines.items;
      home = b.home;
      traffic = b.wires.traffic;
      latest = b.latest;
    }) b.lines.items b.access.readers b.access.writers };
}

impl Block {
    ghost use Rattle.std.specs.Prelude.{◌≡◌, false, IfOk, length, replicate, slice_get};
    ghost use Rattle.network.specs.Marks.{no_marks};
    ghost use Rattle.control.specs.Sharing.{shares};
    ghost use Rattle.machine.specs.Block.{opened_block};

    /// A block that nothing has happened to, among so many caches, with its opening value.
    pub fn open(alloc: Global, caches: u32, value: u64) -> Result<Block, NoMemory>
        ensures state { IfOk result (λ block. block.state ≡ opened_block caches value) }
        ensures marks { IfOk result (λ block. block.marks ≡ no_marks caches) }
        ensures lines { IfOk result (λ block. block.space.lines ≡ replicate caches false) }
    {
        let home = Home::open(alloc, caches, value)?;
        let wires = Wires::open(alloc, caches)?;
        Ok(Block {
            lines: Sparse::open(alloc, caches),
            home,
            wires,
            latest: value,
            access: Access::none(),
        })
    }

    /// Whatever happened to the block, it is one that nothing has happened to from now on, with this opening value.
    /// The memory of its lines and of most of its wires is kept.
    pub fn reset(&mut self, value: u64)
        ensures state { self.new.state ≡ opened_block (length self.old.state.lines) value }
        ensures marks { self.new.marks ≡ no_marks (length self.old.state.lines) }
        ensures lines { self.new.space.lines ≡ replicate (length self.old.state.lines) false }
    {
        self.lines.clear();
        self.home.reset(value);
        self.latest = value;
        self.access = Access::none();
        self.wires.clear();
    }

    /// The line of a cache, if the cache is there.
    pub fn line(&self, cache: CacheId) -> Option<Line>
        ensures { result ≡ slice_get self.now.state.lines cache.0 }
    {
        if let Some(line) = self.lines.get(cache.0) {
            return Some(*line);
        }
        opened_line(cache, self.lines.places())
    }

    /// State, owner and memory of the home.
    pub fn home(&self) -> (DirectoryState, Option<CacheId>, u64)
        ensures { result ≡ (self.now.state.home.state, self.now.state.home.owner, self.now.state.home.memory) }
    {
        (self.home.state, self.home.owner, self.home.memory)
    }

    /// Whether a cache is among the sharers.
    pub fn shares(&self, cache: CacheId) -> bool
        ensures { result ≡ shares self.now.state.home.sharers cache.0 }
    {
        self.home.sharers.contains(cache)
    }
}

impl TryClone for Block {
    ghost use Rattle.network.specs.Marks.{Marks};
    ghost use Rattle.machine.specs.Block.{BlockState};
    ghost use Rattle.std.specs.Prelude.{Bool, List};

    ghost Seen = { record { state : BlockState; marks : Marks; lines : List Bool } };

    ghost seen = { λ block. record { state = block.state; marks = block.marks; lines = block.space.lines } };

    /// The same block, with the same marks. The same lines are kept.
    fn try_clone(&self, alloc: Global) -> Result<Block, NoMemory> {
        let lines = self.lines.try_clone(alloc)?;
        let home = self.home.try_clone(alloc)?;
        let wires = self.wires.try_clone(alloc)?;
        Ok(Block {
            lines,
            home,
            wires,
            latest: self.latest,
            access: self.access,
        })
    }
}
