use crate::ids::{BlockId, CacheId};

/// What a core asks of its cache.
#[derive(Clone, Copy, Debug, PartialEq, Eq)]
pub enum Ask {
    /// The block's value.
    Load,
    /// That the block has this value from now on.
    Store(u64),
    /// That the cache gives the block up.
    Replace,
}

/// What a core asks, of which block.
#[derive(Clone, Copy, Debug, PartialEq, Eq)]
pub struct CoreAsk {
    pub core: CacheId,
    pub block: BlockId,
    pub ask: Ask,
}

/// One event at one controller. It may name a cache, a block or a message that isn't there.
#[derive(Clone, Copy, Debug, PartialEq, Eq)]
pub enum Step {
    /// A core's ask is put to the block's line in its cache.
    Ask {
        cache: CacheId,
        block: BlockId,
        ask: Ask,
    },
    /// A waiting request is served at the block's home. The requests are counted from 0 in order of sending.
    Request {
        block: BlockId,
        index: u64,
    },
    /// The first message on the link from the block's home to a cache is served there.
    Forward {
        block: BlockId,
        cache: CacheId,
    },
    /// A response is served at its receiver. The responses are counted from 0 in order of sending.
    Response {
        block: BlockId,
        index: u64,
    },
}

impl Step {
    ghost use Rattle.std.specs.Prelude.{◌≡◌};
    ghost use Rattle.base.specs.Steps.{block_of};

    /// The block that the step is about.
    pub fn block(&self) -> BlockId
        ensures { result.0 ≡ block_of self.now }
    {
        match *self {
            Step::Ask { block, .. }
            | Step::Request { block, .. }
            | Step::Forward { block, .. }
            | Step::Response { block, .. } => block,
        }
    }
}

/// What a step did. `docs/PROTOCOL.md` has the order in which a step is tested.
#[derive(Clone, Copy, Debug, PartialEq, Eq)]
pub enum Outcome {
    /// An ask acted and didn't complete.
    Sent,
    /// A message was served, and no ask completed by it.
    Moved,
    /// A load of this cache completed with this value.
    Load { cache: CacheId, value: u64 },
    /// A store of this value by this cache completed.
    Store { cache: CacheId, value: u64 },
    /// The cell is a stall: nothing has changed, and a message stays where it was.
    Held,
    /// The cache, the block or the message isn't there.
    Absent,
    /// A replacement of a block that the cache hasn't got.
    Idle,
    /// The cell is blank: the controller has no rule for this event in its state. The world is broken.
    Blank,
    /// The world was broken by an earlier step.
    Broken,
}
