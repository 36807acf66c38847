use std::marker::Model;
use thiserror::Error;

/// The most caches that a world may have.
pub const MOST_CACHES: u32 = 4096;

/// The most blocks that a world may have.
pub const MOST_BLOCKS: u32 = 65_536;

/// Why these numbers aren't a shape. The faults are tested in this order.
#[derive(Clone, Copy, Debug, PartialEq, Eq, Error)]
pub enum ShapeFault {
    #[error("a world has at least one cache")]
    NoCaches,
    #[error("a world has at least one block")]
    NoBlocks,
    #[error("a world has at most {MOST_CACHES} caches")]
    TooManyCaches,
    #[error("a world has at most {MOST_BLOCKS} blocks")]
    TooManyBlocks,
}

/// How many caches and blocks a world has: 1 to 4,096 caches and 1 to 65,536 blocks.
#[derive(Clone, Copy, Debug, PartialEq, Eq)]
pub struct Shape {
    caches: u32,
    blocks: u32,
}

impl Model for Shape {
    ghost use Rattle.base.specs.Extent.{Extent, IsWithinLimits};

    ghost Value = { Extent };

    ghost view = { λ s. record { caches = s.caches; blocks = s.blocks } };

    ghost invariant = { λ s. IsWithinLimits (record { caches = s.caches; blocks = s.blocks }) };

    ghost inverse = { λ e. record { caches = e.caches; blocks = e.blocks } };
}

impl Shape {
    ghost use Rattle.std.specs.Prelude.{◌≡◌, IfOk, IfErr};
    ghost use Rattle.base.specs.Extent.{IsWithinLimits, IsFaultOf};

    /// The shape of so many caches and blocks, or the first fault of these numbers.
    pub fn new(caches: u32, blocks: u32) -> Result<Shape, ShapeFault>
        ensures shape { IfOk result (λ shape. shape ≡ record { caches = caches; blocks = blocks }) }
        ensures within { IfOk result IsWithinLimits }
        ensures fault { IfErr result (IsFaultOf caches blocks) }
    {
        if caches == 0 {
            return Err(ShapeFault::NoCaches);
        }
        if blocks == 0 {
            return Err(ShapeFault::NoBlocks);
        }
        if caches > MOST_CACHES {
            return Err(ShapeFault::TooManyCaches);
        }
        if blocks > MOST_BLOCKS {
            return Err(ShapeFault::TooManyBlocks);
        }
        Ok(Shape { caches, blocks })
    }

    /// How many caches there are.
    pub fn caches(&self) -> u32
        ensures value { result ≡ self.now.caches }
        ensures within { IsWithinLimits self.now }
    {
        self.caches
    }

    /// How many blocks there are.
    pub fn blocks(&self) -> u32
        ensures value { result ≡ self.now.blocks }
        ensures within { IsWithinLimits self.now }
    {
        self.blocks
    }
}
