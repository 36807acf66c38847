use base::{BlockId, CacheId, Place};
use std::fmt;

/// What is wrong after a step. The kinds stand in the order in which they are looked for.
#[derive(Clone, Copy, Debug, PartialEq, Eq)]
pub enum Violation {
    /// The controller had no rule for what came to it.
    Blank {
        /// The controller that the step went to.
        at: Place,
        block: BlockId,
    },
    /// Two caches may write the block.
    SecondWriter {
        block: BlockId,
        /// The least of its writers.
        first: CacheId,
        /// The least but one.
        second: CacheId,
    },
    /// A cache may write the block, and another one may read it.
    WriterBesideReader {
        block: BlockId,
        writer: CacheId,
        /// The least of the other readers.
        reader: CacheId,
    },
    /// A load returned another value than that of the last store before it.
    StaleLoad {
        block: BlockId,
        /// The value that the load returned.
        got: u64,
        /// The value of the last store to the block before the load, or the block's opening value.
        due: u64,
    },
}

impl fmt::Display for Violation {
    fn fmt<W: fmt::Write>(&self, f: &mut fmt::Formatter<W>) -> fmt::Result {
        match *self {
            Violation::Blank {
                at: Place::Dir,
                block,
            } => write!(f, "blank directory block {}", block.0),
            Violation::Blank {
                at: Place::Cache(cache),
                block,
            } => write!(f, "blank cache {} block {}", cache.0, block.0),
            Violation::SecondWriter {
                block,
                first,
                second,
            } => tell(
                f,
                "second writer ",
                first.0.into(),
                " ",
                second.0.into(),
                block,
            ),
            Violation::WriterBesideReader {
                block,
                writer,
                reader,
            } => tell(
                f,
                "writer ",
                writer.0.into(),
                " beside reader ",
                reader.0.into(),
                block,
            ),
            Violation::StaleLoad { block, got, due } => {
                tell(f, "stale load got ", got, " due ", due, block)
            }
        }
    }
}

/// Writes what two numbers say of a block, each behind its words.
fn tell<W: fmt::Write>(
    f: &mut fmt::Formatter<W>,
    words: &str,
    first: u64,
    between: &str,
    second: u64,
    block: BlockId,
) -> fmt::Result {
    write!(f, "{words}{first}{between}{second} block {}", block.0)
}
