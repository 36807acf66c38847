ghost use Rattle.std.specs.Prelude.{◌≡◌};
ghost use Rattle.control.specs.LineEffect.{opened_line};

use base::{Ask, NoMemory};
use cache_table::CacheState;
use network::{Forward, Response};
use rows::TryClone;
use std::alloc::Global;

/// A block in one cache.
#[derive(Clone, Copy, Debug, PartialEq, Eq)]
pub struct Line {
    pub state: CacheState,
    pub value: u64,
    /// How many Inv-Acks are still to come. It is below 0 where they came before the home's Data.
    pub acks: i64,
    /// The load or store that waits for its block.
    pub pending: Option<Ask>,
}

/// What is put to a line: an ask of its core, the head of its link, or a response.
#[derive(Clone, Copy, Debug)]
pub enum LineInput {
    Ask(Ask),
    Forward(Forward),
    Response(Response),
}

/// A load or a store that is done, with the value that it returned or wrote.
#[derive(Clone, Copy, Debug, PartialEq, Eq)]
pub enum LineCompletion {
    Load(u64),
    Store(u64),
}

impl Line {
    /// A line that nothing has happened to.
    pub fn opened() -> Line
        ensures { result ≡ opened_line }
    {
        Line {
            state: CacheState::I,
            value: 0,
            acks: 0,
            pending: None,
        }
    }
}

impl TryClone for Line {
    ghost use Rattle.control.specs.declared.line.Line.{Line};

    ghost Seen = { Line };

    ghost seen = { λ line. line };

    /// The same line, which takes no memory.
    fn try_clone(&self, _alloc: Global) -> Result<Line, NoMemory> {
        Ok(*self)
    }
}
