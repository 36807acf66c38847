ghost use Rattle.std.specs.Prelude.{◌≡◌};
ghost use Rattle.record_lines.specs.declared.fault.ReadKind.TheVariants as kind;

use base::{Failed, NoMemory};
use std::{error, fmt};
use thiserror::Error;

/// What is wrong with a text that isn't a recording's. Of one line `Truncated` is tested first, then `OverLimit`,
/// `BadHeader`, `CountDiffers` and `BadOutcome`, and `BadLine` last; but a line that is too long is `OverLimit` whether
/// it ends or not.
#[derive(Clone, Copy, Debug, PartialEq, Eq)]
pub enum ReadKind {
    /// The first line is another.
    BadHeader,
    /// The line isn't the one that is due.
    BadLine,
    /// The input ends within the line.
    Truncated,
    /// The end stands where an entry is due, or an entry where the end is due.
    CountDiffers,
    /// What follows an entry's step isn't an outcome.
    BadOutcome,
    /// The line is longer than its version allows, or its shape or its count is past the limits.
    OverLimit,
    /// A growth was refused.
    NoMemory,
    /// The source failed.
    Device,
    /// The protocol is due, and what stands there is the name of none.
    UnknownProtocol,
}

impl ReadKind {
    fn name(self) -> &'static str {
        match self {
            ReadKind::BadHeader => "BadHeader",
            ReadKind::BadLine => "BadLine",
            ReadKind::Truncated => "Truncated",
            ReadKind::CountDiffers => "CountDiffers",
            ReadKind::BadOutcome => "BadOutcome",
            ReadKind::OverLimit => "OverLimit",
            ReadKind::NoMemory => "NoMemory",
            ReadKind::Device => "Device",
            ReadKind::UnknownProtocol => "UnknownProtocol",
        }
    }
}

impl fmt::Display for ReadKind {
    fn fmt<W: fmt::Write>(&self, f: &mut fmt::Formatter<W>) -> fmt::Result {
        f.write_str(self.name())
    }
}

impl error::Error for ReadKind {}

impl From<NoMemory> for ReadKind {
    ghost from_gives = { λ _ k. k ≡ kind.NoMemory };

    fn from(_refused: NoMemory) -> ReadKind {
        ReadKind::NoMemory
    }
}

impl From<Failed> for ReadKind {
    ghost from_gives = { λ _ k. k ≡ kind.Device };

    fn from(_failed: Failed) -> ReadKind {
        ReadKind::Device
    }
}

/// Why a text wasn't read.
#[derive(Clone, Copy, Debug, PartialEq, Eq, Error)]
#[error("line {line} is refused: {kind}")]
pub struct ReadFault {
    /// The line with the first fault, counted from 1. For want of memory and a device that failed it is the line that
    /// isn't whole yet.
    pub line: u64,
    pub kind: ReadKind,
}
