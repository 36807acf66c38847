//! The replay of a text, of which no entry is kept.

ghost use Rattle.std.specs.Prelude.{◌≡◌, IfOk, IfErr, true};
ghost use Rattle.replays.specs.Replaying.{IsOfDevice, IsTextFault, IsTextReplayed};

use crate::making::MadeEntries;
use crate::replaying::ReplayFault;
use base::Source;
use monitor::{Violation, no_violation_under_restrained_tables, violations_are_what_isnt_safe};
use record::{ReadFault, read_entries};
use std::alloc::Global;
use thiserror::Error;

/// What the replay of a text found.
#[derive(Clone, Copy, Debug, PartialEq, Eq)]
pub struct TextReplayed {
    /// How many entries the text tells of, each with the outcome that its step has.
    pub entries: u32,
    /// The first violation, with the number of its step, counted from 0.
    pub violation: Option<(u64, Violation)>,
}

/// Why a text has no replay. A fault of the text comes before one of the replay, wherever each stands.
#[derive(Clone, Copy, Debug, PartialEq, Eq, Error)]
pub enum TextFault {
    /// The text isn't a recording's.
    #[error("{0}")]
    Read(ReadFault),
    /// The recording has no replay.
    #[error("{0}")]
    Replay(ReplayFault),
}

/// Makes the steps of a recording while it reads the recording's text, in whatever pieces this comes, and keeps none of them.
///
/// It answers what [`first_violation`](crate::first_violation) answers of what [`Recording::read`](record::Recording::read)
/// reads. So it reads on behind an entry that differs, and is refused as a reader is where a fault follows. Want of memory
/// to make a step is answered where the text has no fault.
pub fn replay_text<S: Source>(alloc: Global, source: &mut S) -> Result<TextReplayed, TextFault>
    ensures ok { IfOk result (IsTextReplayed (S.left source.old) (S.left source.new)) }
    ensures fault { IfErr result (IsTextFault (S.left source.old) (S.left source.new)) }
    ensures device { IfErr result (λ fault. IsOfDevice fault → S.has_failed source.new ≡ true) }
{
    violations_are_what_isnt_safe();
    no_violation_under_restrained_tables();
    let made = match read_entries(alloc, source, MadeEntries::new(alloc)) {
        Ok(made) => made,
        Err(fault) => return Err(TextFault::Read(fault)),
    };
    let entries = made.count();
    match made.first_violation() {
        Ok(violation) => Ok(TextReplayed { entries, violation }),
        Err(fault) => Err(TextFault::Replay(fault)),
    }
}
