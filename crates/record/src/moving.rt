//! Recordings of either version, written again.

ghost use Rattle.std.specs.Prelude.{◌≡◌, IfErr, OnOk, Some};
ghost use Rattle.std.specs.Io.KnownBytes.{Appends};
ghost use Rattle.record.specs.Moving.{IsMoved, IsMoveFault};
ghost use Rattle.record.specs.View.{RecordingView};
ghost use Rattle.record.specs.Text.{text};
ghost use Rattle.record.specs.Recordable.{IsRecordable};
ghost use Rattle.record.specs.Versions.{HasTextIn};
ghost use Rattle.record_lines.specs.declared.version.Version.{Version};
ghost use Rattle.record_lines.specs.declared.version.Version.TheVariants as version;

use crate::recording::Recording;
use crate::writing::WriteFault;
use base::{Sink, Source};
use record_lines::ReadFault;
use std::alloc::Global;
use thiserror::Error;

/// Why a text wasn't moved.
#[derive(Clone, Copy, Debug, PartialEq, Eq, Error)]
pub enum MoveFault {
    #[error("{0}")]
    Read(ReadFault),
    #[error("{0}")]
    Write(WriteFault),
}

/// Reads a recording of either version, and puts its text in version 2 into a sink.
///
/// It is refused as [`Recording::read`] refuses, and nothing went out then; or where the sink fails.
///
/// So the text of version 2 of a recording comes of any text of it: one of version 2 stays as it is.
pub fn move_text<S: Source, K: Sink>(
    alloc: Global,
    source: &mut S,
    sink: &mut K,
) -> Result<(), MoveFault>
    ensures ok { OnOk result (IsMoved (record {
      left = S.left source.old;
      left_then = S.left source.new;
      taken = K.taken sink.old;
      taken_then = K.taken sink.new;
      source_has_failed = S.has_failed source.new;
      had_failed = K.has_failed sink.old;
      has_failed = K.has_failed sink.new;
    })) }
    ensures err { IfErr result (IsMoveFault (record {
      left = S.left source.old;
      left_then = S.left source.new;
      taken = K.taken sink.old;
      taken_then = K.taken sink.new;
      source_has_failed = S.has_failed source.new;
      had_failed = K.has_failed sink.old;
      has_failed = K.has_failed sink.new;
    })) }
    ensures moved { (v : Version) (r : RecordingView) → IsRecordable r → HasTextIn v r → S.left source.old ≡ Some (text v r) →
        OnOk result (Appends (K.taken sink.old) (K.taken sink.new) (text version.Two r)) }
{
    let recording = match Recording::read(alloc, source) {
        Ok(recording) => recording,
        Err(fault) => return Err(MoveFault::Read(fault)),
    };
    match recording.write(sink) {
        Ok(()) => Ok(()),
        Err(fault) => Err(MoveFault::Write(fault)),
    }
}
