ghost use Rattle.std.specs.Prelude.{◌≡◌, ◌≢◌, IfOk, IfErr, OnOk, MatchOption, MatchResult, Some, true};
ghost use Rattle.tables.specs.declared.cell_places.CellPlace.{CellPlace};
ghost use Rattle.record.specs.Telling.{IsReadyToTake};
ghost use Rattle.record.specs.TextRead.{HasTold, ReadsText, RefusesText};
ghost use Rattle.record.specs.Versions.{HasTextIn};
ghost use Rattle.record_lines.specs.declared.version.Version.{Version};
ghost use Rattle.base.specs.Words.{words};
ghost use Rattle.record_lines.specs.declared.cells.Cell as cells;
ghost use Rattle.record_lines.specs.Cells.{cell_at, cell_words, is_known, place_of, FitsCell};
ghost use Rattle.record_lines.specs.Grammar.{MayBeListed};
ghost use Rattle.record.specs.View.{RecordingView};
ghost use Rattle.record.specs.Recordable.{AreWhole, IsRecordable};
ghost use Rattle.record_lines.specs.Refused.{IsOutside, IsWellFormed};
ghost use Rattle.record.specs.Text.{text};
ghost use Rattle.record.specs.inner.Drafts.{IsBaselineFrom};
ghost use Rattle.record.specs.inner.Readers.{IsReadWhole};

use crate::entries::{Entries, KeptEntries};
use crate::reader::Reader;
use crate::recording::Recording;
use base::Source;
use base::controller::Protocol;
use record_lines::{Cell, ReadFault, ReadKind, cell_of};
use std::alloc::Global;
use tables::Tables;

impl Recording {
    /// The recording whose text a source gives, in whatever pieces it comes.
    ///
    /// The first line with a fault is named. It holds one line of the text at a time, and makes room only before it pulls: so
    /// want of memory names a line that isn't whole yet. The text of a recording, in either version, is read back as that recording, if memory
    /// and the source don't fail.
    pub fn read<S: Source>(alloc: Global, source: &mut S) -> Result<Recording, ReadFault>
        ensures read { IfOk result (ReadsText (S.left source.old) (S.left source.new)) }
        ensures refused { IfErr result (RefusesText (S.left source.old) (S.left source.new) (S.has_failed source.new)) }
        ensures back { (version : Version) (r : RecordingView) → IsRecordable r → HasTextIn version r → S.left source.old ≡ Some (text version r) →
            MatchResult result (λ recording. recording ≡ r) (λ fault. IsOutside fault.kind) }
    {
        match read_text(alloc, source, KeptEntries::new(alloc)) {
            Ok(reader) => Ok(reader.recording()),
            Err(fault) => Err(fault),
        }
    }
}

/// Reads the text that a source gives, in whatever pieces it comes, and hands each entry to what takes them; that is answered.
///
/// It is refused as [`Recording::read`](crate::Recording::read) refuses. What takes the entries may keep less of them than a
/// recording does.
pub fn read_entries<S: Source, N: Entries>(
    alloc: Global,
    source: &mut S,
    entries: N,
) -> Result<N, ReadFault>
    requires { IsReadyToTake N.tells N.has_room entries }
    ensures { MatchResult result (HasTold N.tells (S.left source.old) (S.left source.new))
        (RefusesText (S.left source.old) (S.left source.new) (S.has_failed source.new)) }
{
    match read_text(alloc, source, entries) {
        Ok(reader) => Ok(reader.entries()),
        Err(fault) => Err(fault),
    }
}

/// Reads the text that a source gives, whose entries these take.
fn read_text<S: Source, N: Entries>(
    alloc: Global,
    source: &mut S,
    entries: N,
) -> Result<Reader<N>, ReadFault>
    requires { IsReadyToTake N.tells N.has_room entries }
    ensures text { IfOk result (IsReadWhole N.tells (S.left source.old) (S.left source.new)) }
    ensures whole { OnOk result (IsWellFormed (S.left source.old) (S.left source.new)) }
    ensures refused { IfErr result (RefusesText (S.left source.old) (S.left source.new) (S.has_failed source.new)) }
{
    let Ok(mut reader) = Reader::open(alloc, entries) else {
        return Err(ReadFault {
            line: 1,
            kind: ReadKind::NoMemory,
        });
    };
    match reader.read_all(source) {
        Ok(()) => Ok(reader),
        Err(kind) => Err(ReadFault {
            line: reader.number() + 1,
            kind,
        }),
    }
}

/// The cell of a line, if this protocol has all that it names, its place is of this number or a higher one, and it differs
/// from the protocol's own. From that place on the tables that were read so far are the protocol's own.
pub(crate) fn listed_cell(
    line: &[u8],
    protocol: Protocol,
    read: &Tables,
    from: usize,
) -> Option<Cell>
    requires protocol { read.now.protocol ≡ protocol }
    requires own { IsBaselineFrom from read.now }
    ensures { MatchOption result
        ((cell : cells.Cell) → MayBeListed protocol from cell → words line.now ≢ cell_words cell)
        (λ cell. MayBeListed protocol from cell × (words line.now ≡ cell_words cell)) }
{
    let cell = cell_of(line)?;
    if !cell.is_known(protocol) {
        return None;
    }
    if cell.place().number() < from {
        return None;
    }
    if cell.is_in(read) {
        return None;
    }
    Some(cell)
}

/// The tables with this cell, all of which their protocol has, in its place.
pub(crate) fn with_cell(tables: Tables, cell: &Cell) -> Tables
    requires { is_known tables.protocol cell.now ≡ true }
    ensures protocol { result.protocol ≡ tables.protocol }
    ensures here { cell_at result (place_of cell.now) ≡ cell.now }
    ensures others { (place : CellPlace) → place ≢ place_of cell.now → cell_at result place ≡ cell_at tables place }
    ensures whole { AreWhole tables → FitsCell cell.now → AreWhole result }
{
    let mut tables = tables;
    match *cell {
        Cell::Cache {
            state,
            event,
            entry,
        } => tables.cache = tables.cache.with(state, event, entry),
        Cell::Directory {
            state,
            event,
            entry,
        } => tables.directory = tables.directory.with(state, event, entry),
    }
    tables
}
