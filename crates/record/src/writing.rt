ghost use Rattle.std.specs.Prelude.{◌≡◌, ◌≤◌, ◌<◌, ◌+◌, ◌^◌, [], IfOk, IfErr, MatchResult, slice_index_or, length};
ghost use Rattle.base.specs.Ends.{MarksFault};
ghost use Rattle.tables.specs.Tables.{baseline_of};
ghost use Rattle.record_lines.specs.Cells.{cell_at, FitsCell, IsInWhole};
ghost use Rattle.record.specs.View.{IsRecordKept};
ghost use Rattle.record.specs.Recordable.{AreWhole};
ghost use Rattle.record.specs.Text.{changed_cells, is_changed};
ghost use Rattle.record.specs.TextWritten.{WritesText, WritesFrontOfText};
ghost use Rattle.record.specs.inner.Pieces.{IsPiece, pieces, head_piece, value_piece, cells_piece};
ghost use Rattle.record.specs.inner.Pieces.{cell_piece, entries_piece, end_piece};
ghost use Rattle.record.specs.inner.Pieces.{IsOut, IsCutOff, PieceFits};

use crate::recording::Recording;
use base::controller::Protocol;
use base::text::Text;
use base::{Shape, Sink, put_all};
use record_lines::{Cell, cell_line, told_line};
use tables::{CELLS, CellPlace, Tables};
use thiserror::Error;

/// A sink failed before it had all of a recording's text.
#[derive(Clone, Copy, Debug, PartialEq, Eq, Error)]
#[error("a device failed after {written} bytes")]
pub struct WriteFault {
    /// How many bytes of the text went out.
    pub written: u64,
}

impl Recording {
    /// Puts the recording's text in version 2 into a sink. It takes no memory.
    ///
    /// It is refused only where the sink failed, and then exactly the first `written` bytes of the text went out.
    pub fn write<S: Sink>(&self, sink: &mut S) -> Result<(), WriteFault>
        ensures written { MatchResult result (λ _. WritesText (S.taken sink.old) (S.taken sink.new) self.now)
            (λ fault. WritesFrontOfText (S.taken sink.old) (S.taken sink.new) self.now fault.written) }
        ensures mark { MarksFault (S.has_failed sink.old) result (S.has_failed sink.new) }
    {
        let own = Tables::baseline_of(self.protocol());
        let changed = count_changed(&self.tables(), &own);
        let mut written = 0;
        for number in 0..self.count_of_pieces() {
            let piece = self.piece(number, changed, &own);
            written = put_piece(sink, written, piece.as_slice())?;
        }
        Ok(())
    }

    /// How many pieces the text has: one for each opening value, cell and entry, and what stands before, between and
    /// behind them.
    fn count_of_pieces(&self) -> usize
        ensures count { result ≡ length (pieces self.now) }
        ensures few { result ≤ 1065724 }
        ensures kept { IsRecordKept self.now }
    {
        self.opening().len() + CELLS + self.entries().len() + 4
    }

    /// The piece of this number of the text, where so many cells differ from the protocol's own.
    #[inline(always)]
    fn piece(&self, number: usize, changed: u64, own: &Tables) -> Text
        requires own { own.now ≡ baseline_of self.now.tables.protocol }
        requires within { number < length (pieces self.now) }
        requires changed { changed ≡ length (changed_cells self.now.tables) }
        ensures piece { IsPiece (slice_index_or (pieces self.now) number []) result }
        ensures fits { PieceFits self.now number }
    {
        let (opening, entries) = (self.opening(), self.entries());
        let cells = opening.len() + 1;
        let count = cells + CELLS + 1;
        if number == 0 {
            head(self.protocol(), self.shape(), self.seats())
        } else if number < cells {
            value(opening[number - 1])
        } else if number == cells {
            cells_head(changed)
        } else if number < count {
            cell_if_changed(
                &self.tables(),
                own,
                CellPlace::with_number(number - cells - 1),
            )
        } else if number == count {
            entries_head(entries.len() as u64)
        } else if number < count + 1 + entries.len() {
            told_line(self.told(number - count - 1))
        } else {
            end()
        }
    }
}

/// The lines of the header, the protocol, the shape and the seats, and the first word of the next.
fn head(protocol: Protocol, shape: Shape, seats: u32) -> Text
    ensures { IsPiece (head_piece protocol shape seats) result }
{
    let mut text = Text::new();
    text.push(b"msi-recording 2\nprotocol ");
    text.push(protocol.name().as_bytes());
    text.push(b"\nshape");
    text.push_number(u64::from(shape.caches()));
    text.push_number(u64::from(shape.blocks()));
    text.push(b"\nseats");
    text.push_number(u64::from(seats));
    text.push(b"\nopening");
    text
}

/// An opening value, with a blank before it.
fn value(value: u64) -> Text
    ensures piece { IsPiece (value_piece value) result }
    ensures fits { value < 2 ^ 64 }
{
    let mut text = Text::new();
    text.push_number(value);
    text
}

/// The end of the line of the opening values, and the line that says how many cells follow.
fn cells_head(changed: u64) -> Text
    ensures { IsPiece (cells_piece changed) result }
{
    let mut text = Text::new();
    text.push(b"\ncells");
    text.push_number(changed);
    text.push(b"\n");
    text
}

/// The line of a cell, if it differs from the protocol's own, and else nothing.
fn cell_if_changed(tables: &Tables, own: &Tables, place: CellPlace) -> Text
    requires { own.now ≡ baseline_of tables.now.protocol }
    ensures { IsPiece (cell_piece tables.now place) result }
{
    if is_changed(tables, own, place) {
        cell_line(&Cell::at(tables, place))
    } else {
        Text::new()
    }
}

/// The line that says how many entries follow.
fn entries_head(count: u64) -> Text
    ensures { IsPiece (entries_piece count) result }
{
    let mut text = Text::new();
    text.push(b"entries");
    text.push_number(count);
    text.push(b"\n");
    text
}

/// The last line.
fn end() -> Text
    ensures { IsPiece end_piece result }
{
    let mut text = Text::new();
    text.push(b"end\n");
    text
}

/// Puts a text into a sink behind so many bytes, and answers how many it are then.
fn put_piece<S: Sink>(sink: &mut S, already: u64, piece: &[u8]) -> Result<u64, WriteFault>
    requires { already + length piece.now < 2 ^ 64 }
    ensures ok { IfOk result (λ total. IsOut (S.taken sink.old) (S.taken sink.new) piece.now already total) }
    ensures err { IfErr result (λ fault. IsCutOff (S.taken sink.old) (S.taken sink.new) piece.now already fault.written) }
    ensures mark { MarksFault (S.has_failed sink.old) result (S.has_failed sink.new) }
{
    match put_all(sink, piece) {
        Ok(()) => Ok(already + piece.len() as u64),
        Err(fault) => Err(WriteFault {
            written: already + fault.written as u64,
        }),
    }
}

/// Whether the cell at a place differs from the protocol's own.
fn is_changed(tables: &Tables, own: &Tables, place: CellPlace) -> bool
    requires { own.now ≡ baseline_of tables.now.protocol }
    ensures changed { result ≡ is_changed tables.now place }
    ensures fits { FitsCell (cell_at tables.now place) }
    ensures whole { IsInWhole tables.now place }
{
    !Cell::at(tables, place).is_in(own)
}

/// How many cells differ from the protocol's own.
fn count_changed(tables: &Tables, own: &Tables) -> u64
    requires { own.now ≡ baseline_of tables.now.protocol }
    ensures count { result ≡ length (changed_cells tables.now) }
    ensures few { result ≤ 184 }
    ensures whole { AreWhole tables.now }
{
    let mut count = 0;
    for number in 0..CELLS {
        if is_changed(tables, own, CellPlace::with_number(number)) {
            count += 1;
        }
    }
    count
}
