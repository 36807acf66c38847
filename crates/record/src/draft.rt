ghost use Rattle.std.specs.Prelude.{◌≡◌, ◌≤◌, ◌+◌, ℕ, Some, None, IfOk, IfErr, OnOk};
ghost use Rattle.base.specs.Words.{words};
ghost use Rattle.record_lines.specs.declared.due.Due.TheVariants as due;
ghost use Rattle.record_lines.specs.Grammar.{FitsTold, Leads};
ghost use Rattle.record_lines.specs.Refused.{IsFaultOfLine};
ghost use Rattle.record_lines.specs.Text.{told_words};
ghost use Rattle.record.specs.inner.Drafts.{Kept, kept, recorded, HasRead, HasRoom, HasTakenEntry, HasTakenLine, IsReadTo, IsTaken};
ghost use Rattle.record.specs.inner.Holding.{holds};
ghost use Rattle.record_lines.specs.Reading.{IsFaultOfTold};
ghost use Rattle.record.specs.Telling.{HasRoomUpTo};

use crate::entries::{Entries, KeptEntries};
use crate::reading::{listed_cell, with_cell};
use crate::recording::{MOST_ENTRIES, MOST_SEATS, Recording};
use base::{MOST_BLOCKS, NoMemory, Shape};
use record_lines::{
    Due, ReadKind, TextHead, Told, Version, count_of, is_end, most_cells, opening_of, protocol_of,
    shape_of, told_of, version_of,
};
use std::alloc::Global;
use tables::Tables;

/// What has been read of a recording in front of its entries.
#[derive(Drop)]
pub(crate) struct Draft {
    version: Version,
    seats: u32,
    shape: Shape,
    tables: Tables,
    opening: Vec<u64>,
}

impl Draft {
    /// Nothing read yet, and room for the opening values of as many blocks as there can be.
    pub(crate) fn open(alloc: Global) -> Result<Draft, NoMemory>
        ensures read { IfOk result (λ draft. IsReadTo due.Header (kept draft)) }
        ensures room { IfOk result HasRoom }
    {
        let opening = Vec::with_capacity(alloc, MOST_BLOCKS as usize)?;
        Ok(Draft {
            version: Version::One,
            seats: 0,
            // the smallest, until the line of the shape is read
            shape: Shape::new(1, 1).unwrap(),
            tables: Tables::baseline(),
            opening,
        })
    }

    /// Takes a line where this is due, and answers what is due behind it.
    pub(crate) fn accept<N: Entries>(
        &mut self,
        due: Due,
        line: &[u8],
        entries: &mut N,
    ) -> Result<Due, ReadKind>
        requires read { (r : Kept) × HasRead N.tells due self.old entries.old r }
        requires room { HasRoom self.old }
        requires space { N.has_room entries.old 1 }
        ensures ok { (r : Kept) → HasRead N.tells due self.old entries.old r →
            IfOk result (λ next. HasTakenLine N.tells due r (words line.now) next self.new entries.new) }
        ensures err { IfErr result (IsFaultOfLine due (words line.now)) }
        ensures room { HasRoom self.new }
        ensures space { (n : ℕ) → HasRoomUpTo N.has_room entries.old (n + 1) → HasRoomUpTo N.has_room entries.new n }
    {
        match due {
            Due::Header => self.accept_header(line),
            Due::ProtocolLine => self.accept_protocol(line),
            Due::ShapeLine(form) => self.accept_shape(line, form),
            Due::SeatsLine(form, shape) => self.accept_seats(line, form, shape),
            Due::OpeningLine(form, shape) => self.accept_opening(line, form, shape),
            Due::CellCount(form) => cell_count_due(line, form),
            Due::CellLine { form, left, from } => self.accept_cell(line, form, left, from),
            Due::EntryCount(form) => self.accept_entry_count(line, form, entries),
            Due::EntryLine(form, left) => accept_entry(line, form, left, entries),
            Due::EndLine(form) => end_due(line, form),
            Due::Nothing => Err(ReadKind::BadLine),
        }
    }

    /// Takes the first line.
    fn accept_header(&mut self, line: &[u8]) -> Result<Due, ReadKind>
        requires read { IsReadTo due.Header (kept self.old) }
        ensures ok { IfOk result (λ next. IsTaken due.Header (kept self.old) (words line.now) next (kept self.new)) }
        ensures err { IfErr result (IsFaultOfLine due.Header (words line.now)) }
        ensures room { HasRoom self.old → HasRoom self.new }
    {
        let Some(version) = version_of(line) else {
            return Err(ReadKind::BadHeader);
        };
        self.version = version;
        Ok(Due::behind_header(version))
    }

    /// Takes the line of the protocol.
    fn accept_protocol(&mut self, line: &[u8]) -> Result<Due, ReadKind>
        requires read { IsReadTo due.ProtocolLine (kept self.old) }
        ensures ok { IfOk result (λ next. IsTaken due.ProtocolLine (kept self.old) (words line.now) next (kept self.new)) }
        ensures err { IfErr result (IsFaultOfLine due.ProtocolLine (words line.now)) }
        ensures room { HasRoom self.old → HasRoom self.new }
    {
        let protocol = protocol_of(line)?;
        self.tables = Tables::baseline_of(protocol);
        Ok(Due::ShapeLine(TextHead {
            version: Version::Two,
            protocol,
            seats: 0,
        }))
    }

    /// Takes the line of the shape.
    fn accept_shape(&mut self, line: &[u8], form: TextHead) -> Result<Due, ReadKind>
        requires read { IsReadTo (due.ShapeLine form) (kept self.old) }
        ensures ok { IfOk result (λ next. IsTaken (due.ShapeLine form) (kept self.old) (words line.now) next (kept self.new)) }
        ensures err { IfErr result (IsFaultOfLine (due.ShapeLine form) (words line.now)) }
        ensures room { HasRoom self.old → HasRoom self.new }
    {
        self.shape = shape_of(form.version, line)?;
        Ok(Due::behind_shape(form, self.shape))
    }

    /// Takes the line of the seats.
    fn accept_seats(&mut self, line: &[u8], form: TextHead, shape: Shape) -> Result<Due, ReadKind>
        requires read { IsReadTo (due.SeatsLine form shape) (kept self.old) }
        ensures ok { IfOk result (λ next. IsTaken (due.SeatsLine form shape) (kept self.old) (words line.now) next (kept self.new)) }
        ensures err { IfErr result (IsFaultOfLine (due.SeatsLine form shape) (words line.now)) }
        ensures room { HasRoom self.old → HasRoom self.new }
    {
        self.seats = count_of(line, b"seats".as_slice(), MOST_SEATS)?;
        let form = TextHead {
            version: form.version,
            protocol: form.protocol,
            seats: self.seats,
        };
        Ok(Due::OpeningLine(form, shape))
    }

    /// Takes the line of the opening values.
    fn accept_opening(&mut self, line: &[u8], form: TextHead, shape: Shape) -> Result<Due, ReadKind>
        requires read { IsReadTo (due.OpeningLine form shape) (kept self.old) }
        requires room { HasRoom self.old }
        ensures ok { IfOk result (λ next. IsTaken (due.OpeningLine form shape) (kept self.old) (words line.now) next (kept self.new)) }
        ensures err { IfErr result (IsFaultOfLine (due.OpeningLine form shape) (words line.now)) }
        ensures room { HasRoom self.old → HasRoom self.new }
    {
        opening_of(&mut self.opening, line, shape.blocks())?;
        Ok(Due::CellCount(form))
    }

    /// Takes the line of a cell, of which so many are still to come.
    fn accept_cell(
        &mut self,
        line: &[u8],
        form: TextHead,
        left: u32,
        from: usize,
    ) -> Result<Due, ReadKind>
        requires read { IsReadTo (due.CellLine form left from) (kept self.old) }
        ensures ok { IfOk result (λ next. IsTaken (due.CellLine form left from) (kept self.old) (words line.now) next (kept self.new)) }
        ensures err { IfErr result (IsFaultOfLine (due.CellLine form left from) (words line.now)) }
        ensures room { HasRoom self.old → HasRoom self.new }
    {
        let Some(cell) = listed_cell(line, form.protocol, &self.tables, from) else {
            return Err(ReadKind::BadLine);
        };
        self.tables = with_cell(self.tables, &cell);
        Ok(Due::cells(form, left - 1, cell.place().number() + 1))
    }

    /// Takes the line that says how many entries there are.
    fn accept_entry_count<N: Entries>(
        &self,
        line: &[u8],
        form: TextHead,
        entries: &mut N,
    ) -> Result<Due, ReadKind>
        requires read { IsReadTo (due.EntryCount form) (kept self.now) }
        requires none { N.tells entries.old None }
        ensures ok { IfOk result (λ next. IsTaken (due.EntryCount form) (kept self.now) (words line.now) next (kept self.now)) }
        ensures told { OnOk result (N.tells entries.new (Some (recorded (kept self.now)))) }
        ensures err { IfErr result (IsFaultOfLine (due.EntryCount form) (words line.now)) }
        ensures space { (n : ℕ) → N.has_room entries.old n → N.has_room entries.new n }
    {
        let due = entry_count_due(line, form)?;
        entries.open(self.shape, self.tables, self.opening.as_slice());
        Ok(due)
    }

    /// The recording, of which all was read, with these entries.
    pub(crate) fn recording(self, kept: KeptEntries) -> Recording
        requires read { (r : Kept) × HasRead holds due.Nothing self kept r }
        ensures recording { (r : Kept) → HasRead holds due.Nothing self kept r → result ≡ recorded r }
    {
        Recording::of(
            self.seats,
            self.shape,
            self.tables,
            self.opening,
            kept.entries,
            kept.owners,
        )
    }
}

/// Takes the line of an entry, of which so many are still to come.
fn accept_entry<N: Entries>(
    line: &[u8],
    form: TextHead,
    left: u32,
    entries: &mut N,
) -> Result<Due, ReadKind>
    requires read { (r : Kept) × IsReadTo (due.EntryLine form left) r × N.tells entries.old (Some (recorded r)) }
    requires space { N.has_room entries.old 1 }
    ensures ok { (r : Kept) → IsReadTo (due.EntryLine form left) r → N.tells entries.old (Some (recorded r)) →
        IfOk result (λ next. HasTakenEntry N.tells (due.EntryLine form left) r (words line.now) next entries.new) }
    ensures err { IfErr result (IsFaultOfLine (due.EntryLine form left) (words line.now)) }
    ensures space { (n : ℕ) → HasRoomUpTo N.has_room entries.old (n + 1) → HasRoomUpTo N.has_room entries.new n }
{
    let told = told_due(line, form.seats)?;
    entries.add(told);
    Ok(Due::entries(form, left - 1))
}

/// How many cells are due.
fn cell_count_due(line: &[u8], form: TextHead) -> Result<Due, ReadKind>
    ensures ok { IfOk result (Leads (due.CellCount form) (words line.now)) }
    ensures err { IfErr result (IsFaultOfLine (due.CellCount form) (words line.now)) }
{
    let count = count_of(line, b"cells".as_slice(), most_cells(form.protocol))?;
    Ok(Due::cells(form, count, 0))
}

/// How many entries are due.
fn entry_count_due(line: &[u8], form: TextHead) -> Result<Due, ReadKind>
    ensures ok { IfOk result (Leads (due.EntryCount form) (words line.now)) }
    ensures err { IfErr result (IsFaultOfLine (due.EntryCount form) (words line.now)) }
{
    let count = count_of(line, b"entries".as_slice(), MOST_ENTRIES as u32)?;
    Ok(Due::entries(form, count))
}

/// The entry that a line tells where one is due, of so many seats.
#[inline(always)]
fn told_due(line: &[u8], seats: u32) -> Result<Told, ReadKind>
    requires few { seats ≤ 64 }
    ensures fits { IfOk result (FitsTold seats) }
    ensures ok { IfOk result (λ told. words line.now ≡ told_words told) }
    ensures err { IfErr result (IsFaultOfTold seats (words line.now)) }
{
    match told_of(line, seats) {
        Ok(told) => Ok(told),
        Err(_) if is_end(line) => Err(ReadKind::CountDiffers),
        Err(kind) => Err(kind),
    }
}

/// Whether this is the last line.
#[cold]
#[inline(never)]
fn end_due(line: &[u8], form: TextHead) -> Result<Due, ReadKind>
    requires few { form.seats ≤ 64 }
    ensures ok { IfOk result (Leads (due.EndLine form) (words line.now)) }
    ensures err { IfErr result (IsFaultOfLine (due.EndLine form) (words line.now)) }
{
    if is_end(line) {
        return Ok(Due::Nothing);
    }
    match told_of(line, form.seats) {
        Ok(_) => Err(ReadKind::CountDiffers),
        Err(_) => Err(ReadKind::BadLine),
    }
}
