use crate::ending::{put_end, put_end_objects};
use crate::objects::put_object;
use crate::output::NotingOutput;
use crate::starting::put_start;
use base::NoMemory;
use command_output::Fault;
use record::{Entry, Recording};
use retelling::{
    CellText, Cut, Excerpt, Happening, MetCell, SeatText, SeenController, Shown, Story, Trip,
    put_holdings, put_home, put_line, put_message, seat_at, waiting_at,
};
use sheet::Sheet;
use std::alloc::Global;
use std::io::Write;

/// What the columns have. The first has the numbers of the entries, and a table for the eye leaves that out.
const HEADINGS: [&str; 7] = [
    "step", "outcome", "cell", "serves", "changes", "sends", "finds",
];
/// How many columns there are with that.
const COLUMNS: usize = 8;
/// A text that is longer than this doesn't make its column wider.
const WIDEST: usize = 100;

/// How the lines of a table are laid out.
#[derive(Clone, Copy, Debug, PartialEq, Eq)]
pub enum TableLayout {
    /// In columns as wide as their texts, behind the state at the part's start: for the eye.
    Columns,
    /// With a tab between two columns, behind a line of headings.
    Tabs,
    /// As an object in JSON, with a key for each column.
    Objects,
}

/// Makes the steps of a recording again, and writes a part of them as a table, one line a step.
pub fn show<W: Write>(
    alloc: Global,
    recording: &Recording,
    part: Excerpt,
    layout: TableLayout,
    output: &mut W,
) -> Result<Shown, Fault> {
    let mut table = Table::open(alloc, layout);
    if layout == TableLayout::Columns {
        table.measure(alloc, recording, part)?;
    }
    let mut output = NotingOutput::new(output);
    let shown = table.print(alloc, recording, part, &mut output)?;
    match output.fault() {
        None => Ok(shown),
        Some(fault) => Err(fault),
    }
}

/// The lines of a table, of which one at a time is kept.
#[derive(Drop)]
struct Table {
    layout: TableLayout,
    /// The texts of a line's columns, one behind the other.
    sheet: Sheet,
    /// Where those columns end that are filled.
    ends: [usize; COLUMNS],
    filled: usize,
    widths: [usize; COLUMNS],
    /// An object's text of what a step changed.
    changes: Sheet,
}

impl Table {
    fn open(alloc: Global, layout: TableLayout) -> Table {
        Table {
            layout,
            sheet: Sheet::new(alloc),
            ends: [0; COLUMNS],
            filled: 0,
            widths: [0; COLUMNS],
            changes: Sheet::new(alloc),
        }
    }

    /// Makes each column as wide as the texts of a part's lines are.
    fn measure(
        &mut self,
        alloc: Global,
        recording: &Recording,
        part: Excerpt,
    ) -> Result<(), NoMemory> {
        let mut story = Story::open(alloc, recording)?;
        self.measure_all(&mut story, recording, part)
    }

    fn measure_all(
        &mut self,
        story: &mut Story,
        recording: &Recording,
        part: Excerpt,
    ) -> Result<(), NoMemory> {
        let cut = part.cut(recording.entries());
        story.skip(cut.before)?;
        self.fill_headings();
        self.widen();
        for entry in cut.chosen {
            let seat = seat_at(recording, story.number());
            let happening = story.advance(*entry, seat)?;
            if part.is_of(happening.step.block()) {
                self.fill(story, &happening);
                self.widen();
            }
        }
        Ok(())
    }

    fn widen(&mut self) {
        let mut start = 0;
        for (end, width) in self.ends.iter().zip(self.widths.iter_mut()) {
            let length = end.saturating_sub(start);
            if length <= WIDEST {
                *width = length.max(*width);
            }
            start = *end;
        }
    }

    /// Writes the state at the start of a part, and its lines. Where the output notes a fault, the rest is left out.
    fn print<W: Write>(
        &mut self,
        alloc: Global,
        recording: &Recording,
        part: Excerpt,
        output: &mut NotingOutput<'_, W>,
    ) -> Result<Shown, NoMemory> {
        let mut story = Story::open(alloc, recording)?;
        self.print_all(alloc, &mut story, recording, part, output)
    }

    fn print_all<W: Write>(
        &mut self,
        alloc: Global,
        story: &mut Story,
        recording: &Recording,
        part: Excerpt,
        output: &mut NotingOutput<'_, W>,
    ) -> Result<Shown, NoMemory> {
        let cut = part.cut(recording.entries());
        story.skip(cut.before)?;
        if self.layout == TableLayout::Columns {
            self.fill_start(alloc, story, part, cut.chosen)?;
            output.put(self.sheet.text()?.as_bytes());
        }
        if self.layout != TableLayout::Objects {
            self.fill_headings();
            self.write_line(output);
        }
        let shown = self.print_lines(story, recording, part, cut.chosen, output)?;
        if self.fill_end(alloc, story, part, cut)? && output.fault().is_none() {
            output.put(self.sheet.text()?.as_bytes());
        }
        Ok(shown)
    }

    /// Puts what waits behind the last entry of a recording in place of what is kept, if the part has that entry. Between tabs there
    /// is no room for it.
    fn fill_end(
        &mut self,
        alloc: Global,
        story: &Story,
        part: Excerpt,
        cut: Cut<'_>,
    ) -> Result<bool, NoMemory> {
        if !cut.behind.is_empty() || self.layout == TableLayout::Tabs {
            return Ok(false);
        }
        let blocks = part.blocks(alloc, story.world().shape(), cut.chosen)?;
        let waiting = waiting_at(alloc, story, blocks.as_slice())?;
        self.clear();
        match self.layout {
            TableLayout::Objects => put_end_objects(waiting.whole()?, &mut self.sheet),
            _ => put_end(waiting.whole()?, &mut self.sheet),
        }
        Ok(true)
    }

    /// Puts the state at the start of a part in place of what is kept.
    fn fill_start(
        &mut self,
        alloc: Global,
        story: &Story,
        part: Excerpt,
        chosen: &[Entry],
    ) -> Result<(), NoMemory> {
        let blocks = part.blocks(alloc, story.world().shape(), chosen)?;
        self.clear();
        put_start(story, blocks.as_slice(), &mut self.sheet);
        Ok(())
    }

    /// Writes the lines of these entries, the next ones of a story.
    fn print_lines<W: Write>(
        &mut self,
        story: &mut Story,
        recording: &Recording,
        part: Excerpt,
        chosen: &[Entry],
        output: &mut NotingOutput<'_, W>,
    ) -> Result<Shown, NoMemory> {
        let mut shown = Shown::nothing();
        for entry in chosen {
            if output.fault().is_some() {
                break;
            }
            let seat = seat_at(recording, story.number());
            let happening = story.advance(*entry, seat)?;
            if part.is_of(happening.step.block()) {
                shown.note(&happening);
                self.fill(story, &happening);
                self.write_line(output);
            }
        }
        Ok(shown)
    }

    /// Writes the line that is kept.
    fn write_line<W: Write>(&self, output: &mut NotingOutput<'_, W>) {
        match (self.layout, self.sheet.text()) {
            (TableLayout::Columns, Ok(line)) => self.write_columns(line.as_bytes(), output),
            (TableLayout::Tabs, Ok(line)) => self.write_tabs(line.as_bytes(), output),
            (TableLayout::Objects, Ok(line)) => output.put(line.as_bytes()),
            (_, Err(NoMemory)) => output.fail(Fault::NoMemory),
        }
        output.put(b"\n");
    }

    fn write_tabs<W: Write>(&self, line: &[u8], output: &mut NotingOutput<'_, W>) {
        let (mut start, mut between): (usize, &[u8]) = (0, b"");
        for end in self.ends {
            output.put(between);
            output.put(line.get(start..end).unwrap_or(b""));
            between = b"\t";
            start = end;
        }
    }

    fn write_columns<W: Write>(&self, line: &[u8], output: &mut NotingOutput<'_, W>) {
        let (mut start, mut spaces) = (0, 0);
        for (end, width) in self.ends.iter().zip(self.widths.iter()) {
            let text = line.get(start..*end).unwrap_or(b"");
            if !text.is_empty() {
                put_spaces(output, spaces);
                output.put(text);
                spaces = 0;
            }
            spaces = width
                .saturating_sub(text.len())
                .saturating_add(spaces)
                .saturating_add(2);
            start = *end;
        }
    }

    fn clear(&mut self) {
        self.sheet.clear();
        self.filled = 0;
    }

    /// Ends the column that is being filled.
    fn end_column(&mut self) {
        if let Some(end) = self.ends.get_mut(self.filled) {
            *end = self.sheet.len();
        }
        self.filled = self.filled.saturating_add(1);
    }

    fn fill_headings(&mut self) {
        self.clear();
        if self.layout == TableLayout::Tabs {
            self.sheet.push("entry");
        }
        self.end_column();
        for heading in HEADINGS {
            self.sheet.push(heading);
            self.end_column();
        }
    }

    /// Puts the texts of a step's line in place of what is kept.
    fn fill(&mut self, story: &Story, happening: &Happening) {
        self.clear();
        if self.layout == TableLayout::Objects {
            self.fill_object(story, happening);
        } else {
            self.fill_columns(story, happening);
        }
    }

    fn fill_object(&mut self, story: &Story, happening: &Happening) {
        self.changes.clear();
        put_changes(story, happening, &mut self.changes);
        match self.changes.text() {
            Ok(changes) => put_object(story, happening, changes, &mut self.sheet),
            Err(NoMemory) => self.sheet.refuse(),
        }
    }

    fn fill_columns(&mut self, story: &Story, happening: &Happening) {
        self.sheet.put(&happening.number);
        self.end_column();
        self.sheet.put(&SeatText(happening.seat));
        self.sheet.put(&happening.step);
        self.end_column();
        self.sheet.put(&happening.outcome);
        self.end_column();
        if let Some(cell) = happening.cell {
            put_cell(cell, happening.acted.is_some(), &mut self.sheet);
        }
        self.end_column();
        if let Some(trip) = happening.served {
            put_message(trip.message, &mut self.sheet);
        }
        self.end_column();
        put_changes(story, happening, &mut self.sheet);
        self.end_column();
        self.put_sent(story.sent());
        self.end_column();
        self.put_finds(happening);
        self.end_column();
    }

    fn put_sent(&mut self, sent: &[Trip]) {
        let mut before = "";
        for trip in sent {
            self.sheet.push(before);
            put_message(trip.message, &mut self.sheet);
            before = "; ";
        }
    }

    fn put_finds(&mut self, happening: &Happening) {
        let mut before = "";
        if happening.differs() {
            self.sheet.push("told ");
            self.sheet.put(&happening.told);
            before = "; ";
        }
        if let Some(violation) = happening.violation {
            self.sheet.push(before);
            self.sheet.push("violation ");
            self.sheet.put(&violation);
        }
    }
}

/// Puts a cell, marked where it isn't the protocol's own, with the message that stays where the cell hasn't acted.
fn put_cell(cell: MetCell, has_acted: bool, sheet: &mut Sheet) {
    sheet.put(&CellText(cell.place));
    if !cell.is_own {
        sheet.push(" *");
    }
    if let Some(message) = cell.message.filter(|_| !has_acted) {
        sheet.push(": ");
        put_message(message, sheet);
    }
}

fn put_changes(story: &Story, happening: &Happening, sheet: &mut Sheet) {
    match happening.acted {
        Some((SeenController::Line(cache, before), SeenController::Line(_, after))) => {
            put_line(cache, before, after, sheet);
        }
        Some((SeenController::Home(before, ..), SeenController::Home(after, owner, memory))) => {
            put_home(before, after, owner, sheet);
            put_holdings(story.world(), happening.step.block(), memory, sheet);
        }
        _ => {}
    }
}

fn put_spaces<W: Write>(output: &mut NotingOutput<'_, W>, count: usize) {
    for _ in 0..count {
        output.put(b" ");
    }
}
