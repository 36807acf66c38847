use crate::fault::SessionFault;
use crate::kinds::kind_of;
use sheet::Sheet;
use std::alloc::Global;
use std::io;
use std::io::Write;

/// How much is told of what an output took.
#[derive(Drop)]
pub enum Telling {
    /// All of it, line by line.
    Lines,
    /// How many lines it is.
    Count,
    Nothing,
}

/// An output that keeps what it takes, and fails once it has taken as much as it has room for.
#[derive(Drop)]
pub struct Output {
    bytes: Vec<u8>,
    room: usize,
    fault: io::ErrorKind,
    telling: Telling,
}

impl Output {
    /// One that takes everything, of which all is told.
    pub fn new(alloc: Global) -> Output {
        Output {
            bytes: Vec::new(alloc),
            room: usize::MAX,
            fault: io::ErrorKind::StorageFull,
            telling: Telling::Lines,
        }
    }

    /// Takes everything again, and all of it is told. What it took is kept.
    pub fn open(&mut self) {
        self.room = usize::MAX;
        self.telling = Telling::Lines;
    }

    /// Forgets what it took.
    pub fn clear(&mut self) {
        self.bytes.clear();
    }

    /// Has so much told of what it takes.
    pub fn show(&mut self, telling: Telling) {
        self.telling = telling;
    }

    /// Has room for as little as `N KIND` says, and fails in this way then. `None` where it doesn't say so.
    pub fn narrow(&mut self, words: &str) -> Option<()> {
        let (room, kind) = words.split_once(' ')?;
        self.room = room.parse::<usize>().ok()?;
        self.fault = kind_of(kind)?;
        Some(())
    }

    /// What it took.
    pub fn bytes(&self) -> &[u8] {
        self.bytes.as_slice()
    }

    /// The same, where it is text.
    pub fn text(&self) -> Option<&str> {
        str::from_utf8(self.bytes.as_slice()).ok()
    }

    /// Tells what it took, each line behind a mark, or that it is what the command line was given.
    pub fn tell(&self, sheet: &mut Sheet, mark: &str, input: &str) -> Result<(), SessionFault> {
        let Some(text) = self.text() else {
            return Err(SessionFault::NotAText);
        };
        match self.telling {
            Telling::Nothing => tell_aside(sheet, mark, "not shown"),
            Telling::Count => tell_count(sheet, mark, text),
            Telling::Lines => tell_text(sheet, mark, text, input),
        }
        Ok(())
    }
}

impl Write for Output {
    fn write(&mut self, bytes: &[u8]) -> io::Result<usize> {
        let left = self.room.saturating_sub(self.bytes.len());
        if left == 0 && !bytes.is_empty() {
            return Err(io::Error::from(self.fault));
        }
        let count = bytes.len().min(left);
        self.bytes.extend_from_slice(&bytes[..count])?;
        Ok(count)
    }

    fn flush(&mut self) -> io::Result<()> {
        Ok(())
    }
}

/// Tells something of what was printed, which isn't part of it.
fn tell_aside(sheet: &mut Sheet, mark: &str, aside: &str) {
    sheet.push(mark);
    sheet.push("(");
    sheet.push(aside);
    sheet.push(")\n");
}

/// Tells how many lines a text has.
fn tell_count(sheet: &mut Sheet, mark: &str, text: &str) {
    sheet.push(mark);
    sheet.push("(");
    sheet.put(&text.lines().count());
    sheet.push(" lines)\n");
    tell_end(sheet, mark, text);
}

/// Tells a text, or that it is the input.
fn tell_text(sheet: &mut Sheet, mark: &str, text: &str, input: &str) {
    if text.is_empty() {
        return;
    }
    if text == input {
        tell_aside(sheet, mark, "as its input");
        return;
    }
    for line in text.strip_suffix('\n').unwrap_or(text).split('\n') {
        tell_line(sheet, mark, line);
    }
    tell_end(sheet, mark, text);
}

fn tell_line(sheet: &mut Sheet, mark: &str, line: &str) {
    sheet.push(mark);
    if !line.is_empty() {
        sheet.push(" ");
    }
    sheet.push(line);
    sheet.push("\n");
}

/// Tells where the last line of a text has no end.
fn tell_end(sheet: &mut Sheet, mark: &str, text: &str) {
    if !text.is_empty() && !text.ends_with('\n') {
        tell_aside(sheet, mark, "no LF at the end");
    }
}
