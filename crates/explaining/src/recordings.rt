use crate::explanation::Explanation;
use crate::lines::line_of;
use crate::quoting::Quoted;
use crate::recorded::{tell_cell, tell_entry, tell_opening, tell_protocol};
use crate::steps::tell_return;
use base::controller::Protocol;
use base::text::{cut, small_number_of};
use base::{MOST_BLOCKS, MOST_CACHES};
use record::{MOST_ENTRIES, MOST_SEATS, ReadKind};
use std::alloc::Global;

/// What was due at a line of a recording. Cells and entries have their numbers, counted from 0.
#[derive(Clone, Copy, PartialEq, Eq)]
enum DueLine {
    Header,
    Protocol,
    Shape,
    Seats,
    Opening,
    CellCount,
    Cell(usize),
    EntryCount,
    Entry(usize),
    End,
    Nothing,
}

/// What the lines of a recording tell that stand in front of one.
#[derive(Clone, Copy)]
struct Head {
    is_second: bool,
    protocol: Protocol,
    blocks: u32,
    seats: u32,
    cells: u32,
    entries: u32,
    /// The number of the line that tells how many cells there are.
    cells_at: usize,
    /// The number of the line that tells how many entries there are.
    entries_at: usize,
}

impl Head {
    fn of(bytes: &[u8]) -> Head {
        let is_second = line_of(bytes, 1) == b"msi-recording 2".as_slice();
        let (shape_at, cells_at) = if is_second { (3, 6) } else { (2, 4) };
        let cells = number_in(line_of(bytes, cells_at), 1);
        let entries_at = (cells as usize).saturating_add(cells_at + 1);
        Head {
            is_second,
            protocol: protocol_in(bytes, is_second),
            blocks: number_in(line_of(bytes, shape_at), 2),
            seats: if is_second {
                number_in(line_of(bytes, 4), 1)
            } else {
                0
            },
            cells,
            entries: number_in(line_of(bytes, entries_at), 1),
            cells_at,
            entries_at,
        }
    }

    /// What was due at a line, where all lines before were as was due.
    fn due_at(&self, line: usize) -> DueLine {
        if line <= self.cells_at {
            return self.due_in_front(line);
        }
        if line < self.entries_at {
            return DueLine::Cell(line.saturating_sub(self.cells_at + 1));
        }
        if line == self.entries_at {
            return DueLine::EntryCount;
        }
        let entry = line.saturating_sub(self.entries_at + 1);
        let entries = self.entries as usize;
        if entry < entries {
            return DueLine::Entry(entry);
        }
        if entry == entries {
            DueLine::End
        } else {
            DueLine::Nothing
        }
    }

    fn due_in_front(&self, line: usize) -> DueLine {
        match (self.is_second, line) {
            (_, 0 | 1) => DueLine::Header,
            (true, 2) => DueLine::Protocol,
            (true, 3) | (false, 2) => DueLine::Shape,
            (true, 4) => DueLine::Seats,
            (true, 5) | (false, 3) => DueLine::Opening,
            _ => DueLine::CellCount,
        }
    }

    /// The most caches, blocks and bytes of a line of its version.
    fn limits(&self) -> (u32, u32, usize) {
        if self.is_second {
            (MOST_CACHES, MOST_BLOCKS, 1_400_000)
        } else {
            (1024, 4096, 90_000)
        }
    }
}

fn protocol_in(bytes: &[u8], is_second: bool) -> Protocol {
    let (_, name) = cut(line_of(bytes, 2));
    match name {
        Some(name) if is_second => Protocol::named(name).unwrap_or(Protocol::Msi),
        _ => Protocol::Msi,
    }
}

/// The number that is a word of a line, counted from 0, and 0 where it is none.
fn number_in(line: &[u8], place: usize) -> u32 {
    let mut rest = Some(line);
    for _ in 0..place {
        let Some(text) = rest else {
            return 0;
        };
        rest = cut(text).1;
    }
    match rest {
        Some(text) => small_number_of(cut(text).0).unwrap_or(0),
        None => 0,
    }
}

/// Why a recording is refused at a line, counted from 1, and what was due there. The bytes are the recording's, up to that
/// line's end at least.
pub fn explain_recording(alloc: Global, bytes: &[u8], number: u64, kind: ReadKind) -> Explanation {
    let mut told = Explanation::new(alloc);
    let number = number as usize;
    let head = Head::of(bytes);
    let due = head.due_at(number);
    let line = line_of(bytes, number);
    told.line(format_args!("the line: {}", Quoted(line)));
    tell_return(&mut told, line);
    tell_due(&mut told, &head, due);
    tell_kind(&mut told, &head, due, kind, line);
    if kind == ReadKind::BadLine || kind == ReadKind::BadOutcome {
        let before = line_of(bytes, number.saturating_sub(1));
        tell_wrong(&mut told, &head, due, line, before);
    }
    told
}

/// Tells what is due at a line.
fn tell_due(told: &mut Explanation, head: &Head, due: DueLine) {
    let (caches, blocks, _) = head.limits();
    match due {
        DueLine::Header => told.line("due is: msi-recording 2 | msi-recording 1"),
        DueLine::Protocol => told.line("due is: protocol msi | protocol msi+e"),
        DueLine::Shape => told.line(format_args!(
            "due is: shape CACHES BLOCKS, with 1 to {caches} caches and 1 to {blocks} blocks"
        )),
        DueLine::Seats => told.line(format_args!("due is: seats N, with 0 to {MOST_SEATS} seats")),
        DueLine::Opening => told.line(format_args!(
            "due is: opening and {} values, one for each block",
            head.blocks
        )),
        DueLine::CellCount => told.line(format_args!(
            "due is: cells N, with 0 to {} cells",
            most_cells(head)
        )),
        DueLine::Cell(number) => told.line(format_args!(
            "due is: cell {number} of {}, counted from 0, in which the tables differ from the own of {}",
            head.cells,
            head.protocol.name()
        )),
        DueLine::EntryCount => told.line(format_args!(
            "due is: entries N, with 0 to {MOST_ENTRIES} entries"
        )),
        DueLine::Entry(number) => told.line(format_args!(
            "due is: entry {number} of {}, counted from 0: {}",
            head.entries,
            entry_form(head.seats)
        )),
        DueLine::End => told.line(format_args!(
            "due is: end, as the entries that line {} tells are all there",
            head.entries_at
        )),
        DueLine::Nothing => told.line("due is: nothing, as the line before is the last one"),
    }
}

fn entry_form(seats: u32) -> &'static str {
    if seats > 0 {
        "by K STEP = OUTCOME"
    } else {
        "STEP = OUTCOME"
    }
}

fn most_cells(head: &Head) -> u32 {
    match head.protocol {
        Protocol::Msi => 160,
        Protocol::MsiE => 184,
    }
}

/// Tells what the kind of a refusal says, beside what was due.
fn tell_kind(told: &mut Explanation, head: &Head, due: DueLine, kind: ReadKind, line: &[u8]) {
    let (_, _, bytes) = head.limits();
    let most = if due == DueLine::Header {
        90_000
    } else {
        bytes
    };
    match kind {
        ReadKind::Truncated => told.line("the input ends here, without the line's LF"),
        ReadKind::OverLimit if line.len() > most => {
            told.line(format_args!("the line has more than {most} bytes, which are the most"));
        }
        ReadKind::OverLimit => told.line("a number of the line is over its limit"),
        ReadKind::UnknownProtocol => tell_protocol(told, line),
        ReadKind::CountDiffers => tell_count(told, head, due),
        _ => {}
    }
}

/// Tells how many entries are told, and how many there are.
fn tell_count(told: &mut Explanation, head: &Head, due: DueLine) {
    let (at, entries) = (head.entries_at, head.entries);
    match due {
        DueLine::Entry(number) => told.line(format_args!(
            "entries that line {at} tells: {entries}, entries in front of the end: {number}"
        )),
        _ => told.line(format_args!(
            "entries that line {at} tells: {entries}, and here stands one more"
        )),
    }
}

/// Tells what is wrong with a line itself.
fn tell_wrong(told: &mut Explanation, head: &Head, due: DueLine, line: &[u8], before: &[u8]) {
    match due {
        DueLine::Opening => tell_opening(told, head.blocks, line),
        DueLine::Cell(number) => {
            let before = if number == 0 { None } else { Some(before) };
            tell_cell(told, head.protocol, line, before);
        }
        DueLine::Entry(_) => tell_entry(told, head.seats, line),
        _ => {}
    }
}
