use crate::asserting::{same, same_at};
use crate::entries::{entry_of, push};
use crate::making::{shape_of, with_entry, zero};
use base::controller::Protocol;
use base::{BlockId, Buffer, CacheId, Faltering, Outcome, Place, Shape, Source, Step};
use cache_table::{CacheEntry, CacheEvent, CacheState};
use monitor::Violation;
use record::{Entry, MOST_ENTRIES, PushFault, ReadFault, ReadKind, Recording, WriteFault};
use replays::{ReplayFault, replay};
use std::alloc::Global;
use std::process::Abort;
use tables::Tables;
use world::OpenFault;

pub fn open(
    alloc: Global,
    shape: Shape,
    tables: Tables,
    opening: Vec<u64>,
) -> Result<Recording, OpenFault> {
    Recording::open(alloc, shape, tables, opening)
}

/// A recording of one block that opens at 0. Each line is a step and an outcome, with ` = ` between them.
fn recorded(
    rt: &impl Abort,
    alloc: Global,
    caches: u32,
    tables: Tables,
    lines: &[&str],
) -> Recording {
    let opening = zero(rt, alloc);
    let opened = open(alloc, shape_of(rt, caches, 1), tables, opening);
    let mut recording = opened.expect(rt, "a recording");
    push_all(rt, &mut recording, lines);
    recording
}

fn push_all(rt: &impl Abort, recording: &mut Recording, lines: &[&str]) {
    for line in lines {
        push(rt, recording, entry_of(rt, line)).expect(rt, "memory");
    }
}

const ONE_LOAD: [&str; 3] = [
    "ask 0 0 load = sent",
    "request 0 0 = moved",
    "response 0 0 = load 0 0",
];

pub const ONE_LOAD_TEXT: &str =
    "msi-recording 2\nprotocol msi\nshape 1 1\nseats 0\nopening 0\ncells 0\nentries 3\n\
    ask 0 0 load = sent\nrequest 0 0 = moved\nresponse 0 0 = load 0 0\nend\n";

/// The same in version 1.
pub const FIRST_TEXT: &str =
    "msi-recording 1\nshape 1 1\nopening 0\ncells 0\nentries 3\nask 0 0 load = sent\nrequest 0 0 = moved\nresponse 0 0 = load 0 0\nend\n";

const LOAD_FROM_OWNER: [&str; 8] = [
    "ask 0 0 store 7 = sent",
    "request 0 0 = moved",
    "response 0 0 = store 0 7",
    "ask 1 0 load = sent",
    "request 0 0 = moved",
    "forward 0 0 = moved",
    "response 0 0 = load 1 7",
    "response 0 0 = moved",
];

/// Compares the text of a recording.
pub fn writes(rt: &impl Abort, alloc: Global, recording: &Recording, text: &str) {
    let mut sink = Buffer::open(alloc);
    recording.write(&mut sink).expect(rt, "memory");
    same(rt, &sink.bytes(), &text.as_bytes());
}

#[test]
fn the_text_of_changed_tables(rt: HostRuntime) {
    let mut tables = Tables::baseline();
    tables.cache = tables
        .cache
        .with(CacheState::S, CacheEvent::Inv, CacheEntry::Stall)
        .with(CacheState::I, CacheEvent::Load, CacheEntry::Blank)
        .with(CacheState::I, CacheEvent::Inv, CacheEntry::Blank);
    let changed = "msi-recording 2
protocol msi
shape 2 1
seats 0
opening 0
cells 2
cell cache I Load blank
cell cache S Inv stall
entries 0
end
";
    let recording = recorded(&rt, rt.alloc(), 2, tables, &[]);
    writes(&rt, rt.alloc(), &recording, changed);
}

/// Compares what comes through a sink that fails behind so many calls, and what the fault says of it.
fn comes_through(rt: &impl Abort, alloc: Global, recording: &Recording, most: usize, calls: u64) {
    let at = (most, calls);
    let mut sink = Faltering::over(Buffer::open(alloc), most, calls);
    let fault = recording.write(&mut sink).err();
    let out = sink.end().bytes();
    let written = out.len() as u64;
    let cut = Some(WriteFault { written });
    let expected = if written < 143 { cut } else { None };
    let is_front = ONE_LOAD_TEXT.as_bytes().starts_with(out);
    same_at(rt, &is_front, &true, &at);
    same_at(rt, &fault, &expected, &at);
}

/// Compares it wherever a sink fails.
fn comes_through_each(rt: &impl Abort, alloc: Global, recording: &Recording) {
    for most in &[1, 7, 200] {
        for calls in 0..=143 {
            comes_through(rt, alloc, recording, *most, calls);
        }
    }
}

/// Compares what a recording of one load holds.
fn holds(rt: &impl Abort, recording: &Recording) {
    same(rt, &recording.protocol(), &Protocol::Msi);
    same(rt, &(recording.seats(), recording.owner(0)), &(0, None));
    same(rt, &recording.shape().caches(), &1);
    same(rt, &recording.opening(), &[0u64].as_slice());
    let is_own = recording.tables() == Tables::baseline();
    same(rt, &is_own, &true);
    let first = entry_of(rt, ONE_LOAD[0]);
    same(rt, &recording.entries().len(), &3);
    same(rt, &recording.entries().first().copied(), &Some(first));
}

#[test]
fn a_recording_of_one_load(rt: HostRuntime) {
    let recording = recorded(&rt, rt.alloc(), 1, Tables::baseline(), &ONE_LOAD);
    holds(&rt, &recording);
    same(&rt, &ONE_LOAD_TEXT.len(), &143);
    writes(&rt, rt.alloc(), &recording, ONE_LOAD_TEXT);
    comes_through_each(&rt, rt.alloc(), &recording);
}

#[test]
fn a_recording_of_no_values(rt: HostRuntime) {
    let shape = shape_of(&rt, 1, 1);
    let none = Vec::new(rt.alloc());
    let refused = open(rt.alloc(), shape, Tables::baseline(), none).err();
    same(&rt, &refused, &Some(OpenFault::OpeningLength));
}

/// What a replay found: how many entries, and the violation; or the fault.
pub fn replayed(
    alloc: Global,
    recording: &Recording,
) -> Result<(usize, Option<(u64, Violation)>), ReplayFault> {
    match &replay(alloc, recording) {
        Ok(found) => Ok((found.entries.len(), found.violation)),
        Err(fault) => Err(*fault),
    }
}

/// Compares what a replay of these entries finds.
fn replays(
    rt: &impl Abort,
    alloc: Global,
    tables: Tables,
    lines: &[&str],
    wanted: Result<(usize, Option<(u64, Violation)>), ReplayFault>,
) {
    let recording = recorded(rt, alloc, 2, tables, lines);
    same(rt, &replayed(alloc, &recording), &wanted);
}

#[test]
fn recordings_are_replayed(rt: HostRuntime) {
    let own = Tables::baseline();
    replays(&rt, rt.alloc(), own, &LOAD_FROM_OWNER, Ok((8, None)));
    let mut lines = LOAD_FROM_OWNER;
    lines[6] = "response 0 0 = load 1 6";
    let cache = CacheId(1);
    let differs = ReplayFault::Differs {
        entry: 6,
        told: Outcome::Load { cache, value: 6 },
        found: Outcome::Load { cache, value: 7 },
    };
    replays(&rt, rt.alloc(), own, &lines, Err(differs));
    lines[5] = "forward 0 0 = blank";
    let blank = Violation::Blank {
        at: Place::Cache(CacheId(0)),
        block: BlockId(0),
    };
    let unanswered = with_entry(CacheState::M, CacheEvent::FwdGetS, CacheEntry::Blank);
    let breaks = Ok((6, Some((5, blank))));
    replays(&rt, rt.alloc(), unanswered, &lines[..6], breaks);
}

/// Pushes as many entries as a recording takes, and compares what it answers to one more.
fn fill(rt: &impl Abort, recording: &mut Recording) {
    let block = BlockId(0);
    let entry = Entry {
        step: Step::Request { block, index: 0 },
        outcome: Outcome::Absent,
    };
    for _ in 0..MOST_ENTRIES {
        push(rt, recording, entry).expect(rt, "memory");
    }
    same(rt, &push(rt, recording, entry), &Err(PushFault::Full));
    same(rt, &recording.entries().len(), &MOST_ENTRIES);
}

#[test]
fn entries_up_to_the_most(rt: HostRuntime) {
    let mut recording = recorded(&rt, rt.alloc(), 1, Tables::baseline(), &[]);
    fill(&rt, &mut recording);
}

/// What comes of reading a recording.
pub fn read<S: Source>(alloc: Global, source: &mut S) -> Result<Recording, ReadFault> {
    Recording::read(alloc, source)
}

/// What reading these bytes is refused with, if it is.
pub fn fault_of(alloc: Global, bytes: &[u8]) -> Option<ReadFault> {
    let mut source = bytes;
    read(alloc, &mut source).err()
}

/// Compares a text with what it is written as where it is read, so many bytes at a time.
fn is_written_back(rt: &impl Abort, alloc: Global, text: &str, most: usize) {
    let mut source = Faltering::over(text.as_bytes(), most, 1000);
    let recording = read(alloc, &mut source).expect(rt, "a recording");
    writes(rt, alloc, &recording, text);
}

#[test]
fn texts_read_and_written_back(rt: HostRuntime) {
    let changed = "msi-recording 2
protocol msi
shape 2 1
seats 64
opening 7
cells 3
cell cache I Load blank
cell cache S Inv stall
cell directory S^D Data act M put-ack copy-data
entries 2
by 63 ask 9 9 store 18446744073709551615 = broken
by 0 request 65536 0 = absent
end
";
    for most in &[1, 7, 200] {
        is_written_back(&rt, rt.alloc(), ONE_LOAD_TEXT, *most);
        is_written_back(&rt, rt.alloc(), changed, *most);
    }
}

/// Compares what reading these bytes is refused with.
pub fn is_refused(rt: &impl Abort, alloc: Global, bytes: &[u8], line: u64, kind: ReadKind) {
    let fault = fault_of(alloc, bytes);
    let wanted = Some(ReadFault { line, kind });
    same_at(rt, &fault, &wanted, &bytes.len());
}

/// Compares what is refused where the source fails behind so many bytes.
fn fails_behind(rt: &impl Abort, alloc: Global, text: &[u8], calls: u64, line: u64) {
    let mut source = Faltering::over(text, 1, calls);
    let fault = read(alloc, &mut source).err();
    let kind = ReadKind::Device;
    same_at(rt, &fault, &Some(ReadFault { line, kind }), &calls);
}

/// Compares what each beginning of a text of so many lines is refused with, and what the text is wherever its source fails.
///
/// The line that isn't whole yet is named, and the line behind the last one where all lines are whole.
fn is_cut(rt: &impl Abort, alloc: Global, text: &[u8], lines: u64) {
    let mut line = 1;
    for cut in 0..text.len() {
        is_refused(rt, alloc, &text[..cut], line, ReadKind::Truncated);
        fails_behind(rt, alloc, text, cut as u64, line);
        if text[cut] == b'\n' {
            line = line.saturating_add(1);
        }
    }
    fails_behind(rt, alloc, text, text.len() as u64, line);
    same(rt, &line, &lines.saturating_add(1));
}

#[test]
fn beginnings_of_a_text(rt: HostRuntime) {
    is_cut(&rt, rt.alloc(), FIRST_TEXT.as_bytes(), 9);
    is_cut(&rt, rt.alloc(), ONE_LOAD_TEXT.as_bytes(), 11);
}
