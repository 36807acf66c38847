//! Texts of both versions: what is refused in each, what of seats, and how one is moved.

use crate::asserting::{same, same_at};
use crate::entries::entry_of;
use crate::making::{shape_of, zero};
use crate::recordings::{FIRST_TEXT, ONE_LOAD_TEXT, fault_of, is_refused, writes};
use base::controller::Protocol;
use base::{Buffer, Faltering};
use record::{MoveFault, ReadFault, ReadKind, Recording, WriteFault, move_text};
use std::alloc::Global;
use std::process::Abort;
use tables::Tables;

/// One entry, which the last of three seats owns.
const SEATS_TEXT: &str =
    "msi-recording 2\nprotocol msi\nshape 1 1\nseats 3\nopening 0\ncells 0\nentries 1\nby 2 ask 0 0 load = load 0 7\nend\n";

/// Compares what a text is refused with, where another part stands in place of this one.
fn is_refused_with(
    rt: &impl Abort,
    alloc: Global,
    text: &str,
    old: &str,
    new: &str,
    kind: ReadKind,
    line: u64,
) {
    let (front, rest) = text.split_once(old).expect(rt, "such a part");
    let changed = format!(in alloc; "{front}{new}{rest}").expect(rt, "memory");
    let fault = fault_of(alloc, changed.as_bytes());
    same_at(rt, &fault, &Some(ReadFault { line, kind }), &new);
}

/// Changes to the text of one load that are refused in both versions, and in which line of each.
const OF_BOTH: [(&str, &str, ReadKind, u64, u64); 14] = [
    ("shape 1 1", "shape 0 1", ReadKind::OverLimit, 2, 3),
    ("shape 1 1", "shape 4294967296 1", ReadKind::OverLimit, 2, 3),
    ("shape 1 1", "shape 01 1", ReadKind::BadLine, 2, 3),
    ("opening 0", "opening 0 0", ReadKind::BadLine, 3, 5),
    ("cells 0", "cells 161", ReadKind::OverLimit, 4, 6),
    ("entries 3", "entries 1000001", ReadKind::OverLimit, 5, 7),
    ("entries 3", "entries 4", ReadKind::CountDiffers, 9, 11),
    ("entries 3", "entries 2", ReadKind::CountDiffers, 8, 10),
    ("= load 0 0", "= lode 0 0", ReadKind::BadOutcome, 8, 10),
    ("= load 0 0", "=", ReadKind::BadLine, 8, 10),
    ("= load 0 0", "= ", ReadKind::BadOutcome, 8, 10),
    ("end\n", "end\nx", ReadKind::BadLine, 10, 12),
    (
        "cells 0",
        "cells 1\ncell cache I Load act IS^D gets",
        ReadKind::BadLine,
        5,
        7,
    ),
    (
        "cells 0",
        "cells 2\ncell cache S Inv stall\ncell cache I Load blank",
        ReadKind::BadLine,
        6,
        8,
    ),
];

/// Changes to the text of one load in version 1.
const OF_FIRST: [(&str, &str, ReadKind, u64); 6] = [
    ("msi-recording 1", "msi-recording 9", ReadKind::BadHeader, 1),
    ("shape 1 1", "shape 1025 1", ReadKind::OverLimit, 2),
    ("shape 1 1", "shape 1 4097", ReadKind::OverLimit, 2),
    ("shape 1 1", "protocol msi\nshape 1 1", ReadKind::BadLine, 2),
    ("opening 0", "seats 0\nopening 0", ReadKind::BadLine, 3),
    ("ask 0", "by 0 ask 0", ReadKind::BadLine, 6),
];

/// Changes to it in version 2.
const OF_SECOND: [(&str, &str, ReadKind, u64); 15] = [
    ("msi-recording 2", "msi-recording 9", ReadKind::BadHeader, 1),
    (
        "protocol msi",
        "protocol mesi",
        ReadKind::UnknownProtocol,
        2,
    ),
    ("protocol msi", "protocol ms i", ReadKind::BadLine, 2),
    ("protocol msi", "protocol ", ReadKind::BadLine, 2),
    ("protocol msi", "protocols msi", ReadKind::BadLine, 2),
    ("protocol msi\n", "", ReadKind::BadLine, 2),
    ("shape 1 1", "shape 4097 1", ReadKind::OverLimit, 3),
    ("shape 1 1", "shape 1 65537", ReadKind::OverLimit, 3),
    ("seats 0", "seats 65", ReadKind::OverLimit, 4),
    ("seats 0", "seats 4294967296", ReadKind::OverLimit, 4),
    ("seats 0", "seats 01", ReadKind::BadLine, 4),
    ("seats 0\n", "", ReadKind::BadLine, 4),
    ("seats 0", "seats 1", ReadKind::BadLine, 8),
    ("ask 0", "by 0 ask 0", ReadKind::BadLine, 8),
    ("ad 0 0\nend\n", "", ReadKind::Truncated, 10),
];

/// Changes to the text with three seats.
const OF_SEATS: [(&str, &str, ReadKind, u64); 10] = [
    ("by 2 ", "", ReadKind::BadLine, 8),
    ("by 2 ", "by 3 ", ReadKind::BadLine, 8),
    ("by 2 ", "by 02 ", ReadKind::BadLine, 8),
    (
        "by 2 ask 0 0 load = load 0 7",
        "by 2 end",
        ReadKind::BadLine,
        8,
    ),
    (
        "by 2 ask 0 0 load = load 0 7",
        "end",
        ReadKind::CountDiffers,
        8,
    ),
    ("load 0 7", "lode 0 7", ReadKind::BadOutcome, 8),
    (
        "by 2 ask 0 0 load = load 0 7",
        "by 3 ask 0 0 load = lode",
        ReadKind::BadLine,
        8,
    ),
    ("end", "by 0 ask 0 0 load = held", ReadKind::CountDiffers, 9),
    ("end", "ask 0 0 load = held", ReadKind::BadLine, 9),
    ("end", "by 0 end", ReadKind::BadLine, 9),
];

fn are_refused_with(
    rt: &impl Abort,
    alloc: Global,
    text: &str,
    rows: &[(&str, &str, ReadKind, u64)],
) {
    for (old, new, kind, line) in rows {
        is_refused_with(rt, alloc, text, old, new, *kind, *line);
    }
}

#[test]
fn recordings_that_are_refused(rt: HostRuntime) {
    for (old, new, kind, first, second) in &OF_BOTH {
        is_refused_with(&rt, rt.alloc(), FIRST_TEXT, old, new, *kind, *first);
        is_refused_with(&rt, rt.alloc(), ONE_LOAD_TEXT, old, new, *kind, *second);
    }
    are_refused_with(&rt, rt.alloc(), FIRST_TEXT, &OF_FIRST);
    are_refused_with(&rt, rt.alloc(), ONE_LOAD_TEXT, &OF_SECOND);
    are_refused_with(&rt, rt.alloc(), SEATS_TEXT, &OF_SEATS);
}

/// Compares what a text that begins so is refused with, where so many bytes of a line without an end follow.
fn is_too_long(rt: &impl Abort, alloc: Global, begun: &str, count: u32, kind: ReadKind, line: u64) {
    let mut text = Vec::from_slice(alloc, begun.as_bytes()).expect(rt, "memory");
    for _ in 0..count {
        text.push(b'x').expect(rt, "memory");
    }
    is_refused(rt, alloc, text.as_slice(), line, kind);
}

#[test]
fn lines_up_to_the_longest(rt: HostRuntime) {
    for (begun, count, kind, line) in &[
        ("", 90_000, ReadKind::Truncated, 1),
        ("", 90_001, ReadKind::OverLimit, 1),
        (
            "msi-recording 1\nshape 1 1\n",
            90_000,
            ReadKind::Truncated,
            3,
        ),
        (
            "msi-recording 1\nshape 1 1\n",
            90_001,
            ReadKind::OverLimit,
            3,
        ),
        ("msi-recording 2\n", 1_400_000, ReadKind::Truncated, 2),
        (
            "msi-recording 2\nprotocol msi\nshape 1 1\nseats 0\n",
            1_400_001,
            ReadKind::OverLimit,
            5,
        ),
    ] {
        is_too_long(&rt, rt.alloc(), begun, *count, *kind, *line);
    }
}

/// Compares what a text is moved to.
fn moves(rt: &impl Abort, alloc: Global, from: &str, to: &str) {
    let mut sink = Buffer::open(alloc);
    let mut source = from.as_bytes();
    let moved = move_text(alloc, &mut source, &mut sink);
    same_at(rt, &moved, &Ok(()), &from);
    same(rt, &sink.bytes(), &to.as_bytes());
}

/// Compares why a text isn't moved into a sink that fails behind seven bytes.
fn is_not_moved(rt: &impl Abort, alloc: Global, text: &str, fault: MoveFault) {
    let mut sink = Faltering::over(Buffer::open(alloc), 7, 1);
    let mut source = text.as_bytes();
    let moved = move_text(alloc, &mut source, &mut sink);
    same_at(rt, &moved, &Err(fault), &text);
}

#[test]
fn texts_are_moved(rt: HostRuntime) {
    let first =
        "msi-recording 1\nshape 2 1\nopening 7\ncells 1\ncell cache S Inv stall\nentries 1\nrequest 0 0 = absent\nend\n";
    let second =
        "msi-recording 2\nprotocol msi\nshape 2 1\nseats 0\nopening 7\ncells 1\ncell cache S Inv stall\nentries 1\nrequest 0 0 = absent\nend\n";
    same(&rt, &FIRST_TEXT.len(), &122);
    for (from, to) in &[
        (FIRST_TEXT, ONE_LOAD_TEXT),
        (ONE_LOAD_TEXT, ONE_LOAD_TEXT),
        (first, second),
        (second, second),
        (SEATS_TEXT, SEATS_TEXT),
    ] {
        moves(&rt, rt.alloc(), from, to);
    }
    let fault = MoveFault::Write(WriteFault { written: 7 });
    is_not_moved(&rt, rt.alloc(), FIRST_TEXT, fault);
    let kind = ReadKind::UnknownProtocol;
    let fault = MoveFault::Read(ReadFault { line: 2, kind });
    let unknown = "msi-recording 2\nprotocol mesi\n";
    is_not_moved(&rt, rt.alloc(), unknown, fault);
}

/// Compares what a recording whose only entry is of the last of three seats holds.
fn is_of_seats(rt: &impl Abort, alloc: Global, recording: &Recording) {
    same(rt, &recording.protocol(), &Protocol::Msi);
    same(rt, &recording.seats(), &3);
    let owners = (recording.owner(0), recording.owner(1));
    same(rt, &owners, &(Some(2), None));
    writes(rt, alloc, recording, SEATS_TEXT);
}

#[test]
fn a_recording_of_seats(rt: HostRuntime) {
    let alloc = rt.alloc();
    let opening = zero(&rt, alloc);
    let shape = shape_of(&rt, 1, 1);
    let opened = Recording::open_seats(alloc, shape, Tables::baseline(), opening, 3);
    let mut recording = opened.expect(&rt, "a recording");
    let entry = entry_of(&rt, "ask 0 0 load = load 0 7");
    recording.push_by(entry, 2).expect(&rt, "memory");
    is_of_seats(&rt, alloc, &recording);
}
