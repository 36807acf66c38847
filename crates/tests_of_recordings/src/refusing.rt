//! Runs that go on behind a refusal. `ci/refuse-growths` refuses each of their growths in turn: what stood before the call
//! has to stand then, and the second call has to succeed. Where nothing is refused they are plain runs.

use crate::asserting::same;
use crate::entries::{entry_of, push};
use crate::making::shape_of;
use crate::recordings::{open, read, replayed};
use crate::text_replays::ANOTHER_VALUE;
use base::{CacheId, Outcome};
use record::{Entry, PushFault, ReadFault, ReadKind, Recording};
use replays::{ReplayFault, TextFault, replay_text};
use std::alloc::Global;
use std::process::Abort;
use std::test::Fail;
use tables::Tables;

/// Compares a fault with one that a refused growth makes.
fn is_no_memory(rt: &impl Abort, fault: ReadFault) {
    let ReadFault { line, kind } = fault;
    same(rt, &kind, &ReadKind::NoMemory);
    same(rt, &(line >= 1 && line <= 16), &true);
}

/// Reads a text, at the second call where the first one is refused memory.
fn read_at_last(rt: &impl Abort, alloc: Global, text: &str) -> Recording {
    let mut source = text.as_bytes();
    match read(alloc, &mut source) {
        Ok(recording) => recording,
        Err(fault) => {
            is_no_memory(rt, fault);
            let mut source = text.as_bytes();
            read(alloc, &mut source).expect(rt, "a second refusal")
        }
    }
}

fn replayed_at_last(alloc: Global, recording: &Recording) -> Option<ReplayFault> {
    match replayed(alloc, recording).err() {
        Some(ReplayFault::NoMemory) => replayed(alloc, recording).err(),
        fault => fault,
    }
}

/// Why a replay of a recording that tells another value fails.
fn another_value() -> ReplayFault {
    let cache = CacheId(1);
    ReplayFault::Differs {
        entry: 6,
        told: Outcome::Load { cache, value: 6 },
        found: Outcome::Load { cache, value: 7 },
    }
}

fn differs(rt: &impl Abort, alloc: Global, recording: &Recording) {
    same(
        rt,
        &replayed_at_last(alloc, recording),
        &Some(another_value()),
    );
}

#[test]
fn a_recording_is_read_and_replayed(rt: HostRuntime) {
    let recording = read_at_last(&rt, rt.alloc(), ANOTHER_VALUE);
    same(&rt, &recording.entries().len(), &8);
    differs(&rt, rt.alloc(), &recording);
}

/// Replays a text, at the second call where the first one is refused memory.
fn text_replayed_at_last(rt: &impl Abort, alloc: Global, text: &str) -> Option<TextFault> {
    let mut source = text.as_bytes();
    match replay_text(alloc, &mut source).err() {
        Some(TextFault::Read(fault)) => is_no_memory(rt, fault),
        Some(TextFault::Replay(ReplayFault::NoMemory)) => {}
        fault => return fault,
    }
    let mut source = text.as_bytes();
    replay_text(alloc, &mut source).err()
}

#[test]
fn a_text_is_replayed(rt: HostRuntime) {
    let fault = text_replayed_at_last(&rt, rt.alloc(), ANOTHER_VALUE);
    same(&rt, &fault, &Some(TextFault::Replay(another_value())));
}

/// A PutS that comes late, among three caches.
const LATE_PUTS: [&str; 24] = [
    "ask 0 0 load = sent",
    "request 0 0 = moved",
    "response 0 0 = load 0 0",
    "ask 0 0 replace = sent",
    "ask 1 0 store 9 = sent",
    "request 0 1 = moved",
    "forward 0 0 = moved",
    "response 0 0 = moved",
    "response 0 0 = store 1 9",
    "ask 2 0 load = sent",
    "request 0 1 = moved",
    "forward 0 1 = moved",
    "response 0 0 = load 2 9",
    "response 0 0 = moved",
    "ask 1 0 replace = sent",
    "request 0 1 = moved",
    "forward 0 1 = moved",
    "request 0 0 = moved",
    "forward 0 0 = moved",
    "ask 1 0 store 3 = sent",
    "request 0 0 = moved",
    "forward 0 2 = moved",
    "response 0 1 = moved",
    "response 0 0 = store 1 3",
];

/// Adds an entry, at the second call where the first one is refused memory and changes nothing.
fn push_at_last(rt: &impl Abort, recording: &mut Recording, entry: Entry) {
    let count = recording.entries().len();
    if let Err(fault) = push(rt, recording, entry) {
        same(rt, &fault, &PushFault::NoMemory);
        same(rt, &recording.entries().len(), &count);
        push(rt, recording, entry).expect(rt, "a second refusal");
    }
}

fn push_each(rt: &impl Abort, recording: &mut Recording) {
    for line in &LATE_PUTS {
        push_at_last(rt, recording, entry_of(rt, line));
    }
    same(rt, &recording.entries().len(), &LATE_PUTS.len());
    for (entry, line) in recording.entries().iter().zip(&LATE_PUTS) {
        same(rt, entry, &entry_of(rt, line));
    }
}

/// A recording of three caches and one block that opens at 0.
fn opened(rt: &impl Abort, alloc: Global) -> Result<Recording, Fail> {
    let opening = vec![in alloc; 0; 1]?;
    Ok(open(alloc, shape_of(rt, 3, 1), Tables::baseline(), opening)?)
}

#[test]
fn entries_are_pushed(rt: HostRuntime) -> Result<(), Fail> {
    let mut recording = opened(&rt, rt.alloc())?;
    push_each(&rt, &mut recording);
    Ok(())
}
