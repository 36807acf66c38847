use crate::asserting::same_at;
use crate::recordings::{FIRST_TEXT, ONE_LOAD_TEXT};
use base::{BlockId, CacheId, Faltering, Outcome, Place};
use monitor::Violation;
use record::{ReadFault, ReadKind};
use replays::{ReplayFault, TextFault, TextReplayed, replay_text};
use std::alloc::Global;
use std::process::Abort;

/// A load that is told another value than the one stored.
pub const ANOTHER_VALUE: &str =
    "msi-recording 2\nprotocol msi\nshape 2 1\nseats 2\nopening 0\ncells 0\nentries 8\n\
    by 0 ask 0 0 store 7 = sent\nby 0 request 0 0 = moved\nby 0 response 0 0 = store 0 7\nby 1 ask 1 0 load = sent\nby 0 request 0 0 = moved\n\
    by 0 forward 0 0 = moved\nby 0 response 0 0 = load 1 6\nby 0 response 0 0 = moved\nend\n";

/// The same with no seat behind the other value.
const NO_SEAT_BEHIND: &str =
    "msi-recording 2\nprotocol msi\nshape 2 1\nseats 2\nopening 0\ncells 0\nentries 8\n\
    by 0 ask 0 0 store 7 = sent\nby 0 request 0 0 = moved\nby 0 response 0 0 = store 0 7\nby 1 ask 1 0 load = sent\nby 0 request 0 0 = moved\n\
    by 0 forward 0 0 = moved\nby 0 response 0 0 = load 1 6\nresponse 0 0 = moved\nend\n";

/// The same without the last line.
const NO_END_BEHIND: &str =
    "msi-recording 2\nprotocol msi\nshape 2 1\nseats 2\nopening 0\ncells 0\nentries 8\n\
    by 0 ask 0 0 store 7 = sent\nby 0 request 0 0 = moved\nby 0 response 0 0 = store 0 7\nby 1 ask 1 0 load = sent\nby 0 request 0 0 = moved\n\
    by 0 forward 0 0 = moved\nby 0 response 0 0 = load 1 6\nby 0 response 0 0 = moved\n";

/// Other outcomes at two entries.
const TWO_DIFFER: &str =
    "msi-recording 1\nshape 1 1\nopening 0\ncells 0\nentries 3\nask 0 0 load = sent\nrequest 0 0 = held\nresponse 0 0 = load 0 1\nend\n";

const NO_ENTRIES: &str = "msi-recording 1\nshape 1 1\nopening 0\ncells 0\nentries 0\nend\n";

/// An owner that doesn't know what to do with a Fwd-GetS.
const BLANK_MET: &str =
    "msi-recording 1\nshape 2 1\nopening 0\ncells 1\ncell cache M Fwd-GetS blank\nentries 6\nask 0 0 store 7 = sent\nrequest 0 0 = moved\n\
    response 0 0 = store 0 7\nask 1 0 load = sent\nrequest 0 0 = moved\nforward 0 0 = blank\nend\n";

/// Compares what a replay of a text finds, in whatever pieces the text comes.
fn finds(rt: &impl Abort, alloc: Global, text: &str, wanted: Result<TextReplayed, TextFault>) {
    for most in &[1, 7, 5000] {
        let mut source = Faltering::over(text.as_bytes(), *most, 2000);
        same_at(rt, &replay_text(alloc, &mut source), &wanted, &text);
    }
}

fn found(entries: u32, violation: Option<(u64, Violation)>) -> Result<TextReplayed, TextFault> {
    Ok(TextReplayed { entries, violation })
}

fn refused(line: u64, kind: ReadKind) -> Result<TextReplayed, TextFault> {
    Err(TextFault::Read(ReadFault { line, kind }))
}

fn differs(entry: u64, told: Outcome, found: Outcome) -> Result<TextReplayed, TextFault> {
    Err(TextFault::Replay(ReplayFault::Differs { entry, told, found }))
}

fn loaded(cache: u32, value: u64) -> Outcome {
    let cache = CacheId(cache);
    Outcome::Load { cache, value }
}

#[test]
fn texts_are_replayed(rt: HostRuntime) {
    finds(&rt, rt.alloc(), FIRST_TEXT, found(3, None));
    finds(&rt, rt.alloc(), ONE_LOAD_TEXT, found(3, None));
    finds(&rt, rt.alloc(), NO_ENTRIES, found(0, None));
    let blank = Violation::Blank {
        at: Place::Cache(CacheId(0)),
        block: BlockId(0),
    };
    finds(&rt, rt.alloc(), BLANK_MET, found(6, Some((5, blank))));
}

#[test]
fn texts_that_differ(rt: HostRuntime) {
    let value = differs(6, loaded(1, 6), loaded(1, 7));
    finds(&rt, rt.alloc(), ANOTHER_VALUE, value);
    let first = differs(1, Outcome::Held, Outcome::Moved);
    finds(&rt, rt.alloc(), TWO_DIFFER, first);
}

#[test]
fn a_fault_comes_before_a_difference(rt: HostRuntime) {
    let no_seat = refused(15, ReadKind::BadLine);
    finds(&rt, rt.alloc(), NO_SEAT_BEHIND, no_seat);
    let no_end = refused(16, ReadKind::Truncated);
    finds(&rt, rt.alloc(), NO_END_BEHIND, no_end);
}
