use crate::asserting::{same, same_at};
use crate::entries::entry_of;
use crate::making::{
    batch_of, open_setup, scenario, setup, shape_of, trial_of, values, with_entry,
};
use base::{BlockId, Buffer, CacheId, Place, Shape};
use cache_table::{CacheEntry, CacheEvent, CacheState};
use directory_table::{DirectoryEntry, DirectoryEvent, DirectoryState};
use monitor::Violation;
use record::{Entry, Recording};
use scenario::Scenario;
use std::alloc::Global;
use std::process::Abort;
use tables::Tables;
use trials::{BatchFault, Setup, SetupFault, Trial, TrialResult, Verdict};

pub const RACING_PAIR: &str =
    r#"{"both":[{"op":"load","core":0,"block":0},{"op":"store","core":1,"block":0,"value":9}]}"#;

pub const ONE_LOAD: &str = r#"{"op":"load","core":0,"block":0}"#;

/// Compares what comes of a trial.
fn comes(
    rt: &impl Abort,
    alloc: Global,
    tree: &Scenario<Global>,
    setup: &Setup,
    wanted: &TrialResult,
) {
    let made = trial_of(alloc, tree, setup, wanted.number).expect(rt, "memory");
    same(rt, &made.result, wanted);
    same(
        rt,
        &made.recording.entries().len(),
        &(wanted.steps as usize),
    );
}

/// Compares what comes of trial 54 of two cores that race for one block, in so many steps at most.
fn a_race_comes(rt: &impl Abort, alloc: Global, limit: u32, verdict: Verdict, steps: u32) {
    let pair = scenario(rt, alloc, RACING_PAIR, 2);
    let setup = setup(rt, alloc, 2, 1, Tables::baseline(), 42, limit);
    let number = 54;
    let wanted = TrialResult {
        number,
        verdict,
        steps,
    };
    comes(rt, alloc, &pair, &setup, &wanted);
}

const RACED: [&str; 6] = [
    "ask 1 0 store 9 = sent",
    "request 0 0 = moved",
    "ask 0 0 load = sent",
    "response 0 0 = store 1 9",
    "request 0 0 = moved",
    "forward 0 1 = moved",
];

/// Compares the entries of a recording.
fn are_entries(rt: &impl Abort, found: &[Entry], lines: &[&str]) {
    same(rt, &found.len(), &lines.len());
    for (entry, line) in found.iter().zip(lines) {
        same(rt, entry, &entry_of(rt, line));
    }
}

/// Compares trial 54 of two cores that race for one block, which is cut at six steps.
pub fn is_cut(rt: &impl Abort, made: &Trial) {
    are_entries(rt, made.recording.entries(), &RACED);
    let cut = TrialResult {
        number: 54,
        verdict: Verdict::Cut,
        steps: 6,
    };
    same(rt, &made.result, &cut);
}

/// Makes that trial.
fn cut_at_six(rt: &impl Abort, alloc: Global) -> Trial {
    let pair = scenario(rt, alloc, RACING_PAIR, 2);
    let setup = setup(rt, alloc, 2, 1, Tables::baseline(), 42, 6);
    trial_of(alloc, &pair, &setup, 54).expect(rt, "memory")
}

#[test]
fn a_racing_pair(rt: HostRuntime) {
    is_cut(&rt, &cut_at_six(&rt, rt.alloc()));
}

/// Compares what comes of one load over these tables in so many steps at most.
fn one_load_comes(
    rt: &impl Abort,
    alloc: Global,
    tables: Tables,
    limit: u32,
    verdict: Verdict,
    steps: u32,
) {
    let load = scenario(rt, alloc, ONE_LOAD, 1);
    let setup = setup(rt, alloc, 1, 1, tables, 7, limit);
    let number = 3;
    let wanted = TrialResult {
        number,
        verdict,
        steps,
    };
    comes(rt, alloc, &load, &setup, &wanted);
}

#[test]
fn trials_of_the_own_tables(rt: HostRuntime) {
    let alloc = rt.alloc();
    a_race_comes(&rt, alloc, 6, Verdict::Cut, 6);
    a_race_comes(&rt, alloc, 100, Verdict::Quiet, 8);
    for (limit, verdict, steps) in &[
        (9, Verdict::Quiet, 3),
        (3, Verdict::Quiet, 3),
        (2, Verdict::Cut, 2),
        (0, Verdict::Cut, 0),
    ] {
        let own = Tables::baseline();
        one_load_comes(&rt, alloc, own, *limit, *verdict, *steps);
    }
}

/// One load that is stalled, and one that meets a blank.
#[test]
fn trials_of_changed_tables(rt: HostRuntime) {
    let mut stalled = Tables::baseline();
    stalled.directory = stalled.directory.with(
        DirectoryState::I,
        DirectoryEvent::GetS,
        DirectoryEntry::Stall,
    );
    one_load_comes(&rt, rt.alloc(), stalled, 9, Verdict::Stuck, 1);
    let blank = with_entry(CacheState::I, CacheEvent::Load, CacheEntry::Blank);
    let violation = Violation::Blank {
        at: Place::Cache(CacheId(0)),
        block: BlockId(0),
    };
    one_load_comes(&rt, rt.alloc(), blank, 9, Verdict::Broke(violation), 1);
}

const ONE_LOAD_TEXT: &str =
    "msi-recording 2\nprotocol msi\nshape 1 1\nseats 0\nopening 0\ncells 0\nentries 3\n\
    ask 0 0 load = sent\nrequest 0 0 = moved\nresponse 0 0 = load 0 0\nend\n";

/// Compares the text of a recording.
fn writes(rt: &impl Abort, alloc: Global, recording: &Recording, text: &str) {
    let mut sink = Buffer::open(alloc);
    recording.write(&mut sink).expect(rt, "memory");
    same(rt, &sink.bytes(), &text.as_bytes());
}

/// Compares the text of the recording of a trial of one load.
fn is_written(rt: &impl Abort, alloc: Global, load: &Scenario<Global>, setup: &Setup) {
    let made = trial_of(alloc, load, setup, 8).expect(rt, "memory");
    writes(rt, alloc, &made.recording, ONE_LOAD_TEXT);
}

#[test]
fn the_text_of_a_trial(rt: HostRuntime) {
    let load = scenario(&rt, rt.alloc(), ONE_LOAD, 1);
    let setup = setup(&rt, rt.alloc(), 1, 1, Tables::baseline(), 5, 9);
    is_written(&rt, rt.alloc(), &load, &setup);
}

const NONE: &str = r#"{"times":0,"of":{"op":"load","core":0,"block":0}}"#;

const ENDLESS: &str = r#"{"times":4294967295,"of":{"seq":[]}}"#;

/// Compares the results of a batch, which are alike but for their numbers.
pub fn are_results(
    rt: &impl Abort,
    results: &[TrialResult],
    count: u32,
    verdict: Verdict,
    steps: u32,
) {
    same(rt, &results.len(), &(count as usize));
    for (number, result) in (0..u32::MAX).zip(results) {
        let wanted = TrialResult {
            number,
            verdict,
            steps,
        };
        same(rt, result, &wanted);
    }
}

/// Compares the batch of a scenario for one cache, in so many steps at most.
fn batch_comes(
    rt: &impl Abort,
    alloc: Global,
    text: &str,
    limit: u32,
    count: u32,
    verdict: Verdict,
    steps: u32,
) {
    let tree = scenario(rt, alloc, text, 1);
    let setup = setup(rt, alloc, 1, 1, Tables::baseline(), 1, limit);
    let results = batch_of(alloc, &tree, &setup, count).expect(rt, "a batch");
    are_results(rt, results.as_slice(), count, verdict, steps);
}

#[test]
fn batches_of_trials(rt: HostRuntime) {
    for (text, limit, n, verdict, steps) in &[
        (ONE_LOAD, 9, 3, Verdict::Quiet, 3),
        (ONE_LOAD, 2, 3, Verdict::Cut, 2),
        (NONE, 9, 2, Verdict::Quiet, 0),
        (ENDLESS, 9, 1, Verdict::Quiet, 0),
        (NONE, 9, 0, Verdict::Quiet, 0),
    ] {
        batch_comes(&rt, rt.alloc(), text, *limit, *n, *verdict, *steps);
    }
}

/// Why a setup of one cache and two blocks that open at so many values isn't made.
fn refusal(rt: &impl Abort, alloc: Global, count: u32, limit: u32) -> Option<SetupFault> {
    let opening = values(rt, alloc, count, 0, 0);
    open_setup(shape_of(rt, 1, 2), Tables::baseline(), opening, 0, limit).err()
}

/// Compares what the widest setup holds, and how it refuses a batch.
fn refuses(rt: &impl Abort, alloc: Global, widest: &Setup) {
    same(rt, &(widest.seed(), widest.limit()), &(0, 1_000_000));
    same(rt, &Ok(widest.shape()), &Shape::new(1, 2));
    let is_own = widest.tables() == Tables::baseline();
    same(rt, &is_own, &true);
    same(rt, &widest.opening(), &[0, 0].as_slice());
    let load = scenario(rt, alloc, ONE_LOAD, 1);
    let refused = batch_of(alloc, &load, widest, 1_000_001).err();
    same(rt, &refused, &Some(BatchFault::TooMany));
}

#[test]
fn setups_and_batches_that_are_refused(rt: HostRuntime) {
    for (count, limit, fault) in &[
        (1, 1, SetupFault::OpeningLength),
        (3, 1_000_001, SetupFault::OpeningLength),
        (2, 1_000_001, SetupFault::OverLimit),
    ] {
        let refused = refusal(&rt, rt.alloc(), *count, *limit);
        same_at(&rt, &refused, &Some(*fault), count);
    }
    let widest = setup(&rt, rt.alloc(), 1, 2, Tables::baseline(), 0, 1_000_000);
    refuses(&rt, rt.alloc(), &widest);
}
