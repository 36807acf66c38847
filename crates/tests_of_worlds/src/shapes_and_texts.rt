use crate::asserting::{same, same_at};
use base::text::{cut, number_of, small_number_of, spells_one_step};
use base::{
    Ask, BlockId, Buffer, CacheId, Failed, Faltering, FromRead, Outcome, Shape, ShapeFault, Sink,
    Source, Step, ToWrite, put_all,
};
use std::alloc::Global;
use std::fmt::Display;
use std::process::Abort;

#[test]
fn shapes_within_the_limits(rt: HostRuntime) {
    for (caches, blocks) in &[(1, 1), (4096, 65_536)] {
        let shape = Shape::new(*caches, *blocks).expect(&rt, "a shape");
        same(&rt, &(shape.caches(), shape.blocks()), &(*caches, *blocks));
    }
}

#[test]
fn the_first_fault_of_a_shape(rt: HostRuntime) {
    let refused = [
        (0, 0, ShapeFault::NoCaches),
        (5000, 0, ShapeFault::NoBlocks),
        (4097, 70_000, ShapeFault::TooManyCaches),
        (4096, 65_537, ShapeFault::TooManyBlocks),
    ];
    for (caches, blocks, fault) in &refused {
        let found = Shape::new(*caches, *blocks).err();
        same_at(&rt, &found, &Some(*fault), &(*caches, *blocks));
    }
}

/// Compares what a value is shown as.
fn is_shown<T: Display>(rt: &impl Abort, alloc: Global, value: &T, wanted: &str) {
    let shown = format!(in alloc; "{value}").expect(rt, "memory");
    same(rt, &shown.as_str(), &wanted);
}

/// The step of a line, if it is one.
fn step_of(line: &str) -> Option<Step> {
    Step::read(line.as_bytes())
}

const STEPS: [&str; 11] = [
    "ask 0 4294967295 load",
    "ask 4294967295 0 load",
    "ask 1 2 replace",
    "ask 1 2 store 0",
    "ask 0 0 store 18446744073709551615",
    "request 0 18446744073709551615",
    "request 4294967295 0",
    "forward 0 4294967295",
    "forward 4294967295 0",
    "response 0 18446744073709551615",
    "response 4294967295 10",
];

#[test]
fn steps_read_and_shown(rt: HostRuntime) {
    for line in &STEPS {
        let step = step_of(line).expect(&rt, "a step");
        is_shown(&rt, rt.alloc(), &step, line);
    }
}

const CACHE: CacheId = CacheId(1);

const BLOCK: BlockId = BlockId(2);

const NUMBERED: [(&str, Step); 6] = [
    (
        "ask 1 2 store 3",
        Step::Ask {
            cache: CACHE,
            block: BLOCK,
            ask: Ask::Store(3),
        },
    ),
    (
        "ask 1 2 load",
        Step::Ask {
            cache: CACHE,
            block: BLOCK,
            ask: Ask::Load,
        },
    ),
    (
        "ask 1 2 replace",
        Step::Ask {
            cache: CACHE,
            block: BLOCK,
            ask: Ask::Replace,
        },
    ),
    (
        "request 2 3",
        Step::Request {
            block: BLOCK,
            index: 3,
        },
    ),
    (
        "forward 2 1",
        Step::Forward {
            block: BLOCK,
            cache: CACHE,
        },
    ),
    (
        "response 2 3",
        Step::Response {
            block: BLOCK,
            index: 3,
        },
    ),
];

#[test]
fn which_number_is_which(rt: HostRuntime) {
    for (line, step) in &NUMBERED {
        same_at(&rt, &step_of(line), &Some(*step), line);
    }
}

const NO_STEPS: [&str; 31] = [
    "",
    " ",
    "ask",
    "asc 0 0 load",
    "ask 0 0",
    "ask  0 0 load",
    " ask 0 0 load",
    "ask 0 0 load ",
    "ask\t0 0 load",
    "ask 00 0 load",
    "ask 0 01 load",
    "ask +0 0 load",
    "ask -1 0 load",
    "ask 4294967296 0 load",
    "ask 0 4294967296 load",
    "ask 0 0 Load",
    "ask 0 0 store",
    "ask 0 0 store ",
    "ask 0 0 store 18446744073709551616",
    "ask 0 0 store 1 1",
    "ask 0 0 load 1",
    "ask 0 0 replace 1",
    "request 0",
    "request 0 0 0",
    "request 0 18446744073709551616",
    "forward 0 4294967296",
    "response 4294967296 0",
    "Request 0 0",
    "request 0 0\r",
    "request 0 0\n",
    "sent",
];

#[test]
fn lines_that_are_no_step(rt: HostRuntime) {
    for line in &NO_STEPS {
        same_at(&rt, &step_of(line), &None, line);
    }
    same(&rt, &Step::read(b"request 0 \xff"), &None);
}

const OUTCOMES: [(Outcome, &str); 9] = [
    (Outcome::Sent, "sent"),
    (Outcome::Moved, "moved"),
    (
        Outcome::Load {
            cache: CacheId(4294967295),
            value: 0,
        },
        "load 4294967295 0",
    ),
    (
        Outcome::Store {
            cache: CacheId(0),
            value: 18446744073709551615,
        },
        "store 0 18446744073709551615",
    ),
    (Outcome::Held, "held"),
    (Outcome::Absent, "absent"),
    (Outcome::Idle, "idle"),
    (Outcome::Blank, "blank"),
    (Outcome::Broken, "broken"),
];

/// The outcome of a line, if it is one.
fn outcome_of(line: &str) -> Option<Outcome> {
    Outcome::read(line.as_bytes())
}

#[test]
fn outcomes_read_and_shown(rt: HostRuntime) {
    for (outcome, line) in &OUTCOMES {
        same_at(&rt, &outcome_of(line), &Some(*outcome), line);
        is_shown(&rt, rt.alloc(), outcome, line);
    }
}

const NO_OUTCOMES: [&str; 10] = [
    "",
    "Sent",
    "sent ",
    "sent 1",
    "send",
    "load",
    "load 0",
    "load 4294967296 0",
    "store 0 1 2",
    "store 0 01",
];

#[test]
fn lines_that_are_no_outcome(rt: HostRuntime) {
    for line in &NO_OUTCOMES {
        same_at(&rt, &outcome_of(line), &None, line);
    }
}

/// Texts, and which number each is, and which one of 32 bits.
const NUMBERS: [(&str, Option<u64>, Option<u32>); 5] = [
    ("18446744073709551615", Some(18446744073709551615), None),
    ("18446744073709551616", None, None),
    ("", None, None),
    ("4294967295", Some(4294967295), Some(4294967295)),
    ("4294967296", Some(4294967296), None),
];

#[test]
fn words_and_numbers(rt: HostRuntime) {
    let word = b"one".as_slice();
    let rest = b" three".as_slice();
    same(&rt, &cut(b"one  three"), &(word, Some(rest)));
    same(&rt, &cut(b"one"), &(word, None));
    for (text, number, small) in &NUMBERS {
        same(&rt, &number_of(text.as_bytes()), number);
        same(&rt, &small_number_of(text.as_bytes()), small);
    }
    spells_one_step();
}

#[test]
fn blocks_of_steps(rt: HostRuntime) {
    for (line, block) in &[
        ("ask 1 2 load", 2),
        ("request 3 1", 3),
        ("forward 4 1", 4),
        ("response 5 1", 5),
    ] {
        let step = step_of(line).expect(&rt, "a step");
        same_at(&rt, &step.block(), &BlockId(*block), line);
    }
}

/// Pulls until nothing is left, three bytes a call at most. It answers what came, and whether the source failed.
fn pull_all<S: Source>(rt: &impl Abort, alloc: Global, source: &mut S) -> (Vec<u8>, bool) {
    let mut found = Vec::new(alloc);
    let mut buffer = [0u8; 3];
    for _ in 0..100 {
        match source.pull(&mut buffer) {
            Ok(0) => return (found, false),
            Ok(n) => found.extend_from_slice(&buffer[..n]).expect(rt, "memory"),
            Err(Failed) => return (found, true),
        }
    }
    panic!(rt; "a source doesn't end")
}

const TEXT: &[u8] = b"steps and outcomes";

/// Compares what is pulled from a source, and whether it failed.
fn is_pulled<S: Source>(
    rt: &impl Abort,
    alloc: Global,
    source: &mut S,
    wanted: &[u8],
    failed: bool,
) {
    let (found, fails) = pull_all(rt, alloc, source);
    let at = (wanted, failed);
    same_at(rt, &(found.as_slice(), fails), &at, &at);
}

#[test]
fn sources_of_bytes(rt: HostRuntime) {
    is_pulled(&rt, rt.alloc(), &mut { TEXT }, TEXT, false);
    is_pulled(&rt, rt.alloc(), &mut FromRead::new(TEXT), TEXT, false);
    for (most, calls, whole, failed) in &[
        (1, 100, 18, false),
        (2, 4, 8, true),
        (7, 4, 12, true),
        (1, 0, 0, true),
    ] {
        let mut source = Faltering::over(TEXT, *most, *calls);
        is_pulled(&rt, rt.alloc(), &mut source, &TEXT[..*whole], *failed);
    }
}

/// Compares what comes through a sink that fails behind so many calls, and what the fault says of it.
fn is_put(rt: &impl Abort, alloc: Global, most: usize, calls: u64, written: Option<usize>) {
    let mut sink = Faltering::over(Buffer::open(alloc), most, calls);
    let fault = put_all(&mut sink, TEXT).err();
    same_at(rt, &fault.map(|f| f.written), &written, &(most, calls));
    let whole = TEXT.get(..written.unwrap_or(18));
    same_at(rt, &Some(sink.end().bytes()), &whole, &(most, calls));
}

/// Compares what comes through a writer that takes all.
fn is_put_whole(rt: &impl Abort, alloc: Global) {
    let mut out = Vec::new(alloc);
    let put = put_all(&mut ToWrite::new(&mut out), TEXT);
    same(rt, &put.is_ok(), &true);
    same(rt, &out.as_slice(), &TEXT);
}

#[test]
fn sinks_of_bytes(rt: HostRuntime) {
    for (most, calls, written) in &[
        (1, 18, None),
        (1, 17, Some(17)),
        (7, 2, Some(14)),
        (200, 1, None),
        (200, 0, Some(0)),
    ] {
        is_put(&rt, rt.alloc(), *most, *calls, *written);
    }
    is_put_whole(&rt, rt.alloc());
}
