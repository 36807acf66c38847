//! The texts of scenarios: why one is refused, and what a scenario is written as.

use crate::asserting::same_at;
use base::{Buffer, Faltering, Shape};
use scenario::{SaveFault, Scenario, ScenarioFault};
use std::alloc::Global;
use std::process::Abort;

/// The numbers are of two caches and three blocks.
fn try_read(
    rt: &impl Abort,
    alloc: Global,
    text: &[u8],
) -> Result<Scenario<Global>, ScenarioFault> {
    let shape = Shape::new(2, 3).expect(rt, "a shape");
    Scenario::read(alloc, alloc, text, shape)
}

fn read(rt: &impl Abort, alloc: Global, text: &str) -> Scenario<Global> {
    try_read(rt, alloc, text.as_bytes()).expect(rt, "a scenario")
}

/// Compares why a text is refused, if it is.
fn has_fault(
    rt: &impl Abort,
    alloc: Global,
    name: &str,
    text: &[u8],
    fault: Option<ScenarioFault>,
) {
    let found = try_read(rt, alloc, text).err();
    same_at(rt, &found, &fault, &name);
}

/// What comes before so many times, then the inner text, and then what comes behind so many times.
fn nested(
    rt: &impl Abort,
    alloc: Global,
    before: &str,
    inner: &str,
    behind: &str,
    times: usize,
) -> String {
    let front = before.repeat(alloc, times).expect(rt, "memory");
    let rest = behind.repeat(alloc, times).expect(rt, "memory");
    format!(in alloc; "{front}{inner}{rest}").expect(rt, "memory")
}

const LOAD: &str = r#"{"block":0,"core":0,"op":"load"}"#;

const REFUSED: [(&str, ScenarioFault); 41] = [
    ("", ScenarioFault::NotJson),
    ("{", ScenarioFault::NotJson),
    (r#"{"seq":[],}"#, ScenarioFault::NotJson),
    (r#"{"seq":[]} x"#, ScenarioFault::NotJson),
    ("[]", ScenarioFault::BadShape),
    ("null", ScenarioFault::BadShape),
    ("{}", ScenarioFault::BadShape),
    (r#"{"seq":{}}"#, ScenarioFault::BadShape),
    (r#"{"seq":[],"any":[]}"#, ScenarioFault::BadShape),
    (r#"{"all":[]}"#, ScenarioFault::BadShape),
    (r#"{"times":1}"#, ScenarioFault::BadShape),
    (r#"{"of":{"seq":[]}}"#, ScenarioFault::BadShape),
    (r#"{"times":-1,"of":{"seq":[]}}"#, ScenarioFault::BadShape),
    (
        r#"{"times":4294967296,"of":{"seq":[]}}"#,
        ScenarioFault::BadShape,
    ),
    (
        r#"{"times":1,"of":{"seq":[]},"seq":[]}"#,
        ScenarioFault::BadShape,
    ),
    (r#"{"op":"load","core":0}"#, ScenarioFault::BadShape),
    (
        r#"{"op":"loads","core":0,"block":0}"#,
        ScenarioFault::BadShape,
    ),
    (
        r#"{"op":"load","core":0,"block":0,"value":1}"#,
        ScenarioFault::BadShape,
    ),
    (
        r#"{"op":"load","core":0,"block":0,"x":1}"#,
        ScenarioFault::BadShape,
    ),
    (
        r#"{"op":"replace","core":0,"block":0,"value":1}"#,
        ScenarioFault::BadShape,
    ),
    (
        r#"{"op":"store","core":0,"block":0}"#,
        ScenarioFault::BadShape,
    ),
    (
        r#"{"op":"store","core":0,"block":0,"valu":1}"#,
        ScenarioFault::BadShape,
    ),
    (
        r#"{"op":"store","core":0,"block":0,"value":1,"x":1}"#,
        ScenarioFault::BadShape,
    ),
    (r#"{"any":[]}"#, ScenarioFault::EmptyAny),
    (r#"{"seq":[{"any":[]}]}"#, ScenarioFault::EmptyAny),
    (r#"{"times":0,"of":{"any":[]}}"#, ScenarioFault::EmptyAny),
    (
        r#"{"op":"load","core":2,"block":0}"#,
        ScenarioFault::OutOfShape,
    ),
    (
        r#"{"op":"load","core":0,"block":3}"#,
        ScenarioFault::OutOfShape,
    ),
    (
        r#"{"op":"store","core":2,"block":0,"value":1}"#,
        ScenarioFault::OutOfShape,
    ),
    (
        r#"{"op":"replace","core":0,"block":4294967295}"#,
        ScenarioFault::OutOfShape,
    ),
    (
        r#"{"times":4294967295,"of":{"op":"load","core":0,"block":0}}"#,
        ScenarioFault::TooLong,
    ),
    (
        r#"{"times":1000000,"of":{"times":1000000,"of":{"op":"load","core":0,"block":0}}}"#,
        ScenarioFault::TooLong,
    ),
    (
        r#"{"both":[{"times":1000000,"of":{"op":"load","core":0,"block":0}},{"op":"load","core":1,"block":2}]}"#,
        ScenarioFault::TooLong,
    ),
    (
        r#"{"op":"load","core":4294967296,"block":0}"#,
        ScenarioFault::BadShape,
    ),
    (
        r#"{"op":"load","core":0,"block":4294967296}"#,
        ScenarioFault::BadShape,
    ),
    // The first fault of a text.
    (
        r#"{"seq":[{"op":"load","core":2,"block":0},{"any":[]}]}"#,
        ScenarioFault::OutOfShape,
    ),
    (
        r#"{"seq":[{"any":[]},{"op":"load","core":2,"block":0}]}"#,
        ScenarioFault::EmptyAny,
    ),
    (
        r#"{"seq":[{"seq":[{"any":[]}]},{}]}"#,
        ScenarioFault::EmptyAny,
    ),
    (
        r#"{"seq":[{"seq":[{}]},{"any":[]}]}"#,
        ScenarioFault::BadShape,
    ),
    (r#"{"any":[{}],"x":1}"#, ScenarioFault::BadShape),
    (
        r#"{"seq":[{"times":4294967295,"of":{"op":"load","core":0,"block":0}},{"any":[]}]}"#,
        ScenarioFault::EmptyAny,
    ),
];

#[test]
fn texts_that_are_refused(rt: HostRuntime) {
    let alloc = rt.alloc();
    for (text, fault) in &REFUSED {
        has_fault(&rt, alloc, text, text.as_bytes(), Some(*fault));
    }
    let bytes = b"{\"\xff\":[]}";
    has_fault(&rt, alloc, "no UTF-8", bytes, Some(ScenarioFault::NotJson));
}

/// What is refused as any number of a scenario.
const NO_NUMBERS: [&str; 7] = [
    "1.0",
    "1e0",
    "-0",
    "-1",
    "18446744073709551616",
    "\"0\"",
    "null",
];

/// Holds that no number of a scenario is spelled in one of these ways.
fn are_no_numbers(rt: &impl Abort, alloc: Global, before: &str, behind: &str) {
    for number in &NO_NUMBERS {
        let text = format!(in alloc; "{before}{number}{behind}").expect(rt, "memory");
        has_fault(
            rt,
            alloc,
            text.as_str(),
            text.as_bytes(),
            Some(ScenarioFault::BadShape),
        );
    }
}

#[test]
fn numbers_that_are_refused(rt: HostRuntime) {
    for (before, behind) in &[
        (r#"{"op":"load","core":"#, r#","block":0}"#),
        (r#"{"op":"load","core":0,"block":"#, "}"),
        (r#"{"times":"#, r#","of":{"seq":[]}}"#),
        (r#"{"op":"store","core":0,"block":0,"value":"#, "}"),
    ] {
        are_no_numbers(&rt, rt.alloc(), before, behind);
    }
}

const EMPTY: &str = r#"{"seq":[]}"#;

const SEQ: &str = r#"{"seq":["#;

const MOST: &str = r#"{"times":4294967295,"of":"#;

const MILLION: &str = r#"{"times":0,"of":{"times":1000000,"of":{"times":1000000,"of":"#;

const ONE_MILLION: &str = r#"{"times":1000000,"of":"#;

const ONE_MORE: &str = r#"{"times":1000001,"of":"#;

const DEEP: Option<ScenarioFault> = Some(ScenarioFault::TooDeep);

const LONG: Option<ScenarioFault> = Some(ScenarioFault::TooLong);

/// What comes before, the inner text, what comes behind, how often, and why that is refused, if it is.
const NESTED: [(&str, &str, &str, usize, Option<ScenarioFault>); 14] = [
    (SEQ, EMPTY, "]}", 47, None),
    (SEQ, LOAD, "]}", 47, None),
    (SEQ, EMPTY, "]}", 48, DEEP),
    (SEQ, "{}", "]}", 48, DEEP),
    (SEQ, r#"{"any":[]}"#, "]}", 48, DEEP),
    (SEQ, "{}", "]}", 47, Some(ScenarioFault::BadShape)),
    (SEQ, EMPTY, "]}", 62, DEEP),
    (SEQ, EMPTY, "]}", 63, Some(ScenarioFault::NotJson)),
    (MOST, LOAD, "}", 47, LONG),
    (MOST, EMPTY, "}", 1, None),
    (MOST, EMPTY, "}", 47, None),
    (MILLION, LOAD, "}}}", 1, None),
    (ONE_MILLION, LOAD, "}", 1, None),
    (ONE_MORE, LOAD, "}", 1, LONG),
];

#[test]
fn levels_and_lengths(rt: HostRuntime) {
    for (before, inner, behind, times, fault) in &NESTED {
        let text = nested(&rt, rt.alloc(), before, inner, behind, *times);
        has_fault(&rt, rt.alloc(), text.as_str(), text.as_bytes(), *fault);
    }
}

/// Texts as they are written.
const TEXTS: [&str; 9] = [
    r#"{"block":0,"core":0,"op":"load"}"#,
    r#"{"block":2,"core":1,"op":"store","value":18446744073709551615}"#,
    r#"{"block":0,"core":1,"op":"replace"}"#,
    r#"{"seq":[]}"#,
    r#"{"both":[]}"#,
    r#"{"of":{"any":[{"block":0,"core":0,"op":"load"},{"block":0,"core":0,"op":"store","value":5}]},"times":2}"#,
    r#"{"both":[{"seq":[{"block":0,"core":0,"op":"load"},{"block":0,"core":0,"op":"store","value":5}]},{"block":0,"core":1,"op":"replace"}]}"#,
    r#"{"seq":[{"of":{"block":0,"core":0,"op":"load"},"times":0},{"block":0,"core":0,"op":"store","value":5}]}"#,
    r#"{"any":[{"seq":[]},{"block":0,"core":0,"op":"load"}]}"#,
];

/// Compares what a scenario is written as.
fn writes(rt: &impl Abort, alloc: Global, scenario: &Scenario<Global>, wanted: &str) {
    let mut sink = Buffer::open(alloc);
    scenario.write(alloc, &mut sink).expect(rt, "memory");
    same_at(rt, &sink.bytes(), &wanted.as_bytes(), &wanted);
}

/// Reads a text, and compares what that is written as.
fn is_written(rt: &impl Abort, alloc: Global, text: &str, wanted: &str) {
    let scenario = read(rt, alloc, text);
    writes(rt, alloc, &scenario, wanted);
}

#[test]
fn texts_read_and_written(rt: HostRuntime) {
    for text in &TEXTS {
        is_written(&rt, rt.alloc(), text, text);
    }
}

const SPELLED: [&str; 3] = [
    r#"{"op":"store","core":1,"block":2,"value":7}"#,
    " { \"core\" : 1 , \"value\" : 7 ,\n\"op\" : \"store\" , \"block\" : 2 } ",
    r#"{"op":"load","core":9,"block":2,"value":7,"op":"store","core":1}"#,
];

#[test]
fn other_spellings_of_a_text(rt: HostRuntime) {
    let wanted = r#"{"block":2,"core":1,"op":"store","value":7}"#;
    for text in &SPELLED {
        is_written(&rt, rt.alloc(), text, wanted);
    }
}

/// Compares what comes through a sink that fails behind so many calls, which may be enough.
fn comes_through(
    rt: &impl Abort,
    alloc: Global,
    scenario: &Scenario<Global>,
    most: usize,
    calls: u64,
    are_enough: bool,
) {
    let at = (most, calls);
    let text = TEXTS[6].as_bytes();
    let mut sink = Faltering::over(Buffer::open(alloc), most, calls);
    let written = scenario.write(alloc, &mut sink);
    let out = sink.end().bytes();
    let count = out.len() as u64;
    let fault = SaveFault::Device { written: count };
    let wanted = if are_enough { Ok(()) } else { Err(fault) };
    same_at(rt, &written, &wanted, &at);
    same_at(rt, &text.starts_with(out), &true, &at);
    let is_whole = out.len() == text.len();
    same_at(rt, &is_whole, &are_enough, &at);
}

#[test]
fn sinks_that_fail_on_the_way(rt: HostRuntime) {
    let scenario = read(&rt, rt.alloc(), TEXTS[6]);
    for (most, enough) in &[(1, 133), (7, 19), (200, 1)] {
        for calls in 0..*enough {
            comes_through(&rt, rt.alloc(), &scenario, *most, calls, false);
        }
        comes_through(&rt, rt.alloc(), &scenario, *most, *enough, true);
    }
}
