//! What is told of texts that are refused.

use crate::asserting::same_at;
use base::Shape;
use base::controller::Protocol;
use explaining::{explain_scenario, explain_step, explain_tables};
use std::alloc::Global;
use std::process::Abort;

/// Stops a test unless this is the first line that is told of a scenario for two caches and two blocks.
fn scenario_is_told(rt: &impl Abort, alloc: Global, text: &[u8], wanted: &str) {
    let shape = Shape::new(2, 2).expect(rt, "a shape");
    let told = explain_scenario(alloc, shape, text);
    let lines = told.text().expect(rt, "memory");
    same_at(rt, &lines.lines().next().unwrap_or(""), &wanted, &wanted);
}

/// Stops a test unless this is the first line that is told of tables of MSI.
fn tables_are_told(rt: &impl Abort, alloc: Global, text: &str, wanted: &str) {
    let told = explain_tables(alloc, Protocol::Msi, text.as_bytes());
    let lines = told.text().expect(rt, "memory");
    same_at(rt, &lines.lines().next().unwrap_or(""), &wanted, &wanted);
}

/// Scenarios with a fault, and its place.
const PLACES: [(&str, &str); 11] = [
    (
        "{\"both\":[\n  {\"seq\":[]},\n  {\"times\":2,\"of\":{\"any\":[\n    {\"op\":\"load\",\"core\":0,\"block\":0},\n    {\"op\":\"load\",\"core\":0,\"block\":9}]}}]}",
        "  $.both[1].of.any[1].block (line 5, column 35) is 9, and the blocks are 0 to 1",
    ),
    // Of a key that stands there twice the last value counts.
    (
        r#"{"op":"load","core":0,"core":8,"block":0}"#,
        "  $.core (line 1, column 30) is 8, and the cores are 0 to 1",
    ),
    (
        r#"{"core":8,"op":"load","core":0,"block":5}"#,
        "  $.block (line 1, column 40) is 5, and the blocks are 0 to 1",
    ),
    (
        r#"{"seq":[{"op":"load","core":9,"block":0}],"seq":[{"op":"load","core":1,"block":0},{"op":"load","core":2,"block":0}]}"#,
        "  $.seq[1].core (line 1, column 103) is 2, and the cores are 0 to 1",
    ),
    (
        r#"{"of":{"op":"load","core":7,"block":0},"times":1,"of":[]}"#,
        "  $.of (line 1, column 55) is an array, and an object is due",
    ),
    // A key with an escape.
    (
        r#"{"op":"load","c\u006fre":7,"block":0}"#,
        "  $.core (line 1, column 26) is 7, and the cores are 0 to 1",
    ),
    // Blanks, and ends of lines with CR.
    (
        "{\r\n\t\"op\"\r\n:\r\n\"lod\"}",
        "  $.op (line 4, column 1) is \"lod\", which is no ask",
    ),
    // Numbers as they are spelled.
    (
        r#"{"op":"store","core":0,"block":0,"value":18446744073709551616}"#,
        "  $.value (line 1, column 42) is 18446744073709551616, and a whole number from 0 to 18446744073709551615 is due",
    ),
    (
        r#"{"op":"load","core":-0,"block":0}"#,
        "  $.core (line 1, column 21) is -0, and a whole number from 0 to 4294967295 is due",
    ),
    (
        r#"{"times":1.50E+2,"of":{"seq":[]}}"#,
        "  $.times (line 1, column 10) is 1.50E+2, and a whole number from 0 to 4294967295 is due",
    ),
    (
        r#" [{"op":"load"}]"#,
        "  $ (line 1, column 2) is an array, and an object is due",
    ),
];

/// The same of tables.
const TABLE_PLACES: [(&str, &str); 4] = [
    // Brackets, commas and quotes in a text.
    (
        r#"{"cache":[{"event":"]}\",{\\","entry":"stall","state":"Q"}]}"#,
        "  $.cache[0].state (line 1, column 55) is \"Q\", which is no state of cache in msi",
    ),
    // A column counts bytes.
    (
        r#"{"cache":[{"event":"é","state":"Q","entry":"stall"}]}"#,
        "  $.cache[0].state (line 1, column 33) is \"Q\", which is no state of cache in msi",
    ),
    (
        "{\"cache\":[{\"state\":\"I\",\"event\":\"Inv\",\"entry\":\n{\"do\":[\"inv-ack\",\n [\"gets\"]],\"next\":\"I\"}}]}",
        "  $.cache[0].entry.do[1] (line 3, column 2) is an array, and a text is due",
    ),
    (
        "{\"directory\":[\n{\"state\":\"I\",\"event\":\"GetS\",\"entry\":\"stall\"},\n{\"state\":\"I\",\"event\":\"GetM\",\"entry\":\"stall\"},\n{\"state\":\"I\",\"event\":\"GetM\",\"entry\":\"blank\"}]}",
        "  $.directory[2] (line 4, column 1) and $.directory[1] (line 3, column 1) are of the same state and event",
    ),
];

#[test]
fn faults_have_their_places(rt: HostRuntime) {
    for (text, wanted) in &PLACES {
        scenario_is_told(&rt, rt.alloc(), text.as_bytes(), wanted);
    }
    for (text, wanted) in &TABLE_PLACES {
        tables_are_told(&rt, rt.alloc(), text, wanted);
    }
}

#[test]
fn a_long_number_is_cut(rt: HostRuntime) {
    let zeros = "00000000000000000000000000000000000000000000000000";
    let text = format!(in rt.alloc();
        r#"{{"times":1{zeros}{zeros}{zeros},"of":{{"seq":[]}}}}"#
    ).expect(&rt, "memory");
    let wanted = format!(in rt.alloc();
        "  $.times (line 1, column 10) is 1{zeros}0000000000000000000000000000000000000000000000000, cut behind 100 of 151 bytes, and a whole number from 0 to 4294967295 is due"
    ).expect(&rt, "memory");
    scenario_is_told(&rt, rt.alloc(), text.as_bytes(), wanted.as_str());
}

/// Texts that aren't JSON, and their first fault.
const FAULTS: [(&str, usize, usize, &str); 42] = [
    ("[1,]", 1, 4, "the text isn't JSON here: trailing comma"),
    (
        "{\"a\":1,}",
        1,
        8,
        "the text isn't JSON here: trailing comma",
    ),
    (
        "[1 2]",
        1,
        4,
        "the text isn't JSON here: expected `,` or `]`",
    ),
    (
        "{\"a\":1 \"b\":2}",
        1,
        8,
        "the text isn't JSON here: expected `,` or `}`",
    ),
    (
        "[{}\n,1}",
        2,
        3,
        "the text isn't JSON here: expected `,` or `]`",
    ),
    (
        "{\"a\":[]]",
        1,
        8,
        "the text isn't JSON here: expected `,` or `}`",
    ),
    ("{\"a\" 1}", 1, 6, "the text isn't JSON here: expected `:`"),
    (
        "{1:2}",
        1,
        2,
        "the text isn't JSON here: key must be a string",
    ),
    (
        "{,}",
        1,
        2,
        "the text isn't JSON here: key must be a string",
    ),
    (
        "{\"a\":1,,}",
        1,
        8,
        "the text isn't JSON here: key must be a string",
    ),
    ("[,]", 1, 2, "the text isn't JSON here: expected value"),
    ("[}", 1, 2, "the text isn't JSON here: expected value"),
    ("]", 1, 1, "the text isn't JSON here: expected value"),
    ("{\"a\":}", 1, 6, "the text isn't JSON here: expected value"),
    ("[.5]", 1, 2, "the text isn't JSON here: expected value"),
    (
        "{}\n []",
        2,
        2,
        "the text isn't JSON here: trailing characters",
    ),
    (
        "[true1]",
        1,
        6,
        "the text isn't JSON here: expected `,` or `]`",
    ),
    ("[tru]", 1, 2, "the text isn't JSON here: expected ident"),
    ("[01]", 1, 3, "the text isn't JSON here: invalid number"),
    ("[1.]", 1, 4, "the text isn't JSON here: invalid number"),
    ("[-]", 1, 3, "the text isn't JSON here: invalid number"),
    ("[1e+-2]", 1, 5, "the text isn't JSON here: invalid number"),
    (
        "[\"a\nb\"]",
        1,
        4,
        "the text isn't JSON here: control character (\\u0000-\\u001F) found while parsing a string",
    ),
    (
        "[\"\\x\"]",
        1,
        4,
        "the text isn't JSON here: invalid escape",
    ),
    (
        "[\"\\u12g4\"]",
        1,
        7,
        "the text isn't JSON here: invalid escape",
    ),
    (
        "[\"\\ud800\"]",
        1,
        9,
        "the text isn't JSON here: lone leading surrogate in hex escape",
    ),
    (
        "[\"\\udc00\"]",
        1,
        8,
        "the text isn't JSON here: lone leading surrogate in hex escape",
    ),
    (
        "[1,\n 1e999]",
        2,
        2,
        "the text isn't JSON here: number out of range",
    ),
    (
        "[nul",
        1,
        5,
        "the text ends too early: EOF while parsing a value",
    ),
    (
        "[1e",
        1,
        4,
        "the text ends too early: EOF while parsing a value",
    ),
    (
        "[\"a ",
        1,
        5,
        "the text ends too early: EOF while parsing a string",
    ),
    (
        "[\"\\u12",
        1,
        7,
        "the text ends too early: EOF while parsing a string",
    ),
    (
        "[",
        1,
        2,
        "the text ends too early: EOF while parsing a list",
    ),
    (
        "{",
        1,
        2,
        "the text ends too early: EOF while parsing an object",
    ),
    (
        "{\"a\"",
        1,
        5,
        "the text ends too early: EOF while parsing an object",
    ),
    (
        "{\"a\":",
        1,
        6,
        "the text ends too early: EOF while parsing a value",
    ),
    (
        "{\"a\":[1]",
        1,
        9,
        "the text ends too early: EOF while parsing an object",
    ),
    (
        "{\"a\":1,",
        1,
        8,
        "the text ends too early: EOF while parsing a value",
    ),
    // Behind the last byte that isn't blank.
    (
        "{\"both\":[\n",
        1,
        10,
        "the text ends too early: EOF while parsing a list",
    ),
    (
        "[\n1,\r\n\t\n",
        2,
        3,
        "the text ends too early: EOF while parsing a value",
    ),
    (
        " \n ",
        1,
        1,
        "the text ends too early: EOF while parsing a value",
    ),
    // What comes first counts.
    ("[1,] [", 1, 4, "the text isn't JSON here: trailing comma"),
];

#[test]
fn what_is_no_json_has_a_reason(rt: HostRuntime) {
    for (text, line, column, reason) in &FAULTS {
        let wanted = format!(in rt.alloc();
            "  line {line}, column {column}, both counted from 1: {reason}"
        ).expect(&rt, "memory");
        scenario_is_told(&rt, rt.alloc(), text.as_bytes(), wanted.as_str());
    }
    scenario_is_told(
        &rt,
        rt.alloc(),
        b"[\"\xc3\"]",
        "  line 1, column 3, both counted from 1: the bytes from here on aren't UTF-8",
    );
}

/// Lines that are no steps, and what is told behind the words that may stand there.
const STEPS: [(&str, &str); 9] = [
    ("quit", "  a step is:"),
    ("load 0 0", "  a load is: ask C B load"),
    ("store 0 0 5", "  a store is: ask C B store V"),
    ("replace 0 0", "  a replacement is: ask C B replace"),
    ("asks 0 0 load", "  the nearest is ask"),
    ("ASK 0 0 load", "  the nearest is ask"),
    ("reponce 0 0", "  the nearest is response"),
    ("aks 0 0 load", "  a step is:"),
    ("x", "  a step is:"),
];

#[test]
fn steps_have_near_words(rt: HostRuntime) {
    for (line, wanted) in &STEPS {
        let told = explain_step(rt.alloc(), 200, line.as_bytes());
        let text = told.text().expect(&rt, "memory");
        let found = text.lines().nth(3).unwrap_or("");
        same_at(&rt, &found.starts_with(wanted), &true, &line);
    }
}
