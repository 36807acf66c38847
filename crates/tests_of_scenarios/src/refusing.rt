//! Calls on scenarios that are made again behind a refusal. `ci/refuse-growths` refuses each of their growths in turn; where
//! nothing is refused they are plain calls.

use crate::asserting::same;
use crate::letters::{letter_of, offered, try_read};
use base::{Buffer, NoMemory};
use cursors::Cursor;
use scenario::{Rest, SaveFault, Scenario, ScenarioFault};
use std::alloc::Global;
use std::process::Abort;
use std::test::Fail;

/// Trees as they are written, with the asks that the first offers are.
const TREES: [(&str, &str); 4] = [
    (
        r#"{"of":{"any":[{"block":0,"core":0,"op":"load"},{"block":0,"core":0,"op":"store","value":5}]},"times":2}"#,
        "LL",
    ),
    (
        r#"{"both":[{"seq":[{"block":0,"core":0,"op":"load"},{"block":0,"core":0,"op":"store","value":5}]},{"block":0,"core":1,"op":"replace"}]}"#,
        "LSR",
    ),
    (
        r#"{"seq":[{"of":{"block":0,"core":0,"op":"load"},"times":0},{"block":0,"core":0,"op":"store","value":5}]}"#,
        "S",
    ),
    (
        r#"{"any":[{"seq":[]},{"block":0,"core":0,"op":"load"}]}"#,
        "L",
    ),
];

fn read_at_last(rt: &impl Abort, alloc: Global, text: &str) -> Scenario<Global> {
    match try_read(rt, alloc, text) {
        Ok(tree) => tree,
        Err(fault) => {
            same(rt, &fault, &ScenarioFault::NoMemory);
            try_read(rt, alloc, text).expect(rt, "a second refusal")
        }
    }
}

/// Compares what came of a write that was refused: nothing where memory was.
fn came_of_refusal(rt: &impl Abort, out: &[u8], text: &str, fault: SaveFault) {
    let written = match fault {
        SaveFault::NoMemory => 0,
        SaveFault::Device { written } => written,
    };
    same(rt, &text.as_bytes().starts_with(out), &true);
    same(rt, &(out.len() as u64), &written);
}

/// Compares what a tree is written as by a call that may be refused, and answers whether it was.
fn was_refused(rt: &impl Abort, alloc: Global, tree: &Scenario<Global>, text: &str) -> bool {
    let mut sink = Buffer::open(alloc);
    if let Err(fault) = tree.write(alloc, &mut sink) {
        came_of_refusal(rt, sink.bytes(), text, fault);
        return true;
    }
    same(rt, &sink.bytes(), &text.as_bytes());
    false
}

/// Compares what a tree is written as. Of a write that was refused memory nothing went out.
fn is_written(rt: &impl Abort, alloc: Global, tree: &Scenario<Global>, text: &str) {
    if was_refused(rt, alloc, tree, text) {
        same(rt, &was_refused(rt, alloc, tree, text), &false);
    }
}

/// Compares the offers.
fn offers<R: Rest>(rt: &impl Abort, alloc: Global, rest: &R, wanted: &str) -> Result<(), NoMemory> {
    let found = offered(rt, alloc, rest)?;
    same(rt, &found.as_str(), &wanted);
    Ok(())
}

/// Takes the first offer, at the second call where the first one is refused memory and changes nothing.
fn take_at_last<R: Rest<Alloc = Global>>(
    rt: &impl Abort,
    alloc: Global,
    rest: &mut R,
    wanted: char,
) -> Result<(), NoMemory> {
    let before = offered(rt, alloc, rest)?;
    let taken = match rest.take(alloc, 0) {
        Ok(taken) => taken,
        Err(_) => {
            offers(rt, alloc, rest, before.as_str())?;
            rest.take(alloc, 0).expect(rt, "a second refusal")
        }
    };
    same(rt, &letter_of(taken), &Some(wanted));
    Ok(())
}

/// Takes the first offer at each turn, until there are none.
fn take_all<R: Rest<Alloc = Global>>(
    rt: &impl Abort,
    alloc: Global,
    rest: &mut R,
    letters: &str,
) -> Result<(), NoMemory> {
    for wanted in letters.chars() {
        take_at_last(rt, alloc, rest, wanted)?;
    }
    same(rt, &rest.may_end(), &true);
    offers(rt, alloc, rest, "")
}

fn copy_at_last(rt: &impl Abort, alloc: Global, tree: &Scenario<Global>) -> Scenario<Global> {
    match tree.copy_in(alloc) {
        Ok(copy) => copy,
        Err(_) => tree.copy_in(alloc).expect(rt, "a second refusal"),
    }
}

fn take_copy(
    rt: &impl Abort,
    alloc: Global,
    tree: &Scenario<Global>,
    letters: &str,
) -> Result<(), NoMemory> {
    let mut copy = copy_at_last(rt, alloc, tree);
    take_all(rt, alloc, &mut copy, letters)
}

fn take_cursor(
    rt: &impl Abort,
    alloc: Global,
    tree: &Scenario<Global>,
    letters: &str,
) -> Result<(), NoMemory> {
    let mut cursor: Cursor<'_, Global, Global> = Cursor::open(tree);
    take_all(rt, alloc, &mut cursor, letters)
}

/// Takes a copy of a tree and takes it by a cursor, neither of which changes the tree.
fn is_taken(
    rt: &impl Abort,
    alloc: Global,
    tree: &Scenario<Global>,
    text: &str,
    letters: &str,
) -> Result<(), NoMemory> {
    is_written(rt, alloc, tree, text);
    take_copy(rt, alloc, tree, letters)?;
    is_written(rt, alloc, tree, text);
    take_cursor(rt, alloc, tree, letters)?;
    is_written(rt, alloc, tree, text);
    Ok(())
}

#[test]
fn a_scenario_is_read_written_and_taken(rt: HostRuntime) -> Result<(), Fail> {
    for (text, letters) in &TREES {
        let tree = read_at_last(&rt, rt.alloc(), text);
        is_taken(&rt, rt.alloc(), &tree, text, letters)?;
    }
    Ok(())
}
