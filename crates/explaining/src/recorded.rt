//! Single lines of a recording.

use crate::explanation::Explanation;
use crate::nearest::{tell_names, tell_words};
use crate::quoting::Quoted;
use crate::steps::{DueWord, tell_wrong, wrong_in};
use base::controller::{Listed, MOST_ACTIONS, Protocol, Side, named_of};
use base::text::{cut, number_of, small_number_of};
use base::{Outcome, Step};
use cache_table::{CacheAction, CacheChange, CacheEvent, CacheState};
use directory_table::{DirectoryAction, DirectoryChange, DirectoryEvent, DirectoryState};

/// Tells the names of protocols.
pub fn tell_protocol(told: &mut Explanation, line: &[u8]) {
    let (_, word) = cut(line);
    tell_words(
        told,
        &["msi", "msi+e"],
        "the protocols are:",
        word.unwrap_or(&[]),
    );
}

/// Tells what is wrong with a line of opening values.
pub fn tell_opening(told: &mut Explanation, blocks: u32, line: &[u8]) {
    let (first, mut rest) = cut(line);
    if first != b"opening".as_slice() {
        return;
    }
    let mut values = 0usize;
    for _ in 0..line.len() {
        let Some(text) = rest else {
            break;
        };
        let (word, more) = cut(text);
        if number_of(word).is_none() {
            told.line(format_args!(
                "value {values}, counted from 0, is {}, and a number below 2^64 is due",
                Quoted(word)
            ));
            return;
        }
        values = values.saturating_add(1);
        rest = more;
    }
    told.line(format_args!("values that are due: {blocks}, values that stand there: {values}"));
}

/// Tells what is wrong with a line of a cell, behind a line of another one or none.
pub fn tell_cell(told: &mut Explanation, protocol: Protocol, line: &[u8], before: Option<&[u8]>) {
    let (first, rest) = cut(line);
    let (side, rest) = cut(rest.unwrap_or(&[]));
    if first != b"cell".as_slice() {
        tell_words(told, &["cell"], "its first word has to be:", first);
        return;
    }
    let rest = rest.unwrap_or(&[]);
    let is_told = match side {
        b"cache" => tell_parts::<CacheState, CacheEvent, CacheAction>(told, protocol, rest),
        b"directory" => {
            tell_parts::<DirectoryState, DirectoryEvent, DirectoryAction>(told, protocol, rest)
        }
        _ => {
            told.line(format_args!("word 2 is {}", Quoted(side)));
            tell_words(told, &["cache", "directory"], "there may stand:", side);
            true
        }
    };
    if !is_told {
        tell_place(told, line, before);
    }
}

/// Tells what of a cell isn't of its kind.
fn tell_parts<S: Listed, E: Listed, A: Listed>(
    told: &mut Explanation,
    protocol: Protocol,
    text: &[u8],
) -> bool {
    let (state, rest) = cut(text);
    if tell_name::<S>(told, protocol, "state", state) {
        return true;
    }
    let (event, rest) = cut(rest.unwrap_or(&[]));
    if tell_name::<E>(told, protocol, "event", event) {
        return true;
    }
    let (word, rest) = cut(rest.unwrap_or(&[]));
    match (word, rest) {
        (b"blank" | b"stall", None) => false,
        (b"act", Some(rest)) => tell_act::<S, A>(told, protocol, rest),
        _ => {
            told.line(format_args!("the entry begins with {}", Quoted(word)));
            tell_words(
                told,
                &["blank", "stall", "act"],
                "there may stand, the last with more behind it:",
                word,
            );
            true
        }
    }
}

fn tell_act<S: Listed, A: Listed>(told: &mut Explanation, protocol: Protocol, text: &[u8]) -> bool {
    let (next, mut rest) = cut(text);
    if tell_name::<S>(told, protocol, "next state", next) {
        return true;
    }
    for _ in 0..MOST_ACTIONS {
        let Some(text) = rest else {
            return false;
        };
        let (word, more) = cut(text);
        if tell_name::<A>(told, protocol, "action", word) {
            return true;
        }
        rest = more;
    }
    if rest.is_some() {
        told.line(format_args!("it has more than {MOST_ACTIONS} actions, which are the most"));
    }
    rest.is_some()
}

fn tell_name<N: Listed>(
    told: &mut Explanation,
    protocol: Protocol,
    kind: &str,
    word: &[u8],
) -> bool {
    if named_of::<N>(protocol, word).is_some() {
        return false;
    }
    let name = protocol.name();
    told.line(format_args!("the {kind} is {}, which {name} hasn't got", Quoted(word)));
    tell_names::<N>(told, protocol, "there may stand:", word);
    true
}

/// Tells that a cell is out of order, or else that it is the protocol's own.
fn tell_place(told: &mut Explanation, line: &[u8], before: Option<&[u8]>) {
    if let Some(before) = before {
        if number_of_cell(line) <= number_of_cell(before) {
            told.line(format_args!("it is out of order behind {}", Quoted(before)));
            told.line("cells stand in the order in which msi tables prints them, each once");
            return;
        }
    }
    told.line(
        "it is what the protocol's own tables have there, and only cells that differ are told",
    );
}

/// The number of the cell of a line, in the order of all cells.
fn number_of_cell(line: &[u8]) -> usize {
    if let Some(found) = CacheChange::read(Side::Cache, line) {
        return place_of(found.state, found.event);
    }
    match DirectoryChange::read(Side::Directory, line) {
        Some(found) => place_of(found.state, found.event).saturating_add(1000),
        None => 0,
    }
}

fn place_of<S: Listed, E: Listed>(state: S, event: E) -> usize {
    state
        .number()
        .saturating_mul(E::all().len())
        .saturating_add(event.number())
}

/// Tells what is wrong with a line of an entry, where there are so many seats.
pub fn tell_entry(told: &mut Explanation, seats: u32, line: &[u8]) {
    let Some(entry) = behind_owner(told, seats, line) else {
        return;
    };
    match Step::read_front(entry) {
        None => match wrong_in(entry, DueWord::Step, false) {
            None => told.line("behind the step \"= OUTCOME\" is due"),
            wrong => tell_wrong(told, wrong),
        },
        Some((_, [b'=', b' ', outcome @ ..])) => tell_outcome(told, outcome),
        Some((_, rest)) => {
            told.line(format_args!(
                "behind the step stands {}, and \"= OUTCOME\" is due",
                Quoted(rest)
            ));
        }
    }
}

/// What stands behind the owner of an entry, who is told of if it isn't one.
fn behind_owner<'a>(told: &mut Explanation, seats: u32, line: &'a [u8]) -> Option<&'a [u8]> {
    if seats == 0 {
        if cut(line).0 == b"by".as_slice() {
            told.line("there are no seats, so no entry has one");
            return None;
        }
        return Some(line);
    }
    let (by, rest) = cut(line);
    let (seat, rest) = cut(rest.unwrap_or(&[]));
    let is_seat = small_number_of(seat).is_some_and(|seat| seat < seats);
    if by != b"by".as_slice() || !is_seat {
        told.line(format_args!("in front of the step \"by K \" is due, with K below {seats}"));
        return None;
    }
    rest
}

fn tell_outcome(told: &mut Explanation, outcome: &[u8]) {
    if Outcome::read(outcome).is_some() {
        return;
    }
    told.line(format_args!("the outcome is {}", Quoted(outcome)));
    tell_wrong(told, wrong_in(outcome, DueWord::Outcome, true));
    told.line(
        "an outcome is: sent | moved | load C V | store C V | held | absent | idle | blank | broken",
    );
}
