//! The cells of one side.

use crate::explanation::Explanation;
use crate::json::{items_at, text_at};
use crate::keys::{tell_keys, tell_kind};
use crate::nearest::{tell_names, tell_words};
use crate::places::Path;
use crate::quoting::Quoted;
use base::controller::{Listed, MOST_ACTIONS, Protocol, Side, named, named_of};
use serde_json::Value;

/// A cell as it is looked at: which of its side it is, counted from 0, and under which protocol.
#[derive(Clone, Copy)]
struct CellSpot<'a> {
    protocol: Protocol,
    side: Side,
    /// The way to the cells of its side.
    cells: &'a Path<'a>,
    number: usize,
}

impl<'a> CellSpot<'a> {
    fn path(self) -> Path<'a> {
        self.cells.item(self.number)
    }

    fn part(self, key: &'static str) -> Path<'a> {
        self.path().key(key)
    }

    fn part_of_entry(self, key: &'static str) -> Path<'a> {
        self.part("entry").key(key)
    }
}

/// Tells the first fault of the cells of a side, and answers whether there is one.
pub fn tell_cells<S: Listed, E: Listed, A: Listed>(
    told: &mut Explanation,
    protocol: Protocol,
    side: Side,
    path: &Path<'_>,
    cells: &[Value],
) -> bool {
    for (number, cell) in cells.iter().enumerate() {
        let spot = CellSpot {
            protocol,
            side,
            cells: &*path,
            number,
        };
        if tell_fault::<S, E, A>(told, spot, cell) || tell_twin(told, spot, cell, cells) {
            tell_cell(told, spot, cell);
            return true;
        }
    }
    false
}

fn tell_fault<S: Listed, E: Listed, A: Listed>(
    told: &mut Explanation,
    spot: CellSpot<'_>,
    cell: &Value,
) -> bool {
    tell_form(told, spot, cell)
        || tell_name::<S>(
            told,
            spot,
            &spot.part("state"),
            "state",
            text_at(cell, "state"),
        )
        || tell_name::<S>(
            told,
            spot,
            &spot.part_of_entry("next"),
            "state",
            next_of(cell),
        )
        || tell_name::<E>(
            told,
            spot,
            &spot.part("event"),
            "event",
            text_at(cell, "event"),
        )
        || tell_actions::<A>(told, spot, cell)
}

/// Tells which cell it is, as far as it says that.
fn tell_cell(told: &mut Explanation, spot: CellSpot<'_>, cell: &Value) {
    let side = spot.side.name();
    let number = spot.number;
    match (text_at(cell, "state"), text_at(cell, "event")) {
        (Some(state), Some(event)) => told.line(format_args!(
            "this is cell {number} of {side}, counted from 0, of state {} and event {}",
            Quoted(state.as_bytes()),
            Quoted(event.as_bytes())
        )),
        _ => told.line(format_args!("this is cell {number} of {side}, counted from 0")),
    }
}

/// Tells what a cell's form has wrong.
fn tell_form(told: &mut Explanation, spot: CellSpot<'_>, cell: &Value) -> bool {
    tell_keys(told, &spot.path(), cell, &["state", "event", "entry"], &[])
        || tell_no_text(told, &spot.part("state"), cell.get("state"))
        || tell_no_text(told, &spot.part("event"), cell.get("event"))
        || tell_entry(told, spot, cell)
}

fn tell_no_text(told: &mut Explanation, path: &Path<'_>, value: Option<&Value>) -> bool {
    match value {
        Some(value) if !value.is_string() => {
            tell_kind(told, path, value, "a text");
            true
        }
        _ => false,
    }
}

fn tell_entry(told: &mut Explanation, spot: CellSpot<'_>, cell: &Value) -> bool {
    let Some(entry) = cell.get("entry") else {
        return false;
    };
    let path = spot.part("entry");
    match entry.as_str() {
        Some("blank") | Some("stall") => false,
        Some(word) => {
            told.line(format_args!("{path} is {}, which is no entry", Quoted(word.as_bytes())));
            let front = "there may stand an object with the keys next and do, or a word:";
            tell_words(told, &["blank", "stall"], front, word.as_bytes());
            true
        }
        None if !entry.is_object() => {
            tell_kind(told, &path, entry, "\"blank\", \"stall\" or an object");
            true
        }
        None => tell_act(told, spot, entry),
    }
}

fn tell_act(told: &mut Explanation, spot: CellSpot<'_>, entry: &Value) -> bool {
    tell_keys(told, &spot.part("entry"), entry, &["next", "do"], &[])
        || tell_no_text(told, &spot.part_of_entry("next"), entry.get("next"))
        || tell_list(told, spot, entry.get("do"))
}

/// Tells what the list of actions has wrong, whatever their names.
fn tell_list(told: &mut Explanation, spot: CellSpot<'_>, list: Option<&Value>) -> bool {
    let path = spot.part_of_entry("do");
    let Some(list) = list else {
        return false;
    };
    match list.as_array() {
        None => {
            tell_kind(told, &path, list, "an array of actions");
            true
        }
        Some(actions) if actions.len() > MOST_ACTIONS => {
            told.line(format_args!(
                "{path} has {} actions, and {MOST_ACTIONS} are the most",
                actions.len()
            ));
            true
        }
        Some(actions) => tell_no_texts(told, &path, actions.as_slice()),
    }
}

fn tell_no_texts(told: &mut Explanation, path: &Path<'_>, actions: &[Value]) -> bool {
    for (number, action) in actions.iter().enumerate() {
        if tell_no_text(told, &path.item(number), Some(action)) {
            return true;
        }
    }
    false
}

fn next_of(cell: &Value) -> Option<&str> {
    text_at(cell.get("entry")?, "next")
}

/// Tells that a word is no name of its kind in the protocol, and which are.
fn tell_name<N: Listed>(
    told: &mut Explanation,
    spot: CellSpot<'_>,
    path: &Path<'_>,
    kind: &str,
    word: Option<&str>,
) -> bool {
    match word {
        Some(word) => tell_word::<N>(told, spot, path, kind, word),
        None => false,
    }
}

fn tell_word<N: Listed>(
    told: &mut Explanation,
    spot: CellSpot<'_>,
    path: &Path<'_>,
    kind: &str,
    word: &str,
) -> bool {
    let word = word.as_bytes();
    if named_of::<N>(spot.protocol, word).is_some() {
        return false;
    }
    let (side, protocol) = (spot.side.name(), spot.protocol.name());
    let quoted = Quoted(word);
    told.line(format_args!("{path} is {quoted}, which is no {kind} of {side} in {protocol}"));
    if named::<N>(word).is_some() {
        told.line(format_args!("{} has it", other(spot.protocol).name()));
    }
    tell_names::<N>(told, spot.protocol, "there may stand:", word);
    true
}

/// The other protocol.
fn other(protocol: Protocol) -> Protocol {
    match protocol {
        Protocol::Msi => Protocol::MsiE,
        Protocol::MsiE => Protocol::Msi,
    }
}

fn tell_actions<A: Listed>(told: &mut Explanation, spot: CellSpot<'_>, cell: &Value) -> bool {
    let Some(entry) = cell.get("entry") else {
        return false;
    };
    let path = spot.part_of_entry("do");
    for (number, action) in items_at(entry, "do").unwrap_or(&[]).iter().enumerate() {
        if let Some(word) = action.as_str() {
            if tell_word::<A>(told, spot, &path.item(number), "action", word) {
                return true;
            }
        }
    }
    false
}

/// Tells that a cell before has the same state and event.
fn tell_twin(told: &mut Explanation, spot: CellSpot<'_>, cell: &Value, cells: &[Value]) -> bool {
    for (number, earlier) in cells.iter().enumerate() {
        if number >= spot.number {
            return false;
        }
        if are_twins(earlier, cell) {
            let (path, other) = (spot.path(), spot.cells.item(number));
            told.line(format_args!("{path} and {other} are of the same state and event"));
            return true;
        }
    }
    false
}

fn are_twins(one: &Value, other: &Value) -> bool {
    text_at(one, "state") == text_at(other, "state")
        && text_at(one, "event") == text_at(other, "event")
}
