use crate::explanation::Explanation;
use crate::faults::{JsonFault, first_fault, first_large_number};
use crate::lines::{Position, line_of};
use crate::quoting::Quoted;
use crate::reasons::Reason;
use serde_json::{Error, Value};
use std::alloc::Global;

/// What kind of value this is.
pub fn kind_of(value: &Value) -> &'static str {
    match value {
        Value::Null => "null",
        Value::Bool(_) => "true or false",
        Value::Number(_) => "a number",
        Value::String(_) => "a text",
        Value::Array(_) => "an array",
        Value::Object(_) => "an object",
    }
}

/// The text at a key of an object.
pub fn text_at<'a>(value: &'a Value, key: &str) -> Option<&'a str> {
    value.get(key)?.as_str()
}

/// The items of the array at a key of an object.
pub fn items_at<'a>(value: &'a Value, key: &str) -> Option<&'a [Value]> {
    Some(value.get(key)?.as_array()?.as_slice())
}

/// Tells why bytes aren't JSON, and where.
pub fn tell_not_json(told: &mut Explanation, bytes: &[u8], error: &Error) {
    if error.is_memory() {
        return;
    }
    if bytes.is_empty() {
        told.line("there is no text: an empty one isn't JSON");
        return;
    }
    match fault_of(told.alloc(), bytes) {
        Some(fault) => tell_fault(told, bytes, fault),
        None => told.line("the text isn't JSON"),
    }
}

/// The first fault of a text that isn't read as JSON.
fn fault_of(alloc: Global, bytes: &[u8]) -> Option<JsonFault> {
    if let Some(fault) = first_fault(bytes) {
        return Some(fault);
    }
    Some(JsonFault {
        at: first_large_number(alloc, bytes)?,
        reason: Reason::OutOfRange,
    })
}

fn tell_fault(told: &mut Explanation, bytes: &[u8], fault: JsonFault) {
    let place = Position::of(bytes, fault.at);
    told.line(format_args!("{place}, both counted from 1: {}", fault.reason));
    tell_around(
        told,
        line_of(bytes, place.line),
        place.column.saturating_sub(1),
    );
}

/// How many bytes are told in front of a fault, and from there on.
const MOST_AROUND: usize = 40;

/// Tells what of a line stands in front of a place, counted from 0, and from there on.
fn tell_around(told: &mut Explanation, line: &[u8], at: usize) {
    let at = at.min(line.len());
    let (front, rest) = line.split_at(at);
    if !front.is_empty() {
        let from = front.len().saturating_sub(MOST_AROUND);
        told.line(format_args!("in front of it: {}", Quoted(&front[from..])));
    }
    if !rest.is_empty() {
        let to = rest.len().min(MOST_AROUND);
        told.line(format_args!("from there on: {}", Quoted(&rest[..to])));
    }
}
