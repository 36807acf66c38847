//! The nodes of a scenario, one by one, and how long its words are.

use crate::explanation::Explanation;
use crate::json::{items_at, kind_of, text_at};
use crate::keys::{tell_keys, tell_kind};
use crate::nearest::tell_words;
use crate::places::{MOST_LEVELS, Path};
use crate::quoting::{Bare, Quoted};
use crate::rooms::{Counted, greatest_in, tell_room};
use base::Shape;
use serde_json::Value;

/// How many asks a word has at most.
const LONGEST: u64 = 1_000_000;

/// What a node may be known by.
const FORMS: [&str; 6] = ["op", "seq", "any", "times", "of", "both"];

const ASKS: [&str; 3] = ["load", "store", "replace"];

/// Tells what a node's form has wrong, whatever stands below it.
pub fn tell_form(told: &mut Explanation, path: &Path<'_>, value: &Value) -> bool {
    if !value.is_object() {
        tell_kind(told, path, value, "an object");
        return true;
    }
    if value.get("op").is_some() {
        return tell_ask(told, path, value);
    }
    for key in ["seq", "any", "both"] {
        if let Some(children) = value.get(key) {
            return tell_list(told, path, value, key, children);
        }
    }
    if value.get("times").is_some() || value.get("of").is_some() {
        return tell_keys(told, path, value, &["times", "of"], &[])
            || tell_number(told, path, value, "times", u64::from(u32::MAX));
    }
    tell_no_form(told, path, value);
    true
}

fn tell_list(
    told: &mut Explanation,
    path: &Path<'_>,
    value: &Value,
    key: &'static str,
    children: &Value,
) -> bool {
    if tell_keys(told, path, value, &[key], &[]) {
        return true;
    }
    if !children.is_array() {
        tell_kind(told, &path.key(key), children, "an array of nodes");
        return true;
    }
    false
}

/// Tells that a node has none of the keys by which one is known.
fn tell_no_form(told: &mut Explanation, path: &Path<'_>, value: &Value) {
    told.line(format_args!("{path} has none of the keys of a node"));
    let first = match value.as_object() {
        Some(members) => match members.iter().next() {
            Some((key, _)) => key.as_str(),
            None => "",
        },
        None => "",
    };
    if !first.is_empty() {
        told.line(format_args!("its first key is {}", Quoted(first.as_bytes())));
    }
    tell_words(told, &FORMS, "a node is known by one of:", first.as_bytes());
}

fn tell_ask(told: &mut Explanation, path: &Path<'_>, value: &Value) -> bool {
    match text_at(value, "op") {
        Some("store") => {
            tell_keys(told, path, value, &["op", "core", "block", "value"], &[])
                || tell_numbers(told, path, value)
                || tell_number(told, path, value, "value", u64::MAX)
        }
        Some("load" | "replace") => {
            tell_keys(told, path, value, &["op", "core", "block"], &[])
                || tell_numbers(told, path, value)
        }
        Some(word) => {
            let quoted = Quoted(word.as_bytes());
            let path = path.key("op");
            told.line(format_args!("{path} is {quoted}, which is no ask"));
            tell_words(told, &ASKS, "there may stand:", word.as_bytes());
            true
        }
        None => {
            if let Some(op) = value.get("op") {
                tell_kind(told, &path.key("op"), op, "a text");
            }
            true
        }
    }
}

fn tell_numbers(told: &mut Explanation, path: &Path<'_>, value: &Value) -> bool {
    tell_number(told, path, value, "core", u64::from(u32::MAX))
        || tell_number(told, path, value, "block", u64::from(u32::MAX))
}

/// Tells that what stands at a key is no whole number up to this one.
fn tell_number(
    told: &mut Explanation,
    path: &Path<'_>,
    value: &Value,
    key: &'static str,
    most: u64,
) -> bool {
    let Some(number) = value.get(key) else {
        return false;
    };
    if number.as_u64().is_some_and(|n| n <= most) {
        return false;
    }
    let path = path.key(key);
    if number.is_number() {
        let number = Bare(path.spelled());
        told.line(format_args!("{path} is {number}, and a whole number from 0 to {most} is due"));
    } else {
        let kind = kind_of(number);
        told.line(format_args!("{path} is {kind}, and a whole number from 0 to {most} is due"));
    }
    true
}

/// Tells that an ask's core or block isn't there.
pub fn tell_shape(told: &mut Explanation, shape: Shape, path: &Path<'_>, value: &Value) -> bool {
    if value.get("op").is_none() {
        return false;
    }
    let core = tell_absent(told, shape, path, value, Counted::Caches);
    let block = tell_absent(told, shape, path, value, Counted::Blocks);
    core || block
}

fn tell_absent(
    told: &mut Explanation,
    shape: Shape,
    path: &Path<'_>,
    value: &Value,
    counted: Counted,
) -> bool {
    let (key, count) = (counted.key(), counted.in_shape(shape));
    let Some(number) = number_at(value, key) else {
        return false;
    };
    if number < u64::from(count) {
        return false;
    }
    let last = count.saturating_sub(1);
    let path = path.key(key);
    told.line(format_args!("{path} is {number}, and the {key}s are 0 to {last}"));
    tell_room(told, counted, number, greatest_in(path.bytes(), counted));
    true
}

fn number_at(value: &Value, key: &str) -> Option<u64> {
    value.get(key)?.as_u64()
}

/// Whether a node's longest word has more asks than a word may have.
pub fn has_many(value: &Value) -> bool {
    longest(value, MOST_LEVELS as u32) > LONGEST
}

/// How many asks the longest word of a node has, or the greatest number where it has more.
#[cycle(measuring)]
pub fn longest(value: &Value, levels: u32) -> u64 {
    if levels == 0 {
        return 0;
    }
    if let Some(children) = items_at(value, "any") {
        return greatest(children, levels - 1);
    }
    for key in ["seq", "both"] {
        if let Some(children) = items_at(value, key) {
            return total(children, levels - 1);
        }
    }
    match (value.get("of"), number_at(value, "times")) {
        (Some(child), Some(turns)) => turns.saturating_mul(longest(child, levels - 1)),
        _ => 1,
    }
}

#[cycle(measuring)]
fn greatest(children: &[Value], levels: u32) -> u64 {
    let mut length = 0u64;
    for child in children {
        length = length.max(longest(child, levels));
    }
    length
}

#[cycle(measuring)]
fn total(children: &[Value], levels: u32) -> u64 {
    let mut length = 0u64;
    for child in children {
        length = length.saturating_add(longest(child, levels));
    }
    length
}
