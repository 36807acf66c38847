//! The keys of objects.

use crate::explanation::Explanation;
use crate::json::kind_of;
use crate::nearest::tell_words;
use crate::places::Path;
use crate::quoting::Quoted;
use serde_json::{Map, Value};

/// How many keys that are too many are told at most.
const MOST_TOLD: usize = 4;

/// Tells which of the keys that are due an object lacks, and which it has that are neither due nor allowed; or that the
/// value is no object. Answers whether there was something to tell.
pub fn tell_keys(
    told: &mut Explanation,
    path: &Path<'_>,
    value: &Value,
    due: &[&'static str],
    allowed: &[&'static str],
) -> bool {
    match value.as_object() {
        None => {
            tell_kind(told, path, value, "an object");
            true
        }
        Some(members) => {
            let lacks = tell_missing(told, path, value, due);
            let has_more = tell_more(told, path, members, due, allowed);
            lacks || has_more
        }
    }
}

/// Tells that a value is of another kind than the one that is due.
pub fn tell_kind(told: &mut Explanation, path: &Path<'_>, value: &Value, due: &str) {
    told.line(format_args!("{path} is {}, and {due} is due", kind_of(value)));
}

fn tell_missing(
    told: &mut Explanation,
    path: &Path<'_>,
    value: &Value,
    due: &[&'static str],
) -> bool {
    let mut lacks = false;
    for key in due {
        if value.get(*key).is_none() {
            told.line(format_args!("{path} lacks the key {}", Quoted(key.as_bytes())));
            lacks = true;
        }
    }
    lacks
}

fn tell_more(
    told: &mut Explanation,
    path: &Path<'_>,
    members: &Map<String, Value>,
    due: &[&'static str],
    allowed: &[&'static str],
) -> bool {
    let mut more = 0usize;
    for (key, _) in members.iter() {
        let key = key.as_str();
        if has_word(due, key) || has_word(allowed, key) {
            continue;
        }
        if more < MOST_TOLD {
            told.line(format_args!("{path} has the key {} too many", Quoted(key.as_bytes())));
            tell_allowed(told, key, due, allowed);
        }
        more = more.saturating_add(1);
    }
    if more > MOST_TOLD {
        told.line(format_args!("and {} more keys too many", more.saturating_sub(MOST_TOLD)));
    }
    more > 0
}

fn tell_allowed(told: &mut Explanation, key: &str, due: &[&'static str], allowed: &[&'static str]) {
    if allowed.is_empty() {
        tell_words(told, due, "its keys are:", key.as_bytes());
    } else {
        tell_words(told, allowed, "its keys may be:", key.as_bytes());
    }
}

fn has_word(words: &[&'static str], word: &str) -> bool {
    for one in words {
        if *one == word {
            return true;
        }
    }
    false
}
