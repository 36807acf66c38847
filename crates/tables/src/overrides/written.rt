ghost use Rattle.std.specs.Prelude.{◌≡◌, ◌≤◌, IfSome, option_and_then, option_map, codes, length};
ghost use Rattle.serde_json.specs.Find.{as_array, get};
ghost use Rattle.serde_json.specs.View.{view, items_view};
ghost use Rattle.tables.specs.Written.{are_texts, few_texts, has_keys, present, side_at, text_at, written_act, written_cell, written_entry};
ghost use Rattle.tables.specs.Written.{written_sides, written_word};
ghost use Rattle.tables.specs.inner.Seen.{HasFew, seen_cell, seen_entry, seen_sides, text};

use serde_json::Value;

/// The entry of a cell as it is written. `S` is a state, or its name.
#[derive(Drop)]
pub enum WrittenEntry<'a, S> {
    Blank,
    Stall,
    Act { next: S, actions: &'a [Value] },
}

/// A cell as it is written, before its names are looked up.
#[derive(Drop)]
pub struct WrittenCell<'a> {
    pub state: &'a str,
    pub event: &'a str,
    pub entry: WrittenEntry<'a, &'a str>,
}

/// The cells of both sides.
#[derive(Drop)]
pub struct WrittenSides<'a> {
    pub cache: &'a [Value],
    pub directory: &'a [Value],
}

pub fn written_sides(value: &Value) -> Option<WrittenSides<'_>>
    ensures { option_map seen_sides result ≡ written_sides (view value.now) }
{
    if !has_keys(value, present(value, "cache") + present(value, "directory")) {
        return None;
    }
    match (side_at(value, "cache"), side_at(value, "directory")) {
        (Some(cache), Some(directory)) => Some(WrittenSides { cache, directory }),
        _ => None,
    }
}

pub fn written_cell(value: &Value) -> Option<WrittenCell<'_>>
    ensures cell { option_map seen_cell result ≡ written_cell (view value.now) }
    ensures few { IfSome result (λ c. HasFew c.entry) }
{
    if !has_keys(value, 3) {
        return None;
    }
    match (
        text_at(value, "state"),
        text_at(value, "event"),
        entry_at(value),
    ) {
        (Some(state), Some(event), Some(entry)) => Some(WrittenCell {
            state,
            event,
            entry,
        }),
        _ => None,
    }
}

fn entry_at(value: &Value) -> Option<WrittenEntry<'_, &str>>
    ensures entry { option_map (seen_entry text) result ≡ option_and_then written_entry (get (codes "entry") (view value.now)) }
    ensures few { IfSome result HasFew }
{
    written_entry(value.get("entry")?)
}

fn written_entry(value: &Value) -> Option<WrittenEntry<'_, &str>>
    ensures entry { option_map (seen_entry text) result ≡ written_entry (view value.now) }
    ensures few { IfSome result HasFew }
{
    match value.as_str() {
        Some("blank") => Some(WrittenEntry::Blank),
        Some("stall") => Some(WrittenEntry::Stall),
        Some(_) => None,
        None => written_act(value),
    }
}

fn written_act(value: &Value) -> Option<WrittenEntry<'_, &str>>
    ensures entry { option_map (seen_entry text) result ≡ written_act (view value.now) }
    ensures few { IfSome result HasFew }
{
    if !has_keys(value, 2) {
        return None;
    }
    match (text_at(value, "next"), texts_at(value, "do")) {
        (Some(next), Some(actions)) => Some(WrittenEntry::Act { next, actions }),
        _ => None,
    }
}

/// The texts of the array at the key, which are eight at most.
#[tactic(auto, using(crate::proofs::Overriding::counts))]
fn texts_at<'a>(value: &'a Value, key: &str) -> Option<&'a [Value]>
    ensures texts { option_map (λ vs. items_view vs.now) result ≡ option_and_then few_texts (option_and_then as_array (get key.now (view value.now))) }
    ensures few { IfSome result (λ vs. length vs.now ≤ 8) }
{
    let texts = value.get(key)?.as_array()?.as_slice();
    if texts.len() > 8 || !are_texts(texts) {
        return None;
    }
    Some(texts)
}

/// Whether each value is a text.
fn are_texts(values: &[Value]) -> bool
    ensures { result ≡ are_texts (items_view values.now) }
{
    for value in values {
        if !value.is_string() {
            return false;
        }
    }
    true
}

/// Whether the value is an object of so many keys.
#[tactic(auto, using(crate::proofs::Overriding::counts))]
fn has_keys(value: &Value, count: usize) -> bool
    ensures { result ≡ has_keys count (view value.now) }
{
    match value.as_object() {
        Some(members) => members.len() == count,
        None => false,
    }
}

/// How often the key is there, which is once at most.
fn present(value: &Value, key: &str) -> usize
    ensures { result ≡ present key.now (view value.now) }
{
    usize::from(value.get(key).is_some())
}

fn text_at<'a>(value: &'a Value, key: &str) -> Option<&'a str>
    ensures { option_map (λ t. t.now) result ≡ text_at key.now (view value.now) }
{
    value.get(key)?.as_str()
}

/// The values of the array at the key, or none where the key isn't there.
fn side_at<'a>(value: &'a Value, key: &str) -> Option<&'a [Value]>
    ensures { option_map (λ vs. items_view vs.now) result ≡ side_at key.now (view value.now) }
{
    match value.get(key) {
        Some(side) => Some(side.as_array()?.as_slice()),
        None => Some(&[]),
    }
}
