//! The form of one JSON value, before those under it are looked at.

ghost use Rattle.std.specs.Prelude.{◌≡◌, codes, option_map};
ghost use Rattle.serde_json.specs.View.{view, items_view};
ghost use Rattle.scenario.specs.Nodes.{ask_of, asked, has_keys, list_of, node_of, number_at, turns_of};
ghost use Rattle.scenario.specs.inner.Walk.{form_node};

use base::{Ask, BlockId, CacheId, CoreAsk};
use serde_json::Value;

/// The form of one node. The values of its children may have none.
#[derive(Clone, Copy)]
pub enum NodeForm<'a> {
    One(CoreAsk),
    Seq(&'a [Value]),
    Any(&'a [Value]),
    Times(u32, &'a Value),
    Both(&'a [Value]),
}

/// The form of the value, if it has exactly the keys of one, and these have what belongs there.
pub fn form_of(value: &Value) -> Option<NodeForm<'_>>
    ensures { option_map form_node result ≡ node_of (view value.now) }
{
    if let Some(ask) = ask_of(value) {
        return Some(NodeForm::One(ask));
    }
    if let Some(children) = list_of(value, "seq") {
        return Some(NodeForm::Seq(children));
    }
    if let Some(children) = list_of(value, "any") {
        return Some(NodeForm::Any(children));
    }
    if let Some(children) = list_of(value, "both") {
        return Some(NodeForm::Both(children));
    }
    turns_of(value)
}

fn ask_of(value: &Value) -> Option<CoreAsk>
    ensures { result ≡ ask_of (view value.now) }
{
    let core = CacheId(small_number_at(value, "core")?);
    let block = BlockId(small_number_at(value, "block")?);
    let ask = asked(value.get("op")?.as_str()?, value)?;
    Some(CoreAsk { core, block, ask })
}

/// What the word asks in this value.
fn asked(word: &str, value: &Value) -> Option<Ask>
    ensures { result ≡ asked word.now (view value.now) }
{
    match word {
        "load" if has_keys(value, 3) => Some(Ask::Load),
        "replace" if has_keys(value, 3) => Some(Ask::Replace),
        "store" if has_keys(value, 4) => Some(Ask::Store(number_at(value, "value")?)),
        _ => None,
    }
}

fn turns_of(value: &Value) -> Option<NodeForm<'_>>
    ensures { option_map form_node result ≡ turns_of (view value.now) }
{
    if !has_keys(value, 2) {
        return None;
    }
    Some(NodeForm::Times(small_number_at(value, "times")?, value.get("of")?))
}

/// The array at the key, where the value is an object of this key alone.
fn list_of<'a>(value: &'a Value, key: &str) -> Option<&'a [Value]>
    ensures { option_map (λ values. items_view values.now) result ≡ list_of key.now (view value.now) }
{
    if !has_keys(value, 1) {
        return None;
    }
    Some(value.get(key)?.as_array()?.as_slice())
}

fn number_at(value: &Value, key: &str) -> Option<u64>
    ensures { result ≡ number_at 64 key.now (view value.now) }
{
    value.get(key)?.as_u64()
}

fn small_number_at(value: &Value, key: &str) -> Option<u32>
    ensures { result ≡ number_at 32 key.now (view value.now) }
{
    u32::try_from(value.get(key)?.as_u64()?).ok()
}

/// Whether the value is an object of so many keys.
#[tactic(auto, using(crate::proofs::Values::counts))]
fn has_keys(value: &Value, count: usize) -> bool
    ensures { result ≡ has_keys count (view value.now) }
{
    match value.as_object() {
        Some(members) => members.len() == count,
        None => false,
    }
}
