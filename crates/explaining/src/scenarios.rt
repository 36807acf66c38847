use crate::explanation::Explanation;
use crate::json::{items_at, tell_not_json};
use crate::places::{MOST_LEVELS, Path, Turn};
use crate::trees::{has_many, longest, tell_form, tell_shape};
use base::Shape;
use serde_json::Value;
use std::alloc::Global;

/// Why a scenario of this shape is refused: the first fault of these bytes, with the path to its node. Nothing, where they
/// have none.
pub fn explain_scenario(alloc: Global, shape: Shape, bytes: &[u8]) -> Explanation {
    let mut told = Explanation::new(alloc);
    match Value::from_slice(alloc, bytes) {
        Ok(value) => tell_tree(&mut told, shape, bytes, &value),
        Err(error) => tell_not_json(&mut told, bytes, &error),
    }
    told
}

fn tell_tree(told: &mut Explanation, shape: Shape, bytes: &[u8], value: &Value) {
    let mut path = Path::root(bytes);
    if !tell_node(told, shape, &mut path, LEVELS, value) {
        tell_length(told, bytes, value);
    }
}

/// How many levels a scenario has at most.
const LEVELS: u32 = MOST_LEVELS as u32;

/// The keys of lists of children.
const LISTS: [&str; 3] = ["seq", "any", "both"];

/// Tells the first node with a fault, from this one on, and answers whether there is one.
#[cycle(searching)]
fn tell_node(
    told: &mut Explanation,
    shape: Shape,
    path: &mut Path<'_>,
    levels: u32,
    value: &Value,
) -> bool {
    if levels == 0 {
        told.line("this node stands at level 49, and 48 is the deepest:");
        told.line(*path);
        return true;
    }
    if tell_own(told, shape, path, value) {
        return true;
    }
    for key in LISTS {
        if let Some(children) = items_at(value, key) {
            return tell_children(told, shape, path, levels - 1, key, children);
        }
    }
    match value.get("of") {
        Some(child) => tell_child(told, shape, path, levels - 1, child),
        None => false,
    }
}

/// Tells what is wrong with a node itself.
fn tell_own(told: &mut Explanation, shape: Shape, path: &Path<'_>, value: &Value) -> bool {
    if tell_form(told, path, value) {
        return true;
    }
    if items_at(value, "any").is_some_and(<[Value]>::is_empty) {
        let path = path.key("any");
        told.line(format_args!("{path} has no child, and one is due at least"));
        return true;
    }
    tell_shape(told, shape, path, value)
}

#[cycle(searching)]
fn tell_children(
    told: &mut Explanation,
    shape: Shape,
    path: &mut Path<'_>,
    levels: u32,
    key: &'static str,
    children: &[Value],
) -> bool {
    let length = path.length();
    for (number, child) in children.iter().enumerate() {
        path.go(Turn::Key(key));
        path.go(Turn::Item(number));
        if tell_node(told, shape, path, levels, child) {
            return true;
        }
        path.back(length);
    }
    false
}

#[cycle(searching)]
fn tell_child(
    told: &mut Explanation,
    shape: Shape,
    path: &mut Path<'_>,
    levels: u32,
    child: &Value,
) -> bool {
    let length = path.length();
    path.go(Turn::Key("of"));
    let is_told = tell_node(told, shape, path, levels, child);
    path.back(length);
    is_told
}

/// Tells that the longest word is too long, and which node is the last one that alone makes it so.
fn tell_length(told: &mut Explanation, bytes: &[u8], value: &Value) {
    if !has_many(value) {
        return;
    }
    told.line(format_args!(
        "the longest word has {} asks, and 1000000 are the most",
        longest(value, LEVELS)
    ));
    let mut path = Path::root(bytes);
    let mut node = value;
    for _ in 0..MOST_LEVELS {
        let Some((key, number, child)) = long_child(node) else {
            break;
        };
        path.go(Turn::Key(key));
        if let Some(number) = number {
            path.go(Turn::Item(number));
        }
        node = child;
    }
    if path.length() > 0 {
        told.line(format_args!("{path} alone has {} of them", longest(node, LEVELS)));
    }
}

/// The first child that has too long a word itself: at which key, and which of its items, where these are more.
fn long_child(node: &Value) -> Option<(&'static str, Option<usize>, &Value)> {
    for key in LISTS {
        for (number, child) in items_at(node, key).unwrap_or(&[]).iter().enumerate() {
            if has_many(child) {
                return Some((key, Some(number), child));
            }
        }
    }
    let child = node.get("of")?;
    if has_many(child) {
        Some(("of", None, child))
    } else {
        None
    }
}
