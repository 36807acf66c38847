use crate::cells::tell_cells;
use crate::explanation::Explanation;
use crate::json::{items_at, tell_not_json};
use crate::keys::{tell_keys, tell_kind};
use crate::places::Path;
use base::controller::{Protocol, Side};
use cache_table::{CacheAction, CacheEvent, CacheState};
use directory_table::{DirectoryAction, DirectoryEvent, DirectoryState};
use serde_json::Value;
use std::alloc::Global;

/// Why overrides of a protocol's tables are refused: the first fault of these bytes, with its place. Nothing, where they have
/// none.
pub fn explain_tables(alloc: Global, protocol: Protocol, bytes: &[u8]) -> Explanation {
    let mut told = Explanation::new(alloc);
    match Value::from_slice(alloc, bytes) {
        Ok(value) => tell_tables(&mut told, protocol, bytes, &value),
        Err(error) => tell_not_json(&mut told, bytes, &error),
    }
    told
}

fn tell_tables(told: &mut Explanation, protocol: Protocol, bytes: &[u8], value: &Value) {
    let root = Path::root(bytes);
    if tell_sides(told, &root, value) {
        return;
    }
    let cache = items_at(value, "cache").unwrap_or(&[]);
    let path = root.key("cache");
    if tell_cells::<CacheState, CacheEvent, CacheAction>(
        told,
        protocol,
        Side::Cache,
        &path,
        cache,
    ) {
        return;
    }
    let directory = items_at(value, "directory").unwrap_or(&[]);
    tell_cells::<DirectoryState, DirectoryEvent, DirectoryAction>(
        told,
        protocol,
        Side::Directory,
        &root.key("directory"),
        directory,
    );
}

/// Tells what is wrong with the outer object.
fn tell_sides(told: &mut Explanation, root: &Path<'_>, value: &Value) -> bool {
    tell_keys(told, root, value, &[], &["cache", "directory"])
        || tell_side(told, root, value, "cache")
        || tell_side(told, root, value, "directory")
}

fn tell_side(told: &mut Explanation, root: &Path<'_>, value: &Value, side: &'static str) -> bool {
    match value.get(side) {
        Some(cells) if !cells.is_array() => {
            tell_kind(told, &root.key(side), cells, "an array of cells");
            true
        }
        _ => false,
    }
}
