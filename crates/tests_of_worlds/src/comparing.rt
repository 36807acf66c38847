//! What can be seen of two worlds has to be the same.

use crate::asserting::{same, same_at};
use base::{BlockId, CacheId};
use std::process::Abort;
use world::World;

/// Compares the lines of a cache, and whether the home has it among the sharers.
fn same_lines(rt: &impl Abort, found: &World, wanted: &World, cache: CacheId, block: BlockId) {
    let seen = (found.line(cache, block), found.shares(cache, block));
    let wanted = (wanted.line(cache, block), wanted.shares(cache, block));
    same_at(rt, &seen, &wanted, &block);
}

/// Compares what can be seen of a block, but for its lines.
fn same_blocks(rt: &impl Abort, found: &World, wanted: &World, block: BlockId) {
    same_at(rt, &found.home(block), &wanted.home(block), &block);
    same_at(rt, &found.latest(block), &wanted.latest(block), &block);
    same_at(rt, &found.readers(block), &wanted.readers(block), &block);
    same_at(rt, &found.writer(block), &wanted.writer(block), &block);
}

/// Compares what is enabled in two worlds.
fn same_choices(rt: &impl Abort, found: &World, wanted: &World) {
    same(rt, &found.enabled_count(), &wanted.enabled_count());
    for k in 0..wanted.enabled_count() {
        same(rt, &found.enabled_at(k), &wanted.enabled_at(k));
    }
}

/// Compares all that can be seen of these blocks and caches in two worlds, and of the worlds themselves.
pub fn same_worlds(rt: &impl Abort, found: &World, wanted: &World, blocks: &[u32], caches: &[u32]) {
    same(rt, &found.tested(), &wanted.tested());
    same(rt, &found.broken(), &wanted.broken());
    same(rt, &found.empty(), &wanted.empty());
    same_choices(rt, found, wanted);
    for block in blocks {
        same_blocks(rt, found, wanted, BlockId(*block));
        for cache in caches {
            same_lines(rt, found, wanted, CacheId(*cache), BlockId(*block));
        }
    }
}
