use base::{BlockId, CacheId};
use control::Line;
use retelling::{Story, Trip, put_holdings, put_home, put_line, put_message};
use sheet::Sheet;
use world::World;

/// Puts the state at a moment of a story, of those blocks that are looked at: each home, the lines that aren't as they
/// open, and the messages that are on their way.
pub fn put_start(story: &Story, blocks: &[bool], sheet: &mut Sheet) {
    sheet.push("before step ");
    sheet.put(&story.number());
    sheet.push("\n");
    for (number, looked_at) in (0..u32::MAX).zip(blocks.iter()) {
        if *looked_at {
            let block = BlockId(number);
            put_block_home(story.world(), block, sheet);
            put_lines(story.world(), block, sheet);
            put_trips(story, block, sheet);
        }
    }
}

/// Begins a line about a block.
fn put_block(block: BlockId, sheet: &mut Sheet) {
    sheet.push("block ");
    sheet.put(&block.0);
    sheet.push(" ");
}

fn put_block_home(world: &World, block: BlockId, sheet: &mut Sheet) {
    if let Some((state, owner, memory)) = world.home(block) {
        put_block(block, sheet);
        put_home(state, state, owner, sheet);
        put_holdings(world, block, memory, sheet);
        sheet.push("\n");
    }
}

fn put_lines(world: &World, block: BlockId, sheet: &mut Sheet) {
    for number in 0..world.shape().caches() {
        let cache = CacheId(number);
        let Some(line) = world.line(cache, block) else {
            break;
        };
        if line != Line::opened() {
            put_block(block, sheet);
            put_line(cache, line, line, sheet);
            sheet.push("\n");
        }
    }
}

fn put_trips(story: &Story, block: BlockId, sheet: &mut Sheet) {
    let [requests, forwards, responses] = story.flights().of(block);
    put_row(block, requests, sheet);
    put_row(block, forwards, sheet);
    put_row(block, responses, sheet);
}

fn put_row(block: BlockId, trips: &[Trip], sheet: &mut Sheet) {
    for trip in trips {
        put_block(block, sheet);
        sheet.push("on its way: ");
        put_message(trip.message, sheet);
        sheet.push(", sent by step ");
        sheet.put(&trip.sent);
        sheet.push("\n");
    }
}
