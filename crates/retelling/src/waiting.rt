use crate::cells::MetCell;
use crate::telling::Story;
use crate::trips::Trip;
use base::{Ask, BlockId, CacheId, NoMemory, Step};
use cache_table::CacheState;
use network::Message;
use sheet::List;
use std::alloc::Global;

/// What waits where nothing that is on its way can be served.
#[derive(Clone, Copy)]
pub enum Waiting {
    /// A message that the cell holds which it would meet.
    Held(Trip, MetCell),
    /// A message behind another one on its link.
    Behind(Trip),
    /// A load or a store, with the state of the line that hasn't completed it.
    Pending {
        cache: CacheId,
        block: BlockId,
        ask: Ask,
        state: CacheState,
    },
}

/// What waits at the end of a story in these blocks, if nothing can go on there by itself: no message could be served, though no
/// blank cell was met. Else it is nothing.
pub fn waiting_at(
    alloc: Global,
    story: &Story,
    blocks: &[bool],
) -> Result<List<Waiting>, NoMemory> {
    let mut waiting = List::new(alloc);
    let world = story.world();
    if world.broken() || world.enabled_count() > 0 {
        return Ok(waiting);
    }
    let mut has_head = vec![in alloc; false; world.shape().caches() as usize]?;
    for (number, looked_at) in (0..u32::MAX).zip(blocks.iter()) {
        if *looked_at {
            list_messages(story, BlockId(number), &mut has_head, &mut waiting);
            list_pending(story, BlockId(number), &mut waiting);
        }
    }
    Ok(waiting)
}

fn list_messages(
    story: &Story,
    block: BlockId,
    has_head: &mut Vec<bool>,
    waiting: &mut List<Waiting>,
) {
    let [requests, forwards, responses] = story.flights().of(block);
    for (index, trip) in (0..u64::MAX).zip(requests.iter()) {
        waiting.push(held(story, *trip, Step::Request { block, index }));
    }
    forget(has_head);
    for trip in forwards {
        waiting.push(on_link(story, *trip, has_head));
    }
    for (index, trip) in (0..u64::MAX).zip(responses.iter()) {
        waiting.push(held(story, *trip, Step::Response { block, index }));
    }
}

fn forget(has_head: &mut Vec<bool>) {
    for has_head in has_head.iter_mut() {
        *has_head = false;
    }
}

fn on_link(story: &Story, trip: Trip, has_head: &mut Vec<bool>) -> Waiting {
    let Message::Forward(cache, _) = trip.message else {
        return Waiting::Behind(trip);
    };
    match has_head.get_mut(cache.0 as usize) {
        Some(has_head) if !*has_head => {
            *has_head = true;
            let block = trip.block;
            held(story, trip, Step::Forward { block, cache })
        }
        _ => Waiting::Behind(trip),
    }
}

/// A message that a step would serve.
fn held(story: &Story, trip: Trip, step: Step) -> Waiting {
    match story.changed().met(story.world(), step) {
        Some(cell) => Waiting::Held(trip, cell),
        None => Waiting::Behind(trip),
    }
}

fn list_pending(story: &Story, block: BlockId, waiting: &mut List<Waiting>) {
    let world = story.world();
    for number in 0..world.shape().caches() {
        let cache = CacheId(number);
        let Some(line) = world.line(cache, block) else {
            break;
        };
        if let Some(ask) = line.pending {
            waiting.push(Waiting::Pending {
                cache,
                block,
                ask,
                state: line.state,
            });
        }
    }
}
