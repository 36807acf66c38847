use crate::picture::Picture;
use base::{BlockId, CacheId, NoMemory, Place, Shape};
use retelling::Trip;
use sheet::List;
use std::alloc::Global;

/// A controller that has a lifeline: a cache, or the home of a block.
#[derive(Clone, Copy)]
pub enum Lifeline {
    /// A cache, at all blocks.
    Cache(CacheId),
    /// The home of a block.
    Home(BlockId),
}

/// The lifelines of a picture, from left to right: the homes stand in the middle of the caches that take part.
#[derive(Drop)]
pub struct Lifelines {
    order: List<Lifeline>,
    /// Where each cache stands, if it takes part.
    caches: Vec<Option<u32>>,
    /// Where the home of each block stands, if it takes part.
    homes: Vec<Option<u32>>,
}

impl Lifelines {
    /// The lifelines of the controllers that take part in a picture.
    pub(crate) fn of(
        alloc: Global,
        picture: &Picture,
        shape: Shape,
    ) -> Result<Lifelines, NoMemory> {
        let mut lanes = Lifelines {
            order: List::new(alloc),
            caches: vec![in alloc; None; shape.caches() as usize]?,
            homes: vec![in alloc; None; shape.blocks() as usize]?,
        };
        for row in picture.rows() {
            if let Some(place) = row.place {
                lanes.mark(place);
            }
        }
        for arrow in picture.arrows() {
            lanes.mark(arrow.trip.from());
            lanes.mark(arrow.trip.to());
        }
        lanes.line_up(picture.blocks());
        lanes.number();
        if lanes.order.is_refused() {
            return Err(NoMemory);
        }
        Ok(lanes)
    }

    /// The controllers, from left to right.
    pub fn order(&self) -> &[Lifeline] {
        self.order.so_far()
    }

    /// How many there are.
    pub fn count(&self) -> u32 {
        u32::try_from(self.order().len()).unwrap_or(u32::MAX)
    }

    /// Notes that a controller takes part, if it is a cache.
    fn mark(&mut self, place: Place) {
        if let Place::Cache(cache) = place {
            if let Some(lane) = self.caches.get_mut(cache.0 as usize) {
                *lane = Some(0);
            }
        }
    }

    fn line_up(&mut self, blocks: &[BlockId]) {
        let all = self.caches.iter().filter(|lane| lane.is_some()).count();
        let mut placed: usize = 0;
        for (number, lane) in (0..u32::MAX).zip(self.caches.iter()) {
            if lane.is_some() {
                if placed == all.div_ceil(2) {
                    push_homes(&mut self.order, blocks);
                }
                self.order.push(Lifeline::Cache(CacheId(number)));
                placed = placed.saturating_add(1);
            }
        }
        if placed == all.div_ceil(2) {
            push_homes(&mut self.order, blocks);
        }
    }

    fn number(&mut self) {
        for (number, lane) in (0..u32::MAX).zip(self.order.so_far().iter()) {
            match *lane {
                Lifeline::Cache(cache) => stand(&mut self.caches, cache.0, number),
                Lifeline::Home(block) => stand(&mut self.homes, block.0, number),
            }
        }
    }

    /// Where a controller stands, which is the home of a block or a cache.
    pub fn of_place(&self, place: Place, block: BlockId) -> Option<u32> {
        match place {
            Place::Dir => self.homes.get(block.0 as usize).copied().flatten(),
            Place::Cache(cache) => self.caches.get(cache.0 as usize).copied().flatten(),
        }
    }

    /// Where a message comes from, and where it goes to.
    pub fn of_trip(&self, trip: &Trip) -> Option<(u32, u32)> {
        let from = self.of_place(trip.from(), trip.block)?;
        let to = self.of_place(trip.to(), trip.block)?;
        Some((from, to))
    }
}

/// Notes where the controller of a number stands.
fn stand(row: &mut Vec<Option<u32>>, controller: u32, number: u32) {
    if let Some(lane) = row.get_mut(controller as usize) {
        *lane = Some(number);
    }
}

fn push_homes(order: &mut List<Lifeline>, blocks: &[BlockId]) {
    for block in blocks {
        order.push(Lifeline::Home(*block));
    }
}
