use crate::trips::Trip;
use base::{BlockId, CacheId, NoMemory, Place, Step};
use network::Message;
use sheet::List;
use std::alloc::Global;
use world::World;

/// The messages that are on their way in a world, each with the step that sent it.
#[derive(Drop)]
pub struct Flights {
    blocks: Vec<BlockFlights>,
    /// How many messages are on each cache's link, while the messages of a step are looked for.
    counts: Vec<u64>,
}

/// Those of one block, in the order in which they were sent.
#[derive(Drop)]
struct BlockFlights {
    requests: Vec<Trip>,
    /// On all links: those to the same cache are in order.
    forwards: Vec<Trip>,
    responses: Vec<Trip>,
}

impl Flights {
    /// None, in a world to which nothing has happened.
    pub fn open(alloc: Global, caches: u32, blocks: u32) -> Result<Flights, NoMemory> {
        let counts = vec![in alloc; 0; caches as usize]?;
        let mut row = Vec::with_capacity(alloc, blocks as usize)?;
        for _ in 0..blocks {
            row.push(BlockFlights::open(alloc))?;
        }
        Ok(Flights {
            blocks: row,
            counts,
        })
    }

    /// Takes the message that a step has served, if it is a delivery.
    pub fn take(&mut self, step: Step) -> Option<Trip> {
        let flights = self.blocks.get_mut(step.block().0 as usize)?;
        match step {
            Step::Ask { .. } => None,
            Step::Request { block: _, index } => take_at(&mut flights.requests, index as usize),
            Step::Forward { block: _, cache } => take_head(&mut flights.forwards, cache),
            Step::Response { block: _, index } => take_at(&mut flights.responses, index as usize),
        }
    }

    /// Looks for the messages that the step of this number has sent in a block, from a controller, and lists them.
    pub fn look(
        &mut self,
        world: &World,
        block: BlockId,
        from: Place,
        number: u64,
        sent: &mut List<Trip>,
    ) -> Result<(), NoMemory> {
        let Some(flights) = self.blocks.get_mut(block.0 as usize) else {
            return Ok(());
        };
        let mut found = FoundMessages {
            block,
            number,
            sent,
        };
        found.look_for_requests(world, flights.requests.len() as u64);
        if from == Place::Dir {
            count(&mut self.counts, flights.forwards.as_slice());
            found.look_for_forwards(world, self.counts.as_slice());
        }
        found.look_for_responses(world, flights.responses.len() as u64);
        flights.add(sent.whole()?)
    }

    /// The messages of a block that are on their way: requests, those on links, and responses.
    pub fn of(&self, block: BlockId) -> [&[Trip]; 3] {
        match self.blocks.get(block.0 as usize) {
            None => [&[], &[], &[]],
            Some(flights) => [
                flights.requests.as_slice(),
                flights.forwards.as_slice(),
                flights.responses.as_slice(),
            ],
        }
    }
}

impl BlockFlights {
    fn open(alloc: Global) -> BlockFlights {
        BlockFlights {
            requests: Vec::new(alloc),
            forwards: Vec::new(alloc),
            responses: Vec::new(alloc),
        }
    }

    fn add(&mut self, sent: &[Trip]) -> Result<(), NoMemory> {
        for trip in sent {
            self.row_of(trip.message).push(*trip)?;
        }
        Ok(())
    }

    /// Those of a message's kind.
    fn row_of(&mut self, message: Message) -> &mut Vec<Trip> {
        match message {
            Message::Request(_) => &mut self.requests,
            Message::Forward(..) => &mut self.forwards,
            Message::Response(_) => &mut self.responses,
        }
    }
}

/// The messages that a step has sent, as they are found.
#[derive(Drop)]
struct FoundMessages<'a> {
    block: BlockId,
    number: u64,
    sent: &'a mut List<Trip>,
}

impl FoundMessages<'_> {
    fn push(&mut self, message: Message) {
        self.sent.push(Trip {
            block: self.block,
            message,
            sent: self.number,
        });
    }

    /// The requests from a place on.
    fn look_for_requests(&mut self, world: &World, from: u64) {
        let block = self.block;
        for index in from..u64::MAX {
            let Some(message) = world.message(Step::Request { block, index }) else {
                break;
            };
            self.push(message);
        }
    }

    /// The responses from a place on.
    fn look_for_responses(&mut self, world: &World, from: u64) {
        let block = self.block;
        for index in from..u64::MAX {
            let Some(message) = world.message(Step::Response { block, index }) else {
                break;
            };
            self.push(message);
        }
    }

    /// What is on each link, from a place on.
    fn look_for_forwards(&mut self, world: &World, from: &[u64]) {
        for (number, from) in (0..u32::MAX).zip(from.iter()) {
            self.look_on_link(world, CacheId(number), *from);
        }
    }

    fn look_on_link(&mut self, world: &World, cache: CacheId, from: u64) {
        for index in from..u64::MAX {
            let Some(forward) = world.forward(self.block, cache, index) else {
                break;
            };
            self.push(Message::Forward(cache, forward));
        }
    }
}

/// Counts for each cache how many of these are on its link.
fn count(counts: &mut Vec<u64>, forwards: &[Trip]) {
    for count in counts.iter_mut() {
        *count = 0;
    }
    for trip in forwards {
        if let Message::Forward(to, _) = trip.message {
            if let Some(count) = counts.get_mut(to.0 as usize) {
                *count = count.saturating_add(1);
            }
        }
    }
}

fn take_head(forwards: &mut Vec<Trip>, cache: CacheId) -> Option<Trip> {
    for index in 0..forwards.len() {
        if forwards.get(index)?.is_on_link(cache) {
            return take_at(forwards, index);
        }
    }
    None
}

fn take_at(trips: &mut Vec<Trip>, index: usize) -> Option<Trip> {
    if index >= trips.len() {
        return None;
    }
    Some(trips.remove(index))
}
