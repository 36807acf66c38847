use crate::cells::{ChangedCells, MetCell, meets_cell};
use crate::flights::Flights;
use crate::trips::Trip;
use base::{BlockId, CacheId, NoMemory, Outcome, Place, Step};
use control::Line;
use directory_table::DirectoryState;
use monitor::{Violation, Watch};
use record::{Entry, Recording};
use sheet::List;
use std::alloc::Global;
use world::World;

/// A recording whose steps are made again, one after the other, with what is seen of each.
pub struct Story {
    world: World,
    watch: Watch,
    changed: ChangedCells,
    flights: Flights,
    sent: List<Trip>,
    number: u64,
}

impl Drop for Story {
    fn drop(self) {
        // One call drops all its parts.
        let Story {
            world: _,
            watch: _,
            changed: _,
            flights: _,
            sent: _,
            number: _,
        } = self;
    }
}

/// A controller, as it is in one block.
#[derive(Clone, Copy)]
pub enum SeenController {
    Line(CacheId, Line),
    /// State, owner and memory of the home.
    Home(DirectoryState, Option<CacheId>, u64),
}

/// What was seen of a step.
#[derive(Clone, Copy)]
pub struct Happening {
    pub number: u64,
    /// The seat that owns the step, where the recording has seats.
    pub seat: Option<u32>,
    pub step: Step,
    /// The outcome in the recording.
    pub told: Outcome,
    /// The outcome of the step.
    pub outcome: Outcome,
    /// The controller that it went to.
    pub place: Option<Place>,
    /// That controller before it and after it, where its cell acted.
    pub acted: Option<(SeenController, SeenController)>,
    /// The cell that it met, unless it came to nothing before one.
    pub cell: Option<MetCell>,
    /// The message that it took off its wire.
    pub served: Option<Trip>,
    pub violation: Option<Violation>,
}

impl Happening {
    /// Whether it came to another outcome than the recording tells.
    pub fn differs(&self) -> bool {
        self.outcome != self.told
    }
}

impl Story {
    /// The story of a recording, before its first step.
    pub fn open(alloc: Global, recording: &Recording) -> Result<Story, NoMemory> {
        let shape = recording.shape();
        let watch = Watch::open(alloc, recording.opening())?;
        let flights = Flights::open(alloc, shape.caches(), shape.blocks())?;
        Ok(Story {
            world: open_world(alloc, recording)?,
            watch,
            changed: ChangedCells::of(&recording.tables()),
            flights,
            sent: List::new(alloc),
            number: 0,
        })
    }

    /// Makes the next step, which this seat owns, if one does.
    pub fn advance(&mut self, entry: Entry, seat: Option<u32>) -> Result<Happening, NoMemory> {
        let met = self.changed.met(&self.world, entry.step);
        self.make(entry, seat, met)
    }

    /// Makes the next step, which meets this cell, if it meets one.
    fn make(
        &mut self,
        entry: Entry,
        seat: Option<u32>,
        met: Option<MetCell>,
    ) -> Result<Happening, NoMemory> {
        let (step, number) = (entry.step, self.number);
        let place = self.world.at(step);
        let before = look(&self.world, step.block(), place);
        let made = self.world.make(step)?;
        let outcome = made.outcome;
        let violation = self.watch.see_made(&self.world, step, &made);
        self.number = number.saturating_add(1);
        self.sent.clear();
        let mut happening = Happening {
            number,
            seat,
            step,
            told: entry.outcome,
            outcome,
            place,
            acted: None,
            cell: met.filter(|_| meets_cell(outcome)),
            served: None,
            violation,
        };
        if let Some(place) = place.filter(|_| acts(outcome)) {
            happening.served = self.flights.take(step);
            happening.acted = before.zip(look(&self.world, step.block(), Some(place)));
            self.note_sent(step.block(), place, number)?;
        }
        Ok(happening)
    }

    /// Makes the next steps, of which nothing is to be seen.
    pub fn skip(&mut self, entries: &[Entry]) -> Result<(), NoMemory> {
        for entry in entries {
            let _ = self.make(*entry, None, None)?;
        }
        Ok(())
    }

    fn note_sent(&mut self, block: BlockId, from: Place, number: u64) -> Result<(), NoMemory> {
        self.flights
            .look(&self.world, block, from, number, &mut self.sent)
    }

    /// The messages that the last step has sent.
    pub fn sent(&self) -> &[Trip] {
        self.sent.so_far()
    }

    /// The number of the next step.
    pub fn number(&self) -> u64 {
        self.number
    }

    /// The world, as it is now.
    pub fn world(&self) -> &World {
        &self.world
    }

    /// The messages that are on their way.
    pub fn flights(&self) -> &Flights {
        &self.flights
    }

    /// Which cells of the recording's tables differ from the protocol's own.
    pub fn changed(&self) -> &ChangedCells {
        &self.changed
    }
}

/// The seat that owns the entry of this number, where the recording has seats.
pub fn seat_at(recording: &Recording, number: u64) -> Option<u32> {
    recording.owner(number as usize)
}

fn open_world(alloc: Global, recording: &Recording) -> Result<World, NoMemory> {
    let opening = Vec::from_slice(alloc, recording.opening())?;
    match World::open(alloc, recording.shape(), recording.tables(), opening) {
        Ok(world) => Ok(world),
        Err(_) => Err(NoMemory),
    }
}

/// A controller, as it is in this block.
pub fn look(world: &World, block: BlockId, place: Option<Place>) -> Option<SeenController> {
    match place? {
        Place::Dir => {
            let (state, owner, memory) = world.home(block)?;
            Some(SeenController::Home(state, owner, memory))
        }
        Place::Cache(cache) => Some(SeenController::Line(cache, world.line(cache, block)?)),
    }
}

/// Whether a step of this outcome was one at which a cell acted.
fn acts(outcome: Outcome) -> bool {
    match outcome {
        Outcome::Sent | Outcome::Moved | Outcome::Load { .. } | Outcome::Store { .. } => true,
        _ => false,
    }
}
