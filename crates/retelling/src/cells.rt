use crate::texts::PlaceText;
use base::controller::{Listed, Side};
use base::{BlockId, CacheId, Outcome, Place, Step};
use control::{LineInput, line_ask_event, line_event};
use directory_table::DirectoryEvent;
use network::{Message, Request, RequestKind};
use sheet::Sheet;
use std::fmt;
use tables::{CELLS, CellPlace, Tables};
use world::World;

/// The cell that a step meets: that of the state of the controller that it goes to, and of the event that the step is there.
#[derive(Clone, Copy)]
pub struct MetCell {
    pub place: CellPlace,
    /// Whether it is as the protocol has it.
    pub is_own: bool,
    /// The message that a delivery is of, whether or not the cell acts.
    pub message: Option<Message>,
}

/// Which cells of some tables differ from their protocol's own, by the numbers of their places.
#[derive(Clone, Copy)]
pub struct ChangedCells([bool; CELLS]);

impl ChangedCells {
    /// Those of these tables.
    pub fn of(tables: &Tables) -> ChangedCells {
        let own = Tables::baseline_of(tables.protocol());
        let mut changed = [false; CELLS];
        for (number, is_changed) in changed.iter_mut().enumerate() {
            if let Some(place) = CellPlace::at(number) {
                *is_changed = differs(tables, &own, place);
            }
        }
        ChangedCells(changed)
    }

    /// Whether a cell is as the protocol has it.
    pub fn is_own(&self, place: CellPlace) -> bool {
        !self.0[place.number()]
    }

    /// The cell that a step meets in a world under these tables, if there is a controller that it goes to.
    pub fn met(&self, world: &World, step: Step) -> Option<MetCell> {
        let message = world.message(step);
        let place = match world.at(step)? {
            Place::Cache(cache) => cell_of_line(world, cache, step, message)?,
            Place::Dir => cell_of_home(world, step.block(), message?)?,
        };
        Some(MetCell {
            place,
            is_own: self.is_own(place),
            message,
        })
    }
}

fn differs(tables: &Tables, own: &Tables, place: CellPlace) -> bool {
    match place {
        CellPlace::Cache(state, event) => {
            !tables
                .cache
                .entry(state, event)
                .is_same(&own.cache.entry(state, event))
        }
        CellPlace::Directory(state, event) => {
            !tables
                .directory
                .entry(state, event)
                .is_same(&own.directory.entry(state, event))
        }
    }
}

fn cell_of_line(
    world: &World,
    cache: CacheId,
    step: Step,
    message: Option<Message>,
) -> Option<CellPlace> {
    let line = world.line(cache, step.block())?;
    let event = match (step, message) {
        (Step::Ask { ask, .. }, _) => line_ask_event(ask),
        (_, Some(Message::Forward(_, forward))) => line_event(&line, LineInput::Forward(forward)),
        (_, Some(Message::Response(response))) => line_event(&line, LineInput::Response(response)),
        _ => return None,
    };
    Some(CellPlace::Cache(line.state, event))
}

fn cell_of_home(world: &World, block: BlockId, message: Message) -> Option<CellPlace> {
    let (state, owner, _) = world.home(block)?;
    let event = match message {
        Message::Request(request) => event_of_request(world, block, owner, request),
        _ => DirectoryEvent::Data,
    };
    Some(CellPlace::Directory(state, event))
}

fn event_of_request(
    world: &World,
    block: BlockId,
    owner: Option<CacheId>,
    request: Request,
) -> DirectoryEvent {
    match request.kind {
        RequestKind::GetS => DirectoryEvent::GetS,
        RequestKind::GetM => DirectoryEvent::GetM,
        RequestKind::PutS if is_only_sharer(world, block, request.from) => DirectoryEvent::PutSLast,
        RequestKind::PutS => DirectoryEvent::PutSNotLast,
        RequestKind::PutM(_) if owner == Some(request.from) => DirectoryEvent::PutMOwner,
        RequestKind::PutM(_) => DirectoryEvent::PutMNonOwner,
    }
}

/// Whether a cache shares a block, and no other does.
fn is_only_sharer(world: &World, block: BlockId, cache: CacheId) -> bool {
    let mut others = (0..world.shape().caches())
        .map(CacheId)
        .filter(|other| *other != cache);
    world.shares(cache, block) && !others.any(|other| world.shares(other, block))
}

/// Whether a step of this outcome met a cell.
pub(crate) fn meets_cell(outcome: Outcome) -> bool {
    match outcome {
        Outcome::Idle | Outcome::Absent | Outcome::Broken => false,
        _ => true,
    }
}

/// A cell: `cache IM^AD Inv`.
#[derive(Clone, Copy)]
pub struct CellText(pub CellPlace);

impl fmt::Display for CellText {
    fn fmt<W: fmt::Write>(&self, f: &mut fmt::Formatter<W>) -> fmt::Result {
        let (side, state, event) = names_of(self.0);
        write!(f, "{side} {state} {event}")
    }
}

/// The side, the state and the event of a cell, by their names.
pub fn names_of(place: CellPlace) -> (&'static str, &'static str, &'static str) {
    match place {
        CellPlace::Cache(state, event) => (Side::Cache.name(), state.name(), event.name()),
        CellPlace::Directory(state, event) => (Side::Directory.name(), state.name(), event.name()),
    }
}
