use crate::fault::ChartFault;
use base::{BlockId, CacheId, NoMemory, Place, Shape};
use cache_table::CacheState;
use monitor::Violation;
use record::{Entry, Recording};
use retelling::{
    Excerpt, Happening, MetCell, SeenController, Shown, Story, Trip, Waiting, look, seat_at,
    waiting_at,
};
use sheet::List;
use std::alloc::Global;

/// The most steps that one picture has.
pub const MOST_ROWS: u64 = 2000;

/// What is drawn of a part of a recording.
pub struct Picture {
    rows: List<Happening>,
    /// The numbers of the rows' steps.
    numbers: List<u64>,
    arrows: List<Arrow>,
    /// The blocks that are looked at, and for each block whether it is one of them.
    blocks: List<BlockId>,
    looked_at: Vec<bool>,
    /// What controllers are at the part's start and at its end, but for lines in I where there are several blocks.
    starts: List<ShownController>,
    ends: List<ShownController>,
    /// What waits, where the part ends with the recording and nothing can go on there.
    waiting: List<Waiting>,
}

impl Drop for Picture {
    fn drop(self) {
        // One call drops all its parts.
        let Picture {
            rows: _,
            numbers: _,
            arrows: _,
            blocks: _,
            looked_at: _,
            starts: _,
            ends: _,
            waiting: _,
        } = self;
    }
}

/// A message, with what becomes of it.
#[derive(Clone, Copy)]
pub struct Arrow {
    /// The message, from where to where it goes, and the step that has sent it.
    pub trip: Trip,
    /// How it ends.
    pub end: ArrowEnd,
}

/// What becomes of a message.
#[derive(Clone, Copy)]
pub enum ArrowEnd {
    /// The step of this number serves it.
    Served(u64),
    /// No step of the recording does.
    Unserved,
    /// None can, as this cell holds it.
    Held(MetCell),
    /// None can, as it is behind another one on its link.
    Behind,
}

impl Arrow {
    /// The row that it is served in, if that is in the picture.
    pub fn row_in(&self, picture: &Picture) -> Option<usize> {
        match self.end {
            ArrowEnd::Served(number) => picture.row_of(number),
            _ => None,
        }
    }
}

/// A controller at a moment.
#[derive(Clone, Copy)]
pub struct ShownController {
    /// The block that it is of.
    pub block: BlockId,
    /// What it is.
    pub sight: SeenController,
}

/// A moment at which a picture tells what the controllers are.
#[derive(Clone, Copy)]
pub enum PictureEdge {
    /// Before the first step of the part.
    Start,
    /// Behind the last one.
    End,
}

impl Picture {
    /// The picture of a part of a recording, whose steps are made again.
    pub fn of(alloc: Global, recording: &Recording, part: Excerpt) -> Result<Picture, ChartFault> {
        let cut = part.cut(recording.entries());
        let count = count(part, cut.chosen);
        if count > MOST_ROWS {
            return Err(ChartFault::TooManySteps(count));
        }
        let mut picture = Picture::open(alloc, recording.shape(), part, cut.chosen)?;
        picture.fill(alloc, recording, part)?;
        Ok(picture)
    }

    /// A picture of nothing so far, about those blocks that the part is about.
    fn open(
        alloc: Global,
        shape: Shape,
        part: Excerpt,
        chosen: &[Entry],
    ) -> Result<Picture, NoMemory> {
        let looked_at = part.blocks(alloc, shape, chosen)?;
        Ok(Picture {
            rows: List::new(alloc),
            numbers: List::new(alloc),
            arrows: List::new(alloc),
            blocks: List::new(alloc),
            looked_at,
            starts: List::new(alloc),
            ends: List::new(alloc),
            waiting: List::new(alloc),
        })
    }

    fn fill(
        &mut self,
        alloc: Global,
        recording: &Recording,
        part: Excerpt,
    ) -> Result<(), NoMemory> {
        let mut story = Story::open(alloc, recording)?;
        self.follow(alloc, &mut story, recording, part)
    }

    /// Follows a story from its beginning to its end.
    fn follow(
        &mut self,
        alloc: Global,
        story: &mut Story,
        recording: &Recording,
        part: Excerpt,
    ) -> Result<(), NoMemory> {
        let cut = part.cut(recording.entries());
        self.list_blocks();
        story.skip(cut.before)?;
        stand(story, self.blocks.so_far(), &mut self.starts);
        self.tell(story, recording, part, cut.chosen)?;
        stand(story, self.blocks.so_far(), &mut self.ends);
        let end = story.number();
        if cut.behind.is_empty() {
            self.waiting = waiting_at(alloc, story, self.looked_at.as_slice())?;
        }
        self.look_behind(story, cut.behind, end)?;
        self.leave(story, end);
        if self.is_refused() {
            return Err(NoMemory);
        }
        Ok(())
    }

    /// Whether the growth of a list was refused.
    fn is_refused(&self) -> bool {
        self.rows.is_refused()
            || self.numbers.is_refused()
            || self.arrows.is_refused()
            || self.blocks.is_refused()
            || self.starts.is_refused()
            || self.ends.is_refused()
            || self.waiting.is_refused()
    }

    fn list_blocks(&mut self) {
        for (number, looked_at) in (0..u32::MAX).zip(self.looked_at.iter()) {
            if *looked_at {
                self.blocks.push(BlockId(number));
            }
        }
    }

    /// What happened in the steps that it has.
    pub fn rows(&self) -> &[Happening] {
        self.rows.so_far()
    }

    /// The messages that are on their way in it.
    pub fn arrows(&self) -> &[Arrow] {
        self.arrows.so_far()
    }

    /// The blocks that are looked at.
    pub fn blocks(&self) -> &[BlockId] {
        self.blocks.so_far()
    }

    /// What controllers are at the part's start or at its end, but for lines in I where there are several blocks.
    pub fn standings(&self, moment: PictureEdge) -> &[ShownController] {
        match moment {
            PictureEdge::Start => self.starts.so_far(),
            PictureEdge::End => self.ends.so_far(),
        }
    }

    /// What waits at its end, where nothing can go on there.
    pub fn waiting(&self) -> &[Waiting] {
        self.waiting.so_far()
    }

    /// Whether nothing can go on at its end, and something waits.
    pub fn is_stuck(&self) -> bool {
        !self.waiting().is_empty()
    }

    /// The last violation in it, with the place of the step that shows it.
    pub fn last_violation(&self) -> Option<(Violation, Option<Place>)> {
        let row = self.rows().iter().rfind(|row| row.violation.is_some())?;
        Some((row.violation?, row.place))
    }

    /// Whether there are several blocks, which have to be told apart.
    pub fn has_blocks(&self) -> bool {
        self.blocks().len() > 1
    }

    /// What its rows show.
    pub fn shown(&self) -> Shown {
        let mut shown = Shown::nothing();
        for row in self.rows() {
            shown.note(row);
        }
        shown
    }

    /// The row of the step of a number, if it is in the picture.
    pub fn row_of(&self, number: u64) -> Option<usize> {
        self.numbers.so_far().binary_search(&number).ok()
    }

    /// Makes the steps of the rows.
    fn tell(
        &mut self,
        story: &mut Story,
        recording: &Recording,
        part: Excerpt,
        chosen: &[Entry],
    ) -> Result<(), NoMemory> {
        for entry in chosen {
            let seat = seat_at(recording, story.number());
            let happening = story.advance(*entry, seat)?;
            if part.is_of(happening.step.block()) {
                self.rows.push(happening);
                self.numbers.push(happening.number);
                self.end(happening);
            }
        }
        Ok(())
    }

    /// Makes the steps behind the rows, and notes which messages of before their end are served.
    fn look_behind(
        &mut self,
        story: &mut Story,
        behind: &[Entry],
        end: u64,
    ) -> Result<(), NoMemory> {
        for entry in behind {
            let happening = story.advance(*entry, None)?;
            if self.looks_at(happening.step.block()) && was_sent_before(&happening, end) {
                self.end(happening);
            }
        }
        Ok(())
    }

    fn looks_at(&self, block: BlockId) -> bool {
        self.looked_at.get(block.0 as usize) == Some(&true)
    }

    /// Notes the message that a step has served.
    fn end(&mut self, happening: Happening) {
        if let Some(trip) = happening.served {
            let end = ArrowEnd::Served(happening.number);
            self.arrows.push(Arrow { trip, end });
        }
    }

    /// Notes the messages of before the rows' end that no step has served.
    fn leave(&mut self, story: &Story, end: u64) {
        if self.is_stuck() {
            self.leave_waiting();
            return;
        }
        for block in self.blocks.so_far() {
            for row in story.flights().of(*block) {
                leave_row(&mut self.arrows, row, end);
            }
        }
    }

    /// Notes the messages that wait.
    fn leave_waiting(&mut self) {
        for waiting in self.waiting.so_far() {
            let (trip, end) = match *waiting {
                Waiting::Held(trip, cell) => (trip, ArrowEnd::Held(cell)),
                Waiting::Behind(trip) => (trip, ArrowEnd::Behind),
                Waiting::Pending { .. } => continue,
            };
            self.arrows.push(Arrow { trip, end });
        }
    }
}

/// Notes those of these messages that were sent before a step, as served by none.
fn leave_row(arrows: &mut List<Arrow>, row: &[Trip], end: u64) {
    for trip in row {
        if trip.sent < end {
            arrows.push(Arrow {
                trip: *trip,
                end: ArrowEnd::Unserved,
            });
        }
    }
}

/// How many of these entries are in a part.
fn count(part: Excerpt, chosen: &[Entry]) -> u64 {
    let mut count: u64 = 0;
    for entry in chosen {
        if part.is_of(entry.step.block()) {
            count = count.saturating_add(1);
        }
    }
    count
}

fn was_sent_before(happening: &Happening, end: u64) -> bool {
    match happening.served {
        Some(trip) => trip.sent < end,
        None => false,
    }
}

/// Notes what the controllers of these blocks are.
fn stand(story: &Story, blocks: &[BlockId], standings: &mut List<ShownController>) {
    let shows_all = blocks.len() == 1;
    for block in blocks {
        if let Some(sight) = look(story.world(), *block, Some(Place::Dir)) {
            standings.push(ShownController {
                block: *block,
                sight,
            });
        }
        stand_lines(story, *block, shows_all, standings);
    }
}

fn stand_lines(
    story: &Story,
    block: BlockId,
    shows_all: bool,
    standings: &mut List<ShownController>,
) {
    let world = story.world();
    for number in 0..world.shape().caches() {
        let cache = CacheId(number);
        let Some(line) = world.line(cache, block) else {
            break;
        };
        if shows_all || line.state != CacheState::I {
            let sight = SeenController::Line(cache, line);
            standings.push(ShownController { block, sight });
        }
    }
}
