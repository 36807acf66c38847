use crate::captions::{BoxText, LifelineText, length};
use crate::lanes::Lifelines;
use crate::longest::Longest;
use crate::picture::{Picture, PictureEdge};
use crate::point::Point;
use crate::ways::Heading;
use base::{NoMemory, Shape};
use retelling::{Happening, SeenController};
use sheet::List;
use std::alloc::Global;

/// How wide a letter is taken to be.
pub const LETTER: i64 = 7;
/// From one row to the next.
const ROW: i64 = 30;
/// How high a band is that stands behind a row.
pub const BAND: i64 = 20;
/// How much room the names of the lifelines take.
const PLATES: i64 = 44;
/// From one message that isn't served in the picture to the next.
const TAIL: i64 = 24;
/// From one line of the legend to the next.
pub const LEGEND: i64 = 18;
/// After how many rows the names of the lifelines stand again.
const EACH: usize = 40;
/// Half of what a controller takes whose state stays.
const DOT: i64 = 5;
/// Half of how high a box is.
pub const HALF_BOX: i64 = 9;
/// Half of how high the plate of a name is.
pub const HALF_PLATE: i64 = 11;

/// Where the parts of a picture stand.
pub struct Layout {
    /// The lifelines.
    pub lanes: Lifelines,
    /// The first lifeline.
    first: i64,
    /// From one lifeline to the next.
    spacing: i64,
    /// How far beside a lifeline nothing stands that is on it.
    pub side: i64,
    /// Where the steps' texts begin.
    pub steps: i64,
    /// The heights of the rows.
    rows: List<i64>,
    /// The heights of the names of the lifelines.
    plates: List<i64>,
    /// The heights of what the controllers are at the start, and at the end.
    starts: i64,
    ends: i64,
    /// The height of the first message that isn't served in the picture.
    tail: i64,
    /// The height of the band where nothing can go on.
    stuck: i64,
    /// The height of the legend's first line.
    pub legend: i64,
    /// How wide and how high the whole is.
    pub size: Point,
}

impl Drop for Layout {
    fn drop(self) {
        // One call drops all its parts.
        let Layout {
            lanes: _,
            first: _,
            spacing: _,
            side: _,
            steps: _,
            rows: _,
            plates: _,
            starts: _,
            ends: _,
            tail: _,
            stuck: _,
            legend: _,
            size: _,
        } = self;
    }
}

impl Layout {
    /// Where the parts of a picture stand, of a recording of this shape.
    pub fn of(alloc: Global, picture: &Picture, shape: Shape) -> Result<Layout, NoMemory> {
        let lanes = Lifelines::of(alloc, picture, shape)?;
        let longest = Longest::of(picture, &lanes);
        let steps = longest.number.saturating_mul(LETTER).saturating_add(18);
        let mut layout = Layout {
            lanes,
            first: longest.first(steps),
            spacing: longest.spacing(),
            side: longest.side(),
            steps,
            rows: List::new(alloc),
            plates: List::new(alloc),
            starts: 0,
            ends: 0,
            tail: 0,
            stuck: 0,
            legend: 0,
            size: Point { x: 0, y: 0 },
        };
        layout.stack(picture);
        if layout.rows.is_refused() || layout.plates.is_refused() {
            return Err(NoMemory);
        }
        layout.size.x = layout.width(longest);
        Ok(layout)
    }

    /// Gives each thing its height, from above.
    fn stack(&mut self, picture: &Picture) {
        self.plates.push(PLATES / 2);
        self.starts = PLATES + ROW / 2;
        let mut height = below(PLATES, ROW, picture.blocks().len());
        for (number, row) in picture.rows().iter().enumerate() {
            if number > 0 && number % EACH == 0 {
                self.plates.push(height.saturating_add(PLATES / 2));
                height = height.saturating_add(PLATES);
            }
            self.rows.push(height.saturating_add(ROW / 2));
            height = below(height.saturating_add(ROW), BAND, bands(row));
        }
        self.tail = height.saturating_add(TAIL / 2);
        height = below(height, TAIL, tail_count(picture));
        if picture.is_stuck() {
            self.stuck = height.saturating_add(BAND / 2);
            height = height.saturating_add(BAND);
        }
        self.ends = height.saturating_add(ROW / 2);
        height = below(height, ROW, picture.blocks().len());
        self.plates.push(height.saturating_add(PLATES / 2));
        self.legend = height.saturating_add(PLATES + LEGEND / 2);
        self.size.y = below(height.saturating_add(PLATES), LEGEND, 9);
    }

    /// The heights of the names of the lifelines.
    pub fn plates(&self) -> &[i64] {
        self.plates.so_far()
    }

    /// The height of the names that stand before a row, if they do.
    pub fn plates_before(&self, row: usize) -> Option<i64> {
        if row == 0 || row % EACH != 0 {
            return None;
        }
        self.plates().get(row / EACH).copied()
    }

    fn width(&self, longest: Longest) -> i64 {
        let last = self.lane_x(self.lanes.count().saturating_sub(1));
        let behind = last.saturating_add(self.spacing);
        let end = last.saturating_add(longest.end_room());
        let finding = longest.finding.saturating_mul(LETTER).saturating_add(20);
        behind.max(end).max(finding).max(320)
    }

    /// The height of the band that says that nothing can go on, where that is so.
    pub fn stuck_y(&self, picture: &Picture) -> Option<i64> {
        if picture.is_stuck() {
            Some(self.stuck)
        } else {
            None
        }
    }

    /// How far right the lifeline of a number is.
    pub fn lane_x(&self, lane: u32) -> i64 {
        self.first
            .saturating_add(self.spacing.saturating_mul(i64::from(lane)))
    }

    /// How far right a lifeline's side is, beside all that stands on it.
    pub fn edge(&self, lane: u32, side: Heading) -> i64 {
        self.lane_x(lane).saturating_add(side.along(self.side))
    }

    /// The lifeline of a row's controller, if it has one.
    pub fn lane_of(&self, row: &Happening) -> Option<u32> {
        self.lanes.of_place(row.place?, row.step.block())
    }

    /// The height of a row.
    pub fn row_y(&self, row: usize) -> i64 {
        self.rows.so_far().get(row).copied().unwrap_or(0)
    }

    /// The height of a block's controllers at a moment; the blocks are counted in the picture.
    pub fn standing_y(&self, moment: PictureEdge, block: usize) -> i64 {
        let first = match moment {
            PictureEdge::Start => self.starts,
            PictureEdge::End => self.ends,
        };
        below(first, ROW, block)
    }

    /// The height at which messages of before come in.
    pub fn top(&self, picture: &Picture) -> i64 {
        below(PLATES, ROW, picture.blocks().len())
    }

    /// The height of a message that isn't served in the picture, counted among these.
    pub fn tail_y(&self, number: usize) -> i64 {
        below(self.tail, TAIL, number)
    }

    /// Half of what a controller takes in a row.
    pub fn half(&self, picture: &Picture, row: Option<usize>) -> i64 {
        let Some(row) = row else {
            return DOT;
        };
        let Some(happening) = picture.rows().get(row) else {
            return DOT;
        };
        match changed(happening) {
            None => DOT,
            Some(sight) => half_box(&BoxText::of(picture, sight, happening.step.block())),
        }
    }
}

/// So many times a distance below a height.
fn below(height: i64, distance: i64, times: usize) -> i64 {
    let times = i64::try_from(times).unwrap_or(i64::MAX);
    height.saturating_add(distance.saturating_mul(times))
}

/// How many bands stand behind a row.
fn bands(row: &Happening) -> usize {
    match (row.differs(), row.violation) {
        (false, None) => 0,
        (true, Some(_)) => 2,
        _ => 1,
    }
}

/// How many messages aren't served in a picture.
fn tail_count(picture: &Picture) -> usize {
    picture
        .arrows()
        .iter()
        .filter(|arrow| arrow.row_in(picture).is_none())
        .count()
}

/// What a controller is after a step that changed its state.
pub fn changed(row: &Happening) -> Option<SeenController> {
    let (before, after) = row.acted?;
    if is_same_state(before, after) {
        return None;
    }
    Some(after)
}

fn is_same_state(before: SeenController, after: SeenController) -> bool {
    match (before, after) {
        (SeenController::Line(_, before), SeenController::Line(_, after)) => before.state
            == after.state,
        (SeenController::Home(before, ..), SeenController::Home(after, ..)) => before == after,
        _ => false,
    }
}

/// Half the width of a box.
pub fn half_box(text: &BoxText) -> i64 {
    half_box_of(length(text))
}

/// Half the width of a box with so many letters.
pub fn half_box_of(letters: i64) -> i64 {
    letters.saturating_mul(LETTER).saturating_add(10) / 2
}

/// Half the width of the plate of a name.
pub fn half_plate(name: &LifelineText) -> i64 {
    half_plate_of(length(name))
}

/// Half the width of the plate of a name with so many letters.
pub fn half_plate_of(letters: i64) -> i64 {
    letters.saturating_mul(LETTER).saturating_add(14) / 2
}
