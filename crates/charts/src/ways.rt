use crate::captions::{ArrowText, length};
use crate::layout::{LETTER, Layout};
use crate::picture::{Arrow, Picture};
use crate::point::Point;
use base::NoMemory;
use sheet::List;
use std::alloc::Global;

/// How far above a row's middle messages come in, and how far below it they go out.
const BESIDE: i64 = 5;
/// How long the tip of an arrow is.
pub const TIP: i64 = 9;

/// To which side an arrow goes.
#[derive(Clone, Copy)]
pub enum Heading {
    Left,
    Right,
}

impl Heading {
    /// From one place to another one, and to the left from a place to itself.
    pub fn of(from: u32, to: u32) -> Heading {
        if to > from {
            Heading::Right
        } else {
            Heading::Left
        }
    }

    /// How far right it is to go so far along.
    pub fn along(self, distance: i64) -> i64 {
        match self {
            Heading::Left => distance.saturating_neg(),
            Heading::Right => distance,
        }
    }

    pub fn back(self) -> Heading {
        match self {
            Heading::Left => Heading::Right,
            Heading::Right => Heading::Left,
        }
    }
}

/// The way of an arrow: from its sender to a bend, and from there on level, where its name stands, to its tip.
#[derive(Clone, Copy)]
pub struct ArrowWay {
    pub arrow: Arrow,
    /// The row that the arrow is served in, if that is in the picture.
    pub row: Option<usize>,
    /// The lifelines at its ends.
    pub sender: u32,
    pub receiver: u32,
    pub from: Point,
    pub bend: Point,
    pub tip: Point,
    pub heading: Heading,
    /// Whether its sender stands in the picture.
    pub has_sender: bool,
}

/// The ways of a picture's arrows.
pub fn ways_of(
    alloc: Global,
    picture: &Picture,
    layout: &Layout,
) -> Result<List<ArrowWay>, NoMemory> {
    let mut ways = List::new(alloc);
    let mut left: usize = 0;
    for arrow in picture.arrows() {
        let row = arrow.row_in(picture);
        let height = match row {
            Some(row) => layout.row_y(row),
            None => layout.tail_y(left),
        };
        if let Some(way) = ArrowWay::of(picture, layout, arrow, row, height) {
            ways.push(way);
        }
        if row.is_none() {
            left = left.saturating_add(1);
        }
    }
    if ways.is_refused() {
        return Err(NoMemory);
    }
    Ok(ways)
}

impl ArrowWay {
    fn of(
        picture: &Picture,
        layout: &Layout,
        arrow: &Arrow,
        row: Option<usize>,
        height: i64,
    ) -> Option<ArrowWay> {
        let (sender, receiver) = layout.lanes.of_trip(&arrow.trip)?;
        let heading = Heading::of(sender, receiver);
        let half = layout.half(picture, row);
        let tip = Point {
            x: layout
                .lane_x(receiver)
                .saturating_add(heading.back().along(half)),
            y: height.saturating_sub(BESIDE),
        };
        let level = level_part(length(&ArrowText::of(picture, arrow)));
        let level = level.max(layout.side.saturating_sub(half));
        Some(ArrowWay {
            arrow: *arrow,
            row,
            sender,
            receiver,
            from: start_of(picture, layout, arrow, sender, receiver),
            bend: tip.moved(heading.back().along(level), 0),
            tip,
            heading,
            has_sender: picture.row_of(arrow.trip.sent).is_some(),
        })
    }

    /// A place so far before the tip.
    pub fn before_tip(&self, distance: i64) -> Point {
        self.tip.moved(self.heading.back().along(distance), 0)
    }

    /// Where its line ends, which is below its tip.
    pub fn stop(&self) -> Point {
        self.before_tip(TIP - 1)
    }

    /// Whether the arrow goes back to where it comes from.
    pub fn is_loop(&self) -> bool {
        self.sender == self.receiver
    }

    /// How many lifelines further its receiver stands.
    pub fn distance(&self) -> u32 {
        self.sender.abs_diff(self.receiver)
    }

    /// The lifeline that it comes to so many lifelines behind its sender.
    pub fn lane(&self, passed: u32) -> u32 {
        match self.heading {
            Heading::Left => self.sender.saturating_sub(passed),
            Heading::Right => self.sender.saturating_add(passed),
        }
    }
}

/// How long the level part of an arrow is, by the letters of its name.
pub fn level_part(letters: i64) -> i64 {
    letters.saturating_mul(LETTER).saturating_add(TIP + 6)
}

/// Where an arrow begins: beside its sender, or at the upper edge.
fn start_of(
    picture: &Picture,
    layout: &Layout,
    arrow: &Arrow,
    sender: u32,
    receiver: u32,
) -> Point {
    let lane = layout.lane_x(sender);
    let Some(sent) = picture.row_of(arrow.trip.sent) else {
        return Point {
            x: lane,
            y: layout.top(picture),
        };
    };
    let half = layout.half(picture, Some(sent));
    let aside = if sender == receiver {
        half
    } else {
        Heading::of(sender, receiver).along(half)
    };
    Point {
        x: lane.saturating_add(aside),
        y: layout.row_y(sent).saturating_add(BESIDE),
    }
}
