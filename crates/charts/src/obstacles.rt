use crate::captions::LifelineText;
use crate::layout::{HALF_BOX, HALF_PLATE, Layout, half_plate};
use crate::line::Line;
use crate::picture::Picture;
use crate::ways::TIP;
use base::NoMemory;
use retelling::Happening;
use std::alloc::Global;

/// How much room arrows leave around what they go round.
pub const ROOM: i64 = 4;
/// From one arrow to the next that goes round the same thing.
const APART: i64 = 5;
/// How much further they go to pass above a row that sends, or below one that only serves.
const DETOUR: i64 = 10;

/// What stands on the lifelines between the start and the end of a picture.
#[derive(Drop)]
pub struct Obstacles {
    lanes: Vec<Stack>,
}

/// What stands on one lifeline, from above.
#[derive(Drop)]
struct Stack {
    obstacles: Vec<Obstacle>,
    /// The lower edges of these.
    lowers: Vec<i64>,
}

/// A box or a dot with the tips of arrows beside it, or a name, with the room around it.
#[derive(Clone, Copy)]
struct Obstacle {
    upper: i64,
    lower: i64,
    /// Half of how wide it is.
    half: i64,
    /// How much further arrows go to pass it above; less than nothing where they rather pass below.
    detour: i64,
    /// How many arrows go round it above, and below.
    above: i64,
    below: i64,
}

impl Obstacles {
    /// What stands on the lifelines of a picture.
    pub fn of(alloc: Global, picture: &Picture, layout: &Layout) -> Result<Obstacles, NoMemory> {
        let mut obstacles = Obstacles::open(alloc, layout.lanes.count())?;
        let sends = sending_rows(alloc, picture)?;
        for ((number, row), sends) in picture.rows().iter().enumerate().zip(sends.iter()) {
            if let Some(y) = layout.plates_before(number) {
                obstacles.add_plates(picture, layout, y)?;
            }
            if let Some(lane) = layout.lane_of(row) {
                let half = layout.half(picture, Some(number)).saturating_add(TIP);
                let half = half.min(layout.side.saturating_sub(ROOM));
                let obstacle = Obstacle::at(layout.row_y(number), HALF_BOX, half);
                obstacles.add(lane, obstacle.passed_as(row, *sends))?;
            }
        }
        Ok(obstacles)
    }

    fn open(alloc: Global, lanes: u32) -> Result<Obstacles, NoMemory> {
        let mut stacks = Vec::with_capacity(alloc, lanes as usize)?;
        for _ in 0..lanes {
            stacks.push(Stack::new(alloc))?;
        }
        Ok(Obstacles { lanes: stacks })
    }

    fn add_plates(&mut self, picture: &Picture, layout: &Layout, y: i64) -> Result<(), NoMemory> {
        for (stack, lane) in self.lanes.iter_mut().zip(layout.lanes.order().iter()) {
            let half = half_plate(&LifelineText::of(picture, *lane));
            stack.push(Obstacle::at(y, HALF_PLATE, half))?;
        }
        Ok(())
    }

    fn add(&mut self, lane: u32, obstacle: Obstacle) -> Result<(), NoMemory> {
        match self.lanes.get_mut(lane as usize) {
            None => Ok(()),
            Some(stack) => stack.push(obstacle),
        }
    }

    /// Whether a line comes to what stands on a lifeline that it passes.
    pub fn are_met(&self, layout: &Layout, lane: u32, line: Line) -> bool {
        let Some(stack) = self.lanes.get(lane as usize) else {
            return false;
        };
        let x = layout.lane_x(lane);
        match line.heights_between(x.saturating_sub(layout.side), x.saturating_add(layout.side)) {
            None => false,
            Some((upper, lower)) => stack.is_met(stack.first_to(upper), x, line, lower),
        }
    }

    /// The upper edge of what stands next on a lifeline below the start of a line, where the line comes to this or to what stands
    /// below it.
    pub fn met_below(&self, layout: &Layout, lane: u32, line: Line) -> Option<i64> {
        let stack = self.lanes.get(lane as usize)?;
        let x = layout.lane_x(lane);
        let (_, lower) = line.heights_between(
            x.saturating_sub(layout.side),
            x.saturating_add(layout.side),
        )?;
        let first = stack.first_below(line.from.y);
        if stack.is_met(first, x, line, lower) {
            stack.obstacles.get(first).map(|next| next.upper)
        } else {
            None
        }
    }

    /// A height between two others at which a lifeline is passed and nothing stands, near the one that is wanted.
    pub fn pass(&mut self, lane: u32, wanted: i64, between: (i64, i64)) -> i64 {
        match self.lanes.get_mut(lane as usize) {
            None => wanted,
            Some(stack) => stack.pass(wanted, between),
        }
    }
}

/// For each row whether it sends something.
fn sending_rows(alloc: Global, picture: &Picture) -> Result<Vec<bool>, NoMemory> {
    let mut rows = vec![in alloc; false; picture.rows().len()]?;
    for arrow in picture.arrows() {
        if let Some(row) = picture.row_of(arrow.trip.sent) {
            if let Some(sends) = rows.get_mut(row) {
                *sends = true;
            }
        }
    }
    Ok(rows)
}

impl Stack {
    fn new(alloc: Global) -> Stack {
        Stack {
            obstacles: Vec::new(alloc),
            lowers: Vec::new(alloc),
        }
    }

    fn push(&mut self, obstacle: Obstacle) -> Result<(), NoMemory> {
        self.lowers.push(obstacle.lower)?;
        self.obstacles.push(obstacle)?;
        Ok(())
    }

    /// The first whose lower edge isn't above a height.
    fn first_to(&self, y: i64) -> usize {
        match self.lowers.as_slice().binary_search(&y) {
            Ok(number) => number,
            Err(number) => number,
        }
    }

    /// The first that begins below a height.
    fn first_below(&self, y: i64) -> usize {
        let first = self.first_to(y);
        match self.obstacles.get(first) {
            Some(obstacle) if obstacle.upper <= y => first.saturating_add(1),
            _ => first,
        }
    }

    /// Whether a line that goes down to a height comes to one of these, from one of them on.
    fn is_met(&self, first: usize, x: i64, line: Line, lowest: i64) -> bool {
        let obstacles = self.obstacles.as_slice();
        let (_, others) = obstacles.split_at(obstacles.len().min(first));
        for obstacle in others {
            if obstacle.upper >= lowest {
                break;
            }
            if obstacle.is_met(x, line) {
                return true;
            }
        }
        false
    }

    fn pass(&mut self, wanted: i64, (least, most): (i64, i64)) -> i64 {
        let number = self.first_to(wanted);
        let above = number
            .checked_sub(1)
            .and_then(|before| self.obstacles.get(before));
        let least = above.map_or(least, |above| above.lower.max(least));
        let below = self.obstacles.get(number.saturating_add(1));
        let most = below.map_or(most, |below| below.upper.min(most));
        match self.obstacles.get_mut(number) {
            Some(obstacle) if obstacle.upper < wanted => obstacle.go_round(wanted, (least, most)),
            _ => wanted,
        }
    }
}

impl Obstacle {
    /// What stands at a height, half so high and half so wide.
    fn at(y: i64, high: i64, half: i64) -> Obstacle {
        let high = high.saturating_add(ROOM);
        Obstacle {
            upper: y.saturating_sub(high),
            lower: y.saturating_add(high),
            half: half.saturating_add(ROOM),
            detour: 0,
            above: 0,
            below: 0,
        }
    }

    /// The same, with the side on which arrows rather pass it: what a row sends begins below it, and what comes in above.
    fn passed_as(self, row: &Happening, sends: bool) -> Obstacle {
        let detour = match (sends, row.served) {
            (true, _) => DETOUR,
            (false, Some(_)) => -DETOUR,
            (false, None) => 0,
        };
        Obstacle { detour, ..self }
    }

    /// Whether a line comes to it, where its middle is so far right.
    fn is_met(&self, x: i64, line: Line) -> bool {
        let (left, right) = (x.saturating_sub(self.half), x.saturating_add(self.half));
        match line.heights_between(left, right) {
            None => false,
            Some((upper, lower)) => upper < self.lower && lower > self.upper,
        }
    }

    /// Has an arrow go round it, above or below, whichever is better, and says at which height.
    fn go_round(&mut self, wanted: i64, (least, most): (i64, i64)) -> i64 {
        let above = self
            .upper
            .saturating_sub(self.above.saturating_mul(APART))
            .max(least);
        let below = self
            .lower
            .saturating_add(self.below.saturating_mul(APART))
            .min(most);
        let way_below = below.saturating_sub(wanted).saturating_add(self.detour);
        let is_above = wanted.saturating_sub(above) <= way_below || below < self.lower;
        if is_above && above <= self.upper {
            self.above = self.above.saturating_add(1);
            above
        } else {
            self.below = self.below.saturating_add(1);
            below
        }
    }
}
