use crate::layout::Layout;
use crate::line::Line;
use crate::obstacles::Obstacles;
use crate::picture::Picture;
use crate::point::Point;
use crate::ways::ArrowWay;
use base::NoMemory;
use sheet::List;
use std::alloc::Global;

/// How far the way of an arrow to its own sender stands from where its name begins.
const LOOP: i64 = 8;

/// Leads arrows past what stands on the lifelines between their ends.
#[derive(Drop)]
pub struct Wayfinder {
    obstacles: Obstacles,
    /// The corners of the way that was found last.
    corners: List<Point>,
}

impl Wayfinder {
    /// One for the arrows of a picture.
    pub fn of(alloc: Global, picture: &Picture, layout: &Layout) -> Result<Wayfinder, NoMemory> {
        Ok(Wayfinder {
            obstacles: Obstacles::of(alloc, picture, layout)?,
            corners: List::new(alloc),
        })
    }

    /// Whether the growth of a way was refused.
    pub fn is_refused(&self) -> bool {
        self.corners.is_refused()
    }

    /// The corners of an arrow's way, up to its tip's middle.
    pub fn find(&mut self, layout: &Layout, way: &ArrowWay) -> &[Point] {
        self.corners.clear();
        self.corners.push(way.from);
        if way.is_loop() {
            let turn = way.bend.moved(LOOP, 0);
            self.corners.push(Point {
                x: turn.x,
                y: way.from.y,
            });
            self.corners.push(turn);
        } else {
            self.lead(layout, way);
            self.corners.push(way.bend);
        }
        self.corners.push(way.stop());
        self.corners.so_far()
    }

    /// Goes from an arrow's sender to its bend: straight on, but round whatever stands there.
    fn lead(&mut self, layout: &Layout, way: &ArrowWay) {
        let mut at = self.leave(layout, way);
        for passed in 1..way.distance() {
            at = self.pass(layout, way, passed, at);
        }
    }

    /// Goes out beside a sender where others stand in the way below it, and says where that leads.
    fn leave(&mut self, layout: &Layout, way: &ArrowWay) -> Point {
        let line = Line {
            from: way.from,
            to: way.bend,
        };
        match self.obstacles.met_below(layout, way.sender, line) {
            None => way.from,
            Some(upper) => {
                let x = layout.edge(way.sender, way.heading);
                let y = line.height_at(x).min(upper);
                self.turn(Point { x, y })
            }
        }
    }

    /// Passes a lifeline, from a place on, and says where that leads.
    fn pass(&mut self, layout: &Layout, way: &ArrowWay, passed: u32, from: Point) -> Point {
        let line = Line { from, to: way.bend };
        let lane = way.lane(passed);
        if !self.obstacles.are_met(layout, lane, line) {
            return from;
        }
        let before = layout.edge(way.lane(passed.saturating_sub(1)), way.heading);
        let corner = Point {
            x: before,
            y: line.height_at(before),
        };
        if corner.x != from.x {
            let _ = self.turn(corner);
        }
        let wanted = line.height_at(layout.lane_x(lane));
        let y = self.obstacles.pass(lane, wanted, (corner.y, way.tip.y));
        let _ = self.turn(Point {
            x: layout.edge(lane, way.heading.back()),
            y,
        });
        self.turn(Point {
            x: layout.edge(lane, way.heading),
            y,
        })
    }

    /// Adds a corner, and says where it is.
    fn turn(&mut self, corner: Point) -> Point {
        self.corners.push(corner);
        corner
    }
}
