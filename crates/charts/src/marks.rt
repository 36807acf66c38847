use crate::captions::{
    AskedText, BlockText, BoxText, MarkText, MomentText, StepText, WaitsText, ask_of, length,
};
use crate::layout::{HALF_BOX, LETTER, Layout, changed, half_box, half_box_of};
use crate::picture::{Picture, PictureEdge, ShownController};
use crate::point::Point;
use crate::svg::{Anchor, Pen};
use crate::ways::Heading;
use base::controller::Listed;
use base::{BlockId, Outcome, Place};
use monitor::Violation;
use retelling::{Happening, SeenController, Waiting};

/// How far below the middle of a text its letters stand.
const BASE: i64 = 4;
/// How far outside a box the ring of a controller is that a violation names.
const RING: i64 = 3;
/// The tints of blocks, in turn.
const TINTS: [&str; 6] = ["b0", "b1", "b2", "b3", "b4", "b5"];

/// The classes of the texts in boxes of these tints.
const STATES: [&str; 6] = [
    "state b0", "state b1", "state b2", "state b3", "state b4", "state b5",
];

/// What is drawn of a thing: its shape, or the texts of it, which come over all shapes.
#[derive(Clone, Copy, PartialEq, Eq)]
pub enum Layer {
    Shapes,
    Texts,
}

/// Draws for each row a line from its step to where that step goes.
pub fn draw_guides(pen: &mut Pen, picture: &Picture, layout: &Layout) {
    for (number, row) in picture.rows().iter().enumerate() {
        if let Some(center) = center_of(layout, number, row) {
            let text = length(&StepText(*row)).saturating_mul(LETTER);
            let from = Point {
                x: layout.steps.saturating_add(text).saturating_add(5),
                y: center.y,
            };
            pen.line("guide", from, center);
        }
    }
}

/// Where the controller of a row stands, if it has one.
fn center_of(layout: &Layout, number: usize, row: &Happening) -> Option<Point> {
    Some(Point {
        x: layout.lane_x(layout.lane_of(row)?),
        y: layout.row_y(number),
    })
}

/// Draws what the controllers are at a moment: their boxes, or the texts of these.
pub fn draw_standings(
    pen: &mut Pen,
    picture: &Picture,
    layout: &Layout,
    moment: PictureEdge,
    layer: Layer,
) {
    if layer == Layer::Texts {
        name_standings(pen, picture, layout, moment);
        if let PictureEdge::End = moment {
            name_waiting(pen, picture, layout);
        }
    }
    for standing in picture.standings(moment) {
        draw_standing(pen, picture, layout, moment, layer, *standing);
    }
}

/// Writes which moment it is, once for each block.
fn name_standings(pen: &mut Pen, picture: &Picture, layout: &Layout, moment: PictureEdge) {
    for (number, block) in picture.blocks().iter().enumerate() {
        let at = Point {
            x: layout.steps,
            y: layout.standing_y(moment, number).saturating_add(BASE),
        };
        let block = BlockText::of(picture, *block);
        pen.text("number", at, Anchor::Start, &MomentText { moment, block });
    }
}

/// Writes beside controllers at the end which loads and stores wait for ever.
fn name_waiting(pen: &mut Pen, picture: &Picture, layout: &Layout) {
    for waiting in picture.waiting() {
        if let Waiting::Pending {
            cache,
            block,
            ask,
            state,
        } = *waiting
        {
            let place = Place::Cache(cache);
            if let Some(center) = standing_center(picture, layout, PictureEdge::End, place, block) {
                let block = BlockText::of(picture, block);
                let half = half_box_of(length(&block).saturating_add(length(&state.name())));
                let at = center.moved(half.saturating_add(7).saturating_neg(), BASE);
                pen.text("ask", at, Anchor::End, &WaitsText { ask, block });
            }
        }
    }
}

/// Where a controller stands at a moment.
fn standing_center(
    picture: &Picture,
    layout: &Layout,
    moment: PictureEdge,
    place: Place,
    block: BlockId,
) -> Option<Point> {
    let number = picture.blocks().iter().position(|other| *other == block)?;
    Some(Point {
        x: layout.lane_x(layout.lanes.of_place(place, block)?),
        y: layout.standing_y(moment, number),
    })
}

fn draw_standing(
    pen: &mut Pen,
    picture: &Picture,
    layout: &Layout,
    moment: PictureEdge,
    layer: Layer,
    standing: ShownController,
) {
    let place = place_of(standing.sight);
    if let Some(center) = standing_center(picture, layout, moment, place, standing.block) {
        draw_box(pen, picture, center, standing, true, layer);
        if is_named(picture, moment, place, standing.block) {
            draw_ring(pen, picture, center, standing, layer);
        }
    }
}

/// Whether the last violation in a picture names a controller, which is told at the end.
fn is_named(picture: &Picture, moment: PictureEdge, place: Place, block: BlockId) -> bool {
    match (moment, picture.last_violation()) {
        (PictureEdge::End, Some((violation, at))) => names(violation, at, place, block),
        _ => false,
    }
}

fn names(violation: Violation, at: Option<Place>, place: Place, block: BlockId) -> bool {
    match violation {
        Violation::Blank { at, block: named } => named == block && at == place,
        Violation::SecondWriter {
            block: named,
            first,
            second,
        } => named == block && (place == Place::Cache(first) || place == Place::Cache(second)),
        Violation::WriterBesideReader {
            block: named,
            writer,
            reader,
        } => named == block && (place == Place::Cache(writer) || place == Place::Cache(reader)),
        Violation::StaleLoad { block: named, .. } => named == block && at == Some(place),
    }
}

fn place_of(sight: SeenController) -> Place {
    match sight {
        SeenController::Line(cache, _) => Place::Cache(cache),
        SeenController::Home(..) => Place::Dir,
    }
}

/// Draws the box of a controller, or the text in it.
fn draw_box(
    pen: &mut Pen,
    picture: &Picture,
    center: Point,
    standing: ShownController,
    is_own: bool,
    layer: Layer,
) {
    let text = BoxText::of(picture, standing.sight, standing.block);
    let half = half_box(&text);
    if layer == Layer::Texts {
        let class = state_class(picture, standing);
        pen.text(class, center.moved(0, BASE), Anchor::Middle, &text);
        return;
    }
    let class = match (standing.sight, is_own) {
        (SeenController::Line(..), true) => "box",
        (SeenController::Line(..), false) => "box changed",
        (SeenController::Home(..), true) => "box of-home",
        (SeenController::Home(..), false) => "box of-home changed",
    };
    let size = Point {
        x: half.saturating_mul(2),
        y: HALF_BOX * 2,
    };
    pen.tinted(
        class,
        tint_of(picture, standing.block),
        center.moved(half.saturating_neg(), -HALF_BOX),
        size,
    );
}

/// The class of the text in a box, which has a rim of the box's tint.
fn state_class(picture: &Picture, standing: ShownController) -> &'static str {
    if picture.has_blocks() {
        return STATES[standing.block.0 as usize % STATES.len()];
    }
    match standing.sight {
        SeenController::Line(..) => "state",
        SeenController::Home(..) => "state at-home",
    }
}

/// The tint of a block, where there are several.
fn tint_of(picture: &Picture, block: BlockId) -> &'static str {
    if picture.has_blocks() {
        TINTS[block.0 as usize % TINTS.len()]
    } else {
        ""
    }
}

/// Draws a ring round the box of a controller that a violation names.
fn draw_ring(
    pen: &mut Pen,
    picture: &Picture,
    center: Point,
    standing: ShownController,
    layer: Layer,
) {
    if layer != Layer::Shapes {
        return;
    }
    let half = half_box(&BoxText::of(picture, standing.sight, standing.block)).saturating_add(RING);
    let size = Point {
        x: half.saturating_mul(2),
        y: (HALF_BOX + RING) * 2,
    };
    let corner = center.moved(half.saturating_neg(), -HALF_BOX - RING);
    pen.rectangle("named", corner, size);
}

/// Draws the rows: what their controllers are, or the steps and what came of them.
pub fn draw_rows(pen: &mut Pen, picture: &Picture, layout: &Layout, layer: Layer) {
    for (number, row) in picture.rows().iter().enumerate() {
        if layer == Layer::Texts {
            name_row(pen, layout, number, row);
        }
        if let Some(center) = center_of(layout, number, row) {
            draw_controller(pen, picture, row, center, layer);
            if layer == Layer::Texts {
                draw_beside(pen, picture, layout, number, row, center);
            }
        }
    }
}

/// Writes the number of a row and its step.
fn name_row(pen: &mut Pen, layout: &Layout, number: usize, row: &Happening) {
    let at = Point {
        x: layout.steps,
        y: layout.row_y(number).saturating_add(BASE),
    };
    pen.text("number", at.moved(-8, 0), Anchor::End, &row.number);
    pen.text("step", at, Anchor::Start, &StepText(*row));
}

/// Draws the box of a row's controller whose state is another one now, or the text in it; and else a dot. Where the cell isn't
/// the protocol's own it has a thick edge.
fn draw_controller(pen: &mut Pen, picture: &Picture, row: &Happening, center: Point, layer: Layer) {
    let is_own = row.cell.is_none_or(|cell| cell.is_own);
    if let Some(sight) = changed(row) {
        let block = row.step.block();
        draw_box(
            pen,
            picture,
            center,
            ShownController { block, sight },
            is_own,
            layer,
        );
    } else if layer == Layer::Shapes {
        let class = match (row.acted.is_some(), is_own) {
            (true, true) => "dot",
            (true, false) => "dot changed",
            (false, true) => "tried",
            (false, false) => "tried changed",
        };
        pen.circle(class, center, 3);
    }
}

/// Writes beside a row's controller what its core asks, and the outcome.
fn draw_beside(
    pen: &mut Pen,
    picture: &Picture,
    layout: &Layout,
    number: usize,
    row: &Happening,
    center: Point,
) {
    let half = layout.half(picture, Some(number));
    let block = BlockText::of(picture, row.step.block());
    if let Some(ask) = ask_of(row.step) {
        let at = center.moved(half.saturating_add(7).saturating_neg(), -3);
        pen.text("ask", at, Anchor::End, &AskedText { ask, block });
    }
    let side = side_of(layout, row);
    let beside = center.moved(side.along(half.saturating_add(7)), -3);
    draw_mark(pen, row.outcome, block, side, beside);
}

/// On which side of its controller the outcome of a row stands: where no message comes in.
fn side_of(layout: &Layout, row: &Happening) -> Heading {
    match row.served.and_then(|trip| layout.lanes.of_trip(&trip)) {
        None => Heading::Right,
        Some((from, to)) => Heading::of(from, to),
    }
}

fn draw_mark(pen: &mut Pen, outcome: Outcome, block: BlockText, side: Heading, beside: Point) {
    let anchor = match side {
        Heading::Left => Anchor::End,
        Heading::Right => Anchor::Start,
    };
    let text = MarkText { outcome, block };
    match outcome {
        Outcome::Sent | Outcome::Moved => {}
        Outcome::Load { .. } | Outcome::Store { .. } => {
            pen.circle(mark_class(outcome), beside.moved(side.along(4), -4), 4);
            pen.text("mark", beside.moved(side.along(12), 0), anchor, &text);
        }
        _ => pen.text("met", beside, anchor, &text),
    }
}

fn mark_class(outcome: Outcome) -> &'static str {
    match outcome {
        Outcome::Store { .. } => "stored",
        _ => "loaded",
    }
}
