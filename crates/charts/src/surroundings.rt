use crate::captions::{LifelineText, ToldText, ViolationText};
use crate::layout::{BAND, HALF_PLATE, LEGEND, Layout, half_plate};
use crate::picture::Picture;
use crate::point::Point;
use crate::svg::{Anchor, Pen};

/// How far below the middle of a row the first band behind it begins.
const BEHIND: i64 = 14;
/// How far from the left edge texts begin.
const MARGIN: i64 = 10;

/// Draws a lifeline for each controller that takes part.
pub fn draw_lifelines(pen: &mut Pen, layout: &Layout) {
    let (Some(upper), Some(lower)) = (layout.plates().first(), layout.plates().last()) else {
        return;
    };
    for lane in 0..layout.lanes.count() {
        let x = layout.lane_x(lane);
        let (from, to) = (Point { x, y: *upper }, Point { x, y: *lower });
        pen.line("life", from, to);
    }
}

/// Writes the names of the lifelines, above, below and in between.
pub fn draw_plates(pen: &mut Pen, picture: &Picture, layout: &Layout) {
    for y in layout.plates() {
        for (number, lane) in (0..u32::MAX).zip(layout.lanes.order().iter()) {
            let center = Point {
                x: layout.lane_x(number),
                y: *y,
            };
            draw_plate(pen, center, &LifelineText::of(picture, *lane));
        }
    }
}

fn draw_plate(pen: &mut Pen, center: Point, name: &LifelineText) {
    let half = half_plate(name);
    let size = Point {
        x: half.saturating_mul(2),
        y: HALF_PLATE * 2,
    };
    pen.rectangle(
        "plate",
        center.moved(half.saturating_neg(), -HALF_PLATE),
        size,
    );
    pen.text("title", center.moved(0, 4), Anchor::Middle, name);
}

/// What a band says where nothing can go on.
const STUCK: &str = "stuck: nothing can go on";

/// Draws a band behind each row that has a violation, or another outcome than was told, and at the end where nothing can go on.
pub fn draw_bands(pen: &mut Pen, picture: &Picture, layout: &Layout) {
    let size = Point {
        x: layout.size.x,
        y: BAND - 2,
    };
    for (number, row) in picture.rows().iter().enumerate() {
        let mut corner = Point {
            x: 0,
            y: layout.row_y(number).saturating_add(BEHIND),
        };
        if row.differs() {
            pen.rectangle("told-band", corner, size);
            corner = corner.moved(0, BAND);
        }
        if row.violation.is_some() {
            pen.rectangle("band", corner, size);
        }
    }
    if let Some(y) = layout.stuck_y(picture) {
        pen.rectangle("stuck-band", Point { x: 0, y }.moved(0, 1 - BAND / 2), size);
    }
}

/// Writes what the bands are about.
pub fn draw_findings(pen: &mut Pen, picture: &Picture, layout: &Layout) {
    for (number, row) in picture.rows().iter().enumerate() {
        let mut at = Point {
            x: MARGIN,
            y: layout.row_y(number).saturating_add(BEHIND + 13),
        };
        if row.differs() {
            pen.text("told", at, Anchor::Start, &ToldText(*row));
            at = at.moved(0, BAND);
        }
        if let Some(text) = ViolationText::of(row) {
            pen.text("why", at, Anchor::Start, &text);
        }
    }
    if let Some(y) = layout.stuck_y(picture) {
        let at = Point { x: MARGIN, y };
        pen.text("stuck", at.moved(0, 4), Anchor::Start, &STUCK);
    }
}

/// Draws what the strokes and the marks mean.
pub fn draw_legend(pen: &mut Pen, layout: &Layout) {
    let mut at = Point {
        x: MARGIN,
        y: layout.legend,
    };
    for (kind, has_tip, meaning) in [
        ("request", true, "a request"),
        ("forward", true, "a forward"),
        ("response", true, "a response"),
        (
            "request unserved",
            true,
            "a message that is not served by the end",
        ),
        ("request later", false, "a message that is served later"),
    ] {
        draw_sample(pen, at, kind, has_tip, meaning);
        at = at.moved(0, LEGEND);
    }
    for (class, meaning) in [
        ("stored", "a store completes"),
        ("loaded", "a load completes"),
        ("dot changed", "a cell that is not the protocol's own"),
    ] {
        pen.circle(class, at.moved(20, 0), 4);
        pen.text("meaning", at.moved(52, 4), Anchor::Start, &meaning);
        at = at.moved(0, LEGEND);
    }
}

fn draw_sample(pen: &mut Pen, at: Point, kind: &str, has_tip: bool, meaning: &str) {
    pen.group("sample", kind, "");
    pen.path("wire", &[at, at.moved(32, 0)]);
    if has_tip {
        pen.shape(
            "head",
            &[at.moved(40, 0), at.moved(31, -4), at.moved(31, 4)],
        );
    }
    pen.end_group();
    pen.text("meaning", at.moved(52, 4), Anchor::Start, &meaning);
}
