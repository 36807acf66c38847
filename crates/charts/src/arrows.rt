use crate::captions::{ArrowText, EndText, length};
use crate::layout::{LETTER, Layout};
use crate::picture::{ArrowEnd, Picture};
use crate::svg::{Anchor, Pen};
use crate::wayfinding::Wayfinder;
use crate::ways::{ArrowWay, Heading, TIP};
use network::Message;

/// Half of how wide the tip of an arrow is.
const HALF_TIP: i64 = 4;
/// How large the dot is at which an arrow begins.
const TAIL_DOT: i64 = 3;

/// Draws the lines of arrows, each with a rim that shows it over what it passes.
pub fn draw_wires(pen: &mut Pen, layout: &Layout, ways: &[ArrowWay], finder: &mut Wayfinder) {
    for way in ways {
        let corners = finder.find(layout, way);
        pen.group("arrow", kind_of(way), end_of(way));
        pen.path("rim", corners);
        pen.path("wire", corners);
        pen.end_group();
    }
}

/// Draws the ends of arrows: a dot at the sender and a tip. What is served behind the picture has no tip.
pub fn draw_ends(pen: &mut Pen, ways: &[ArrowWay]) {
    for way in ways {
        pen.group("ends", kind_of(way), end_of(way));
        if way.has_sender {
            pen.circle("tail", way.from, TAIL_DOT);
        }
        if has_tip(way) {
            let back = way.before_tip(TIP);
            let corners = [way.tip, back.moved(0, -HALF_TIP), back.moved(0, HALF_TIP)];
            pen.shape(head_of(way), &corners);
        }
        pen.end_group();
    }
}

/// Writes each arrow's name above its level part, and behind its tip how it ends where that isn't in the picture.
pub fn name_arrows(pen: &mut Pen, picture: &Picture, ways: &[ArrowWay]) {
    for way in ways {
        let name = ArrowText::of(picture, &way.arrow);
        let half = length(&name).saturating_mul(LETTER) / 2;
        let at = way.before_tip(half.saturating_add(TIP + 2)).moved(0, -4);
        pen.text("label", at, Anchor::Middle, &name);
        if way.row.is_none() {
            name_end(pen, way);
        }
    }
}

fn name_end(pen: &mut Pen, way: &ArrowWay) {
    let (at, anchor) = match way.heading {
        Heading::Right => (way.tip.moved(12, 4), Anchor::Start),
        Heading::Left => (way.tip.moved(-12, 4), Anchor::End),
    };
    pen.text("met", at, anchor, &EndText(way.arrow.end));
}

/// Whether an arrow goes on to a tip: it is served in the picture, or never.
fn has_tip(way: &ArrowWay) -> bool {
    match way.arrow.end {
        ArrowEnd::Served(_) => way.row.is_some(),
        _ => true,
    }
}

/// The class of a tip, which has a thick edge where a cell holds the message that isn't the protocol's own.
fn head_of(way: &ArrowWay) -> &'static str {
    match way.arrow.end {
        ArrowEnd::Held(cell) if !cell.is_own => "head changed",
        _ => "head",
    }
}

fn kind_of(way: &ArrowWay) -> &'static str {
    match way.arrow.trip.message {
        Message::Request(_) => "request",
        Message::Forward(..) => "forward",
        Message::Response(_) => "response",
    }
}

fn end_of(way: &ArrowWay) -> &'static str {
    match (way.row, way.arrow.end) {
        (Some(_), _) => "",
        (None, ArrowEnd::Served(_)) => " later",
        _ => " unserved",
    }
}
