use crate::point::Point;
use sheet::Sheet;
use std::alloc::Global;
use std::fmt;

/// To which side of its place a text goes.
#[derive(Clone, Copy)]
pub enum Anchor {
    Start,
    Middle,
    End,
}

impl Anchor {
    fn name(self) -> &'static str {
        match self {
            Anchor::Start => "start",
            Anchor::Middle => "middle",
            Anchor::End => "end",
        }
    }
}

/// Writes the elements of a picture onto a sheet.
#[derive(Drop)]
pub struct Pen {
    sheet: Sheet,
}

impl Pen {
    /// Begins a picture of this size, with its style.
    pub fn begin(alloc: Global, size: Point, style: &str) -> Pen {
        let mut pen = Pen {
            sheet: Sheet::new(alloc),
        };
        pen.markup("<svg xmlns=\"http://www.w3.org/2000/svg\"");
        pen.number("width", size.x);
        pen.number("height", size.y);
        pen.markup(" viewBox=\"0 0 ");
        pen.sheet.put(&size.x);
        pen.markup(" ");
        pen.sheet.put(&size.y);
        pen.markup("\">\n<style>\n");
        pen.markup(style);
        pen.markup("</style>\n");
        pen
    }

    /// Ends the picture.
    pub fn end(mut self) -> Sheet {
        self.markup("</svg>\n");
        self.sheet
    }

    fn markup(&mut self, markup: &str) {
        self.sheet.push(markup);
    }

    /// Begins an element of a class.
    fn open(&mut self, name: &str, class: &str) {
        self.markup("<");
        self.markup(name);
        self.word("class", class);
    }

    fn word(&mut self, name: &str, value: &str) {
        self.markup(" ");
        self.markup(name);
        self.markup("=\"");
        self.markup(value);
        self.markup("\"");
    }

    fn number(&mut self, name: &str, value: i64) {
        self.markup(" ");
        self.markup(name);
        self.markup("=\"");
        self.sheet.put(&value);
        self.markup("\"");
    }

    fn close(&mut self) {
        self.markup("/>\n");
    }

    /// Begins a group of elements, of a class with two more words.
    pub fn group(&mut self, class: &str, kind: &str, more: &str) {
        self.markup("<g class=\"");
        self.markup(class);
        self.markup(" ");
        self.markup(kind);
        self.markup(more);
        self.markup("\">\n");
    }

    pub fn end_group(&mut self) {
        self.markup("</g>\n");
    }

    pub fn line(&mut self, class: &str, from: Point, to: Point) {
        self.open("line", class);
        self.number("x1", from.x);
        self.number("y1", from.y);
        self.number("x2", to.x);
        self.number("y2", to.y);
        self.close();
    }

    /// A rectangle from its upper left corner.
    pub fn rectangle(&mut self, class: &str, corner: Point, size: Point) {
        self.open("rect", class);
        self.number("x", corner.x);
        self.number("y", corner.y);
        self.number("width", size.x);
        self.number("height", size.y);
        self.close();
    }

    /// A rectangle with a tint, which may be none.
    pub fn tinted(&mut self, class: &str, tint: &str, corner: Point, size: Point) {
        self.markup("<g class=\"");
        self.markup(tint);
        self.markup("\">\n");
        self.rectangle(class, corner, size);
        self.end_group();
    }

    pub fn circle(&mut self, class: &str, center: Point, radius: i64) {
        self.open("circle", class);
        self.number("cx", center.x);
        self.number("cy", center.y);
        self.number("r", radius);
        self.close();
    }

    /// A line through these points.
    pub fn path(&mut self, class: &str, points: &[Point]) {
        self.open("polyline", class);
        self.points(points);
        self.close();
    }

    /// A filled shape with these corners.
    pub fn shape(&mut self, class: &str, points: &[Point]) {
        self.open("polygon", class);
        self.points(points);
        self.close();
    }

    fn points(&mut self, points: &[Point]) {
        let mut before = " points=\"";
        for point in points {
            self.markup(before);
            self.sheet.put(&point.x);
            self.markup(",");
            self.sheet.put(&point.y);
            before = " ";
        }
        self.markup("\"");
    }

    /// A text, which is escaped.
    pub fn text<D: fmt::Display>(&mut self, class: &str, at: Point, anchor: Anchor, text: &D) {
        self.open("text", class);
        self.number("x", at.x);
        self.number("y", at.y);
        self.word("text-anchor", anchor.name());
        self.markup(">");
        self.sheet.put_escaped(text);
        self.markup("</text>\n");
    }

    /// What the whole picture is called.
    pub fn title<D: fmt::Display>(&mut self, text: &D) {
        self.markup("<title>");
        self.sheet.put_escaped(text);
        self.markup("</title>\n");
    }
}
