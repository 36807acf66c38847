use crate::finding::place_of_value;
use crate::lines::Position;
use crate::pieces::piece_from;
use std::fmt;

/// At how deep a level the deepest node of a scenario stands, where the root's is 1.
pub const MOST_LEVELS: usize = 48;

/// How many turns a path has at most: two to each child of a node, and one to a value in it.
const MOST_TURNS: usize = 100;

/// A turn of a path, from a value to one that stands in it. Items of an array are counted from 0.
#[derive(Clone, Copy)]
pub enum Turn {
    Key(&'static str),
    Item(usize),
}

impl fmt::Display for Turn {
    fn fmt<W: fmt::Write>(&self, f: &mut fmt::Formatter<W>) -> fmt::Result {
        match self {
            Turn::Key(key) => write!(f, ".{key}"),
            Turn::Item(number) => write!(f, "[{number}]"),
        }
    }
}

/// The way from the root of a text in JSON to one of its values. It is told with the place where that value begins.
#[derive(Clone, Copy)]
pub struct Path<'a> {
    bytes: &'a [u8],
    turns: [Turn; MOST_TURNS],
    length: usize,
}

impl<'a> Path<'a> {
    /// The way to the root of a text.
    pub fn root(bytes: &'a [u8]) -> Path<'a> {
        Path {
            bytes,
            turns: [Turn::Item(0); MOST_TURNS],
            length: 0,
        }
    }

    /// The text.
    pub fn bytes(&self) -> &'a [u8] {
        self.bytes
    }

    /// How many turns it has.
    pub fn length(&self) -> usize {
        self.length
    }

    /// Goes on by a turn, unless the path is full.
    pub fn go(&mut self, turn: Turn) {
        if self.length < MOST_TURNS {
            self.turns[self.length] = turn;
            self.length += 1;
        }
    }

    /// Goes back to the value that so many turns lead to.
    pub fn back(&mut self, length: usize) {
        self.length = self.length.min(length);
    }

    /// The way on to what stands at a key.
    pub fn key(&self, key: &'static str) -> Path<'a> {
        let mut path = *self;
        path.go(Turn::Key(key));
        path
    }

    /// The way on to an item, counted from 0.
    pub fn item(&self, number: usize) -> Path<'a> {
        let mut path = *self;
        path.go(Turn::Item(number));
        path
    }

    fn turns(&self) -> &[Turn] {
        &self.turns[..self.length.min(MOST_TURNS)]
    }

    /// Where the value begins.
    fn place(&self) -> Option<usize> {
        place_of_value(self.bytes, self.turns())
    }

    /// How the text spells the value, if that is plain.
    pub fn spelled(&self) -> &'a [u8] {
        let bytes = self.bytes;
        let Some(at) = self.place() else {
            return &[];
        };
        let piece = piece_from(bytes, at);
        bytes.get(piece.from..piece.to).unwrap_or(&[])
    }
}

impl fmt::Display for Path<'_> {
    fn fmt<W: fmt::Write>(&self, f: &mut fmt::Formatter<W>) -> fmt::Result {
        f.write_str("$")?;
        for turn in self.turns() {
            write!(f, "{turn}")?;
        }
        match self.place() {
            Some(at) => write!(f, " ({})", Position::of(self.bytes, at)),
            None => Ok(()),
        }
    }
}
