//! Where a value of a text in JSON begins.

use crate::pieces::{Piece, PieceKind, piece_from};
use crate::places::Turn;
use crate::texts::is_name;

/// A search for the value at the end of a path, as far as the text was read.
///
/// Of the brackets that are open the first ones are those of the values that the path goes through. While no other is open,
/// the place in the last of them decides whether the value that comes next is the one that the path goes to from there.
#[derive(Clone, Copy)]
struct Search<'a> {
    bytes: &'a [u8],
    turns: &'a [Turn],
    /// How many brackets are open.
    open: usize,
    /// How many of them, from the outermost on, are those of values that the path goes through.
    on_path: usize,
    /// How many items of the array in which the search is were begun before.
    items: usize,
    /// Whether a text that comes next is a key of the object in which the search is.
    is_key_due: bool,
    /// Whether a value that comes next is on the path.
    is_next: bool,
    found: Option<usize>,
}

impl<'a> Search<'a> {
    fn new(bytes: &'a [u8], turns: &'a [Turn]) -> Search<'a> {
        Search {
            bytes,
            turns,
            open: 0,
            on_path: 0,
            items: 0,
            is_key_due: false,
            is_next: true,
            found: None,
        }
    }

    /// Where the path turns in the value in which the search is.
    fn turn(&self) -> Option<Turn> {
        self.turns.get(self.on_path.checked_sub(1)?).copied()
    }

    fn take(&mut self, piece: Piece) {
        match piece.kind {
            PieceKind::OpenObject | PieceKind::OpenArray => self.take_open(piece),
            PieceKind::CloseObject | PieceKind::CloseArray => self.take_close(),
            PieceKind::Comma if self.open == self.on_path => self.take_comma(),
            PieceKind::Text if self.is_key_due => self.take_key(piece),
            PieceKind::Text | PieceKind::Number | PieceKind::Word => {
                self.take_value(piece);
            }
            _ => {}
        }
    }

    /// Takes the front of a value, and answers whether the path goes on from it.
    fn take_value(&mut self, piece: Piece) -> bool {
        if !self.is_next {
            return false;
        }
        self.is_next = false;
        // of a key that stands there twice the last value counts
        self.found = None;
        if self.on_path == self.turns.len() {
            self.found = Some(piece.from);
            return false;
        }
        true
    }

    fn take_open(&mut self, piece: Piece) {
        let goes_on = self.take_value(piece);
        let next = self.turns.get(self.on_path);
        self.open = self.open.saturating_add(1);
        self.is_key_due = false;
        match (piece.kind, next) {
            (PieceKind::OpenObject, Some(Turn::Key(_))) if goes_on => {
                self.on_path = self.open;
                self.is_key_due = true;
            }
            (PieceKind::OpenArray, Some(Turn::Item(number))) if goes_on => {
                self.on_path = self.open;
                self.items = 0;
                self.is_next = *number == 0;
            }
            _ => {}
        }
    }

    fn take_close(&mut self) {
        self.open = self.open.saturating_sub(1);
        self.is_key_due = false;
        if self.open >= self.on_path {
            return;
        }
        self.on_path = self.open;
        self.is_next = false;
        if let Some(Turn::Item(number)) = self.turn() {
            self.items = number;
        }
    }

    fn take_comma(&mut self) {
        match self.turn() {
            Some(Turn::Key(_)) => self.is_key_due = true,
            Some(Turn::Item(number)) => {
                self.items = self.items.saturating_add(1);
                self.is_next = self.items == number;
            }
            None => {}
        }
    }

    fn take_key(&mut self, piece: Piece) {
        self.is_key_due = false;
        if let Some(Turn::Key(key)) = self.turn() {
            self.is_next = is_name(self.bytes, piece.from.saturating_add(1), key.as_bytes());
        }
    }
}

/// Where the value begins that stands at the end of a path of turns. `None` where there is none, or the text isn't JSON.
pub fn place_of_value(bytes: &[u8], turns: &[Turn]) -> Option<usize> {
    let mut search = Search::new(bytes, turns);
    let mut at = 0usize;
    for _ in 0..bytes.len() {
        let piece = piece_from(bytes, at);
        if piece.kind == PieceKind::Nothing || piece.fault.is_some() {
            break;
        }
        search.take(piece);
        at = piece.to;
    }
    search.found
}
