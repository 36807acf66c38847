//! Where a text stops being JSON, and why.

use crate::pieces::{Piece, PieceKind, is_blank, piece_from};
use crate::reasons::Reason;
use serde_json::Value;
use std::alloc::Global;

/// How deep JSON may nest that is read.
const MOST_LEVELS: usize = 127;

/// A place of a text, and what is wrong there.
#[derive(Clone, Copy)]
pub struct JsonFault {
    pub at: usize,
    pub reason: Reason,
}

/// What is due next.
#[derive(Clone, Copy, PartialEq, Eq)]
enum Due {
    /// A value, as the whole text or behind a colon.
    Value,
    /// A value or the end of an array, behind its `[`.
    ItemOrEnd,
    /// A value, behind a comma in an array.
    Item,
    /// A key or the end of an object, behind its `{`.
    KeyOrEnd,
    /// A key, behind a comma in an object.
    Key,
    Colon,
    /// A comma or the end of what is open, or of the whole text where nothing is.
    Comma,
}

/// A reading of a text that looks for its first fault.
#[derive(Clone, Copy)]
struct Reading {
    due: Due,
    /// Which of the brackets that are open are those of objects.
    objects: [bool; MOST_LEVELS],
    /// How many brackets are open.
    open: usize,
}

impl Reading {
    fn new() -> Reading {
        Reading {
            due: Due::Value,
            objects: [false; MOST_LEVELS],
            open: 0,
        }
    }

    /// Whether the innermost bracket that is open is an object's. `None` where none is open.
    fn is_in_object(&self) -> Option<bool> {
        self.objects.get(self.open.checked_sub(1)?).copied()
    }

    /// Takes a piece, and answers what is wrong with it, if that is so.
    fn take(&mut self, piece: Piece) -> Option<JsonFault> {
        let is_due = match piece.kind {
            PieceKind::OpenObject => return self.take_open(piece, true),
            PieceKind::OpenArray => return self.take_open(piece, false),
            PieceKind::CloseObject => self.take_close(true),
            PieceKind::CloseArray => self.take_close(false),
            PieceKind::Comma => self.take_comma(),
            PieceKind::Colon => self.take_colon(),
            PieceKind::Text => self.take_key() || self.take_value(),
            PieceKind::Number | PieceKind::Word => self.take_value(),
            PieceKind::Nothing => false,
        };
        match piece.fault {
            _ if !is_due => self.fault_at(piece),
            Some(reason) => Some(JsonFault {
                at: piece.to,
                reason,
            }),
            None => None,
        }
    }

    fn take_value(&mut self) -> bool {
        let is_due = matches!(self.due, Due::Value | Due::ItemOrEnd | Due::Item);
        if is_due {
            self.due = Due::Comma;
        }
        is_due
    }

    fn take_key(&mut self) -> bool {
        let is_due = matches!(self.due, Due::KeyOrEnd | Due::Key);
        if is_due {
            self.due = Due::Colon;
        }
        is_due
    }

    fn take_colon(&mut self) -> bool {
        let is_due = self.due == Due::Colon;
        if is_due {
            self.due = Due::Value;
        }
        is_due
    }

    fn take_comma(&mut self) -> bool {
        if self.due != Due::Comma {
            return false;
        }
        let Some(is_in_object) = self.is_in_object() else {
            return false;
        };
        self.due = if is_in_object { Due::Key } else { Due::Item };
        true
    }

    fn take_open(&mut self, piece: Piece, is_object: bool) -> Option<JsonFault> {
        if !self.take_value() {
            return self.fault_at(piece);
        }
        if self.open >= MOST_LEVELS {
            return Some(JsonFault {
                at: piece.from,
                reason: Reason::TooDeep,
            });
        }
        self.objects[self.open] = is_object;
        self.open += 1;
        self.due = if is_object {
            Due::KeyOrEnd
        } else {
            Due::ItemOrEnd
        };
        None
    }

    fn take_close(&mut self, is_object: bool) -> bool {
        let is_first = match self.due {
            Due::Comma => self.is_in_object() == Some(is_object),
            Due::KeyOrEnd => is_object,
            Due::ItemOrEnd => !is_object,
            _ => false,
        };
        if is_first {
            self.open = self.open.saturating_sub(1);
            self.due = Due::Comma;
        }
        is_first
    }

    /// The fault of a piece that isn't due.
    fn fault_at(&self, piece: Piece) -> Option<JsonFault> {
        let reason = match piece.kind {
            PieceKind::Nothing => self.reason_of_end()?,
            kind => self.reason_of(kind),
        };
        Some(JsonFault {
            at: piece.from,
            reason,
        })
    }

    fn reason_of(&self, kind: PieceKind) -> Reason {
        match (self.due, kind) {
            (Due::Item, PieceKind::CloseArray) | (Due::Key, PieceKind::CloseObject) => {
                Reason::TrailingComma
            }
            (Due::Value | Due::ItemOrEnd | Due::Item, _) => Reason::NoValue,
            (Due::KeyOrEnd | Due::Key, _) => Reason::NoKey,
            (Due::Colon, _) => Reason::NoColon,
            (Due::Comma, _) => match self.is_in_object() {
                None => Reason::TrailingBytes,
                Some(true) => Reason::NoCommaInObject,
                Some(false) => Reason::NoCommaInArray,
            },
        }
    }

    /// Why the text may not end here, if it may not.
    fn reason_of_end(&self) -> Option<Reason> {
        match self.due {
            Due::Value | Due::Item | Due::Key => Some(Reason::EndInValue),
            Due::ItemOrEnd => Some(Reason::EndInArray),
            Due::KeyOrEnd | Due::Colon => Some(Reason::EndInObject),
            Due::Comma => match self.is_in_object()? {
                true => Some(Reason::EndInObject),
                false => Some(Reason::EndInArray),
            },
        }
    }
}

/// The first fault of a text that isn't JSON. `None` where it is, but for the size of its numbers.
pub fn first_fault(bytes: &[u8]) -> Option<JsonFault> {
    if let Err(error) = str::from_utf8(bytes) {
        return Some(JsonFault {
            at: error.valid_up_to(),
            reason: Reason::NotUtf8,
        });
    }
    let mut reading = Reading::new();
    let mut at = 0usize;
    for _ in 0..=bytes.len() {
        let piece = piece_from(bytes, at);
        if let Some(fault) = reading.take(piece) {
            return Some(fault.in_front_of_blanks(bytes));
        }
        at = piece.to;
    }
    None
}

impl JsonFault {
    /// The same fault, but where the text ends behind blanks the place in front of these.
    fn in_front_of_blanks(self, bytes: &[u8]) -> JsonFault {
        let mut at = self.at;
        if at < bytes.len() || self.reason == Reason::EndInText {
            return self;
        }
        for (number, byte) in bytes.iter().enumerate().rev() {
            if !is_blank(*byte) {
                break;
            }
            at = number;
        }
        JsonFault { at, ..self }
    }
}

/// Where the first number of a text in JSON stands that isn't read, as it is too large.
pub fn first_large_number(alloc: Global, bytes: &[u8]) -> Option<usize> {
    let mut at = 0usize;
    for _ in 0..bytes.len() {
        let piece = piece_from(bytes, at);
        let text = bytes.get(piece.from..piece.to).unwrap_or(&[]);
        if piece.kind == PieceKind::Number && is_too_large(alloc, text) {
            return Some(piece.from);
        }
        at = piece.to;
    }
    None
}

fn is_too_large(alloc: Global, number: &[u8]) -> bool {
    match Value::from_slice(alloc, number) {
        Ok(_) => false,
        Err(error) => !error.is_memory(),
    }
}
