//! The pieces of a text in JSON: brackets, commas, colons and plain values.

use crate::numbers::number_end;
use crate::reasons::Reason;
use crate::texts::text_end;

/// Where a plain value ends, or where it is seen that it is none, and why.
#[derive(Clone, Copy)]
pub struct End {
    at: usize,
    fault: Option<Reason>,
}

impl End {
    pub fn whole(at: usize) -> End {
        End { at, fault: None }
    }

    pub fn wrong(at: usize, reason: Reason) -> End {
        End {
            at,
            fault: Some(reason),
        }
    }
}

/// What a piece is.
#[derive(Clone, Copy, PartialEq, Eq)]
pub enum PieceKind {
    OpenObject,
    CloseObject,
    OpenArray,
    CloseArray,
    Comma,
    Colon,
    /// A text between quotes: a key or a value.
    Text,
    Number,
    /// `true`, `false`, `null`, or what begins no piece.
    Word,
    /// The end of the whole text.
    Nothing,
}

/// A piece of a text in JSON.
#[derive(Clone, Copy)]
pub struct Piece {
    pub kind: PieceKind,
    /// Where it begins.
    pub from: usize,
    /// Where it ends, or where its fault is seen.
    pub to: usize,
    /// What is wrong with it.
    pub fault: Option<Reason>,
}

/// The first piece of a text from a place on.
pub fn piece_from(bytes: &[u8], at: usize) -> Piece {
    let from = behind_blanks(bytes, at);
    let rest = bytes.get(from..).unwrap_or(&[]);
    let kind = kind_of(rest);
    let behind = from.saturating_add(1);
    let end = match kind {
        PieceKind::Nothing => End::whole(from),
        PieceKind::Text => text_end(bytes, behind),
        PieceKind::Number => number_end(bytes, from),
        PieceKind::Word => word_end(rest, from),
        _ => End::whole(behind),
    };
    Piece {
        kind,
        from,
        to: end.at,
        fault: end.fault,
    }
}

fn kind_of(rest: &[u8]) -> PieceKind {
    match rest.first() {
        None => PieceKind::Nothing,
        Some(b'{') => PieceKind::OpenObject,
        Some(b'}') => PieceKind::CloseObject,
        Some(b'[') => PieceKind::OpenArray,
        Some(b']') => PieceKind::CloseArray,
        Some(b',') => PieceKind::Comma,
        Some(b':') => PieceKind::Colon,
        Some(b'"') => PieceKind::Text,
        Some(b'-' | b'0'..=b'9') => PieceKind::Number,
        Some(_) => PieceKind::Word,
    }
}

/// The place of the first byte from a place on that isn't blank, or the text's end.
fn behind_blanks(bytes: &[u8], from: usize) -> usize {
    for at in from..bytes.len() {
        if !is_blank(bytes[at]) {
            return at;
        }
    }
    bytes.len()
}

/// Whether a byte stands between pieces and has no meaning.
pub fn is_blank(byte: u8) -> bool {
    match byte {
        b' ' | b'\t' | b'\n' | b'\r' => true,
        _ => false,
    }
}

/// Where a word ends that begins at a place, with which this rest of the text begins.
fn word_end(rest: &[u8], from: usize) -> End {
    let name: &[u8] = match rest.first() {
        Some(b't') => b"true",
        Some(b'f') => b"false",
        Some(b'n') => b"null",
        _ => return End::wrong(from, Reason::NoValue),
    };
    if rest.starts_with(name) {
        return End::whole(from.saturating_add(name.len()));
    }
    if name.starts_with(rest) {
        return End::wrong(from.saturating_add(rest.len()), Reason::EndInValue);
    }
    End::wrong(from, Reason::NoWord)
}
