//! Texts between quotes in JSON, byte by byte.

use crate::pieces::End;
use crate::reasons::Reason;

/// What stands where the next byte is read.
#[derive(Clone, Copy)]
enum Inside {
    Bytes,
    /// Behind a `\`.
    Escape,
    /// So many digits of a `\u` are still due, and those before have this value.
    Digits(u8, u32),
}

/// What comes of a byte of a text.
#[derive(Clone, Copy)]
enum Found {
    /// Nothing yet.
    More,
    /// A byte of the text, or what an escape stands for.
    Unit(u32),
    /// The text's end.
    End,
    Wrong(Reason),
}

/// A reader of the bytes behind a text's first quote.
#[derive(Clone, Copy)]
struct TextReader {
    inside: Inside,
    /// Whether the first half of a pair of `\u` stood before.
    is_half: bool,
}

impl TextReader {
    fn new() -> TextReader {
        TextReader {
            inside: Inside::Bytes,
            is_half: false,
        }
    }

    fn read(&mut self, byte: u8) -> Found {
        match self.inside {
            Inside::Bytes => self.read_plain(byte),
            Inside::Escape => self.read_escape(byte),
            Inside::Digits(due, value) => self.read_digit(due, value, byte),
        }
    }

    fn read_plain(&mut self, byte: u8) -> Found {
        match byte {
            b'\\' => {
                self.inside = Inside::Escape;
                Found::More
            }
            _ if self.is_half => Found::Wrong(Reason::HalfPair),
            b'"' => Found::End,
            0..=31 => Found::Wrong(Reason::Control),
            _ => Found::Unit(u32::from(byte)),
        }
    }

    fn read_escape(&mut self, byte: u8) -> Found {
        if byte == b'u' {
            self.inside = Inside::Digits(4, 0);
            return Found::More;
        }
        self.inside = Inside::Bytes;
        if self.is_half {
            return Found::Wrong(Reason::HalfPair);
        }
        match byte {
            b'"' | b'\\' | b'/' => Found::Unit(u32::from(byte)),
            b'b' => Found::Unit(8),
            b'f' => Found::Unit(12),
            b'n' => Found::Unit(10),
            b'r' => Found::Unit(13),
            b't' => Found::Unit(9),
            _ => Found::Wrong(Reason::NoEscape),
        }
    }

    fn read_digit(&mut self, due: u8, value: u32, byte: u8) -> Found {
        let Some(digit) = char::from(byte).to_digit(16) else {
            return Found::Wrong(Reason::NoEscape);
        };
        let value = value.saturating_mul(16).saturating_add(digit);
        if due > 1 {
            self.inside = Inside::Digits(due - 1, value);
            return Found::More;
        }
        self.inside = Inside::Bytes;
        self.found(value)
    }

    /// What comes of a whole `\u`.
    fn found(&mut self, value: u32) -> Found {
        match (self.is_half, value) {
            (false, 0xd800..=0xdbff) => {
                self.is_half = true;
                Found::More
            }
            (true, 0xdc00..=0xdfff) => {
                self.is_half = false;
                Found::Unit(value)
            }
            (true, _) | (false, 0xdc00..=0xdfff) => Found::Wrong(Reason::HalfPair),
            _ => Found::Unit(value),
        }
    }
}

/// Where a text ends whose first quote stands in front of a place.
pub fn text_end(bytes: &[u8], from: usize) -> End {
    let mut reader = TextReader::new();
    for at in from..bytes.len() {
        match reader.read(bytes[at]) {
            Found::End => return End::whole(at.saturating_add(1)),
            Found::Wrong(reason) => return End::wrong(at, reason),
            Found::More | Found::Unit(_) => {}
        }
    }
    End::wrong(bytes.len(), Reason::EndInText)
}

/// Whether a text whose first quote stands in front of a place is a name of letters that ASCII has.
pub fn is_name(bytes: &[u8], from: usize, name: &[u8]) -> bool {
    let mut reader = TextReader::new();
    let mut rest = name;
    for at in from..bytes.len() {
        match reader.read(bytes[at]) {
            Found::End => return rest.is_empty(),
            Found::Wrong(_) => return false,
            Found::More => {}
            Found::Unit(unit) => match rest {
                [first, more @ ..] if u32::from(*first) == unit => rest = more,
                _ => return false,
            },
        }
    }
    false
}
