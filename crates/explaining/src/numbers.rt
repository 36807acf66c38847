//! Numbers in JSON, byte by byte.

use crate::pieces::End;
use crate::reasons::Reason;

/// What of a number stands in front of the next byte.
#[derive(Clone, Copy, PartialEq, Eq)]
enum Front {
    Nothing,
    Minus,
    Zero,
    Whole,
    Point,
    Fraction,
    Mark,
    Sign,
    Exponent,
}

impl Front {
    /// What stands there behind one more byte, if the number goes on with it.
    fn with(self, byte: u8) -> Option<Front> {
        match (self, byte) {
            (Front::Nothing, b'-') => Some(Front::Minus),
            (Front::Nothing | Front::Minus, b'0') => Some(Front::Zero),
            (Front::Nothing | Front::Minus, b'1'..=b'9') => Some(Front::Whole),
            (Front::Whole, b'0'..=b'9') => Some(Front::Whole),
            (Front::Zero | Front::Whole, b'.') => Some(Front::Point),
            (Front::Point | Front::Fraction, b'0'..=b'9') => Some(Front::Fraction),
            (Front::Zero | Front::Whole | Front::Fraction, b'e' | b'E') => Some(Front::Mark),
            (Front::Mark, b'+' | b'-') => Some(Front::Sign),
            (Front::Mark | Front::Sign | Front::Exponent, b'0'..=b'9') => Some(Front::Exponent),
            _ => None,
        }
    }

    /// Whether it is a number that may end in front of a byte: behind a zero no digit stands.
    fn may_end(self, byte: u8) -> bool {
        match self {
            Front::Zero => !byte.is_ascii_digit(),
            Front::Whole | Front::Fraction | Front::Exponent => true,
            _ => false,
        }
    }
}

/// Where the number that begins at a place ends.
pub fn number_end(bytes: &[u8], from: usize) -> End {
    let mut front = Front::Nothing;
    for at in from..bytes.len() {
        let byte = bytes[at];
        match front.with(byte) {
            Some(next) => front = next,
            None if front.may_end(byte) => return End::whole(at),
            None => return End::wrong(at, Reason::NoNumber),
        }
    }
    if front.may_end(b' ') {
        End::whole(bytes.len())
    } else {
        End::wrong(bytes.len(), Reason::EndInValue)
    }
}
