use std::fmt;
use std::fmt::Write;

/// How many bytes of a text are shown at most.
pub const MOST_QUOTED: usize = 100;

const DIGITS: &[u8; 16] = b"0123456789abcdef";

/// Bytes between quotes, in which whatever can't be seen is told by an escape, as `\r` or `\xff`. Of more than `MOST_QUOTED`
/// bytes the first ones are shown, and how many there are is told behind them.
#[derive(Clone, Copy)]
pub struct Quoted<'a>(pub &'a [u8]);

impl fmt::Display for Quoted<'_> {
    fn fmt<W: fmt::Write>(&self, f: &mut fmt::Formatter<W>) -> fmt::Result {
        f.write_str("\"")?;
        write_front(self.0, f)?;
        f.write_str("\"")?;
        write_cut(self.0, f)
    }
}

/// Bytes as `Quoted` shows them, but without quotes.
#[derive(Clone, Copy)]
pub struct Bare<'a>(pub &'a [u8]);

impl fmt::Display for Bare<'_> {
    fn fmt<W: fmt::Write>(&self, f: &mut fmt::Formatter<W>) -> fmt::Result {
        write_front(self.0, f)?;
        write_cut(self.0, f)
    }
}

fn write_front<W: fmt::Write>(bytes: &[u8], f: &mut fmt::Formatter<W>) -> fmt::Result {
    for byte in &bytes[..bytes.len().min(MOST_QUOTED)] {
        write_byte(*byte, f)?;
    }
    Ok(())
}

/// Tells how many bytes there are, where they aren't all shown.
fn write_cut<W: fmt::Write>(bytes: &[u8], f: &mut fmt::Formatter<W>) -> fmt::Result {
    if bytes.len() > MOST_QUOTED {
        return write!(f, ", cut behind {MOST_QUOTED} of {} bytes", bytes.len());
    }
    Ok(())
}

fn write_byte<W: fmt::Write>(byte: u8, f: &mut fmt::Formatter<W>) -> fmt::Result {
    match byte {
        b'\r' => f.write_str("\\r"),
        b'\n' => f.write_str("\\n"),
        b'\t' => f.write_str("\\t"),
        b'\\' => f.write_str("\\\\"),
        b'"' => f.write_str("\\\""),
        b' '..=b'~' => f.write_char(char::from(byte)),
        _ => write!(f, "\\x{}{}", digit(byte / 16), digit(byte % 16)),
    }
}

/// A digit to the base of 16.
fn digit(value: u8) -> char {
    char::from(DIGITS[usize::from(value % 16)])
}
