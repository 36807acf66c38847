use std::fmt;

/// A line of a text, counted from 1, without its end: nothing where there is no such line.
pub fn line_of(bytes: &[u8], number: usize) -> &[u8] {
    let mut before = 1usize;
    let mut from = 0usize;
    for (at, byte) in bytes.iter().enumerate() {
        if *byte != b'\n' {
            continue;
        }
        if before == number {
            return bytes.get(from..at).unwrap_or(&[]);
        }
        before = before.saturating_add(1);
        from = at.saturating_add(1);
    }
    if before == number {
        return bytes.get(from..).unwrap_or(&[]);
    }
    &[]
}

/// A place of a text as an editor counts: lines and columns from 1, the columns in bytes.
#[derive(Clone, Copy)]
pub struct Position {
    pub line: usize,
    pub column: usize,
}

impl Position {
    /// The place in front of which so many bytes stand.
    pub fn of(bytes: &[u8], at: usize) -> Position {
        let mut place = Position { line: 1, column: 1 };
        for byte in bytes.iter().take(at) {
            if *byte == b'\n' {
                place.line = place.line.saturating_add(1);
                place.column = 1;
            } else {
                place.column = place.column.saturating_add(1);
            }
        }
        place
    }
}

impl fmt::Display for Position {
    fn fmt<W: fmt::Write>(&self, f: &mut fmt::Formatter<W>) -> fmt::Result {
        write!(f, "line {}, column {}", self.line, self.column)
    }
}
