//! Lines of an input as the standard library reads them: what `command_output::InputLines` has to agree with.

use std::alloc::Global;
use std::io;
use std::io::{BufRead, BufReader, Read};

/// The most bytes that a line may have, its LF left out.
pub const MOST_BYTES: usize = 200;

/// Input by lines, of which one at a time is kept.
#[derive(Drop)]
pub struct Lines<R> {
    reader: BufReader<R>,
    line: Vec<u8>,
    number: u64,
}

impl<R: Read + Drop> Lines<R> {
    pub fn new(alloc: Global, input: R) -> io::Result<Lines<R>> {
        let reader = BufReader::new(alloc, input)?;
        let line = Vec::with_capacity(alloc, MOST_BYTES + 2)?;
        Ok(Lines {
            reader,
            line,
            number: 0,
        })
    }

    /// Reads the next line, or answers `false` where there is none. The last line needs no LF.
    ///
    /// Of a longer line only the first `MOST_BYTES + 1` bytes are read.
    pub fn advance(&mut self) -> io::Result<bool> {
        self.line.clear();
        if read_front(&mut self.reader, &mut self.line)? == 0 {
            return Ok(false);
        }
        if self.line.last() == Some(&b'\n') {
            let _ = self.line.pop();
        }
        self.number = self.number.saturating_add(1);
        Ok(true)
    }

    /// Passes what is left of a line of which only the front was read.
    pub fn skip_rest(&mut self) -> io::Result<()> {
        if self.line.len() > MOST_BYTES {
            self.reader.skip_until(b'\n')?;
        }
        Ok(())
    }

    /// The line, without its LF.
    pub fn line(&self) -> &[u8] {
        self.line.as_slice()
    }

    /// The number of the line, counted from 1.
    pub fn number(&self) -> u64 {
        self.number
    }
}

/// Reads the front of a line, and its LF where it comes within the front.
fn read_front<B: BufRead>(reader: &mut B, line: &mut Vec<u8>) -> io::Result<usize> {
    let mut front = reader.take(MOST_BYTES as u64 + 1);
    front.read_until(b'\n', line)
}
