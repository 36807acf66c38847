use crate::fault::Fault;
use crate::printing::Printer;
use base::{FromRead, NoMemory, Step};
use record_lines::Lines;
use std::alloc::Global;
use std::io;
use std::io::{ErrorKind, Read, Write};

/// The most bytes that a line may have, its LF left out.
pub const MOST_BYTES: usize = 200;

/// An input that has a step or an ask in each line. What reads recordings gathers its lines.
#[derive(Drop)]
pub struct InputLines<R> {
    source: FromRead<Retried<R>>,
    lines: Lines,
    is_at_end: bool,
}

impl<R: Read + Drop> InputLines<R> {
    /// An input of which nothing was read yet.
    pub fn new(alloc: Global, input: R) -> Result<InputLines<R>, NoMemory> {
        Ok(InputLines {
            source: FromRead::new(Retried(input)),
            lines: Lines::open(alloc)?,
            is_at_end: false,
        })
    }

    /// Passes the next line where all of it was read ahead and it is found at once to be a step's, and answers the step. It reads
    /// nothing.
    #[inline(always)]
    pub fn step_ahead(&mut self) -> Option<Step> {
        self.lines.take_step()
    }

    /// Reads the next line, or answers `false` where there is none. The last line needs no LF.
    ///
    /// Of a longer line only the first `MOST_BYTES + 1` bytes are read.
    pub fn advance(&mut self) -> Result<bool, Fault> {
        for _ in 0..u64::MAX {
            if self.lines.gather_front(MOST_BYTES + 1) {
                return Ok(true);
            }
            if self.is_at_end || !self.lines.pull(&mut self.source)? {
                break;
            }
        }
        self.is_at_end = true;
        Ok(!self.line().is_empty())
    }

    /// The same, but what was printed is put out first where the line may have to be waited for; and where that fails there is none.
    pub fn advance_behind<O: Write + Drop>(
        &mut self,
        printer: &mut Printer<O>,
    ) -> Result<bool, Fault> {
        if !self.lines.gather_front(MOST_BYTES + 1) {
            printer.flush();
        }
        if printer.has_failed() {
            return Ok(false);
        }
        self.advance()
    }

    /// The line, without its LF.
    pub fn line(&self) -> &[u8] {
        self.lines.line()
    }

    /// The number of the line, counted from 1.
    pub fn number(&self) -> u64 {
        self.lines.number().saturating_add(1)
    }

    /// Passes the line, and what of it wasn't read.
    pub fn pass(&mut self) -> Result<(), Fault> {
        for _ in 0..u64::MAX {
            if self.lines.pass() {
                break;
            }
            if self.is_at_end || !self.lines.pull(&mut self.source)? {
                self.is_at_end = true;
                break;
            }
        }
        Ok(())
    }
}

/// A reader of which a read that was interrupted is tried again.
#[derive(Drop)]
struct Retried<R>(R);

impl<R: Read> Read for Retried<R> {
    fn read(&mut self, buffer: &mut [u8]) -> io::Result<usize> {
        for _ in 0..u64::MAX {
            match self.0.read(buffer) {
                Err(fault) if fault.kind() == ErrorKind::Interrupted => {}
                ended => return ended,
            }
        }
        Err(io::Error::from(ErrorKind::Interrupted))
    }
}
