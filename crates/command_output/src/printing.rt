use crate::fault::Fault;
use crate::finding::Finding;
use std::alloc::Global;
use std::fmt::Display;
use std::io;
use std::io::{BufWriter, Write};

/// A buffered output on which a command prints. Its first fault is noted: nothing more is printed from then on, and the
/// fault is told once, at the end.
#[derive(Drop)]
pub struct Printer<O: Write + Drop> {
    output: BufWriter<O>,
    fault: Option<Fault>,
}

impl<O: Write + Drop> Printer<O> {
    /// A printer that has printed nothing. It is refused `OutOfMemory` where there is no room for its buffer.
    pub fn new(alloc: Global, output: O) -> io::Result<Printer<O>> {
        let output = BufWriter::new(alloc, output)?;
        Ok(Printer {
            output,
            fault: None,
        })
    }

    /// Whether a fault was noted, so that nothing more is printed.
    pub fn has_failed(&self) -> bool {
        self.fault.is_some()
    }

    /// Prints a text and an LF.
    pub fn line<D: Display + Drop>(&mut self, text: D) {
        if !self.has_failed() {
            let written = writeln!(self.output, "{text}");
            self.note(written);
        }
    }

    /// Prints these bytes as they are.
    #[inline(always)]
    pub fn bytes(&mut self, bytes: &[u8]) {
        if !self.has_failed() {
            let written = self.output.write_all(bytes);
            self.note(written);
        }
    }

    /// Puts out what was printed so far.
    pub fn flush(&mut self) {
        if !self.has_failed() {
            let flushed = self.output.flush();
            self.note(flushed);
        }
    }

    fn note(&mut self, done: io::Result<()>) {
        if let Err(error) = done {
            self.fault = Some(Fault::from(error));
        }
    }

    /// Puts out what was printed, and answers what the command came to; but the fault that was noted, where one was.
    pub fn finish(&mut self, came_to: Result<Finding, Fault>) -> Result<Finding, Fault> {
        self.flush();
        match self.fault {
            None => came_to,
            Some(fault) => Err(fault),
        }
    }

    /// The output itself, for what is written whole by somebody else, who tells faults at once.
    pub fn output(&mut self) -> &mut BufWriter<O> {
        &mut self.output
    }
}
