use std::alloc::Global;
use std::io;
use std::io::{Read, Write};

/// How many bytes of an input are kept at most.
const MOST_KEPT: usize = 64 * 1024 * 1024;

/// An input that notes why it couldn't be read, and keeps what it has handed out where that is asked for, so that it can
/// be looked at once more. Where it hands out too much, or memory is refused, it keeps nothing more.
#[derive(Drop)]
pub struct Kept<I> {
    input: I,
    keeps: bool,
    bytes: Vec<u8>,
    is_whole: bool,
    fault: Option<io::Error>,
}

impl<I> Kept<I> {
    pub fn new(alloc: Global, keeps: bool, input: I) -> Kept<I> {
        Kept {
            input,
            keeps,
            bytes: Vec::new(alloc),
            is_whole: true,
            fault: None,
        }
    }

    /// All that it has handed out. `None` where not all of it was kept.
    pub fn kept(&self) -> Option<&[u8]> {
        if self.keeps && self.is_whole {
            Some(self.bytes.as_slice())
        } else {
            None
        }
    }

    /// Why it couldn't be read, where the last call failed.
    pub fn fault(&self) -> Option<io::Error> {
        self.fault
    }

    fn keep(&mut self, bytes: &[u8]) {
        if !self.keeps || !self.is_whole {
            return;
        }
        let length = self.bytes.len().saturating_add(bytes.len());
        if length > MOST_KEPT || self.bytes.extend_from_slice(bytes).is_err() {
            self.is_whole = false;
        }
    }
}

impl<I: Read> Read for Kept<I> {
    fn read(&mut self, buffer: &mut [u8]) -> io::Result<usize> {
        match self.input.read(buffer) {
            Ok(count) => {
                self.keep(&buffer[..count]);
                self.fault = None;
                Ok(count)
            }
            Err(error) => {
                self.fault = Some(error);
                Err(error)
            }
        }
    }
}

/// An output that notes why it couldn't be written.
#[derive(Drop)]
pub struct Noted<O> {
    output: O,
    fault: Option<io::Error>,
}

impl<O> Noted<O> {
    pub fn new(output: O) -> Noted<O> {
        Noted {
            output,
            fault: None,
        }
    }

    /// Why it couldn't be written, the last time that it couldn't.
    pub fn fault(&self) -> Option<io::Error> {
        self.fault
    }
}

impl<O: Write> Write for Noted<O> {
    fn write(&mut self, bytes: &[u8]) -> io::Result<usize> {
        match self.output.write(bytes) {
            Ok(count) => Ok(count),
            Err(error) => {
                self.fault = Some(error);
                Err(error)
            }
        }
    }

    fn flush(&mut self) -> io::Result<()> {
        match self.output.flush() {
            Ok(()) => Ok(()),
            Err(error) => {
                self.fault = Some(error);
                Err(error)
            }
        }
    }
}
