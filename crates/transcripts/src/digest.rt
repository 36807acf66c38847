use std::io::Write;
use std::{fmt, io};

/// What is kept of bytes that are only compared: how many they were, and their hash (FNV-1a, of 64 bits).
#[derive(Drop)]
pub struct Digest {
    hash: u64,
    bytes: u64,
}

impl Digest {
    /// That of no bytes.
    pub fn new() -> Digest {
        Digest {
            hash: 0xcbf2_9ce4_8422_2325,
            bytes: 0,
        }
    }

    /// Adds what a command line came to: its exit status, and what it printed, its output and its errors each behind their length.
    pub fn add_run(&mut self, status: u8, output: &[u8], errors: &[u8]) {
        self.add(&[status]);
        self.add_measured(output);
        self.add_measured(errors);
    }

    fn add_measured(&mut self, bytes: &[u8]) {
        self.add(&(bytes.len() as u64).to_le_bytes());
        self.add(bytes);
    }

    fn add(&mut self, bytes: &[u8]) {
        for byte in bytes {
            self.hash = (self.hash ^ u64::from(*byte)).wrapping_mul(0x100_0000_01b3);
        }
        self.bytes = self.bytes.saturating_add(bytes.len() as u64);
    }
}

impl Write for Digest {
    fn write(&mut self, bytes: &[u8]) -> io::Result<usize> {
        self.add(bytes);
        Ok(bytes.len())
    }

    fn flush(&mut self) -> io::Result<()> {
        Ok(())
    }
}

impl fmt::Display for Digest {
    fn fmt<W: fmt::Write>(&self, f: &mut fmt::Formatter<W>) -> fmt::Result {
        write!(f, "{:016x} of {} bytes", self.hash, self.bytes)
    }
}
