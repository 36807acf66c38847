use crate::ends::{Failed, Sink};
use std::alloc::Global;

/// A sink in memory. A call fails where there was no memory for its bytes.
#[derive(Drop)]
pub struct Buffer {
    bytes: Vec<u8>,
    failed: bool,
}

impl Buffer {
    ghost use Rattle.std.specs.Prelude.{◌≡◌, [], Some, false};

    /// An empty buffer. It takes no memory.
    pub fn open(alloc: Global) -> Buffer
        ensures taken { ⟦<Buffer as Sink>⟧.taken result ≡ Some [] }
        ensures mark { ⟦<Buffer as Sink>⟧.has_failed result ≡ false }
    {
        Buffer {
            bytes: Vec::new(alloc),
            failed: false,
        }
    }

    /// The bytes that it has taken.
    pub fn bytes(&self) -> &[u8]
        ensures { ⟦<Buffer as Sink>⟧.taken self.now ≡ Some result.now }
    {
        self.bytes.as_slice()
    }
}

impl Sink for Buffer {
    ghost use Rattle.std.specs.Prelude.{Some};

    ghost taken = { λ b. Some b.bytes.items };

    ghost has_failed = { λ b. b.failed };

    fn put(&mut self, bytes: &[u8]) -> Result<usize, Failed> {
        match self.bytes.extend_from_slice(bytes) {
            Ok(()) => Ok(bytes.len()),
            Err(_) => {
                self.failed = true;
                Err(Failed)
            }
        }
    }
}
