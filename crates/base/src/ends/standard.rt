use super::{Failed, Sink, Source};
use std::io::{Read, Write};

/// A reader of the standard library as a source. An interrupted call counts as a failure.
#[derive(Drop)]
pub struct FromRead<R> {
    inner: R,
    failed: bool,
}

impl<R: Read> FromRead<R> {
    ghost use Rattle.std.specs.Prelude.{◌≡◌, false};

    /// Lays a source over the reader.
    pub fn new(inner: R) -> FromRead<R>
        ensures left { ⟦<FromRead<R> as Source>⟧.left result ≡ R.remaining inner }
        ensures mark { ⟦<FromRead<R> as Source>⟧.has_failed result ≡ false }
    {
        FromRead {
            inner,
            failed: false,
        }
    }
}

impl<R: Read> Source for FromRead<R> {
    ghost left = { λ s. R.remaining s.inner };

    ghost has_failed = { λ s. s.failed };

    fn pull(&mut self, buffer: &mut [u8]) -> Result<usize, Failed> {
        match self.inner.read(buffer) {
            Ok(n) => Ok(n),
            Err(_) => {
                self.failed = true;
                Err(Failed)
            }
        }
    }
}

/// A writer of the standard library as a sink. An interrupted call counts as a failure, and so does one that took no
/// byte of a text that isn't empty.
#[derive(Drop)]
pub struct ToWrite<W> {
    inner: W,
    failed: bool,
}

impl<W: Write> ToWrite<W> {
    ghost use Rattle.std.specs.Prelude.{◌≡◌, false};

    /// Lays a sink over the writer.
    pub fn new(inner: W) -> ToWrite<W>
        ensures taken { ⟦<ToWrite<W> as Sink>⟧.taken result ≡ W.contents inner }
        ensures mark { ⟦<ToWrite<W> as Sink>⟧.has_failed result ≡ false }
    {
        ToWrite {
            inner,
            failed: false,
        }
    }
}

impl<W: Write> Sink for ToWrite<W> {
    ghost taken = { λ s. W.contents s.inner };

    ghost has_failed = { λ s. s.failed };

    fn put(&mut self, bytes: &[u8]) -> Result<usize, Failed> {
        match self.inner.write(bytes) {
            Ok(n) if n > 0 || bytes.is_empty() => Ok(n),
            _ => {
                self.failed = true;
                Err(Failed)
            }
        }
    }
}
