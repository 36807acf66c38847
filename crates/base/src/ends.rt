//! Where bytes come from and where they go.

mod slices;
mod standard;

ghost use Rattle.std.specs.Prelude.{◌≡◌, ◌≤◌, ◌<◌, ℕ, List, Bool, Option, length, take, IfOk, IfErr, OnOk};
ghost use Rattle.std.specs.Io.KnownBytes.{Appends, WriteAppends, ReadConsumes};
ghost use Rattle.base.specs.Ends.{MarksFault};

pub use standard::{FromRead, ToWrite};
use thiserror::Error;

/// A source or a sink has failed. It says nothing of whether a later call fails too.
#[derive(Clone, Copy, Debug, PartialEq, Eq, Error)]
#[error("a device failed")]
pub struct Failed;

/// Where bytes come from.
///
/// A contract sees a source as the bytes that are left, where it tells them, and as whether a call of it has failed.
pub trait Source {
    /// The bytes that are left, or `None` where the source doesn't tell.
    ghost left: { Self → Option (List ℕ) };

    /// Whether a call has failed.
    ghost has_failed: { Self → Bool };

    /// Writes the next bytes to the front of the buffer, and answers how many these are.
    ///
    /// For a buffer that isn't empty it answers 0 only where no bytes are left.
    fn pull(&mut self, buffer: &mut [u8]) -> Result<usize, Failed>
        ensures within { IfOk result (λ n. n ≤ length buffer.new) }
        ensures bytes { ReadConsumes (left self.old) (left self.new) result buffer.new }
        ensures mark { MarksFault (has_failed self.old) result (has_failed self.new) };
}

/// Where bytes go.
///
/// A contract sees a sink as the bytes that it has taken, where it tells them, and as whether a call of it has failed.
pub trait Sink {
    /// The bytes taken so far, or `None` where the sink doesn't tell.
    ghost taken: { Self → Option (List ℕ) };

    /// Whether a call has failed.
    ghost has_failed: { Self → Bool };

    /// Takes a front of these bytes, and answers how many these are: at least one of a text that isn't empty.
    ///
    /// A call that fails takes none.
    fn put(&mut self, bytes: &[u8]) -> Result<usize, Failed>
        ensures within { IfOk result (λ n. n ≤ length bytes.now) }
        ensures some { IfOk result (λ n. 0 < length bytes.now → 0 < n) }
        ensures bytes { WriteAppends (taken self.old) (taken self.new) result bytes.now }
        ensures mark { MarksFault (has_failed self.old) result (has_failed self.new) };
}

/// A sink failed before it had taken all of a text.
#[derive(Clone, Copy, Debug, PartialEq, Eq, Error)]
#[error("a device failed after {written} bytes")]
pub struct PutFault {
    /// How many bytes of the text went out.
    pub written: usize,
}

/// Puts a whole text into a sink, in as many calls as it wants.
///
/// Where the sink fails, exactly the first `written` bytes went out.
pub fn put_all<S: Sink>(sink: &mut S, bytes: &[u8]) -> Result<(), PutFault>
    ensures ok { OnOk result (Appends (S.taken sink.old) (S.taken sink.new) bytes.now) }
    ensures err { IfErr result (λ fault. Appends (S.taken sink.old) (S.taken sink.new) (take fault.written bytes.now)) }
    ensures short { IfErr result (λ fault. fault.written < length bytes.now) }
    ensures mark { MarksFault (S.has_failed sink.old) result (S.has_failed sink.new) }
{
    let mut written = 0usize;
    while written < bytes.len() {
        match sink.put(&bytes[written..]) {
            Ok(n) => written += n,
            Err(_) => return Err(PutFault { written }),
        }
    }
    Ok(())
}
