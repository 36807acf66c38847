use crate::ends::{Failed, Sink, Source};

/// An end that gives or takes little at a time, and fails at one of its calls: a device for tests.
#[derive(Drop)]
pub struct Faltering<E> {
    end: E,
    most: usize,
    calls_left: u64,
    failed: bool,
}

impl<E> Faltering<E> {
    ghost use Rattle.std.specs.Prelude.{◌≡◌, ◌↔◌, ◌-◌, ◌||◌, false, true};

    /// Lays it over an end: each call gives or takes at most `most` bytes, but at least one, and the call after
    /// `calls` others fails, as do all behind it.
    pub fn over(end: E, most: usize, calls: u64) -> Faltering<E>
        ensures end { result.end ≡ end }
        ensures mark { result.failed ≡ false }
        ensures most { result.most ≡ most }
        ensures calls { result.calls_left ≡ calls }
    {
        Faltering {
            end,
            most,
            calls_left: calls,
            failed: false,
        }
    }

    /// The end below.
    pub fn end(&self) -> &E
        ensures { result.now ≡ self.now.end }
    {
        &self.end
    }

    /// Whether this call fails. It counts the call.
    fn falters(&mut self) -> bool
        ensures at_last { (result ≡ true) ↔ (self.old.calls_left ≡ 0) }
        ensures counted { self.new.calls_left ≡ self.old.calls_left - 1 }
        ensures most { self.new.most ≡ self.old.most }
        ensures end { self.new.end ≡ self.old.end }
        ensures mark { self.new.failed ≡ (result || self.old.failed) }
    {
        match self.calls_left.checked_sub(1) {
            Some(left) => {
                self.calls_left = left;
                false
            }
            None => {
                self.failed = true;
                true
            }
        }
    }
}

impl<E: Source> Source for Faltering<E> {
    ghost use Rattle.std.specs.Prelude.{◌≡◌, ◌<◌, ◌≤◌, ◌-◌, IfOk, IsErr, length, max, true};
    ghost use Rattle.std.specs.Io.KnownBytes.{ReadConsumes};
    ghost use Rattle.base.specs.Ends.{MarksFault};

    ghost left = { λ f. E.left f.end };

    ghost has_failed = { λ f. f.failed };

    fn pull(&mut self, buffer: &mut [u8]) -> Result<usize, Failed>
        ensures within { IfOk result (λ n. n ≤ length buffer.new) }
        ensures bytes { ReadConsumes (E.left self.old.end) (E.left self.new.end) result buffer.new }
        ensures mark { MarksFault self.old.failed result self.new.failed }
        ensures few { IfOk result (λ n. n ≤ max 1 self.old.most) }
        ensures falters { self.old.calls_left ≡ 0 → IsErr result }
        ensures passes { 0 < self.old.calls_left → IsErr result → E.has_failed self.new.end ≡ true }
        ensures counted { self.new.calls_left ≡ self.old.calls_left - 1 }
        ensures most { self.new.most ≡ self.old.most }
    {
        if self.falters() {
            return Err(Failed);
        }
        let most = self.most.max(1).min(buffer.len());
        match self.end.pull(&mut buffer[..most]) {
            Ok(n) => Ok(n),
            Err(_) => {
                self.failed = true;
                Err(Failed)
            }
        }
    }
}

impl<E: Sink> Sink for Faltering<E> {
    ghost use Rattle.std.specs.Prelude.{◌≡◌, ◌<◌, ◌≤◌, ◌-◌, IfOk, IsErr, length, max, true};
    ghost use Rattle.std.specs.Io.KnownBytes.{WriteAppends};
    ghost use Rattle.base.specs.Ends.{MarksFault};

    ghost taken = { λ f. E.taken f.end };

    ghost has_failed = { λ f. f.failed };

    fn put(&mut self, bytes: &[u8]) -> Result<usize, Failed>
        ensures within { IfOk result (λ n. n ≤ length bytes.now) }
        ensures some { IfOk result (λ n. 0 < length bytes.now → 0 < n) }
        ensures bytes { WriteAppends (E.taken self.old.end) (E.taken self.new.end) result bytes.now }
        ensures mark { MarksFault self.old.failed result self.new.failed }
        ensures few { IfOk result (λ n. n ≤ max 1 self.old.most) }
        ensures falters { self.old.calls_left ≡ 0 → IsErr result }
        ensures passes { 0 < self.old.calls_left → IsErr result → E.has_failed self.new.end ≡ true }
        ensures counted { self.new.calls_left ≡ self.old.calls_left - 1 }
        ensures most { self.new.most ≡ self.old.most }
    {
        if self.falters() {
            return Err(Failed);
        }
        let most = self.most.max(1).min(bytes.len());
        match self.end.put(&bytes[..most]) {
            Ok(n) => Ok(n),
            Err(_) => {
                self.failed = true;
                Err(Failed)
            }
        }
    }
}
