use super::{Failed, Source};

/// A slice is a source that never fails: its front goes out, and it becomes the rest.
impl Source for &[u8] {
    ghost use Rattle.std.specs.Prelude.{Some, false};

    ghost left = { λ s. Some s.now };

    ghost has_failed = { λ _. false };

    fn pull(&mut self, buffer: &mut [u8]) -> Result<usize, Failed> {
        let n = buffer.len().min(self.len());
        let (front, rest) = self.split_at(n);
        buffer[..n].copy_from_slice(front);
        *self = rest;
        Ok(n)
    }
}
