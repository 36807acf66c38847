use std::io;
use std::io::Read;

/// An input of these bytes. Behind them it ends, or fails where there is a fault.
#[derive(Drop)]
pub struct Input<'a> {
    pub bytes: &'a [u8],
    pub fault: Option<io::ErrorKind>,
}

impl Read for Input<'_> {
    fn read(&mut self, buffer: &mut [u8]) -> io::Result<usize> {
        if self.bytes.is_empty()
            && let Some(kind) = self.fault
        {
            return Err(io::Error::from(kind));
        }
        let (now, later) = self.bytes.split_at(buffer.len().min(self.bytes.len()));
        buffer[..now.len()].copy_from_slice(now);
        self.bytes = later;
        Ok(now.len())
    }
}
