use commands::{Files, LoadFault};
use std::{fs, io, rt};

/// The files of the machine.
#[derive(Drop)]
pub struct Disk<'r, R> {
    rt: &'r R,
}

impl<'r, R> Disk<'r, R> {
    pub fn new(rt: &'r R) -> Disk<'r, R> {
        Disk { rt }
    }
}

impl<R: rt::Files + AllocGlobal> Files for Disk<'_, R> {
    fn load(&mut self, name: &str) -> Result<Vec<u8>, LoadFault> {
        match fs::read(self.rt, name) {
            Ok(bytes) => Ok(bytes),
            Err(error) => match error.kind() {
                io::ErrorKind::OutOfMemory => Err(LoadFault::NoMemory),
                _ => Err(LoadFault::Device(error)),
            },
        }
    }
}
