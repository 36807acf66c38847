use commands::{Files, LoadFault};
use std::alloc::Global;
use std::io;

/// The system's number of the error that there is no such file.
const NO_SUCH_FILE: i32 = 2;

/// The file `table.json`, with its text, and the file `huge.json`, for which there is no memory.
#[derive(Drop)]
pub struct OneFile<'a> {
    pub alloc: Global,
    pub text: &'a str,
}

impl Files for OneFile<'_> {
    fn load(&mut self, name: &str) -> Result<Vec<u8>, LoadFault> {
        if name == "huge.json" {
            return Err(LoadFault::NoMemory);
        }
        if name != "table.json" {
            return Err(LoadFault::Device(io::Error::from_raw_os_error(NO_SUCH_FILE)));
        }
        match String::from_str(self.alloc, self.text) {
            Ok(text) => Ok(text.into_bytes()),
            Err(_) => Err(LoadFault::NoMemory),
        }
    }
}
