use command_output::Fault;
use std::io;
use thiserror::Error;

/// Why a file's bytes couldn't be had.
#[derive(Clone, Copy, Debug, Error)]
pub enum LoadFault {
    /// It can't be read, for this reason of the system.
    #[error("device: {0}")]
    Device(io::Error),
    #[error("no memory")]
    NoMemory,
}

/// The files that a command line names.
pub trait Files {
    /// The bytes of a file, or why they couldn't be had.
    fn load(&mut self, name: &str) -> Result<Vec<u8>, LoadFault>;
}

impl From<LoadFault> for Fault {
    fn from(fault: LoadFault) -> Fault {
        match fault {
            LoadFault::Device(_) => Fault::Device,
            LoadFault::NoMemory => Fault::NoMemory,
        }
    }
}
