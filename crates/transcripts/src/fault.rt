use base::NoMemory;
use std::alloc::{AllocError, AllocFailed};
use thiserror::Error;

/// Why a job wasn't done, or sessions aren't as they are written.
#[derive(Clone, Copy, Debug, Drop, Error)]
pub enum SessionFault {
    #[error("its words are JOB SEED SIZE, sessions, or completed FILE")]
    Words,
    #[error("no memory")]
    NoMemory,
    #[error("the words or standard input can't be read, or standard output can't be written")]
    Device,
    /// `msi` ended with a status that the job doesn't end with.
    #[error("msi ended with {0}")]
    Status(u8),
    /// A line of the text is none that a session has.
    #[error("line {0} is no line of a session")]
    Line(usize),
    #[error("msi printed what is no text")]
    NotAText,
    #[error("a file of sessions can't be read")]
    File,
    #[error("command lines came to something else than is written")]
    Differs,
}

impl From<AllocError> for SessionFault {
    fn from(_fault: AllocError) -> SessionFault {
        SessionFault::NoMemory
    }
}

impl<T: Drop> From<AllocFailed<T>> for SessionFault {
    fn from(_fault: AllocFailed<T>) -> SessionFault {
        SessionFault::NoMemory
    }
}

impl From<NoMemory> for SessionFault {
    fn from(_fault: NoMemory) -> SessionFault {
        SessionFault::NoMemory
    }
}
