use std::alloc::{AllocError, AllocFailed};
use thiserror::Error;

/// A growth was refused: there was no memory for it.
///
/// Beside that it comes where a wire or a lane would hold 2^32, and where a thread can't be had. Unless a call says otherwise nothing
/// has changed where it comes.
#[derive(Clone, Copy, Debug, PartialEq, Eq, Error)]
#[error("no memory")]
pub struct NoMemory;

impl From<AllocError> for NoMemory {
    fn from(_refused: AllocError) -> NoMemory {
        NoMemory
    }
}

impl<T: Drop> From<AllocFailed<T>> for NoMemory {
    fn from(_refused: AllocFailed<T>) -> NoMemory {
        NoMemory
    }
}
