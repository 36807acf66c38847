use base::NoMemory;
use std::alloc::{AllocError, AllocFailed};
use std::io;
use thiserror::Error;

/// Why a chart wasn't written.
#[derive(Clone, Copy, Debug, Error)]
pub enum ChartFault {
    /// So many steps are chosen, which are too many for one picture.
    #[error("{0} steps are too many for one picture")]
    TooManySteps(u64),
    /// A write failed.
    #[error("device")]
    Device,
    /// A growth was refused.
    #[error("no memory")]
    NoMemory,
}

impl From<NoMemory> for ChartFault {
    fn from(_refused: NoMemory) -> ChartFault {
        ChartFault::NoMemory
    }
}

impl From<AllocError> for ChartFault {
    fn from(_refused: AllocError) -> ChartFault {
        ChartFault::NoMemory
    }
}

impl<T: Drop> From<AllocFailed<T>> for ChartFault {
    fn from(_refused: AllocFailed<T>) -> ChartFault {
        ChartFault::NoMemory
    }
}

impl From<io::Error> for ChartFault {
    fn from(error: io::Error) -> ChartFault {
        match error.kind() {
            io::ErrorKind::OutOfMemory => ChartFault::NoMemory,
            _ => ChartFault::Device,
        }
    }
}
