//! Why calls of a desk are refused.

use crate::desks::MOST_SEATS;
use thiserror::Error;
use trials::MOST_TRIALS;

/// Why a desk wasn't made. The faults are tested in this order.
#[derive(Clone, Copy, Debug, PartialEq, Eq, Error)]
pub enum DeskFault {
    /// More than 1,000,000 trials are asked for.
    #[error("a desk has at most {MOST_TRIALS} trials")]
    TooMany,
    /// There is no seat.
    #[error("a desk has at least one seat")]
    NoSeats,
    /// There are more than 64 seats.
    #[error("a desk has at most {MOST_SEATS} seats")]
    TooManySeats,
    /// A growth was refused.
    #[error("no memory")]
    NoMemory,
}

/// Why a result wasn't posted. The faults are tested in this order.
#[derive(Clone, Copy, Debug, PartialEq, Eq, Error)]
pub enum PostFault {
    /// The seat hasn't claimed the number.
    #[error("the number was claimed by another seat or by none")]
    NotYours,
    /// The seat has posted the number.
    #[error("the number has its result")]
    Already,
    /// A growth was refused, or the number's cell didn't take the result.
    #[error("no memory")]
    NoMemory,
}

/// Why a desk wasn't closed. The faults are tested in this order.
#[derive(Clone, Copy, Debug, PartialEq, Eq, Error)]
pub enum CloseFault {
    /// One of the desk's seats wasn't handed in.
    #[error("a seat of the desk is missing")]
    SeatMissing,
    /// A growth was refused.
    #[error("no memory")]
    NoMemory,
}
