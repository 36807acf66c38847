//! Workers that share out the trials of a batch: each claims numbers, makes their trials and posts what came of them.
//! Nobody waits for another, and the close has each result at its number.
#![tactic(auto)]

mod cells;
mod closing;
mod desks;
mod faults;
mod jobs;
mod laws;
mod seats;
mod word;
mod working;

pub use desks::{Desk, MOST_SEATS};
pub use faults::{CloseFault, DeskFault, PostFault};
pub use jobs::{Job, Planned};
pub use laws::{desks_are_within_limits, seats_claim_in_order};
pub use seats::DeskSeat;
pub use working::work;
