//! Threads that take turns at one world behind a lock: each turn has a receipt, and the close knows them all. A crew runs
//! one thread a seat.
//!
//! What lies behind the lock is a hall: the world, its watch, its recording, and who owns each entry of it.
#![tactic(auto)]

mod belonging;
mod closing;
mod crews;
mod floors;
mod grounds;
mod halls;
mod opening;
mod seats;
mod shares;
mod tokens;

pub use closing::{CloseFault, Closed};
pub use crews::{Chooser, CrewFault, Gate, Wish, crew};
pub use floors::{Floor, FloorFault, MOST_SEATS};
pub use grounds::{Ground, Naming};
pub use halls::{Hall, TurnFault};
pub use seats::{Receipt, Seat};
pub use trials::{Setup, SetupFault};
