//! The commands of `msi` that make trials, one or a batch, and that have threads race at a floor, over streams that they
//! are given.
#![tactic(auto)]

mod asks;
mod laws;
mod players;
mod racing;
mod reporting;
mod sharing;
mod trying;

pub use desk::MOST_SEATS as MOST_WORKERS;
pub use floor::MOST_SEATS;
pub use laws::trials_under_certified_tables;
pub use racing::{RacePlan, race};
pub use reporting::{BatchPlan, Until};
pub use trials::{MOST_STEPS, MOST_TRIALS, Setup, SetupFault};
pub use trying::{batch, one_trial};
