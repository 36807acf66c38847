//! A world of blocks, which makes one step after another, and the counts by which its deliveries are found.
#![tactic(auto)]

mod at_block;
mod counts;
mod enabling;
mod looks;
mod resetting;
mod runs;
mod worlds;

pub use counts::{Counts, DeliveryKind, Spot};
pub use runs::RunStop;
pub use worlds::{OpenFault, World};
