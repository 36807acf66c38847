//! Rows that know no protocol: places of which only those that were touched take memory, a flag for each place, and
//! numbers with the sums of them, by which the k-th of all is found.
#![tactic(auto)]

mod bits;
mod laws;
mod sparse;
mod sums;
mod try_clone;

pub use bits::Bits;
pub use laws::{found_place_is_the_first, only_one_is_found};
pub use sparse::Sparse;
pub use sums::{KthPlace, Sums};
pub use try_clone::TryClone;
