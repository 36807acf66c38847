//! Steps and outcomes as text, which is words with one blank between two.

mod ahead;
mod outcomes;
mod short;
mod steps;

pub use crate::words::{cut, number_of, small_number_of};
pub use short::Text;
pub use steps::spells_one_step;
