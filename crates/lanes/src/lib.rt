//! What is left of a scenario by its lanes, by which the choices of a moment are counted, and one is found without a
//! list.
#![tactic(auto)]

mod lanes;
mod laws;
mod picking;

pub use lanes::Lanes;
pub use laws::lanes_stay_small;
pub use picking::Pick;
