//! Cores: what each has outstanding, one load or store at most.
#![tactic(auto)]

mod cores;
mod laws;

pub use cores::Cores;
pub use laws::a_core_is_free_between_its_asks;
