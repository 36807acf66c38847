//! A moment of a run: the world, its cores, and what is left of a scenario. Each choice leads from one to the next.
#![tactic(auto)]

mod going;
mod moments;
mod noting;

pub use moments::Moment;
