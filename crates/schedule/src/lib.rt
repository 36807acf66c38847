//! What can happen next in a world under a scenario, and the dice that choose. The asks that are offered together stand
//! in a list, with a mark beside each.
#![tactic(auto)]

mod asks;
mod choosing;
mod dice;
mod groups;
mod laws;
mod places;

pub use asks::Asks;
pub use choosing::{Choice, choices, step_of};
pub use dice::Dice;
pub use laws::{alike_trees_give_the_same_choices, draws_follow_the_words, first_words};
