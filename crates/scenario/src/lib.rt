//! Scenarios: trees of what cores ask, under any allocator. A tree is read from JSON, copied, written, asked what it
//! offers, and taken from.
#![tactic(auto)]

mod copying;
mod fitting;
mod forms;
mod laws;
pub mod looking;
mod making;
mod measuring;
mod reading;
mod rests;
pub mod seeking;
mod taking;
mod tree;
mod writing;

pub use laws::{
    a_text_is_of_one_tree, alike_trees_have_the_same_words, alike_trees_stay_alike,
    json_without_fault_is_a_tree, offers_reach_the_words, one_refusal_at_most,
    trees_within_are_read,
};
pub use reading::{DEEPEST, LONGEST, ScenarioFault};
pub use rests::Rest;
pub use tree::Scenario;
pub use writing::SaveFault;
