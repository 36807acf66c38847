//! What is wrong in a world after a step, if anything is: two writers, a writer beside a reader, a stale load, or no
//! rule. A watch looks from outside, and knows the value that each block ought to have.
#![tactic(auto)]

mod after;
mod finding;
mod laws;
mod safety;
mod violation;
mod watch;

pub use after::violation_after;
pub use finding::{find, find_stale, is_suspect};
pub use laws::{
    blank_has_a_place, due_is_the_last_store, nothing_wrong_where_nothing_was_done,
    one_violation_at_most, watch_knows_what_is_due,
};
pub use safety::{
    no_violation_under_restrained_tables, one_step_more_may_have_the_first,
    violations_are_what_isnt_safe,
};
pub use violation::Violation;
pub use watch::Watch;
