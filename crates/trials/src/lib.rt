//! Trials: runs of a world under a scenario, in which dice choose what happens next. And many of them: series in the same
//! memory, batches, and batches that are spread over threads.
#![tactic(auto)]

mod batches;
mod course;
mod going;
mod laws;
mod making;
mod notes;
mod series;
mod setup;
mod spreading;
mod verdict;

pub use batches::{BatchFault, MOST_TRIALS, batch};
pub use laws::{
    cores_are_answered_in_turn, one_trial_a_number, trials_break_where_they_arent_safe,
    trials_of_safe_runs, trials_under_restrained_tables, trials_under_tables_that_keep_going,
};
pub use making::trial;
pub use series::Series;
pub use setup::{MOST_STEPS, Setup, SetupFault, open_world, setups_are_lawful};
pub use spreading::spread;
pub use verdict::{Trial, TrialResult, Verdict};
