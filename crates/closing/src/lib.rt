//! Lists of pairs of caches that no step leaves: tables that have one are safe for any number of caches. Ranked pairs
//! also tell which of two caches the home served earlier, and tables under which blame works in a list of these never get
//! stuck.
//!
//! The definitions stand in `specs/`, and the laws about them in `laws`. The code gathers such lists, and checks them.
#![tactic(auto)]

mod balancing;
mod blaming;
mod checking;
mod codes;
mod deciding;
mod following;
mod gathering;
mod glueing;
mod holding;
mod index;
mod laws;
mod listing;
mod numbering;
mod ranked;

pub use deciding::{ClosedPairs, Flow, closed_pairs, shown_by};
pub use gathering::{MOST_PAIRS, Refusal, gather};
pub use laws::{blamed_tables_are_unstuck, closed_tables_are_safe};
pub use ranked::{Order, RankedPair};
