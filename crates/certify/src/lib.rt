//! What is proved of changed tables, as one answer: whether they are safe, and whether runs under them can get stuck, for
//! any number of caches and blocks. With it comes the first cell that stands against more, and why no pairs are closed.
#![tactic(auto)]

mod certifying;
mod going;
mod laws;
mod standings;

pub use certifying::{Certificate, certify};
pub use closing::{Flow, Refusal, closed_pairs};
pub use laws::certified_tables_are_safe;
pub use standings::{Standing, standing_beside, standing_of};
