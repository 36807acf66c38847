//! A block as two of its caches and its home see it, and what a step makes of that under any tables. So whatever tables
//! do is seen on pairs of caches, however many there are.
#![tactic(auto)]

mod homes;
mod lines;
mod link;
mod marks;
mod pair;
mod same;
mod seeing;
mod settling;
mod side;
mod steps;

pub use link::{Link, LinkPlace};
pub use marks::Marks;
pub use pair::{Pair, Shared};
pub use seeing::{home_data_seen, sight};
pub use side::{Lag, Owned, PairSide, Waiting};
pub use steps::{Debt, Party, Rule, Scene, Sight, each_rule_is_listed};
