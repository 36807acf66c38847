//! Cursors: what is left of a scenario that is borrowed, kept in parts that are used again.
#![tactic(auto)]

mod cursor;
mod laws;
mod part;
mod rests;
mod telling;

pub use cursor::Cursor;
pub use laws::cursors_stay_small;
pub use telling::Next;
