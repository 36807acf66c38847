//! The table of a cache's controller: its states, events and actions with their names, and what a line does in each state
//! on each event.
//!
//! The baseline of MSI follows the cache controller of the directory MSI protocol in "A Primer on Memory Consistency and
//! Cache Coherence", second edition, section 8.2. It is a reading of that table and no copy: in `SM^AD`, for one, it has
//! no rule for Data from the owner. Any cell can be replaced.
#![tactic(auto)]

mod actions;
mod baseline;
mod event;
mod state;
mod table;

pub use actions::CacheAction;
pub use event::CacheEvent;
pub use state::CacheState;
pub use table::{CacheActions, CacheChange, CacheEntry, CacheTable, knows_cell, with_changes};
