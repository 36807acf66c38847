//! The table of a directory's controller: its states, events and actions with their names, and what a block's home does
//! in each state on each event.
//!
//! The baseline of MSI follows the directory controller of the directory MSI protocol in "A Primer on Memory Consistency
//! and Cache Coherence", second edition, section 8.2. It is a reading of that table and no copy: what is done on a PutS
//! or a PutM in `S^D` is this project's choice. Any cell can be replaced.
#![tactic(auto)]

mod actions;
mod baseline;
mod event;
mod state;
mod table;

pub use actions::DirectoryAction;
pub use event::DirectoryEvent;
pub use state::DirectoryState;
pub use table::{
    DirectoryActions, DirectoryChange, DirectoryEntry, DirectoryTable, knows_entry, with_changes,
};
