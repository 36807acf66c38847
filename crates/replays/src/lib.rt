//! The replay of a recording, or of its text while it is read: its steps are made again, and their outcomes compared with
//! those that it tells.
#![tactic(auto)]

mod making;
mod replaying;
mod text_replaying;

pub use replaying::{ReplayFault, Replayed, first_violation, replay};
pub use text_replaying::{TextFault, TextReplayed, replay_text};
