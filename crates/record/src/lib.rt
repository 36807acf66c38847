//! Recordings: the steps that a world has made, what came of them and who owns them, as values and as text of either
//! version.
#![tactic(auto)]

mod draft;
mod entries;
mod moving;
mod reader;
mod reading;
mod recording;
mod text_laws;
mod writing;

pub use entries::Entries;
pub use moving::{MoveFault, move_text};
pub use reading::read_entries;
pub use record_lines::{Entry, ReadFault, ReadKind, Told, Version};
pub use recording::{MOST_ENTRIES, MOST_SEATS, PushFault, Recording};
pub use text_laws::{
    a_recording_has_a_text, a_text_is_of_one_recording, a_text_is_read, one_refusal_at_most,
    well_formed_bytes_are_a_text,
};
pub use writing::WriteFault;
