//! What the tables of both controllers are made of: cells that say what is done in a state on an event.

mod actions;
mod entry;
mod listed;
mod protocol;
mod spelling;

pub use actions::{Actions, MOST_ACTIONS};
pub use entry::{CellEntry, Change, Side, last_change_holds};
pub use listed::{Listed, named, named_of};
pub use protocol::{Protocol, a_name_is_of_one_protocol};
pub use spelling::spells_one_change;
