//! A block's lines and its home: which event an ask or a message is there, and what an acting cell does.
//!
//! Everything here holds for every table: a cell's next state and actions are handed in.
#![tactic(auto)]

mod completing;
mod home;
mod home_acts;
mod home_counts;
mod home_events;
mod home_links;
mod home_room;
mod line;
mod line_acts;
mod line_events;
mod needs;
mod sharers;

pub use completing::{line_completion, may_read, may_write};
pub use home::{Home, HomeInput};
pub use home_acts::{home_act, home_perform};
pub use home_events::home_event;
pub use home_links::home_needs;
pub use home_room::home_reserve;
pub use line::{Line, LineCompletion, LineInput};
pub use line_acts::{line_act, line_perform, line_reserve};
pub use line_events::{line_ask_event, line_event};
pub use needs::{Needs, line_needs};
pub use sharers::Sharers;
