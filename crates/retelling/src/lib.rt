//! Recordings, told again: their steps are made once more, in a world of their own, with what is seen of each; and the
//! words for that.
#![tactic(auto)]

mod cells;
mod flights;
mod part;
mod telling;
mod texts;
mod trips;
mod waiting;

pub use cells::{CellText, ChangedCells, MetCell, names_of};
pub use flights::Flights;
pub use part::{Cut, Excerpt, Shown};
pub use telling::{Happening, SeenController, Story, look, seat_at};
pub use texts::{
    AcksText, AskText, RequestText, RequestorText, SeatText, forward_name, put_holdings, put_home,
    put_line, put_message,
};
pub use trips::Trip;
pub use waiting::{Waiting, waiting_at};
