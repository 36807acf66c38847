//! The single lines of a recording's text: how they are gathered from a source, which line is due, how each is read, and
//! how those of cells and entries are spelled. What is wrong with a text that is refused is told here too.
#![tactic(auto)]

mod cell_parsing;
mod cells;
mod due;
mod entry;
mod fault;
mod lines;
mod parsing;
mod spelling;
mod told;
mod version;

pub use cell_parsing::cell_of;
pub use cells::{Cell, most_cells};
pub use due::{Due, TextHead};
pub use entry::Entry;
pub use fault::{ReadFault, ReadKind};
pub use lines::{Lines, MOST_PULLED};
pub use parsing::{count_of, is_end, opening_of, protocol_of, shape_of, told_of, version_of};
pub use spelling::{cell_line, told_line};
pub use told::Told;
pub use version::Version;
