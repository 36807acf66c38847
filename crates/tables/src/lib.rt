//! The tables of both controllers, the places of their cells, and how changes of these are read from JSON.
#![tactic(auto)]

mod cell_places;
mod overrides;
mod tables;

pub use cell_places::{CELLS, CellPlace};
pub use overrides::TablesFault;
pub use tables::Tables;
