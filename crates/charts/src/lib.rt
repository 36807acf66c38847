//! Recordings as message sequence charts, drawn in SVG: which steps and messages are drawn, where each thing stands, and
//! the drawing itself.
#![tactic(auto)]

mod arrows;
mod captions;
mod charting;
mod fault;
mod lanes;
mod layout;
mod line;
mod longest;
mod marks;
mod obstacles;
mod picture;
mod point;
mod style;
mod surroundings;
mod svg;
mod wayfinding;
mod ways;

pub use charting::chart;
pub use fault::ChartFault;
pub use picture::MOST_ROWS;
