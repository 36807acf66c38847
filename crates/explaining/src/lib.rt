//! What is wrong with a text that is refused, a line, tables or a scenario, or with a recording at one of its lines: in
//! lines for whoever wrote it. The readers decide what is refused; this looks at the text once more, in the order in
//! which they test it. And what an explanation is made of, whatever it is about.
#![tactic(auto)]

mod asking;
mod cells;
mod explanation;
mod faults;
mod finding;
mod json;
mod keys;
mod lines;
mod nearest;
mod numbers;
mod overrides;
mod pieces;
mod places;
mod quoting;
mod reasons;
mod recorded;
mod recordings;
mod rooms;
mod scenarios;
mod steps;
mod texts;
mod trees;

pub use asking::explain_ask;
pub use explanation::Explanation;
pub use lines::line_of;
pub use overrides::explain_tables;
pub use quoting::Quoted;
pub use recordings::explain_recording;
pub use scenarios::explain_scenario;
pub use steps::explain_step;
