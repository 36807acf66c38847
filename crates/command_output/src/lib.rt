//! What the commands of `msi` have in common: the lines that they read, what they print on, what they find, and why they
//! end early.
#![tactic(auto)]

mod fault;
mod finding;
mod format;
mod lines;
mod objects;
mod printing;
mod recording;

pub use fault::{Fault, NamedRefusal};
pub use finding::{Finding, FoundViolation};
pub use format::Format;
pub use lines::{InputLines, MOST_BYTES};
pub use objects::ViolationObject;
pub use printing::Printer;
pub use recording::print_whole;
