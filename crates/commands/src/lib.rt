//! What `msi` does with the words of a command line, over files and streams that it is given: which words it takes, by
//! `clap`, what help says of them, and what is wrong with an input, where `--explain` asks.
#![tactic(auto)]

mod again;
mod explained;
mod files;
mod helps;
mod kept;
mod limits;
mod serving;
mod tasks;
mod tips;
mod usage;

pub use files::{Files, LoadFault};
pub use serving::serve;

/// The project's version.
pub const VERSION: &str = "0.1.0";
