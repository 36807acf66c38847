//! The commands of `msi` that play steps, and replay, move, show and chart recordings, over streams that they are given.
#![tactic(auto)]

mod complaining;
mod ending;
mod moving;
mod objects;
mod output;
mod picturing;
mod playing;
mod recording;
mod replaying;
mod starting;
mod tabling;

pub use moving::move_recording;
pub use picturing::{ShownForm, print_recording};
pub use playing::play;
pub use recording::play_recording;
pub use replaying::replay;
pub use tabling::{TableLayout, show};
