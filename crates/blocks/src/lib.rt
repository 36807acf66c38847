//! One block of a world: its lines, its home, its wires with marks on the messages, and what a step does there.
#![tactic(auto)]

mod block;
mod controllers;

pub use block::{Block, HeldAsks, Tested, decide_opened, foreseen, is_held_opened, opened_line};
pub use controllers::Controllers;
