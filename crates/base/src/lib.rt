//! What all crates speak of: ids, asks, steps, outcomes and their texts, the shape of a world, and want of memory. What
//! the tables of all controllers have in common stands in `controller.rt` and its folder; words and numbers in the bytes
//! of a line, and where bytes come from and go to, stand here too.
//!
//! Sources and sinks are those over the standard library's readers and writers, and some for tests: in memory, and with a
//! fault at a call that was chosen.
#![tactic(auto)]

mod buffer;
pub mod controller;
mod ends;
mod faltering;
mod fault;
mod ids;
mod shape;
mod step;
pub mod text;
mod words;

pub use buffer::Buffer;
pub use ends::{Failed, FromRead, PutFault, Sink, Source, ToWrite, put_all};
pub use faltering::Faltering;
pub use fault::NoMemory;
pub use ids::{BlockId, CacheId, Place};
pub use shape::{MOST_BLOCKS, MOST_CACHES, Shape, ShapeFault};
pub use step::{Ask, CoreAsk, Outcome, Step};
