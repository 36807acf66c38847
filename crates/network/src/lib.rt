//! The messages of a block and the wires on which they travel, each message with a mark beside it.
//!
//! A block has two networks without order, for requests and for responses, and one link to each cache that keeps its
//! order (Primer, section 8.2; `docs/PROTOCOL.md` for the link). The wires tell how many messages have no mark, and which
//! is the k-th of these.
#![tactic(auto)]

mod links;
mod marker;
mod message;
mod wire;
mod wires;

pub use marker::Marker;
pub use message::{Forward, ForwardKind, Message, Request, RequestKind, Response};
pub use wires::Wires;
