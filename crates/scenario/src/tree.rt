use base::CoreAsk;
use std::alloc::Allocator;

/// What cores may ask, and in which order. A scenario stands for words, which are lists of asks.
///
/// Its memory is the allocator's `A`, such as the machine's or an arena.
#[derive(Drop)]
pub enum Scenario<A: Allocator> {
    /// This one ask.
    One(CoreAsk),
    /// A word of each child, one behind the other.
    Seq(Vec<Scenario<A>, A>),
    /// A word of one of the children.
    Any(Vec<Scenario<A>, A>),
    /// So many words of the child, one behind the other. They may differ.
    Times(u32, Box<Scenario<A>, A>),
    /// A word of each child, all at once: each keeps its order, and between them there is none.
    Both(Vec<Scenario<A>, A>),
}
