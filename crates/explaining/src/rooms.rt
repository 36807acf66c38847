//! Which shapes have room for a cache or a block.

use crate::explanation::Explanation;
use crate::pieces::{PieceKind, piece_from};
use crate::texts::is_name;
use base::text::small_number_of;
use base::{MOST_BLOCKS, MOST_CACHES, Shape};

/// What a shape has a number of.
#[derive(Clone, Copy)]
pub enum Counted {
    Caches,
    Blocks,
}

impl Counted {
    /// How many of them a shape has.
    pub fn in_shape(self, shape: Shape) -> u32 {
        match self {
            Counted::Caches => shape.caches(),
            Counted::Blocks => shape.blocks(),
        }
    }

    /// The key of an ask at which the number of one stands.
    pub fn key(self) -> &'static str {
        match self {
            Counted::Caches => "core",
            Counted::Blocks => "block",
        }
    }

    /// What one of them is called.
    pub fn name(self) -> &'static str {
        match self {
            Counted::Caches => "cache",
            Counted::Blocks => "block",
        }
    }

    fn option(self) -> &'static str {
        match self {
            Counted::Caches => "--caches",
            Counted::Blocks => "--blocks",
        }
    }

    fn most(self) -> u32 {
        match self {
            Counted::Caches => MOST_CACHES,
            Counted::Blocks => MOST_BLOCKS,
        }
    }
}

/// Tells which option makes room for one with a number, and which for all up to another.
pub fn tell_room(told: &mut Explanation, counted: Counted, number: u64, greatest: u64) {
    let (option, most) = (counted.option(), counted.most());
    if number >= u64::from(most) {
        told.line(format_args!("even {option} {most}, the most, has no room for it"));
        return;
    }
    let needed = number.saturating_add(1);
    let for_all = greatest.saturating_add(1);
    if greatest > number && greatest < u64::from(most) {
        told.line(format_args!(
            "{option} {needed} has room for it, and {option} {for_all} for all"
        ));
    } else {
        told.line(format_args!("{option} {needed} has room for it"));
    }
}

/// The greatest number below 2^32 that stands at such a key, anywhere in a text in JSON.
pub fn greatest_in(bytes: &[u8], counted: Counted) -> u64 {
    let key = counted.key().as_bytes();
    let mut greatest = 0u32;
    let mut is_at_key = false;
    let mut at = 0usize;
    for _ in 0..bytes.len() {
        let piece = piece_from(bytes, at);
        match piece.kind {
            PieceKind::Nothing => break,
            PieceKind::Text => is_at_key = is_name(bytes, piece.from.saturating_add(1), key),
            PieceKind::Colon => {}
            PieceKind::Number if is_at_key => {
                let text = bytes.get(piece.from..piece.to).unwrap_or(&[]);
                greatest = greatest.max(small_number_of(text).unwrap_or(0));
            }
            _ => is_at_key = false,
        }
        at = piece.to;
    }
    u64::from(greatest)
}
