//! What the parts of a cursor come to.

ghost use Rattle.std.specs.Prelude.{◌≤◌};
ghost use Rattle.scenario.specs.Tree.{Tree};
ghost use Rattle.cursors.specs.Cursors.{Progress, standing};
ghost use Rattle.cursors.specs.Stock.{FitsIn, most_used, nodes, parts_held, parts_used};
ghost use Rattle.cursors.specs.declared.cursor.Cursor.{Cursor};

use std::alloc::Allocator;

/// A cursor that fits in a tree holds no more parts than this has nodes, in use or kept for later, nor can it come to have more
/// in use. It fits in its tree where it is opened ([`Cursor::open`](crate::Cursor::open)) and wherever it is restarted with it
/// ([`Cursor::restart`](crate::Cursor::restart)), and no [`Cursor::pass`](crate::Cursor::pass) changes that.
pub fn cursors_stay_small<A: Allocator, B: Allocator>()
    ensures held { (c : Cursor A B) (t : Tree) → FitsIn c t → parts_held c ≤ nodes t }
    ensures used { (c : Cursor A B) (t : Tree) → FitsIn c t → most_used (standing c) ≤ nodes t }
    ensures most { (p : Progress) → parts_used p ≤ most_used p }
{}
