//! Making a world as it opened, in the memory that it has.

ghost use Rattle.std.specs.Prelude.{◌≡◌, ℕ, length, slice_get, None, Some};
ghost use Rattle.world.specs.inner.Holding.{kept_at, AreLined, IsOpened, OthersStay};

use crate::worlds::{World, opening_value};
use blocks::Block;
use rows::Sparse;

impl World {
    ghost use Rattle.std.specs.Prelude.{◌≡◌, length};
    ghost use Rattle.world.specs.Again.{BeginsAgain};

    /// Whatever happened to the world, it is one that nothing has happened to from now on: of the same shape, under the same
    /// tables, with these opening values. Blocks that were kept are made as they open in the memory that they have, with no line
    /// kept, and no other block is kept.
    pub fn reset(&mut self, opening: &[u64])
        requires { length opening.now ≡ self.old.shape.blocks }
        ensures { BeginsAgain self.old opening.now self.new }
    {
        self.opening.copy_from_slice(opening);
        self.restart();
    }

    /// Does as [`reset`](World::reset) does, with the opening values that the world has. What it costs is a matter of the blocks
    /// that are kept, and not of how many there are.
    pub fn restart(&mut self)
        ensures { BeginsAgain self.old self.old.opening self.new }
    {
        reset_all(&mut self.blocks, self.opening.as_slice());
        self.counts.clear();
        self.met_blank = false;
        self.tested = 0;
    }
}

/// Makes each block that is kept as it opens.
fn reset_all(blocks: &mut Sparse<Block>, opening: &[u64])
    ensures count { length blocks.new.items ≡ length blocks.old.items }
    ensures none { (at : ℕ) → kept_at blocks.old.items at ≡ None → kept_at blocks.new.items at ≡ None }
    ensures opened { (caches : ℕ) → AreLined caches blocks.old.items → (i v : ℕ) → slice_get opening.now i ≡ Some v →
        IsOpened caches v (kept_at blocks.new.items i) }
{
    for index in 0..blocks.held() {
        let Some((number, _)) = blocks.nth(index) else {
            unreachable!();
        };
        if let Some(value) = opening_value(opening, number) {
            reset_one(blocks, number, value);
        }
    }
}

/// Makes a block as it opens, if it is kept.
fn reset_one(blocks: &mut Sparse<Block>, number: u32, value: u64)
    ensures others { OthersStay number blocks.old.items blocks.new.items }
    ensures keys { blocks.new.keys ≡ blocks.old.keys }
    ensures none { kept_at blocks.old.items number ≡ None → kept_at blocks.new.items number ≡ None }
    ensures here { (caches : ℕ) → AreLined caches blocks.old.items → IsOpened caches value (kept_at blocks.new.items number) }
{
    if let Some(block) = blocks.get_mut(number) {
        block.reset(value);
    }
}
