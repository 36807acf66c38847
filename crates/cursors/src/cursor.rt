//! What is left of a scenario that is borrowed.

ghost use Rattle.std.specs.Prelude.{◌≡◌, true};
ghost use Rattle.cursors.specs.inner.Turns.{chooses};

use crate::part::{
    Part, PartPlace, chooses, part_next, part_repeats, pass_at_once, pass_turn, take_from,
};
use crate::telling::Next;
use base::NoMemory;
use scenario::Scenario;
use std::alloc::Allocator;

/// What is left of a scenario, which it borrows.
///
/// It keeps how far it is in each tree that it has begun, in parts that lie in memory of the allocator `B`. Those that are
/// no longer needed are used again, so that it never holds more of them than its scenario has nodes.
#[derive(Drop)]
pub struct Cursor<'t, A: Allocator, B: Allocator> {
    pub(crate) root: Part<'t, A, B>,
    // Whether it is known to be in turns of a choice of asks, so that its children need not be looked at.
    in_turns: bool,
    ghost known: { in_turns ≡ true → chooses root ≡ true },
}

impl<'t, A: Allocator, B: Allocator> Cursor<'t, A, B> {
    ghost use Rattle.cursors.specs.Cursors.{remaining};
    ghost use Rattle.cursors.specs.Stock.{FitsIn};
    ghost use Rattle.scenario.specs.Tree.{plain};

    /// All of the tree is left. It takes no memory.
    pub fn open(tree: &'t Scenario<A>) -> Cursor<'t, A, B>
        ensures left { remaining result ≡ plain tree.entry.now }
        ensures fits { FitsIn result (plain tree.entry.now) }
    {
        Cursor {
            root: Part::Fresh(PartPlace::Whole(tree)),
            in_turns: false,
        }
    }
}

impl<'t, A: Allocator, B: Allocator> Cursor<'t, A, B> {
    ghost use Rattle.cursors.specs.Calls.{Restarts};
    ghost use Rattle.cursors.specs.Cursors.{remaining};
    ghost use Rattle.cursors.specs.Telling.{Tells};
    ghost use Rattle.scenario.specs.Taking.{offers};
    ghost use Rattle.scenario.specs.Tree.{plain};

    /// What is offered next, where that is one ask at most and a look tells it.
    pub fn peek(&self) -> Next
        ensures { Tells result (offers (remaining self.now)) }
    {
        part_next(&self.root)
    }

    /// All of this tree is left from now on, whatever was. The parts that the cursor has are used again: it fits in every tree
    /// that it fitted in, if that has room for this one too.
    pub fn restart(&mut self, tree: &'t Scenario<A>)
        ensures { Restarts self.old (plain tree.entry.now) self.new }
    {
        self.in_turns = false;
        self.root.move_to(PartPlace::Whole(tree));
    }
}

impl<'t, A: Allocator, B: Allocator + Clone> Cursor<'t, A, B> {
    ghost use Rattle.std.specs.Prelude.{◌<◌, IfOk, length};
    ghost use Rattle.cursors.specs.Calls.{Passes};
    ghost use Rattle.cursors.specs.Cursors.{remaining};
    ghost use Rattle.cursors.specs.Repeats.{Repeats};
    ghost use Rattle.scenario.specs.Taking.{offers};

    /// Takes offer `at`, counted from 0 in the order of [`Rest::offers`](scenario::Rest::offers), which there has to be, without a look
    /// at its ask.
    ///
    /// What is made anew is `alloc`'s. Where memory is refused, nothing has changed.
    pub fn pass(&mut self, alloc: B, at: usize) -> Result<(), NoMemory>
        requires { at < length (offers (remaining self.old)) }
        ensures { Passes self.old at result self.new }
    {
        if pass_at_once(&mut self.root, at) {
            return Ok(());
        }
        self.in_turns = false;
        take_from(&mut self.root, &alloc, at)?;
        Ok(())
    }

    /// Takes offer `at` as [`pass`](Cursor::pass) does, and answers whether the same was offered again, whichever offer was taken:
    /// that is told by a look, and `false` promises nothing. Of turns of a choice it keeps in mind that they are, so that in those
    /// behind this one no child is looked at.
    ///
    /// What is made anew is `alloc`'s. Where memory is refused, what is left is as before.
    pub fn pass_on(&mut self, alloc: B, at: usize) -> Result<bool, NoMemory>
        requires { at < length (offers (remaining self.old)) }
        ensures passes { Passes self.old at result self.new }
        ensures repeats { IfOk result (λ repeats. repeats ≡ true → Repeats (remaining self.old)) }
    {
        let in_turns = self.in_turns || chooses(&self.root);
        if in_turns && pass_turn(&mut self.root) {
            self.in_turns = true;
            return Ok(true);
        }
        let repeats = part_repeats(&self.root);
        self.pass(alloc, at)?;
        Ok(repeats)
    }
}
