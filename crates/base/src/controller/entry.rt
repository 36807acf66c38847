ghost use Rattle.base.specs.Cells.{LastChangeHolds};

use crate::controller::actions::{Actions, are_same};
use crate::controller::listed::Listed;
use std::alloc::AllocError;

/// One cell of a controller's table: what it does in a state on an event.
#[derive(Copy, PartialEq, Eq, Debug)]
pub enum CellEntry<S: Listed, A: Listed> {
    /// There is no rule: the protocol takes it that the event can't come in this state.
    Blank,
    /// The event waits, and nothing changes.
    Stall,
    /// The actions are done in order, and then the controller is in the next state.
    Act {
        /// The state that it goes to.
        next: S,
        /// What is done, in order.
        actions: Actions<A>,
    },
}

impl<S: Listed, A: Listed> Clone for CellEntry<S, A> {
    fn clone(&self) -> Result<CellEntry<S, A>, AllocError> {
        Ok(*self)
    }
}

impl<S: Listed, A: Listed> CellEntry<S, A> {
    ghost use Rattle.std.specs.Prelude.{◌≡◌, ◌↔◌, [], ◌∷◌, IsTrue};
    ghost use Rattle.base.specs.Entries.{actions_of, same_entry, HasFewActions};

    /// What is done, in order: nothing where there is no rule or the event waits.
    pub fn actions(&self) -> &[A]
        ensures actions { result.now ≡ actions_of self.now }
        ensures room { HasFewActions self.now }
    {
        match self {
            CellEntry::Act { actions, .. } => actions.as_slice(),
            _ => &[],
        }
    }

    /// Whether the other entry is the same.
    pub fn is_same(&self, other: &CellEntry<S, A>) -> bool
        ensures same { result ≡ same_entry S.place A.place self.now other.now }
        ensures equal { IsTrue result ↔ (self.now ≡ other.now) }
        ensures room { HasFewActions self.now }
    {
        let actions_are = are_same(self.actions(), other.actions());
        match (self, other) {
            (CellEntry::Blank, CellEntry::Blank) | (CellEntry::Stall, CellEntry::Stall) => true,
            (
                CellEntry::Act { next, .. },
                CellEntry::Act {
                    next: other_next,
                    ..
                },
            ) => { next.number() == other_next.number() && actions_are }
            _ => false,
        }
    }

    /// To the next state with no action.
    pub fn quiet(next: S) -> CellEntry<S, A>
        ensures { result ≡ CellEntry.Act next [] }
    {
        CellEntry::Act {
            next,
            actions: Actions::none(),
        }
    }

    /// One action, and then to the next state.
    pub fn one(action: A, next: S) -> CellEntry<S, A>
        ensures { result ≡ CellEntry.Act next (action ∷ []) }
    {
        CellEntry::Act {
            next,
            actions: Actions::none().with(action),
        }
    }

    /// Two actions, and then to the next state.
    pub fn two(first: A, second: A, next: S) -> CellEntry<S, A>
        ensures { result ≡ CellEntry.Act next (first ∷ second ∷ []) }
    {
        CellEntry::Act {
            next,
            actions: Actions::none().with(first).with(second),
        }
    }

    /// Three actions, and then to the next state.
    pub fn three(first: A, second: A, third: A, next: S) -> CellEntry<S, A>
        ensures { result ≡ CellEntry.Act next (first ∷ second ∷ third ∷ []) }
    {
        CellEntry::Act {
            next,
            actions: Actions::none().with(first).with(second).with(third),
        }
    }

    /// Four actions, and then to the next state.
    pub fn four(first: A, second: A, third: A, fourth: A, next: S) -> CellEntry<S, A>
        ensures { result ≡ CellEntry.Act next (first ∷ second ∷ third ∷ fourth ∷ []) }
    {
        CellEntry::Act {
            next,
            actions: Actions::none()
                .with(first)
                .with(second)
                .with(third)
                .with(fourth),
        }
    }
}

/// Which controller's table a cell is of.
#[derive(Clone, Copy, PartialEq, Eq, Debug)]
pub enum Side {
    /// The table of the caches.
    Cache,
    /// The table of the directory.
    Directory,
}

/// An entry that one cell of a controller's table is to have.
#[derive(Copy, PartialEq, Eq, Debug)]
pub struct Change<S: Listed, E: Listed, A: Listed> {
    /// The state of the cell.
    pub state: S,
    /// The event of the cell.
    pub event: E,
    /// What the cell is to hold.
    pub entry: CellEntry<S, A>,
}

impl<S: Listed, E: Listed, A: Listed> Clone for Change<S, E, A> {
    fn clone(&self) -> Result<Change<S, E, A>, AllocError> {
        Ok(*self)
    }
}

impl<S: Listed, E: Listed, A: Listed> Change<S, E, A> {
    ghost use Rattle.std.specs.Prelude.{◌≡◌};
    ghost use Rattle.base.specs.Cells.{is_of};

    /// Whether this is a change of the cell that the other one changes too.
    pub fn is_of_same_cell(&self, other: &Change<S, E, A>) -> bool
        ensures { result ≡ is_of S.place E.place self.now other.now.state other.now.event }
    {
        self.state.number() == other.state.number() && self.event.number() == other.event.number()
    }
}

/// Where changes are made to a whole table in order, each cell holds the entry of its last change, or its own if there is
/// none.
pub fn last_change_holds<S: Listed, E: Listed, A: Listed>()
    ensures { LastChangeHolds A S.kind E.kind S.place E.place }
{}
