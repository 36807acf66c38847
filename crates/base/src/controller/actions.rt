ghost use Rattle.std.specs.Prelude.{◌≡◌};
ghost use Rattle.base.specs.Entries.{same_list};

use crate::controller::listed::Listed;
use std::alloc::AllocError;
use std::marker::Model;

/// The most actions that a cell has.
pub const MOST_ACTIONS: usize = 8;

/// At most eight actions of a controller, in order.
#[derive(Copy, PartialEq, Eq, Debug)]
pub struct Actions<A: Listed> {
    items: [A; 8],
    count: u8,
}

impl<A: Listed> Clone for Actions<A> {
    fn clone(&self) -> Result<Actions<A>, AllocError> {
        Ok(*self)
    }
}

impl<A: Listed> Model for Actions<A> {
    ghost use Rattle.std.specs.Prelude.{List, take};
    ghost use Rattle.base.specs.inner.Filled.{IsFilled, filled, filled_back};

    ghost Value = { List A };

    ghost view = { λ s. take s.count s.items };

    ghost invariant = { IsFilled A.head };

    ghost inverse = { filled A.head };

    ghost inverse_ok = { filled_back A.head };
}

impl<A: Listed> Actions<A> {
    ghost use Rattle.std.specs.Prelude.{◌≡◌, ◌<◌, ◌≤◌, ◌↔◌, ◌++◌, ◌∷◌, [], length, IfNone, IfSome, IsSome, IsTrue};

    /// No actions.
    pub fn none() -> Actions<A>
        ensures { result ≡ [] }
    {
        Actions {
            items: [A::first(); 8],
            count: 0,
        }
    }

    /// These actions, if there are at most `MOST_ACTIONS`.
    pub fn of(actions: &[A]) -> Option<Actions<A>>
        ensures few { IsSome result ↔ (length actions.now ≤ 8) }
        ensures same { IfSome result (λ kept. kept ≡ actions.now) }
        ensures more { IfNone result (8 < length actions.now) }
    {
        if actions.len() > MOST_ACTIONS {
            return None;
        }
        let mut kept = Actions::none();
        for &action in actions {
            kept = kept.with(action);
        }
        Some(kept)
    }

    /// The actions, in order.
    pub fn as_slice(&self) -> &[A]
        ensures actions { result.now ≡ self.now }
        ensures few { length self.now ≤ 8 }
    {
        &self.items[..self.count as usize]
    }

    /// How many actions there are.
    pub fn len(&self) -> usize
        ensures count { result ≡ length self.now }
        ensures few { result ≤ 8 }
    {
        self.as_slice().len()
    }

    /// Whether there is no action.
    pub fn is_empty(&self) -> bool
        ensures { IsTrue result ↔ (self.now ≡ []) }
    {
        self.count == 0
    }

    /// These actions and then this one.
    pub fn with(self, action: A) -> Actions<A>
        requires { length self < 8 }
        ensures { result ≡ self ++ action ∷ [] }
    {
        let mut items = self.items;
        items[self.count as usize] = action;
        Actions {
            items,
            count: self.count + 1,
        }
    }
}

/// Whether both have the same actions in the same order.
pub(crate) fn are_same<A: Listed>(mine: &[A], others: &[A]) -> bool
    ensures { result ≡ same_list A.place mine.now others.now }
{
    if mine.len() != others.len() {
        return false;
    }
    for index in 0..mine.len() {
        if mine[index].number() != others[index].number() {
            return false;
        }
    }
    true
}
