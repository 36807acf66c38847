//! What a step came to, told to whoever has to follow it.

ghost use Rattle.std.specs.Prelude.{◌≡◌};
ghost use Rattle.machine.specs.Made.{actor_place};

use base::{CacheId, Outcome, Place};
use cache_table::CacheState;

/// What a step came to: its outcome, and what a cell did, if one acted.
#[derive(Clone, Copy, Debug, PartialEq, Eq)]
pub struct Made {
    pub outcome: Outcome,
    /// None acts where the step is held, absent, idle or blank, or the world is broken.
    pub acted: Option<Acted>,
}

/// What a cell did that acted.
#[derive(Clone, Copy, Debug, PartialEq, Eq)]
pub struct Acted {
    /// Whose cell it is.
    pub by: Actor,
    /// Whether the step's block is crowded after it: more than one cache may read it, and one may write it.
    pub crowded: bool,
}

/// Whose cell acted.
#[derive(Clone, Copy, Debug, PartialEq, Eq)]
pub enum Actor {
    /// That of the home of the step's block.
    Home,
    /// That of a cache, whose line went from the one state to the other, or stayed in it.
    Line {
        cache: CacheId,
        before: CacheState,
        after: CacheState,
    },
}

impl Made {
    ghost use Rattle.std.specs.Prelude.{◌≡◌};
    ghost use Rattle.machine.specs.Made.{place_of, refused};

    /// What a step came to that no cell acted on.
    pub fn refused(outcome: Outcome) -> Made
        ensures { result ≡ refused outcome }
    {
        Made {
            outcome,
            acted: None,
        }
    }

    /// The controller whose cell acted, if one did.
    pub fn place(self) -> Option<Place>
        ensures { result ≡ place_of self }
    {
        match self.acted {
            Some(acted) => Some(acted.by.place()),
            None => None,
        }
    }
}

impl Actor {
    ghost use Rattle.std.specs.Prelude.{◌≡◌};
    ghost use Rattle.machine.specs.Made.{actor_place};

    /// The controller.
    pub fn place(self) -> Place
        ensures { result ≡ actor_place self }
    {
        match self {
            Actor::Home => Place::Dir,
            Actor::Line { cache, .. } => Place::Cache(cache),
        }
    }
}
