use base::{Outcome, Step};

/// A step, and what came of it.
#[derive(Clone, Copy, Debug, PartialEq, Eq)]
pub struct Entry {
    pub step: Step,
    pub outcome: Outcome,
}
