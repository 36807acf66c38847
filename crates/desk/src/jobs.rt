//! What the trials of a desk are.

use scenario::Scenario;
use std::alloc::Global;
use std::marker::Brand;
use trials::Setup;

/// A scenario, and what its trials are made under.
#[derive(Drop)]
pub struct Job {
    pub scenario: Scenario<Global>,
    pub setup: Setup,
}

/// What a desk's trials are. `Desk` and `DeskSeat` name it by a type with this trait, mostly `Brand`.
pub trait Planned {
    ghost use Rattle.trials.specs.Terms.{Plan};

    ghost plan: { Plan };
}

impl Planned for Brand {
    ghost use Rattle.desk.specs.Plans.{no_plan};

    ghost plan = { no_plan };
}
