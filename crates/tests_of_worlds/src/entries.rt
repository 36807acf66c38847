use crate::making::step_of;
use base::{Outcome, Step};
use std::process::Abort;

pub fn outcome_of(rt: &impl Abort, text: &str) -> Outcome {
    Outcome::read(text.as_bytes()).expect(rt, "an outcome")
}

/// The step and the outcome of a line, with ` = ` between them.
pub fn entry_of(rt: &impl Abort, line: &str) -> (Step, Outcome) {
    let (step, outcome) = line.split_once(" = ").expect(rt, "an entry");
    (step_of(rt, step), outcome_of(rt, outcome))
}
