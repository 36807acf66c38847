use crate::making::step_of;
use base::Outcome;
use record::Entry;
use std::process::Abort;

fn outcome_of(rt: &impl Abort, text: &str) -> Outcome {
    Outcome::read(text.as_bytes()).expect(rt, "an outcome")
}

/// The entry of a line: a step and an outcome, with ` = ` between them.
pub fn entry_of(rt: &impl Abort, line: &str) -> Entry {
    let (step, outcome) = line.split_once(" = ").expect(rt, "an entry");
    Entry {
        step: step_of(rt, step),
        outcome: outcome_of(rt, outcome),
    }
}
