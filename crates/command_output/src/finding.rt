use monitor::Violation;
use std::fmt;

/// What a command found, where nothing went wrong with the command itself.
#[derive(Clone, Copy, Debug, PartialEq, Eq)]
pub enum Finding {
    /// There is nothing to find, or nothing was found.
    Nothing,
    /// A violation was found, and printed.
    Violation,
    /// A recording tells of another outcome than its step has, which was printed.
    Difference,
    /// The first trial of a kind that was looked for, which has this number, was printed.
    Trial(u32),
    /// Tables aren't proved safe, and a cell that isn't was printed.
    Unknown,
    /// Lines of the input were refused, and told of.
    Refused,
}

impl Finding {
    /// The exit status.
    pub fn status(self) -> u8 {
        match self {
            Finding::Nothing => 0,
            Finding::Violation | Finding::Difference | Finding::Trial(_) | Finding::Unknown => 1,
            Finding::Refused => 2,
        }
    }
}

/// The violation of a recording that a command has made, with the number of its entry, if there is one.
#[derive(Clone, Copy, Debug, PartialEq, Eq)]
pub struct FoundViolation(pub Option<(u64, Violation)>);

impl FoundViolation {
    /// What the command found.
    pub fn finding(self) -> Finding {
        match self.0 {
            None => Finding::Nothing,
            Some(_) => Finding::Violation,
        }
    }
}

impl fmt::Display for FoundViolation {
    fn fmt<W: fmt::Write>(&self, f: &mut fmt::Formatter<W>) -> fmt::Result {
        match self.0 {
            None => f.write_str("safe"),
            Some((entry, violation)) => write!(f, "violation {entry} {violation}"),
        }
    }
}
