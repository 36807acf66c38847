use monitor::Violation;
use record::Recording;
use std::fmt;

/// How a trial ended.
#[derive(Clone, Copy, Debug, PartialEq, Eq)]
pub enum Verdict {
    /// Nothing is left to do: nothing is offered, no message is on its way, and no core waits.
    Quiet,
    /// The trial has made as many steps as it may, and could go on.
    Cut,
    /// Nothing can happen, and yet something is offered, on its way or waited for.
    Stuck,
    /// The last step shows this violation.
    Broke(Violation),
}

impl Verdict {
    ghost use Rattle.std.specs.Prelude.{◌≡◌};
    ghost use Rattle.trials.specs.Names.{verdict_name};

    /// How the verdict is spelled in texts, without its violation.
    pub fn name(self) -> &'static str
        ensures { result.now ≡ verdict_name self }
    {
        match self {
            Verdict::Quiet => "quiet",
            Verdict::Cut => "cut",
            Verdict::Stuck => "stuck",
            Verdict::Broke(_) => "broke",
        }
    }
}

/// What came of one trial. Its text is the verdict with the number of steps, and the violation where there is one.
#[derive(Clone, Copy, Debug, PartialEq, Eq)]
pub struct TrialResult {
    /// The trial's number, which is the stream that its dice draw from.
    pub number: u32,
    pub verdict: Verdict,
    /// How many steps it made.
    pub steps: u32,
}

impl fmt::Display for TrialResult {
    fn fmt<W: fmt::Write>(&self, f: &mut fmt::Formatter<W>) -> fmt::Result {
        write!(f, "{} {}", self.verdict.name(), self.steps)?;
        match self.verdict {
            Verdict::Broke(violation) => write!(f, " {violation}"),
            _ => Ok(()),
        }
    }
}

/// A trial that was made.
#[derive(Drop)]
pub struct Trial {
    /// Its steps with their outcomes. The step that shows a violation is the last one.
    pub recording: Recording,
    /// Its number, how it ended, and after how many steps.
    pub result: TrialResult,
}
