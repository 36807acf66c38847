use base::NoMemory;
use command_output::{Fault, Finding, Format, Printer, ViolationObject};
use std::alloc::Global;
use std::io::Write;
use std::{fmt, io};
use trials::{TrialResult, Verdict};

/// In how many parts progress is told.
const PARTS: u64 = 100;

/// After how many steps the lines of the trials that made them are put out, if they weren't before: about a
/// tenth of a second of work in most scenarios, so that whoever watches sees them come, and short trials don't cost a write each.
const STEPS_A_WRITE: u64 = 100_000;

/// How a batch is made.
#[derive(Clone, Copy)]
pub struct BatchPlan {
    /// How many trials it has.
    pub trials: u32,
    /// Among how many threads the trials are shared out.
    pub workers: u32,
    /// Whether it is told how far the batch has come.
    pub progress: bool,
    /// Behind the first trial of which kind no other is printed, if behind any.
    pub until: Option<Until>,
    /// The form of the lines.
    pub format: Format,
}

/// A kind of trials that are looked for.
#[derive(Clone, Copy)]
pub enum Until {
    Broke,
    Stuck,
    /// Those of both.
    Any,
}

impl Until {
    /// Whether a trial that ended so is one of them.
    fn is_met_by(self, verdict: Verdict) -> bool {
        match self {
            Until::Broke => matches!(verdict, Verdict::Broke(_)),
            Until::Stuck => verdict == Verdict::Stuck,
            Until::Any => matches!(verdict, Verdict::Broke(_) | Verdict::Stuck),
        }
    }
}

/// A trial as an object in JSON.
#[derive(Clone, Copy)]
struct TrialObject(TrialResult);

impl fmt::Display for TrialObject {
    fn fmt<W: fmt::Write>(&self, f: &mut fmt::Formatter<W>) -> fmt::Result {
        let TrialResult {
            number,
            verdict,
            steps,
        } = self.0;
        write!(
            f,
            "{{\"trial\":{number},\"verdict\":\"{}\",\"steps\":{steps},\"violation\":",
            verdict.name()
        )?;
        match verdict {
            Verdict::Broke(violation) => write!(f, "{}}}", ViolationObject(violation)),
            _ => f.write_str("null}"),
        }
    }
}

/// How many trials of a kind there were.
#[derive(Clone, Copy)]
struct Count {
    kind: &'static str,
    trials: u32,
}

/// What a batch prints: a line for each trial in order of their numbers, and at the end how many there were of each kind,
/// in the order in which the kinds came first. Where progress is asked for, it is told on the errors, as long as somebody
/// takes it.
///
/// Its first fault is noted: no trial is printed any more from then on, and the fault is told at the end.
pub struct Report<O: Write + Drop, E: Write + Drop> {
    printer: Printer<O>,
    errors: E,
    // The first fault, if it isn't one of the printer.
    fault: Option<Fault>,
    // How many steps the trials made whose lines may not be put out yet.
    waiting: u64,
    tally: Vec<Count>,
    plan: BatchPlan,
    done: u32,
    steps: u64,
    broke: u32,
    stuck: u32,
    // The trial that was looked for.
    met: Option<u32>,
}

impl<O: Write + Drop, E: Write + Drop> Drop for Report<O, E> {
    fn drop(self) {
        // One call drops all its parts.
        let Report {
            printer: _,
            errors: _,
            fault: _,
            waiting: _,
            tally: _,
            plan: _,
            done: _,
            steps: _,
            broke: _,
            stuck: _,
            met: _,
        } = self;
    }
}

impl<O: Write + Drop, E: Write + Drop> Report<O, E> {
    /// The report of a batch by this plan on these two.
    pub fn new(alloc: Global, plan: BatchPlan, printer: Printer<O>, errors: E) -> Report<O, E> {
        Report {
            printer,
            errors,
            fault: None,
            waiting: 0,
            tally: Vec::new(alloc),
            plan,
            done: 0,
            steps: 0,
            broke: 0,
            stuck: 0,
            met: None,
        }
    }

    /// The errors again.
    pub fn into_errors(self) -> E {
        let Report {
            printer: _,
            errors,
            fault: _,
            waiting: _,
            tally: _,
            plan: _,
            done: _,
            steps: _,
            broke: _,
            stuck: _,
            met: _,
        } = self;
        errors
    }

    /// How many trials the batch has.
    pub fn trials(&self) -> u32 {
        self.plan.trials
    }

    /// How many trials it has printed, which is the number of the next.
    pub fn done(&self) -> u32 {
        self.done
    }

    /// Whether no trial is printed any more: a fault was noted, or the trial that was looked for is printed.
    pub fn is_over(&self) -> bool {
        self.has_failed() || self.met.is_some()
    }

    fn has_failed(&self) -> bool {
        self.fault.is_some() || self.printer.has_failed()
    }

    /// Prints the line of the next trial.
    pub fn print(&mut self, made: TrialResult) {
        self.print_line(made);
        if !self.has_failed() {
            self.count(made);
        }
        if self.plan.progress && self.has_another_part() && !self.has_failed() {
            self.tell();
        }
    }

    fn print_line(&mut self, made: TrialResult) {
        match self.plan.format {
            Format::Plain => self.printer.line(format_args!("{} {made}", self.done)),
            Format::Json => self.printer.line(TrialObject(made)),
        }
        self.waiting = self.waiting.saturating_add(u64::from(made.steps));
        if self.waiting >= STEPS_A_WRITE {
            self.flush();
        }
    }

    /// Puts out the lines that are printed. Where that fails, the fault is noted as one of printing.
    pub fn flush(&mut self) {
        self.waiting = 0;
        self.printer.flush();
    }

    fn count(&mut self, made: TrialResult) {
        self.count_kind(made.verdict.name());
        self.done = self.done.saturating_add(1);
        self.steps = self.steps.saturating_add(u64::from(made.steps));
        match made.verdict {
            Verdict::Broke(_) => self.broke = self.broke.saturating_add(1),
            Verdict::Stuck => self.stuck = self.stuck.saturating_add(1),
            Verdict::Quiet | Verdict::Cut => {}
        }
        if self
            .plan
            .until
            .is_some_and(|until| until.is_met_by(made.verdict))
        {
            self.met = Some(made.number);
        }
    }

    fn count_kind(&mut self, kind: &'static str) {
        for count in self.tally.iter_mut() {
            if count.kind == kind {
                count.trials = count.trials.saturating_add(1);
                return;
            }
        }
        if self.tally.push(Count { kind, trials: 1 }).is_err() {
            self.fault = Some(Fault::NoMemory);
        }
    }

    /// Whether the last trial has made another hundredth of the batch whole.
    fn has_another_part(&self) -> bool {
        let trials = u64::from(self.plan.trials.max(1));
        let done = u64::from(self.done);
        done * PARTS / trials != done.saturating_sub(1) * PARTS / trials
    }

    /// Tells how far the batch is, behind the lines that are printed. Where nobody takes that it isn't told any more, and the
    /// batch goes on.
    fn tell(&mut self) {
        self.flush();
        if self.write_progress().is_err() {
            self.plan.progress = false;
        }
    }

    fn write_progress(&mut self) -> io::Result<()> {
        writeln!(
            self.errors,
            "msi: {} of {} trials, {} steps, {} broke, {} stuck",
            self.done, self.plan.trials, self.steps, self.broke, self.stuck
        )?;
        self.errors.flush()
    }

    /// Ends the report of trials that were made, or refused. It prints how many there were of each kind, and answers what
    /// was found; where there was a fault it answers that, and what was printed before stands, as far as the device takes
    /// it.
    pub fn finish(&mut self, made: Result<(), NoMemory>) -> Result<Finding, Fault> {
        if self.fault.is_none() && made.is_err() {
            self.fault = Some(Fault::NoMemory);
        }
        match self.fault {
            None => self.print_totals(),
            Some(fault) => {
                self.printer.flush();
                Err(fault)
            }
        }
    }

    fn print_totals(&mut self) -> Result<Finding, Fault> {
        for Count { kind, trials } in self.tally.iter() {
            match self.plan.format {
                Format::Plain => self.printer.line(format_args!("total {kind} {trials}")),
                Format::Json => self.printer.line(format_args!(
                    "{{\"total\":\"{kind}\",\"trials\":{trials}}}"
                )),
            }
        }
        let found = match self.met {
            Some(number) => Finding::Trial(number),
            None if self.broke > 0 => Finding::Violation,
            None => Finding::Nothing,
        };
        self.printer.finish(Ok(found))
    }
}
