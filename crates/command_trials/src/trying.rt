use crate::reporting::{BatchPlan, Report};
use crate::sharing::share;
use base::{NoMemory, Shape};
use bumpalo::Bump;
use command_output::{Fault, Finding, Printer, print_whole};
use desk::Job;
use scenario::Scenario;
use std::alloc::Global;
use std::io::{Read, Write};
use std::marker::Brand;
use std::thread::Threads;
use trials::{Series, Setup, Trial, TrialResult, Verdict, trial};

/// Makes one trial of the scenario that the input is, and writes its recording on the output and its verdict on the
/// errors.
pub fn one_trial<I: Read + Drop, O: Write + Drop, E: Write>(
    alloc: Global,
    setup: &Setup,
    number: u32,
    input: I,
    output: O,
    errors: &mut E,
) -> Result<Finding, Fault> {
    let scenario = read_scenario(alloc, input, setup.shape())?;
    match trial(alloc, &scenario, setup, number) {
        Ok(made) => write_trial(alloc, &made, output, errors),
        Err(NoMemory) => Err(Fault::NoMemory),
    }
}

fn write_trial<O: Write + Drop, E: Write>(
    alloc: Global,
    made: &Trial,
    output: O,
    errors: &mut E,
) -> Result<Finding, Fault> {
    print_whole(alloc, &made.recording, output)?;
    // What is told beside the recording doesn't undo it where nobody takes it.
    let _ = writeln!(errors, "verdict {}", made.result);
    if made.result.verdict == Verdict::Stuck {
        let _ = writeln!(
            errors,
            "msi: msi show and msi chart of the recording tell what waits"
        );
    }
    Ok(finding(made.result))
}

/// Makes the trials of a batch of the scenario that the input is, and prints a line for each, and then how many there were
/// of each kind, in the order in which the kinds came first. It hands the errors back.
pub fn batch<R: Threads + Sync, I: Read + Drop, O: Write + Drop, E: Write + Drop>(
    rt: &R,
    alloc: Global,
    setup: Setup,
    plan: BatchPlan,
    input: I,
    output: O,
    errors: E,
) -> (E, Result<Finding, Fault>) {
    match prepare(alloc, setup, input, output) {
        Ok((job, printer)) => {
            let report = Report::new(alloc, plan, printer, errors);
            let (report, found) = make_all(rt, alloc, &job, plan.workers, report);
            (report.into_errors(), found)
        }
        Err(fault) => (errors, Err(fault)),
    }
}

fn prepare<I: Read + Drop, O: Write + Drop>(
    alloc: Global,
    setup: Setup,
    input: I,
    output: O,
) -> Result<(Job, Printer<O>), Fault> {
    let scenario = read_scenario(alloc, input, setup.shape())?;
    let printer = Printer::new(alloc, output)?;
    Ok((Job { scenario, setup }, printer))
}

fn make_all<R: Threads + Sync, O: Write + Drop, E: Write + Drop>(
    rt: &R,
    alloc: Global,
    job: &Job,
    workers: u32,
    report: Report<O, E>,
) -> (Report<O, E>, Result<Finding, Fault>) {
    let (mut report, made) = if workers > 1 {
        share::<Brand, R, O, E>(rt, alloc, job, workers, report)
    } else {
        make_alone(alloc, job, report)
    };
    let found = report.finish(made);
    (report, found)
}

fn make_alone<O: Write + Drop, E: Write + Drop>(
    alloc: Global,
    job: &Job,
    mut report: Report<O, E>,
) -> (Report<O, E>, Result<(), NoMemory>) {
    let made = print_each(alloc, job, &mut report);
    (report, made)
}

fn print_each<O: Write + Drop, E: Write + Drop>(
    alloc: Global,
    job: &Job,
    report: &mut Report<O, E>,
) -> Result<(), NoMemory> {
    let arena = Bump::new(alloc);
    let mut series = Series::new(alloc, &arena, &job.scenario, &job.setup);
    print_trials(&mut series, report)
}

fn print_trials<O: Write + Drop, E: Write + Drop>(
    series: &mut Series<'_, '_, Global>,
    report: &mut Report<O, E>,
) -> Result<(), NoMemory> {
    for number in 0..report.trials() {
        let made = series.result(number)?;
        report.print(made);
        if report.is_over() {
            break;
        }
    }
    Ok(())
}

fn finding(made: TrialResult) -> Finding {
    match made.verdict {
        Verdict::Broke(_) => Finding::Violation,
        _ => Finding::Nothing,
    }
}

/// The scenario that the whole input is.
fn read_scenario<I: Read + Drop>(
    alloc: Global,
    input: I,
    shape: Shape,
) -> Result<Scenario<Global>, Fault> {
    let mut input = input;
    let mut bytes = Vec::new(alloc);
    input.read_to_end(&mut bytes)?;
    Ok(Scenario::read(alloc, alloc, bytes.as_slice(), shape)?)
}
