use crate::again::TrialWords;
use crate::explained::{Streams, explanation};
use crate::files::Files;
use crate::kept::{Kept, Noted};
use crate::limits::Limits;
use crate::tasks::Task;
use crate::tips::tell_tip;
use clap::error::ErrorKind;
use clap::{ArgMatches, Error};
use command_output::{Fault, Finding};
use command_runs::{move_recording, play, play_recording, print_recording, replay};
use command_tables::{check, print_certificate, print_changes, print_model, print_tables};
use command_trials::{MOST_STEPS, MOST_TRIALS, MOST_WORKERS, batch, one_trial, race};
use std::alloc::Global;
use std::io;
use std::io::{Read, Write};
use std::sync::Wait;
use std::thread::Threads;

/// What numbers `msi` takes.
const LIMITS: Limits = Limits {
    steps: MOST_STEPS,
    trials: MOST_TRIALS,
    workers: MOST_WORKERS,
    seats: command_trials::MOST_SEATS,
    model_caches: command_tables::MOST_CACHES,
};

/// Serves the words of a command line over these files and streams, and answers the exit status. It may wait where threads
/// race at a floor. The status is
/// 0 where all went well, 1 where a violation, a difference or a cell that isn't proved was found, 2 for bad words or input, 3 for device and memory.
///
/// Where the words couldn't be had, it says why.
pub fn serve<R: Threads + Wait + Sync, F: Files, I: Read + Drop, O: Write + Drop, E: Write + Drop>(
    rt: &R,
    alloc: Global,
    words: &io::Result<Vec<String>>,
    files: &mut F,
    input: I,
    output: O,
    errors: E,
) -> u8 {
    let mut errors = errors;
    let words = match words {
        Ok(words) => words.as_slice(),
        Err(error) => return refuse(&Fault::of_words(error), &mut errors),
    };
    let read = match crate::usage::msi(alloc, &LIMITS) {
        Ok(msi) => msi.try_get_matches_from(words),
        Err(_) => return refuse(&Fault::NoMemory, &mut errors),
    };
    match read {
        Ok(matches) => serve_matches(rt, alloc, words, &matches, files, input, output, errors),
        Err(said) => {
            let status = answer(&said, output, &mut errors);
            tell_tip(alloc, words, &said, &mut errors);
            status
        }
    }
}

/// Carries out what the words ask for, and explains what is refused where that is asked for.
fn serve_matches<
    R: Threads + Wait + Sync,
    F: Files,
    I: Read + Drop,
    O: Write + Drop,
    E: Write + Drop,
>(
    rt: &R,
    alloc: Global,
    words: &[String],
    matches: &ArgMatches<'_>,
    files: &mut F,
    input: I,
    output: O,
    errors: E,
) -> u8 {
    let mut input = Kept::new(alloc, is_kept(matches), input);
    let mut output = Noted::new(output);
    let (mut errors, found) = run(rt, alloc, matches, files, &mut input, &mut output, errors);
    match found {
        Ok(Finding::Trial(number)) => tell_again(words, matches, number, &mut errors),
        Ok(finding) => finding.status(),
        Err(fault) => {
            let streams = Streams {
                bytes: input.kept(),
                input: input.fault(),
                output: output.fault(),
            };
            let status = refuse_unless_closed(&fault, streams.output, &mut errors);
            explain(alloc, matches, &fault, files, streams, &mut errors);
            status
        }
    }
}

/// Whether an explanation may need the input once more. Steps that are played are explained as they are read.
fn is_kept(matches: &ArgMatches<'_>) -> bool {
    match matches.subcommand() {
        Some(("play", options)) => options.get_flag("explain") && options.get_flag("recording"),
        Some((_, options)) => options.get_flag("explain"),
        None => false,
    }
}

/// Prints what is wrong with what is refused, and where, if that is asked for.
fn explain<F: Files, E: Write>(
    alloc: Global,
    matches: &ArgMatches<'_>,
    fault: &Fault,
    files: &mut F,
    streams: Streams<'_>,
    errors: &mut E,
) {
    let Some((name, options)) = matches.subcommand() else {
        return;
    };
    if !options.get_flag("explain") {
        return;
    }
    let told = explanation(alloc, name, options, fault, files, streams);
    if let Ok(text) = told.text() {
        let _ = write!(errors, "{text}");
    }
}

/// Tells how the trial that a batch ended behind is made again, and answers the exit status.
fn tell_again<E: Write>(
    words: &[String],
    matches: &ArgMatches<'_>,
    number: u32,
    errors: &mut E,
) -> u8 {
    if let Some((_, options)) = matches.subcommand() {
        let program = match words.first() {
            Some(word) => word.as_str(),
            None => "msi",
        };
        let again = TrialWords {
            program,
            options,
            number,
        };
        // The batch is whole where nobody takes it.
        let _ = writeln!(errors, "{again}");
    }
    Finding::Trial(number).status()
}

/// Prints what `clap` says in place of a task, help or an error, and answers its exit status.
fn answer<O: Write + Drop, E: Write>(said: &Error, output: O, errors: &mut E) -> u8 {
    if said.kind() == ErrorKind::OutOfMemory {
        return refuse(&Fault::NoMemory, errors);
    }
    if said.use_stderr() {
        let _ = write!(errors, "{said}");
        return 2;
    }
    let mut output = Noted::new(output);
    if write!(output, "{said}").is_err() || output.flush().is_err() {
        return refuse_unless_closed(&Fault::Device, output.fault(), errors);
    }
    0
}

/// Prints a fault, unless it is that nobody reads the output any more: whoever closed it knows. It answers the exit status.
fn refuse_unless_closed<E: Write>(fault: &Fault, output: Option<io::Error>, errors: &mut E) -> u8 {
    let is_closed = output.is_some_and(|error| error.kind() == io::ErrorKind::BrokenPipe);
    match fault {
        Fault::Device if is_closed => fault.status(),
        _ => refuse(fault, errors),
    }
}

/// Prints a fault, and answers its exit status.
fn refuse<E: Write>(fault: &Fault, errors: &mut E) -> u8 {
    let _ = writeln!(errors, "{fault}");
    fault.status()
}

/// Carries out what the words ask for, and hands the errors back.
fn run<R: Threads + Wait + Sync, F: Files, I: Read + Drop, O: Write + Drop, E: Write + Drop>(
    rt: &R,
    alloc: Global,
    matches: &ArgMatches<'_>,
    files: &mut F,
    input: I,
    output: O,
    errors: E,
) -> (E, Result<Finding, Fault>) {
    match Task::of(alloc, matches, files) {
        Ok(Some(task)) => carry_out(rt, alloc, task, input, output, errors),
        Ok(None) => (errors, Ok(Finding::Nothing)),
        Err(fault) => (errors, Err(fault)),
    }
}

fn carry_out<R: Threads + Wait + Sync, I: Read + Drop, O: Write + Drop, E: Write + Drop>(
    rt: &R,
    alloc: Global,
    task: Task,
    input: I,
    output: O,
    errors: E,
) -> (E, Result<Finding, Fault>) {
    let mut errors = errors;
    let found = match task {
        Task::Play(shape, tables, explains) => {
            play(alloc, shape, tables, explains, input, output, &mut errors)
        }
        Task::Record(shape, tables) => {
            play_recording(alloc, shape, tables, input, output, &mut errors)
        }
        Task::Trial(setup, number) => one_trial(alloc, &setup, number, input, output, &mut errors),
        Task::Batch(setup, plan) => {
            return batch(rt, alloc, setup, plan, input, output, errors);
        }
        Task::Floor(setup, plan) => race(rt, alloc, &setup, plan, input, output, &mut errors),
        Task::Replay(format) => replay(alloc, format, input, output),
        Task::Move => move_recording(alloc, input, output),
        Task::Show(form, part) => print_recording(alloc, form, part, input, output),
        Task::Tables(tables) => print_tables(alloc, &tables, output),
        Task::Changes(tables) => print_changes(alloc, &tables, output),
        Task::Certify(tables, form) => print_certificate(alloc, &tables, form, output),
        Task::Model(tables, caches) => print_model(alloc, &tables, caches, output),
        Task::Check(tables, bounds) => check(alloc, &tables, bounds, input, output),
    };
    (errors, found)
}
