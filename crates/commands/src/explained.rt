use crate::files::{Files, LoadFault};
use crate::tasks::{bounds, number, protocol, shape};
use clap::ArgMatches;
use command_output::{Fault, MOST_BYTES};
use explaining::{
    Explanation, Quoted, explain_ask, explain_recording, explain_scenario, explain_tables, line_of,
};
use std::alloc::Global;
use std::io;

/// What is known of the streams of a command that has ended.
#[derive(Clone, Copy)]
pub struct Streams<'a> {
    /// What was read of the input, if all of it is kept.
    pub bytes: Option<&'a [u8]>,
    /// Why the input couldn't be read.
    pub input: Option<io::Error>,
    /// Why the output couldn't be written.
    pub output: Option<io::Error>,
}

/// What is wrong, and where, in lines that follow the fault's own. There are none where the fault says it all.
pub fn explanation<F: Files>(
    alloc: Global,
    name: &str,
    options: &ArgMatches<'_>,
    fault: &Fault,
    files: &mut F,
    streams: Streams<'_>,
) -> Explanation {
    match fault {
        Fault::Tables(_) => tables(alloc, options, files),
        Fault::Device => device(alloc, options, files, streams),
        Fault::TooManyTurns => turns(alloc, options),
        Fault::NotAnAsk(_) | Fault::Scenario(_) | Fault::Recording(..) => match streams.bytes {
            Some(bytes) => of_input(alloc, name, options, fault, bytes),
            None => unknown(alloc),
        },
        _ => Explanation::new(alloc),
    }
}

/// What is wrong with the input.
fn of_input(
    alloc: Global,
    name: &str,
    options: &ArgMatches<'_>,
    fault: &Fault,
    bytes: &[u8],
) -> Explanation {
    match fault {
        Fault::NotAnAsk(line) => match shape(options) {
            Ok(shape) => explain_ask(alloc, shape, MOST_BYTES, line_of(bytes, *line as usize)),
            Err(_) => Explanation::new(alloc),
        },
        Fault::Recording(line, refusal) => {
            explain_recording(alloc, bytes, *line, refusal.fault())
        }
        _ => scenario(alloc, name, options, bytes),
    }
}

fn scenario(alloc: Global, name: &str, options: &ArgMatches<'_>, bytes: &[u8]) -> Explanation {
    let shape = if name == "check" {
        bounds(options).widest()
    } else {
        shape(options)
    };
    match shape {
        Ok(shape) => explain_scenario(alloc, shape, bytes),
        Err(_) => Explanation::new(alloc),
    }
}

fn unknown(alloc: Global) -> Explanation {
    let mut told = Explanation::new(alloc);
    told.line(
        "more than 64 MiB were read, or there was no memory for them: nothing more can be said",
    );
    told
}

/// What is wrong with the file of tables, which is loaded again.
fn tables<F: Files>(alloc: Global, options: &ArgMatches<'_>, files: &mut F) -> Explanation {
    let Some(name) = options.get_str("tables") else {
        return Explanation::new(alloc);
    };
    match files.load(name) {
        Ok(bytes) => explain_tables(alloc, protocol(options), bytes.as_slice()),
        Err(_) => Explanation::new(alloc),
    }
}

/// Which device failed: the input, the output, or else the file of tables, which is loaded again.
fn device<F: Files>(
    alloc: Global,
    options: &ArgMatches<'_>,
    files: &mut F,
    streams: Streams<'_>,
) -> Explanation {
    let mut told = Explanation::new(alloc);
    if let Some(error) = streams.input {
        told.line(format_args!("standard input can't be read: {error}"));
    }
    if let Some(error) = streams.output {
        told.line(format_args!("standard output can't be written: {error}"));
    }
    if told.is_empty() {
        tell_file(&mut told, options, files);
    }
    told
}

fn tell_file<F: Files>(told: &mut Explanation, options: &ArgMatches<'_>, files: &mut F) {
    let Some(name) = options.get_str("tables") else {
        return;
    };
    if let Err(LoadFault::Device(error)) = files.load(name) {
        told.line(format_args!(
            "the file {} of --tables can't be read: {error}",
            Quoted(name.as_bytes())
        ));
    }
}

fn turns(alloc: Global, options: &ArgMatches<'_>) -> Explanation {
    let (seats, turns) = (number(options, "seats"), number(options, "turns"));
    let all = u64::from(seats).saturating_mul(u64::from(turns));
    let mut told = Explanation::new(alloc);
    told.line(format_args!(
        "{seats} seats times {turns} turns are {all}, and 1000000 are the most"
    ));
    told
}
