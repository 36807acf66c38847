//! `msi` in memory: the jobs that users of `msi` wait for, over inputs that a seed makes, which `bench/run` times; and
//! sessions of `msi`, which `rt ci` compares with what has to come of them.
//!
//! `workloads JOB SEED SIZE` does one job, and `workloads all SEED SIZE` does each of them. It prints a digest of all
//! that `msi` prints there. `workloads sessions` goes through the files of sessions that its standard input names, a line
//! each, and prints how many command lines each has, and what came to something else than is written there
//! (`comparing.rt` of the crate `transcripts` tells how they are written). `workloads completed FILE` prints such a file
//! with what comes of its command lines now.
#![tactic(auto)]

mod files;
mod serving;

use serving::Msi;
use sheet::Sheet;
use std::alloc::Global;
use std::process::ExitCode;
use std::sync::Wait;
use std::thread::Threads;
use std::{env, fs, io, rt};
use transcripts::{Comparison, SessionFault, compare, tell_jobs};

/// The words of the command line, the program's name first.
fn words(rt: &HostRuntime) -> io::Result<Vec<String>> {
    let mut words = Vec::new(rt.alloc());
    for word in env::args(rt)? {
        words.push(word)?;
    }
    Ok(words)
}

/// What standard input has, where the words ask for sessions.
fn given(rt: &HostRuntime, words: &io::Result<Vec<String>>) -> Option<io::Result<String>> {
    match words {
        Ok(words) if matches!(words.as_slice(), [_, word] if word.as_str() == "sessions") => {
            Some(io::read_to_string(rt.alloc(), rt.stdin()))
        }
        _ => None,
    }
}

/// Goes through the sessions, or else does what the words name, and tells what that comes to.
fn work<R: Threads + Wait + Sync + rt::Files + AllocGlobal>(
    rt: &R,
    alloc: Global,
    words: &io::Result<Vec<String>>,
    input: &Option<io::Result<String>>,
    told: &mut Sheet,
) -> Result<(), SessionFault> {
    match (input, words) {
        (Some(Ok(names)), _) => compare_all(rt, alloc, names.as_str(), told),
        (Some(Err(_)), _) | (None, Err(_)) => Err(SessionFault::Device),
        (None, Ok(words)) => match words.as_slice() {
            [_, word, file] if word.as_str() == "completed" => {
                told.push(comparison_of(rt, alloc, file.as_str())?.completed.text()?);
                Ok(())
            }
            [_, name, seed, size] => {
                let (name, seed, size) = (name.as_str(), seed.as_str(), size.as_str());
                tell_jobs(rt, alloc, &Msi, name, seed, size, told)
            }
            _ => Err(SessionFault::Words),
        },
    }
}

/// Goes through the files of sessions of these names, a line each, and tells what isn't as it is written.
fn compare_all<R: Threads + Wait + Sync + rt::Files + AllocGlobal>(
    rt: &R,
    alloc: Global,
    names: &str,
    told: &mut Sheet,
) -> Result<(), SessionFault> {
    let mut differs = false;
    for name in names.lines() {
        let found = comparison_of(rt, alloc, name)?;
        let count = found.count;
        let differences = found.differences.text()?;
        told.push(name);
        told.push(": ");
        told.put(&count);
        told.push(match count {
            1 => " command line\n",
            _ => " command lines\n",
        });
        told.push(differences);
        differs = differs || !differences.is_empty();
    }
    if differs {
        return Err(SessionFault::Differs);
    }
    Ok(())
}

/// What comes of a file of sessions.
fn comparison_of<R: Threads + Wait + Sync + rt::Files + AllocGlobal>(
    rt: &R,
    alloc: Global,
    name: &str,
) -> Result<Comparison, SessionFault> {
    let bytes = fs::read(rt, name).map_err(|_| SessionFault::File)?;
    let text = str::from_utf8(bytes.as_slice()).map_err(|_| SessionFault::File)?;
    compare(rt, alloc, &Msi, text)
}

/// Prints what was told.
fn print(rt: &HostRuntime, told: &Sheet) -> Result<(), SessionFault> {
    let text = told.text()?;
    match print!(rt; "{text}") {
        Ok(()) => Ok(()),
        Err(_) => Err(SessionFault::Device),
    }
}

fn main(rt: HostRuntime) -> ExitCode {
    let words = words(&rt);
    let input = given(&rt, &words);
    let mut told = Sheet::new(rt.alloc());
    let done = work(&rt, rt.alloc(), &words, &input, &mut told);
    match print(&rt, &told).and(done) {
        Ok(()) => ExitCode::SUCCESS,
        Err(fault) => {
            let _ = eprintln!(rt; "workloads: {fault}");
            ExitCode::FAILURE
        }
    }
}
