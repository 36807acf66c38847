//! `msi`: plays, tries out and replays a directory MSI protocol. Here are the program's words, its files and its streams.
#![tactic(auto)]

mod disk;

use commands::serve;
use disk::Disk;
use std::process::ExitCode;
use std::{env, io};

/// The words of the command line, the program's name first.
fn words(rt: &HostRuntime) -> io::Result<Vec<String>> {
    let mut words = Vec::new(rt.alloc());
    for word in env::args(rt)? {
        words.push(word)?;
    }
    Ok(words)
}

fn main(rt: HostRuntime) -> ExitCode {
    let words = words(&rt);
    let mut disk = Disk::new(&rt);
    let code = serve(
        &rt,
        rt.alloc(),
        &words,
        &mut disk,
        rt.stdin(),
        rt.stdout(),
        rt.stderr(),
    );
    ExitCode::from(code)
}
