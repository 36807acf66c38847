use crate::digest::Digest;
use crate::fault::SessionFault;
use crate::jobs::{Printed, run};
use crate::output::Output;
use crate::serving::Server;
use std::alloc::Global;
use std::sync::Wait;
use std::thread::Threads;

/// Has `msi` record a trial, replay the recording, and play its steps.
pub fn rerun<R: Threads + Wait + Sync, M: Server>(
    rt: &R,
    alloc: Global,
    msi: &M,
    seed: u32,
    scenario: &str,
    digest: &mut Digest,
) -> Result<(), SessionFault> {
    let line = format!(in alloc;
        "msi trial --caches 4 --blocks 4 --limit 1000000 --seed {seed} --number 0"
    )?;
    let recording = ended_well(run(rt, alloc, msi, line.as_str(), scenario), digest)?;
    let text = recording.text().ok_or(SessionFault::NotAText)?;
    let _ = ended_well(run(rt, alloc, msi, "msi replay", text), digest)?;
    let steps = steps_of(alloc, text)?;
    let line = "msi play --caches 4 --blocks 4";
    let _ = ended_well(run(rt, alloc, msi, line, steps.as_str()), digest)?;
    Ok(())
}

/// The output, where `msi` found no fault. All that it printed is added to the digest.
fn ended_well(printed: Printed, digest: &mut Digest) -> Result<Output, SessionFault> {
    printed.add_to(digest);
    match printed.status {
        0 => Ok(printed.output),
        other => Err(SessionFault::Status(other)),
    }
}

/// The steps of a recording, one a line.
fn steps_of(alloc: Global, text: &str) -> Result<String, SessionFault> {
    let mut steps = String::with_capacity(alloc, text.len())?;
    for line in text.lines() {
        if let Some((step, _)) = line.split_once(" = ") {
            steps.push_str(step)?;
            steps.push('\n')?;
        }
    }
    Ok(steps)
}
