use crate::digest::Digest;
use crate::fault::SessionFault;
use crate::inputs::{all_asks, late_loads, racing_pair, shared_asks, some_asks};
use crate::output::Output;
use crate::rerun::rerun;
use crate::serving::{Server, serve_line, words_of};
use crate::streams::Input;
use sheet::Sheet;
use std::alloc::Global;
use std::sync::Wait;
use std::thread::Threads;

/// What a run of the program does.
#[derive(Clone, Copy)]
pub enum Workload {
    /// So many trials of a pair of cores that race for one block.
    Races,
    /// Trials of four cores at four blocks, each core so many turns of any ask.
    Mixed,
    /// Trials of 64 of 1,024 caches at few of 4,096 blocks, each core so many turns.
    Sparse,
    /// Sixty trials of 64 of 1,024 caches that share 200 of 4,096 blocks, each core so many turns.
    Shared,
    /// Trials of 64 cores that all want one block, so many turns each.
    Hot,
    /// So many trials under a table of which a cell was changed, and which breaks.
    Faulty,
    /// One long trial that is recorded, its recording replayed, and its steps played.
    Rerun,
}

/// The changed cells of the faulty table: an invalidation that comes before the data is answered, and then forgotten.
const FAULTY: &str =
    r#"{"cache":[{"state":"IS^D","event":"Inv","entry":{"next":"IS^D","do":["inv-ack"]}}]}"#;

impl Workload {
    pub const ALL: [Workload; 7] = [
        Workload::Races,
        Workload::Mixed,
        Workload::Sparse,
        Workload::Shared,
        Workload::Hot,
        Workload::Faulty,
        Workload::Rerun,
    ];

    pub fn of_name(name: &str) -> Option<Workload> {
        match name {
            "races" => Some(Workload::Races),
            "mixed" => Some(Workload::Mixed),
            "sparse" => Some(Workload::Sparse),
            "shared" => Some(Workload::Shared),
            "hot" => Some(Workload::Hot),
            "faulty" => Some(Workload::Faulty),
            "rerun" => Some(Workload::Rerun),
            _ => None,
        }
    }

    pub fn name(self) -> &'static str {
        match self {
            Workload::Races => "races",
            Workload::Mixed => "mixed",
            Workload::Sparse => "sparse",
            Workload::Shared => "shared",
            Workload::Hot => "hot",
            Workload::Faulty => "faulty",
            Workload::Rerun => "rerun",
        }
    }

    /// The scenario that it tries.
    fn put_scenario(self, sheet: &mut Sheet, seed: u32, size: u32) {
        match self {
            Workload::Races => racing_pair(sheet, seed),
            Workload::Mixed | Workload::Rerun => all_asks(sheet, 4, 4, size, seed),
            Workload::Sparse => some_asks(sheet, 1024, 4096, size, seed),
            Workload::Shared => shared_asks(sheet, 1024, size, seed),
            Workload::Hot => all_asks(sheet, 64, 1, size, seed),
            Workload::Faulty => late_loads(sheet, seed),
        }
    }

    /// The options of `msi` that it is tried with.
    fn options(self) -> &'static str {
        match self {
            Workload::Races => "--caches 2 --limit 1000",
            Workload::Mixed | Workload::Rerun => "--caches 4 --blocks 4 --limit 1000000",
            Workload::Sparse | Workload::Shared => "--caches 1024 --blocks 4096 --limit 1000000",
            Workload::Hot => "--caches 64 --limit 1000000",
            Workload::Faulty => "--caches 4 --limit 1000 --tables table.json",
        }
    }

    /// How many trials it makes.
    fn trials(self, size: u32) -> u32 {
        match self {
            Workload::Races | Workload::Faulty => size,
            Workload::Mixed | Workload::Sparse | Workload::Hot => 4,
            Workload::Shared => 60,
            Workload::Rerun => 1,
        }
    }
}

/// Does a job, or all of them, and tells the name and the digest of each.
pub fn tell_jobs<R: Threads + Wait + Sync, M: Server>(
    rt: &R,
    alloc: Global,
    msi: &M,
    name: &str,
    seed: &str,
    size: &str,
    told: &mut Sheet,
) -> Result<(), SessionFault> {
    let (Ok(seed), Ok(size)) = (seed.parse::<u32>(), size.parse::<u32>()) else {
        return Err(SessionFault::Words);
    };
    if name != "all" {
        let job = Workload::of_name(name).ok_or(SessionFault::Words)?;
        return tell_job(rt, alloc, msi, job, seed, size, told);
    }
    for job in Workload::ALL {
        tell_job(rt, alloc, msi, job, seed, size, told)?;
    }
    Ok(())
}

fn tell_job<R: Threads + Wait + Sync, M: Server>(
    rt: &R,
    alloc: Global,
    msi: &M,
    job: Workload,
    seed: u32,
    size: u32,
    told: &mut Sheet,
) -> Result<(), SessionFault> {
    let digest = digest_of(rt, alloc, msi, job, seed, size)?;
    told.push(job.name());
    told.push(" ");
    told.put(&digest);
    told.push("\n");
    Ok(())
}

/// Does a job, and answers the digest of all that `msi` prints there.
fn digest_of<R: Threads + Wait + Sync, M: Server>(
    rt: &R,
    alloc: Global,
    msi: &M,
    job: Workload,
    seed: u32,
    size: u32,
) -> Result<Digest, SessionFault> {
    let mut sheet = Sheet::new(alloc);
    job.put_scenario(&mut sheet, seed, size);
    let scenario = sheet.text()?;
    let mut digest = Digest::new();
    match job {
        Workload::Rerun => rerun(rt, alloc, msi, seed, scenario, &mut digest)?,
        other => batch(
            rt,
            alloc,
            msi,
            other.options(),
            other.trials(size),
            seed,
            scenario,
            &mut digest,
        )?,
    }
    Ok(digest)
}

/// Has `msi batch` make so many trials of a scenario.
fn batch<R: Threads + Wait + Sync, M: Server>(
    rt: &R,
    alloc: Global,
    msi: &M,
    options: &str,
    trials: u32,
    seed: u32,
    scenario: &str,
    digest: &mut Digest,
) -> Result<(), SessionFault> {
    let line = format!(in alloc; "msi batch {options} --seed {seed} --trials {trials}")?;
    let printed = run(rt, alloc, msi, line.as_str(), scenario);
    printed.add_to(digest);
    match printed.status {
        0 | 1 => Ok(()),
        other => Err(SessionFault::Status(other)),
    }
}

/// What a command line came to: its exit status, and what it printed.
#[derive(Drop)]
pub struct Printed {
    pub status: u8,
    pub output: Output,
    errors: Output,
}

impl Printed {
    pub fn add_to(&self, digest: &mut Digest) {
        digest.add_run(self.status, self.output.bytes(), self.errors.bytes());
    }
}

/// What a command line comes to over this input, where the file `table.json` has the faulty table.
pub fn run<R: Threads + Wait + Sync, M: Server>(
    rt: &R,
    alloc: Global,
    msi: &M,
    line: &str,
    input: &str,
) -> Printed {
    let mut output = Output::new(alloc);
    let mut errors = Output::new(alloc);
    let words = words_of(alloc, line);
    let input = Input {
        bytes: input.as_bytes(),
        fault: None,
    };
    let status = serve_line(
        rt,
        alloc,
        msi,
        &words,
        FAULTY,
        input,
        &mut output,
        &mut errors,
    );
    Printed {
        status,
        output,
        errors,
    }
}
