//! Sessions of `msi`, in memory: what comes of each command line, and whether that is what is written.
//!
//! A text has sessions with empty lines between them. A line says by its mark what it is:
//!
//! | Line | What it is |
//! |---|---|
//! | `# TEXT` | what the lines behind it show |
//! | `\| TEXT` | a line of the file `table.json`, which is `{}` where a session has none |
//! | `\|-` | the file `table.json` is the one that a session had last |
//! | `< TEXT` | a line of the input |
//! | `<* N TEXT` | the same line so many times |
//! | `<-` | what the last command line printed, as lines of the input |
//! | `<! KIND` | behind its lines the input fails in this way, as `io::ErrorKind` names it |
//! | `>! N KIND`, `!! N KIND` | the output, or the errors, take so many bytes and then fail in this way |
//! | `>#`, `!#` | of the output, or of the errors, the number of lines is written |
//! | `>-`, `!-` | nothing is written of the output, or of the errors, as where they differ from run to run |
//! | `$ WORD ..` | a command line. All those of a session are given the file and the input that stand before it |
//! | `$! KIND` | one whose words can't be had, for an error of this kind |
//! | `% JOB SEED SIZE` | no command line, but a job, or `all` of them |
//!
//! Behind a command line stands what it came to: each line of its output behind `> `, each of its errors behind `! `, and its exit
//! status behind `= `. A mark with parentheses says what isn't written, as `>(as its input)`, and `>(no LF at the end)` that there
//! is none behind the last line. Behind a job stand the lines that `workloads` prints of it, each behind `> `.
//!
//! In a line of the file or of the input `\r` is a CR and `\t` a tab, and behind a `\` at its end there is no LF. There is also a
//! file `huge.json`, for which there is no memory, and no other one.

use crate::fault::SessionFault;
use crate::jobs::tell_jobs;
use crate::serving::Server;
use crate::session::Session;
use sheet::Sheet;
use std::alloc::Global;
use std::sync::Wait;
use std::thread::Threads;

/// What comes of a text of sessions.
#[derive(Drop)]
pub struct Comparison {
    /// The text, with what came of its command lines in place of what is written there.
    pub completed: Sheet,
    /// Each command line that came to something else than is written, with its place, and both.
    pub differences: Sheet,
    /// How many command lines and jobs there are.
    pub count: usize,
}

/// Serves the command lines of a text of sessions, and compares what each comes to with what is written behind it.
pub fn compare<R: Threads + Wait + Sync, M: Server>(
    rt: &R,
    alloc: Global,
    msi: &M,
    text: &str,
) -> Result<Comparison, SessionFault> {
    let mut course = Progress::new(alloc);
    for (place, line) in text.lines().enumerate() {
        if is_outcome(line) {
            put_marked(&mut course.written, "", line);
        } else {
            course.settle()?;
            course.number = place.saturating_add(1);
            course.take(rt, alloc, msi, line)?;
        }
    }
    course.settle()?;
    Ok(course.found)
}

/// Whether a line is something that a command line came to.
fn is_outcome(line: &str) -> bool {
    matches!(line, ">" | "!")
        || line.starts_with("> ")
        || line.starts_with("! ")
        || line.starts_with("= ")
        || line.starts_with(">(")
        || line.starts_with("!(")
}

fn put_marked(sheet: &mut Sheet, mark: &str, line: &str) {
    sheet.push(mark);
    sheet.push(line);
    sheet.push("\n");
}

/// How far a text is gone through.
#[derive(Drop)]
struct Progress {
    session: Session,
    /// The number of the last line that isn't an outcome, and the line if it was served.
    number: usize,
    served: Sheet,
    /// What came of it, and what is written there.
    came: Sheet,
    written: Sheet,
    found: Comparison,
}

impl Progress {
    fn new(alloc: Global) -> Progress {
        Progress {
            session: Session::new(alloc),
            number: 0,
            served: Sheet::new(alloc),
            came: Sheet::new(alloc),
            written: Sheet::new(alloc),
            found: Comparison {
                completed: Sheet::new(alloc),
                differences: Sheet::new(alloc),
                count: 0,
            },
        }
    }

    /// Compares what came of the last line with what is written there.
    fn settle(&mut self) -> Result<(), SessionFault> {
        let (came, written) = (self.came.text()?, self.written.text()?);
        self.found.completed.push(came);
        if came != written {
            let differences = &mut self.found.differences;
            differences.push("line ");
            differences.put(&self.number);
            put_marked(differences, ": ", self.served.text()?);
            for line in written.lines() {
                put_marked(differences, "- ", line);
            }
            for line in came.lines() {
                put_marked(differences, "+ ", line);
            }
        }
        self.served.clear();
        self.came.clear();
        self.written.clear();
        Ok(())
    }

    /// Goes on with a line that isn't an outcome.
    fn take<R: Threads + Wait + Sync, M: Server>(
        &mut self,
        rt: &R,
        alloc: Global,
        msi: &M,
        line: &str,
    ) -> Result<(), SessionFault> {
        put_marked(&mut self.found.completed, "", line);
        if line.is_empty() {
            self.session.clear();
        } else if line.starts_with('$') {
            self.begin(line);
            let served = self.session.serve(rt, alloc, msi, line, &mut self.came)?;
            served.ok_or(SessionFault::Line(self.number))?;
        } else if let Some(words) = line.strip_prefix("% ") {
            self.begin(line);
            do_jobs(rt, alloc, msi, words, &mut self.came)?;
        } else if !line.starts_with('#') && self.session.read(line).is_none() {
            return Err(SessionFault::Line(self.number));
        }
        Ok(())
    }

    fn begin(&mut self, line: &str) {
        self.served.push(line);
        self.found.count = self.found.count.saturating_add(1);
    }
}

/// Does the jobs that these words name, and tells what `workloads` prints of them.
fn do_jobs<R: Threads + Wait + Sync, M: Server>(
    rt: &R,
    alloc: Global,
    msi: &M,
    words: &str,
    came: &mut Sheet,
) -> Result<(), SessionFault> {
    let (name, numbers) = words.split_once(' ').ok_or(SessionFault::Words)?;
    let (seed, size) = numbers.split_once(' ').ok_or(SessionFault::Words)?;
    let mut told = Sheet::new(alloc);
    tell_jobs(rt, alloc, msi, name, seed, size, &mut told)?;
    for line in told.text()?.lines() {
        put_marked(came, "> ", line);
    }
    Ok(())
}
