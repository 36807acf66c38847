use crate::escapes::put_line;
use crate::fault::SessionFault;
use crate::kinds::kind_of;
use crate::output::{Output, Telling};
use crate::serving::{Server, serve_line, words_of};
use crate::streams::Input;
use sheet::Sheet;
use std::alloc::Global;
use std::io;
use std::sync::Wait;
use std::thread::Threads;

/// What the command lines of a session are given.
#[derive(Drop)]
struct SessionInput {
    /// The text of the file `table.json` that was told last.
    table: Sheet,
    /// Whether it is told in this session.
    has_table: bool,
    input: Sheet,
    input_fault: Option<io::ErrorKind>,
}

impl SessionInput {
    fn new(alloc: Global) -> SessionInput {
        SessionInput {
            table: Sheet::new(alloc),
            has_table: false,
            input: Sheet::new(alloc),
            input_fault: None,
        }
    }

    /// Forgets all but the text of the file.
    fn clear(&mut self) {
        self.has_table = false;
        self.input.clear();
        self.input_fault = None;
    }

    fn put_table_line(&mut self, line: &str) -> Option<()> {
        if !self.has_table {
            self.table.clear();
            self.has_table = true;
        }
        put_line(&mut self.table, line)
    }

    /// Adds a line of the input so many times, as `N TEXT` says.
    fn put_repeated(&mut self, words: &str) -> Option<()> {
        let (count, line) = words.split_once(' ')?;
        for _ in 0..count.parse::<usize>().ok()? {
            put_line(&mut self.input, line)?;
        }
        Some(())
    }

    /// The text of the file `table.json`.
    fn table(&self) -> Result<&str, SessionFault> {
        if self.has_table {
            return Ok(self.table.text()?);
        }
        Ok("{}")
    }

    fn input(&self) -> Result<Input<'_>, SessionFault> {
        Ok(Input {
            bytes: self.input.text()?.as_bytes(),
            fault: self.input_fault,
        })
    }
}

/// What command lines are given, and what the last one printed.
#[derive(Drop)]
pub struct Session {
    given: SessionInput,
    output: Output,
    errors: Output,
}

impl Session {
    /// One whose command lines are given nothing.
    pub fn new(alloc: Global) -> Session {
        Session {
            given: SessionInput::new(alloc),
            output: Output::new(alloc),
            errors: Output::new(alloc),
        }
    }

    /// Forgets what its command lines are given, but not what the last of them printed, nor the text of the file.
    pub fn clear(&mut self) {
        self.given.clear();
        self.output.open();
        self.errors.open();
    }

    /// Reads a line that says what command lines are given. `None` where it doesn't.
    pub fn read(&mut self, line: &str) -> Option<()> {
        let (mark, words) = line.split_once(' ').unwrap_or((line, ""));
        match mark {
            "|" => self.given.put_table_line(words)?,
            "|-" => self.given.has_table = true,
            "<" => put_line(&mut self.given.input, words)?,
            "<*" => self.given.put_repeated(words)?,
            "<-" => self.given.input.push(self.output.text()?),
            "<!" => self.given.input_fault = Some(kind_of(words)?),
            _ => return self.read_ends(mark, words),
        }
        Some(())
    }

    /// Reads a line about an output. `None` where it isn't one.
    fn read_ends(&mut self, mark: &str, words: &str) -> Option<()> {
        match mark {
            ">!" => self.output.narrow(words)?,
            "!!" => self.errors.narrow(words)?,
            ">#" => self.output.show(Telling::Count),
            "!#" => self.errors.show(Telling::Count),
            ">-" => self.output.show(Telling::Nothing),
            "!-" => self.errors.show(Telling::Nothing),
            _ => return None,
        }
        Some(())
    }

    /// Serves a command line, and tells what it came to. `None` where it isn't one.
    pub fn serve<R: Threads + Wait + Sync, M: Server>(
        &mut self,
        rt: &R,
        alloc: Global,
        msi: &M,
        line: &str,
        told: &mut Sheet,
    ) -> Result<Option<()>, SessionFault> {
        let Some(words) = words_behind(alloc, line) else {
            return Ok(None);
        };
        let status = serve_line(
            rt,
            alloc,
            msi,
            &words,
            self.given.table()?,
            self.given.input()?,
            &mut self.output,
            &mut self.errors,
        );
        self.output.tell(told, ">", self.given.input.text()?)?;
        self.errors.tell(told, "!", "")?;
        told.push("= ");
        told.put(&status);
        told.push("\n");
        Ok(Some(()))
    }
}

/// The words of a command line behind its mark, or why they can't be had. `None` where it isn't one.
fn words_behind(alloc: Global, line: &str) -> Option<io::Result<Vec<String>>> {
    match line.split_once(' ').unwrap_or((line, "")) {
        ("$", words) => Some(words_of(alloc, words)),
        ("$!", name) => Some(Err(io::Error::from(kind_of(name)?))),
        _ => None,
    }
}
