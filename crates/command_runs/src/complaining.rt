use command_output::{Fault, Finding, InputLines, MOST_BYTES};
use explaining::explain_step;
use std::alloc::Global;
use std::io::{Read, Write};

/// What becomes of lines that aren't steps: the first is a fault, or each is told of, with what is wrong with it.
pub struct Complaints<'a, E> {
    alloc: Global,
    explains: bool,
    errors: &'a mut E,
    are_some: bool,
}

impl<E> Drop for Complaints<'_, E> {
    fn drop(self) {
        let Complaints {
            alloc: _,
            explains: _,
            errors: _,
            are_some: _,
        } = self;
    }
}

impl<'a, E: Write> Complaints<'a, E> {
    /// No line was refused yet. Where `explains` is set they are told of on the errors.
    pub fn new(alloc: Global, explains: bool, errors: &'a mut E) -> Complaints<'a, E> {
        Complaints {
            alloc,
            explains,
            errors,
            are_some: false,
        }
    }

    /// Refuses a line, and passes what of it wasn't read.
    pub fn refuse<I: Read + Drop>(&mut self, input: &mut InputLines<I>) -> Result<(), Fault> {
        let fault = Fault::NotAStep(input.number());
        if !self.explains {
            return Err(fault);
        }
        self.are_some = true;
        self.tell(fault, input.line());
        input.pass()
    }

    fn tell(&mut self, fault: Fault, line: &[u8]) {
        let _ = writeln!(self.errors, "{fault}");
        let told = explain_step(self.alloc, MOST_BYTES, line);
        if let Ok(text) = told.text() {
            let _ = write!(self.errors, "{text}");
        }
        let _ = self.errors.flush();
    }

    /// What was found, but for lines that were refused, where there were some.
    pub fn or(&self, found: Finding) -> Finding {
        if self.are_some {
            return Finding::Refused;
        }
        found
    }
}
