use command_output::Fault;
use std::io::Write;

/// An output whose first fault is noted: nothing more is written from then on, and the fault is told at the end.
#[derive(Drop)]
pub struct NotingOutput<'o, W: Write> {
    inner: &'o mut W,
    fault: Option<Fault>,
}

impl<'o, W: Write> NotingOutput<'o, W> {
    pub fn new(inner: &'o mut W) -> NotingOutput<'o, W> {
        NotingOutput { inner, fault: None }
    }

    pub fn put(&mut self, bytes: &[u8]) {
        if self.fault.is_none() {
            if let Err(error) = self.inner.write_all(bytes) {
                self.fault = Some(Fault::from(error));
            }
        }
    }

    /// Notes a fault, as if a write had had it.
    pub fn fail(&mut self, fault: Fault) {
        if self.fault.is_none() {
            self.fault = Some(fault);
        }
    }

    /// The fault that was noted.
    pub fn fault(&self) -> Option<Fault> {
        self.fault
    }
}
