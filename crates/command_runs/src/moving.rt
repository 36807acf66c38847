use base::{FromRead, ToWrite};
use command_output::{Fault, Finding, Printer};
use record::move_text;
use std::alloc::Global;
use std::io::{Read, Write};

/// Reads a recording of either version from the input, and writes it in version 2.
pub fn move_recording<I: Read + Drop, O: Write + Drop>(
    alloc: Global,
    input: I,
    output: O,
) -> Result<Finding, Fault> {
    let mut printer = Printer::new(alloc, output)?;
    let moved = move_text(
        alloc,
        &mut FromRead::new(input),
        &mut ToWrite::new(printer.output()),
    );
    match moved {
        Ok(()) => printer.finish(Ok(Finding::Nothing)),
        Err(fault) => Err(Fault::from(fault)),
    }
}
