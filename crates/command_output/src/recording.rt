use crate::fault::Fault;
use crate::finding::Finding;
use crate::printing::Printer;
use base::ToWrite;
use record::Recording;
use std::alloc::Global;
use std::io::Write;

/// Prints a recording.
pub fn print_whole<O: Write + Drop>(
    alloc: Global,
    recording: &Recording,
    output: O,
) -> Result<(), Fault> {
    let mut printer = Printer::new(alloc, output)?;
    match recording.write(&mut ToWrite::new(printer.output())) {
        Ok(()) => match printer.finish(Ok(Finding::Nothing)) {
            Ok(_) => Ok(()),
            Err(fault) => Err(fault),
        },
        Err(fault) => Err(Fault::from(fault)),
    }
}
