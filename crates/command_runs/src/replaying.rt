use base::FromRead;
use command_output::{Fault, Finding, Format, Printer, ViolationObject};
use replays::{ReplayFault, TextFault, TextReplayed, replay_text};
use std::alloc::Global;
use std::io::{Read, Write};

/// Reads a recording from the input and makes its steps again meanwhile, and prints whether they had the outcomes that it
/// tells, and the first violation.
pub fn replay<I: Read + Drop, O: Write + Drop>(
    alloc: Global,
    format: Format,
    input: I,
    output: O,
) -> Result<Finding, Fault> {
    let found = match replay_text(alloc, &mut FromRead::new(input)) {
        Ok(replayed) => Ok(replayed),
        Err(TextFault::Replay(fault)) => Err(fault),
        Err(TextFault::Read(fault)) => return Err(Fault::from(fault)),
    };
    print_replayed(alloc, format, found, output)
}

fn print_replayed<O: Write + Drop>(
    alloc: Global,
    format: Format,
    found: Result<TextReplayed, ReplayFault>,
    output: O,
) -> Result<Finding, Fault> {
    let mut printer = Printer::new(alloc, output)?;
    let finding = match found {
        Ok(replayed) => print_same(replayed, format, &mut printer),
        Err(ReplayFault::Differs { entry, told, found }) => {
            match format {
                Format::Plain => {
                    printer.line(format_args!("differs {entry} told {told} found {found}"));
                }
                Format::Json => printer.line(format_args!(
                    "{{\"result\":\"differs\",\"entry\":{entry},\"told\":\"{told}\",\"found\":\"{found}\"}}"
                )),
            }
            Finding::Difference
        }
        Err(ReplayFault::NoMemory) => return Err(Fault::NoMemory),
    };
    printer.finish(Ok(finding))
}

fn print_same<O: Write + Drop>(
    replayed: TextReplayed,
    format: Format,
    printer: &mut Printer<O>,
) -> Finding {
    let TextReplayed { entries, violation } = replayed;
    match format {
        Format::Plain => printer.line(format_args!("same {entries}")),
        Format::Json => {
            printer.line(format_args!("{{\"result\":\"same\",\"entries\":{entries}}}"));
        }
    }
    let Some((entry, violation)) = violation else {
        return Finding::Nothing;
    };
    match format {
        Format::Plain => printer.line(format_args!("violation {entry} {violation}")),
        Format::Json => printer.line(format_args!(
            "{{\"result\":\"violation\",\"entry\":{entry},\"violation\":{}}}",
            ViolationObject(violation)
        )),
    }
    Finding::Violation
}
