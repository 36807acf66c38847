use crate::tabling::{TableLayout, show};
use base::FromRead;
use charts::{ChartFault, MOST_ROWS, chart};
use command_output::{Fault, Finding, Printer};
use record::Recording;
use retelling::{Excerpt, Shown};
use std::alloc::Global;
use std::io::{Read, Write};

/// How a recording is shown.
#[derive(Clone, Copy, Debug, PartialEq, Eq)]
pub enum ShownForm {
    /// A table, with its lines laid out so.
    Table(TableLayout),
    /// A message sequence chart.
    Chart,
}

/// Reads a recording from the input, and prints a part of it in this form.
pub fn print_recording<I: Read + Drop, O: Write + Drop>(
    alloc: Global,
    form: ShownForm,
    part: Excerpt,
    input: I,
    output: O,
) -> Result<Finding, Fault> {
    let recording = Recording::read(alloc, &mut FromRead::new(input))?;
    print_part(alloc, form, &recording, part, output)
}

fn print_part<O: Write + Drop>(
    alloc: Global,
    form: ShownForm,
    recording: &Recording,
    part: Excerpt,
    output: O,
) -> Result<Finding, Fault> {
    let mut printer = Printer::new(alloc, output)?;
    match write_part(alloc, form, recording, part, printer.output()) {
        Ok(shown) => printer.finish(Ok(finding(shown))),
        Err(fault) => Err(fault),
    }
}

fn write_part<W: Write>(
    alloc: Global,
    form: ShownForm,
    recording: &Recording,
    part: Excerpt,
    output: &mut W,
) -> Result<Shown, Fault> {
    match form {
        ShownForm::Table(layout) => show(alloc, recording, part, layout, output),
        ShownForm::Chart => chart(alloc, recording, part, output).map_err(not_drawn),
    }
}

/// Why there is no chart.
fn not_drawn(fault: ChartFault) -> Fault {
    match fault {
        ChartFault::TooManySteps(count) => Fault::TooManySteps(count, MOST_ROWS),
        ChartFault::Device => Fault::Device,
        ChartFault::NoMemory => Fault::NoMemory,
    }
}

fn finding(shown: Shown) -> Finding {
    if shown.difference {
        return Finding::Difference;
    }
    if shown.violation {
        return Finding::Violation;
    }
    Finding::Nothing
}
