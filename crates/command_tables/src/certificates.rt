use crate::cells::text_of;
use crate::jamming::jam_from;
use crate::listing::print_pairs;
use crate::objects::print_cell_object;
use crate::refusals::print_refusal;
use crate::schedules::CACHES;
use base::NoMemory;
use certify::{Certificate, Flow, Refusal, Standing, certify, standing_beside, standing_of};
use command_output::{Fault, Finding, Format, Printer};
use std::alloc::Global;
use std::io::Write;
use tables::{CELLS, CellPlace, Tables};

/// What stands behind `unknown`.
const ADVICE: &str =
    "That doesn't say unsafe: make trials, with msi batch, or go through all schedules, with examples/exhaust/run.";

/// How a certificate is printed.
#[derive(Clone, Copy, Debug)]
pub struct CertificateForm {
    pub format: Format,
    /// Whether the pairs of caches follow, where they are closed under the tables.
    pub with_pairs: bool,
}

/// Prints what is proved of tables, with the cells that it is about, and why each cell that isn't the protocol's own may be as
/// it is; and a schedule that gets stuck, where one of those that are known does.
pub fn print_certificate<O: Write + Drop>(
    alloc: Global,
    tables: &Tables,
    form: CertificateForm,
    output: O,
) -> Result<Finding, Fault> {
    let mut printer = Printer::new(alloc, output)?;
    let finding = print_whole(alloc, tables, form, &mut printer);
    printer.finish(finding)
}

fn print_whole<O: Write + Drop>(
    alloc: Global,
    tables: &Tables,
    form: CertificateForm,
    printer: &mut Printer<O>,
) -> Result<Finding, Fault> {
    let finding = print_answer(alloc, tables, form.format, printer)?;
    if form.with_pairs {
        print_pairs(alloc, tables, printer)?;
    }
    Ok(finding)
}

fn print_answer<O: Write + Drop>(
    alloc: Global,
    tables: &Tables,
    format: Format,
    printer: &mut Printer<O>,
) -> Result<Finding, Fault> {
    match certify(alloc, tables) {
        Certificate::NotProved(_, Refusal::NoMemory) => return Err(Fault::NoMemory),
        Certificate::NotProved(cell, refusal) => {
            let jam = jam_from(alloc, tables, None)?;
            print_unknown(tables, cell, &refusal, jam, format, printer);
            return Ok(Finding::Unknown);
        }
        Certificate::ClosedPairs(_, count, flow) => {
            let jam = jam_under(alloc, tables, flow)?;
            print_closed(
                tables,
                count,
                flow_words(flow, jam.is_some()),
                format,
                printer,
            );
            if let Some(steps) = jam {
                print_jam(steps, format, printer);
            }
        }
        Certificate::NeverStuck => {
            print_safe("never stuck", format, printer);
            if format == Format::Plain {
                printer.line("never stuck");
            }
            print_reasons(tables, format, printer);
        }
        Certificate::AsksMayBeHeld(cell) => {
            print_stalled(tables, cell, "asks may be held", format, printer);
        }
        Certificate::MessagesMayGetStuck(cell) => {
            let jam = jam_from(alloc, tables, Some(cell))?;
            let stuck = flow_words(Flow::MessagesMayGetStuck, jam.is_some());
            print_stalled(tables, cell, stuck, format, printer);
            if let Some(steps) = jam {
                print_jam(steps, format, printer);
            }
        }
    }
    Ok(Finding::Nothing)
}

/// Prints that nothing is proved of tables, the first cell that stands against it, what may come about, and steps after which
/// messages are stuck, where some are known.
fn print_unknown<O: Write + Drop>(
    tables: &Tables,
    cell: CellPlace,
    refusal: &Refusal,
    jam: Option<&str>,
    format: Format,
    printer: &mut Printer<O>,
) {
    match (format, jam) {
        (Format::Plain, _) => printer.line("unknown"),
        (Format::Json, None) => printer.line("{\"answer\":\"unknown\",\"stuck\":null}"),
        (Format::Json, Some(_)) => {
            printer.line("{\"answer\":\"unknown\",\"stuck\":\"messages get stuck\"}");
        }
    }
    print_reason(tables, cell, standing_of(tables, cell), format, printer);
    print_refusal(tables, refusal, format, printer);
    if format == Format::Plain {
        printer.line(ADVICE);
    }
    if let Some(steps) = jam {
        print_jam(steps, format, printer);
    }
}

/// What is said of tables under which this much is shown to flow, where steps are known after which messages are stuck, or none are.
pub(crate) fn flow_words(flow: Flow, jams: bool) -> &'static str {
    match flow {
        Flow::NeverStuck => "never stuck",
        Flow::AsksMayBeHeld => "asks may be held",
        Flow::MessagesMayGetStuck if jams => "messages get stuck",
        Flow::MessagesMayGetStuck => "messages may get stuck",
    }
}

/// Steps after which messages are stuck under such tables, where it isn't proved that none ever are, and some are known.
pub(crate) fn jam_under(
    alloc: Global,
    tables: &Tables,
    flow: Flow,
) -> Result<Option<&'static str>, NoMemory> {
    match flow {
        Flow::NeverStuck | Flow::AsksMayBeHeld => Ok(None),
        Flow::MessagesMayGetStuck => jam_from(alloc, tables, None),
    }
}

/// Prints that tables are proved safe by so many pairs of caches, what is said of what may get stuck, and the cells that are so.
fn print_closed<O: Write + Drop>(
    tables: &Tables,
    count: usize,
    stuck: &str,
    format: Format,
    printer: &mut Printer<O>,
) {
    print_safe(stuck, format, printer);
    match format {
        Format::Plain => {
            printer.line(stuck);
            printer.line(format_args!("closed under {count} pairs of caches"));
        }
        Format::Json => printer.line(format_args!("{{\"closed_pairs\":{count}}}")),
    }
    let own = Tables::baseline_of(tables.protocol());
    for number in 0..CELLS {
        if let Some(cell) = CellPlace::at(number) {
            if !matches!(standing_beside(tables, &own, cell), Standing::Own) {
                print_cell(tables, cell, "closed", format, printer);
            }
        }
    }
}

/// Prints that tables are proved safe, and what is known of what may get stuck under them.
fn print_safe<O: Write + Drop>(stuck: &str, format: Format, printer: &mut Printer<O>) {
    match format {
        Format::Plain => printer.line("safe"),
        Format::Json => printer.line(format_args!("{{\"answer\":\"safe\",\"stuck\":\"{stuck}\"}}")),
    }
}

/// Prints the same of tables under which something may get stuck, or does, with the first cell that stands for it.
fn print_stalled<O: Write + Drop>(
    tables: &Tables,
    cell: CellPlace,
    stuck: &str,
    format: Format,
    printer: &mut Printer<O>,
) {
    print_safe(stuck, format, printer);
    print_cell(tables, cell, stuck, format, printer);
    print_reasons(tables, format, printer);
}

/// Prints steps after which messages are stuck.
fn print_jam<O: Write + Drop>(steps: &str, format: Format, printer: &mut Printer<O>) {
    match format {
        Format::Plain => {
            printer.line(format_args!("stuck with {CACHES} caches after:"));
            printer.bytes(steps.as_bytes());
        }
        Format::Json => {
            for (number, step) in steps.lines().enumerate() {
                printer.line(format_args!(
                    "{{\"stuck_caches\":{CACHES},\"entry\":{number},\"step\":\"{step}\"}}"
                ));
            }
        }
    }
}

fn print_reasons<O: Write + Drop>(tables: &Tables, format: Format, printer: &mut Printer<O>) {
    let own = Tables::baseline_of(tables.protocol());
    for number in 0..CELLS {
        if let Some(cell) = CellPlace::at(number) {
            let standing = standing_beside(tables, &own, cell);
            print_reason(tables, cell, standing, format, printer);
        }
    }
}

/// Prints a cell and how it stands, unless it is the protocol's own.
fn print_reason<O: Write + Drop>(
    tables: &Tables,
    cell: CellPlace,
    standing: Standing,
    format: Format,
    printer: &mut Printer<O>,
) {
    let reason = match standing {
        Standing::Own => return,
        Standing::Stall => "stall",
        Standing::NeverMet => "never met",
        Standing::Open => "not proved",
    };
    print_cell(tables, cell, reason, format, printer);
}

fn print_cell<O: Write + Drop>(
    tables: &Tables,
    cell: CellPlace,
    reason: &str,
    format: Format,
    printer: &mut Printer<O>,
) {
    let text = text_of(tables, cell);
    match format {
        Format::Plain => printer.line(format_args!("{reason}: {text}")),
        Format::Json => print_cell_object(reason, &text, printer),
    }
}
