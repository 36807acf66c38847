//! The changed cells of tables, as JSON that `--tables` reads.

use crate::cells::text_of;
use crate::objects::{SPACED, print_cell};
use base::controller::Side;
use base::text::cut;
use certify::{Standing, standing_beside};
use command_output::{Fault, Finding, Printer};
use std::alloc::Global;
use std::io::Write;
use tables::{CELLS, CellPlace, Tables};

/// What stands in front of the first cell, between two of one side, and between the last of a cache and the first of the home.
const FRONT: &str = "{\n";

const BETWEEN: &str = ",\n";

const NEXT_SIDE: &str = "\n  ],\n";

/// What stands behind the last cell, and what stands there where none is changed.
const END: &str = "\n  ]\n}\n";

const NO_CHANGES: &str = "{}\n";

/// Prints the cells that aren't the protocol's own, in their order, as a file of changed cells has them.
pub fn print_changes<O: Write + Drop>(
    alloc: Global,
    tables: &Tables,
    output: O,
) -> Result<Finding, Fault> {
    let mut printer = Printer::new(alloc, output)?;
    let own = Tables::baseline_of(tables.protocol());
    let mut before: Option<Side> = None;
    for number in 0..CELLS {
        let Some(cell) = CellPlace::at(number) else {
            continue;
        };
        if !matches!(standing_beside(tables, &own, cell), Standing::Own) {
            print_front(before, side_of(cell), &mut printer);
            print_change(text_of(tables, cell).as_slice(), &mut printer);
            before = Some(side_of(cell));
        }
    }
    print_end(before, &mut printer);
    printer.finish(Ok(Finding::Nothing))
}

fn side_of(cell: CellPlace) -> Side {
    match cell {
        CellPlace::Cache(..) => Side::Cache,
        CellPlace::Directory(..) => Side::Directory,
    }
}

/// Prints what stands between the cell before, if there is one, and one of a side.
fn print_front<O: Write + Drop>(before: Option<Side>, side: Side, printer: &mut Printer<O>) {
    let is_new = match before {
        None => {
            printer.bytes(FRONT.as_bytes());
            true
        }
        Some(before) if before == side => {
            printer.bytes(BETWEEN.as_bytes());
            false
        }
        Some(_) => {
            printer.bytes(NEXT_SIDE.as_bytes());
            true
        }
    };
    if is_new {
        let key: &str = match side {
            Side::Cache => "cache",
            Side::Directory => "directory",
        };
        printer.line(format_args!("  \"{key}\": ["));
    }
}

fn print_end<O: Write + Drop>(before: Option<Side>, printer: &mut Printer<O>) {
    let end = if before.is_some() { END } else { NO_CHANGES };
    printer.bytes(end.as_bytes());
}

/// Prints a cell, which is spelled as `msi tables` does it. No word of it is escaped in JSON.
fn print_change<O: Write + Drop>(cell: &[u8], printer: &mut Printer<O>) {
    let (_, rest) = cut(cell);
    let (_, rest) = cut(rest.unwrap_or(b""));
    printer.bytes(b"    { \"state\": \"");
    print_cell(rest, &SPACED, printer);
    printer.bytes(b" }");
}
