use crate::model_cells::{print_cache_cells, print_home_cells};
use crate::model_names::{Plain, print_names};
use crate::model_texts::{
    COMPLETING, EXCLUSIVE_MOVE, EXCLUSIVE_STEP, HEAD, INVARIANTS, MORE_STEPS, STATE, STEPS,
};
use base::controller::{Listed, Protocol};
use cache_table::CacheState;
use command_output::{Fault, Finding, Printer};
use control::{may_read, may_write};
use std::alloc::Global;
use std::io::Write;
use tables::Tables;

/// The most caches of a model. More have more states than a checker can keep.
pub const MOST_CACHES: u32 = 8;

/// How many messages that are alike a wire of a model holds, and how many a link does.
const ROOM: u32 = 4;

/// Prints these tables as a model of one block with so many caches, 1 to 8, in Murphi.
pub fn print_model<O: Write + Drop>(
    alloc: Global,
    tables: &Tables,
    caches: u32,
    output: O,
) -> Result<Finding, Fault> {
    let mut printer = Printer::new(alloc, output)?;
    print_types(tables.protocol(), caches, &mut printer);
    printer.bytes(STATE.as_bytes());
    print_looks(tables.protocol(), &mut printer);
    printer.bytes(COMPLETING.as_bytes());
    print_cache_cells(&tables.cache, &mut printer);
    print_home_cells(&tables.directory, &mut printer);
    print_steps(tables.protocol(), &mut printer);
    printer.finish(Ok(Finding::Nothing))
}

fn print_types<O: Write + Drop>(protocol: Protocol, caches: u32, printer: &mut Printer<O>) {
    printer.line(format_args!(
        "-- One block of {} with {caches} caches, as msi has it, in Murphi for rumur.",
        protocol.name(),
    ));
    printer.bytes(HEAD.as_bytes());
    printer.line(format_args!("const\n  CACHES: {caches};"));
    printer.line(
        "  -- how many messages that are alike may be on their way at once, and how many forwards on a link",
    );
    printer.line(format_args!(
        "  ROOM: {ROOM};\n  ACKS: ROOM + CACHES;\n\ntype\n  cache: scalarset(CACHES);"
    ));
    print_names(protocol, printer);
}

/// Prints in which states a line may be read, and in which no other may.
fn print_looks<O: Write + Drop>(protocol: Protocol, printer: &mut Printer<O>) {
    printer.line("function reads(now: cache_state): boolean;\nbegin");
    for state in CacheState::ALL {
        if state.is_in(protocol) && may_read(state) {
            print_yes(state, printer);
        }
    }
    printer.line("  return false;\nend;\n\nfunction writes(now: cache_state): boolean;\nbegin");
    for state in CacheState::ALL {
        if state.is_in(protocol) && may_write(state) {
            print_yes(state, printer);
        }
    }
    printer.line("  return false;\nend;\n");
}

fn print_yes<O: Write + Drop>(state: CacheState, printer: &mut Printer<O>) {
    let name = Plain(state.name());
    printer.line(format_args!("  if now = c{name} then return true; end;"));
}

fn print_steps<O: Write + Drop>(protocol: Protocol, printer: &mut Printer<O>) {
    let has_exclusive = protocol == Protocol::MsiE;
    printer.bytes(STEPS.as_bytes());
    if has_exclusive {
        printer.bytes(EXCLUSIVE_STEP.as_bytes());
    }
    printer.bytes(MORE_STEPS.as_bytes());
    if has_exclusive {
        printer.bytes(EXCLUSIVE_MOVE.as_bytes());
    }
    printer.bytes(INVARIANTS.as_bytes());
}
