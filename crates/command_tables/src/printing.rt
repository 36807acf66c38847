use base::controller::{Listed, Side};
use cache_table::{CacheChange, CacheEvent, CacheState, CacheTable};
use command_output::{Fault, Finding, Printer};
use directory_table::{DirectoryChange, DirectoryEvent, DirectoryState, DirectoryTable};
use std::alloc::Global;
use std::io::Write;
use tables::Tables;

/// Prints all cells that the tables' protocol has: the cache's before the directory's, by state and then by event.
pub fn print_tables<O: Write + Drop>(
    alloc: Global,
    tables: &Tables,
    output: O,
) -> Result<Finding, Fault> {
    let mut printer = Printer::new(alloc, output)?;
    print_cache_cells(&tables.cache, &mut printer);
    print_directory_cells(&tables.directory, &mut printer);
    printer.finish(Ok(Finding::Nothing))
}

fn print_cache_cells<O: Write + Drop>(table: &CacheTable, printer: &mut Printer<O>) {
    let protocol = table.protocol();
    for state in CacheState::ALL {
        for event in CacheEvent::ALL {
            if state.is_in(protocol) && event.is_in(protocol) {
                let cell = CacheChange {
                    state,
                    event,
                    entry: table.entry(state, event),
                };
                printer.line(cell.text(Side::Cache));
            }
        }
    }
}

fn print_directory_cells<O: Write + Drop>(table: &DirectoryTable, printer: &mut Printer<O>) {
    for state in DirectoryState::ALL {
        for event in DirectoryEvent::ALL {
            let cell = DirectoryChange {
                state,
                event,
                entry: table.entry(state, event),
            };
            printer.line(cell.text(Side::Directory));
        }
    }
}
