//! Stalls that jam: each is shown by steps after which a message is stuck.

use crate::asserting::same_at;
use base::controller::Protocol;
use cache_table::CacheEntry;
use certify::{Certificate, certify};
use command_output::Format;
use command_tables::{CertificateForm, print_certificate};
use directory_table::DirectoryEntry;
use std::alloc::Global;
use std::process::Abort;
use tables::{CELLS, CellPlace, Tables};

/// Tables with a stall in place of one cell's entry.
pub fn stalled(tables: Tables, cell: CellPlace) -> Tables {
    match cell {
        CellPlace::Cache(state, event) => Tables {
            cache: tables.cache.with(state, event, CacheEntry::Stall),
            directory: tables.directory,
        },
        CellPlace::Directory(state, event) => Tables {
            cache: tables.cache,
            directory: tables.directory.with(state, event, DirectoryEntry::Stall),
        },
    }
}

/// Whether it is shown by steps that messages get stuck under these tables.
fn is_shown(rt: &impl Abort, alloc: Global, tables: &Tables) -> bool {
    let mut output = Vec::new(alloc);
    let form = CertificateForm {
        format: Format::Plain,
        with_pairs: false,
    };
    print_certificate(alloc, tables, form, &mut output).expect(rt, "printed");
    let text = str::from_utf8(output.as_slice()).expect(rt, "a text");
    text.starts_with("safe\nmessages get stuck: cell ")
}

/// Whether a stall in this cell jams. It has to be shown then, and not otherwise.
fn jams(rt: &impl Abort, alloc: Global, protocol: Protocol, cell: CellPlace) -> bool {
    let tables = stalled(Tables::baseline_of(protocol), cell);
    let jams = matches!(certify(alloc, &tables), Certificate::MessagesMayGetStuck(_));
    assert_eq!(rt; is_shown(rt, alloc, &tables), jams, "at {cell:?}");
    jams
}

/// Holds that each stall over a cell that jams is shown, and how many do.
fn are_shown(rt: &impl Abort, alloc: Global, protocol: Protocol, wanted: usize) {
    let mut count = 0usize;
    for number in 0..CELLS {
        if let Some(cell) = CellPlace::at(number)
            && jams(rt, alloc, protocol, cell)
        {
            count = count.saturating_add(1);
        }
    }
    same_at(rt, &count, &wanted, &"stalls that jam");
}

#[test]
fn each_stall_that_jams_is_shown(rt: HostRuntime) {
    are_shown(&rt, rt.alloc(), Protocol::Msi, 34);
    are_shown(&rt, rt.alloc(), Protocol::MsiE, 37);
}
