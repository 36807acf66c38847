//! The changed cells of tables, which are read again as they are printed.

use crate::asserting::{same, same_at};
use crate::jams::stalled;
use base::controller::Protocol;
use command_tables::print_changes;
use std::alloc::Global;
use std::process::Abort;
use tables::{CELLS, CellPlace, Tables};

/// What is printed of the changed cells of these tables.
fn printed(rt: &impl Abort, alloc: Global, tables: &Tables) -> Vec<u8> {
    let mut output = Vec::new(alloc);
    print_changes(alloc, tables, &mut output).expect(rt, "printed");
    output
}

/// Holds that tables come of what is printed of them.
fn are_read_again(rt: &impl Abort, alloc: Global, tables: &Tables) {
    let text = printed(rt, alloc, tables);
    let found = Tables::from_json_of(alloc, tables.protocol(), text.as_slice());
    same(rt, &found, &Ok(*tables));
}

#[test]
fn a_stall_in_each_cell(rt: HostRuntime) {
    for protocol in [Protocol::Msi, Protocol::MsiE] {
        let mut all = Tables::baseline_of(protocol);
        for number in 0..CELLS {
            if let Some(cell) = CellPlace::at(number) {
                are_read_again(&rt, rt.alloc(), &stalled(all, cell));
                all = stalled(all, cell);
            }
        }
    }
}

/// Overrides, and what is printed of them.
const CHANGES: [(&str, &str); 4] = [
    ("{}", "{}\n"),
    (
        r#"{"cache":[{"state":"IS^D","event":"Inv","entry":"stall"}]}"#,
        "{}\n",
    ),
    (
        r#"{"directory":[{"state":"S^D","event":"Data","entry":{"next":"S","do":[]}}]}"#,
        "{\n  \"directory\": [\n    { \"state\": \"S^D\", \"event\": \"Data\", \"entry\": { \"next\": \"S\", \"do\": [] } }\n  ]\n}\n",
    ),
    (
        r#"{"cache":[{"state":"I","event":"Inv","entry":{"do":["gets","gets","gets","gets","puts","puts","puts","inv-ack"],"next":"M"}}]}"#,
        "{\n  \"cache\": [\n    { \"state\": \"I\", \"event\": \"Inv\", \"entry\": { \"next\": \"M\", \"do\": [\"gets\", \"gets\", \"gets\", \"gets\", \"puts\", \"puts\", \"puts\", \"inv-ack\"] } }\n  ]\n}\n",
    ),
];

#[test]
fn what_is_printed_of_changes(rt: HostRuntime) {
    for (text, wanted) in &CHANGES {
        let tables = Tables::from_json(rt.alloc(), text.as_bytes()).expect(&rt, "tables");
        let found = printed(&rt, rt.alloc(), &tables);
        same_at(&rt, &str::from_utf8(found.as_slice()), &Ok(*wanted), &text);
        are_read_again(&rt, rt.alloc(), &tables);
    }
}
