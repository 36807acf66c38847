use crate::objects::{put_cell_object, put_string};
use base::BlockId;
use base::controller::Listed;
use retelling::{AskText, CellText, MetCell, Trip, Waiting, put_message};
use sheet::Sheet;

/// Puts what waits where nothing can go on, a line each, behind a line that says so.
pub fn put_end(waiting: &[Waiting], sheet: &mut Sheet) {
    if !waiting.is_empty() {
        sheet.push("stuck\n");
    }
    for item in waiting {
        match *item {
            Waiting::Held(trip, cell) => put_held(trip, cell, sheet),
            Waiting::Behind(trip) => {
                put_block(trip.block, "behind another: ", sheet);
                put_message(trip.message, sheet);
            }
            Waiting::Pending {
                cache,
                block,
                ask,
                state,
            } => {
                put_block(block, "pending: ", sheet);
                sheet.put(&AskText(ask));
                sheet.push(" of cache ");
                sheet.put(&cache.0);
                sheet.push(", in ");
                sheet.push(state.name());
            }
        }
        sheet.push("\n");
    }
}

fn put_held(trip: Trip, cell: MetCell, sheet: &mut Sheet) {
    put_block(trip.block, "held: ", sheet);
    put_message(trip.message, sheet);
    sheet.push(", by cell ");
    sheet.put(&CellText(cell.place));
    if !cell.is_own {
        sheet.push(" *");
    }
}

/// Begins a line about a block.
fn put_block(block: BlockId, what: &str, sheet: &mut Sheet) {
    sheet.push("block ");
    sheet.put(&block.0);
    sheet.push(" ");
    sheet.push(what);
}

/// Puts what waits where nothing can go on, as an object in JSON each.
pub fn put_end_objects(waiting: &[Waiting], sheet: &mut Sheet) {
    for item in waiting {
        match *item {
            Waiting::Held(trip, cell) => {
                put_message_object("{\"waits\":\"held\"", trip, sheet);
                sheet.push(",\"cell\":");
                put_cell_object(cell, sheet);
            }
            Waiting::Behind(trip) => {
                put_message_object("{\"waits\":\"behind another\"", trip, sheet);
            }
            Waiting::Pending {
                cache,
                block,
                ask,
                state,
            } => {
                sheet.push("{\"waits\":\"pending\",\"block\":");
                sheet.put(&block.0);
                sheet.push(",\"cache\":");
                sheet.put(&cache.0);
                sheet.push(",\"ask\":\"");
                sheet.put(&AskText(ask));
                put_string("\",\"state\":", state.name(), sheet);
            }
        }
        sheet.push("}\n");
    }
}

fn put_message_object(front: &str, trip: Trip, sheet: &mut Sheet) {
    sheet.push(front);
    sheet.push(",\"block\":");
    sheet.put(&trip.block.0);
    sheet.push(",\"message\":\"");
    put_message(trip.message, sheet);
    sheet.push("\",\"sent\":");
    sheet.put(&trip.sent);
}
