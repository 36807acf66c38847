use command_output::ViolationObject;
use retelling::{Happening, MetCell, Story, Trip, names_of, put_message};
use sheet::Sheet;

/// Puts what was seen of a step as an object in JSON, whose keys are the same for every step. None of the words that a story
/// has is escaped in JSON.
pub fn put_object(story: &Story, happening: &Happening, changes: &str, sheet: &mut Sheet) {
    sheet.push("{\"entry\":");
    sheet.put(&happening.number);
    sheet.push(",\"seat\":");
    match happening.seat {
        None => sheet.push("null"),
        Some(seat) => sheet.put(&seat),
    }
    sheet.push(",\"step\":\"");
    sheet.put(&happening.step);
    sheet.push("\",\"told\":\"");
    sheet.put(&happening.told);
    sheet.push("\",\"outcome\":\"");
    sheet.put(&happening.outcome);
    sheet.push("\",\"cell\":");
    match happening.cell {
        None => sheet.push("null"),
        Some(cell) => put_cell_object(cell, sheet),
    }
    sheet.push(",\"serves\":");
    put_served(happening, sheet);
    sheet.push(",\"changes\":");
    put_text_or_null(changes, sheet);
    put_sent(story.sent(), sheet);
    put_violation(happening, sheet);
    sheet.push("}");
}

/// Puts a cell as an object, with the message that a delivery found there.
pub fn put_cell_object(cell: MetCell, sheet: &mut Sheet) {
    let (side, state, event) = names_of(cell.place);
    put_string("{\"side\":", side, sheet);
    put_string(",\"state\":", state, sheet);
    put_string(",\"event\":", event, sheet);
    sheet.push(",\"own\":");
    sheet.push(if cell.is_own { "true" } else { "false" });
    sheet.push(",\"message\":");
    match cell.message {
        None => sheet.push("null"),
        Some(message) => {
            sheet.push("\"");
            put_message(message, sheet);
            sheet.push("\"");
        }
    }
    sheet.push("}");
}

/// Puts a key with what stands before it, and a text that needs no escapes.
pub fn put_string(key: &str, text: &str, sheet: &mut Sheet) {
    sheet.push(key);
    sheet.push("\"");
    sheet.push(text);
    sheet.push("\"");
}

fn put_served(happening: &Happening, sheet: &mut Sheet) {
    match happening.served {
        None => sheet.push("null"),
        Some(trip) => {
            sheet.push("\"");
            put_message(trip.message, sheet);
            sheet.push("\"");
        }
    }
}

fn put_text_or_null(text: &str, sheet: &mut Sheet) {
    if text.is_empty() {
        sheet.push("null");
        return;
    }
    sheet.push("\"");
    sheet.push(text);
    sheet.push("\"");
}

fn put_sent(sent: &[Trip], sheet: &mut Sheet) {
    sheet.push(",\"sends\":[");
    let mut before = "\"";
    for trip in sent {
        sheet.push(before);
        put_message(trip.message, sheet);
        sheet.push("\"");
        before = ",\"";
    }
    sheet.push("]");
}

fn put_violation(happening: &Happening, sheet: &mut Sheet) {
    sheet.push(",\"violation\":");
    match happening.violation {
        None => sheet.push("null"),
        Some(violation) => sheet.put(&ViolationObject(violation)),
    }
}
