use base::controller::MOST_ACTIONS;
use base::text::{Text, cut};
use command_output::Printer;
use std::io::Write;

/// What stands in front of each member of a cell in JSON, between its actions, and behind the last.
#[derive(Clone, Copy)]
pub struct CellSigns {
    event: &'static str,
    entry: &'static str,
    next: &'static str,
    actions: &'static str,
    between: &'static str,
    end: &'static str,
}

/// No blanks, as in objects of one line.
const TIGHT: CellSigns = CellSigns {
    event: "\",\"event\":\"",
    entry: "\",\"entry\":",
    next: "{\"next\":\"",
    actions: "\",\"do\":[",
    between: ",\"",
    end: "]}",
};

/// Blanks, as in files of changed cells.
pub const SPACED: CellSigns = CellSigns {
    event: "\", \"event\": \"",
    entry: "\", \"entry\": ",
    next: "{ \"next\": \"",
    actions: "\", \"do\": [",
    between: ", \"",
    end: "] }",
};

/// Prints a cell, spelled as `msi tables` does it, as an object in JSON as a file of changed cells has it, with the key `side`
/// before the others; and this reason beside it. No word of either is escaped in JSON.
pub fn print_cell_object<O: Write + Drop>(reason: &str, cell: &Text, printer: &mut Printer<O>) {
    printer.bytes(b"{\"reason\":\"");
    printer.bytes(reason.as_bytes());
    let (_, rest) = cut(cell.as_slice());
    let rest = print_member("\",\"cell\":{\"side\":\"", rest, printer);
    printer.bytes(b"\",\"state\":\"");
    print_cell(rest, &TIGHT, printer);
    printer.bytes(b"}}\n");
}

/// Prints state, event and entry of a cell, which is spelled as `msi tables` does it, behind its side.
pub fn print_cell<O: Write + Drop>(
    text: Option<&[u8]>,
    signs: &CellSigns,
    printer: &mut Printer<O>,
) {
    let rest = print_member("", text, printer);
    let rest = print_member(signs.event, rest, printer);
    printer.bytes(signs.entry.as_bytes());
    let (kind, rest) = cut(rest.unwrap_or(b""));
    match rest {
        None => {
            print_member("\"", Some(kind), printer);
            printer.bytes(b"\"");
        }
        Some(rest) => print_act(rest, signs, printer),
    }
}

/// Prints this and the first word of a text, and answers what stands behind it.
fn print_member<'t, O: Write + Drop>(
    front: &str,
    text: Option<&'t [u8]>,
    printer: &mut Printer<O>,
) -> Option<&'t [u8]> {
    let (word, rest) = cut(text.unwrap_or(b""));
    printer.bytes(front.as_bytes());
    printer.bytes(word);
    rest
}

/// Prints the next state and the actions.
fn print_act<O: Write + Drop>(text: &[u8], signs: &CellSigns, printer: &mut Printer<O>) {
    let mut rest = print_member(signs.next, Some(text), printer);
    printer.bytes(signs.actions.as_bytes());
    let mut front = "\"";
    for _ in 0..MOST_ACTIONS {
        if rest.is_none() {
            break;
        }
        rest = print_member(front, rest, printer);
        printer.bytes(b"\"");
        front = signs.between;
    }
    printer.bytes(signs.end.as_bytes());
}
