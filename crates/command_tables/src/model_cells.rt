//! The tables' own cells, a case each.

use crate::model_names::Plain;
use base::controller::{CellEntry, Listed, Side};
use cache_table::{CacheAction, CacheChange, CacheEntry, CacheEvent, CacheState, CacheTable};
use command_output::Printer;
use directory_table::{
    DirectoryAction, DirectoryChange, DirectoryEntry, DirectoryEvent, DirectoryState,
    DirectoryTable,
};
use std::io::Write;

/// Prints at which cells of the caches an event waits, and what the others do.
pub fn print_cache_cells<O: Write + Drop>(table: &CacheTable, printer: &mut Printer<O>) {
    printer.line("function cache_holds(now: cache_state; event: cache_event): boolean;\nbegin");
    for state in CacheState::ALL {
        for event in CacheEvent::ALL {
            if let CellEntry::Stall = table.entry(state, event) {
                print_cache_stall(state, event, printer);
            }
        }
    }
    printer.line("  return false;\nend;\n");
    printer.line(
        "procedure cache_acts(c: cache; now: cache_state; event: cache_event; requestor: cache);\nbegin\n  if false then",
    );
    for state in CacheState::ALL {
        for event in CacheEvent::ALL {
            print_cache_act(state, event, &table.entry(state, event), printer);
        }
    }
    printer.line("  else\n    blank := true;\n  end;\nend;\n");
}

fn print_cache_stall<O: Write + Drop>(
    state: CacheState,
    event: CacheEvent,
    printer: &mut Printer<O>,
) {
    let (state, event) = (Plain(state.name()), Plain(event.name()));
    printer.line(format_args!("  if now = c{state} & event = e{event} then return true; end;"));
}

fn print_cache_act<O: Write + Drop>(
    state: CacheState,
    event: CacheEvent,
    entry: &CacheEntry,
    printer: &mut Printer<O>,
) {
    let CellEntry::Act { next, .. } = entry else {
        return;
    };
    let cell = CacheChange {
        state,
        event,
        entry: *entry,
    };
    printer.line(format_args!("  -- {}", cell.text(Side::Cache)));
    let (from, met) = (Plain(state.name()), Plain(event.name()));
    printer.line(format_args!("  elsif now = c{from} & event = e{met} then"));
    for action in entry.actions() {
        printer.line(format_args!("    {}", cache_action(*action, event)));
    }
    printer.line(format_args!("    state[c] := c{};", Plain(next.name())));
}

/// What a cache does. Only a forward has a requestor, and what needs one does nothing elsewhere.
fn cache_action(action: CacheAction, event: CacheEvent) -> &'static str {
    let has_requestor = matches!(
        event,
        CacheEvent::FwdGetS | CacheEvent::FwdGetM | CacheEvent::Inv
    );
    match action {
        CacheAction::GetS => "add(gets[c]);",
        CacheAction::GetM => "add(getm[c]);",
        CacheAction::PutS => "add(puts[c]);",
        CacheAction::PutM => "add(putm[c][latest[c]]);",
        CacheAction::DataDir => "add(data_to_home[c][latest[c]]);",
        CacheAction::InvAck if has_requestor => "add(inv_ack[c][requestor]);",
        CacheAction::DataReq if has_requestor => "add(data_from_cache[c][requestor][latest[c]]);",
        CacheAction::InvAck | CacheAction::DataReq => "-- (nobody is to be answered)",
    }
}

/// Prints at which cells of the home an event waits, and what the others do.
pub fn print_home_cells<O: Write + Drop>(table: &DirectoryTable, printer: &mut Printer<O>) {
    printer.line("function home_holds(now: home_state; event: home_event): boolean;\nbegin");
    for state in DirectoryState::ALL {
        for event in DirectoryEvent::ALL {
            if let CellEntry::Stall = table.entry(state, event) {
                print_home_stall(state, event, printer);
            }
        }
    }
    printer.line("  return false;\nend;\n");
    printer.line(
        "procedure home_acts(now: home_state; event: home_event; c: cache; value: boolean);\nbegin\n  if false then",
    );
    for state in DirectoryState::ALL {
        for event in DirectoryEvent::ALL {
            print_home_act(state, event, &table.entry(state, event), printer);
        }
    }
    printer.line("  else\n    blank := true;\n  end;\nend;\n");
}

fn print_home_stall<O: Write + Drop>(
    state: DirectoryState,
    event: DirectoryEvent,
    printer: &mut Printer<O>,
) {
    let (state, event) = (Plain(state.name()), Plain(event.name()));
    printer.line(format_args!("  if now = h{state} & event = g{event} then return true; end;"));
}

fn print_home_act<O: Write + Drop>(
    state: DirectoryState,
    event: DirectoryEvent,
    entry: &DirectoryEntry,
    printer: &mut Printer<O>,
) {
    let CellEntry::Act { next, .. } = entry else {
        return;
    };
    let cell = DirectoryChange {
        state,
        event,
        entry: *entry,
    };
    printer.line(format_args!("  -- {}", cell.text(Side::Directory)));
    let (from, met) = (Plain(state.name()), Plain(event.name()));
    printer.line(format_args!("  elsif now = h{from} & event = g{met} then"));
    for action in entry.actions() {
        printer.line(format_args!("    {}", home_action(*action, event)));
    }
    printer.line(format_args!("    home := h{};", Plain(next.name())));
}

/// What a home does. Data has no requestor, and only Data and a PutM have a value.
fn home_action(action: DirectoryAction, event: DirectoryEvent) -> &'static str {
    let has_value = matches!(
        event,
        DirectoryEvent::PutMOwner | DirectoryEvent::PutMNonOwner | DirectoryEvent::Data
    );
    match action {
        DirectoryAction::AddOwner => "add_owner();",
        DirectoryAction::ClearSharers => "clear_sharers();",
        DirectoryAction::ClearOwner => "undefine owner;",
        DirectoryAction::CopyData if has_value => "memory := value;",
        DirectoryAction::CopyData => "-- (no value has come)",
        _ if event == DirectoryEvent::Data => "-- (nobody is to be answered)",
        DirectoryAction::DataReq => "add(data_from_home[c][0][memory]);",
        DirectoryAction::DataAcks => "add(data_from_home[c][others(c)][memory]);",
        DirectoryAction::DataExcl => "add(data_excl[c][memory]);",
        DirectoryAction::InvSharers => "invalidate(c);",
        DirectoryAction::FwdGetS => "forward(FwdGetS, c);",
        DirectoryAction::FwdGetM => "forward(FwdGetM, c);",
        DirectoryAction::PutAck => "push(c, PutAck, c);",
        DirectoryAction::AddReq => "sharers[c] := true;",
        DirectoryAction::RemoveReq => "sharers[c] := false;",
        DirectoryAction::SetOwner => "owner := c;",
    }
}
