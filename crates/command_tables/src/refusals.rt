//! Why no closed list of pairs of caches is known, in words.

use crate::cells::text_of;
use crate::objects::print_cell_object;
use crate::sides::{HomeText, SideText};
use base::controller::CellEntry;
use cache_table::CacheEvent;
use certify::Refusal;
use command_output::{Format, Printer};
use directory_table::DirectoryEvent;
use network::ForwardKind;
use pairs::{Lag, Owned, Pair, Rule};
use std::io::Write;
use tables::{CellPlace, Tables};

/// What is told of a pair that stands against tables.
#[derive(Clone, Copy)]
struct Obstacle {
    what: &'static str,
    /// The cell that is met.
    cell: Option<CellPlace>,
    pair: Option<Pair>,
}

/// Prints what may come about under tables, or what can't be followed: the cell that is met, and the pair of caches.
pub(crate) fn print_refusal<O: Write + Drop>(
    tables: &Tables,
    refusal: &Refusal,
    format: Format,
    printer: &mut Printer<O>,
) {
    let obstacle = obstacle_of(tables, refusal);
    print_what(tables, &obstacle, format, printer);
    if let Some(pair) = &obstacle.pair {
        print_pair(pair, format, printer);
    }
}

fn obstacle_of(tables: &Tables, refusal: &Refusal) -> Obstacle {
    let (what, cell, pair) = match refusal {
        Refusal::NoMemory => ("no memory", None, None),
        Refusal::NotClosed => ("the pairs aren't closed", None, None),
        Refusal::TooMany => ("more pairs of caches than are followed", None, None),
        Refusal::Crowded(pair) => ("too many messages", None, Some(*pair)),
        Refusal::TwoHolders(pair) => { ("a writer may stand beside a reader", None, Some(*pair)) }
        Refusal::Lost(pair, rule) => ("not followed", Some(met(pair, *rule)), Some(*pair)),
        Refusal::Spoilt(pair, rule) => {
            let cell = met(pair, *rule);
            let what = if is_blank(tables, cell) {
                "a blank cell may be met"
            } else {
                "a load may return an old value"
            };
            (what, Some(cell), Some(*pair))
        }
        Refusal::AtHome(pair) => {
            let cell = CellPlace::Directory(pair.shared.home, DirectoryEvent::Data);
            let what = if is_blank(tables, cell) {
                "a blank cell may be met"
            } else {
                "not followed"
            };
            (what, Some(cell), Some(*pair))
        }
    };
    Obstacle { what, cell, pair }
}

fn is_blank(tables: &Tables, cell: CellPlace) -> bool {
    match cell {
        CellPlace::Cache(state, event) => {
            matches!(tables.cache.entry(state, event), CellEntry::Blank)
        }
        CellPlace::Directory(state, event) => {
            matches!(tables.directory.entry(state, event), CellEntry::Blank)
        }
    }
}

/// The cell that the first cache of a pair comes to by a rule.
fn met(pair: &Pair, rule: Rule) -> CellPlace {
    let (line, home) = (&pair.first, pair.shared.home);
    let event = match rule {
        Rule::SentGetS => return CellPlace::Directory(home, DirectoryEvent::GetS),
        Rule::SentGetM => return CellPlace::Directory(home, DirectoryEvent::GetM),
        Rule::SentPutS if line.shares && !line.others => {
            return CellPlace::Directory(home, DirectoryEvent::PutSLast);
        }
        Rule::SentPutS => return CellPlace::Directory(home, DirectoryEvent::PutSNotLast),
        Rule::SentPutM => {
            let event = match line.owned {
                Owned::ByItself => DirectoryEvent::PutMOwner,
                _ => DirectoryEvent::PutMNonOwner,
            };
            return CellPlace::Directory(home, event);
        }
        Rule::AsksLoad => CacheEvent::Load,
        Rule::AsksStore => CacheEvent::Store,
        Rule::AsksReplacement => CacheEvent::Replacement,
        Rule::TakesHead => head_event(pair),
        Rule::GetsDirData => match line.lag.acks_awaited(line.owed) {
            Some(Lag::Level) => CacheEvent::DataDirZero,
            // Where it isn't known how many are awaited, either may come.
            Some(Lag::Behind | Lag::Ahead) | None => CacheEvent::DataDirMore,
        },
        Rule::GetsOwnerData => CacheEvent::DataOwner,
        Rule::GetsExclData => CacheEvent::DataDirExcl,
        Rule::GetsInvAck { last: true, .. } => CacheEvent::LastInvAck,
        Rule::GetsInvAck { last: false, .. } => CacheEvent::InvAck,
    };
    CellPlace::Cache(line.state, event)
}

/// What the head of the first cache's link is at its line.
fn head_event(pair: &Pair) -> CacheEvent {
    match pair.first.link.head().map(|place| place.kind) {
        Some(ForwardKind::FwdGetS) => CacheEvent::FwdGetS,
        Some(ForwardKind::FwdGetM) => CacheEvent::FwdGetM,
        Some(ForwardKind::Inv) => CacheEvent::Inv,
        Some(ForwardKind::PutAck) | None => CacheEvent::PutAck,
    }
}

fn print_what<O: Write + Drop>(
    tables: &Tables,
    obstacle: &Obstacle,
    format: Format,
    printer: &mut Printer<O>,
) {
    let what = obstacle.what;
    match (format, obstacle.cell) {
        (Format::Plain, None) => printer.line(what),
        (Format::Plain, Some(cell)) => {
            printer.line(format_args!("{what}: {}", text_of(tables, cell)));
        }
        (Format::Json, None) => {
            printer.line(format_args!("{{\"reason\":\"{what}\",\"cell\":null}}"));
        }
        (Format::Json, Some(cell)) => print_cell_object(what, &text_of(tables, cell), printer),
    }
}

fn print_pair<O: Write + Drop>(pair: &Pair, format: Format, printer: &mut Printer<O>) {
    let (first, second) = (SideText::of_first(pair), SideText::of_second(pair));
    let home = HomeText(pair.shared);
    match format {
        Format::Plain => {
            printer.line(format_args!("cache A: {first}"));
            printer.line(format_args!("cache B: {second}"));
            printer.line(format_args!("home: {home}"));
        }
        Format::Json => printer.line(format_args!(
            "{{\"cache_a\":\"{first}\",\"cache_b\":\"{second}\",\"home\":\"{home}\"}}"
        )),
    }
}
