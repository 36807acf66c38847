use base::controller::Listed;
use base::{Ask, BlockId, CacheId, Place};
use control::{Line, may_read};
use directory_table::DirectoryState;
use network::{Forward, ForwardKind, Message, Request, RequestKind, Response};
use sheet::Sheet;
use std::fmt;
use world::World;

/// A controller: `home`, or `cache 3`.
#[derive(Clone, Copy)]
pub struct PlaceText(pub Place);

impl fmt::Display for PlaceText {
    fn fmt<W: fmt::Write>(&self, f: &mut fmt::Formatter<W>) -> fmt::Result {
        match self.0 {
            Place::Dir => f.write_str("home"),
            Place::Cache(cache) => write!(f, "cache {}", cache.0),
        }
    }
}

/// The seat of a step, if it has one, before the step: `by 3 `, as a recording has it.
#[derive(Clone, Copy)]
pub struct SeatText(pub Option<u32>);

impl fmt::Display for SeatText {
    fn fmt<W: fmt::Write>(&self, f: &mut fmt::Formatter<W>) -> fmt::Result {
        match self.0 {
            None => Ok(()),
            Some(seat) => write!(f, "by {seat} "),
        }
    }
}

/// An ask: `load`, `store 7`, `replace`.
#[derive(Clone, Copy)]
pub struct AskText(pub Ask);

impl fmt::Display for AskText {
    fn fmt<W: fmt::Write>(&self, f: &mut fmt::Formatter<W>) -> fmt::Result {
        match self.0 {
            Ask::Load => f.write_str("load"),
            Ask::Store(value) => write!(f, "store {value}"),
            Ask::Replace => f.write_str("replace"),
        }
    }
}

/// A request without its ends: `PutM 7`.
#[derive(Clone, Copy)]
pub struct RequestText(pub Request);

impl fmt::Display for RequestText {
    fn fmt<W: fmt::Write>(&self, f: &mut fmt::Formatter<W>) -> fmt::Result {
        match self.0.kind {
            RequestKind::GetS => f.write_str("GetS"),
            RequestKind::GetM => f.write_str("GetM"),
            RequestKind::PutS => f.write_str("PutS"),
            RequestKind::PutM(value) => write!(f, "PutM {value}"),
        }
    }
}

/// The name of a message to a cache.
pub fn forward_name(kind: ForwardKind) -> &'static str {
    match kind {
        ForwardKind::FwdGetS => "Fwd-GetS",
        ForwardKind::FwdGetM => "Fwd-GetM",
        ForwardKind::Inv => "Inv",
        ForwardKind::PutAck => "Put-Ack",
    }
}

/// Who is to be answered. A Put-Ack is an answer itself.
#[derive(Clone, Copy)]
pub struct RequestorText(pub Forward);

impl fmt::Display for RequestorText {
    fn fmt<W: fmt::Write>(&self, f: &mut fmt::Formatter<W>) -> fmt::Result {
        match self.0.kind {
            ForwardKind::PutAck => Ok(()),
            _ => write!(f, " for {}", self.0.requestor.0),
        }
    }
}

/// How many acknowledgements a Data tells to wait for, if any.
#[derive(Clone, Copy)]
pub struct AcksText(pub u32);

impl fmt::Display for AcksText {
    fn fmt<W: fmt::Write>(&self, f: &mut fmt::Formatter<W>) -> fmt::Result {
        match self.0 {
            0 => Ok(()),
            1 => f.write_str(", 1 ack"),
            acks => write!(f, ", {acks} acks"),
        }
    }
}

/// Puts a message with both its ends: `Fwd-GetS to cache 0 for 1`.
pub fn put_message(message: Message, sheet: &mut Sheet) {
    match message {
        Message::Request(request) => {
            sheet.put(&RequestText(request));
            sheet.push(" to home from cache ");
            sheet.put(&request.from.0);
        }
        Message::Forward(to, forward) => {
            sheet.push(forward_name(forward.kind));
            sheet.push(" to cache ");
            sheet.put(&to.0);
            sheet.put(&RequestorText(forward));
        }
        Message::Response(response) => put_response(response, sheet),
    }
}

fn put_response(response: Response, sheet: &mut Sheet) {
    match response {
        Response::Data {
            from,
            to,
            value,
            acks,
        } => {
            sheet.push("Data ");
            sheet.put(&value);
            put_ends(to, from, sheet);
            sheet.put(&AcksText(acks));
        }
        Response::InvAck { from, to } => {
            sheet.push("Inv-Ack");
            put_ends(Place::Cache(to), Place::Cache(from), sheet);
        }
        Response::DataExcl { to, value } => {
            sheet.push("Data ");
            sheet.put(&value);
            put_ends(Place::Cache(to), Place::Dir, sheet);
            sheet.push(", exclusive");
        }
    }
}

fn put_ends(to: Place, from: Place, sheet: &mut Sheet) {
    sheet.push(" to ");
    sheet.put(&PlaceText(to));
    sheet.push(" from ");
    sheet.put(&PlaceText(from));
}

/// Puts a line, with the state that it has left behind it where that is another one: `cache 0: IS^D > S, value 7`.
pub fn put_line(cache: CacheId, before: Line, line: Line, sheet: &mut Sheet) {
    sheet.put(&PlaceText(Place::Cache(cache)));
    sheet.push(": ");
    put_states(before.state.name(), line.state.name(), sheet);
    if may_read(line.state) || line.value != before.value {
        sheet.push(", value ");
        sheet.put(&line.value);
    }
    if line.acks != 0 {
        sheet.push(", acks ");
        sheet.put(&line.acks);
    }
    if let Some(ask) = line.pending {
        sheet.push(", pending ");
        sheet.put(&AskText(ask));
    }
}

fn put_states(before: &str, after: &str, sheet: &mut Sheet) {
    if before.as_bytes() != after.as_bytes() {
        sheet.push(before);
        sheet.push(" > ");
    }
    sheet.push(after);
}

/// Puts the state and the owner of a home, with the state that it has left behind it where that is another one.
pub fn put_home(
    before: DirectoryState,
    after: DirectoryState,
    owner: Option<CacheId>,
    sheet: &mut Sheet,
) {
    sheet.push("home: ");
    put_states(before.name(), after.name(), sheet);
    sheet.push(", owner ");
    match owner {
        None => sheet.push("none"),
        Some(owner) => sheet.put(&owner.0),
    }
}

/// Puts a home's sharers and its memory.
pub fn put_holdings(world: &World, block: BlockId, memory: u64, sheet: &mut Sheet) {
    sheet.push(", sharers");
    let mut has_none = true;
    for number in 0..world.shape().caches() {
        if world.shares(CacheId(number), block) {
            sheet.push(" ");
            sheet.put(&number);
            has_none = false;
        }
    }
    if has_none {
        sheet.push(" none");
    }
    sheet.push(", memory ");
    sheet.put(&memory);
}
