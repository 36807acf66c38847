ghost use Rattle.std.specs.Prelude.{◌≡◌};
ghost use Rattle.control.specs.LineEvents.{ask_event, response_event, event_at_line};

use crate::line::{Line, LineInput};
use base::{Ask, Place};
use cache_table::CacheEvent;
use network::{ForwardKind, Response};

/// The event that an ask of a core is.
pub fn line_ask_event(ask: Ask) -> CacheEvent
    ensures { result ≡ ask_event ask }
{
    match ask {
        Ask::Load => CacheEvent::Load,
        Ask::Store(_) => CacheEvent::Store,
        Ask::Replace => CacheEvent::Replacement,
    }
}

/// The event that an input is at a line.
///
/// Data from the home is the event with no acks where the line's acks and the Data's sum up to 0.
/// An Inv-Ack is the last one where it is the only one that the line still waits for.
pub fn line_event(line: &Line, input: LineInput) -> CacheEvent
    ensures { result ≡ event_at_line line.now.acks input }
{
    match input {
        LineInput::Ask(ask) => line_ask_event(ask),
        LineInput::Forward(forward) => match forward.kind {
            ForwardKind::FwdGetS => CacheEvent::FwdGetS,
            ForwardKind::FwdGetM => CacheEvent::FwdGetM,
            ForwardKind::Inv => CacheEvent::Inv,
            ForwardKind::PutAck => CacheEvent::PutAck,
        },
        LineInput::Response(response) => response_event_at(line.acks, response),
    }
}

fn response_event_at(acks: i64, response: Response) -> CacheEvent
    ensures { result ≡ response_event acks response }
{
    match response {
        Response::Data {
            from: Place::Cache(_),
            to: _,
            value: _,
            acks: _,
        } => CacheEvent::DataOwner,
        Response::Data {
            from: Place::Dir,
            to: _,
            value: _,
            acks: more,
        } => {
            if acks.saturating_add(more as i64) == 0 {
                CacheEvent::DataDirZero
            } else {
                CacheEvent::DataDirMore
            }
        }
        Response::InvAck { from: _, to: _ } => {
            if acks == 1 {
                CacheEvent::LastInvAck
            } else {
                CacheEvent::InvAck
            }
        }
        Response::DataExcl { to: _, value: _ } => CacheEvent::DataDirExcl,
    }
}
