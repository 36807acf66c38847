ghost use Rattle.std.specs.Prelude.{◌≡◌, [], IsOk, IfOk, OnErr};
ghost use Rattle.network.specs.declared.message.Message.TheVariants as message;
ghost use Rattle.network.specs.declared.message.Response.TheVariants as response;
ghost use Rattle.network.specs.Room.{HasRoomFor, Sends};
ghost use Rattle.control.specs.Acts.{LineActs, MakesRoomAtLine};
ghost use Rattle.control.specs.LineEffect.{line_message, line_messages, line_sends};

use crate::completing::{finish, move_on, settle};
use crate::line::{Line, LineCompletion, LineInput};
use crate::needs::{line_needs, requestor};
use base::{CacheId, NoMemory, Place};
use cache_table::{CacheAction, CacheActions, CacheState};
use network::{Message, Request, RequestKind, Response, Wires};

fn request(kind: RequestKind, from: CacheId) -> Message
    ensures { result ≡ message.Request (record { kind = kind; from = from }) }
{
    Message::Request(Request { kind, from })
}

fn data(from: CacheId, to: Place, value: u64) -> Message
    ensures { result ≡ message.Response (response.Data (Place.Cache from) to value 0) }
{
    Message::Response(Response::Data {
        from: Place::Cache(from),
        to,
        value,
        acks: 0,
    })
}

/// Does one action of a line.
fn send(action: CacheAction, cache: CacheId, value: u64, to: Option<CacheId>, wires: &mut Wires)
    requires { HasRoomFor (line_message cache value to action) wires.old.room }
    ensures { Sends (line_message cache value to action) wires.old wires.new }
{
    match action {
        CacheAction::GetS => wires.place(request(RequestKind::GetS, cache)),
        CacheAction::GetM => wires.place(request(RequestKind::GetM, cache)),
        CacheAction::PutS => wires.place(request(RequestKind::PutS, cache)),
        CacheAction::PutM => wires.place(request(RequestKind::PutM(value), cache)),
        CacheAction::InvAck => {
            if let Some(to) = to {
                wires.place(Message::Response(Response::InvAck { from: cache, to }));
            }
        }
        CacheAction::DataReq => {
            if let Some(to) = to {
                wires.place(data(cache, Place::Cache(to), value));
            }
        }
        CacheAction::DataDir => wires.place(data(cache, Place::Dir, value)),
    }
}

/// Does the actions of a line in order.
fn send_all(
    actions: &[CacheAction],
    cache: CacheId,
    value: u64,
    to: Option<CacheId>,
    wires: &mut Wires,
)
    requires { HasRoomFor (line_messages cache value to actions.now) wires.old.room }
    ensures { Sends (line_messages cache value to actions.now) wires.old wires.new }
{
    for action in actions {
        send(*action, cache, value, to, wires);
    }
}

/// Makes the room that an act of this input at a line wants. Where it is refused nothing else has changed.
#[inline(always)]
pub fn line_reserve(
    input: LineInput,
    actions: CacheActions,
    wires: &mut Wires,
) -> Result<(), NoMemory>
    ensures { MakesRoomAtLine input actions result wires.old wires.new }
{
    // An action sends one request or one response at most, so mostly nothing has to be counted.
    if wires.ends_have_room(actions.len()) {
        return Ok(());
    }
    reserve_by_count(input, actions, wires)
}

/// Makes the room that is counted, where there isn't room for one of each by each action. It is the call of what stands apart, with
/// words of its own (docs/PERFORMANCE.md, "Seldom calls").
#[inline(always)]
fn reserve_by_count(
    input: LineInput,
    actions: CacheActions,
    wires: &mut Wires,
) -> Result<(), NoMemory>
    ensures { MakesRoomAtLine input actions result wires.old wires.new }
{
    reserve_counted(input, actions, wires)
}

/// The same. It stands apart, as few steps come here.
#[cold]
#[inline(never)]
fn reserve_counted(
    input: LineInput,
    actions: CacheActions,
    wires: &mut Wires,
) -> Result<(), NoMemory>
    ensures { MakesRoomAtLine input actions result wires.old wires.new }
{
    let needs = line_needs(input, actions);
    wires.reserve_ends(needs.requests, needs.responses)?;
    Ok(())
}

/// Lets an input act at the line of a cache, where there is room for what it sends. It takes no memory.
#[inline(always)]
pub fn line_perform(
    line: &mut Line,
    cache: CacheId,
    input: LineInput,
    next: CacheState,
    actions: CacheActions,
    wires: &mut Wires,
) -> Option<LineCompletion>
    requires { HasRoomFor (line_sends cache input actions line.old) wires.old.room }
    ensures { LineActs cache input next actions line.old wires.old result line.new wires.new }
{
    move_on(line, input, next);
    send_all(
        actions.as_slice(),
        cache,
        line.value,
        requestor(input),
        wires,
    );
    let done = settle(line, input);
    finish(line, input, done);
    done
}

/// Lets an input act at the line of a cache, by the next state and the actions of its cell, and answers what completes.
///
/// Where memory is refused nothing has changed.
pub fn line_act(
    line: &mut Line,
    cache: CacheId,
    input: LineInput,
    next: CacheState,
    actions: CacheActions,
    wires: &mut Wires,
) -> Result<Option<LineCompletion>, NoMemory>
    ensures ok { IfOk result (λ done. LineActs cache input next actions line.old wires.old done line.new wires.new) }
    ensures err { OnErr result ((line.new ≡ line.old) × Sends [] wires.old wires.new) }
    ensures succeeds { HasRoomFor (line_sends cache input actions line.old) wires.old.room → IsOk result }
{
    line_reserve(input, actions, wires)?;
    Ok(line_perform(line, cache, input, next, actions, wires))
}
