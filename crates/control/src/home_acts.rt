ghost use Rattle.std.specs.Prelude.{◌≡◌, ◌<◌, ℕ, [], IsOk, MatchResult, Some, true, length};
ghost use Rattle.network.specs.Room.{HasRoomFor, Sends};
ghost use Rattle.control.specs.Acts.{HasFlagsAndLinks, HomeActs};
ghost use Rattle.control.specs.HomeEffect.{sender_of, brought_by, data_message, exclusive_message, link_message, invalidation, invalidations, owner_message};
ghost use Rattle.control.specs.HomeEffect.{home_message, home_changed, home_messages, home_moved, home_sends};
ghost use Rattle.control.specs.Homes.{IsBelow, NamesBelow};
ghost use Rattle.control.specs.Sharing.{shares};

use crate::home::{Home, HomeInput};
use crate::home_room::home_reserve;
use crate::sharers::Sharers;
use base::{CacheId, NoMemory, Place};
use directory_table::{DirectoryAction, DirectoryActions, DirectoryState};
use network::{Forward, ForwardKind, Message, RequestKind, Response, Wires};

fn sender(input: HomeInput) -> Option<CacheId>
    ensures { result ≡ sender_of input }
{
    match input {
        HomeInput::Request(request) => Some(request.from),
        HomeInput::Data(_) => None,
    }
}

fn brought(input: HomeInput) -> Option<u64>
    ensures { result ≡ brought_by input }
{
    match input {
        HomeInput::Data(value) => Some(value),
        HomeInput::Request(request) => match request.kind {
            RequestKind::PutM(value) => Some(value),
            RequestKind::GetS | RequestKind::GetM | RequestKind::PutS => None,
        },
    }
}

fn data(to: CacheId, value: u64, acks: u32) -> Message
    ensures { result ≡ data_message to value acks }
{
    Message::Response(Response::Data {
        from: Place::Dir,
        to: Place::Cache(to),
        value,
        acks,
    })
}

fn exclusive(to: CacheId, value: u64) -> Message
    ensures { result ≡ exclusive_message to value }
{
    Message::Response(Response::DataExcl { to, value })
}

fn on_link(to: CacheId, kind: ForwardKind, requestor: CacheId) -> Message
    ensures { result ≡ link_message to kind requestor }
{
    Message::Forward(to, Forward { kind, requestor })
}

/// Sends an invalidation to each sharer but the requestor.
fn invalidate(sharers: &Sharers, requestor: CacheId, wires: &mut Wires)
    requires links { (k : ℕ) → shares sharers.now k ≡ true → k < length wires.old.traffic.links }
    requires room { HasRoomFor (invalidations requestor 0 sharers.now) wires.old.room }
    ensures { Sends (invalidations requestor 0 sharers.now) wires.old wires.new }
{
    // No cache has the largest number, so the number after a sharer's fits.
    let caches = sharers.caches();
    let mut from = 0;
    while from < caches {
        let Some(cache) = sharers.next(from) else {
            return;
        };
        invalidate_one(cache, true, requestor, wires);
        from = cache.0 + 1;
    }
}

/// Sends an invalidation to a cache, if it is a sharer and not the requestor.
fn invalidate_one(cache: CacheId, sharer: bool, requestor: CacheId, wires: &mut Wires)
    requires link { sharer ≡ true → cache.0 < length wires.old.traffic.links }
    requires room { HasRoomFor (invalidation requestor cache sharer) wires.old.room }
    ensures { Sends (invalidation requestor cache sharer) wires.old wires.new }
{
    if sharer && cache != requestor {
        wires.place(on_link(cache, ForwardKind::Inv, requestor));
    }
}

/// Sends a forward to the owner, if there is one.
fn to_owner(owner: Option<CacheId>, kind: ForwardKind, requestor: CacheId, wires: &mut Wires)
    requires owner { IsBelow owner (length wires.old.traffic.links) }
    requires room { HasRoomFor (owner_message owner kind requestor) wires.old.room }
    ensures { Sends (owner_message owner kind requestor) wires.old wires.new }
{
    if let Some(owner) = owner {
        wires.place(on_link(owner, kind, requestor));
    }
}

/// Sends what one action of a home sends on a request.
fn send(home: &Home, action: DirectoryAction, to: CacheId, wires: &mut Wires)
    requires links { NamesBelow (length wires.old.traffic.links) home.now }
    requires sender { to.0 < length wires.old.traffic.links }
    requires room { HasRoomFor (home_message (Some to) action home.now) wires.old.room }
    ensures { Sends (home_message (Some to) action home.now) wires.old wires.new }
{
    match action {
        DirectoryAction::DataReq => wires.place(data(to, home.memory, 0)),
        DirectoryAction::DataAcks => {
            wires.place(data(to, home.memory, home.sharers.others(to)));
        }
        DirectoryAction::DataExcl => wires.place(exclusive(to, home.memory)),
        DirectoryAction::InvSharers => invalidate(&home.sharers, to, wires),
        DirectoryAction::FwdGetS => to_owner(home.owner, ForwardKind::FwdGetS, to, wires),
        DirectoryAction::FwdGetM => to_owner(home.owner, ForwardKind::FwdGetM, to, wires),
        DirectoryAction::PutAck => wires.place(on_link(to, ForwardKind::PutAck, to)),
        _ => {}
    }
}

/// Changes a home as one action does.
fn change(home: &mut Home, action: DirectoryAction, from: Option<CacheId>, value: Option<u64>)
    requires owner { IsBelow home.old.owner (length home.old.sharers) }
    requires sender { IsBelow from (length home.old.sharers) }
    ensures { home.new ≡ home_changed from value action home.old }
{
    match action {
        DirectoryAction::AddReq => {
            if let Some(from) = from {
                home.sharers.add(from);
            }
        }
        DirectoryAction::RemoveReq => {
            if let Some(from) = from {
                home.sharers.remove(from);
            }
        }
        DirectoryAction::SetOwner => {
            if let Some(from) = from {
                home.owner = Some(from);
            }
        }
        DirectoryAction::AddOwner => {
            if let Some(owner) = home.owner {
                home.sharers.add(owner);
            }
        }
        DirectoryAction::ClearSharers => home.sharers.clear(),
        DirectoryAction::ClearOwner => home.owner = None,
        DirectoryAction::CopyData => {
            if let Some(value) = value {
                home.memory = value;
            }
        }
        _ => {}
    }
}

/// Does the actions of a home in order, each of what the ones before it left.
fn perform_all(
    home: &mut Home,
    actions: &[DirectoryAction],
    from: Option<CacheId>,
    value: Option<u64>,
    wires: &mut Wires,
)
    requires named { HasFlagsAndLinks from home.old wires.old }
    requires room { HasRoomFor (home_messages from value actions.now home.old) wires.old.room }
    ensures home { home.new ≡ home_moved from value actions.now home.old }
    ensures sent { Sends (home_messages from value actions.now home.old) wires.old wires.new }
{
    for action in actions {
        perform(home, *action, from, value, wires);
    }
}

/// Does one action of a home.
fn perform(
    home: &mut Home,
    action: DirectoryAction,
    from: Option<CacheId>,
    value: Option<u64>,
    wires: &mut Wires,
)
    requires named { HasFlagsAndLinks from home.old wires.old }
    requires room { HasRoomFor (home_message from action home.old) wires.old.room }
    ensures home { home.new ≡ home_changed from value action home.old }
    ensures sent { Sends (home_message from action home.old) wires.old wires.new }
{
    if let Some(to) = from {
        send(home, action, to, wires);
    }
    change(home, action, from, value);
}

/// Lets an input act at a home, where there is room for what it sends. It takes no memory.
///
/// Each cache that the home or the input names has a flag at the home and a link.
pub fn home_perform(
    home: &mut Home,
    input: HomeInput,
    next: DirectoryState,
    actions: DirectoryActions,
    wires: &mut Wires,
)
    requires named { HasFlagsAndLinks (sender_of input) home.old wires.old }
    requires room { HasRoomFor (home_sends input actions home.old) wires.old.room }
    ensures { HomeActs input next actions home.old wires.old home.new wires.new }
{
    perform_all(
        home,
        actions.as_slice(),
        sender(input),
        brought(input),
        wires,
    );
    home.state = next;
}

/// Lets an input act at a home, by the next state and the actions of its cell.
///
/// Each cache that the home or the input names has a flag at the home and a link.
/// Where memory is refused nothing has changed.
pub fn home_act(
    home: &mut Home,
    input: HomeInput,
    next: DirectoryState,
    actions: DirectoryActions,
    wires: &mut Wires,
) -> Result<(), NoMemory>
    requires { HasFlagsAndLinks (sender_of input) home.old wires.old }
    ensures acted { MatchResult result (λ _. HomeActs input next actions home.old wires.old home.new wires.new)
        (λ _. (home.new ≡ home.old) × Sends [] wires.old wires.new) }
    ensures succeeds { HasRoomFor (home_sends input actions home.old) wires.old.room → IsOk result }
{
    home_reserve(home, input, actions, wires)?;
    home_perform(home, input, next, actions, wires);
    Ok(())
}
