ghost use Rattle.std.specs.Prelude.{◌≡◌, length};
ghost use Rattle.control.specs.HomeEffect.{sender_of};
ghost use Rattle.control.specs.Homes.{IsBelow, NamesBelow};

use crate::asserting::{same, same_at};
use base::{Ask, CacheId, Place};
use cache_table::{CacheAction, CacheActions, CacheEvent, CacheState};
use control::{
    Home, HomeInput, Line, LineCompletion, LineInput, Needs, home_act, home_event, home_needs,
    home_reserve, line_act, line_ask_event, line_completion, line_event, line_needs, line_reserve,
};
use directory_table::{DirectoryAction, DirectoryActions, DirectoryEvent, DirectoryState};
use network::{Forward, ForwardKind, Request, RequestKind, Response, Wires};
use std::alloc::Global;
use std::process::Abort;

const FIRST: CacheId = CacheId(0);

const SECOND: CacheId = CacheId(1);

fn data(from: Place, acks: u32) -> LineInput {
    LineInput::Response(Response::Data {
        from,
        to: Place::Cache(FIRST),
        value: 3,
        acks,
    })
}

fn request(kind: RequestKind, from: CacheId) -> HomeInput
    ensures { result ≡ HomeInput.Request (record { kind = kind; from = from }) }
{
    HomeInput::Request(Request { kind, from })
}

/// Reserves what an act at a line needs, and acts. By the contracts of the calls the act can't fail.
fn line_act_as_needed(
    rt: &impl Abort,
    line: &mut Line,
    input: LineInput,
    next: CacheState,
    actions: CacheActions,
    wires: &mut Wires,
) -> Option<LineCompletion> {
    let needs = line_needs(input, actions);
    wires
        .reserve(needs.requests, &[], needs.responses)
        .expect(rt, "memory");
    match line_act(line, FIRST, input, next, actions, wires) {
        Ok(done) => done,
        Err(_) => unreachable!(),
    }
}

/// The same at a home, with a list for the links that the act needs.
fn home_act_as_needed(
    rt: &impl Abort,
    links: &mut Vec<CacheId>,
    home: &mut Home,
    input: HomeInput,
    next: DirectoryState,
    actions: DirectoryActions,
    wires: &mut Wires,
)
    requires flags { NamesBelow (length home.old.sharers) home.old }
    requires links { NamesBelow (length wires.old.traffic.links) home.old }
    requires sender_flag { IsBelow (sender_of input) (length home.old.sharers) }
    requires sender_link { IsBelow (sender_of input) (length wires.old.traffic.links) }
    ensures flags { NamesBelow (length home.new.sharers) home.new }
    ensures links { NamesBelow (length wires.new.traffic.links) home.new }
    ensures flag_count { length home.new.sharers ≡ length home.old.sharers }
    ensures link_count { length wires.new.traffic.links ≡ length wires.old.traffic.links }
{
    let needs = home_needs(home, input, actions, links).expect(rt, "memory");
    wires
        .reserve(needs.requests, links.as_slice(), needs.responses)
        .expect(rt, "memory");
    if let Err(_) = home_act(home, input, next, actions, wires) {
        unreachable!();
    }
}

/// Compares the event of what comes to a line that has got so many acks.
fn comes_as(rt: &impl Abort, acks: i64, input: LineInput, event: CacheEvent) {
    let mut line = Line::opened();
    line.acks = acks;
    same_at(rt, &line_event(&line, input), &event, &(acks, input));
}

#[test]
fn events_at_a_line(rt: HostRuntime) {
    let ack = LineInput::Response(Response::InvAck {
        from: SECOND,
        to: FIRST,
    });
    let inv = LineInput::Forward(Forward {
        kind: ForwardKind::Inv,
        requestor: SECOND,
    });
    same(&rt, &line_ask_event(Ask::Replace), &CacheEvent::Replacement);
    for (acks, input, event) in &[
        (0, LineInput::Ask(Ask::Store(1)), CacheEvent::Store),
        (0, inv, CacheEvent::Inv),
        (0, data(Place::Dir, 0), CacheEvent::DataDirZero),
        (0, data(Place::Dir, 1), CacheEvent::DataDirMore),
        (-1, data(Place::Dir, 1), CacheEvent::DataDirZero),
        (-2, data(Place::Dir, 1), CacheEvent::DataDirMore),
        (i64::MAX, data(Place::Dir, 1), CacheEvent::DataDirMore),
        (0, data(Place::Cache(SECOND), 0), CacheEvent::DataOwner),
        (1, ack, CacheEvent::LastInvAck),
        (0, ack, CacheEvent::InvAck),
        (2, ack, CacheEvent::InvAck),
    ] {
        comes_as(&rt, *acks, *input, *event);
    }
}

/// Compares what a store needs, and sends its request.
fn asks(rt: &impl Abort, line: &mut Line, wires: &mut Wires) {
    let ask = LineInput::Ask(Ask::Store(7));
    let getm = CacheActions::none().with(CacheAction::GetM);
    let needs = Needs {
        requests: 1,
        responses: 0,
    };
    same(rt, &line_needs(ask, getm), &needs);
    line_reserve(ask, getm, wires).expect(rt, "memory");
    let sent = line_act_as_needed(rt, line, ask, CacheState::ImAd, getm, wires);
    same(rt, &(sent, line.pending), &(None, Some(Ask::Store(7))));
    let request = Request {
        kind: RequestKind::GetM,
        from: FIRST,
    };
    same(rt, &wires.request(0), &Some(request));
}

/// Hands the data to the line that waits for it.
fn stores(rt: &impl Abort, line: &mut Line, wires: &mut Wires) {
    let came = data(Place::Dir, 0);
    let done = Some(LineCompletion::Store(7));
    same(rt, &line_completion(line, came, CacheState::M), &done);
    let quiet = CacheActions::none();
    let made = line_act(line, FIRST, came, CacheState::M, quiet, wires);
    same(rt, &made, &Ok(done));
    let stored = Line {
        state: CacheState::M,
        value: 7,
        acks: 0,
        pending: None,
    };
    same(rt, line, &stored);
}

fn asks_and_stores(rt: &impl Abort, wires: &mut Wires) {
    let mut line = Line::opened();
    asks(rt, &mut line, wires);
    stores(rt, &mut line, wires);
}

#[test]
fn a_store_waits_for_its_data(rt: HostRuntime) {
    let mut wires = Wires::open(rt.alloc(), 2).expect(&rt, "memory");
    asks_and_stores(&rt, &mut wires);
}

/// Compares the event of a request that comes to a home.
fn meets(rt: &impl Abort, home: &Home, kind: RequestKind, from: CacheId, event: DirectoryEvent) {
    let input = request(kind, from);
    same_at(rt, &home_event(home, input), &event, &input);
}

/// Compares the events at a home of which the second cache is the owner, and the first one the only sharer.
fn meets_each(rt: &impl Abort, home: &Home) {
    meets(rt, home, RequestKind::GetS, FIRST, DirectoryEvent::GetS);
    meets(rt, home, RequestKind::PutS, FIRST, DirectoryEvent::PutSLast);
    meets(
        rt,
        home,
        RequestKind::PutS,
        SECOND,
        DirectoryEvent::PutSNotLast,
    );
    meets(
        rt,
        home,
        RequestKind::PutM(1),
        FIRST,
        DirectoryEvent::PutMNonOwner,
    );
    meets(
        rt,
        home,
        RequestKind::PutM(1),
        SECOND,
        DirectoryEvent::PutMOwner,
    );
    let data = home_event(home, HomeInput::Data(1));
    same(rt, &data, &DirectoryEvent::Data);
}

/// Adds both caches to the sharers, and removes the second one again.
fn share(rt: &impl Abort, home: &mut Home)
    requires { length home.old.sharers ≡ 2 }
{
    same(rt, &home.sharers.caches(), &2);
    home.sharers.add(FIRST);
    home.sharers.add(SECOND);
    same(rt, &home.sharers.is_only(FIRST), &false);
    home.sharers.remove(SECOND);
}

#[test]
fn events_at_a_home(rt: HostRuntime) {
    let mut home = Home::open(rt.alloc(), 2, 5).expect(&rt, "memory");
    home.owner = Some(SECOND);
    share(&rt, &mut home);
    meets_each(&rt, &home);
    home.sharers.clear();
    meets(
        &rt,
        &home,
        RequestKind::PutS,
        FIRST,
        DirectoryEvent::PutSNotLast,
    );
}

/// Makes the first cache a sharer.
fn reads(rt: &impl Abort, links: &mut Vec<CacheId>, home: &mut Home, wires: &mut Wires)
    requires flags { NamesBelow (length home.old.sharers) home.old }
    requires links { NamesBelow (length wires.old.traffic.links) home.old }
    requires flag_count { length home.old.sharers ≡ 2 }
    requires link_count { length wires.old.traffic.links ≡ 2 }
    ensures flags { NamesBelow (length home.new.sharers) home.new }
    ensures links { NamesBelow (length wires.new.traffic.links) home.new }
    ensures flag_count { length home.new.sharers ≡ 2 }
    ensures link_count { length wires.new.traffic.links ≡ 2 }
{
    let gets = request(RequestKind::GetS, FIRST);
    let shares = DirectoryActions::none()
        .with(DirectoryAction::DataReq)
        .with(DirectoryAction::AddReq);
    home_act_as_needed(rt, links, home, gets, DirectoryState::S, shares, wires);
    same(rt, &home.sharers.contains(FIRST), &true);
}

/// Makes the second cache the owner.
fn owns(rt: &impl Abort, home: &mut Home, wires: &mut Wires)
    requires flags { NamesBelow (length home.old.sharers) home.old }
    requires links { NamesBelow (length wires.old.traffic.links) home.old }
    requires flag_count { length home.old.sharers ≡ 2 }
    requires link_count { length wires.old.traffic.links ≡ 2 }
{
    let getm = request(RequestKind::GetM, SECOND);
    let owns = DirectoryActions::none()
        .with(DirectoryAction::DataAcks)
        .with(DirectoryAction::InvSharers)
        .with(DirectoryAction::ClearSharers)
        .with(DirectoryAction::SetOwner);
    home_reserve(home, getm, owns, wires).expect(rt, "memory");
    home_act(home, getm, DirectoryState::M, owns, wires).expect(rt, "memory");
    same(rt, &home.owner, &Some(SECOND));
    same(rt, &home.sharers.contains(FIRST), &false);
}

/// Compares what went to the sharer and to the owner.
fn has_sent(rt: &impl Abort, wires: &Wires) {
    let inv = Forward {
        kind: ForwardKind::Inv,
        requestor: SECOND,
    };
    same(rt, &wires.head(FIRST), &Some(inv));
    let data = Response::Data {
        from: Place::Dir,
        to: Place::Cache(SECOND),
        value: 5,
        acks: 1,
    };
    same(rt, &wires.response(1), &Some(data));
}

fn is_invalidated(rt: &impl Abort, links: &mut Vec<CacheId>, home: &mut Home, wires: &mut Wires)
    requires flags { NamesBelow (length home.old.sharers) home.old }
    requires links { NamesBelow (length wires.old.traffic.links) home.old }
    requires flag_count { length home.old.sharers ≡ 2 }
    requires link_count { length wires.old.traffic.links ≡ 2 }
{
    reads(rt, links, home, wires);
    owns(rt, home, wires);
    has_sent(rt, wires);
}

fn home_invalidates(rt: &impl Abort, alloc: Global, links: &mut Vec<CacheId>, wires: &mut Wires)
    requires { length wires.old.traffic.links ≡ 2 }
{
    let mut home = Home::open(alloc, 2, 5).expect(rt, "memory");
    is_invalidated(rt, links, &mut home, wires);
}

#[test]
fn a_sharer_is_invalidated(rt: HostRuntime) {
    let mut wires = Wires::open(rt.alloc(), 2).expect(&rt, "memory");
    home_invalidates(&rt, rt.alloc(), &mut Vec::new(rt.alloc()), &mut wires);
}

/// Compares what an act needs that answers a cache twice which isn't a sharer.
fn needs_links(rt: &impl Abort, home: &Home, links: &mut Vec<CacheId>) {
    let unflagged = CacheId(7);
    let put = request(RequestKind::PutS, unflagged);
    let twice = DirectoryActions::none()
        .with(DirectoryAction::PutAck)
        .with(DirectoryAction::DataReq)
        .with(DirectoryAction::PutAck);
    let needs = home_needs(home, put, twice, links);
    let wanted = Needs {
        requests: 0,
        responses: 1,
    };
    same(rt, &needs, &Ok(wanted));
    same(rt, &links.as_slice(), &[unflagged, unflagged].as_slice());
}

#[test]
fn links_that_an_act_needs(rt: HostRuntime) {
    let home = Home::open(rt.alloc(), 2, 5).expect(&rt, "memory");
    let mut links = Vec::new(rt.alloc());
    needs_links(&rt, &home, &mut links);
}
