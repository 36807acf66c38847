ghost use Rattle.std.specs.Prelude.{◌≡◌, length};

use crate::asserting::same;
use base::CacheId;
use network::{Forward, ForwardKind, Message, Request, RequestKind, Response, Wires};
use std::process::Abort;

const FIRST: CacheId = CacheId(0);

const SECOND: CacheId = CacheId(1);

fn request(from: CacheId) -> Request {
    Request {
        kind: RequestKind::GetS,
        from,
    }
}

fn forward(kind: ForwardKind) -> Forward {
    Forward {
        kind,
        requestor: FIRST,
    }
}

/// Sends two requests and a response, and takes them.
fn are_taken(rt: &impl Abort, wires: &mut Wires) {
    wires.reserve(2, [].as_slice(), 1).expect(rt, "memory");
    let ack = Response::InvAck {
        from: FIRST,
        to: SECOND,
    };
    same(rt, &wires.send_request(request(FIRST)), &Ok(()));
    same(rt, &wires.send_request(request(SECOND)), &Ok(()));
    same(rt, &wires.send_response(ack), &Ok(()));
    same(rt, &wires.request(1), &Some(request(SECOND)));
    same(rt, &wires.take_request(2), &None);
    same(rt, &wires.take_request(0), &Some(request(FIRST)));
    same(rt, &wires.take_request(0), &Some(request(SECOND)));
    same(rt, &wires.request(0), &None);
    same(rt, &wires.response(0), &Some(ack));
    same(rt, &wires.take_response(0), &Some(ack));
    same(rt, &wires.take_response(0), &None);
}

#[test]
fn requests_and_responses_are_taken_from_any_place(rt: HostRuntime) {
    let mut wires = Wires::open(rt.alloc(), 2).expect(&rt, "memory");
    are_taken(&rt, &mut wires);
}

fn make_room(rt: &impl Abort, wires: &mut Wires)
    requires { length wires.old.traffic.links ≡ 2 }
    ensures { length wires.new.traffic.links ≡ 2 }
{
    wires
        .reserve(0, [SECOND, FIRST, SECOND].as_slice(), 0)
        .expect(rt, "memory");
    wires.reserve_link(SECOND, 3).expect(rt, "memory");
    wires.reserve_ends(1, 1).expect(rt, "memory");
}

/// Sends two messages over one link, and takes them.
fn are_in_order(rt: &impl Abort, wires: &mut Wires)
    requires { length wires.old.traffic.links ≡ 2 }
{
    same(rt, &wires.head(SECOND), &None);
    make_room(rt, wires);
    let (inv, put_ack) = (forward(ForwardKind::Inv), forward(ForwardKind::PutAck));
    same(rt, &wires.send_forward(SECOND, inv), &Ok(()));
    same(rt, &wires.send_forward(SECOND, put_ack), &Ok(()));
    same(rt, &wires.head(FIRST), &None);
    same(rt, &wires.head(SECOND), &Some(inv));
    same(rt, &wires.take_head(SECOND), &Some(inv));
    same(rt, &wires.take_head(SECOND), &Some(put_ack));
    same(rt, &wires.take_head(SECOND), &None);
    same(rt, &wires.take_head(CacheId(2)), &None);
}

#[test]
fn a_link_keeps_its_order(rt: HostRuntime) {
    let mut wires = Wires::open(rt.alloc(), 2).expect(&rt, "memory");
    are_in_order(&rt, &mut wires);
}

fn is_placed(rt: &impl Abort, wires: &mut Wires) {
    wires.reserve_ends(1, 0).expect(rt, "memory");
    wires.place(Message::Request(request(FIRST)));
    same(rt, &wires.request(0), &Some(request(FIRST)));
}

#[test]
fn a_message_is_placed_on_its_wire(rt: HostRuntime) {
    let mut wires = Wires::open(rt.alloc(), 1).expect(&rt, "memory");
    is_placed(&rt, &mut wires);
}
