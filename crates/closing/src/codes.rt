//! A number made of all parts of a pair, or of a view, so that a list is looked through by it. Nothing is promised of it.

ghost use Rattle.std.specs.Prelude.{◌<◌};

use crate::ranked::{Order, RankedPair};
use base::controller::Listed;
use network::ForwardKind;
use pairs::{Lag, Link, Marks, Owned, Pair, PairSide, Shared, Waiting};

/// A number with a few more bits behind its own.
fn with(code: u128, bits: u32, more: u128) -> u128
    requires { bits < 128 }
{
    (code << bits) | more
}

/// Where a state stands among its kind: there are at most 12.
fn place_of<S: Listed>(state: S) -> u128 {
    state.number() as u128
}

fn with_flag(code: u128, flag: bool) -> u128 {
    with(code, 1, u128::from(flag))
}

/// The number of what all caches see and of one of them.
pub(crate) fn view_code(shared: &Shared, side: &PairSide) -> u128 {
    side_code(shared_code(0, shared), side)
}

/// The number of a pair.
pub(crate) fn pair_code(pair: &Pair) -> u128 {
    let mut code = shared_code(0, &pair.shared);
    code = side_code(code, &pair.first);
    code = side_code(code, &pair.second);
    code = marks_code(code, &pair.first_names);
    marks_code(code, &pair.second_names)
}

/// The number of a ranked pair.
pub(crate) fn ranked_code(ranked: &RankedPair) -> u128 {
    let order = match ranked.order {
        Order::Unknown => 0,
        Order::Before => 1,
        Order::After => 2,
    };
    with(pair_code(&ranked.pair), 2, order)
}

fn shared_code(code: u128, shared: &Shared) -> u128 {
    let mut code = with(code, 3, place_of(shared.home));
    code = with_flag(code, shared.fresh_memory);
    code = with(code, 2, u128::from(shared.home_data));
    with_flag(code, shared.fresh_home_data)
}

fn side_code(code: u128, side: &PairSide) -> u128 {
    let mut code = with(code, 4, place_of(side.state));
    code = with(code, 2, waiting_number(side.waits));
    code = with_flag(code, side.fresh);
    for count in [side.gets, side.getm, side.puts, side.putm] {
        code = with(code, 2, u128::from(count));
    }
    code = with_flag(code, side.fresh_putm);
    for count in [side.dir_data, side.owner_data, side.excl_data] {
        code = with(code, 2, u128::from(count));
    }
    for flag in [
        side.fresh_data,
        side.low,
        side.owed,
        side.shares,
        side.others,
    ] {
        code = with_flag(code, flag);
    }
    code = with(code, 2, u128::from(side.fwd_gets));
    code = with(code, 2, u128::from(side.fwd_getm));
    code = with(code, 2, owned_number(side.owned));
    code = with(code, 2, lag_number(side.lag));
    link_code(code, &side.link)
}

fn link_code(code: u128, link: &Link) -> u128 {
    let mut code = with(code, 2, u128::from(link.len()));
    let mut rest = *link;
    for _ in 0..3 {
        if let Some(place) = rest.head() {
            code = with_flag(with(code, 2, kind_number(place.kind)), place.own);
        }
        rest = rest.behind();
    }
    code
}

fn marks_code(code: u128, marks: &Marks) -> u128 {
    let mut code = code;
    let mut rest = *marks;
    for _ in 0..3 {
        let mark = match rest.head() {
            None => 0,
            Some(false) => 1,
            Some(true) => 2,
        };
        code = with(code, 2, mark);
        rest = rest.behind();
    }
    code
}

fn waiting_number(waits: Option<Waiting>) -> u128 {
    match waits {
        None => 0,
        Some(Waiting::Load) => 1,
        Some(Waiting::Store) => 2,
    }
}

fn owned_number(owned: Owned) -> u128 {
    match owned {
        Owned::ByNobody => 0,
        Owned::ByItself => 1,
        Owned::ByAnother => 2,
    }
}

fn lag_number(lag: Lag) -> u128 {
    match lag {
        Lag::Level => 0,
        Lag::Behind => 1,
        Lag::Ahead => 2,
    }
}

fn kind_number(kind: ForwardKind) -> u128 {
    match kind {
        ForwardKind::FwdGetS => 0,
        ForwardKind::FwdGetM => 1,
        ForwardKind::Inv => 2,
        ForwardKind::PutAck => 3,
    }
}
