use crate::asserting::same;
use crate::borrowing::{Taking, take};
use crate::letters::{Moment, letter_of, offered, read};
use bumpalo::Bump;
use scenario::{Rest, Scenario};
use std::alloc::Global;
use std::process::Abort;

/// Compares the offers.
fn offers<R: Rest>(rt: &impl Abort, heap: Global, rest: &R, wanted: &str) {
    let found = offered(rt, heap, rest).expect(rt, "memory");
    same(rt, &found.as_str(), &wanted);
}

/// Takes an offer, and compares its ask.
fn takes<R: Rest>(rt: &impl Abort, rest: &mut R, alloc: R::Alloc, at: usize, wanted: Option<char>) {
    let ask = rest.take(alloc, at).expect(rt, "memory");
    same(rt, &letter_of(ask), &wanted);
}

/// Follows the moments, and looks whether each is as it is told.
fn follow<R: Rest>(
    rt: &impl Abort,
    heap: Global,
    rest: &mut R,
    alloc: R::Alloc,
    moments: &[Moment<'_>],
) {
    for (wanted, ends, at, taken) in moments {
        offers(rt, heap, rest, wanted);
        same(rt, &rest.may_end(), ends);
        takes(rt, rest, alloc.clone().expect(rt, "memory"), *at, *taken);
    }
}

/// Follows the moments in a copy.
fn follow_copy(
    rt: &impl Abort,
    heap: Global,
    source: &Scenario<Global>,
    bump: &Bump,
    moments: &[Moment<'_>],
) {
    let mut copy = source.copy_in(bump).expect(rt, "memory");
    follow(rt, heap, &mut copy, bump, moments);
}

/// Follows the moments in a copy and by a cursor, both in an arena that is dropped before it, and then in the scenario.
fn follow_in_all(rt: &impl Abort, heap: Global, text: &str, moments: &[Moment<'_>]) {
    let mut source = read(rt, heap, text);
    follow_copy(rt, heap, &source, &Bump::new(heap), moments);
    take(rt, heap, &source, &Taking::Moments(moments));
    follow(rt, heap, &mut source, heap, moments);
}

/// Turns may differ, children of `both` go on at once, and what may end is passed over.
const TAKEN: [(&str, &[Moment<'static>]); 4] = [
    (
        r#"{"times":2,"of":{"any":[{"op":"load","core":0,"block":0},{"op":"store","core":0,"block":0,"value":5}]}}"#,
        &[
            ("LS", false, 0, Some('L')),
            ("LS", false, 1, Some('S')),
            ("", true, 0, None),
        ],
    ),
    (
        r#"{"both":[{"seq":[{"op":"load","core":0,"block":0},{"op":"store","core":0,"block":0,"value":5}]},{"op":"replace","core":1,"block":0}]}"#,
        &[
            ("LR", false, 1, Some('R')),
            ("L", false, 0, Some('L')),
            ("S", false, 0, Some('S')),
            ("", true, 0, None),
        ],
    ),
    (
        r#"{"seq":[{"times":0,"of":{"op":"load","core":0,"block":0}},{"op":"store","core":0,"block":0,"value":5}]}"#,
        &[
            ("S", false, 1, None),
            ("S", false, 0, Some('S')),
            ("", true, 0, None),
        ],
    ),
    (
        r#"{"any":[{"seq":[]},{"op":"load","core":0,"block":0}]}"#,
        &[("L", true, 0, Some('L')), ("", true, 0, None)],
    ),
];

#[test]
fn scenarios_are_taken(rt: HostRuntime) {
    for (text, moments) in &TAKEN {
        follow_in_all(&rt, rt.alloc(), text, moments);
    }
}

/// Takes so many loads, behind which nothing is left.
fn takes_loads(rt: &impl Abort, heap: Global, tree: &mut Scenario<Global>, count: u32) {
    for _ in 0..count {
        takes(rt, tree, heap, 0, Some('L'));
    }
    same(rt, &tree.may_end(), &true);
    offers(rt, heap, tree, "");
}

const MANY_LOADS: &str =
    r#"{"times":1000,"of":{"times":100,"of":{"op":"load","core":0,"block":0}}}"#;

#[test]
fn a_long_scenario_stays_shallow(rt: HostRuntime) {
    let mut tree = read(&rt, rt.alloc(), MANY_LOADS);
    takes_loads(&rt, rt.alloc(), &mut tree, 100_000);
}

/// Takes the only offer, and answers whether there was memory for that. Where there isn't, nothing changes.
fn take_offer<R: Rest>(
    rt: &impl Abort,
    heap: Global,
    rest: &mut R,
    alloc: R::Alloc,
    wanted: &str,
) -> bool {
    offers(rt, heap, rest, wanted);
    match rest.take(alloc, 0) {
        Ok(taken) => {
            same(rt, &letter_of(taken), &wanted.chars().next());
            true
        }
        Err(_) => false,
    }
}

/// Takes the only offer in an arena that is full, and then in one with room where that was refused, and answers whether it was.
fn take_in_full_arena<'b>(
    rt: &impl Abort,
    heap: Global,
    tree: &mut Scenario<&'b Bump>,
    bump: &'b Bump,
    wanted: &str,
) -> bool {
    bump.set_allocation_limit(Some(bump.allocated_bytes()));
    if take_offer(rt, heap, tree, bump, wanted) {
        return false;
    }
    bump.set_allocation_limit(None);
    same(rt, &take_offer(rt, heap, tree, bump, wanted), &true);
    true
}

/// Takes so many turns of a load and a store, and answers whether one of them was refused.
fn take_in_full_arenas<'b>(
    rt: &impl Abort,
    heap: Global,
    tree: &mut Scenario<&'b Bump>,
    bump: &'b Bump,
    turns: u32,
) -> bool {
    let mut refused = false;
    for _ in 0..turns {
        for wanted in &["L", "S"] {
            refused |= take_in_full_arena(rt, heap, tree, bump, wanted);
        }
    }
    refused
}

/// Takes all of a copy in an arena that is full again and again.
fn take_copy(rt: &impl Abort, heap: Global, source: &Scenario<Global>, bump: &Bump) {
    let mut tree = source.copy_in(bump).expect(rt, "memory");
    let refused = take_in_full_arenas(rt, heap, &mut tree, bump, 100);
    same(rt, &refused, &true);
}

const HUNDRED_TURNS: &str =
    r#"{"times":100,"of":{"seq":[{"op":"load","core":0,"block":0},{"op":"store","core":0,"block":0,"value":5}]}}"#;

#[test]
fn a_refused_take_changes_nothing(rt: HostRuntime) {
    let source = read(&rt, rt.alloc(), HUNDRED_TURNS);
    take_copy(&rt, rt.alloc(), &source, &Bump::new(rt.alloc()));
}
