use crate::asserting::same;
use crate::letters::{Moment, letter_of, offered, read};
use base::{Ask, BlockId, CacheId, CoreAsk};
use bumpalo::Bump;
use cursors::{Cursor, Next};
use scenario::{Rest, Scenario};
use std::alloc::Global;
use std::process::Abort;

type InArena<'t, 'b> = Cursor<'t, Global, &'b Bump>;

/// The offers as letters.
fn letters(rt: &impl Abort, heap: Global, cursor: &InArena<'_, '_>) -> String {
    offered(rt, heap, cursor).expect(rt, "memory")
}

/// Compares the offers.
fn offers(rt: &impl Abort, heap: Global, cursor: &InArena<'_, '_>, wanted: &str) {
    let found = letters(rt, heap, cursor);
    same(rt, &found.as_str(), &wanted);
}

/// Compares whether nothing more need be asked.
fn may_end(rt: &impl Abort, cursor: &InArena<'_, '_>, wanted: bool) {
    same(rt, &cursor.may_end(), &wanted);
}

/// Compares what is left where nothing is.
fn has_ended(rt: &impl Abort, heap: Global, cursor: &InArena<'_, '_>) {
    may_end(rt, cursor, true);
    offers(rt, heap, cursor, "");
}

/// Takes an offer, and answers the letter of its ask, or nothing where there is no such offer.
fn take_letter<'b>(
    rt: &impl Abort,
    cursor: &mut InArena<'_, 'b>,
    bump: &'b Bump,
    at: usize,
) -> Option<char> {
    letter_of(cursor.take(bump, at).expect(rt, "memory"))
}

/// Takes an offer, and compares its ask.
fn takes<'b>(
    rt: &impl Abort,
    cursor: &mut InArena<'_, 'b>,
    bump: &'b Bump,
    at: usize,
    wanted: Option<char>,
) {
    same(rt, &take_letter(rt, cursor, bump, at), &wanted);
}

/// Follows the moments, and looks whether each is as it is told.
fn follow<'b>(
    rt: &impl Abort,
    heap: Global,
    cursor: &mut InArena<'_, 'b>,
    bump: &'b Bump,
    moments: &[Moment<'_>],
) {
    for (wanted, ends, at, taken) in moments {
        offers(rt, heap, cursor, wanted);
        may_end(rt, cursor, *ends);
        takes(rt, cursor, bump, *at, *taken);
    }
}

/// Takes two turns so many times: first one of the row, and then one of the children that go on at once.
fn take_turns<'b>(rt: &impl Abort, cursor: &mut InArena<'_, 'b>, bump: &'b Bump, count: u32) {
    for _ in 0..count {
        for (at, ask) in &[(0, 'L'), (0, 'S'), (2, 'S'), (0, 'L')] {
            takes(rt, cursor, bump, *at, Some(*ask));
        }
    }
}

/// Takes 50,000 turns, behind which nothing is left, and compares how much memory they took.
fn take_all_turns<'b>(rt: &impl Abort, heap: Global, cursor: &mut InArena<'_, 'b>, bump: &'b Bump) {
    same(rt, &bump.allocated_bytes(), &0);
    take_turns(rt, cursor, bump, 25_000);
    has_ended(rt, heap, cursor);
    same(rt, &(bump.allocated_bytes() < 4096), &true);
}

/// Takes the only offer.
fn take_only_load<'b>(rt: &impl Abort, heap: Global, cursor: &mut InArena<'_, 'b>, bump: &'b Bump) {
    offers(rt, heap, cursor, "L");
    takes(rt, cursor, bump, 1, None);
    takes(rt, cursor, bump, 0, Some('L'));
    has_ended(rt, heap, cursor);
}

/// Takes three loads, behind which there are more.
fn take_loads<'b>(rt: &impl Abort, heap: Global, cursor: &mut InArena<'_, 'b>, bump: &'b Bump) {
    for _ in 0..3 {
        offers(rt, heap, cursor, "L");
        takes(rt, cursor, bump, 0, Some('L'));
    }
    may_end(rt, cursor, false);
}

/// Takes the first of these offers with ever more memory, until it isn't refused, and answers how often it was. A refusal changes
/// nothing.
fn take_at_last<'b>(
    rt: &impl Abort,
    heap: Global,
    cursor: &mut InArena<'_, 'b>,
    bump: &'b Bump,
    wanted: &str,
) -> usize {
    for refused in 0..64_usize {
        offers(rt, heap, cursor, wanted);
        bump.set_allocation_limit(Some(refused.saturating_mul(256)));
        if let Ok(taken) = cursor.take(bump, 0) {
            same(rt, &letter_of(taken), &wanted.chars().next());
            return refused;
        }
    }
    panic!(rt; "no memory")
}

/// Takes four turns of six asks and a last one, of which some are refused at first, and behind which nothing is left.
fn take_all<'b>(rt: &impl Abort, heap: Global, cursor: &mut InArena<'_, 'b>, bump: &'b Bump) {
    let mut refusals = 0_usize;
    for _ in 0..4 {
        for wanted in &["LL", "SL", "LL", "SL", "L", "S"] {
            let refused = take_at_last(rt, heap, cursor, bump, wanted);
            refusals = refusals.saturating_add(refused);
        }
    }
    take_at_last(rt, heap, cursor, bump, "S");
    may_end(rt, cursor, true);
    same(rt, &(refusals > 1), &true);
}

/// Takes the first offer again and again. Another cursor passes what is taken, and has to say of each whether the same is offered
/// behind it.
fn compare_repeats<'b>(
    rt: &impl Abort,
    taken: &mut InArena<'_, 'b>,
    passed: &mut InArena<'_, 'b>,
    bump: &'b Bump,
    wanted: &[bool],
) {
    for repeats in wanted {
        take_letter(rt, taken, bump, 0);
        if passed.offer_count() > 0 {
            let told = passed.pass_on(bump, 0).expect(rt, "memory");
            same(rt, &told, repeats);
        }
        same(rt, &passed.offer_count(), &taken.offer_count());
    }
}

/// The same, and again once the cursors start again.
fn compare_repeats_again<'t, 'b>(
    rt: &impl Abort,
    source: &'t Scenario<Global>,
    taken: &mut InArena<'t, 'b>,
    passed: &mut InArena<'t, 'b>,
    bump: &'b Bump,
    wanted: &[bool],
) {
    for _ in 0..3 {
        compare_repeats(rt, taken, passed, bump, wanted);
        taken.restart(source);
        passed.restart(source);
    }
}

/// How many offers a look tells of, where it tells it. An ask that it tells has to be the first offer.
fn count_told(rt: &impl Abort, cursor: &InArena<'_, '_>) -> Option<usize> {
    match cursor.peek() {
        Next::Nothing => Some(0),
        Next::Alone(ask) => {
            same(rt, &cursor.offer_at(0), &Some(ask));
            Some(1)
        }
        Next::Unknown => None,
    }
}

/// Takes the first offer again and again, and compares before each what a look tells.
fn compare_looks<'b>(
    rt: &impl Abort,
    cursor: &mut InArena<'_, 'b>,
    bump: &'b Bump,
    wanted: &[Option<usize>],
) {
    for count in wanted {
        same(rt, &count_told(rt, cursor), count);
        take_letter(rt, cursor, bump, 0);
    }
}

/// Passes the last offer, and answers which it was.
fn pass_last<'b>(rt: &impl Abort, cursor: &mut InArena<'_, 'b>, bump: &'b Bump) -> usize {
    let many = cursor.offer_count();
    assert!(rt; many > 0);
    cursor.pass(bump, many - 1).expect(rt, "memory");
    many - 1
}

/// Passes the last offer of one cursor and takes the same of another, until nothing is offered, and compares what they offer.
fn pass_what_is_taken<'b>(
    rt: &impl Abort,
    heap: Global,
    taken: &mut InArena<'_, 'b>,
    passed: &mut InArena<'_, 'b>,
    bump: &'b Bump,
) {
    for _ in 0..25 {
        let last = pass_last(rt, passed, bump);
        take_letter(rt, taken, bump, last);
        let wanted = letters(rt, heap, taken);
        offers(rt, heap, passed, wanted.as_str());
    }
    offers(rt, heap, passed, "");
}

/// What is taken by a cursor of a scenario, and passed by another, and what has to be found.
#[derive(Drop)]
pub enum Taking<'w> {
    AllTurns,
    OnlyLoad,
    Loads,
    Refused,
    Moments(&'w [Moment<'w>]),
    /// Whether the same is offered behind each.
    Repeats(&'w [bool]),
    /// What a look tells before each.
    Looks(&'w [Option<usize>]),
    Passed,
}

fn take_by<'t, 'b>(
    rt: &impl Abort,
    heap: Global,
    source: &'t Scenario<Global>,
    taken: &mut InArena<'t, 'b>,
    passed: &mut InArena<'t, 'b>,
    bump: &'b Bump,
    taking: &Taking<'_>,
) {
    match taking {
        Taking::AllTurns => take_all_turns(rt, heap, taken, bump),
        Taking::OnlyLoad => take_only_load(rt, heap, taken, bump),
        Taking::Loads => take_loads(rt, heap, taken, bump),
        Taking::Refused => take_all(rt, heap, taken, bump),
        Taking::Moments(moments) => follow(rt, heap, taken, bump, moments),
        Taking::Repeats(wanted) => {
            compare_repeats_again(rt, source, taken, passed, bump, wanted)
        }
        Taking::Looks(wanted) => compare_looks(rt, taken, bump, wanted),
        Taking::Passed => pass_what_is_taken(rt, heap, taken, passed, bump),
    }
}

/// Opens two cursors, whose arena is dropped behind them.
pub fn take(rt: &impl Abort, heap: Global, source: &Scenario<Global>, taking: &Taking<'_>) {
    let bump = Bump::new(heap);
    let mut taken: InArena<'_, '_> = Cursor::open(source);
    let mut passed: InArena<'_, '_> = Cursor::open(source);
    take_by(rt, heap, source, &mut taken, &mut passed, &bump, taking);
}

/// The same of a scenario in JSON.
fn take_text(rt: &impl Abort, heap: Global, text: &str, taking: &Taking<'_>) {
    let source = read(rt, heap, text);
    take(rt, heap, &source, taking);
}

const MANY_TURNS: &str = r#"{"times":50000,"of":{"any":[
    {"seq":[{"op":"load","core":0,"block":0},{"op":"store","core":0,"block":0,"value":5}]},
    {"both":[{"op":"load","core":0,"block":0},{"op":"store","core":0,"block":0,"value":5}]}
]}}"#;

#[test]
fn many_turns_take_little_memory(rt: HostRuntime) {
    take_text(&rt, rt.alloc(), MANY_TURNS, &Taking::AllTurns);
}

const LOAD: &str = r#"{"op":"load","core":0,"block":0}"#;

/// (It is a load at the deepest level.)
#[test]
fn a_deep_scenario_has_its_one_offer(rt: HostRuntime) {
    let front = r#"{"seq":["#.repeat(rt.alloc(), 47).expect(&rt, "memory");
    let rest = "]}".repeat(rt.alloc(), 47).expect(&rt, "memory");
    let text = format!(in rt.alloc(); "{front}{LOAD}{rest}").expect(&rt, "memory");
    take_text(&rt, rt.alloc(), text.as_str(), &Taking::OnlyLoad);
}

/// (Text that asks for so many loads is refused as too long.)
#[test]
fn the_most_turns_are_counted(rt: HostRuntime) {
    let load = CoreAsk {
        core: CacheId(0),
        block: BlockId(0),
        ask: Ask::Load,
    };
    let one = Box::new(rt.alloc(), Scenario::One(load)).expect(&rt, "memory");
    let source = Scenario::Times(4_294_967_295, one);
    take(&rt, rt.alloc(), &source, &Taking::Loads);
}

/// Two rows that go on at once, twice one behind the other, that again twice, and a store behind them.
const FOUR_TURNS: &str = r#"{"seq":[
    {"times":2,"of":{"seq":[
        {"both":[
            {"times":2,"of":{"seq":[{"op":"load","core":0,"block":0},{"op":"store","core":0,"block":0,"value":5}]}},
            {"seq":[{"op":"load","core":0,"block":0},{"op":"store","core":0,"block":0,"value":5}]}
        ]},
        {"both":[
            {"times":2,"of":{"seq":[{"op":"load","core":0,"block":0},{"op":"store","core":0,"block":0,"value":5}]}},
            {"seq":[{"op":"load","core":0,"block":0},{"op":"store","core":0,"block":0,"value":5}]}
        ]}
    ]}},
    {"op":"store","core":0,"block":0,"value":5}
]}"#;

#[test]
fn a_refused_take_leaves_a_cursor_as_it_was(rt: HostRuntime) {
    take_text(&rt, rt.alloc(), FOUR_TURNS, &Taking::Refused);
}

const CHOICE: &str =
    r#"{"any":[{"op":"load","core":0,"block":0},{"op":"store","core":0,"block":0,"value":5}]}"#;

const THREE_CHOICES: &str =
    r#"{"times":3,"of":{"any":[{"op":"load","core":0,"block":0},{"op":"store","core":0,"block":0,"value":5}]}}"#;

const CHOICES_AND_ONE: &str = r#"{"both":[
    {"times":3,"of":{"any":[{"op":"load","core":0,"block":0},{"op":"store","core":0,"block":0,"value":5}]}},
    {"any":[{"op":"load","core":0,"block":0},{"op":"store","core":0,"block":0,"value":5}]}
]}"#;

/// Scenarios, and whether the same is offered behind each first offer. (Three choices are started again while what was found of
/// their turns is kept in mind.)
const REPEATS: [(&str, &[bool]); 5] = [
    (THREE_CHOICES, &[true, true, false, false]),
    (CHOICE, &[false]),
    (CHOICES_AND_ONE, &[false, false]),
    (THREE_CHOICES, &[true]),
    (THREE_CHOICES, &[true, true]),
];

#[test]
fn turns_of_a_choice_offer_the_same_up_to_the_last(rt: HostRuntime) {
    for (text, wanted) in &REPEATS {
        take_text(&rt, rt.alloc(), text, &Taking::Repeats(wanted));
    }
}

const ROW: &str =
    r#"{"seq":[{"op":"load","core":0,"block":0},{"op":"store","core":0,"block":0,"value":5},{"op":"replace","core":0,"block":0}]}"#;

const THREE_LOADS: &str = r#"{"times":3,"of":{"op":"load","core":0,"block":0}}"#;

/// Scenarios, and how many offers a look tells of before each first offer.
const LOOKS: [(&str, &[Option<usize>]); 3] = [
    (ROW, &[Some(1), Some(1), Some(1), Some(0)]),
    (THREE_LOADS, &[Some(1), Some(1), Some(1), Some(0)]),
    (CHOICE, &[None]),
];

#[test]
fn a_look_tells_the_next_ask_of_a_row(rt: HostRuntime) {
    for (text, wanted) in &LOOKS {
        take_text(&rt, rt.alloc(), text, &Taking::Looks(wanted));
    }
}

#[test]
fn an_offer_is_passed_as_it_is_taken(rt: HostRuntime) {
    take_text(&rt, rt.alloc(), FOUR_TURNS, &Taking::Passed);
}
