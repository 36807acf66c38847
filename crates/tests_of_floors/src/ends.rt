//! How a crew's seat ends, and what its chooser and the gate are told.

ghost use Rattle.std.specs.Prelude.{◌≡◌};
ghost use Rattle.floor.specs.FloorId.{floor_id};

use crate::asserting::same;
use crate::floor_ends::opened;
use crate::setups::setup;
use base::{Ask, BlockId, CacheId, Outcome, Step};
use floor::{Chooser, Floor, Gate, Ground, Naming, Receipt, Seat, Setup, TurnFault, Wish, crew};
use std::alloc::Global;
use std::marker::Brand;
use std::process::Abort;
use std::sync::atomic::{AtomicU32, AtomicU64, Ordering};
use std::sync::{Mutex, Wait};
use std::thread::Threads;

const LOAD: Step = Step::Ask {
    cache: CacheId(0),
    block: BlockId(0),
    ask: Ask::Load,
};

const OTHER_LOAD: Step = Step::Ask {
    cache: CacheId(1),
    block: BlockId(0),
    ask: Ask::Load,
};

const RESPONSE: Step = Step::Response {
    block: BlockId(0),
    index: 0,
};

const REQUEST: Step = Step::Request {
    block: BlockId(0),
    index: 0,
};

const OTHER_REQUEST: Step = Step::Request {
    block: BlockId(0),
    index: 1,
};

const LOADED: Outcome = Outcome::Load {
    cache: CacheId(0),
    value: 0,
};

/// What the last seat of a floor wishes, and what comes of it.
struct Row<'a> {
    seats: u32,
    capacity: u32,
    wishes: &'a [Wish],
    /// The entries of its receipts.
    entries: &'a [(Step, Outcome)],
    fault: Option<TurnFault>,
    /// For each time that its chooser is asked, the number of the receipt that it is told of, counted from 1, or 0.
    told: &'a [u64],
    /// How often it comes by at the gate.
    calls: u32,
}

/// One at a time: no draw where nothing is ready, a draw among two, a foreign step, and a floor that is full.
const ROWS: [Row<'static>; 4] = [
    Row {
        seats: 1,
        capacity: 9,
        wishes: &[
            Wish::Step(LOAD),
            Wish::Any(0),
            Wish::Any(0),
            Wish::Any(7),
            Wish::Step(LOAD),
        ],
        entries: &[
            (LOAD, Outcome::Sent),
            (REQUEST, Outcome::Moved),
            (RESPONSE, LOADED),
            (LOAD, LOADED),
        ],
        fault: None,
        told: &[0, 1, 2, 3, 0, 4],
        calls: 5,
    },
    Row {
        seats: 1,
        capacity: 9,
        wishes: &[Wish::Step(LOAD), Wish::Step(OTHER_LOAD), Wish::Any(1)],
        entries: &[
            (LOAD, Outcome::Sent),
            (OTHER_LOAD, Outcome::Sent),
            (OTHER_REQUEST, Outcome::Moved),
        ],
        fault: None,
        told: &[0, 1, 2, 3],
        calls: 3,
    },
    Row {
        seats: 2,
        capacity: 9,
        wishes: &[
            Wish::Step(OTHER_LOAD),
            Wish::Step(REQUEST),
            Wish::Step(OTHER_LOAD),
        ],
        entries: &[(OTHER_LOAD, Outcome::Sent)],
        fault: Some(TurnFault::NotYours),
        told: &[0, 1],
        calls: 2,
    },
    Row {
        seats: 1,
        capacity: 2,
        wishes: &[
            Wish::Step(LOAD),
            Wish::Step(REQUEST),
            Wish::Step(RESPONSE),
            Wish::Step(RESPONSE),
        ],
        entries: &[(LOAD, Outcome::Sent), (REQUEST, Outcome::Moved)],
        fault: Some(TurnFault::Full),
        told: &[0, 1, 2],
        calls: 3,
    },
];

/// What a chooser was told at its first calls, how often it was asked, and how often somebody came by at a gate.
#[derive(Drop)]
struct Notes {
    asked: AtomicU32,
    told: [AtomicU64; 6],
    passed: AtomicU32,
    ended: AtomicU32,
}

impl Notes {
    /// Nobody was asked or came by. (That 9 stands where nobody was told.)
    fn new() -> Notes {
        Notes {
            asked: AtomicU32::new(0),
            told: [
                AtomicU64::new(9),
                AtomicU64::new(9),
                AtomicU64::new(9),
                AtomicU64::new(9),
                AtomicU64::new(9),
                AtomicU64::new(9),
            ],
            passed: AtomicU32::new(0),
            ended: AtomicU32::new(0),
        }
    }
}

impl Gate for Notes {
    fn pass(&self, _seat: u32, _call: u32) {
        self.passed.fetch_add(1, Ordering::SeqCst);
    }

    fn done(&self, _seat: u32, _call: u32) {
        self.ended.fetch_add(1, Ordering::SeqCst);
    }
}

/// Wishes these one after the other, and notes what it is told.
#[derive(Drop)]
struct Plan<'a> {
    wishes: &'a [Wish],
    notes: &'a Notes,
}

impl<'a, F: Naming> Chooser<F> for Plan<'a> {
    fn next(&mut self, last: Option<&Receipt<F>>) -> Option<Wish> {
        let told = match last {
            Some(receipt) => receipt.number().saturating_add(1),
            None => 0,
        };
        let call = self.notes.asked.fetch_add(1, Ordering::SeqCst) as usize;
        if let Some(place) = self.notes.told.get(call) {
            place.store(told, Ordering::SeqCst);
        }
        self.wishes.get(call).copied()
    }
}

/// Has one seat play, and gives it back with how it ended.
fn played_alone<F: Naming + Send + Sync, R: Threads + Wait + Abort + Sync, G: Gate + Sync>(
    rt: &R,
    alloc: Global,
    floor: &Floor<F>,
    gate: &G,
    seat: Seat<F>,
    plan: Plan<'_>,
) -> (Seat<F>, Option<TurnFault>) {
    let mut members = Vec::new(alloc);
    members.push((seat, plan)).expect(rt, "memory");
    let back = crew(rt, alloc, floor, gate, members).ok();
    back.expect(rt, "a crew").pop().expect(rt, "a seat")
}

fn compare<F: Naming, R: Abort>(rt: &R, seat: &Seat<F>, entries: &[(Step, Outcome)]) {
    let receipts = seat.receipts();
    same(rt, &receipts.len(), &entries.len());
    for (number, (step, outcome)) in entries.iter().enumerate() {
        let entry = receipts.get(number).expect(rt, "a receipt").entry();
        same(rt, &entry.step, step);
        same(rt, &entry.outcome, outcome);
    }
}

/// Has a seat play a row, and compares how it ended and its receipts.
fn plays_row<F: Naming + Send + Sync, R: Threads + Wait + Abort + Sync>(
    rt: &R,
    alloc: Global,
    floor: &Floor<F>,
    seat: Seat<F>,
    row: &Row<'_>,
    notes: &Notes,
) {
    let plan = Plan {
        wishes: row.wishes,
        notes,
    };
    let (seat, fault) = played_alone(rt, alloc, floor, notes, seat, plan);
    same(rt, &fault, &row.fault);
    same(rt, &seat.made(), &row.entries.len());
    compare(rt, &seat, row.entries);
}

/// Compares what was noted.
fn compare_notes(rt: &impl Abort, notes: &Notes, row: &Row<'_>) {
    let times = notes.asked.load(Ordering::SeqCst) as usize;
    same(rt, &times, &row.told.len());
    for (call, told) in row.told.iter().enumerate() {
        let found = notes.told.get(call).expect(rt, "a call");
        same(rt, &found.load(Ordering::SeqCst), told);
    }
    same(rt, &notes.passed.load(Ordering::SeqCst), &row.calls);
    same(rt, &notes.ended.load(Ordering::SeqCst), &row.calls);
}

/// Has a seat play a row, and compares what comes of it.
fn plays_at<F: Naming + Send + Sync, R: Threads + Wait + Abort + Sync>(
    rt: &R,
    alloc: Global,
    floor: &Floor<F>,
    seat: Seat<F>,
    row: &Row<'_>,
) {
    let notes = Notes::new();
    plays_row(rt, alloc, floor, seat, row, &notes);
    compare_notes(rt, &notes, row);
}

fn plays<F: Naming + Send + Sync, R: Threads + Wait + Abort + Sync>(
    rt: &R,
    alloc: Global,
    ground: Ground,
    setup: &Setup,
    row: &Row<'_>,
)
    requires { F.floor ≡ floor_id ground setup.now row.now.seats row.now.capacity }
{
    let (floor, mut seats) = opened::<F, R>(rt, alloc, ground, setup, row.seats, row.capacity);
    let seat = seats.pop().expect(rt, "a seat");
    plays_at(rt, alloc, &floor, seat, row)
}

#[test]
fn a_seat_ends_without_a_wish_or_at_a_fault(rt: HostRuntime) {
    let setup = setup(&rt, rt.alloc(), 2);
    for row in &ROWS {
        let ground = Ground::new(rt.alloc()).expect(&rt, "memory");
        plays::<Brand, _>(&rt, rt.alloc(), ground, &setup, row)
    }
}

/// Makes a step by a seat of its own whenever somebody comes by.
#[derive(Drop)]
struct Neighbour<'a, F: Naming, R> {
    rt: &'a R,
    floor: &'a Floor<F>,
    seat: Mutex<Seat<F>>,
}

impl<'a, F: Naming, R: Wait + Abort> Neighbour<'a, F, R> {
    fn makes_one(&self) {
        let mut seat = self.seat.lock(self.rt);
        let _ = self
            .floor
            .turn(self.rt, &mut seat, RESPONSE)
            .expect(self.rt, "a turn");
    }
}

impl<'a, F: Naming, R: Wait + Abort> Gate for Neighbour<'a, F, R> {
    fn pass(&self, _seat: u32, _call: u32) {
        self.makes_one();
    }

    fn done(&self, _seat: u32, _call: u32) {
        self.makes_one();
    }
}

/// Compares the numbers of a seat's receipts.
fn are_numbered<F: Naming, R: Abort>(rt: &R, seat: &Seat<F>, numbers: &[u64]) {
    same(rt, &seat.made(), &numbers.len());
    for (at, number) in numbers.iter().enumerate() {
        let receipt = seat.receipts().get(at).expect(rt, "a receipt");
        same(rt, &receipt.number(), number);
    }
}

/// Has a seat make two turns at a gate at which a neighbour makes one before each and one behind it.
fn plays_beside<F: Naming + Send + Sync, R: Threads + Wait + Abort + Sync>(
    rt: &R,
    alloc: Global,
    floor: &Floor<F>,
    gate: &Neighbour<'_, F, R>,
    seat: Seat<F>,
) {
    let notes = Notes::new();
    let plan = Plan {
        wishes: &[Wish::Step(OTHER_LOAD), Wish::Step(RESPONSE)],
        notes: &notes,
    };
    let (seat, fault) = played_alone(rt, alloc, floor, gate, seat, plan);
    same(rt, &fault, &None);
    are_numbered(rt, &seat, &[1, 4]);
}

fn stands_between<F: Naming + Send + Sync, R: Threads + Wait + Abort + Sync>(
    rt: &R,
    alloc: Global,
    ground: Ground,
    setup: &Setup,
)
    requires { F.floor ≡ floor_id ground setup.now 2 9 }
{
    let (floor, mut seats) = opened::<F, R>(rt, alloc, ground, setup, 2, 9);
    let seat = seats.pop().expect(rt, "a seat");
    let gate = Neighbour {
        rt,
        floor: &floor,
        seat: Mutex::new(seats.pop().expect(rt, "a seat")),
    };
    plays_beside(rt, alloc, &floor, &gate, seat);
}

#[test]
fn a_gate_is_passed_before_a_turn_and_behind_it(rt: HostRuntime) {
    let setup = setup(&rt, rt.alloc(), 2);
    let ground = Ground::new(rt.alloc()).expect(&rt, "memory");
    stands_between::<Brand, _>(&rt, rt.alloc(), ground, &setup)
}
