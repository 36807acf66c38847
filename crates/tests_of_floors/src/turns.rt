ghost use Rattle.std.specs.Prelude.{◌≡◌};
ghost use Rattle.floor.specs.FloorId.{floor_id};

use crate::asserting::same;
use crate::entries::entry_of;
use crate::floor_ends::{closed, opened, try_open};
use crate::setups::setup;
use base::{Ask, BlockId, Buffer, CacheId, Step};
use floor::{CloseFault, Closed, Floor, FloorFault, Ground, Naming, Seat, Setup, TurnFault, Wish};
use record::{Entry, Recording};
use replays::{ReplayFault, Replayed, replay};
use std::alloc::Global;
use std::marker::Brand;
use std::process::Abort;
use std::sync::Wait;

const LOAD: Step = Step::Ask {
    cache: CacheId(0),
    block: BlockId(0),
    ask: Ask::Load,
};

const OTHER_LOAD: Step = Step::Ask {
    cache: CacheId(1),
    block: BlockId(0),
    ask: Ask::Load,
};

const STORE: Step = Step::Ask {
    cache: CacheId(0),
    block: BlockId(0),
    ask: Ask::Store(7),
};

const REQUEST: Step = Step::Request {
    block: BlockId(0),
    index: 0,
};

const RESPONSE: Step = Step::Response {
    block: BlockId(0),
    index: 0,
};

/// A turn, and the line of its receipt, if it has one, or its fault.
type Turn<'a> = (Wish, Result<Option<&'a str>, TurnFault>);

/// What a floor's only seat does.
struct Row<'a> {
    caches: u32,
    capacity: u32,
    turns: &'a [Turn<'a>],
    /// The entries of what is closed.
    lines: &'a [&'a str],
    /// Its text, where that is compared.
    text: Option<&'a str>,
}

/// A floor that is full, a store and a load, a draw behind one where nothing can be delivered, and draws of one of two.
const ROWS: [Row<'static>; 6] = [
    Row {
        caches: 2,
        capacity: 2,
        turns: &[
            (Wish::Step(LOAD), Ok(Some("ask 0 0 load = sent"))),
            (Wish::Step(REQUEST), Ok(Some("request 0 0 = moved"))),
            (Wish::Step(RESPONSE), Err(TurnFault::Full)),
            (Wish::Any(0), Err(TurnFault::Full)),
        ],
        lines: &["ask 0 0 load = sent", "request 0 0 = moved"],
        text: None,
    },
    Row {
        caches: 1,
        capacity: 9,
        turns: &[
            (Wish::Step(STORE), Ok(Some("ask 0 0 store 7 = sent"))),
            (Wish::Step(REQUEST), Ok(Some("request 0 0 = moved"))),
            (Wish::Step(RESPONSE), Ok(Some("response 0 0 = store 0 7"))),
            (Wish::Step(LOAD), Ok(Some("ask 0 0 load = load 0 7"))),
        ],
        lines: &[
            "ask 0 0 store 7 = sent",
            "request 0 0 = moved",
            "response 0 0 = store 0 7",
            "ask 0 0 load = load 0 7",
        ],
        text: Some(
            "msi-recording 2\nprotocol msi\nshape 1 1\nseats 1\nopening 0\ncells 0\nentries 4\n\
             by 0 ask 0 0 store 7 = sent\nby 0 request 0 0 = moved\n\
             by 0 response 0 0 = store 0 7\nby 0 ask 0 0 load = load 0 7\nend\n",
        ),
    },
    Row {
        caches: 2,
        capacity: 4,
        turns: &[
            (Wish::Any(5), Ok(None)),
            (Wish::Step(LOAD), Ok(Some("ask 0 0 load = sent"))),
            (Wish::Any(5), Ok(Some("request 0 0 = moved"))),
        ],
        lines: &["ask 0 0 load = sent", "request 0 0 = moved"],
        text: None,
    },
    Row {
        caches: 2,
        capacity: 3,
        turns: &[
            (Wish::Step(LOAD), Ok(Some("ask 0 0 load = sent"))),
            (Wish::Step(OTHER_LOAD), Ok(Some("ask 1 0 load = sent"))),
            (Wish::Any(0), Ok(Some("request 0 0 = moved"))),
        ],
        lines: &[
            "ask 0 0 load = sent",
            "ask 1 0 load = sent",
            "request 0 0 = moved",
        ],
        text: None,
    },
    Row {
        caches: 2,
        capacity: 3,
        turns: &[
            (Wish::Step(LOAD), Ok(Some("ask 0 0 load = sent"))),
            (Wish::Step(OTHER_LOAD), Ok(Some("ask 1 0 load = sent"))),
            (Wish::Any(1), Ok(Some("request 0 1 = moved"))),
        ],
        lines: &[
            "ask 0 0 load = sent",
            "ask 1 0 load = sent",
            "request 0 1 = moved",
        ],
        text: None,
    },
    Row {
        caches: 2,
        capacity: 3,
        turns: &[
            (Wish::Step(LOAD), Ok(Some("ask 0 0 load = sent"))),
            (Wish::Step(OTHER_LOAD), Ok(Some("ask 1 0 load = sent"))),
            (Wish::Any(2), Ok(Some("request 0 0 = moved"))),
        ],
        lines: &[
            "ask 0 0 load = sent",
            "ask 1 0 load = sent",
            "request 0 0 = moved",
        ],
        text: None,
    },
];

/// Takes a turn by a floor's only seat, and answers its entry.
fn turned<F: Naming, R: Wait + Abort>(
    rt: &R,
    floor: &Floor<F>,
    seat: &mut Seat<F>,
    wish: Wish,
) -> Result<Option<Entry>, TurnFault> {
    let number = seat.made() as u64;
    let receipt = match wish {
        Wish::Step(step) => floor.turn(rt, seat, step)?,
        Wish::Any(word) => match floor.turn_any(rt, seat, word)? {
            Some(receipt) => receipt,
            None => return Ok(None),
        },
    };
    same(rt, &receipt.number(), &number);
    Ok(Some(receipt.entry()))
}

/// The entry of a line.
fn wanted_of(wanted: Result<Option<&str>, TurnFault>) -> Result<Option<Entry>, TurnFault> {
    match wanted {
        Ok(Some(line)) => Ok(entry_of(line)),
        Ok(None) => Ok(None),
        Err(fault) => Err(fault),
    }
}

fn takes_turns<F: Naming, R: Wait + Abort>(
    rt: &R,
    floor: &Floor<F>,
    seat: &mut Seat<F>,
    row: &Row<'_>,
) {
    for (wish, wanted) in row.turns {
        same(rt, &turned(rt, floor, seat, *wish), &wanted_of(*wanted));
    }
    same(rt, &seat.made(), &row.lines.len());
}

/// Compares an entry of what is closed, which is the only seat's.
fn is_entry<F: Naming, R: Abort>(rt: &R, closed: &Closed<F>, number: usize, line: &str) {
    let found = closed.recording.entries().get(number).copied();
    same(rt, &found, &entry_of(line));
    same(rt, &closed.owners.get(number).copied(), &Some(0));
}

/// Compares what is closed with the entries of a floor's only seat.
pub fn compare<F: Naming, R: Abort>(rt: &R, closed: &Closed<F>, lines: &[&str]) {
    same(rt, &closed.recording.entries().len(), &lines.len());
    same(rt, &closed.owners.len(), &lines.len());
    for (number, line) in lines.iter().enumerate() {
        is_entry(rt, closed, number, line);
    }
    same(rt, &closed.recording.seats(), &1);
    same(rt, &closed.recording.owner(0), &Some(0));
    same(rt, &closed.violation, &None);
}

/// Compares the text of a recording.
fn writes(rt: &impl Abort, alloc: Global, recording: &Recording, text: &str) {
    let mut sink = Buffer::open(alloc);
    recording.write(&mut sink).expect(rt, "memory");
    same(rt, &sink.bytes(), &text.as_bytes());
}

pub fn replayed(alloc: Global, recording: &Recording) -> Result<Replayed, ReplayFault> {
    replay(alloc, recording)
}

/// Compares what is closed with a row, and how many entries the recording has when it is replayed.
fn compare_replayed<F: Naming, R: Abort>(rt: &R, alloc: Global, closed: &Closed<F>, row: &Row<'_>) {
    compare(rt, closed, row.lines);
    let replayed = replayed(alloc, &closed.recording).expect(rt, "a replay");
    same(rt, &replayed.entries.len(), &row.lines.len());
    if let Some(text) = row.text {
        writes(rt, alloc, &closed.recording, text);
    }
}

/// Without its seat a floor isn't closed.
fn misses_its_seat<F: Naming, R: Abort>(rt: &R, alloc: Global, floor: Floor<F>) -> Floor<F> {
    let refused = floor.close(Vec::new(alloc)).err();
    let (fault, floor, _) = refused.expect(rt, "a seat is missing");
    same(rt, &fault, &CloseFault::SeatMissing);
    floor
}

fn closes<F: Naming, R: Abort>(
    rt: &R,
    alloc: Global,
    floor: Floor<F>,
    seats: Vec<Seat<F>>,
    row: &Row<'_>,
) {
    let floor = misses_its_seat(rt, alloc, floor);
    compare_replayed(rt, alloc, &closed(rt, floor, seats), row);
}

fn plays<F: Naming, R: Wait + Abort>(
    rt: &R,
    alloc: Global,
    ground: Ground,
    setup: &Setup,
    row: &Row<'_>,
)
    requires { F.floor ≡ floor_id ground setup.now 1 row.now.capacity }
{
    let (floor, mut seats) = opened::<F, R>(rt, alloc, ground, setup, 1, row.capacity);
    for seat in seats.iter_mut() {
        takes_turns(rt, &floor, seat, row);
    }
    closes(rt, alloc, floor, seats, row)
}

#[test]
fn turns_of_an_only_seat(rt: HostRuntime) {
    for row in &ROWS {
        let setup = setup(&rt, rt.alloc(), row.caches);
        let ground = Ground::new(rt.alloc()).expect(&rt, "memory");
        plays::<Brand, _>(&rt, rt.alloc(), ground, &setup, row)
    }
}

/// Asks by a seat for the first cache, and then makes what is everybody's: there is no such response yet.
fn asks_and_responds<F: Naming, R: Wait + Abort>(rt: &R, floor: &Floor<F>, seat: &mut Seat<F>) {
    let refused = if seat.number() == 0 {
        None
    } else {
        Some(TurnFault::NotYours)
    };
    let answer = floor.turn(rt, seat, LOAD).err();
    same(rt, &answer, &refused);
    let receipt = floor.turn(rt, seat, RESPONSE).expect(rt, "a turn");
    let absent = entry_of("response 0 0 = absent");
    same(rt, &Some(receipt.entry()), &absent);
}

/// Compares what is closed of three seats, of which each made what is everybody's, the first one behind a load.
fn compare_foreign<F: Naming, R: Abort>(rt: &R, closed: &Closed<F>) {
    same(rt, &closed.owners.as_slice(), &[0u32, 0, 1, 2].as_slice());
    same(rt, &closed.recording.seats(), &3);
    let ends = (closed.recording.owner(0), closed.recording.owner(3));
    same(rt, &ends, &(Some(0), Some(2)));
}

fn foreign_steps<F: Naming, R: Wait + Abort>(rt: &R, alloc: Global, ground: Ground, setup: &Setup)
    requires { F.floor ≡ floor_id ground setup.now 3 4 }
{
    let (floor, mut seats) = opened::<F, R>(rt, alloc, ground, setup, 3, 4);
    for seat in seats.iter_mut() {
        asks_and_responds(rt, &floor, seat);
    }
    compare_foreign(rt, &closed(rt, floor, seats));
}

#[test]
fn steps_of_other_seats(rt: HostRuntime) {
    let setup = setup(&rt, rt.alloc(), 2);
    let ground = Ground::new(rt.alloc()).expect(&rt, "memory");
    foreign_steps::<Brand, _>(&rt, rt.alloc(), ground, &setup)
}

fn refusal<F: Naming>(
    alloc: Global,
    ground: Ground,
    setup: &Setup,
    seats: u32,
    capacity: u32,
) -> Option<FloorFault>
    requires { F.floor ≡ floor_id ground setup.now seats capacity }
{
    try_open::<F>(alloc, ground, setup, seats, capacity).err()
}

#[test]
fn floors_that_are_not_opened(rt: HostRuntime) {
    let alloc = rt.alloc();
    let setup = setup(&rt, alloc, 1);
    let rows = [
        (0, 1_000_001, Some(FloorFault::NoSeats)),
        (65, 1_000_001, Some(FloorFault::TooManySeats)),
        (64, 1_000_001, Some(FloorFault::OverLimit)),
        (64, 1_000_000, None),
    ];
    for (seats, capacity, fault) in &rows {
        let ground = Ground::new(alloc).expect(&rt, "memory");
        let found = refusal::<Brand>(alloc, ground, &setup, *seats, *capacity);
        same(&rt, &found, fault);
    }
}
