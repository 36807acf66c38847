ghost use Rattle.std.specs.Prelude.{◌≡◌};
ghost use Rattle.floor.specs.FloorId.{floor_id};

use crate::asserting::same;
use crate::floor_ends::{closed, opened};
use crate::setups::setup;
use base::{Ask, BlockId, CacheId, NoMemory, Step};
use floor::{
    Chooser, Closed, CrewFault, Floor, Gate, Ground, Naming, Receipt, Seat, Setup, TurnFault, Wish,
    crew,
};
use record::Recording;
use replays::{ReplayFault, Replayed, replay};
use std::alloc::Global;
use std::marker::Brand;
use std::process::Abort;
use std::sync::Wait;
use std::sync::atomic::{AtomicBool, AtomicU32, Ordering};
use std::thread::Threads;

const LOOKS: u32 = 1_000_000_000;

const STEPS: u32 = 100;

/// The step that a seat wishes at one of its first calls: asks of its cache, or the oldest request at the home.
fn wished(seat: u32, call: u32) -> Step {
    if seat == 2 {
        return Step::Request {
            block: BlockId(0),
            index: 0,
        };
    }
    let ask = match call % 3 {
        0 => Ask::Load,
        1 => Ask::Store(u64::from(call)),
        _ => Ask::Replace,
    };
    Step::Ask {
        cache: CacheId(seat),
        block: BlockId(0),
        ask,
    }
}

/// Wishes steps, then as many draws, and notes where it is told of another receipt than the last, and that its seat has ended.
pub struct Script<'a> {
    seat: u32,
    calls: u32,
    meeting: &'a Meeting,
}

impl<'a> Drop for Script<'a> {
    fn drop(self) {
        let Script {
            seat,
            calls: _,
            meeting,
        } = self;
        if let Some(gone) = meeting.gone.get(seat as usize) {
            gone.store(true, Ordering::SeqCst);
        }
    }
}

impl<'a, F: Naming> Chooser<F> for Script<'a> {
    fn next(&mut self, last: Option<&Receipt<F>>) -> Option<Wish> {
        let call = self.calls;
        self.calls = call.saturating_add(1);
        let told = match last {
            Some(receipt) => Some(receipt.entry().step),
            None => None,
        };
        if call == 0 && told.is_some() {
            self.meeting.note_mistake();
        }
        if call > 0 && call <= STEPS && told != Some(wished(self.seat, call - 1)) {
            self.meeting.note_mistake();
        }
        if call < STEPS {
            Some(Wish::Step(wished(self.seat, call)))
        } else if call < 2 * STEPS {
            Some(Wish::Any(call))
        } else {
            None
        }
    }
}

/// Lets nobody through its first call before each of so many seats has come or has ended, and notes calls that are out of order.
#[derive(Drop)]
pub struct Meeting {
    awaited: u32,
    passed: [AtomicU32; 3],
    ended: [AtomicU32; 3],
    gone: [AtomicBool; 3],
    mistaken: AtomicBool,
}

impl Meeting {
    pub fn of(awaited: u32) -> Meeting {
        Meeting {
            awaited,
            passed: [AtomicU32::new(0), AtomicU32::new(0), AtomicU32::new(0)],
            ended: [AtomicU32::new(0), AtomicU32::new(0), AtomicU32::new(0)],
            gone: [
                AtomicBool::new(false),
                AtomicBool::new(false),
                AtomicBool::new(false),
            ],
            mistaken: AtomicBool::new(false),
        }
    }

    /// Whether a seat has made a call.
    pub fn has_come(&self, seat: u32) -> bool {
        match self.passed.get(seat as usize) {
            Some(count) => count.load(Ordering::SeqCst) > 0,
            None => false,
        }
    }

    /// Whether all was as it should be.
    pub fn is_right(&self) -> bool {
        !self.mistaken.load(Ordering::SeqCst)
    }

    fn note_mistake(&self) {
        self.mistaken.store(true, Ordering::SeqCst);
    }

    fn all_are_there(&self) -> bool {
        for (seat, gone) in (0..self.awaited).zip(&self.gone) {
            if !self.has_come(seat) && !gone.load(Ordering::SeqCst) {
                return false;
            }
        }
        true
    }

    fn wait(&self) {
        for _ in 0..LOOKS {
            if self.all_are_there() {
                return;
            }
        }
        self.note_mistake();
    }

    fn count(&self, counts: &[AtomicU32; 3], seat: u32, call: u32) {
        match counts.get(seat as usize) {
            Some(count) if count.fetch_add(1, Ordering::SeqCst) == call => {}
            _ => self.note_mistake(),
        }
    }
}

impl Gate for Meeting {
    fn pass(&self, seat: u32, call: u32) {
        self.count(&self.passed, seat, call);
        if call == 0 {
            self.wait();
        }
    }

    fn done(&self, seat: u32, call: u32) {
        self.count(&self.ended, seat, call);
    }
}

/// The seats with their scripts.
pub fn cast<'a, F: Naming>(
    alloc: Global,
    seats: Vec<Seat<F>>,
    meeting: &'a Meeting,
) -> Result<Vec<(Seat<F>, Script<'a>)>, NoMemory> {
    let mut members = Vec::new(alloc);
    for seat in seats {
        let script = Script {
            seat: seat.number(),
            calls: 0,
            meeting,
        };
        members.push((seat, script))?;
    }
    Ok(members)
}

/// Compares a seat that came back with what it wished, and answers how many receipts it has.
fn compare<F: Naming, R: Abort>(rt: &R, seat: &Seat<F>, ended: &Option<TurnFault>) -> usize {
    same(rt, ended, &None);
    let receipts = seat.receipts();
    for call in 0..STEPS {
        let receipt = receipts.get(call as usize).expect(rt, "a receipt");
        same(rt, &receipt.entry().step, &wished(seat.number(), call));
    }
    receipts.len()
}

pub fn replayed(alloc: Global, recording: &Recording) -> Result<Replayed, ReplayFault> {
    replay(alloc, recording)
}

fn compare_closed<F: Naming, R: Abort>(rt: &R, alloc: Global, closed: &Closed<F>, made: usize) {
    same(rt, &closed.recording.entries().len(), &made);
    same(rt, &closed.owners.len(), &made);
    let replayed = replayed(alloc, &closed.recording).expect(rt, "a replay");
    same(rt, &replayed.entries.len(), &made);
    same(rt, &closed.violation, &replayed.violation);
}

/// Has the seats play as their choosers wish.
pub fn played<
    F: Naming + Send + Sync,
    R: Threads + Wait + Sync,
    G: Gate + Sync,
    C: Chooser<F> + Drop + Send,
>(
    rt: &R,
    alloc: Global,
    floor: &Floor<F>,
    gate: &G,
    members: Vec<(Seat<F>, C)>,
) -> Result<Vec<(Seat<F>, Option<TurnFault>)>, (CrewFault, Vec<(Seat<F>, C)>)> {
    crew(rt, alloc, floor, gate, members)
}

/// Has the seats play their scripts once so many have come.
fn come_and_play<F: Naming + Send + Sync, R: Threads + Wait + Abort + Sync>(
    rt: &R,
    alloc: Global,
    floor: &Floor<F>,
    seats: Vec<Seat<F>>,
    awaited: u32,
) -> Vec<(Seat<F>, Option<TurnFault>)> {
    let gate = Meeting::of(awaited);
    let members = cast(alloc, seats, &gate).expect(rt, "memory");
    let back = played(rt, alloc, floor, &gate, members).ok();
    same(rt, &gate.is_right(), &true);
    back.expect(rt, "a crew")
}

/// Compares the seats that came back with what they wished, and answers how many receipts they have.
fn compare_all<F: Naming, R: Abort>(
    rt: &R,
    alloc: Global,
    back: Vec<(Seat<F>, Option<TurnFault>)>,
) -> (Vec<Seat<F>>, usize) {
    let mut made = 0usize;
    let mut seats = Vec::new(alloc);
    for (seat, ended) in back {
        made = made.saturating_add(compare(rt, &seat, &ended));
        seats.push(seat).expect(rt, "memory");
    }
    (seats, made)
}

fn closes<F: Naming, R: Abort>(
    rt: &R,
    alloc: Global,
    floor: Floor<F>,
    seats: Vec<Seat<F>>,
    made: usize,
) {
    let closed = closed(rt, floor, seats);
    compare_closed(rt, alloc, &closed, made)
}

fn race<F: Naming + Send + Sync, R: Threads + Wait + Abort + Sync>(
    rt: &R,
    alloc: Global,
    ground: Ground,
    setup: &Setup,
    count: u32,
)
    requires { F.floor ≡ floor_id ground setup.now count 600 }
{
    let (floor, seats) = opened::<F, R>(rt, alloc, ground, setup, count, 600);
    let back = come_and_play(rt, alloc, &floor, seats, count);
    let (seats, made) = compare_all(rt, alloc, back);
    closes(rt, alloc, floor, seats, made)
}

#[test]
fn seats_that_meet_over_two_caches(rt: HostRuntime) {
    let setup = setup(&rt, rt.alloc(), 2);
    for count in [3, 2] {
        let ground = Ground::new(rt.alloc()).expect(&rt, "memory");
        race::<Brand, _>(&rt, rt.alloc(), ground, &setup, count)
    }
}

/// A crew of no seats ends at once, with nothing.
fn nobody<F: Naming + Send + Sync, R: Threads + Wait + Abort + Sync>(
    rt: &R,
    alloc: Global,
    ground: Ground,
    setup: &Setup,
)
    requires { F.floor ≡ floor_id ground setup.now 2 600 }
{
    let (floor, seats) = opened::<F, R>(rt, alloc, ground, setup, 2, 600);
    let back = come_and_play(rt, alloc, &floor, Vec::new(alloc), 0);
    same(rt, &back.is_empty(), &true);
    closes(rt, alloc, floor, seats, 0)
}

#[test]
fn a_crew_of_no_seats(rt: HostRuntime) {
    let setup = setup(&rt, rt.alloc(), 2);
    let ground = Ground::new(rt.alloc()).expect(&rt, "memory");
    nobody::<Brand, _>(&rt, rt.alloc(), ground, &setup)
}
