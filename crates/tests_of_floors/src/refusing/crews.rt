ghost use Rattle.std.specs.Prelude.{◌≡◌};
ghost use Rattle.floor.specs.FloorId.{floor_id};

use crate::asserting::same;
use crate::crews::{Meeting, Script, cast, played, replayed};
use crate::floor_ends::{closed, try_open};
use crate::setups::open_setup;
use base::{NoMemory, Shape};
use floor::{CrewFault, Floor, Ground, Naming, Seat, Setup, TurnFault};
use record::Recording;
use std::alloc::Global;
use std::marker::Brand;
use std::process::Abort;
use std::sync::Wait;
use std::test::Fail;
use std::thread::Threads;

/// So many caches and one block that opens at 0.
fn setup(alloc: Global, caches: u32) -> Result<Setup, Fail> {
    let shape = Shape::new(caches, 1)?;
    Ok(open_setup(shape, vec![in alloc; 0]?)?)
}

/// Has the seats play their scripts, at the second call where the first one is refused memory. Each waits for the others, which come or
/// have no thread.
fn played_at_last<'a, F: Naming + Send + Sync, R: Threads + Wait + Abort + Sync>(
    rt: &R,
    alloc: Global,
    floor: &Floor<F>,
    gate: &Meeting,
    members: Vec<(Seat<F>, Script<'a>)>,
) -> Vec<(Seat<F>, Option<TurnFault>)> {
    match played(rt, alloc, floor, gate, members) {
        Ok(back) => back,
        Err((fault, members)) => {
            same(rt, &fault, &CrewFault::NoMemory);
            same(rt, &members.len(), &3);
            let back = played(rt, alloc, floor, gate, members).ok();
            back.expect(rt, "a second refusal")
        }
    }
}

/// The seats that came back with no fault or without memory, and how much they made: nothing without a thread.
fn come_back<F: Naming, R: Abort>(
    rt: &R,
    gate: &Meeting,
    back: Vec<(Seat<F>, Option<TurnFault>)>,
    mut seats: Vec<Seat<F>>,
) -> (Vec<Seat<F>>, usize) {
    let mut made = 0usize;
    for (seat, ended) in back {
        let is_right = ended.is_none() || ended == Some(TurnFault::NoMemory);
        same(rt, &is_right, &true);
        let played = seat.made() > 0 || ended.is_none();
        same(rt, &(gate.has_come(seat.number()) || !played), &true);
        made = made.saturating_add(seat.made());
        seats.push(seat).expect(rt, "room for each");
    }
    (seats, made)
}

/// Compares how much is recorded, and how much of it is legal.
fn is_legal(rt: &impl Abort, alloc: Global, recording: &Recording, made: usize) {
    same(rt, &recording.entries().len(), &made);
    let found = match replayed(alloc, recording) {
        Ok(found) => found,
        Err(_) => replayed(alloc, recording).expect(rt, "a second refusal"),
    };
    same(rt, &found.entries.len(), &made);
}

/// Three seats race, and come back with no fault or without memory. Answers how much they made.
fn race_of<F: Naming + Send + Sync, R: Threads + Wait + Abort + Sync>(
    rt: &R,
    alloc: Global,
    floor: &Floor<F>,
    seats: Vec<Seat<F>>,
) -> Result<(Vec<Seat<F>>, usize), NoMemory> {
    let gate = Meeting::of(3);
    let room = Vec::with_capacity(alloc, 3)?;
    let members = cast(alloc, seats, &gate)?;
    let back = played_at_last(rt, alloc, floor, &gate, members);
    let (seats, made) = come_back(rt, &gate, back, room);
    same(rt, &gate.is_right(), &true);
    Ok((seats, made))
}

/// Three seats race, and what they made is legal.
fn race<F: Naming + Send + Sync, R: Threads + Wait + Abort + Sync>(
    rt: &R,
    alloc: Global,
    ground: Ground,
    setup: &Setup,
) -> Result<(), Fail>
    requires { F.floor ≡ floor_id ground setup.now 3 600 }
{
    let (floor, seats) = try_open::<F>(alloc, ground, setup, 3, 600)?;
    let (seats, made) = race_of(rt, alloc, &floor, seats)?;
    let closed = closed(rt, floor, seats);
    is_legal(rt, alloc, &closed.recording, made);
    Ok(())
}

#[test]
fn a_crew(rt: HostRuntime) -> Result<(), Fail> {
    let alloc = rt.alloc();
    let setup = setup(alloc, 2)?;
    race::<Brand, _>(&rt, alloc, Ground::new(alloc)?, &setup)
}
