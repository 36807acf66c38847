ghost use Rattle.std.specs.Prelude.{◌≡◌};
ghost use Rattle.floor.specs.FloorId.{floor_id};

use crate::asserting::same;
use crate::entries::entry_of;
use crate::floor_ends::{closed, try_open};
use crate::setups::open_setup;
use crate::turns::{compare, replayed};
use base::{Shape, Step};
use floor::{Floor, FloorFault, Ground, Naming, Receipt, Seat, Setup, TurnFault};
use record::Recording;
use std::alloc::Global;
use std::marker::Brand;
use std::process::Abort;
use std::sync::Wait;
use std::test::Fail;

/// A load that is asked for and served, of which the last two steps are drawn.
const LOAD: [&str; 3] = [
    "ask 0 0 load = sent",
    "request 0 0 = moved",
    "response 0 0 = load 0 0",
];

/// So many caches and one block that opens at 0.
fn setup(alloc: Global, caches: u32) -> Result<Setup, Fail> {
    let shape = Shape::new(caches, 1)?;
    Ok(open_setup(shape, vec![in alloc; 0]?)?)
}

fn ground(rt: &impl Abort, alloc: Global) -> Ground {
    match Ground::new(alloc) {
        Ok(ground) => ground,
        Err(_) => Ground::new(alloc).expect(rt, "a second refusal"),
    }
}

fn turned<F: Naming, R: Wait + Abort>(
    rt: &R,
    floor: &Floor<F>,
    seat: &mut Seat<F>,
    step: Step,
) -> Receipt<F> {
    let made = seat.made();
    match floor.turn(rt, seat, step) {
        Ok(receipt) => receipt,
        Err(fault) => {
            same(rt, &fault, &TurnFault::NoMemory);
            same(rt, &seat.made(), &made);
            floor.turn(rt, seat, step).expect(rt, "a second refusal")
        }
    }
}

fn drawn<F: Naming, R: Wait + Abort>(
    rt: &R,
    floor: &Floor<F>,
    seat: &mut Seat<F>,
) -> Option<Receipt<F>> {
    let made = seat.made();
    match floor.turn_any(rt, seat, 0) {
        Ok(receipt) => receipt,
        Err(fault) => {
            same(rt, &fault, &TurnFault::NoMemory);
            same(rt, &seat.made(), &made);
            floor.turn_any(rt, seat, 0).expect(rt, "a second refusal")
        }
    }
}

/// Makes a load, the first step by a turn and the others by draws.
fn make<F: Naming, R: Wait + Abort>(rt: &R, floor: &Floor<F>, seat: &mut Seat<F>) {
    for (number, line) in LOAD.iter().enumerate() {
        let entry = entry_of(line).expect(rt, "an entry");
        let receipt = if number == 0 {
            turned(rt, floor, seat, entry.step)
        } else {
            drawn(rt, floor, seat).expect(rt, "a draw")
        };
        same(rt, &receipt.number(), &(number as u64));
        same(rt, &receipt.entry(), &entry);
    }
    same(rt, &seat.made(), &LOAD.len());
}

/// Makes a load by a floor's only seat, and compares what is closed.
fn loads<F: Naming, R: Wait + Abort>(
    rt: &R,
    alloc: Global,
    floor: Floor<F>,
    mut seats: Vec<Seat<F>>,
) {
    for seat in seats.iter_mut() {
        make(rt, &floor, seat);
    }
    let closed = closed(rt, floor, seats);
    compare(rt, &closed, &LOAD);
    is_legal(rt, alloc, &closed.recording, LOAD.len());
}

/// Whether a floor was opened, at which a load is made then.
fn tries<F: Naming, R: Wait + Abort>(rt: &R, alloc: Global, ground: Ground, setup: &Setup) -> bool
    requires { F.floor ≡ floor_id ground setup.now 1 9 }
{
    match try_open::<F>(alloc, ground, setup, 1, 9) {
        Ok((floor, seats)) => {
            loads(rt, alloc, floor, seats);
            true
        }
        Err(fault) => {
            same(rt, &fault, &FloorFault::NoMemory);
            false
        }
    }
}

#[test]
fn a_floor_and_its_turns(rt: HostRuntime) -> Result<(), Fail> {
    let alloc = rt.alloc();
    let setup = setup(alloc, 1)?;
    let mut opened = tries::<Brand, _>(&rt, alloc, ground(&rt, alloc), &setup);
    if !opened {
        opened = tries::<Brand, _>(&rt, alloc, ground(&rt, alloc), &setup);
    }
    same(&rt, &opened, &true);
    Ok(())
}

/// Compares how much is recorded, and how much of it is legal.
fn is_legal(rt: &impl Abort, alloc: Global, recording: &Recording, made: usize) {
    same(rt, &recording.entries().len(), &made);
    let found = match replayed(alloc, recording) {
        Ok(found) => found,
        Err(_) => replayed(alloc, recording).expect(rt, "a second refusal"),
    };
    same(rt, &found.entries.len(), &made);
}
