ghost use Rattle.std.specs.Prelude.{◌≡◌};
ghost use Rattle.floor.specs.FloorId.{floor_id};

use crate::asks::read_asks;
use crate::players::{Open, Player};
use base::{CoreAsk, NoMemory};
use command_output::{Fault, Finding, FoundViolation, Printer, print_whole};
use floor::{Floor, Ground, Naming, Seat, Setup, TurnFault, crew};
use record::Recording;
use replays::first_violation;
use std::alloc::Global;
use std::io::{Read, Write};
use std::marker::Brand;
use std::sync::Wait;
use std::thread::Threads;

/// How a race is made, and what is printed of it.
#[derive(Clone, Copy, Debug)]
pub struct RacePlan {
    /// How many seats there are, 1 to 64, a thread each.
    pub seats: u32,
    /// How many turns each of them tries to make. All of them are at most 1,000,000.
    pub turns: u32,
    /// Whether the recording is printed, and what was found is told on the errors.
    pub recording: bool,
}

/// Has seats race at a floor, a thread each: they put the asks of the input, and draw deliveries, so many calls
/// each. Then it replays the floor's recording, and prints whether there was a violation; or the recording, and tells that
/// on the errors.
pub fn race<R: Threads + Wait + Sync, I: Read + Drop, O: Write + Drop, E: Write>(
    rt: &R,
    alloc: Global,
    setup: &Setup,
    plan: RacePlan,
    input: I,
    output: O,
    errors: &mut E,
) -> Result<Finding, Fault> {
    let asks = read_asks(alloc, setup.shape(), input)?;
    let ground = Ground::new(alloc)?;
    let RacePlan {
        seats,
        turns,
        recording: _,
    } = plan;
    let capacity = seats.saturating_mul(turns);
    match recorded::<Brand, R>(
        rt,
        alloc,
        ground,
        setup,
        seats,
        turns,
        capacity,
        asks.as_slice(),
    ) {
        Ok(recording) => report(alloc, plan, &recording, output, errors),
        Err(NoMemory) => Err(Fault::NoMemory),
    }
}

/// The recording of a race. What its words say was tested, so only memory can be refused.
fn recorded<F: Naming + Send + Sync, R: Threads + Wait + Sync>(
    rt: &R,
    alloc: Global,
    ground: Ground,
    setup: &Setup,
    seats: u32,
    turns: u32,
    capacity: u32,
    asks: &[CoreAsk],
) -> Result<Recording, NoMemory>
    requires { F.floor ≡ floor_id ground setup.now seats capacity }
{
    let Ok((floor, row)) = Floor::<F>::open(ground, alloc, setup, seats, capacity) else {
        return Err(NoMemory);
    };
    let members = cast(alloc, row, asks, seats, setup.seed(), turns)?;
    match crew(rt, alloc, &floor, &Open, members) {
        Ok(back) => close(alloc, floor, back),
        Err(_) => Err(NoMemory),
    }
}

/// Closes a floor whose seats have come back.
fn close<F: Naming>(
    alloc: Global,
    floor: Floor<F>,
    back: Vec<(Seat<F>, Option<TurnFault>)>,
) -> Result<Recording, NoMemory> {
    match floor.close(seats_of(alloc, back)?) {
        Ok(closed) => Ok(closed.recording),
        Err(_) => Err(NoMemory),
    }
}

/// The seats alone, of which each has to have ended without a fault.
fn seats_of<F: Naming>(
    alloc: Global,
    back: Vec<(Seat<F>, Option<TurnFault>)>,
) -> Result<Vec<Seat<F>>, NoMemory> {
    let mut row = Vec::with_capacity(alloc, back.len())?;
    for (seat, ended) in back {
        if ended.is_some() {
            return Err(NoMemory);
        }
        row.push(seat)?;
    }
    Ok(row)
}

/// The seats with their players.
fn cast<F: Naming>(
    alloc: Global,
    row: Vec<Seat<F>>,
    asks: &[CoreAsk],
    seats: u32,
    seed: u64,
    turns: u32,
) -> Result<Vec<(Seat<F>, Player)>, NoMemory> {
    let mut members = Vec::with_capacity(alloc, row.len())?;
    for seat in row {
        let player = Player::new(alloc, asks, seats, seat.number(), seed, turns)?;
        members.push((seat, player))?;
    }
    Ok(members)
}

/// Replays a recording, and prints what was found, or the recording.
fn report<O: Write + Drop, E: Write>(
    alloc: Global,
    plan: RacePlan,
    recording: &Recording,
    output: O,
    errors: &mut E,
) -> Result<Finding, Fault> {
    let Ok(violation) = first_violation(alloc, recording) else {
        return Err(Fault::NoMemory);
    };
    let found = FoundViolation(violation);
    if plan.recording {
        print_whole(alloc, recording, output)?;
        // What is told beside the recording doesn't undo it where nobody takes it.
        let _ = writeln!(errors, "{found}");
        return Ok(found.finding());
    }
    let mut printer = Printer::new(alloc, output)?;
    printer.line(found);
    printer.finish(Ok(found.finding()))
}
