//! A hall and its seats, before the first turn.

ghost use Rattle.std.specs.Prelude.{◌≡◌, [], map, IfOk, OnOk};
ghost use Rattle.std.specs.List.{range_with_len};
ghost use Rattle.floor.specs.FloorId.{floor_id};
ghost use Rattle.floor.specs.Opening.{IsSeatCount};
ghost use Rattle.floor.specs.Turning.{new_seat};
ghost use Rattle.floor.specs.inner.Keeping.{AreParts, OpensUnder};
ghost use Rattle.floor.specs.inner.Tokens.{keeper};

use crate::grounds::{Ground, Naming};
use crate::halls::Hall;
use crate::seats::Seat;
use crate::shares::open_shares;
use crate::tokens::{Log, Token, deal_seat};
use base::NoMemory;
use monitor::Watch;
use record::Recording;
use std::alloc::Global;
use std::marker::PhantomData;
use trials::{Setup, open_world};
use world::World;

/// The hall of a floor on its ground, and the seats in the order of their numbers, without receipts. It is refused where a
/// growth was refused.
pub fn open_hall<F: Naming>(
    ground: Ground,
    alloc: Global,
    setup: &Setup,
    seats: u32,
    capacity: u32,
) -> Result<(Hall<F>, Vec<Seat<F>>), NoMemory>
    requires name { F.floor ≡ floor_id ground setup.now seats capacity }
    requires size { IsSeatCount seats }
    ensures { IfOk result (λ opened. opened.1.items ≡ map new_seat (range_with_len 0 seats)) }
{
    let (world, watch, recording) = open_parts(alloc, setup, seats)?;
    let shares = open_shares(alloc, setup, seats)?;
    let Ground { log, mut token } = ground;
    let row = deal_row(alloc, &log, &mut token, seats)?;
    let hall = Hall {
        world,
        watch,
        recording,
        owners: Vec::new(alloc),
        violation: None,
        shares,
        seats,
        capacity,
        log,
        token,
        of: PhantomData,
    };
    Ok((hall, row))
}

/// A world before its first step, a watch that has seen none, and a recording of so many seats without entries.
fn open_parts(
    alloc: Global,
    setup: &Setup,
    seats: u32,
) -> Result<(World, Watch, Recording), NoMemory>
    requires { IsSeatCount seats }
    ensures { IfOk result (λ parts. AreParts seats setup.now parts.0 parts.1 parts.2) }
{
    let world = open_world(alloc, setup)?;
    let watch = Watch::open(alloc, setup.opening())?;
    let recording = open_recording(alloc, setup, seats)?;
    Ok((world, watch, recording))
}

/// A recording of so many seats under a setup, without entries.
fn open_recording(alloc: Global, setup: &Setup, seats: u32) -> Result<Recording, NoMemory>
    requires { IsSeatCount seats }
    ensures { IfOk result (OpensUnder seats setup.now) }
{
    let opening = Vec::from_slice(alloc, setup.opening())?;
    match Recording::open_seats(alloc, setup.shape(), setup.tables(), opening, seats) {
        Ok(recording) => Ok(recording),
        Err(_) => Err(NoMemory),
    }
}

/// So many seats, each with its number and a token of its own.
fn deal_row<F: Naming>(
    alloc: Global,
    log: &Log,
    token: &mut Token,
    seats: u32,
) -> Result<Vec<Seat<F>>, NoMemory>
    requires ground { F.floor.ground ≡ log.now.shared.table_id }
    requires seats { F.floor.seats ≡ seats }
    requires one { log.now.shared.table_id.words ≡ 1 }
    requires table { token.old.table_id ≡ log.now.shared.table_id }
    requires keeps { token.old.me ≡ (keeper [] [] 0, []) }
    ensures row { IfOk result (λ row. row.items ≡ map new_seat (range_with_len 0 seats)) }
    ensures dealt { OnOk result (token.new.me ≡ (keeper [] [] seats, [])) }
    ensures same { token.new.table_id ≡ token.old.table_id }
{
    let mut row = Vec::with_capacity(alloc, seats as usize)?;
    for number in 0..seats {
        let dealt = deal_seat(log, token);
        row.push_reserved(Seat {
            number,
            receipts: Vec::new(alloc),
            token: dealt,
            of: PhantomData,
        });
    }
    Ok(row)
}
