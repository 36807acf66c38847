//! Desks that are opened and closed, and seats that are taken of their rows and work.

ghost use Rattle.std.specs.Prelude.{◌≡◌, All};
ghost use Rattle.desk.specs.Plans.{plan_of};

use crate::asserting::same;
use crate::jobs::compare_with_trials;
use base::NoMemory;
use desk::{Desk, DeskSeat, Job, Planned, work};
use std::alloc::Global;
use std::process::Abort;
use trials::TrialResult;

/// A desk that is opened, and its seats.
pub fn opened<'j, D: Planned, R: Abort>(
    rt: &R,
    alloc: Global,
    job: &'j Job,
    n: u32,
    count: u32,
) -> (Desk<'j, D>, Vec<DeskSeat<D>>)
    requires { D.plan ≡ plan_of job.now }
    ensures { All (λ seat. seat.desk ≡ result.0.id) result.1.items }
{
    Desk::<D>::new(alloc, job, n, count).expect(rt, "a desk")
}

/// What a desk is closed with, whose seats are all there.
pub fn closed<D: Planned, R: Abort>(
    rt: &R,
    desk: Desk<'_, D>,
    seats: Vec<DeskSeat<D>>,
) -> Vec<Option<TrialResult>>
    requires { All (λ seat. seat.desk ≡ desk.id) seats.items }
{
    desk.close(seats).ok().expect(rt, "closed")
}

/// Closes a desk, and compares it with the trials of its job.
pub fn closes_as_trials<D: Planned, R: Abort>(
    rt: &R,
    alloc: Global,
    desk: Desk<'_, D>,
    seats: Vec<DeskSeat<D>>,
    job: &Job,
    n: u32,
)
    requires seats { All (λ seat. seat.desk ≡ desk.id) seats.items }
    requires plan { D.plan ≡ plan_of job.now }
{
    let places = closed(rt, desk, seats);
    compare_with_trials::<D, R>(rt, alloc, job, n, &places)
}

/// Takes the last two seats of a row.
pub fn take_two<D: Planned, R: Abort>(
    rt: &R,
    desk: &Desk<'_, D>,
    seats: &mut Vec<DeskSeat<D>>,
) -> (DeskSeat<D>, DeskSeat<D>)
    requires { All (λ seat. seat.desk ≡ desk.now.id) seats.old.items }
    ensures rest { All (λ seat. seat.desk ≡ desk.now.id) seats.new.items }
    ensures both { (result.0.desk ≡ desk.now.id) × (result.1.desk ≡ desk.now.id) }
{
    let last = seats.pop().expect(rt, "a seat");
    let other = seats.pop().expect(rt, "a seat");
    (other, last)
}

/// Compares what a seat finds of a number.
pub fn looks<D: Planned, R: Abort>(
    rt: &R,
    desk: &Desk<'_, D>,
    seat: &mut DeskSeat<D>,
    number: u32,
    wanted: Option<TrialResult>,
)
    requires { seat.old.desk ≡ desk.now.id }
    ensures { seat.new.desk ≡ desk.now.id }
{
    same(rt, &desk.look(seat, number), &wanted);
}

/// Puts a seat back.
pub fn put_one<D: Planned, R: Abort>(
    rt: &R,
    desk: &Desk<'_, D>,
    seats: &mut Vec<DeskSeat<D>>,
    seat: DeskSeat<D>,
)
    requires seats { All (λ seat. seat.desk ≡ desk.now.id) seats.old.items }
    requires seat { seat.desk ≡ desk.now.id }
    ensures { All (λ seat. seat.desk ≡ desk.now.id) seats.new.items }
{
    seats.push(seat).expect(rt, "memory");
}

/// Puts two seats back.
pub fn put_back<D: Planned, R: Abort>(
    rt: &R,
    desk: &Desk<'_, D>,
    seats: &mut Vec<DeskSeat<D>>,
    one: DeskSeat<D>,
    other: DeskSeat<D>,
)
    requires seats { All (λ seat. seat.desk ≡ desk.now.id) seats.old.items }
    requires both { (one.desk ≡ desk.now.id) × (other.desk ≡ desk.now.id) }
    ensures { All (λ seat. seat.desk ≡ desk.now.id) seats.new.items }
{
    put_one(rt, desk, seats, one);
    put_one(rt, desk, seats, other);
}

/// Works off what there is for a seat, and hands the seat back.
pub fn worked<D: Planned>(
    desk: &Desk<'_, D>,
    mut seat: DeskSeat<D>,
) -> (DeskSeat<D>, Result<u32, NoMemory>)
    requires { seat.desk ≡ desk.now.id }
    ensures { result.0.desk ≡ desk.entry.now.id }
{
    let made = work(desk, &mut seat);
    (seat, made)
}
