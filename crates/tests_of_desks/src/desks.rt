ghost use Rattle.std.specs.Prelude.{◌≡◌, All};
ghost use Rattle.desk.specs.Plans.{IsResultOf, plan_of};

use crate::asserting::same;
use crate::desk_rows::{closed, looks, opened, put_back, take_two};
use crate::jobs::{racing_pair, result_of};
use desk::{CloseFault, Desk, DeskFault, DeskSeat, Job, Planned, PostFault};
use std::alloc::Global;
use std::marker::Brand;
use std::process::Abort;
use trials::TrialResult;

fn claims<D: Planned, R: Abort>(
    rt: &R,
    desk: &Desk<'_, D>,
    zero: &mut DeskSeat<D>,
    one: &mut DeskSeat<D>,
)
    requires { (zero.old.desk ≡ desk.now.id) × (one.old.desk ≡ desk.now.id) }
    ensures { (zero.new.desk ≡ desk.now.id) × (one.new.desk ≡ desk.now.id) }
{
    same(rt, &desk.claim(zero), &Some(0));
    same(rt, &desk.claim(one), &Some(1));
    same(rt, &desk.claim(one), &Some(2));
    same(rt, &desk.claim(zero), &None);
    same(rt, &desk.claim(zero), &None);
}

fn posts<D: Planned, R: Abort>(
    rt: &R,
    desk: &Desk<'_, D>,
    zero: &mut DeskSeat<D>,
    one: &mut DeskSeat<D>,
    two: TrialResult,
)
    requires seats { (zero.old.desk ≡ desk.now.id) × (one.old.desk ≡ desk.now.id) }
    requires two { IsResultOf D.plan 2 two }
    ensures { (zero.new.desk ≡ desk.now.id) × (one.new.desk ≡ desk.now.id) }
{
    looks(rt, desk, zero, 2, None);
    looks(rt, desk, one, 2, None);
    same(rt, &desk.post(one, 2, two), &Ok(()));
    looks(rt, desk, one, 2, Some(two));
    looks(rt, desk, zero, 2, Some(two));
    same(rt, &desk.post(one, 2, two), &Err((PostFault::Already, two)));
    same(
        rt,
        &desk.post(zero, 2, two),
        &Err((PostFault::NotYours, two)),
    );
    looks(rt, desk, zero, 3, None);
}

/// Has two seats claim three numbers, of which one is posted.
fn claim_and_post<D: Planned, R: Abort>(
    rt: &R,
    desk: &Desk<'_, D>,
    seats: &mut Vec<DeskSeat<D>>,
    two: TrialResult,
)
    requires seats { All (λ seat. seat.desk ≡ desk.now.id) seats.old.items }
    requires two { IsResultOf D.plan 2 two }
    ensures { All (λ seat. seat.desk ≡ desk.now.id) seats.new.items }
{
    let (mut zero, mut one) = take_two(rt, desk, seats);
    claims(rt, desk, &mut zero, &mut one);
    posts(rt, desk, &mut zero, &mut one, two);
    put_back(rt, desk, seats, zero, one);
}

/// Two seats, three numbers, and one post: the other places stay empty.
fn two_seats<D: Planned, R: Abort>(rt: &R, alloc: Global, job: &Job)
    requires { D.plan ≡ plan_of job.now }
{
    let two = result_of::<D>(alloc, job, 2).expect(rt, "memory");
    let (desk, mut seats) = opened::<D, R>(rt, alloc, job, 3, 2);
    claim_and_post(rt, &desk, &mut seats, two);
    let places = closed(rt, desk, seats);
    same(rt, &places.as_slice(), &[None, None, Some(two)].as_slice());
}

#[test]
fn three_numbers_and_two_seats(rt: HostRuntime) {
    let job = racing_pair(&rt, rt.alloc());
    two_seats::<Brand, _>(&rt, rt.alloc(), &job)
}

/// Without one of its seats a desk isn't closed, and comes back with the seats that were handed in.
fn without_a_seat<D: Planned, R: Abort>(rt: &R, alloc: Global, job: &Job)
    requires { D.plan ≡ plan_of job.now }
{
    let (desk, mut seats) = opened::<D, R>(rt, alloc, job, 3, 2);
    let one = seats.pop().expect(rt, "a seat");
    let (fault, desk, mut seats) = desk.close(seats).expect_err(rt, "a seat is missing");
    same(rt, &fault, &CloseFault::SeatMissing);
    seats.push(one).expect(rt, "memory");
    let places = closed(rt, desk, seats);
    same(rt, &places.as_slice(), &[None, None, None].as_slice());
}

#[test]
fn a_seat_that_is_missing(rt: HostRuntime) {
    let job = racing_pair(&rt, rt.alloc());
    without_a_seat::<Brand, _>(&rt, rt.alloc(), &job)
}

fn refusal<D: Planned>(alloc: Global, job: &Job, n: u32, seats: u32) -> Option<DeskFault>
    requires { D.plan ≡ plan_of job.now }
{
    Desk::<D>::new(alloc, job, n, seats).err()
}

#[test]
fn desks_that_are_not_made(rt: HostRuntime) {
    let job = racing_pair(&rt, rt.alloc());
    for (n, seats, fault) in &[
        (1_000_001, 0, Some(DeskFault::TooMany)),
        (1_000_000, 0, Some(DeskFault::NoSeats)),
        (3, 65, Some(DeskFault::TooManySeats)),
        (0, 64, None),
        (1_000_000, 2, None),
    ] {
        same(&rt, &refusal::<Brand>(rt.alloc(), &job, *n, *seats), fault);
    }
}
