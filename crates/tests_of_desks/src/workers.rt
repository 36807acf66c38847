ghost use Rattle.std.specs.Prelude.{◌≡◌, All};
ghost use Rattle.desk.specs.Plans.{plan_of};

use crate::asserting::same;
use crate::desk_rows::{closed, closes_as_trials, opened, put_back, put_one, take_two, worked};
use crate::jobs::{are_places, compare_with_batch, compare_with_trials, racing_pair, result_of};
use base::NoMemory;
use desk::{Desk, DeskSeat, Job, Planned};
use std::alloc::Global;
use std::marker::Brand;
use std::process::Abort;
use std::thread;
use std::thread::Threads;
use trials::TrialResult;

const LOOKS: u32 = 1_000_000_000;

/// One seat behind the other works: the first makes all trials, and for the others there is nothing left.
fn work_in_turn<D: Planned, R: Abort>(
    rt: &R,
    alloc: Global,
    desk: &Desk<'_, D>,
    mut seats: Vec<DeskSeat<D>>,
    n: u32,
) -> Vec<DeskSeat<D>>
    requires { All (λ seat. seat.desk ≡ desk.now.id) seats.items }
    ensures { All (λ seat. seat.desk ≡ desk.now.id) result.items }
{
    let mut back = Vec::new(alloc);
    let mut left = n;
    while let Some(seat) = seats.pop() {
        let (seat, made) = worked(desk, seat);
        same(rt, &made, &Ok(left));
        left = 0;
        put_one(rt, desk, &mut back, seat);
    }
    back
}

fn one_after_the_other<D: Planned, R: Abort>(rt: &R, alloc: Global, job: &Job, n: u32, count: u32)
    requires { D.plan ≡ plan_of job.now }
{
    let (desk, seats) = opened::<D, R>(rt, alloc, job, n, count);
    let seats = work_in_turn(rt, alloc, &desk, seats, n);
    closes_as_trials(rt, alloc, desk, seats, job, n)
}

/// A seat that works alone, and 64 for three numbers.
#[test]
fn seats_that_work_in_turn(rt: HostRuntime) {
    let job = racing_pair(&rt, rt.alloc());
    for (n, count) in [(50, 1), (3, 64)] {
        one_after_the_other::<Brand, _>(&rt, rt.alloc(), &job, n, count)
    }
}

/// How many trials two made together, if both did what they could.
fn together(first: Option<u32>, second: Option<u32>) -> Option<u32> {
    first?.checked_add(second?)
}

/// Two seats work in two threads. Answers them, and how many trials they made together.
fn two_work<D: Planned + Send + Sync, R: Threads + Sync>(
    rt: &R,
    desk: &Desk<'_, D>,
    zero: DeskSeat<D>,
    one: DeskSeat<D>,
) -> (DeskSeat<D>, DeskSeat<D>, Option<u32>)
    requires { (zero.desk ≡ desk.now.id) × (one.desk ≡ desk.now.id) }
    ensures { (result.0.desk ≡ desk.entry.now.id) × (result.1.desk ≡ desk.entry.now.id) }
{
    let ((zero, first), (one, second)) = thread::join(
        rt,
        move || -> (DeskSeat<D>, Result<u32, NoMemory>)
            requires { zero.desk ≡ desk.now.id }
            ensures { result.0.desk ≡ desk.entry.now.id }
        { worked(desk, zero) },
        move || -> (DeskSeat<D>, Result<u32, NoMemory>)
            requires { one.desk ≡ desk.now.id }
            ensures { result.0.desk ≡ desk.entry.now.id }
        { worked(desk, one) },
    );
    (zero, one, together(first.ok(), second.ok()))
}

/// The last two seats of a row work at once, and are put back.
fn work_by_two<D: Planned + Send + Sync, R: Threads + Abort + Sync>(
    rt: &R,
    desk: &Desk<'_, D>,
    seats: &mut Vec<DeskSeat<D>>,
) -> Option<u32>
    requires { All (λ seat. seat.desk ≡ desk.now.id) seats.old.items }
    ensures { All (λ seat. seat.desk ≡ desk.now.id) seats.new.items }
{
    let (zero, one) = take_two(rt, desk, seats);
    let (zero, one, made) = two_work(rt, desk, zero, one);
    put_back(rt, desk, seats, zero, one);
    made
}

/// The last four seats of a row work at once, two and two, and are put back.
fn work_by_four<D: Planned + Send + Sync, R: Threads + Abort + Sync>(
    rt: &R,
    desk: &Desk<'_, D>,
    seats: &mut Vec<DeskSeat<D>>,
) -> Option<u32>
    requires { All (λ seat. seat.desk ≡ desk.now.id) seats.old.items }
    ensures { All (λ seat. seat.desk ≡ desk.now.id) seats.new.items }
{
    let (two, three) = take_two(rt, desk, seats);
    let (zero, one) = take_two(rt, desk, seats);
    let ((zero, one, front), (two, three, back)) = thread::join(
        rt,
        move || -> (DeskSeat<D>, DeskSeat<D>, Option<u32>)
            requires { (zero.desk ≡ desk.now.id) × (one.desk ≡ desk.now.id) }
            ensures { (result.0.desk ≡ desk.entry.now.id) × (result.1.desk ≡ desk.entry.now.id) }
        { two_work(rt, desk, zero, one) },
        move || -> (DeskSeat<D>, DeskSeat<D>, Option<u32>)
            requires { (two.desk ≡ desk.now.id) × (three.desk ≡ desk.now.id) }
            ensures { (result.0.desk ≡ desk.entry.now.id) × (result.1.desk ≡ desk.entry.now.id) }
        { two_work(rt, desk, two, three) },
    );
    put_back(rt, desk, seats, zero, one);
    put_back(rt, desk, seats, two, three);
    together(front, back)
}

/// Two or four threads work off a batch of so many trials.
fn threads_work<D: Planned + Send + Sync, R: Threads + Abort + Sync>(
    rt: &R,
    alloc: Global,
    job: &Job,
    n: u32,
    count: u32,
)
    requires { D.plan ≡ plan_of job.now }
{
    let (desk, mut seats) = opened::<D, R>(rt, alloc, job, n, count);
    let made = if count == 2 {
        work_by_two(rt, &desk, &mut seats)
    } else {
        work_by_four(rt, &desk, &mut seats)
    };
    same(rt, &made, &Some(n));
    let places = closed(rt, desk, seats);
    compare_with_batch(rt, alloc, job, n, &places)
}

/// Threads that work off a batch make each trial once, and the desk has what a batch has.
#[test]
fn threads_that_work(rt: HostRuntime) {
    let job = racing_pair(&rt, rt.alloc());
    for (n, count) in [(200, 2), (400, 4)] {
        threads_work::<Brand, _>(&rt, rt.alloc(), &job, n, count)
    }
}

/// Makes the trial of the next number, posts it, and looks until it finds the result of the other of the first two.
fn post_and_find<D: Planned>(
    alloc: Global,
    desk: &Desk<'_, D>,
    mut seat: DeskSeat<D>,
    job: &Job,
) -> (DeskSeat<D>, Option<TrialResult>)
    requires seat { seat.desk ≡ desk.now.id }
    requires plan { D.plan ≡ plan_of job.now }
    ensures { result.0.desk ≡ desk.entry.now.id }
{
    let found = find_other(alloc, desk, &mut seat, job);
    (seat, found)
}

fn find_other<D: Planned>(
    alloc: Global,
    desk: &Desk<'_, D>,
    seat: &mut DeskSeat<D>,
    job: &Job,
) -> Option<TrialResult>
    requires seat { seat.old.desk ≡ desk.now.id }
    requires plan { D.plan ≡ plan_of job.now }
    ensures { seat.new.desk ≡ desk.now.id }
{
    let number = post_next(alloc, desk, seat, job)?;
    let other = if number == 0 { 1 } else { 0 };
    for _ in 0..LOOKS {
        if let Some(found) = desk.look(seat, other) {
            return Some(found);
        }
    }
    None
}

/// Makes the trial of a number and posts it, and answers whether it could.
fn is_posted<D: Planned>(
    alloc: Global,
    desk: &Desk<'_, D>,
    seat: &mut DeskSeat<D>,
    job: &Job,
    number: u32,
) -> bool
    requires seat { seat.old.desk ≡ desk.now.id }
    requires plan { D.plan ≡ plan_of job.now }
    ensures { seat.new.desk ≡ desk.now.id }
{
    match result_of::<D>(alloc, job, number) {
        Ok(made) => desk.post(seat, number, made).is_ok(),
        Err(_) => false,
    }
}

/// Makes the trial of the next number and posts it, and answers the number.
fn post_next<D: Planned>(
    alloc: Global,
    desk: &Desk<'_, D>,
    seat: &mut DeskSeat<D>,
    job: &Job,
) -> Option<u32>
    requires seat { seat.old.desk ≡ desk.now.id }
    requires plan { D.plan ≡ plan_of job.now }
    ensures { seat.new.desk ≡ desk.now.id }
{
    let number = desk.claim(seat)?;
    if is_posted(alloc, desk, seat, job, number) {
        Some(number)
    } else {
        None
    }
}

/// Two seats that post and find in two threads, and what each finds.
fn each_finds<D: Planned + Send + Sync, R: Threads + Sync>(
    rt: &R,
    alloc: Global,
    desk: &Desk<'_, D>,
    zero: DeskSeat<D>,
    one: DeskSeat<D>,
    job: &Job,
) -> (DeskSeat<D>, DeskSeat<D>, [Option<TrialResult>; 2])
    requires seats { (zero.desk ≡ desk.now.id) × (one.desk ≡ desk.now.id) }
    requires plan { D.plan ≡ plan_of job.now }
    ensures { (result.0.desk ≡ desk.entry.now.id) × (result.1.desk ≡ desk.entry.now.id) }
{
    let ((zero, first), (one, second)) = thread::join(
        rt,
        move || -> (DeskSeat<D>, Option<TrialResult>)
            requires seat { zero.desk ≡ desk.now.id }
            requires plan { D.plan ≡ plan_of job.now }
            ensures { result.0.desk ≡ desk.entry.now.id }
        { post_and_find(alloc, desk, zero, job) },
        move || -> (DeskSeat<D>, Option<TrialResult>)
            requires seat { one.desk ≡ desk.now.id }
            requires plan { D.plan ≡ plan_of job.now }
            ensures { result.0.desk ≡ desk.entry.now.id }
        { post_and_find(alloc, desk, one, job) },
    );
    (zero, one, [first, second])
}

/// The last two seats of a row post and find, and are put back. Answers what each finds.
fn find_by_two<D: Planned + Send + Sync, R: Threads + Abort + Sync>(
    rt: &R,
    alloc: Global,
    desk: &Desk<'_, D>,
    seats: &mut Vec<DeskSeat<D>>,
    job: &Job,
) -> [Option<TrialResult>; 2]
    requires seats { All (λ seat. seat.desk ≡ desk.now.id) seats.old.items }
    requires plan { D.plan ≡ plan_of job.now }
    ensures { All (λ seat. seat.desk ≡ desk.now.id) seats.new.items }
{
    let (zero, one) = take_two(rt, desk, seats);
    let (zero, one, found) = each_finds(rt, alloc, desk, zero, one, job);
    put_back(rt, desk, seats, zero, one);
    found
}

/// Two threads, of which each finds what the other posted.
fn two_find<D: Planned + Send + Sync, R: Threads + Abort + Sync>(rt: &R, alloc: Global, job: &Job)
    requires { D.plan ≡ plan_of job.now }
{
    let (desk, mut seats) = opened::<D, R>(rt, alloc, job, 2, 2);
    let found = find_by_two(rt, alloc, &desk, &mut seats, job);
    let places = closed(rt, desk, seats);
    are_places(rt, &found, &places);
    compare_with_trials::<D, R>(rt, alloc, job, 2, &places)
}

#[test]
fn two_threads_that_find(rt: HostRuntime) {
    let job = racing_pair(&rt, rt.alloc());
    two_find::<Brand, _>(&rt, rt.alloc(), &job)
}
