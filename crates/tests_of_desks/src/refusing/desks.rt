ghost use Rattle.std.specs.Prelude.{◌≡◌, All};
ghost use Rattle.desk.specs.Plans.{IsResultOf, plan_of};

use crate::asserting::same;
use crate::desk_rows::looks;
use crate::jobs::{open_setup, race, result_of};
use base::Shape;
use desk::{CloseFault, Desk, DeskFault, DeskSeat, Job, Planned, PostFault};
use std::alloc::Global;
use std::marker::Brand;
use std::process::Abort;
use std::test::Fail;
use trials::TrialResult;

/// Two cores that race for one block.
fn racing_pair(alloc: Global) -> Result<Job, Fail> {
    let shape = Shape::new(2, 1)?;
    let opening = vec![in alloc; 0; 1]?;
    let scenario = race(alloc)?;
    let setup = open_setup(shape, opening, 42, 100)?;
    Ok(Job { scenario, setup })
}

fn posted<D: Planned, R: Abort>(
    rt: &R,
    desk: &Desk<'_, D>,
    seat: &mut DeskSeat<D>,
    made: TrialResult,
)
    requires seat { seat.old.desk ≡ desk.now.id }
    requires made { IsResultOf D.plan 0 made }
    ensures { seat.new.desk ≡ desk.now.id }
{
    if let Err((fault, back)) = desk.post(seat, 0, made) {
        same(rt, &fault, &PostFault::NoMemory);
        same(rt, &back, &made);
        looks(rt, desk, seat, 0, None);
        same(rt, &desk.post(seat, 0, made), &Ok(()));
    }
    looks(rt, desk, seat, 0, Some(made));
}

fn closed<'j, D: Planned, R: Abort>(
    rt: &R,
    desk: Desk<'j, D>,
    seats: Vec<DeskSeat<D>>,
) -> Vec<Option<TrialResult>>
    requires { All (λ seat. seat.desk ≡ desk.id) seats.items }
{
    match desk.close(seats) {
        Ok(places) => places,
        Err((fault, desk, seats)) => {
            same(rt, &fault, &CloseFault::NoMemory);
            desk.close(seats).ok().expect(rt, "a second refusal")
        }
    }
}

/// One seat at a desk of three numbers posts the first one's result.
fn one_post<D: Planned, R: Abort>(rt: &R, alloc: Global, job: &Job, made: TrialResult) -> bool
    requires plan { D.plan ≡ plan_of job.now }
    requires made { IsResultOf D.plan 0 made }
{
    match Desk::<D>::new(alloc, job, 3, 1) {
        Ok((desk, mut seats)) => {
            let mut seat = seats.pop().expect(rt, "a seat");
            same(rt, &desk.claim(&mut seat), &Some(0));
            posted(rt, &desk, &mut seat, made);
            seats.push(seat).expect(rt, "room for a seat");
            let places = closed(rt, desk, seats);
            same(rt, &places.as_slice(), &[Some(made), None, None].as_slice());
            true
        }
        Err(fault) => {
            same(rt, &fault, &DeskFault::NoMemory);
            false
        }
    }
}

fn posts<D: Planned, R: Abort>(rt: &R, alloc: Global, job: &Job) -> Result<(), Fail>
    requires { D.plan ≡ plan_of job.now }
{
    let made = result_of::<D>(alloc, job, 0)?;
    let mut is_made = one_post::<D, _>(rt, alloc, job, made);
    if !is_made {
        is_made = one_post::<D, _>(rt, alloc, job, made);
    }
    same(rt, &is_made, &true);
    Ok(())
}

#[test]
fn a_desk_and_its_posts(rt: HostRuntime) -> Result<(), Fail> {
    let job = racing_pair(rt.alloc())?;
    posts::<Brand, _>(&rt, rt.alloc(), &job)
}
