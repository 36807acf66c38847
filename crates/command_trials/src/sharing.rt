//! A batch whose trials are shared out among workers.

ghost use Rattle.std.specs.Prelude.{◌≡◌, All, IfOk};
ghost use Rattle.trials.specs.Series.{planned};
ghost use Rattle.desk.specs.Plans.{plan_of};

use crate::reporting::Report;
use base::NoMemory;
use bumpalo::Bump;
use desk::{Desk, DeskSeat, Job, Planned, work};
use std::alloc::Global;
use std::io::Write;
use std::thread;
use std::thread::Threads;
use trials::{Series, TrialResult};

/// Has so many workers make the trials of a job, each in a thread of its own. This thread is one of them: after each
/// trial of its own it prints what is there of all the next ones, and when nothing is left to begin, the rest.
pub fn share<D: Planned + Send + Sync, R: Threads + Sync, O: Write + Drop, E: Write + Drop>(
    rt: &R,
    alloc: Global,
    job: &Job,
    workers: u32,
    report: Report<O, E>,
) -> (Report<O, E>, Result<(), NoMemory>)
    requires { D.plan ≡ plan_of job.now }
{
    // The options were tested, so only memory can be refused.
    let Ok((desk, mut seats)) = Desk::<D>::new(alloc, job, report.trials(), workers) else {
        return (report, Err(NoMemory));
    };
    match seats.pop() {
        Some(own) => share_out(rt, alloc, job, desk, own, seats, report),
        None => (report, Err(NoMemory)),
    }
}

fn share_out<D: Planned + Send + Sync, R: Threads + Sync, O: Write + Drop, E: Write + Drop>(
    rt: &R,
    alloc: Global,
    job: &Job,
    desk: Desk<'_, D>,
    own: DeskSeat<D>,
    seats: Vec<DeskSeat<D>>,
    report: Report<O, E>,
) -> (Report<O, E>, Result<(), NoMemory>)
    requires own { own.desk ≡ desk.id }
    requires seats { All (λ seat. seat.desk ≡ desk.id) seats.items }
    requires plan { D.plan ≡ plan_of job.now }
{
    let shared = &desk;
    let (others, (own, mut report, printed)) = thread::join(
        rt,
        move || -> Result<Vec<DeskSeat<D>>, NoMemory>
            requires { All (λ seat. seat.desk ≡ shared.now.id) seats.items }
            ensures { IfOk result (λ back. All (λ seat. seat.desk ≡ shared.entry.now.id) back.items) }
        { work_all(rt, shared, seats) },
        move || -> (DeskSeat<D>, Report<O, E>, Result<(), NoMemory>)
            requires seat { own.desk ≡ shared.now.id }
            requires plan { D.plan ≡ plan_of job.now }
            ensures { result.0.desk ≡ shared.entry.now.id }
        { work_and_print(alloc, shared, own, job, report) },
    );
    let printed = match printed {
        Ok(()) if !report.is_over() => print_rest(desk, others, own, &mut report),
        printed => printed,
    };
    (report, printed)
}

/// Closes the desk, and prints the results that weren't there before.
fn print_rest<D: Planned, O: Write + Drop, E: Write + Drop>(
    desk: Desk<'_, D>,
    others: Result<Vec<DeskSeat<D>>, NoMemory>,
    own: DeskSeat<D>,
    report: &mut Report<O, E>,
) -> Result<(), NoMemory>
    requires others { IfOk others (λ seats. All (λ seat. seat.desk ≡ desk.id) seats.items) }
    requires own { own.desk ≡ desk.id }
{
    let mut seats = others?;
    seats.push(own)?;
    match desk.close(seats) {
        Ok(places) => print_places(places.as_slice(), report),
        Err(_) => Err(NoMemory),
    }
}

/// Prints the results that weren't there before, each of which has to be there by now.
fn print_places<O: Write + Drop, E: Write + Drop>(
    places: &[Option<TrialResult>],
    report: &mut Report<O, E>,
) -> Result<(), NoMemory> {
    for place in places.iter().skip(report.done() as usize) {
        let Some(made) = place else {
            return Err(NoMemory);
        };
        report.print(*made);
        if report.is_over() {
            break;
        }
    }
    Ok(())
}

/// Has each seat work in a thread of its own.
fn work_all<D: Planned + Send + Sync, R: Threads + Sync>(
    rt: &R,
    desk: &Desk<'_, D>,
    mut seats: Vec<DeskSeat<D>>,
) -> Result<Vec<DeskSeat<D>>, NoMemory>
    requires { All (λ seat. seat.desk ≡ desk.now.id) seats.items }
    ensures { IfOk result (λ back. All (λ seat. seat.desk ≡ desk.now.id) back.items) }
{
    let Some(own) = seats.pop() else {
        return Ok(seats);
    };
    let (others, own) = thread::join(
        rt,
        move || -> Result<Vec<DeskSeat<D>>, NoMemory>
            requires { All (λ seat. seat.desk ≡ desk.now.id) seats.items }
            ensures { IfOk result (λ back. All (λ seat. seat.desk ≡ desk.entry.now.id) back.items) }
        { work_all(rt, desk, seats) },
        move || -> Result<DeskSeat<D>, NoMemory>
            requires { own.desk ≡ desk.now.id }
            ensures { IfOk result (λ back. back.desk ≡ desk.entry.now.id) }
        { work_alone(desk, own) },
    );
    let mut back = others?;
    back.push(own?)?;
    Ok(back)
}

fn work_alone<D: Planned>(
    desk: &Desk<'_, D>,
    mut seat: DeskSeat<D>,
) -> Result<DeskSeat<D>, NoMemory>
    requires { seat.desk ≡ desk.now.id }
    ensures { IfOk result (λ back. back.desk ≡ desk.now.id) }
{
    work(desk, &mut seat)?;
    Ok(seat)
}

/// Works at a seat and prints results on the way. Where that fails, it sees to it that no worker begins another trial.
fn work_and_print<D: Planned, O: Write + Drop, E: Write + Drop>(
    alloc: Global,
    desk: &Desk<'_, D>,
    mut seat: DeskSeat<D>,
    job: &Job,
    mut report: Report<O, E>,
) -> (DeskSeat<D>, Report<O, E>, Result<(), NoMemory>)
    requires seat { seat.desk ≡ desk.now.id }
    requires plan { D.plan ≡ plan_of job.now }
    ensures { result.0.desk ≡ desk.now.id }
{
    let printed = print_as_made(alloc, desk, &mut seat, job, &mut report);
    if printed.is_err() || report.is_over() {
        for _ in 0..report.trials() {
            if desk.claim(&mut seat).is_none() {
                break;
            }
        }
    }
    // Nothing is left to begin: what is printed goes out before the others' last trials are waited for.
    report.flush();
    (seat, report, printed)
}

fn print_as_made<D: Planned, O: Write + Drop, E: Write + Drop>(
    alloc: Global,
    desk: &Desk<'_, D>,
    seat: &mut DeskSeat<D>,
    job: &Job,
    report: &mut Report<O, E>,
) -> Result<(), NoMemory>
    requires seat { seat.old.desk ≡ desk.now.id }
    requires plan { D.plan ≡ plan_of job.now }
    ensures { seat.new.desk ≡ desk.now.id }
{
    let arena = Bump::new(alloc);
    let mut series = Series::new(alloc, &arena, &job.scenario, &job.setup);
    print_claimed(desk, seat, &mut series, report)
}

/// Makes the trials of the numbers that a seat claims, and prints after each the results of the next ones.
fn print_claimed<D: Planned, O: Write + Drop, E: Write + Drop>(
    desk: &Desk<'_, D>,
    seat: &mut DeskSeat<D>,
    series: &mut Series<'_, '_, Global>,
    report: &mut Report<O, E>,
) -> Result<(), NoMemory>
    requires seat { seat.old.desk ≡ desk.now.id }
    requires plan { planned series.old ≡ D.plan }
    ensures { seat.new.desk ≡ desk.now.id }
{
    for _ in 0..report.trials() {
        let Some(number) = desk.claim(seat) else {
            break;
        };
        let made = series.result(number)?;
        if desk.post(seat, number, made).is_err() {
            return Err(NoMemory);
        }
        print_ready(desk, seat, report);
        if report.is_over() {
            break;
        }
    }
    Ok(())
}

/// Prints the results of the next trials as far as they are posted.
fn print_ready<D: Planned, O: Write + Drop, E: Write + Drop>(
    desk: &Desk<'_, D>,
    seat: &mut DeskSeat<D>,
    report: &mut Report<O, E>,
)
    requires { seat.old.desk ≡ desk.now.id }
    ensures { seat.new.desk ≡ desk.now.id }
{
    for number in report.done()..report.trials() {
        let Some(made) = desk.look(seat, number) else {
            break;
        };
        report.print(made);
        if report.is_over() {
            break;
        }
    }
}
