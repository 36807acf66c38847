//! Crews: a thread for each seat.

ghost use Rattle.std.specs.Prelude.{◌≡◌, ◌≤◌, [], length, map, true, vec_capacity, IfOk, IfErr, OnErr, Some};
ghost use Rattle.floor.specs.Crews.{ComeBack, GoesOn};
ghost use Rattle.floor.specs.inner.Wishes.{Meets};

use crate::floors::Floor;
use crate::grounds::Naming;
use crate::halls::TurnFault;
use crate::seats::{Receipt, Seat};
use base::{NoMemory, Step};
use std::alloc::Global;
use std::marker::Model;
use std::snapshot::Snapshot;
use std::sync::Wait;
use std::sync::atomic::{AtomicBool, Ordering};
use std::thread;
use std::thread::{Promise, PromisedHandle, Scope, Threads};
use thiserror::Error;

/// Where the threads of a crew come by at each call, outside the lock.
pub trait Gate {
    /// Called before each call of a seat. A seat's calls are counted from 0; from 4,294,967,295 on they all have that number.
    fn pass(&self, seat: u32, call: u32);

    /// Called after each call of a seat, with the number that `pass` had.
    fn done(&self, seat: u32, call: u32);
}

/// What a seat wishes to do next.
#[derive(Clone, Copy)]
pub enum Wish {
    /// To make this step, by [`turn`](Floor::turn).
    Step(Step),
    /// To make what this word draws, by [`turn_any`](Floor::turn_any).
    Any(u32),
}

/// Who chooses what a seat does.
pub trait Chooser<F: Naming> {
    /// The next wish, or `None` to end. It is told the receipt of the turn just made: none at first, and none where the call
    /// before made no turn.
    fn next(&mut self, last: Option<&Receipt<F>>) -> Option<Wish>;
}

/// Why a crew wasn't run.
#[derive(Clone, Copy, Debug, PartialEq, Eq, Error)]
pub enum CrewFault {
    /// A growth was refused.
    #[error("no memory")]
    NoMemory,
}

/// Makes the call that a seat wishes.
fn fulfil<F: Naming>(
    rt: &impl Wait,
    floor: &Floor<F>,
    seat: &mut Seat<F>,
    wish: Wish,
) -> Result<Option<Receipt<F>>, TurnFault>
    ensures met { IfOk result (Meets F.floor wish seat.old seat.new) }
    ensures err { OnErr result (seat.new ≡ seat.old) }
    ensures goes_on { GoesOn seat.old seat.new }
{
    match wish {
        Wish::Any(word) => floor.turn_any(rt, seat, word),
        Wish::Step(step) => match floor.turn(rt, seat, step) {
            Ok(receipt) => Ok(Some(receipt)),
            Err(fault) => Err(fault),
        },
    }
}

/// Makes a seat's calls, until its chooser has no wish or a call is refused. Where its thread was refused it makes none.
fn run_seat<F: Naming, R: Wait, G: Gate, C: Chooser<F> + Drop>(
    rt: &R,
    floor: &Floor<F>,
    gate: &G,
    is_refused: bool,
    mut seat: Seat<F>,
    mut chooser: C,
) -> (Seat<F>, Option<TurnFault>)
    ensures goes_on { GoesOn seat result.0 }
    ensures refused { is_refused ≡ true → (result.0 ≡ seat) × (result.1 ≡ Some TurnFault.NoMemory) }
{
    if is_refused {
        return (seat, Some(TurnFault::NoMemory));
    }
    let mut last: Option<Receipt<F>> = None;
    let mut call = 0u32;
    for _ in rt.forever() {
        let Some(wish) = chooser.next(last.as_ref()) else {
            break;
        };
        gate.pass(seat.number(), call);
        let made = fulfil(rt, floor, &mut seat, wish);
        gate.done(seat.number(), call);
        call = call.saturating_add(1);
        match made {
            Ok(receipt) => last = receipt,
            Err(fault) => return (seat, Some(fault)),
        }
    }
    (seat, None)
}

/// The promise of a seat's thread: the seat goes on.
#[derive(Drop)]
struct Keeps<F: Naming>(Snapshot<Seat<F>>);

impl<F: Naming> Promise<(Seat<F>, Option<TurnFault>)> for Keeps<F> {
    ghost use Rattle.floor.specs.Crews.{GoesOn};

    ghost kept_by = { λ p r. GoesOn p.0.value r.0 };
}

/// A member at work. To a contract it is the seat as it was handed in.
#[derive(Drop)]
struct Running<F: Naming> {
    way: Launch<F>,
    before: Snapshot<Seat<F>>,
}

#[derive(Drop)]
enum Launch<F: Naming> {
    /// A thread was started.
    Started(PromisedHandle<(Seat<F>, Option<TurnFault>), Keeps<F>>),
    /// None could be started, and the seat has ended.
    Ended(Seat<F>, Option<TurnFault>),
}

impl<F: Naming> Model for Running<F> {
    ghost use Rattle.floor.specs.Turning.{SeatView};
    ghost use Rattle.floor.specs.inner.Ways.{IsWayOf};

    ghost Value = { SeatView };

    ghost view = { λ r. r.before.value };

    ghost invariant = { λ r. IsWayOf r.before.value r.way };
}

fn start<
    's,
    F: Naming + Send + Sync + 's,
    R: Wait + Sync,
    G: Gate + Sync,
    C: Chooser<F> + Drop + Send + 's,
    E,
>(
    scope: &Scope<'s, E>,
    rt: &'s R,
    floor: &'s Floor<F>,
    gate: &'s G,
    refused: &'s AtomicBool,
    seat: Seat<F>,
    chooser: C,
) -> Running<F>
    ensures { result ≡ seat }
{
    let before = Snapshot::of(&seat);
    let promise = Keeps(Snapshot::of(&seat));
    let job = move || -> (Seat<F>, Option<TurnFault>)
        ensures { GoesOn seat result.0 }
    {
        run_seat(
            rt,
            floor,
            gate,
            refused.load(Ordering::SeqCst),
            seat,
            chooser,
        )
    };
    match scope.spawn_with(promise, job) {
        Ok(handle) => Running {
            way: Launch::Started(handle),
            before,
        },
        Err(e) => {
            refused.store(true, Ordering::SeqCst);
            let (seat, fault) = (e.value)();
            Running {
                way: Launch::Ended(seat, fault),
                before,
            }
        }
    }
}

fn start_all<
    's,
    F: Naming + Send + Sync + 's,
    R: Wait + Sync,
    G: Gate + Sync,
    C: Chooser<F> + Drop + Send + 's,
    E,
>(
    scope: &Scope<'s, E>,
    rt: &'s R,
    floor: &'s Floor<F>,
    gate: &'s G,
    flags: &'s [AtomicBool],
    mut members: Vec<(Seat<F>, C)>,
    mut running: Vec<Running<F>>,
) -> Vec<Running<F>>
    requires flags { length flags.now ≡ length members.items }
    requires none { running.items ≡ [] }
    requires room { length members.items ≤ vec_capacity running }
    ensures { result.items ≡ map (λ m. m.0) members.items }
{
    for flag in flags {
        let (seat, chooser) = members.remove(0);
        running.push_reserved(start(scope, rt, floor, gate, flag, seat, chooser));
    }
    running
}

fn finish<F: Naming, R: Threads>(rt: &R, running: Running<F>) -> (Seat<F>, Option<TurnFault>)
    ensures { GoesOn running result.0 }
{
    let Running { way, before: _ } = running;
    match way {
        Launch::Started(handle) => handle.join(rt),
        Launch::Ended(seat, fault) => (seat, fault),
    }
}

fn finish_all<F: Naming, R: Threads>(
    rt: &R,
    mut running: Vec<Running<F>>,
    mut back: Vec<(Seat<F>, Option<TurnFault>)>,
) -> Vec<(Seat<F>, Option<TurnFault>)>
    requires none { back.items ≡ [] }
    requires room { length running.items ≤ vec_capacity back }
    ensures { ComeBack running.items result.items }
{
    while !running.is_empty() {
        let one = running.remove(0);
        back.push_reserved(finish(rt, one));
    }
    back
}

/// Runs a thread for each of the seats, which makes the calls that its chooser wishes and comes by at the gate before and
/// after each of them. A seat ends where its chooser has no wish, or at the first fault, which comes back with it.
///
/// All seats come back, in their order. A thread that can't be started counts as a refused growth of its seat, which makes no
/// turn. The crew itself is refused only before any turn, and hands all back as it was.
pub fn crew<
    F: Naming + Send + Sync,
    R: Threads + Wait + Sync,
    G: Gate + Sync,
    C: Chooser<F> + Drop + Send,
>(
    rt: &R,
    alloc: Global,
    floor: &Floor<F>,
    gate: &G,
    members: Vec<(Seat<F>, C)>,
) -> Result<Vec<(Seat<F>, Option<TurnFault>)>, (CrewFault, Vec<(Seat<F>, C)>)>
    ensures back { IfOk result (λ back. ComeBack (map (λ m. m.0) members.items) back.items) }
    ensures refused { IfErr result (λ refused. (refused.0 ≡ CrewFault.NoMemory) × (refused.1.items ≡ members.items)) }
{
    let count = members.len();
    let Ok(back) = Vec::with_capacity(alloc, count) else {
        return Err((CrewFault::NoMemory, members));
    };
    let Ok(running) = Vec::with_capacity(alloc, count) else {
        return Err((CrewFault::NoMemory, members));
    };
    let Ok(flags) = flags_for(alloc, count) else {
        return Err((CrewFault::NoMemory, members));
    };
    let refused = flags.as_slice();
    let done = thread::scope(
        thread::scope_env(),
        rt,
        |scope| -> Vec<(Seat<F>, Option<TurnFault>)>
            requires flags { length refused.now ≡ length members.items }
            requires running { (running.items ≡ []) × (length members.items ≤ vec_capacity running) }
            requires back { (back.items ≡ []) × (length members.items ≤ vec_capacity back) }
            ensures { ComeBack (map (λ m. m.0) members.items) result.items }
        {
            let running = start_all(scope, rt, floor, gate, refused, members, running);
            finish_all(rt, running, back)
        },
    );
    Ok(done)
}

/// A mark for each member that its thread was refused.
fn flags_for(alloc: Global, count: usize) -> Result<Vec<AtomicBool>, NoMemory>
    ensures { IfOk result (λ flags. length flags.items ≡ count) }
{
    let mut flags = Vec::with_capacity(alloc, count)?;
    for _ in 0..count {
        flags.push(AtomicBool::new(false))?;
    }
    Ok(flags)
}
