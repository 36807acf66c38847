ghost use Rattle.std.specs.Prelude.{◌≡◌, ◌++◌, ◌∷◌, [], IfOk, IfSome, IsTrue};
ghost use Rattle.machine.specs.Unstuck.{Flowing};
ghost use Rattle.command_tables.specs.Jams.{GetsStuck};
ghost use Rattle.command_tables.specs.inner.Leading.{HasGoneOn, IsFresh};

use crate::schedules::{CACHES, schedules_of};
use base::{NoMemory, Outcome, Shape, Step};
use std::alloc::Global;
use tables::{CellPlace, Tables};
use world::{OpenFault, World};

/// Steps, a line each, after which messages are on their way and all are held, in a world of `CACHES` caches and one block under
/// these tables: the first of the schedules, from that of this cell on, or of all where none is named, that shows it when it is
/// played. `None` where none does.
pub(crate) fn jam_from(
    alloc: Global,
    tables: &Tables,
    from: Option<CellPlace>,
) -> Result<Option<&'static str>, NoMemory>
    ensures { IfOk result (λ found. IfSome found (λ steps. GetsStuck tables.now steps.now)) }
{
    let mut is_due = from.is_none();
    for (cell, steps) in schedules_of(tables.protocol()) {
        is_due = is_due || from == Some(*cell);
        if is_due && jams(alloc, tables, steps)? {
            return Ok(Some(steps));
        }
    }
    Ok(None)
}

fn jams(alloc: Global, tables: &Tables, steps: &str) -> Result<bool, NoMemory>
    ensures { IfOk result (λ found. IsTrue found → GetsStuck tables.now steps.now) }
{
    let mut world = open(alloc, tables)?;
    is_jammed_after(&mut world, steps)
}

fn open(alloc: Global, tables: &Tables) -> Result<World, NoMemory>
    ensures { IfOk result (λ world. IsFresh tables.now world) }
{
    let Ok(shape) = Shape::new(CACHES, 1) else {
        unreachable!();
    };
    let opening = vec![in alloc; 0; 1]?;
    match World::open(alloc, shape, *tables, opening) {
        Ok(world) => Ok(world),
        Err(OpenFault::NoMemory) => Err(NoMemory),
        Err(OpenFault::OpeningLength) => unreachable!(),
    }
}

/// Makes the steps of these lines, up to the first that is refused, and answers whether none was and messages are stuck then.
fn is_jammed_after(world: &mut World, steps: &str) -> Result<bool, NoMemory>
    ensures gone { IfOk result (λ found. IsTrue found → HasGoneOn world.old steps.now [] world.new) }
    ensures stuck { IfOk result (λ found. IsTrue found → ¬ Flowing world.new.tables world.new.state) }
{
    if makes_all(world, steps)? {
        Ok(is_jammed(world))
    } else {
        Ok(false)
    }
}

/// Makes the steps of these lines, up to the first that is refused, and answers whether none was.
fn makes_all(world: &mut World, steps: &str) -> Result<bool, NoMemory>
    ensures { IfOk result (λ all. IsTrue all → HasGoneOn world.old steps.now [] world.new) }
{
    let mut rest = steps.as_bytes();
    while let Some((line, behind)) = line_ahead(rest) {
        let Some(step) = Step::read(line) else {
            return Ok(false);
        };
        let outcome = world.step(step)?;
        if matches!(outcome, Outcome::Held | Outcome::Absent | Outcome::Blank) {
            return Ok(false);
        }
        rest = behind;
    }
    Ok(rest.is_empty())
}

/// The line in front of a text, and what stands behind its end. `None` where no line ends.
fn line_ahead(text: &[u8]) -> Option<(&[u8], &[u8])>
    ensures { IfSome result (λ found. text.now ≡ found.0.now ++ 10 ∷ found.1.now) }
{
    for at in 0..text.len() {
        if text[at] == b'\n' {
            return Some((&text[..at], &text[at + 1..]));
        }
    }
    None
}

/// Whether messages are on their way and none of them can be delivered.
fn is_jammed(world: &World) -> bool
    ensures { IsTrue result → ¬ Flowing world.now.tables world.now.state }
{
    let is_quiet = world.empty();
    if world.broken() || is_quiet {
        return false;
    }
    world.enabled_count() == 0
}
