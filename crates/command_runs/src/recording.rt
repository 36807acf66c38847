ghost use Rattle.std.specs.Prelude.{◌≡◌};

use crate::playing::{open, step_of};
use base::{Shape, Step};
use command_output::{Fault, Finding, FoundViolation, InputLines, print_whole};
use monitor::{Violation, Watch};
use record::{Entry, Recording};
use std::alloc::Global;
use std::io::{Read, Write};
use tables::Tables;
use world::{OpenFault, World};

/// Plays the steps of the input as `play` does, and prints the recording of them in place of their outcomes. Whether there was a
/// violation, which is that of the last step then, it tells on the errors.
///
/// Before a fault it prints the recording of the steps that were made.
pub fn play_recording<I: Read + Drop, O: Write + Drop, E: Write>(
    alloc: Global,
    shape: Shape,
    tables: Tables,
    input: I,
    output: O,
    errors: &mut E,
) -> Result<Finding, Fault> {
    let opening = vec![in alloc; 0; shape.blocks() as usize]?;
    match Recording::open(alloc, shape, tables, opening) {
        Ok(recording) => play_and_print(alloc, recording, input, output, errors),
        Err(OpenFault::NoMemory) => Err(Fault::NoMemory),
        Err(OpenFault::OpeningLength) => unreachable!(),
    }
}

fn play_and_print<I: Read + Drop, O: Write + Drop, E: Write>(
    alloc: Global,
    mut recording: Recording,
    input: I,
    output: O,
    errors: &mut E,
) -> Result<Finding, Fault>
    requires { recording.seats ≡ 0 }
{
    let played = play_input(alloc, &mut recording, input);
    let printed = print_whole(alloc, &recording, output);
    // Nothing is printed then, so that comes before what was found or was no step.
    if let Err(Fault::NoMemory) = printed {
        return Err(Fault::NoMemory);
    }
    let found = FoundViolation(played?);
    printed?;
    // What is told beside the recording doesn't undo it where nobody takes it.
    let _ = writeln!(errors, "{found}");
    Ok(found.finding())
}

/// Adds the steps of the input to a recording, up to the first violation, and answers that.
fn play_input<I: Read + Drop>(
    alloc: Global,
    recording: &mut Recording,
    input: I,
) -> Result<Option<(u64, Violation)>, Fault>
    requires { recording.old.seats ≡ 0 }
{
    let mut input = InputLines::new(alloc, input)?;
    play_lines(alloc, recording, &mut input)
}

fn play_lines<I: Read + Drop>(
    alloc: Global,
    recording: &mut Recording,
    input: &mut InputLines<I>,
) -> Result<Option<(u64, Violation)>, Fault>
    requires { recording.old.seats ≡ 0 }
{
    let (mut world, mut watch) = open(alloc, recording.shape(), recording.tables())?;
    add_all(&mut world, &mut watch, recording, input)
}

fn add_all<I: Read + Drop>(
    world: &mut World,
    watch: &mut Watch,
    recording: &mut Recording,
    input: &mut InputLines<I>,
) -> Result<Option<(u64, Violation)>, Fault>
    requires { recording.old.seats ≡ 0 }
{
    for _ in 0..u64::MAX {
        if !input.advance()? {
            break;
        }
        let step = step_of(input.line());
        if step.is_none() && !input.line().is_empty() {
            return Err(Fault::NotAStep(input.number()));
        }
        input.pass()?;
        let Some(step) = step else {
            continue;
        };
        let number = recording.entries().len() as u64;
        if let Some(violation) = add(world, watch, recording, step)? {
            return Ok(Some((number, violation)));
        }
    }
    Ok(None)
}

/// Makes a step, adds it to the recording, and answers its violation, if it has one.
fn add(
    world: &mut World,
    watch: &mut Watch,
    recording: &mut Recording,
    step: Step,
) -> Result<Option<Violation>, Fault>
    requires { recording.old.seats ≡ 0 }
    ensures { recording.new.seats ≡ 0 }
{
    let made = world.make(step)?;
    let outcome = made.outcome;
    recording.push(Entry { step, outcome })?;
    Ok(watch.see_made(world, step, &made))
}
