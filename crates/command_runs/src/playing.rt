ghost use Rattle.std.specs.Prelude.{◌≡◌, ◌∷◌, ◌++◌, []};
ghost use Rattle.base.specs.Words.{joined};
ghost use Rattle.base.specs.Spelling.{outcome_words};

use crate::complaining::Complaints;
use base::text::Text;
use base::{NoMemory, Outcome, Shape, Step};
use command_output::{Fault, Finding, InputLines, MOST_BYTES, Printer};
use monitor::Watch;
use std::alloc::Global;
use std::io::{Read, Write};
use tables::Tables;
use world::{OpenFault, World};

/// Plays the steps of the input in a world that has just been opened with every block at 0,
/// under these tables, up to the first violation.
///
/// A line that isn't a step is a fault; or it is told of on the errors, with what is wrong with it, and the next line is read.
/// What was printed before a fault stands.
pub fn play<I: Read + Drop, O: Write + Drop, E: Write>(
    alloc: Global,
    shape: Shape,
    tables: Tables,
    explains: bool,
    input: I,
    output: O,
    errors: &mut E,
) -> Result<Finding, Fault> {
    let mut input = InputLines::new(alloc, input)?;
    let mut printer = Printer::new(alloc, output)?;
    let mut complaints = Complaints::new(alloc, explains, errors);
    let played = play_lines(
        alloc,
        shape,
        tables,
        &mut input,
        &mut printer,
        &mut complaints,
    );
    printer.finish(played)
}

fn play_lines<I: Read + Drop, O: Write + Drop, E: Write>(
    alloc: Global,
    shape: Shape,
    tables: Tables,
    input: &mut InputLines<I>,
    printer: &mut Printer<O>,
    complaints: &mut Complaints<'_, E>,
) -> Result<Finding, Fault> {
    let (mut world, mut watch) = open(alloc, shape, tables)?;
    let found = play_all(&mut world, &mut watch, input, printer, complaints)?;
    Ok(complaints.or(found))
}

/// A world with every block at 0, and its watch.
pub(crate) fn open(
    alloc: Global,
    shape: Shape,
    tables: Tables,
) -> Result<(World, Watch), NoMemory> {
    let opening = vec![in alloc; 0; shape.blocks() as usize]?;
    let watch = Watch::open(alloc, opening.as_slice())?;
    match World::open(alloc, shape, tables, opening) {
        Ok(world) => Ok((world, watch)),
        Err(OpenFault::NoMemory) => Err(NoMemory),
        Err(OpenFault::OpeningLength) => unreachable!(),
    }
}

/// Plays as far as there are lines, and nothing is read any more once printing has failed.
fn play_all<I: Read + Drop, O: Write + Drop, E: Write>(
    world: &mut World,
    watch: &mut Watch,
    input: &mut InputLines<I>,
    printer: &mut Printer<O>,
    complaints: &mut Complaints<'_, E>,
) -> Result<Finding, Fault> {
    let mut text = Text::new();
    for _ in 0..u64::MAX {
        if printer.has_failed() {
            break;
        }
        let step = match input.step_ahead() {
            Some(step) => step,
            None => match next_line(input, printer, complaints)? {
                PlayLine::Step(step) => step,
                PlayLine::Passed => continue,
                PlayLine::End => break,
            },
        };
        if play_one(world, watch, step, &mut text, printer)? == Finding::Violation {
            return Ok(Finding::Violation);
        }
    }
    Ok(Finding::Nothing)
}

/// What a line of the input is.
#[derive(Clone, Copy)]
enum PlayLine {
    Step(Step),
    /// It is empty, or it was refused and told of.
    Passed,
    /// There is none any more.
    End,
}

/// The next line, of which all may still have to be read.
#[inline(never)]
fn next_line<I: Read + Drop, O: Write + Drop, E: Write>(
    input: &mut InputLines<I>,
    printer: &mut Printer<O>,
    complaints: &mut Complaints<'_, E>,
) -> Result<PlayLine, Fault> {
    if !input.advance_behind(printer)? {
        return Ok(PlayLine::End);
    }
    let step = step_of(input.line());
    if step.is_none() && !input.line().is_empty() {
        printer.flush();
        complaints.refuse(input)?;
        return Ok(PlayLine::Passed);
    }
    input.pass()?;
    Ok(step.map_or(PlayLine::Passed, PlayLine::Step))
}

/// Makes a step, and prints its outcome and its violation, if it has one.
fn play_one<O: Write + Drop>(
    world: &mut World,
    watch: &mut Watch,
    step: Step,
    text: &mut Text,
    printer: &mut Printer<O>,
) -> Result<Finding, NoMemory> {
    let made = world.make(step)?;
    print_outcome(made.outcome, text, printer);
    let Some(violation) = watch.see_made(world, step, &made) else {
        return Ok(Finding::Nothing);
    };
    printer.line(format_args!("violation {violation}"));
    Ok(Finding::Violation)
}

/// Prints an outcome: most at once, the others by a text that is used again for each.
#[inline(always)]
fn print_outcome<O: Write + Drop>(outcome: Outcome, text: &mut Text, printer: &mut Printer<O>) {
    match outcome {
        Outcome::Sent => print_line(outcome, b"sent\n", printer),
        Outcome::Moved => print_line(outcome, b"moved\n", printer),
        Outcome::Idle => print_line(outcome, b"idle\n", printer),
        Outcome::Held => print_line(outcome, b"held\n", printer),
        _ => {
            text.clear();
            text.push_outcome(outcome);
            text.push(b"\n");
            print_line(outcome, text.as_slice(), printer);
        }
    }
}

/// Prints the line of an outcome.
#[inline(always)]
fn print_line<O: Write + Drop>(_outcome: Outcome, line: &[u8], printer: &mut Printer<O>)
    requires { line.now ≡ joined (outcome_words _outcome) ++ 10 ∷ [] }
{
    printer.bytes(line);
}

/// The step that a line is.
pub(crate) fn step_of(line: &[u8]) -> Option<Step> {
    if line.len() > MOST_BYTES {
        return None;
    }
    Step::read(line)
}
