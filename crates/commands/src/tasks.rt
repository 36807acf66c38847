use crate::files::Files;
use base::controller::Protocol;
use base::{BlockId, Shape};
use clap::ArgMatches;
use command_output::{Fault, Format};
use command_runs::{ShownForm, TableLayout};
use command_tables::{Bounds, CertificateForm};
use command_trials::{BatchPlan, RacePlan, Setup, SetupFault, Until};
use record::MOST_ENTRIES;
use retelling::Excerpt;
use std::alloc::Global;
use tables::Tables;

/// What a command line asks for, with all that its options and their files say.
#[derive(Drop)]
pub enum Task {
    /// Play the steps of the input in a world of this shape, under these tables: up to a line that is none, or past those,
    /// which are explained.
    Play(Shape, Tables, bool),
    /// Play them up to a line that is none, and print the recording of them.
    Record(Shape, Tables),
    /// Make the trial of this number.
    Trial(Setup, u32),
    /// Make a batch of trials.
    Batch(Setup, BatchPlan),
    /// Have seats race at a floor.
    Floor(Setup, RacePlan),
    /// Replay a recording, and say in this form what was found.
    Replay(Format),
    /// Print a recording in version 2.
    Move,
    /// Show a part of a recording in this form.
    Show(ShownForm, Excerpt),
    /// Print the cells of these tables.
    Tables(Tables),
    /// Print those that aren't the protocol's own, as a file of changed cells.
    Changes(Tables),
    /// Print in this form whether these tables are proved safe.
    Certify(Tables, CertificateForm),
    /// Print these tables as a model with so many caches.
    Model(Tables, u32),
    /// Print what these tables and a scenario within these bounds are.
    Check(Tables, Bounds),
}

impl Task {
    /// The task of a command line that `clap` has read, for which the file that it names is loaded.
    ///
    /// `None` where no command of `msi` was named.
    pub fn of<F: Files>(
        alloc: Global,
        matches: &ArgMatches<'_>,
        files: &mut F,
    ) -> Result<Option<Task>, Fault> {
        let Some((name, options)) = matches.subcommand() else {
            return Ok(None);
        };
        Ok(match name {
            "play" => Some(playing(alloc, options, files)?),
            "trial" => Some(Task::Trial(trying(alloc, options, files)?, number(options, "number"))),
            "batch" => Some(Task::Batch(trying(alloc, options, files)?, plan(options))),
            "floor" => Some(racing(alloc, options, files)?),
            "replay" => Some(Task::Replay(format(options))),
            "move" => Some(Task::Move),
            "show" => Some(Task::Show(ShownForm::Table(layout(options)), part(options))),
            "chart" => Some(Task::Show(ShownForm::Chart, part(options))),
            "tables" => Some(printing(alloc, options, files)?),
            "certify" => Some(Task::Certify(tables(alloc, options, files)?, certifying(options))),
            "model" => Some(modelling(alloc, options, files)?),
            "check" => Some(Task::Check(tables(alloc, options, files)?, bounds(options))),
            _ => None,
        })
    }
}

fn printing<F: Files>(
    alloc: Global,
    options: &ArgMatches<'_>,
    files: &mut F,
) -> Result<Task, Fault> {
    let tables = tables(alloc, options, files)?;
    if options.get_flag("changes") {
        return Ok(Task::Changes(tables));
    }
    Ok(Task::Tables(tables))
}

fn certifying(options: &ArgMatches<'_>) -> CertificateForm {
    CertificateForm {
        format: format(options),
        with_pairs: options.get_flag("pairs"),
    }
}

fn playing<F: Files>(
    alloc: Global,
    options: &ArgMatches<'_>,
    files: &mut F,
) -> Result<Task, Fault> {
    let shape = shape(options)?;
    let tables = tables(alloc, options, files)?;
    if options.get_flag("recording") {
        return Ok(Task::Record(shape, tables));
    }
    Ok(Task::Play(shape, tables, options.get_flag("explain")))
}

fn format(options: &ArgMatches<'_>) -> Format {
    if options.get_flag("json") {
        return Format::Json;
    }
    Format::Plain
}

fn layout(options: &ArgMatches<'_>) -> TableLayout {
    if options.get_flag("json") {
        return TableLayout::Objects;
    }
    if options.get_flag("tsv") {
        return TableLayout::Tabs;
    }
    TableLayout::Columns
}

/// The shape that the options name.
pub(crate) fn shape(options: &ArgMatches<'_>) -> Result<Shape, Fault> {
    Ok(Shape::new(number(options, "caches"), number(options, "blocks"))?)
}

/// What the options say of a scenario's shape.
pub(crate) fn bounds(options: &ArgMatches<'_>) -> Bounds {
    Bounds {
        caches: options.get_one::<u32>("caches"),
        blocks: options.get_one::<u32>("blocks"),
    }
}

/// The part of a recording that the options choose: all of it, where they are left out.
fn part(options: &ArgMatches<'_>) -> Excerpt {
    Excerpt {
        block: options.get_one::<u32>("block").map(BlockId),
        from: u64::from(number(options, "from")),
        steps: u64::from(options.get_one::<u32>("steps").unwrap_or(u32::MAX)),
    }
}

fn trying<F: Files>(
    alloc: Global,
    options: &ArgMatches<'_>,
    files: &mut F,
) -> Result<Setup, Fault> {
    setup(alloc, options, files, number(options, "limit"))
}

fn plan(options: &ArgMatches<'_>) -> BatchPlan {
    BatchPlan {
        trials: number(options, "trials"),
        workers: number(options, "workers"),
        progress: options.get_flag("progress"),
        until: until(options),
        format: format(options),
    }
}

/// The kind of trials that is looked for, whose word `clap` has tested.
fn until(options: &ArgMatches<'_>) -> Option<Until> {
    match options.get_str("until")?.as_bytes() {
        b"broke" => Some(Until::Broke),
        b"stuck" => Some(Until::Stuck),
        b"any" => Some(Until::Any),
        _ => None,
    }
}

/// A race, whose turns are counted before a file is read.
fn racing<F: Files>(alloc: Global, options: &ArgMatches<'_>, files: &mut F) -> Result<Task, Fault> {
    let seats = number(options, "seats");
    let turns = number(options, "turns");
    if seats.saturating_mul(turns) as usize > MOST_ENTRIES {
        return Err(Fault::TooManyTurns);
    }
    let plan = RacePlan {
        seats,
        turns,
        recording: options.get_flag("recording"),
    };
    Ok(Task::Floor(setup(alloc, options, files, 0)?, plan))
}

fn modelling<F: Files>(
    alloc: Global,
    options: &ArgMatches<'_>,
    files: &mut F,
) -> Result<Task, Fault> {
    let caches = number(options, "caches");
    Ok(Task::Model(tables(alloc, options, files)?, caches))
}

/// What trials and races are made under. Every block opens at 0.
fn setup<F: Files>(
    alloc: Global,
    options: &ArgMatches<'_>,
    files: &mut F,
    limit: u32,
) -> Result<Setup, Fault> {
    let shape = shape(options)?;
    let tables = tables(alloc, options, files)?;
    let opening = vec![in alloc; 0; shape.blocks() as usize]?;
    let seed = options.get_one::<u64>("seed").unwrap_or(0);
    Setup::new(shape, tables, opening, seed, limit).map_err(not_made)
}

/// Why trials can't be made. None of it comes: `clap` has tested the limit, and each block has its opening value.
fn not_made(_fault: SetupFault) -> Fault {
    Fault::Setup
}

/// The own tables of the protocol that is named, with the cells of the named file laid over them where one is named.
fn tables<F: Files>(
    alloc: Global,
    options: &ArgMatches<'_>,
    files: &mut F,
) -> Result<Tables, Fault> {
    let Some(name) = options.get_str("tables") else {
        return Ok(Tables::baseline_of(protocol(options)));
    };
    let bytes = files.load(name)?;
    Ok(Tables::from_json_of(alloc, protocol(options), bytes.as_slice())?)
}

/// The protocol that is named, whose word `clap` has tested.
pub(crate) fn protocol(options: &ArgMatches<'_>) -> Protocol {
    match options.get_str("protocol") {
        Some(name) => Protocol::named(name.as_bytes()).unwrap_or(Protocol::Msi),
        None => Protocol::Msi,
    }
}

/// The number that an option was given, which `clap` has tested.
pub(crate) fn number(options: &ArgMatches<'_>, name: &str) -> u32 {
    options.get_one::<u32>(name).unwrap_or(0)
}
