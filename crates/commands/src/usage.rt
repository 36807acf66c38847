use crate::limits::{Limits, Most};
use crate::{VERSION, helps};
use base::{MOST_BLOCKS, MOST_CACHES};
use clap::builder::ValueParser;
use clap::{Arg, ArgAction, Command, value_parser};
use std::alloc::{AllocError, Global};

/// What an option takes.
#[derive(Clone, Copy)]
enum Takes {
    /// Nothing: it is there or not.
    Nothing,
    /// Nothing, and it isn't there beside the option of this name.
    NothingBeside(&'static str),
    /// The name of a file.
    File,
    /// A number from the first to the second.
    Number(u32, u32),
    /// A number from the first to this limit.
    UpTo(u32, Most),
    /// A number of 64 bits.
    Seed,
    /// One of these words.
    Word(&'static [&'static str]),
}

/// What stands for an option that is left out.
#[derive(Clone, Copy)]
enum LeftOut {
    /// Nothing may: the words are refused.
    Refused,
    /// This word.
    Default(&'static str),
    /// Nothing.
    Nothing,
}

/// An option: its name behind `--`, what help calls its value, and what help says of it.
#[derive(Clone, Copy)]
struct CommandOption {
    name: &'static str,
    value: &'static str,
    help: &'static str,
    takes: Takes,
    left_out: LeftOut,
}

const CACHES: CommandOption = CommandOption {
    name: "caches",
    value: "C",
    help: "How many caches the world has, 1 to 4096",
    takes: Takes::Number(1, MOST_CACHES),
    left_out: LeftOut::Refused,
};

const MODEL_CACHES: CommandOption = CommandOption {
    name: "caches",
    value: "N",
    help: "How many caches the model's block has, 1 to 8",
    takes: Takes::UpTo(1, Most::ModelCaches),
    left_out: LeftOut::Refused,
};

const BLOCKS: CommandOption = CommandOption {
    name: "blocks",
    value: "B",
    help: "How many blocks the world has, 1 to 65536",
    takes: Takes::Number(1, MOST_BLOCKS),
    left_out: LeftOut::Default("1"),
};

const PROTOCOL: CommandOption = CommandOption {
    name: "protocol",
    value: "P",
    help: "The controllers' protocol, msi or msi+e",
    takes: Takes::Word(&["msi", "msi+e"]),
    left_out: LeftOut::Default("msi"),
};

const TABLES: CommandOption = CommandOption {
    name: "tables",
    value: "FILE",
    help: "A file of cells, in JSON, in place of the protocol's own",
    takes: Takes::File,
    left_out: LeftOut::Nothing,
};

const SEED: CommandOption = CommandOption {
    name: "seed",
    value: "S",
    help: "The seed of the dice",
    takes: Takes::Seed,
    left_out: LeftOut::Refused,
};

const NUMBER: CommandOption = CommandOption {
    name: "number",
    value: "K",
    help: "The trial's number",
    takes: Takes::Number(0, u32::MAX),
    left_out: LeftOut::Refused,
};

const TRIALS: CommandOption = CommandOption {
    name: "trials",
    value: "N",
    help: "How many trials are made, at most 1000000",
    takes: Takes::UpTo(0, Most::Trials),
    left_out: LeftOut::Refused,
};

const LIMIT: CommandOption = CommandOption {
    name: "limit",
    value: "L",
    help: "How many steps a trial may make, at most 1000000",
    takes: Takes::UpTo(0, Most::Steps),
    left_out: LeftOut::Refused,
};

const WORKERS: CommandOption = CommandOption {
    name: "workers",
    value: "W",
    help: "How many threads share the trials, 1 to 64",
    takes: Takes::UpTo(1, Most::Workers),
    left_out: LeftOut::Default("1"),
};

const PROGRESS: CommandOption = CommandOption {
    name: "progress",
    value: "",
    help: "Tells on standard error how far the batch is",
    takes: Takes::Nothing,
    left_out: LeftOut::Nothing,
};

const UNTIL: CommandOption = CommandOption {
    name: "until",
    value: "KIND",
    help: "Ends behind the first such trial: broke, stuck or any",
    takes: Takes::Word(&["broke", "stuck", "any"]),
    left_out: LeftOut::Nothing,
};

const JSON: CommandOption = CommandOption {
    name: "json",
    value: "",
    help: "Prints an object in JSON a line",
    takes: Takes::Nothing,
    left_out: LeftOut::Nothing,
};

const CHANGES: CommandOption = CommandOption {
    name: "changes",
    value: "",
    help: "Prints the changed cells alone, in JSON, for --tables",
    takes: Takes::Nothing,
    left_out: LeftOut::Nothing,
};

const PAIRS: CommandOption = CommandOption {
    name: "pairs",
    value: "",
    help: "Prints the pairs of caches too, where they are closed",
    takes: Takes::Nothing,
    left_out: LeftOut::Nothing,
};

const OBJECTS: CommandOption = CommandOption {
    takes: Takes::NothingBeside("tsv"),
    ..JSON
};

const TSV: CommandOption = CommandOption {
    name: "tsv",
    value: "",
    help: "Prints columns with tabs between, behind their names",
    takes: Takes::Nothing,
    left_out: LeftOut::Nothing,
};

const SEATS: CommandOption = CommandOption {
    name: "seats",
    value: "N",
    help: "How many seats take turns, a thread each, 1 to 64",
    takes: Takes::UpTo(1, Most::Seats),
    left_out: LeftOut::Refused,
};

const TURNS: CommandOption = CommandOption {
    name: "turns",
    value: "T",
    help: "How many turns each seat tries to make",
    takes: Takes::Number(0, u32::MAX),
    left_out: LeftOut::Refused,
};

const RECORDING: CommandOption = CommandOption {
    name: "recording",
    value: "",
    help: "Prints the recording, and the finding on standard error",
    takes: Takes::Nothing,
    left_out: LeftOut::Nothing,
};

const PLAYED: CommandOption = CommandOption {
    name: "recording",
    value: "",
    help: "Prints the recording, and the finding on standard error",
    takes: Takes::Nothing,
    left_out: LeftOut::Nothing,
};

const BLOCK: CommandOption = CommandOption {
    name: "block",
    value: "B",
    help: "Only the steps of this block",
    takes: Takes::Number(0, u32::MAX),
    left_out: LeftOut::Nothing,
};

const FROM: CommandOption = CommandOption {
    name: "from",
    value: "K",
    help: "The first entry, counted from 0",
    takes: Takes::Number(0, u32::MAX),
    left_out: LeftOut::Nothing,
};

const STEPS: CommandOption = CommandOption {
    name: "steps",
    value: "N",
    help: "How many entries from there on",
    takes: Takes::Number(0, u32::MAX),
    left_out: LeftOut::Nothing,
};

const SOME_CACHES: CommandOption = CommandOption {
    left_out: LeftOut::Nothing,
    help: "How many caches it is for; else as many as it needs",
    ..CACHES
};

const SOME_BLOCKS: CommandOption = CommandOption {
    left_out: LeftOut::Nothing,
    help: "How many blocks; else 1, or as it needs without --caches",
    ..BLOCKS
};

/// An option of every command.
const EXPLAIN: CommandOption = CommandOption {
    name: "explain",
    value: "",
    help: "Tells on standard error where a text is refused, and why",
    takes: Takes::Nothing,
    left_out: LeftOut::Nothing,
};

/// A command: its name, what help says of it, its options in the order in which help lists them, and what stands behind those.
struct Usage {
    name: &'static str,
    about: &'static str,
    choices: &'static [CommandOption],
    after: &'static str,
}

const COMMANDS: [Usage; 12] = [
    Usage {
        name: "play",
        about: "Reads steps, one a line, and prints what each of them did",
        choices: &[CACHES, BLOCKS, PROTOCOL, TABLES, PLAYED],
        after: helps::PLAY,
    },
    Usage {
        name: "trial",
        about: "Reads a scenario, makes one trial of it and prints its recording",
        choices: &[CACHES, BLOCKS, PROTOCOL, TABLES, SEED, NUMBER, LIMIT],
        after: helps::TRIAL,
    },
    Usage {
        name: "batch",
        about: "Reads a scenario, makes trials of it and prints their verdicts",
        choices: &[
            CACHES, BLOCKS, PROTOCOL, TABLES, SEED, TRIALS, LIMIT, WORKERS, UNTIL, PROGRESS, JSON,
        ],
        after: helps::BATCH,
    },
    Usage {
        name: "replay",
        about: "Reads a recording, makes its steps again and compares their outcomes",
        choices: &[JSON],
        after: helps::REPLAY,
    },
    Usage {
        name: "show",
        about: "Reads a recording, and prints a table of what each step did",
        choices: &[BLOCK, FROM, STEPS, TSV, OBJECTS],
        after: helps::SHOW,
    },
    Usage {
        name: "chart",
        about: "Reads a recording, and prints it as a message sequence chart, in SVG",
        choices: &[BLOCK, FROM, STEPS],
        after: helps::CHART,
    },
    Usage {
        name: "move",
        about: "Reads a recording of either version, and prints it in version 2",
        choices: &[],
        after: helps::MOVE,
    },
    Usage {
        name: "floor",
        about: "Reads asks, one a line, and has threads put them in a race",
        choices: &[
            CACHES, BLOCKS, PROTOCOL, TABLES, SEATS, TURNS, SEED, RECORDING,
        ],
        after: helps::FLOOR,
    },
    Usage {
        name: "tables",
        about: "Prints the cells of both controller tables, one a line",
        choices: &[PROTOCOL, TABLES, CHANGES],
        after: helps::TABLES,
    },
    Usage {
        name: "certify",
        about: "Says whether tables are proved safe and never stuck, or why not",
        choices: &[PROTOCOL, TABLES, JSON, PAIRS],
        after: helps::CERTIFY,
    },
    Usage {
        name: "model",
        about: "Prints the tables as a model for rumur, which tries every schedule",
        choices: &[MODEL_CACHES, PROTOCOL, TABLES],
        after: helps::MODEL,
    },
    Usage {
        name: "check",
        about: "Reads tables and a scenario, and prints what they are",
        choices: &[SOME_CACHES, SOME_BLOCKS, PROTOCOL, TABLES],
        after: helps::CHECK,
    },
];

/// The command line of `msi`.
// (Constants are built by the function that names them, so who names the commands does nothing else.)
pub fn msi<'a>(alloc: Global, limits: &Limits) -> Result<Command<'a>, AllocError> {
    with_commands(alloc, program(alloc), &COMMANDS, limits)
}

/// The program without its commands.
fn program<'a>(alloc: Global) -> Command<'a> {
    Command::new(alloc, "msi")
        .version(VERSION)
        .about("Plays, tries out and replays a directory MSI cache-coherence protocol")
        .subcommand_required(true)
        .after_help(helps::MSI)
}

fn with_commands<'a>(
    alloc: Global,
    program: Command<'a>,
    usages: &[Usage],
    limits: &Limits,
) -> Result<Command<'a>, AllocError> {
    let mut program = program;
    for usage in usages {
        program = with_command(alloc, program, usage, limits)?;
    }
    Ok(program)
}

fn with_command<'a>(
    alloc: Global,
    program: Command<'a>,
    usage: &Usage,
    limits: &Limits,
) -> Result<Command<'a>, AllocError> {
    program.subcommand(command(alloc, usage, limits)?)
}

fn command<'a>(alloc: Global, usage: &Usage, limits: &Limits) -> Result<Command<'a>, AllocError> {
    let command = Command::new(alloc, usage.name)
        .about(usage.about)
        .after_help(usage.after);
    let command = with_options(alloc, command, usage.choices, limits)?;
    with_options(alloc, command, &[EXPLAIN], limits)
}

fn with_options<'a>(
    alloc: Global,
    command: Command<'a>,
    choices: &[CommandOption],
    limits: &Limits,
) -> Result<Command<'a>, AllocError> {
    let mut command = command;
    for choice in choices {
        command = with_option(alloc, command, choice, limits)?;
    }
    Ok(command)
}

fn with_option<'a>(
    alloc: Global,
    command: Command<'a>,
    choice: &CommandOption,
    limits: &Limits,
) -> Result<Command<'a>, AllocError> {
    command.arg(option(alloc, choice, limits)?)
}

fn option<'a>(
    alloc: Global,
    choice: &CommandOption,
    limits: &Limits,
) -> Result<Arg<'a>, AllocError> {
    let arg = Arg::new(alloc, choice.name)
        .long(choice.name)
        .help(choice.help);
    match choice.takes {
        Takes::Nothing => Ok(arg.action(ArgAction::SetTrue)),
        Takes::NothingBeside(other) => arg.action(ArgAction::SetTrue).conflicts_with(other),
        _ => Ok(with_value(arg, choice, limits)),
    }
}

/// An option's argument with what it takes.
fn with_value<'a>(arg: Arg<'a>, choice: &CommandOption, limits: &Limits) -> Arg<'a> {
    let arg = arg.value_name(choice.value).action(ArgAction::Set);
    let arg = match choice.left_out {
        LeftOut::Refused => arg.required(true),
        LeftOut::Default(word) => arg.default_value(word),
        LeftOut::Nothing => arg,
    };
    match choice.takes {
        Takes::Nothing | Takes::NothingBeside(_) | Takes::File => arg,
        Takes::Number(least, most) => within(arg, least, most),
        Takes::UpTo(least, most) => within(arg, least, limits.of(most)),
        Takes::Seed => arg.value_parser(value_parser!(u64)),
        Takes::Word(words) => arg
            .value_parser(ValueParser::Names(words))
            .hide_possible_values(true),
    }
}

/// An argument that takes a number between these.
fn within<'a>(arg: Arg<'a>, least: u32, most: u32) -> Arg<'a> {
    arg.value_parser(value_parser!(u32).range(i64::from(least)..=i64::from(most)))
}
