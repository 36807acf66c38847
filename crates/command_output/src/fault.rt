use base::{Failed, NoMemory, ShapeFault};
use record::{MOST_ENTRIES, MoveFault, PushFault, ReadFault, ReadKind, WriteFault};
use scenario::ScenarioFault;
use std::alloc::{AllocError, AllocFailed};
use std::{fmt, io};
use tables::TablesFault;
use thiserror::Error;

/// Why a command ends early. Its text is what `msi` prints on standard error.
#[derive(Clone, Copy, Debug, Error)]
pub enum Fault {
    /// A word of the command line isn't UTF-8.
    #[error("msi: a word isn't UTF-8")]
    BadWord,
    /// A line of the input, counted from 1, isn't a step.
    #[error("msi: line {0}: not a step")]
    NotAStep(u64),
    /// A line of the input, counted from 1, isn't an ask of the world's caches and blocks.
    #[error("msi: line {0}: not an ask of this shape")]
    NotAnAsk(u64),
    /// More steps were played than a recording has room for.
    #[error("msi: more than {MOST_ENTRIES} steps, and a recording has room for no more")]
    TooManyEntries,
    /// All seats together would make more than 1,000,000 turns.
    #[error("msi: too many turns")]
    TooManyTurns,
    /// The numbers of caches and blocks aren't a shape.
    #[error("msi: {0}")]
    Shape(ShapeFault),
    /// The options aren't those of trials.
    #[error("msi: trials can't be made so")]
    Setup,
    /// The overrides of the tables are refused.
    #[error("msi: tables refused {0}")]
    Tables(NamedRefusal<TablesFault>),
    /// The scenario is refused.
    #[error("msi: scenario refused {0}")]
    Scenario(NamedRefusal<ScenarioFault>),
    /// The recording is refused at a line, counted from 1.
    #[error("msi: recording line {0} refused {1}")]
    Recording(u64, NamedRefusal<ReadKind>),
    /// More steps are chosen, which is the first number, than a picture has room for, which is the second.
    #[error("msi: {0} steps, and a picture has room for {1}: choose fewer, by --from and --steps or by --block")]
    TooManySteps(u64, u64),
    /// A read or a write failed.
    #[error("msi: device")]
    Device,
    /// A growth was refused.
    #[error("msi: no memory")]
    NoMemory,
}

impl Fault {
    /// Why the words of the command line couldn't be had: one isn't UTF-8, or there was no memory for them.
    pub fn of_words(error: &io::Error) -> Fault {
        match error.kind() {
            io::ErrorKind::InvalidData => Fault::BadWord,
            _ => Fault::NoMemory,
        }
    }

    /// The exit status: 2 for bad words or input, 3 for device and memory.
    pub fn status(&self) -> u8 {
        match self {
            Fault::BadWord
            | Fault::NotAStep(_)
            | Fault::NotAnAsk(_)
            | Fault::TooManyEntries
            | Fault::TooManyTurns
            | Fault::Shape(_)
            | Fault::Setup
            | Fault::Tables(_)
            | Fault::Scenario(_)
            | Fault::Recording(..)
            | Fault::TooManySteps(..) => 2,
            Fault::Device | Fault::NoMemory => 3,
        }
    }
}

/// A refusal, which shows its number in its type's order of testing, counted from 1, and its name.
#[derive(Clone, Copy, Debug)]
pub struct NamedRefusal<F> {
    number: u8,
    fault: F,
}

impl<F: Copy> NamedRefusal<F> {
    /// What is wrong.
    pub fn fault(&self) -> F {
        self.fault
    }
}

impl<F: fmt::Debug> fmt::Display for NamedRefusal<F> {
    fn fmt<W: fmt::Write>(&self, f: &mut fmt::Formatter<W>) -> fmt::Result {
        write!(f, "{} {:?}", self.number, self.fault)
    }
}

impl From<ReadFault> for Fault {
    fn from(fault: ReadFault) -> Fault {
        match fault.kind {
            ReadKind::NoMemory => Fault::NoMemory,
            ReadKind::Device => Fault::Device,
            kind => Fault::Recording(
                fault.line,
                NamedRefusal {
                    number: kind as u8 + 1,
                    fault: kind,
                },
            ),
        }
    }
}

impl From<ShapeFault> for Fault {
    fn from(fault: ShapeFault) -> Fault {
        Fault::Shape(fault)
    }
}

impl From<TablesFault> for Fault {
    fn from(fault: TablesFault) -> Fault {
        match fault {
            TablesFault::NoMemory => Fault::NoMemory,
            fault => Fault::Tables(NamedRefusal {
                number: fault as u8 + 1,
                fault,
            }),
        }
    }
}

impl From<ScenarioFault> for Fault {
    fn from(fault: ScenarioFault) -> Fault {
        match fault {
            ScenarioFault::NoMemory => Fault::NoMemory,
            fault => Fault::Scenario(NamedRefusal {
                number: fault as u8 + 1,
                fault,
            }),
        }
    }
}

impl From<WriteFault> for Fault {
    fn from(_fault: WriteFault) -> Fault {
        Fault::Device
    }
}

impl From<PushFault> for Fault {
    fn from(fault: PushFault) -> Fault {
        match fault {
            PushFault::Full => Fault::TooManyEntries,
            PushFault::NoMemory => Fault::NoMemory,
        }
    }
}

impl From<MoveFault> for Fault {
    fn from(fault: MoveFault) -> Fault {
        match fault {
            MoveFault::Read(fault) => Fault::from(fault),
            MoveFault::Write(fault) => Fault::from(fault),
        }
    }
}

impl From<io::Error> for Fault {
    fn from(error: io::Error) -> Fault {
        match error.kind() {
            io::ErrorKind::OutOfMemory => Fault::NoMemory,
            _ => Fault::Device,
        }
    }
}

impl From<Failed> for Fault {
    fn from(_failed: Failed) -> Fault {
        Fault::Device
    }
}

impl From<AllocError> for Fault {
    fn from(_refused: AllocError) -> Fault {
        Fault::NoMemory
    }
}

impl<T: Drop> From<AllocFailed<T>> for Fault {
    fn from(_refused: AllocFailed<T>) -> Fault {
        Fault::NoMemory
    }
}

impl From<NoMemory> for Fault {
    fn from(_refused: NoMemory) -> Fault {
        Fault::NoMemory
    }
}
