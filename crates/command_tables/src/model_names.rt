use base::controller::{Listed, Protocol};
use cache_table::{CacheEvent, CacheState};
use command_output::Printer;
use directory_table::{DirectoryEvent, DirectoryState};
use std::fmt;
use std::io::Write;

/// A name without the signs that names of a model may not have: `IS^D` is `ISD`, and `Fwd-GetS` is `FwdGetS`.
#[derive(Clone, Copy)]
pub struct Plain(pub &'static str);

impl fmt::Display for Plain {
    fn fmt<W: fmt::Write>(&self, f: &mut fmt::Formatter<W>) -> fmt::Result {
        for part in self.0.split('^') {
            for letters in part.split('-') {
                f.write_str(letters)?;
            }
        }
        Ok(())
    }
}

/// Prints which states and events there are: of caches with `c` and `e` before their names, of the home with `h` and `g`.
pub fn print_names<O: Write + Drop>(protocol: Protocol, printer: &mut Printer<O>) {
    printer.line("  cache_state: enum {");
    for state in CacheState::ALL {
        if state.is_in(protocol) {
            printer.line(Member::of("c", state.name(), state == CacheState::I));
        }
    }
    printer.line("  };\n  cache_event: enum {");
    for event in CacheEvent::ALL {
        if event.is_in(protocol) {
            printer.line(Member::of("e", event.name(), event == CacheEvent::Load));
        }
    }
    printer.line("  };\n  home_state: enum {");
    for state in DirectoryState::ALL {
        printer.line(Member::of("h", state.name(), state == DirectoryState::I));
    }
    printer.line("  };\n  home_event: enum {");
    for event in DirectoryEvent::ALL {
        printer.line(Member::of("g", event.name(), event == DirectoryEvent::GetS));
    }
    printer.line("  };");
}

/// A name among others, of which the first has no comma before it.
#[derive(Clone, Copy)]
struct Member {
    before: &'static str,
    prefix: &'static str,
    name: Plain,
}

impl Member {
    fn of(prefix: &'static str, name: &'static str, is_first: bool) -> Member {
        Member {
            before: if is_first { "    " } else { "    , " },
            prefix,
            name: Plain(name),
        }
    }
}

impl fmt::Display for Member {
    fn fmt<W: fmt::Write>(&self, f: &mut fmt::Formatter<W>) -> fmt::Result {
        write!(f, "{}{}{}", self.before, self.prefix, self.name)
    }
}
