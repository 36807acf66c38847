use clap::ArgMatches;
use std::fmt;

/// The command line that makes one trial of a batch again, for the same standard input.
#[derive(Clone, Copy)]
pub struct TrialWords<'m, 'a> {
    /// What `msi` was called as.
    pub program: &'m str,
    /// The batch's options.
    pub options: &'m ArgMatches<'a>,
    pub number: u32,
}

impl fmt::Display for TrialWords<'_, '_> {
    fn fmt<W: fmt::Write>(&self, f: &mut fmt::Formatter<W>) -> fmt::Result {
        write!(
            f,
            "{} trial{}{}{}{}{}{} --number {}",
            ShellWord(self.program),
            GivenNumber("caches", self.options.get_one::<u32>("caches")),
            GivenNumber("blocks", self.options.get_one::<u32>("blocks")),
            GivenNumber("limit", self.options.get_one::<u32>("limit")),
            GivenWord("protocol", self.options.get_str("protocol")),
            GivenWord("tables", self.options.get_str("tables")),
            GivenNumber("seed", self.options.get_one::<u64>("seed")),
            self.number
        )
    }
}

/// An option behind a blank, where it was given a number.
#[derive(Clone, Copy)]
struct GivenNumber<N>(&'static str, Option<N>);

impl<N: fmt::Display> fmt::Display for GivenNumber<N> {
    fn fmt<W: fmt::Write>(&self, f: &mut fmt::Formatter<W>) -> fmt::Result {
        match &self.1 {
            Some(number) => write!(f, " --{} {number}", self.0),
            None => Ok(()),
        }
    }
}

/// An option behind a blank, where it was given a word.
#[derive(Clone, Copy)]
struct GivenWord<'w>(&'static str, Option<&'w str>);

impl fmt::Display for GivenWord<'_> {
    fn fmt<W: fmt::Write>(&self, f: &mut fmt::Formatter<W>) -> fmt::Result {
        match self.1 {
            Some(word) => write!(f, " --{} {}", self.0, ShellWord(word)),
            None => Ok(()),
        }
    }
}

/// A word as a shell reads it.
#[derive(Clone, Copy)]
pub(crate) struct ShellWord<'w>(pub(crate) &'w str);

impl fmt::Display for ShellWord<'_> {
    fn fmt<W: fmt::Write>(&self, f: &mut fmt::Formatter<W>) -> fmt::Result {
        if !self.0.is_empty() && self.0.bytes().all(is_plain) {
            return f.write_str(self.0);
        }
        write!(f, "'{}'", Escaped(self.0))
    }
}

/// A word with what a shell reads between quotes as a quote, in place of each.
#[derive(Clone, Copy)]
struct Escaped<'w>(&'w str);

impl fmt::Display for Escaped<'_> {
    fn fmt<W: fmt::Write>(&self, f: &mut fmt::Formatter<W>) -> fmt::Result {
        for (place, piece) in self.0.split('\'').enumerate() {
            if place > 0 {
                f.write_str("'\\''")?;
            }
            f.write_str(piece)?;
        }
        Ok(())
    }
}

/// Whether a shell takes a byte as it is, wherever it stands in a word.
fn is_plain(byte: u8) -> bool {
    byte.is_ascii_alphanumeric() || b"/._-+:@%".contains(&byte)
}
