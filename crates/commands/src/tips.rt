use crate::again::ShellWord;
use clap::Error;
use clap::error::ErrorKind;
use sheet::Sheet;
use std::alloc::Global;
use std::io::Write;

/// The commands that read standard input.
const READERS: [&str; 9] = [
    "play", "trial", "batch", "replay", "move", "show", "chart", "floor", "check",
];
/// How `clap` says that a word is one too many.
const UNEXPECTED: &str = "error: unexpected argument '";

/// Tells, where a command that reads standard input was given a file as a word, how it gets that.
pub fn tell_tip<E: Write>(alloc: Global, words: &[String], said: &Error, errors: &mut E) {
    let [_, command, others @ ..] = words else {
        return;
    };
    let command = command.as_str();
    if said.kind() != ErrorKind::UnknownArgument || !is_reader(command) {
        return;
    }
    let Some(word) = unexpected(alloc, others, said) else {
        return;
    };
    // What is told beside a refusal doesn't undo it where nobody takes it.
    let _ = if word == "-" {
        writeln!(
            errors,
            "\ntip: msi {command} reads standard input: leave '-' out"
        )
    } else {
        let file = ShellWord(word);
        writeln!(
            errors,
            "\ntip: msi {command} reads standard input: msi {command} < {file}"
        )
    };
}

fn is_reader(command: &str) -> bool {
    READERS.iter().any(|reader| *reader == command)
}

/// The word that `clap` says is one too many, unless it looks like an option.
fn unexpected<'w>(alloc: Global, words: &'w [String], said: &Error) -> Option<&'w str> {
    let mut text = Sheet::new(alloc);
    text.put(said);
    let text = text.text().ok()?;
    let named = text.strip_prefix(UNEXPECTED)?;
    words.iter().map(|word| word.as_str()).find(|word| {
        (*word == "-" || !word.starts_with('-')) && is_in_front(named, word)
    })
}

/// Whether a word and the quote behind it stand in front.
fn is_in_front(named: &str, word: &str) -> bool {
    named
        .strip_prefix(word)
        .is_some_and(|rest| rest.starts_with('\''))
}
