//! Lines that ought to be steps, or outcomes.

use crate::explanation::Explanation;
use crate::nearest::tell_words;
use crate::quoting::Quoted;
use base::text::{cut, number_of, small_number_of};
use std::alloc::Global;

/// What is due as a word of a line.
#[derive(Clone, Copy, PartialEq, Eq)]
pub enum DueWord {
    Step,
    Ask,
    Outcome,
    Cache,
    Block,
    Index,
    Value,
    Nothing,
}

const STEPS: [&str; 4] = ["ask", "request", "forward", "response"];

const ASKS: [&str; 3] = ["load", "store", "replace"];

const OUTCOMES: [&str; 9] = [
    "sent", "moved", "load", "store", "held", "absent", "idle", "blank", "broken",
];

impl DueWord {
    fn text(self) -> &'static str {
        match self {
            DueWord::Step => "the first word of a step",
            DueWord::Ask => "the name of an ask",
            DueWord::Outcome => "the first word of an outcome",
            DueWord::Cache => "the number of a cache below 2^32",
            DueWord::Block => "the number of a block below 2^32",
            DueWord::Index => "a place below 2^64",
            DueWord::Value => "a value below 2^64",
            DueWord::Nothing => "nothing",
        }
    }

    fn words(self) -> &'static [&'static str] {
        match self {
            DueWord::Step => &STEPS,
            DueWord::Ask => &ASKS,
            DueWord::Outcome => &OUTCOMES,
            _ => &[],
        }
    }

    fn fits(self, word: &[u8]) -> bool {
        match self {
            DueWord::Cache | DueWord::Block => small_number_of(word).is_some(),
            DueWord::Index | DueWord::Value => number_of(word).is_some(),
            DueWord::Nothing => false,
            DueWord::Step | DueWord::Ask | DueWord::Outcome => is_among(word, self.words()),
        }
    }
}

fn is_among(word: &[u8], words: &[&'static str]) -> bool {
    for one in words {
        if one.as_bytes() == word {
            return true;
        }
    }
    false
}

/// The words that are due behind a word.
fn due_behind(kind: DueWord, word: &[u8]) -> &'static [DueWord] {
    match (kind, word) {
        (DueWord::Step, b"ask") => &[DueWord::Cache, DueWord::Block, DueWord::Ask],
        (DueWord::Step, b"forward") => &[DueWord::Block, DueWord::Cache],
        (DueWord::Step, _) => &[DueWord::Block, DueWord::Index],
        (DueWord::Ask, b"store") => &[DueWord::Value],
        (DueWord::Outcome, b"load" | b"store") => &[DueWord::Cache, DueWord::Value],
        _ => &[],
    }
}

/// The first word of a line that isn't as is due. The word is `None` where it is missing.
#[derive(Clone, Copy)]
pub struct Wrong<'a> {
    number: usize,
    word: Option<&'a [u8]>,
    due: DueWord,
}

/// A line, as far as it was looked at.
#[derive(Clone, Copy)]
struct Walk<'a> {
    /// How many words were looked at.
    number: usize,
    rest: Option<&'a [u8]>,
    wrong: Option<Wrong<'a>>,
}

impl<'a> Walk<'a> {
    /// Takes the next word, if all before were as is due, and answers it.
    fn take(&mut self, due: DueWord) -> &'a [u8] {
        if self.wrong.is_some() {
            return &[];
        }
        self.number = self.number.saturating_add(1);
        let Some(text) = self.rest else {
            self.note(None, due);
            return &[];
        };
        let (word, rest) = cut(text);
        self.rest = rest;
        if !due.fits(word) {
            self.note(Some(word), due);
        }
        word
    }

    fn take_all(&mut self, dues: &[DueWord]) -> &'a [u8] {
        let mut last: &'a [u8] = &[];
        for due in dues {
            last = self.take(*due);
        }
        last
    }

    fn note(&mut self, word: Option<&'a [u8]>, due: DueWord) {
        self.wrong = Some(Wrong {
            number: self.number,
            word,
            due,
        });
    }
}

/// What is wrong with a line that ought to be a step, or an outcome. `None` where nothing is. Behind a step more may stand,
/// where it isn't the whole line.
pub fn wrong_in(line: &[u8], kind: DueWord, is_whole: bool) -> Option<Wrong<'_>> {
    let mut walk = Walk {
        number: 0,
        rest: Some(line),
        wrong: None,
    };
    let first = walk.take(kind);
    let dues = due_behind(kind, first);
    let last = walk.take_all(dues);
    if kind == DueWord::Step {
        walk.take_all(due_behind(DueWord::Ask, last));
    }
    if is_whole && walk.rest.is_some() {
        walk.take(DueWord::Nothing);
    }
    walk.wrong
}

/// Tells the first wrong word.
pub fn tell_wrong(told: &mut Explanation, wrong: Option<Wrong<'_>>) {
    let Some(Wrong { number, word, due }) = wrong else {
        return;
    };
    let text = due.text();
    match word {
        None => told.line(format_args!("word {number} is missing: {text} is due")),
        Some([]) => told.line(format_args!(
            "word {number} is empty: one space stands between two words, and none at the ends"
        )),
        Some(word) => told.line(format_args!(
            "word {number} is {}, and {text} is due",
            Quoted(word)
        )),
    }
    if !due.words().is_empty() {
        tell_words(told, due.words(), "there may stand:", word.unwrap_or(&[]));
    }
    if due == DueWord::Step {
        tell_form(told, word.unwrap_or(&[]));
    }
}

/// Tells how an ask is spelled, where its name stands as a line's first word.
fn tell_form(told: &mut Explanation, word: &[u8]) {
    match word {
        b"load" => told.line("a load is: ask C B load"),
        b"store" => told.line("a store is: ask C B store V"),
        b"replace" => told.line("a replacement is: ask C B replace"),
        _ => {}
    }
}

/// Why a line isn't a step of at most so many bytes. Of a longer line it is enough to know more than these.
pub fn explain_step(alloc: Global, most: usize, line: &[u8]) -> Explanation {
    let mut told = Explanation::new(alloc);
    if tell_line(&mut told, most, line) {
        tell_wrong(
            &mut told,
            wrong_in(without_return(line), DueWord::Step, true),
        );
    }
    told.line(
        "a step is: ask C B load | ask C B store V | ask C B replace | request B I | forward B C | response B I",
    );
    told
}

/// Tells a line, and what is wrong with its length and its end. Answers whether it is short enough that its words count.
pub fn tell_line(told: &mut Explanation, most: usize, line: &[u8]) -> bool {
    told.line(format_args!("the line: {}", Quoted(line)));
    if line.len() > most {
        told.line(format_args!("it has more than {most} bytes, which are the most"));
        return false;
    }
    tell_return(told, line);
    true
}

/// Tells that a line ends with CR, if it does.
pub fn tell_return(told: &mut Explanation, line: &[u8]) {
    if line.last() == Some(&b'\r') {
        told.line("it ends with CR and LF, and lines end with LF alone");
    }
}

/// A line without the CR at its end, which is told of by itself.
pub fn without_return(line: &[u8]) -> &[u8] {
    match line {
        [front @ .., b'\r'] => front,
        _ => line,
    }
}
