ghost use Rattle.std.specs.Prelude.{◌≡◌, ◌≤◌, ◌+◌, ◌∷◌, ◌++◌, MatchOption, codes, length};
ghost use Rattle.base.specs.Words.{words, joined, spaced, words_behind};
ghost use Rattle.base.specs.Spelling.{ask_words, step_words, FitsAsk, FitsStep, HasNoStepInFront, IsNoStep, IsStepLine, SpellsOneStep};
ghost use Rattle.base.specs.inner.Behind.{kind_word, IsNoAskFirst, IsNoKindFirst, IsNoStepFirst};

use crate::ids::{BlockId, CacheId};
use crate::step::{Ask, Step};
use crate::text::short::Text;
use crate::words::{after_word, behind_word, number_in_front, small_in_front};
use std::fmt;

impl Step {
    /// The step that a line is the text of: words with exactly one blank between two and none at the ends.
    ///
    /// `None` comes for every line that is the text of no step.
    #[inline(always)]
    pub fn read(line: &[u8]) -> Option<Step>
        ensures { MatchOption result (IsNoStep line.now) (λ s. IsStepLine line.now s) }
    {
        let (step, rest) = step_in_front(line)?;
        match rest {
            None => Some(step),
            Some(_) => None,
        }
    }

    /// The step that the first words of a line spell, and what follows the blank behind them.
    ///
    /// `None` comes for every line that isn't the text of a step, a blank and something else.
    #[inline(always)]
    pub fn read_front(line: &[u8]) -> Option<(Step, &[u8])>
        ensures { MatchOption result (HasNoStepInFront line.now) (λ found. words line.now ≡ step_words found.0 ++ words found.1.now) }
    {
        let (step, rest) = step_in_front(line)?;
        Some((step, rest?))
    }
}

/// The step that the first words of a line spell, and what follows the blank behind them, if there is one.
#[inline(always)]
fn step_in_front(line: &[u8]) -> Option<(Step, Option<&[u8]>)>
    ensures { MatchOption result (IsNoStepFirst (words line.now)) (λ found. words line.now ≡ step_words found.0 ++ words_behind found.1) }
{
    if let Some(rest) = behind_word(line, b"ask") {
        return ask_in_front(rest);
    }
    let (kind, rest) = kind_in_front(line)?;
    served_in_front(kind, rest)
}

/// The step that a line spells behind the word `ask`, and what follows it.
#[inline(always)]
fn ask_in_front(line: &[u8]) -> Option<(Step, Option<&[u8]>)>
    ensures { MatchOption result
        (IsNoStepFirst (codes "ask" ∷ words line.now))
        (λ found. codes "ask" ∷ words line.now ≡ step_words found.0 ++ words_behind found.1) }
{
    let (cache, rest) = small_in_front(line)?;
    let (block, rest) = small_in_front(rest?)?;
    let (ask, rest) = what_is_asked(rest?)?;
    let step = Step::Ask {
        cache: CacheId(cache),
        block: BlockId(block),
        ask,
    };
    Some((step, rest))
}

/// What a core asks, in the first words of a line, and what follows them.
#[inline(always)]
fn what_is_asked(line: &[u8]) -> Option<(Ask, Option<&[u8]>)>
    ensures { MatchOption result
        (IsNoAskFirst (words line.now))
        (λ found. words line.now ≡ ask_words found.0 ++ words_behind found.1) }
{
    if let Some(rest) = after_word(line, b"load") {
        return Some((Ask::Load, rest));
    }
    if let Some(rest) = behind_word(line, b"store") {
        let (value, rest) = number_in_front(rest)?;
        return Some((Ask::Store(value), rest));
    }
    let rest = after_word(line, b"replace")?;
    Some((Ask::Replace, rest))
}

/// The kinds of messages of which a step serves one.
#[derive(Clone, Copy)]
pub(crate) enum MessageKind {
    Request,
    Forward,
    Response,
}

/// The kind of messages whose word a line begins with, and what follows the word's blank.
#[inline(always)]
fn kind_in_front(line: &[u8]) -> Option<(MessageKind, &[u8])>
    ensures { MatchOption result (IsNoKindFirst (words line.now)) (λ found. words line.now ≡ kind_word found.0 ∷ words found.1.now) }
{
    if let Some(rest) = behind_word(line, b"request") {
        return Some((MessageKind::Request, rest));
    }
    if let Some(rest) = behind_word(line, b"forward") {
        return Some((MessageKind::Forward, rest));
    }
    let rest = behind_word(line, b"response")?;
    Some((MessageKind::Response, rest))
}

/// The step that a line spells behind the word for a kind of messages, and what follows it: two numbers for each kind.
#[inline(always)]
fn served_in_front(kind: MessageKind, line: &[u8]) -> Option<(Step, Option<&[u8]>)>
    ensures { MatchOption result
        (IsNoStepFirst (kind_word kind ∷ words line.now))
        (λ found. kind_word kind ∷ words line.now ≡ step_words found.0 ++ words_behind found.1) }
{
    let (block, rest) = small_in_front(line)?;
    let (number, rest) = number_in_front(rest?)?;
    let block = BlockId(block);
    let step = match kind {
        MessageKind::Request => Step::Request {
            block,
            index: number,
        },
        MessageKind::Forward => {
            let Ok(cache) = u32::try_from(number) else {
                return None;
            };
            let cache = CacheId(cache);
            Step::Forward { block, cache }
        }
        MessageKind::Response => Step::Response {
            block,
            index: number,
        },
    };
    Some((step, rest))
}

impl Step {
    /// The step's text.
    pub fn text(self) -> Text
        ensures text { result ≡ joined (step_words self) }
        ensures short { length result ≤ 80 }
        ensures fits { FitsStep self }
    {
        let mut text = Text::new();
        text.push_step(self);
        text
    }
}

impl Text {
    /// Adds a step's text at the end.
    pub fn push_step(&mut self, step: Step)
        requires { length self.old + 80 ≤ 192 }
        ensures text { self.new ≡ self.old ++ joined (step_words step) }
        ensures short { length self.new ≤ length self.old + 80 }
        ensures fits { FitsStep step }
    {
        match step {
            Step::Ask { cache, block, ask } => {
                self.push(b"ask");
                self.push_number(u64::from(cache.0));
                self.push_number(u64::from(block.0));
                push_ask(self, ask);
            }
            Step::Request { block, index } => {
                self.push(b"request");
                self.push_number(u64::from(block.0));
                self.push_number(index);
            }
            Step::Forward { block, cache } => {
                self.push(b"forward");
                self.push_number(u64::from(block.0));
                self.push_number(u64::from(cache.0));
            }
            Step::Response { block, index } => {
                self.push(b"response");
                self.push_number(u64::from(block.0));
                self.push_number(index);
            }
        }
    }
}

/// Adds what a core asks, with a blank before each word.
fn push_ask(text: &mut Text, ask: Ask)
    requires { length text.old + 28 ≤ 192 }
    ensures text { text.new ≡ text.old ++ spaced (ask_words ask) }
    ensures short { length text.new ≤ length text.old + 28 }
    ensures fits { FitsAsk ask }
{
    match ask {
        Ask::Load => text.push_word(b"load"),
        Ask::Store(value) => {
            text.push_word(b"store");
            text.push_number(value);
        }
        Ask::Replace => text.push_word(b"replace"),
    }
}

impl fmt::Display for Step {
    fn fmt<W: fmt::Write>(&self, f: &mut fmt::Formatter<W>) -> fmt::Result {
        self.text().fmt(f)
    }
}

/// A line is the text of one step at most.
pub fn spells_one_step()
    ensures { SpellsOneStep }
{}
