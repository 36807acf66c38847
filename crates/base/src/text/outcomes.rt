ghost use Rattle.std.specs.Prelude.{◌≡◌, ◌≤◌, ◌+◌, ◌++◌, MatchOption, length};
ghost use Rattle.base.specs.Words.{joined};
ghost use Rattle.base.specs.Spelling.{outcome_words, FitsOutcome, IsNoOutcome, IsOutcomeLine, IsNoOutcomeWord, IsOutcomeWord};

use crate::ids::CacheId;
use crate::step::Outcome;
use crate::text::short::Text;
use crate::words::{behind_word, small_and_number};
use std::fmt;

impl Outcome {
    /// The outcome that a line is the text of: words with exactly one blank between two and none at the ends.
    ///
    /// `None` comes for every line that is the text of no outcome.
    #[inline(always)]
    pub fn read(line: &[u8]) -> Option<Outcome>
        ensures { MatchOption result (IsNoOutcome line.now) (λ o. IsOutcomeLine line.now o) }
    {
        if let Some(rest) = behind_word(line, b"load") {
            let (cache, value) = small_and_number(rest)?;
            let cache = CacheId(cache);
            return Some(Outcome::Load { cache, value });
        }
        if let Some(rest) = behind_word(line, b"store") {
            let (cache, value) = small_and_number(rest)?;
            let cache = CacheId(cache);
            return Some(Outcome::Store { cache, value });
        }
        bare_outcome(line)
    }
}

/// The outcome whose text is this one word.
fn bare_outcome(word: &[u8]) -> Option<Outcome>
    ensures { MatchOption result (IsNoOutcomeWord word.now) (λ o. IsOutcomeWord word.now o) }
{
    match word {
        b"sent" => Some(Outcome::Sent),
        b"moved" => Some(Outcome::Moved),
        b"held" => Some(Outcome::Held),
        b"absent" => Some(Outcome::Absent),
        b"idle" => Some(Outcome::Idle),
        b"blank" => Some(Outcome::Blank),
        b"broken" => Some(Outcome::Broken),
        _ => None,
    }
}

impl Outcome {
    /// The outcome's text.
    pub fn text(self) -> Text
        ensures text { result ≡ joined (outcome_words self) }
        ensures short { length result ≤ 50 }
        ensures fits { FitsOutcome self }
    {
        let mut text = Text::new();
        text.push_outcome(self);
        text
    }
}

impl Text {
    /// Adds an outcome's text at the end.
    #[inline(always)]
    pub fn push_outcome(&mut self, outcome: Outcome)
        requires { length self.old + 50 ≤ 192 }
        ensures text { self.new ≡ self.old ++ joined (outcome_words outcome) }
        ensures short { length self.new ≤ length self.old + 50 }
        ensures fits { FitsOutcome outcome }
    {
        match outcome {
            Outcome::Sent => self.push(b"sent"),
            Outcome::Moved => self.push(b"moved"),
            Outcome::Load { cache, value } => {
                self.push(b"load");
                self.push_number(u64::from(cache.0));
                self.push_number(value);
            }
            Outcome::Store { cache, value } => {
                self.push(b"store");
                self.push_number(u64::from(cache.0));
                self.push_number(value);
            }
            Outcome::Held => self.push(b"held"),
            Outcome::Absent => self.push(b"absent"),
            Outcome::Idle => self.push(b"idle"),
            Outcome::Blank => self.push(b"blank"),
            Outcome::Broken => self.push(b"broken"),
        }
    }
}

impl fmt::Display for Outcome {
    fn fmt<W: fmt::Write>(&self, f: &mut fmt::Formatter<W>) -> fmt::Result {
        self.text().fmt(f)
    }
}
