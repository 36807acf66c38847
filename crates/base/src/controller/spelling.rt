//! Entries of a table, and changes of its cells, as text.

ghost use Rattle.std.specs.Prelude.{◌≡◌, ◌≢◌, ◌≤◌, ◌+◌, ◌*◌, ◌++◌, ◌∷◌, [], List, IfSome, MatchOption, codes, map, length};
ghost use Rattle.base.specs.Entries.{change_words, entry_words, HasFewActions, IsNoChange, IsNoEntry, SpellsOneChange};
ghost use Rattle.base.specs.Words.{joined, spaced, words, words_behind};
ghost use Rattle.base.specs.inner.Behind.{IsNoActions};

use crate::controller::actions::{Actions, MOST_ACTIONS};
use crate::controller::entry::{CellEntry, Change, Side};
use crate::controller::listed::{Listed, named};
use crate::text::{Text, cut};
use crate::words::behind_word;
use std::fmt;

impl Side {
    ghost use Rattle.base.specs.Entries.{side_word};

    /// The word for the side: `cache` or `directory`.
    pub fn name(self) -> &'static str
        ensures name { result.now ≡ side_word self }
        ensures short { length (side_word self) ≤ 9 }
        ensures word { words (side_word self) ≡ side_word self ∷ [] }
    {
        match self {
            Side::Cache => "cache",
            Side::Directory => "directory",
        }
    }
}

impl<S: Listed, E: Listed, A: Listed> Change<S, E, A> {
    /// The change's text: the word `cell`, the side, the state, the event, and the entry.
    pub fn text(&self, side: Side) -> Text
        ensures text { result ≡ joined (change_words S.spelling E.spelling A.spelling side self.now) }
        ensures short { length result ≤ 180 }
        ensures fits { HasFewActions self.now.entry }
    {
        let mut text = Text::new();
        text.push(b"cell");
        text.push_word(side.name().as_bytes());
        text.push_word(self.state.name().as_bytes());
        text.push_word(self.event.name().as_bytes());
        push_entry(&mut text, self.entry);
        text
    }

    /// The change of a cell of this side's table that a line is the text of: words with exactly one blank between two and
    /// none at the ends. `None` comes for every line that is the text of no such change.
    pub fn read(side: Side, line: &[u8]) -> Option<Change<S, E, A>>
        ensures fits { IfSome result (λ c. HasFewActions c.entry) }
        ensures change { MatchOption result (IsNoChange {S = S} {E = E} {A = A} S.spelling E.spelling A.spelling side (words line.now))
            (λ c. words line.now ≡ change_words S.spelling E.spelling A.spelling side c) }
    {
        let Some(rest) = behind_word(line, b"cell") else {
            return None;
        };
        let Some(rest) = behind_word(rest, side.name().as_bytes()) else {
            return None;
        };
        let (state, Some(rest)) = cut(rest) else {
            return None;
        };
        let (event, Some(rest)) = cut(rest) else {
            return None;
        };
        match (named::<S>(state), named::<E>(event), entry_of::<S, A>(rest)) {
            (Some(state), Some(event), Some(entry)) => Some(Change {
                state,
                event,
                entry,
            }),
            _ => None,
        }
    }
}

/// Adds an entry, with a blank before each word.
fn push_entry<S: Listed, A: Listed>(text: &mut Text, entry: CellEntry<S, A>)
    requires { length text.old ≤ 42 }
    ensures text { text.new ≡ text.old ++ spaced (entry_words S.spelling A.spelling entry) }
    ensures short { length text.new ≤ 180 }
    ensures fits { HasFewActions entry }
{
    match entry {
        CellEntry::Blank => text.push_word(b"blank"),
        CellEntry::Stall => text.push_word(b"stall"),
        CellEntry::Act { next, actions } => {
            text.push_word(b"act");
            text.push_word(next.name().as_bytes());
            push_actions(text, actions.as_slice());
        }
    }
}

fn push_actions<A: Listed>(text: &mut Text, actions: &[A])
    requires room { length text.old ≤ 60 }
    requires few { length actions.now ≤ 8 }
    ensures text { text.new ≡ text.old ++ spaced (map A.spelling actions.now) }
    ensures short { length text.new ≤ 180 }
{
    for action in actions {
        text.push_word(action.name().as_bytes());
    }
}

/// The entry that these words spell.
#[tactic(auto, using(crate::proofs::Lines::not_one))]
fn entry_of<S: Listed, A: Listed>(line: &[u8]) -> Option<CellEntry<S, A>>
    ensures fits { IfSome result HasFewActions }
    ensures entry { MatchOption result (IsNoEntry {S = S} {A = A} S.spelling A.spelling (words line.now))
        (λ entry. words line.now ≡ entry_words S.spelling A.spelling entry) }
{
    let (word, rest) = cut(line);
    let Some(rest) = rest else {
        return bare_entry(word);
    };
    if word != b"act".as_slice() {
        return None;
    }
    let (next, rest) = cut(rest);
    match (named::<S>(next), actions_of::<A>(rest)) {
        (Some(next), Some(actions)) => Some(CellEntry::Act { next, actions }),
        _ => None,
    }
}

/// The entry that this one word spells.
fn bare_entry<S: Listed, A: Listed>(word: &[u8]) -> Option<CellEntry<S, A>>
    ensures fits { IfSome result HasFewActions }
    ensures entry { MatchOption result (IsNoEntry {S = S} {A = A} S.spelling A.spelling (word.now ∷ []))
        (λ entry. word.now ∷ [] ≡ entry_words S.spelling A.spelling entry) }
{
    if word == b"blank".as_slice() {
        Some(CellEntry::Blank)
    } else if word == b"stall".as_slice() {
        Some(CellEntry::Stall)
    } else {
        None
    }
}

/// The actions that the words behind a blank name, if there are any.
fn actions_of<A: Listed>(rest: Option<&[u8]>) -> Option<Actions<A>>
    ensures few { IfSome result (λ actions. length actions ≤ 8) }
    ensures actions { MatchOption result (IsNoActions A.spelling (words_behind rest.entry))
        (λ actions. words_behind rest.entry ≡ map A.spelling actions) }
{
    let mut actions = Actions::none();
    let mut rest = rest;
    while actions.len() < MOST_ACTIONS {
        let Some(text) = rest else {
            return Some(actions);
        };
        let (word, more) = cut(text);
        let Some(action) = named::<A>(word) else {
            return None;
        };
        actions = actions.with(action);
        rest = more;
    }
    match rest {
        None => Some(actions),
        Some(_) => None,
    }
}

/// A line is the text of one change at most.
pub fn spells_one_change<S: Listed, E: Listed, A: Listed>()
    ensures { SpellsOneChange S.spelling E.spelling A.spelling }
{}
