use crate::explanation::Explanation;
use base::controller::{Listed, Protocol};
use std::alloc::Global;
use strsim::generic_levenshtein;

/// Of how many bytes a word is at most that is compared with names.
const MOST_COMPARED: usize = 40;

/// The name among those that were offered and are near a word that is the nearest: of those that come of it by the fewest
/// edits the one that was offered first.
#[derive(Clone, Copy)]
struct Nearest<'a> {
    word: &'a [u8],
    name: Option<&'static str>,
    edits: usize,
}

impl<'a> Nearest<'a> {
    fn to(word: &'a [u8]) -> Nearest<'a> {
        Nearest {
            word,
            name: None,
            edits: usize::MAX,
        }
    }

    fn offer(&mut self, alloc: Global, name: &'static str) {
        let edits = edits(alloc, self.word, name.as_bytes());
        if edits < self.edits {
            self.edits = edits;
            self.name = Some(name);
        }
    }

    fn tell(&self, told: &mut Explanation) {
        if let Some(name) = self.name {
            told.line(format_args!("the nearest is {name}"));
        }
    }
}

/// How many edits lead from a word to a name: none where only the letters' case differs. A word that is too long, or isn't
/// near the name, or for which there is no memory, is as far as can be.
fn edits(alloc: Global, word: &[u8], name: &[u8]) -> usize {
    if word.len() > MOST_COMPARED {
        return usize::MAX;
    }
    if word.eq_ignore_ascii_case(name) {
        return 0;
    }
    match generic_levenshtein(alloc, word, name) {
        Ok(edits) if edits <= most_edits(word) && edits < word.len().max(name.len()) => edits,
        _ => usize::MAX,
    }
}

/// How many edits lead from a word to what is near it at most: one in three letters.
fn most_edits(word: &[u8]) -> usize {
    word.len().max(3) / 3
}

/// Tells the names of a kind that a protocol has, behind these words, and which of them is the nearest to what stands there.
pub fn tell_names<N: Listed>(told: &mut Explanation, protocol: Protocol, front: &str, word: &[u8]) {
    let mut nearest = Nearest::to(word);
    told.begin(front);
    for one in N::all() {
        if one.is_in(protocol) {
            told.word(one.name());
            nearest.offer(told.alloc(), one.name());
        }
    }
    told.end();
    nearest.tell(told);
}

/// Tells these words, behind others, and which of them is the nearest to what stands there.
pub fn tell_words(told: &mut Explanation, words: &[&'static str], front: &str, word: &[u8]) {
    let mut nearest = Nearest::to(word);
    told.begin(front);
    for one in words {
        told.word(one);
        nearest.offer(told.alloc(), one);
    }
    told.end();
    nearest.tell(told);
}
