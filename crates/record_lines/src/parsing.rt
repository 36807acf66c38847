//! What single lines of a recording spell.

ghost use Rattle.std.specs.Prelude.{◌≡◌, ◌≢◌, ◌≤◌, ◌<◌, ◌↔◌, ◌∷◌, ◌++◌, [], codes, ℕ, List, IfOk, IfErr, IfSome, IfNone, IsTrue};
ghost use Rattle.std.specs.Prelude.{MatchOption, MatchResult};
ghost use Rattle.std.specs.Fmt.{decimal};
ghost use Rattle.std.specs.Vec.{vec_capacity};
ghost use Rattle.base.specs.Extent.{Extent};
ghost use Rattle.record_lines.specs.Versions.{protocol_words, IsShapeIn};
ghost use Rattle.base.specs.Words.{words, joined};
ghost use Rattle.base.specs.Spelling.{step_words, FitsStep};
ghost use Rattle.record_lines.specs.Text.{by_words, header_words, shape_words, end_words, entry_words};
ghost use Rattle.record_lines.specs.Grammar.{FitsEntry, IsOwner};
ghost use Rattle.record_lines.specs.Refused.{IsNumber};
ghost use Rattle.record_lines.specs.Reading.{IsBadCount, IsBadProtocol, IsBadShape, IsBadOpening, IsBadEntry, IsBadTold, HasNoBy, HasNoSeat, HasNoStep};
ghost use Rattle.record_lines.specs.Reading.{SpellsOpening, TellsEntry};

use crate::entry::Entry;
use crate::fault::ReadKind;
use crate::told::Told;
use crate::version::Version;
use base::controller::Protocol;
use base::text::{cut, number_of, small_number_of};
use base::{Outcome, Shape, Step};

/// Whether this is the first line of a recording in version 1.
fn is_first_header(line: &[u8]) -> bool
    ensures { IsTrue result ↔ (words line.now ≡ header_words Version.One) }
{
    line == b"msi-recording 1".as_slice()
}

/// Whether this is the first line of a recording in version 2.
fn is_second_header(line: &[u8]) -> bool
    ensures { IsTrue result ↔ (words line.now ≡ header_words Version.Two) }
{
    line == b"msi-recording 2".as_slice()
}

/// The version of the recording whose first line this is.
pub fn version_of(line: &[u8]) -> Option<Version>
    ensures { MatchOption result ((version : Version) → words line.now ≢ header_words version) (λ version. words line.now ≡ header_words version) }
{
    if is_first_header(line) {
        return Some(Version::One);
    }
    if is_second_header(line) {
        return Some(Version::Two);
    }
    None
}

/// The protocol of the line of the protocol.
pub fn protocol_of(line: &[u8]) -> Result<Protocol, ReadKind>
    ensures ok { IfOk result (λ protocol. words line.now ≡ protocol_words protocol) }
    ensures err { IfErr result (IsBadProtocol (words line.now)) }
{
    let Some(word) = named_word(line, b"protocol".as_slice()) else {
        return Err(ReadKind::BadLine);
    };
    if let Some(protocol) = Protocol::named(word) {
        return Ok(protocol);
    }
    if word.is_empty() {
        Err(ReadKind::BadLine)
    } else {
        Err(ReadKind::UnknownProtocol)
    }
}

/// Whether this is the last line of a recording.
pub fn is_end(line: &[u8]) -> bool
    ensures { IsTrue result ↔ (words line.now ≡ end_words) }
{
    line == b"end".as_slice()
}

/// Whether a number of any size is spelled so.
fn is_number(word: &[u8]) -> bool
    ensures { IsTrue result ↔ IsNumber word.now }
{
    if word.is_empty() || word[0] == b'0' && word.len() != 1 {
        return false;
    }
    word.iter().all(|b| b'0' <= *b && *b <= b'9')
}

/// The one word behind a name.
#[tactic(auto, using(crate::proofs::Words::not_one, crate::proofs::Words::not_two))]
fn named_word<'a>(line: &'a [u8], name: &[u8]) -> Option<&'a [u8]>
    ensures { MatchOption result
        ((word : List ℕ) → words line.now ≢ name.now ∷ word ∷ [])
        (λ word. words line.now ≡ name.now ∷ word.now ∷ []) }
{
    let (first, Some(rest)) = cut(line) else {
        return None;
    };
    let (word, None) = cut(rest) else {
        return None;
    };
    if first == name { Some(word) } else { None }
}

/// The number up to this one that is spelled so.
fn number_up_to(word: &[u8], most: u32) -> Option<u32>
    ensures { MatchOption result ((n : ℕ) → n ≤ most → word.now ≢ decimal n) (λ n. (n ≤ most) × (word.now ≡ decimal n)) }
{
    let number = small_number_of(word)?;
    if number <= most { Some(number) } else { None }
}

/// The number of the line that counts what is called so.
pub fn count_of(line: &[u8], name: &[u8], most: u32) -> Result<u32, ReadKind>
    ensures ok { IfOk result (λ count. (count ≤ most) × (words line.now ≡ name.now ∷ decimal count ∷ [])) }
    ensures err { IfErr result (IsBadCount name.now most (words line.now)) }
{
    let Some(word) = named_word(line, name) else {
        return Err(ReadKind::BadLine);
    };
    if let Some(count) = number_up_to(word, most) {
        return Ok(count);
    }
    if is_number(word) {
        Err(ReadKind::OverLimit)
    } else {
        Err(ReadKind::BadLine)
    }
}

/// The two words behind a name.
#[tactic(auto, using(crate::proofs::Words::not_one, crate::proofs::Words::not_two, crate::proofs::Words::not_three))]
fn named_pair<'a>(line: &'a [u8], name: &[u8]) -> Option<(&'a [u8], &'a [u8])>
    ensures { MatchOption result
        ((first second : List ℕ) → words line.now ≢ name.now ∷ first ∷ second ∷ [])
        (λ pair. words line.now ≡ name.now ∷ pair.0.now ∷ pair.1.now ∷ []) }
{
    let (word, Some(rest)) = cut(line) else {
        return None;
    };
    let (first, Some(rest)) = cut(rest) else {
        return None;
    };
    let (second, None) = cut(rest) else {
        return None;
    };
    if word == name {
        Some((first, second))
    } else {
        None
    }
}

/// The shape of so many caches and blocks, spelled so in this version.
fn shape_within(version: Version, caches: &[u8], blocks: &[u8]) -> Option<Shape>
    ensures some { IfSome result (λ shape. IsShapeIn version shape × (caches.now ≡ decimal shape.caches) × (blocks.now ≡ decimal shape.blocks)) }
    ensures none { IfNone result ((shape : Extent) → IsShapeIn version shape → caches.now ≡ decimal shape.caches → blocks.now ≢ decimal shape.blocks) }
{
    let caches = number_up_to(caches, version.most_caches())?;
    let blocks = number_up_to(blocks, version.most_blocks())?;
    match Shape::new(caches, blocks) {
        Ok(shape) => Some(shape),
        Err(_) => None,
    }
}

/// The shape of the line of the shape.
pub fn shape_of(version: Version, line: &[u8]) -> Result<Shape, ReadKind>
    ensures ok { IfOk result (λ shape. IsShapeIn version shape × (words line.now ≡ shape_words shape)) }
    ensures err { IfErr result (IsBadShape version (words line.now)) }
{
    let Some((caches, blocks)) = named_pair(line, b"shape".as_slice()) else {
        return Err(ReadKind::BadLine);
    };
    if let Some(shape) = shape_within(version, caches, blocks) {
        return Ok(shape);
    }
    if is_number(caches) && is_number(blocks) {
        Err(ReadKind::OverLimit)
    } else {
        Err(ReadKind::BadLine)
    }
}

/// Reads the opening values of so many blocks, for which there is room.
pub fn opening_of(values: &mut Vec<u64>, line: &[u8], blocks: u32) -> Result<(), ReadKind>
    requires room { blocks ≤ vec_capacity values.old }
    ensures read { MatchResult result (λ _. SpellsOpening blocks (words line.now) values.new.items) (IsBadOpening blocks (words line.now)) }
    ensures room { vec_capacity values.new ≡ vec_capacity values.old }
{
    let (first, mut rest) = cut(line);
    if first != b"opening".as_slice() {
        return Err(ReadKind::BadLine);
    }
    values.clear();
    while values.len() < blocks as usize {
        let Some(text) = rest else {
            return Err(ReadKind::BadLine);
        };
        let (word, more) = cut(text);
        let Some(value) = number_of(word) else {
            return Err(ReadKind::BadLine);
        };
        values.push_reserved(value);
        rest = more;
    }
    match rest {
        None => Ok(()),
        Some(_) => Err(ReadKind::BadLine),
    }
}

/// The entry that the line of an entry spells.
#[inline(always)]
pub(crate) fn entry_of(line: &[u8]) -> Result<Entry, ReadKind>
    ensures fits { IfOk result FitsEntry }
    ensures ok { IfOk result (λ entry. words line.now ≡ entry_words entry) }
    ensures err { IfErr result (IsBadEntry (words line.now)) }
{
    let Some((step, rest)) = step_at_front(line) else {
        return Err(ReadKind::BadLine);
    };
    match Outcome::read(rest) {
        Some(outcome) => Ok(Entry { step, outcome }),
        None => Err(ReadKind::BadOutcome),
    }
}

/// The entry of a line that bytes begin with, and what follows the line's end.
///
/// It finds those that are spelled as most are, and `None` doesn't say that there is none.
#[inline(always)]
pub(crate) fn entry_ahead(bytes: &[u8]) -> Option<(Entry, &[u8])>
    ensures fits { IfSome result (λ found. FitsEntry found.0) }
    ensures text { IfSome result (λ found. bytes.now ≡ joined (entry_words found.0) ++ 10 ∷ found.1.now) }
{
    let (step, rest) = Step::read_ahead::<b' '>(bytes)?;
    let [b'=', b' ', rest @ ..] = rest else {
        return None;
    };
    let (outcome, rest) = Outcome::read_ahead(rest, b'\n')?;
    Some((Entry { step, outcome }, rest))
}

/// The entry that a line tells, where there are so many seats.
#[inline(always)]
pub fn told_of(line: &[u8], seats: u32) -> Result<Told, ReadKind>
    requires { seats ≤ 64 }
    ensures { MatchResult result (TellsEntry seats (words line.now)) (IsBadTold seats (words line.now)) }
{
    let Some((owner, rest)) = owner_in_front(line, seats) else {
        return Err(ReadKind::BadLine);
    };
    match entry_of(rest) {
        Ok(entry) => Ok(Told { owner, entry }),
        Err(kind) => Err(kind),
    }
}

/// Whose the entry of a line is, where there are so many seats, and the entry's own text.
#[inline(always)]
fn owner_in_front(line: &[u8], seats: u32) -> Option<(Option<u32>, &[u8])>
    requires few { seats ≤ 64 }
    ensures fits { IfSome result (λ found. IsOwner seats found.0) }
    ensures by { MatchOption result (HasNoBy seats (words line.now)) (λ found. words line.now ≡ by_words found.0 ++ words found.1.now) }
{
    if seats == 0 {
        return Some((None, line));
    }
    let (seat, rest) = seat_in_front(line, seats)?;
    Some((Some(seat), rest))
}

/// The seat behind the word `by`, one of so many, and what follows it.
#[inline(never)]
fn seat_in_front(line: &[u8], seats: u32) -> Option<(u32, &[u8])>
    requires some { 1 ≤ seats }
    ensures fits { IfSome result (λ found. found.0 < seats) }
    ensures by { MatchOption result (HasNoSeat seats (words line.now)) (λ found. words line.now ≡ codes "by" ∷ decimal found.0 ∷ words found.1.now) }
{
    let (by, Some(rest)) = cut(line) else {
        return None;
    };
    let (word, Some(rest)) = cut(rest) else {
        return None;
    };
    if by != b"by".as_slice() {
        return None;
    }
    let seat = number_up_to(word, seats - 1)?;
    Some((seat, rest))
}

/// The step in front of an equals sign, and what follows the sign's blank.
#[inline(always)]
fn step_at_front(line: &[u8]) -> Option<(Step, &[u8])>
    ensures fits { IfSome result (λ found. FitsStep found.0) }
    ensures step { MatchOption result (HasNoStep (words line.now)) (λ found. words line.now ≡ step_words found.0 ++ codes "=" ∷ words found.1.now) }
{
    let (step, rest) = Step::read_front(line)?;
    if rest.len() < 2 || rest[0] != b'=' || rest[1] != b' ' {
        return None;
    }
    Some((step, &rest[2..]))
}
