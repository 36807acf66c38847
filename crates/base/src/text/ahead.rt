//! Steps and outcomes at the front of bytes that go on behind them.
//!
//! They are looked for as most are spelled, and only what is found is promised: `None` doesn't say that nothing is there.

ghost use Rattle.std.specs.Prelude.{◌≡◌, ◌∷◌, ◌++◌, IfSome, codes};
ghost use Rattle.std.specs.Fmt.{decimal};
ghost use Rattle.base.specs.Words.{joined};
ghost use Rattle.base.specs.Spelling.{ask_words, outcome_words, step_words};
ghost use Rattle.base.specs.inner.Behind.{kind_word};

use crate::ids::{BlockId, CacheId};
use crate::step::{Ask, Outcome, Step};
use crate::text::steps::MessageKind;
use crate::words::{begins_with, digit_of, digits_in_front, has_first_digit};

impl Step {
    /// A step that bytes begin with, with the byte `END` behind it, and what follows that.
    ///
    /// `None` doesn't say that there is none: [`read`](Step::read) does. The byte is a const parameter, so that each loop that
    /// reads steps has an instance of its own, which is inlined there (docs/PERFORMANCE.md, "Calls from two places").
    #[inline(always)]
    pub fn read_ahead<const END: u8>(bytes: &[u8]) -> Option<(Step, &[u8])>
        ensures { IfSome result (λ found. bytes.now ≡ joined (step_words found.0) ++ END ∷ found.1.now) }
    {
        if let Some(rest) = behind(bytes, b"ask ") {
            return ask_ahead::<END>(rest);
        }
        let (kind, rest) = kind_ahead(bytes)?;
        served_ahead::<END>(kind, rest)
    }
}

/// A step behind `ask ` that bytes begin with.
#[inline(always)]
fn ask_ahead<const END: u8>(bytes: &[u8]) -> Option<(Step, &[u8])>
    ensures { IfSome result (λ found. codes "ask " ++ bytes.now ≡ joined (step_words found.0) ++ END ∷ found.1.now) }
{
    let (cache, rest) = small_ahead(bytes, b' ')?;
    let (block, rest) = small_ahead(rest, b' ')?;
    let (ask, rest) = asked_ahead::<END>(rest)?;
    let step = Step::Ask {
        cache: CacheId(cache),
        block: BlockId(block),
        ask,
    };
    Some((step, rest))
}

/// What a core asks, where bytes begin with it.
#[inline(always)]
fn asked_ahead<const END: u8>(bytes: &[u8]) -> Option<(Ask, &[u8])>
    ensures { IfSome result (λ found. bytes.now ≡ joined (ask_words found.0) ++ END ∷ found.1.now) }
{
    if let Some(rest) = behind(bytes, b"store ") {
        let (value, rest) = number_ahead(rest, END)?;
        return Some((Ask::Store(value), rest));
    }
    if let Some(rest) = word_ahead(bytes, b"load", END) {
        return Some((Ask::Load, rest));
    }
    let rest = word_ahead(bytes, b"replace", END)?;
    Some((Ask::Replace, rest))
}

/// The kind of messages whose word, with a blank behind it, bytes begin with.
#[inline(always)]
fn kind_ahead(bytes: &[u8]) -> Option<(MessageKind, &[u8])>
    ensures { IfSome result (λ found. bytes.now ≡ kind_word found.0 ++ 32 ∷ found.1.now) }
{
    if let Some(rest) = word_ahead(bytes, b"response", b' ') {
        return Some((MessageKind::Response, rest));
    }
    if let Some(rest) = behind(bytes, b"request ") {
        return Some((MessageKind::Request, rest));
    }
    let rest = behind(bytes, b"forward ")?;
    Some((MessageKind::Forward, rest))
}

/// A step behind the word for a kind of messages that bytes begin with.
#[inline(always)]
fn served_ahead<const END: u8>(kind: MessageKind, bytes: &[u8]) -> Option<(Step, &[u8])>
    ensures { IfSome result (λ found. kind_word kind ++ 32 ∷ bytes.now ≡ joined (step_words found.0) ++ END ∷ found.1.now) }
{
    let (block, rest) = small_ahead(bytes, b' ')?;
    let (number, rest) = number_ahead(rest, END)?;
    let block = BlockId(block);
    let step = match kind {
        MessageKind::Request => Step::Request {
            block,
            index: number,
        },
        MessageKind::Forward => {
            let Ok(cache) = u32::try_from(number) else {
                return None;
            };
            let cache = CacheId(cache);
            Step::Forward { block, cache }
        }
        MessageKind::Response => Step::Response {
            block,
            index: number,
        },
    };
    Some((step, rest))
}

impl Outcome {
    /// An outcome that bytes begin with, with this byte behind it, and what follows that.
    ///
    /// `None` doesn't say that there is none: [`read`](Outcome::read) does.
    #[inline(always)]
    pub fn read_ahead(bytes: &[u8], end: u8) -> Option<(Outcome, &[u8])>
        ensures { IfSome result (λ found. bytes.now ≡ joined (outcome_words found.0) ++ end ∷ found.1.now) }
    {
        if let Some(rest) = word_ahead(bytes, b"moved", end) {
            return Some((Outcome::Moved, rest));
        }
        if let Some(rest) = word_ahead(bytes, b"sent", end) {
            return Some((Outcome::Sent, rest));
        }
        if let Some(rest) = behind(bytes, b"load ") {
            let (cache, value, rest) = pair_ahead(rest, end)?;
            return Some((Outcome::Load { cache, value }, rest));
        }
        if let Some(rest) = behind(bytes, b"store ") {
            let (cache, value, rest) = pair_ahead(rest, end)?;
            return Some((Outcome::Store { cache, value }, rest));
        }
        if let Some(rest) = word_ahead(bytes, b"idle", end) {
            return Some((Outcome::Idle, rest));
        }
        let rest = word_ahead(bytes, b"held", end)?;
        Some((Outcome::Held, rest))
    }
}

/// A cache and a value that bytes begin with.
#[inline(always)]
fn pair_ahead(bytes: &[u8], end: u8) -> Option<(CacheId, u64, &[u8])>
    ensures { IfSome result (λ found. bytes.now ≡ decimal found.0.0 ++ 32 ∷ decimal found.1 ++ end ∷ found.2.now) }
{
    let (cache, rest) = small_ahead(bytes, b' ')?;
    let (value, rest) = number_ahead(rest, end)?;
    Some((CacheId(cache), value, rest))
}

/// A number below 2^32 that bytes begin with, with this byte behind it, and what follows that.
#[inline(always)]
fn small_ahead(bytes: &[u8], end: u8) -> Option<(u32, &[u8])>
    ensures { IfSome result (λ found. bytes.now ≡ decimal found.0 ++ end ∷ found.1.now) }
{
    let (number, rest) = number_ahead(bytes, end)?;
    match u32::try_from(number) {
        Ok(number) => Some((number, rest)),
        Err(_) => None,
    }
}

/// A number that bytes begin with, with this byte behind it, and what follows that.
#[inline(always)]
fn number_ahead(bytes: &[u8], end: u8) -> Option<(u64, &[u8])>
    ensures { IfSome result (λ found. bytes.now ≡ decimal found.0 ++ end ∷ found.1.now) }
{
    match bytes {
        [byte, last, rest @ ..] if *last == end => Some((digit_of(*byte)?, rest)),
        _ => long_ahead(bytes, end),
    }
}

/// The same, where the number may be of any length. It is the call of what stands apart, taken apart (docs/PERFORMANCE.md, "Seldom calls").
#[inline(always)]
fn long_ahead(bytes: &[u8], end: u8) -> Option<(u64, &[u8])>
    ensures { IfSome result (λ found. bytes.now ≡ decimal found.0 ++ end ∷ found.1.now) }
{
    let (number, rest) = digits_ahead(bytes, end)?;
    Some((number, rest))
}

/// The same. It stands apart, as most numbers in steps have one digit.
#[inline(never)]
fn digits_ahead(bytes: &[u8], end: u8) -> Option<(u64, &[u8])>
    ensures { IfSome result (λ found. bytes.now ≡ decimal found.0 ++ end ∷ found.1.now) }
{
    let (value, count) = digits_in_front(bytes);
    if !has_first_digit(&bytes[..count]) {
        return None;
    }
    let rest = behind_byte(&bytes[count..], end)?;
    Some((value, rest))
}

/// What follows a word at the front of bytes, with this byte behind it.
#[inline(always)]
fn word_ahead<'a>(bytes: &'a [u8], word: &[u8], end: u8) -> Option<&'a [u8]>
    ensures { IfSome result (λ rest. bytes.now ≡ word.now ++ end ∷ rest.now) }
{
    behind_byte(behind(bytes, word)?, end)
}

/// What follows a text at the front of bytes.
#[inline(always)]
fn behind<'a>(bytes: &'a [u8], text: &[u8]) -> Option<&'a [u8]>
    ensures { IfSome result (λ rest. bytes.now ≡ text.now ++ rest.now) }
{
    if !begins_with(bytes, text) {
        return None;
    }
    Some(&bytes[text.len()..])
}

/// What follows this byte at the front of bytes.
#[inline(always)]
fn behind_byte(bytes: &[u8], byte: u8) -> Option<&[u8]>
    ensures { IfSome result (λ rest. bytes.now ≡ byte ∷ rest.now) }
{
    match bytes {
        [first, rest @ ..] if *first == byte => Some(rest),
        _ => None,
    }
}
