//! Lines that are words with one blank between two, and numbers in decimal, read from bytes.

ghost use Rattle.std.specs.Prelude.{◌≡◌, ◌≢◌, ◌≤◌, ◌<◌, ◌+◌, ◌^◌, ℕ, List, length, ◌==◌, false, true, slice_index_or, take, drop, [], ◌∷◌, ◌++◌};
ghost use Rattle.std.specs.Prelude.{IfSome, IfNone, MatchOption};
ghost use Rattle.std.specs.List.{position_or_len};
ghost use Rattle.std.specs.Fmt.{decimal};
ghost use Rattle.std.specs.Char.{digit_value};
ghost use Rattle.std.specs.Int.{to_le_bytes, w32, w64};
ghost use Rattle.std.specs.Str.Parse.{AllDigits, digits_value};
ghost use Rattle.base.specs.Words.{words, words_behind, IsNoNumberFirst, IsNoPair, IsSpelled};

/// The first word of a line, and what follows the blank behind it.
///
/// The second is `None` where the line has no blank, and so is one word.
#[tactic(auto, using(crate::proofs::Lines::one_word))]
pub fn cut(line: &[u8]) -> (&[u8], Option<&[u8]>)
    ensures { MatchOption result.1
        (words line.now ≡ result.0.now ∷ [])
        (λ rest. words line.now ≡ result.0.now ∷ words rest.now) }
{
    let at = blank_at(line);
    if at >= line.len() {
        return (line, None);
    }
    (&line[..at], Some(&line[at + 1..]))
}

/// Where the first blank is, or the length.
fn blank_at(line: &[u8]) -> usize
    ensures within { result ≤ length line.now }
    ensures place { result ≡ position_or_len (λ b. b == 32) line.now }
{
    for i in 0..line.len() {
        if line[i] == b' ' {
            return i;
        }
    }
    line.len()
}

/// The number below 2^64 that is spelled so: in decimal, with no sign and no leading zero.
///
/// `None` comes for every other text.
pub fn number_of(text: &[u8]) -> Option<u64>
    ensures some { IfSome result (λ n. text.now ≡ decimal n) }
    ensures none { IfNone result ((n : ℕ) → n < 2 ^ 64 → text.now ≢ decimal n) }
{
    if !has_first_digit(text) {
        return None;
    }
    let mut n: u64 = 0;
    for i in 0..text.len() {
        let digit = digit_of(text[i])?;
        n = n.checked_mul(10)?.checked_add(digit)?;
    }
    Some(n)
}

/// Whether a text has a first byte, and one that a number may begin with: a zero only where it is all.
pub fn has_first_digit(text: &[u8]) -> bool
    ensures some { result ≡ true → 0 < length text.now }
    ensures first { result ≡ true → slice_index_or text.now 0 0 ≡ 48 → length text.now ≡ 1 }
    ensures none { result ≡ false → (n : ℕ) → n < 2 ^ 64 → text.now ≢ decimal n }
{
    if text.is_empty() {
        return false;
    }
    if text[0] != b'0' {
        return true;
    }
    text.len() == 1
}

/// The value of a decimal digit.
pub fn digit_of(byte: u8) -> Option<u64>
    ensures some { IfSome result (λ digit. (digit ≡ digit_value byte) × (digit < 10)) }
    ensures none { IfNone result (10 ≤ digit_value byte) }
{
    let digit = byte.wrapping_sub(b'0');
    if digit < 10 {
        Some(u64::from(digit))
    } else {
        None
    }
}

/// The number below 2^32 that is spelled so: in decimal, with no sign and no leading zero.
///
/// `None` comes for every other text.
pub fn small_number_of(text: &[u8]) -> Option<u32>
    ensures some { IfSome result (λ n. text.now ≡ decimal n) }
    ensures none { IfNone result ((n : ℕ) → n < 2 ^ 32 → text.now ≢ decimal n) }
{
    let n = number_of(text)?;
    u32::try_from(n).ok()
}

/// What stands behind a word at the front of a line, if the line begins with that word: nothing, or a blank and more words.
#[inline(always)]
pub fn after_word<'a>(line: &'a [u8], word: &[u8]) -> Option<Option<&'a [u8]>>
    requires { words word.now ≡ word.now ∷ [] }
    ensures { MatchOption result
        ((others : List (List ℕ)) → words line.now ≢ word.now ∷ others)
        (λ rest. words line.now ≡ word.now ∷ words_behind rest) }
{
    // most words are told apart by where they end
    if line.len() > word.len() && line[word.len()] != b' ' {
        return None;
    }
    if !begins_with(line, word) {
        return None;
    }
    match &line[word.len()..] {
        [] => Some(None),
        [_, rest @ ..] => Some(Some(rest)),
    }
}

/// Whether a line begins with a word. Of the words that are told here most have four bytes or eight: these are compared as one number.
#[inline(always)]
pub fn begins_with(line: &[u8], word: &[u8]) -> bool
    ensures bound { result ≡ true → length word.now ≤ length line.now }
    ensures yes { result ≡ true → line.now ≡ word.now ++ drop (length word.now) line.now }
    ensures no { result ≡ false → (rest : List ℕ) → line.now ≢ word.now ++ rest }
{
    if line.len() < word.len() {
        return false;
    }
    let mut at = 0;
    while word.len() - at >= 8 {
        if eight_from(line, at) != eight_from(word, at) {
            return false;
        }
        at += 8;
    }
    if word.len() - at >= 4 {
        if four_from(line, at) != four_from(word, at) {
            return false;
        }
        at += 4;
    }
    for i in at..word.len() {
        if line[i] != word[i] {
            return false;
        }
    }
    true
}

/// The eight bytes from a place on as one number, the lowest first.
#[inline(always)]
fn eight_from(bytes: &[u8], at: usize) -> u64
    requires { at + 8 ≤ length bytes.now }
    ensures { to_le_bytes w64 result ≡ take 8 (drop at bytes.now) }
{
    u64::from_le_bytes([
        bytes[at],
        bytes[at + 1],
        bytes[at + 2],
        bytes[at + 3],
        bytes[at + 4],
        bytes[at + 5],
        bytes[at + 6],
        bytes[at + 7],
    ])
}

/// The four bytes from a place on as one number, the lowest first.
#[inline(always)]
fn four_from(bytes: &[u8], at: usize) -> u32
    requires { at + 4 ≤ length bytes.now }
    ensures { to_le_bytes w32 result ≡ take 4 (drop at bytes.now) }
{
    u32::from_le_bytes([bytes[at], bytes[at + 1], bytes[at + 2], bytes[at + 3]])
}

/// What follows the blank behind a word at the front of a line, if the line begins with both.
#[inline(always)]
pub fn behind_word<'a>(line: &'a [u8], word: &[u8]) -> Option<&'a [u8]>
    requires { words word.now ≡ word.now ∷ [] }
    ensures { MatchOption result
        ((first : List ℕ) (others : List (List ℕ)) → words line.now ≢ word.now ∷ first ∷ others)
        (λ rest. words line.now ≡ word.now ∷ words rest.now) }
{
    after_word(line, word)?
}

/// The digits at the front of a text, nineteen at most: their value, and how many they are.
#[inline(always)]
pub fn digits_in_front(text: &[u8]) -> (u64, usize)
    ensures within { result.1 ≤ length text.now }
    ensures few { result.1 ≤ 19 }
    ensures digits { AllDigits 10 (take result.1 text.now) }
    ensures value { result.0 ≡ digits_value 10 (take result.1 text.now) }
{
    // (zeros in front leave the value 0, however many they are)
    let most = text.len().min(19);
    let mut value: u64 = 0;
    let mut end = 0;
    while end < most {
        let digit = text[end].wrapping_sub(b'0');
        if digit > 9 || value >= 1_000_000_000_000_000_000 {
            break;
        }
        value = value * 10 + u64::from(digit);
        end += 1;
    }
    (value, end)
}

/// The one digit that is the first word of a line, and what follows the blank behind it.
///
/// `None` comes for every line whose first word is longer or no number.
#[inline(always)]
fn digit_in_front(line: &[u8]) -> Option<(u64, Option<&[u8]>)>
    ensures small { IfSome result (λ found. found.0 < 10) }
    ensures word { IfSome result (λ found. words line.now ≡ decimal found.0 ∷ words_behind found.1) }
{
    match line {
        [byte] => Some((digit_of(*byte)?, None)),
        [byte, b' ', rest @ ..] => Some((digit_of(*byte)?, Some(rest))),
        _ => None,
    }
}

/// The number below 2^64 that is the first word of a line, and what follows the blank behind it.
#[inline(always)]
pub fn number_in_front(line: &[u8]) -> Option<(u64, Option<&[u8]>)>
    ensures { MatchOption result
        (IsNoNumberFirst 64 (words line.now))
        (λ found. words line.now ≡ decimal found.0 ∷ words_behind found.1) }
{
    match digit_in_front(line) {
        Some(found) => Some(found),
        None => digits_as_number(line),
    }
}

/// The same, where the first word may be of any length.
#[inline(never)]
fn digits_as_number(line: &[u8]) -> Option<(u64, Option<&[u8]>)>
    ensures { MatchOption result
        (IsNoNumberFirst 64 (words line.now))
        (λ found. words line.now ≡ decimal found.0 ∷ words_behind found.1) }
{
    let (value, end) = digits_in_front(line);
    if has_first_digit(&line[..end]) {
        match &line[end..] {
            [] => return Some((value, None)),
            [b' ', rest @ ..] => return Some((value, Some(rest))),
            _ => {}
        }
    }
    first_word_as_number(line)
}

/// The same, where the first word is no number or a long one.
#[cold]
#[inline(never)]
fn first_word_as_number(line: &[u8]) -> Option<(u64, Option<&[u8]>)>
    ensures { MatchOption result
        (IsNoNumberFirst 64 (words line.now))
        (λ found. words line.now ≡ decimal found.0 ∷ words_behind found.1) }
{
    let (word, rest) = cut(line);
    Some((number_of(word)?, rest))
}

/// The number below 2^32 that is the first word of a line, and what follows the blank behind it.
#[inline(always)]
pub fn small_in_front(line: &[u8]) -> Option<(u32, Option<&[u8]>)>
    ensures { MatchOption result
        (IsNoNumberFirst 32 (words line.now))
        (λ found. words line.now ≡ decimal found.0 ∷ words_behind found.1) }
{
    match digit_in_front(line) {
        Some((digit, rest)) => Some((digit as u32, rest)),
        None => digits_as_small(line),
    }
}

/// The same, where the first word may be of any length.
#[inline(never)]
fn digits_as_small(line: &[u8]) -> Option<(u32, Option<&[u8]>)>
    ensures { MatchOption result
        (IsNoNumberFirst 32 (words line.now))
        (λ found. words line.now ≡ decimal found.0 ∷ words_behind found.1) }
{
    let (number, rest) = digits_as_number(line)?;
    match u32::try_from(number) {
        Ok(number) => Some((number, rest)),
        Err(_) => None,
    }
}

/// The two numbers that are the words of a line.
#[inline(always)]
pub fn small_and_number(line: &[u8]) -> Option<(u32, u64)>
    ensures { MatchOption result
        (IsNoPair 32 64 line.now)
        (λ pair. IsSpelled line.now (decimal pair.0 ∷ decimal pair.1 ∷ [])) }
{
    let (first, rest) = small_in_front(line)?;
    let (second, rest) = number_in_front(rest?)?;
    match rest {
        None => Some((first, second)),
        Some(_) => None,
    }
}
