ghost use Rattle.std.specs.Prelude.{◌≡◌, ℕ, ◌+◌, ◌*◌, ◌<◌, ◌≤◌, ◌^◌, ◌↔◌, ◌/◌, ◌%◌, ◌==◌, if◌then◌else◌, false, true, IfNone};
ghost use Rattle.std.specs.Prelude.{IfOk, IfSome, IsSome, OnErr, OnOk, length, replicate, slice_set};
ghost use Rattle.std.specs.Int.{bit_at};
ghost use Rattle.rows.specs.Flags.{HasPut, IsFirstFrom, IsKth, NoneFrom, is_set, set_count};
ghost use Rattle.rows.specs.inner.Words.{copied_over, low};

use base::NoMemory;
use std::alloc::Global;
use std::marker::Model;

/// So many flags, 64 to a word, and how many of them are set.
#[derive(Drop)]
pub struct Bits {
    words: Vec<u64>,
    places: u32,
    ones: u32,
}

impl Model for Bits {
    ghost use Rattle.std.specs.Prelude.{Bool, List};
    ghost use Rattle.rows.specs.inner.Words.{flags_of, IsRowOfWords};

    ghost Value = { List Bool };

    ghost view = { λ b. flags_of b.words.items b.places };

    ghost invariant = { λ b. IsRowOfWords b.words.items b.places b.ones };
}

impl Bits {
    /// So many flags, none of them set.
    pub fn open(alloc: Global, places: u32) -> Result<Bits, NoMemory>
        ensures { IfOk result (λ bits. bits ≡ replicate places false) }
    {
        let words = vec![in alloc; 0u64; places as usize / 64 + 1]?;
        Ok(Bits {
            words,
            places,
            ones: 0,
        })
    }

    /// The same flags again.
    pub fn try_clone(&self, alloc: Global) -> Result<Bits, NoMemory>
        ensures { IfOk result (λ bits. bits ≡ self.now) }
    {
        let words = Vec::from_slice(alloc, self.words.as_slice())?;
        Ok(Bits {
            words,
            places: self.places,
            ones: self.ones,
        })
    }

    /// Takes on the flags of another row, which has as many.
    pub fn copy_from(&mut self, from: &Bits)
        requires { length from.now ≡ length self.old }
        ensures { self.new ≡ from.now }
    {
        copy_over(self.words.as_mut_slice(), from.words.as_slice());
        self.ones = from.ones;
    }

    /// How many flags there are.
    #[inline(always)]
    pub fn places(&self) -> u32
        ensures { result ≡ length self.now }
    {
        self.places
    }

    /// How many flags are set.
    #[inline(always)]
    pub fn ones(&self) -> u32
        ensures { result ≡ set_count self.now }
    {
        self.ones
    }

    /// Whether the flag at a place is set. Beyond the row none is.
    #[inline(always)]
    pub fn contains(&self, at: u32) -> bool
        ensures { result ≡ is_set self.now at }
    {
        match self.words.get(at as usize / 64) {
            Some(word) => (*word >> (at % 64)) & 1 == 1,
            None => false,
        }
    }

    /// Sets the flag at a place, or takes it back.
    #[inline(always)]
    pub fn set(&mut self, at: u32, value: bool)
        requires { at < length self.old }
        ensures { self.new ≡ slice_set self.old at value }
    {
        if self.contains(at) == value {
            return;
        }
        let index = at as usize / 64;
        let word = self.words[index];
        let bit = 1u64 << (at % 64);
        if value {
            self.words[index] = word | bit;
            self.ones += 1;
        } else {
            self.words[index] = word & !bit;
            self.ones -= 1;
        }
    }

    /// Makes flags of a row of at most 64 as told: at these places, by a bit for each.
    #[inline(always)]
    pub fn put(&mut self, places: u64, told: u64)
        requires few { length self.old ≤ 64 }
        requires inside { (k : ℕ) → bit_at places k ≡ 1 → k < length self.old }
        ensures { HasPut places told self.old self.new }
    {
        let Some(first) = self.words.first() else {
            return;
        };
        let word = (*first & !places) | (told & places);
        self.words[0] = word;
        self.ones = word.count_ones();
    }

    /// Takes all flags back.
    pub fn clear(&mut self)
        ensures { self.new ≡ replicate (length self.old) false }
    {
        wipe(&mut self.words, &mut self.ones);
    }

    /// So many flags from now on, none of them set. It takes memory only where there were fewer words of them.
    ///
    /// Where memory is refused nothing has changed.
    pub fn reopen(&mut self, alloc: Global, places: u32) -> Result<(), NoMemory>
        ensures ok { OnOk result (self.new ≡ replicate places false) }
        ensures err { OnErr result (self.new ≡ self.old) }
    {
        if self.words.len() < places as usize / 64 + 1 {
            *self = Bits::open(alloc, places)?;
            return Ok(());
        }
        wipe(&mut self.words, &mut self.ones);
        self.places = places;
        Ok(())
    }

    /// The first place from one on whose flag is set, if there is one.
    #[inline(always)]
    pub fn next_from(&self, at: u32) -> Option<u32>
        ensures some { IfSome result (λ found. IsFirstFrom self.now at found) }
        ensures none { IfNone result (NoneFrom self.now at) }
    {
        let mut from = at % 64;
        for i in at as usize / 64..self.words.len() {
            if let Some(bit) = lowest_from(self.words[i], from) {
                return Some(64 * i as u32 + bit);
            }
            from = 0;
        }
        None
    }

    /// The place of the k-th flag that is set, counted from 0, if there are so many.
    #[inline(always)]
    pub fn find(&self, k: u32) -> Option<u32>
        ensures place { IfSome result (λ at. IsKth self.now k at) }
        ensures found { IsSome result ↔ (k < set_count self.now) }
    {
        let mut left = k;
        for (i, word) in self.words.iter().enumerate() {
            let word = *word;
            let count = word.count_ones();
            if left < count {
                let bit = find_in(word, left);
                return Some(64 * i as u32 + bit);
            }
            left -= count;
        }
        None
    }
}

/// Takes all bits of these words back, and counts none.
fn wipe(words: &mut Vec<u64>, ones: &mut u32)
    ensures words { words.new.items ≡ replicate (length words.old.items) 0 }
    ensures ones { ones.new ≡ 0 }
{
    words.fill(0);
    *ones = 0;
}

/// Copies words over as many others as there are.
fn copy_over(words: &mut [u64], from: &[u64])
    ensures { words.new ≡ copied_over from.now words.old }
{
    let count = words.len().min(from.len());
    words[..count].copy_from_slice(&from[..count]);
}

/// The lowest bit from one on that is set, if there is one.
#[inline(always)]
fn lowest_from(word: u64, from: u32) -> Option<u32>
    requires { from < 64 }
    ensures behind { IfSome result (λ at. (from ≤ at)) }
    ensures within { IfSome result (λ at. at < 64) }
    ensures set { IfSome result (λ at. bit_at word at ≡ 1) }
    ensures first { IfSome result (λ at. (k : ℕ) → from ≤ k → k < at → bit_at word k ≡ 0) }
    ensures none { IfNone result ((k : ℕ) → from ≤ k → k < 64 → bit_at word k ≡ 0) }
{
    let rest = word & (u64::MAX << from);
    if rest == 0 {
        return None;
    }
    Some(rest.trailing_zeros())
}

/// From how many set bits before the one that is sought halving is quicker than taking them off.
const MANY: u32 = 16;

/// The k-th bit that is set, counted from 0: halves the bits that it may be among while many are before it, and takes the few
/// that are left off one by one.
#[inline(always)]
fn find_in(word: u64, k: u32) -> u32
    requires { k < low word 64 }
    ensures within { result < 64 }
    ensures set { bit_at word result ≡ 1 }
    ensures before { low word result ≡ k }
{
    let mut at = 0u32;
    let mut width = 64u32;
    let mut left = k;
    while left >= MANY && width > 1 {
        let half = width / 2;
        let count = ((word >> at) & ((1u64 << half) - 1)).count_ones();
        if count <= left {
            left -= count;
            at += half;
            width -= half;
        } else {
            width = half;
        }
    }
    let mut rest = word & (u64::MAX << at);
    for _ in 0..left {
        rest &= rest - 1;
    }
    rest.trailing_zeros()
}
