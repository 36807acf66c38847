ghost use Rattle.std.specs.Prelude.{◌≡◌, ◌≢◌, ℕ, ◌<◌, ◌≤◌, ◌+◌, ◌%◌, ◌++◌, ◌∷◌, [], None, Some, IsOk, IsSome, IfErr, IfSome};
ghost use Rattle.std.specs.Prelude.{OnErr, OnOk, true};
ghost use Rattle.std.specs.Prelude.{IfNone, length, map, nat_eq, replicate, slice_get, slice_index, slice_set};
ghost use Rattle.std.specs.Borrow.{sem};
ghost use Rattle.std.specs.Option.{option_copied, option_copied_mut, option_map};
ghost use Rattle.rows.specs.Lends.{lends_item};
ghost use Rattle.indexmap.specs.IndexMap.{IsEmpty, get, index_map_len, keys, values};
ghost use Rattle.rows.specs.inner.Items.{AreHinted, seen_entries};
ghost use Rattle.rows.specs.Row.{AreTouched, MakesPlaces, Puts, item};

use crate::try_clone::TryClone;
use base::NoMemory;
use indexmap::IndexMap;
use std::alloc::Global;
use std::marker::Model;

/// So many places, each of which may have an item. Only those that have one take memory.
#[derive(Drop)]
pub struct Sparse<T> {
    places: u32,
    // In order of first use.
    held: IndexMap<u32, T>,
    // For the places with the same last six bits where one of them was found last. Another may stand there by now.
    hints: [u16; 64],
    // Whether each place that has an item is known to stand where its hint says.
    exact: bool,
}

impl<T> Model for Sparse<T> {
    ghost use Rattle.indexmap.specs.IndexMap.{keys, spare};
    ghost use Rattle.rows.specs.Row.{Row};
    ghost use Rattle.rows.specs.inner.Items.{AreItemsKept, items_of};

    ghost Value = { Row T };

    ghost view = { λ s. record { items = items_of s.held.entries s.places; keys = keys s.held; spare = spare s.held } };

    ghost invariant = { λ s. AreItemsKept s.held.entries s.places s.hints s.exact };
}

impl<T> Sparse<T> {
    /// So many places with no item. It takes no memory.
    pub fn open(alloc: Global, places: u32) -> Sparse<T>
        ensures items { result.items ≡ replicate places None }
        ensures keys { result.keys ≡ [] }
    {
        Sparse {
            places,
            held: IndexMap::new(alloc),
            hints: [0; 64],
            exact: true,
        }
    }

    /// How many places there are.
    pub fn places(&self) -> u32
        ensures { result ≡ length self.now.items }
    {
        self.places
    }

    /// How many places have an item.
    pub fn held(&self) -> usize
        ensures count { result ≡ length self.now.keys }
        ensures touched { AreTouched self.now }
    {
        self.held.len()
    }

    /// The item at a place, if it has one. Beyond the row there is none.
    #[inline(always)]
    pub fn get(&self, at: u32) -> Option<&T>
        ensures { option_copied result ≡ item self.now at }
    {
        if let Some(item) = hinted(&self.held, &self.hints, at) {
            return Some(item);
        }
        if self.exact {
            return None;
        }
        self.seek(at)
    }

    /// The same, where no hint helps. It stands apart, as most look-ups need it not.
    #[cold]
    #[inline(never)]
    fn seek(&self, at: u32) -> Option<&T>
        ensures { option_copied result ≡ item self.now at }
    {
        self.held.get(&at)
    }

    /// The item at a place, to write, if it has one.
    #[inline(always)]
    pub fn get_mut(&mut self, at: u32) -> Option<&mut T>
        ensures* writes_back { sem 𝓛 (lends_item T.row self.entry at result) }
        ensures item { option_copied_mut result ≡ item self.old at }
    {
        match index_of(&self.held, &mut self.hints, self.exact, at) {
            Some(index) => self.held.get_index_mut(index),
            None => None,
        }
    }

    /// Puts an item at a place, over the one that it has, or gives it back where there is no memory for it.
    pub fn put(&mut self, at: u32, value: T) -> Result<(), T>
    where
        T: Drop,
        requires { at < length self.old.items }
        ensures { Puts at value result self.old self.new }
    {
        if let Some(item) = self.get_mut(at) {
            *item = value;
            return Ok(());
        }
        self.add(at, value)
    }

    /// Gives a place its first item.
    fn add(&mut self, at: u32, value: T) -> Result<(), T>
    where
        T: Drop,
        requires inside { at < length self.old.items }
        requires free { item self.old at ≡ None }
        ensures ok { OnOk result (self.new.items ≡ slice_set self.old.items at (Some value)) }
        ensures order { OnOk result (self.new.keys ≡ self.old.keys ++ at ∷ []) }
        ensures err { OnErr result (self.new.items ≡ self.old.items) }
        ensures err_order { OnErr result (self.new.keys ≡ self.old.keys) }
        ensures back { IfErr result (λ back. back ≡ value) }
        ensures succeeds { 0 < self.old.spare → IsOk result }
        ensures room { self.old.spare ≤ self.new.spare + 1 }
    {
        let index = self.held.len();
        let exact = stays_exact(&self.held, &self.hints, self.exact, at);
        match self.held.insert(at, value) {
            Ok(_) => {
                remember(&mut self.hints, at, index);
                self.exact = exact;
                Ok(())
            }
            Err(failed) => Err(failed.value.1),
        }
    }

    /// Room for so many more places to get an item. Where it is refused no item has changed.
    pub fn reserve(&mut self, more: usize) -> Result<(), NoMemory>
        ensures { MakesPlaces more result self.old self.new }
    {
        self.held.reserve(more)?;
        Ok(())
    }

    /// A place that has an item, and the item: the place that got its first item after so many others had.
    pub fn nth(&self, i: usize) -> Option<(u32, &T)>
        ensures place { option_map (λ p. p.0) result ≡ slice_get self.now.keys i }
        ensures item { IfSome result (λ p. item self.now p.0 ≡ Some p.1.now) }
    {
        let (at, item) = self.held.get_index(i)?;
        Some((*at, item))
    }

    /// Takes the items out of all places, and keeps the memory for as many.
    pub fn clear(&mut self)
    where
        T: Drop,
        ensures items { self.new.items ≡ replicate (length self.old.items) None }
        ensures keys { self.new.keys ≡ [] }
        ensures room { length self.old.keys + self.old.spare ≤ self.new.spare }
    {
        self.held.clear();
        self.exact = true;
    }
}

/// Where a place may stand in the map.
#[inline(always)]
fn hint_of(hints: &[u16; 64], at: u32) -> usize
    ensures { result ≡ slice_index hints.now (at % 64) }
{
    usize::from(hints[(at % 64) as usize])
}

/// Keeps where a place stands in the map.
#[inline(always)]
fn remember(hints: &mut [u16; 64], at: u32, index: usize)
    ensures { hints.new ≡ slice_set hints.old (at % 64) (index % 65536) }
{
    hints[(at % 64) as usize] = (index % 65536) as u16;
}

/// The item of a place, where it stands as its hint says.
#[inline(always)]
fn hinted<'a, T>(held: &'a IndexMap<u32, T>, hints: &[u16; 64], at: u32) -> Option<&'a T>
    ensures some { IfSome result (λ item. get nat_eq held.now at ≡ Some item.now) }
    ensures none { IfNone result (AreHinted (keys held.now) hints.now → get nat_eq held.now at ≡ None) }
{
    match held.get_index(hint_of(hints, at)) {
        Some((held, item)) => { if *held == at { Some(item) } else { None } }
        None => None,
    }
}

/// Where a place stands in the map, if it stands as its hint says.
#[inline(always)]
fn hinted_index<T>(held: &IndexMap<u32, T>, hints: &[u16; 64], at: u32) -> Option<usize>
    ensures key { IfSome result (λ index. slice_get (keys held.now) index ≡ Some at) }
    ensures value { IfSome result (λ index. slice_get (values held.now) index ≡ get nat_eq held.now at) }
    ensures none { IfNone result (AreHinted (keys held.now) hints.now → get nat_eq held.now at ≡ None) }
{
    let hint = hint_of(hints, at);
    match held.get_index(hint) {
        Some((held, _)) => { if *held == at { Some(hint) } else { None } }
        None => None,
    }
}

/// Whether no place that has an item has the same hint as another, where each stands as its hint says.
fn has_own_hint<T>(held: &IndexMap<u32, T>, hints: &[u16; 64], at: u32) -> bool
    ensures { result ≡ true → AreHinted (keys held.now) hints.now → (i other : ℕ) → slice_get (keys held.now) i ≡ Some other →
        other % 64 ≢ at % 64 }
{
    match held.get_index(hint_of(hints, at)) {
        Some((other, _)) => *other % 64 != at % 64,
        None => true,
    }
}

/// Whether each place is known to stand where its hint says once this one stands behind all others.
fn stays_exact<T>(held: &IndexMap<u32, T>, hints: &[u16; 64], exact: bool, at: u32) -> bool
    requires { exact ≡ true → AreHinted (keys held.now) hints.now }
    ensures { result ≡ true → AreHinted (keys held.now ++ at ∷ []) (slice_set hints.now (at % 64) (index_map_len held.now % 65536)) }
{
    if !exact || held.len() >= 65536 {
        return false;
    }
    has_own_hint(held, hints, at)
}

/// Where a place stands in the map, if it does.
#[inline(always)]
fn index_of<T>(
    held: &IndexMap<u32, T>,
    hints: &mut [u16; 64],
    exact: bool,
    at: u32,
) -> Option<usize>
    requires { exact ≡ true → AreHinted (keys held.now) hints.old }
    ensures key { IfSome result (λ index. slice_get (keys held.now) index ≡ Some at) }
    ensures value { IfSome result (λ index. slice_get (values held.now) index ≡ get nat_eq held.now at) }
    ensures none { IfNone result (get nat_eq held.now at ≡ None) }
    ensures hinted { exact ≡ true → AreHinted (keys held.now) hints.new }
{
    if let Some(index) = hinted_index(held, hints, at) {
        return Some(index);
    }
    if exact {
        return None;
    }
    seek_index(held, hints, at)
}

/// The same, where no hint helps. It stands apart, as most look-ups need it not.
#[cold]
#[inline(never)]
fn seek_index<T>(held: &IndexMap<u32, T>, hints: &mut [u16; 64], at: u32) -> Option<usize>
    ensures key { IfSome result (λ index. slice_get (keys held.now) index ≡ Some at) }
    ensures value { IfSome result (λ index. slice_get (values held.now) index ≡ get nat_eq held.now at) }
    ensures none { IfNone result (get nat_eq held.now at ≡ None) }
{
    let found = held.get_index_of(&at);
    if let Some(index) = found {
        remember(hints, at, index);
    }
    found
}

impl<T: TryClone + Drop> TryClone for Sparse<T> {
    ghost use Rattle.std.specs.Option.{option_map};
    ghost use Rattle.std.specs.Prelude.{map, ℕ, List, Option};

    ghost Seen = { record { items : List (Option T.Seen); keys : List ℕ } };

    ghost seen = { λ row. record { items = map (option_map T.seen) row.items; keys = row.keys } };

    /// The same items, in the same order of first use.
    fn try_clone(&self, alloc: Global) -> Result<Sparse<T>, NoMemory> {
        let mut held = IndexMap::with_capacity(alloc, self.held.len())?;
        copy_all(alloc, &self.held, &mut held)?;
        Ok(Sparse {
            places: self.places,
            held,
            hints: self.hints,
            exact: self.exact,
        })
    }
}

/// Puts a copy of each item into an empty map, in the same order.
fn copy_all<T: TryClone + Drop>(
    alloc: Global,
    from: &IndexMap<u32, T>,
    to: &mut IndexMap<u32, T>,
) -> Result<(), NoMemory>
    requires { IsEmpty to.old }
    ensures { OnOk result (seen_entries T.seen to.new.entries ≡ seen_entries T.seen from.now.entries) }
{
    for (at, item) in from.iter() {
        to.insert(*at, item.try_clone(alloc)?)?;
    }
    Ok(())
}
