//! Where the pairs of a list stand.

ghost use Rattle.std.specs.Prelude.{Contains, IsTrue};

use crate::codes::{pair_code, ranked_code};
use crate::ranked::RankedPair;
use pairs::Pair;
use std::alloc::{AllocError, Global};
use std::collections::HashMap;

/// Where each of a list's pairs stands, by its code. It may leave some out: whoever finds by it looks at what stands there.
#[derive(Drop)]
pub(crate) struct Index {
    places: HashMap<u128, usize>,
}

impl Index {
    /// Of no pairs.
    pub(crate) fn empty(alloc: Global) -> Index {
        Index {
            places: HashMap::new(alloc),
        }
    }

    /// Of a list of ranked pairs.
    pub(crate) fn of(alloc: Global, list: &[RankedPair]) -> Result<Index, AllocError> {
        let mut index = Index::empty(alloc);
        for (place, ranked) in list.iter().enumerate() {
            index.add(ranked_code(ranked), place)?;
        }
        Ok(index)
    }

    /// Notes where something with a code stands.
    pub(crate) fn add(&mut self, code: u128, place: usize) -> Result<(), AllocError> {
        self.places.insert(code, place)?;
        Ok(())
    }

    /// Where something with a code seems to stand.
    pub(crate) fn place(&self, code: u128) -> Option<usize> {
        self.places.get(&code).copied()
    }
}

/// Whether a ranked pair is found among these.
pub(crate) fn is_listed(list: &[RankedPair], index: &Index, wanted: &RankedPair) -> bool
    ensures { IsTrue result → Contains list.now wanted.now }
{
    match index.place(ranked_code(wanted)) {
        Some(place) => match list.get(place) {
            Some(ranked) => ranked.is_same(wanted),
            None => false,
        },
        None => false,
    }
}

/// Whether a pair is found among these.
pub(crate) fn is_found(pairs: &[Pair], index: &Index, wanted: &Pair) -> bool
    ensures { IsTrue result → Contains pairs.now wanted.now }
{
    match index.place(pair_code(wanted)) {
        Some(place) => match pairs.get(place) {
            Some(pair) => pair.is_same(wanted),
            None => false,
        },
        None => false,
    }
}
