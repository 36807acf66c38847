//! Ranked pairs as they are gathered, by the views that they begin and end with.

use crate::codes::{ranked_code, view_code};
use crate::following::Followed;
use crate::index::Index;
use crate::ranked::RankedPair;
use base::NoMemory;
use pairs::{PairSide, Shared};
use std::alloc::Global;
use std::collections::HashMap;

/// The numbers of the two views of a pair.
#[derive(Clone, Copy, Debug)]
pub(crate) struct Ends {
    pub(crate) first: usize,
    pub(crate) second: usize,
}

/// The ranked pairs that were gathered so far.
#[derive(Drop)]
pub(crate) struct Listing {
    pub(crate) list: Vec<RankedPair>,
    /// The steps of those that were looked at.
    steps: Vec<Vec<Followed>>,
    ends: Vec<Ends>,
    /// Of each view the places of the pairs that begin with it.
    starting: Vec<Vec<usize>>,
    /// The number of each view, by its code.
    numbers: HashMap<u128, usize>,
    index: Index,
}

impl Listing {
    pub(crate) fn empty(alloc: Global) -> Listing {
        Listing {
            list: Vec::new(alloc),
            steps: Vec::new(alloc),
            ends: Vec::new(alloc),
            starting: Vec::new(alloc),
            numbers: HashMap::new(alloc),
            index: Index::empty(alloc),
        }
    }

    /// The number of a view, which gets one if it has none.
    fn number(
        &mut self,
        alloc: Global,
        shared: &Shared,
        side: &PairSide,
    ) -> Result<usize, NoMemory> {
        let code = view_code(shared, side);
        if let Some(number) = self.numbers.get(&code) {
            return Ok(*number);
        }
        let number = self.starting.len();
        self.starting.push(Vec::new(alloc))?;
        self.numbers.insert(code, number)?;
        Ok(number)
    }

    fn add_one(&mut self, alloc: Global, ranked: &RankedPair) -> Result<(), NoMemory> {
        let code = ranked_code(ranked);
        if self.index.place(code).is_some() {
            return Ok(());
        }
        let place = self.list.len();
        let first = self.number(alloc, &ranked.pair.shared, &ranked.pair.first)?;
        let second = self.number(alloc, &ranked.pair.shared, &ranked.pair.second)?;
        self.index.add(code, place)?;
        self.list.push(*ranked)?;
        self.ends.push(Ends { first, second })?;
        if let Some(starting) = self.starting.get_mut(first) {
            starting.push(place)?;
        }
        Ok(())
    }

    /// Adds a ranked pair in both orders, if it isn't there.
    pub(crate) fn add(&mut self, alloc: Global, ranked: &RankedPair) -> Result<(), NoMemory> {
        self.add_one(alloc, ranked)?;
        self.add_one(alloc, &ranked.turned())
    }

    /// The numbers of the views of a pair.
    pub(crate) fn ends_of(&self, place: usize) -> Option<Ends> {
        self.ends.get(place).copied()
    }

    /// Where the pairs stand that begin with a view.
    pub(crate) fn starting(&self, view: usize) -> &[usize] {
        match self.starting.get(view) {
            Some(places) => places.as_slice(),
            None => &[],
        }
    }

    /// Where the pairs stand that begin with one view and end with another.
    pub(crate) fn between(
        &self,
        alloc: Global,
        first: usize,
        second: usize,
    ) -> Result<Vec<usize>, NoMemory> {
        let mut found = Vec::new(alloc);
        for place in self.starting(first) {
            if let Some(ends) = self.ends_of(*place) {
                if ends.second == second {
                    found.push(*place)?;
                }
            }
        }
        Ok(found)
    }

    /// Where the same pair stands in the other order.
    pub(crate) fn turned(&self, place: usize) -> Option<usize> {
        let ranked = self.list.get(place)?;
        self.index.place(ranked_code(&ranked.turned()))
    }

    /// Notes the steps of the next pair.
    pub(crate) fn note(&mut self, steps: Vec<Followed>) -> Result<(), NoMemory> {
        Ok(self.steps.push(steps)?)
    }

    /// How many steps a pair is noted with.
    pub(crate) fn step_count(&self, place: usize) -> usize {
        self.steps.get(place).map_or(0, |steps| steps.len())
    }

    /// One of them.
    pub(crate) fn step(&self, place: usize, number: usize) -> Option<Followed> {
        self.steps.get(place)?.get(number).copied()
    }

    /// The ranked pairs, those that begin alike together.
    pub(crate) fn grouped(&self, alloc: Global) -> Result<Vec<RankedPair>, NoMemory> {
        let mut all = Vec::with_capacity(alloc, self.list.len())?;
        for places in &self.starting {
            for place in places {
                if let Some(ranked) = self.list.get(*place) {
                    all.push(*ranked)?;
                }
            }
        }
        Ok(all)
    }
}
