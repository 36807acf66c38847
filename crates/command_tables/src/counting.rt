//! What the cores of a scenario may ask at most.

use base::{Ask, CoreAsk};
use scenario::Scenario;
use std::alloc::Global;
use std::collections::BTreeMap;

/// How many loads, stores and replacements a core asks.
#[derive(Clone, Copy)]
pub struct AskCounts {
    pub loads: u64,
    pub stores: u64,
    pub replacements: u64,
}

impl AskCounts {
    const NONE: AskCounts = AskCounts {
        loads: 0,
        stores: 0,
        replacements: 0,
    };

    fn of(ask: Ask, times: u64) -> AskCounts {
        match ask {
            Ask::Load => AskCounts {
                loads: times,
                stores: 0,
                replacements: 0,
            },
            Ask::Store(_) => AskCounts {
                loads: 0,
                stores: times,
                replacements: 0,
            },
            Ask::Replace => AskCounts {
                loads: 0,
                stores: 0,
                replacements: times,
            },
        }
    }

    /// These, and the others so many times.
    fn plus(self, other: AskCounts, times: u64) -> AskCounts {
        AskCounts {
            loads: self.loads.saturating_add(other.loads.saturating_mul(times)),
            stores: self
                .stores
                .saturating_add(other.stores.saturating_mul(times)),
            replacements: self
                .replacements
                .saturating_add(other.replacements.saturating_mul(times)),
        }
    }

    /// The greater count of each kind.
    fn or(self, other: AskCounts) -> AskCounts {
        AskCounts {
            loads: self.loads.max(other.loads),
            stores: self.stores.max(other.stores),
            replacements: self.replacements.max(other.replacements),
        }
    }
}

/// What each core asks at most, and how many caches and blocks that needs. Where a growth is refused that is noted, and
/// nothing is counted from then on.
#[derive(Drop)]
pub struct Census {
    cores: BTreeMap<u32, AskCounts>,
    caches: u32,
    blocks: u32,
    is_refused: bool,
}

impl Census {
    fn new(alloc: Global) -> Census {
        Census {
            cores: BTreeMap::new(alloc),
            caches: 0,
            blocks: 0,
            is_refused: false,
        }
    }

    /// What the cores of a scenario ask.
    pub fn of(alloc: Global, scenario: &Scenario<Global>) -> Census {
        let mut census = Census::new(alloc);
        count(alloc, scenario, 1, &mut census);
        census
    }

    /// The counts of each core that is named, in order of the cores.
    pub fn cores(&self) -> &BTreeMap<u32, AskCounts> {
        &self.cores
    }

    /// One more than the greatest number of a core, and of a block.
    pub fn extent(&self) -> (u32, u32) {
        (self.caches, self.blocks)
    }

    /// Whether a growth was refused, so that nothing that is told is right.
    pub fn is_refused(&self) -> bool {
        self.is_refused
    }

    fn counts(&self, core: u32) -> AskCounts {
        self.cores.get(&core).copied().unwrap_or(AskCounts::NONE)
    }

    fn set(&mut self, core: u32, counts: AskCounts) {
        if self.is_refused || self.cores.insert(core, counts).is_err() {
            self.is_refused = true;
        }
    }

    fn add(&mut self, ask: CoreAsk, times: u64) {
        let core = ask.core.0;
        self.caches = self.caches.max(core.saturating_add(1));
        self.blocks = self.blocks.max(ask.block.0.saturating_add(1));
        self.set(
            core,
            self.counts(core).plus(AskCounts::of(ask.ask, times), 1),
        );
    }

    /// Adds what the other counts so many times.
    fn add_all(&mut self, other: &Census, times: u64) {
        for (core, counts) in other.cores.iter() {
            self.set(*core, self.counts(*core).plus(*counts, times));
        }
        self.widen(other);
    }

    /// Raises each count to that of the other.
    fn raise_to(&mut self, other: &Census) {
        for (core, counts) in other.cores.iter() {
            self.set(*core, self.counts(*core).or(*counts));
        }
        self.widen(other);
    }

    fn widen(&mut self, other: &Census) {
        self.caches = self.caches.max(other.caches);
        self.blocks = self.blocks.max(other.blocks);
        self.is_refused = self.is_refused || other.is_refused;
    }
}

/// Adds what a scenario asks at most, so many times.
#[cycle(counting)]
fn count(alloc: Global, scenario: &Scenario<Global>, times: u64, census: &mut Census) {
    match scenario {
        Scenario::One(ask) => census.add(*ask, times),
        Scenario::Seq(children) | Scenario::Both(children) => {
            count_each(alloc, children.as_slice(), times, census);
        }
        Scenario::Any(children) => count_greatest(alloc, children.as_slice(), times, census),
        Scenario::Times(turns, child) => {
            count(
                alloc,
                child,
                times.saturating_mul(u64::from(*turns)),
                census,
            );
        }
    }
}

#[cycle(counting)]
fn count_each(alloc: Global, children: &[Scenario<Global>], times: u64, census: &mut Census) {
    for child in children {
        count(alloc, child, times, census);
    }
}

/// Adds the greatest of each count that one of these has, so many times.
#[cycle(counting)]
fn count_greatest(alloc: Global, children: &[Scenario<Global>], times: u64, census: &mut Census) {
    let mut greatest = Census::new(alloc);
    for child in children {
        let mut own = Census::new(alloc);
        count(alloc, child, 1, &mut own);
        greatest.raise_to(&own);
    }
    census.add_all(&greatest, times);
}

/// How many asks the longest word of a scenario has.
#[cycle(measuring)]
pub fn longest(scenario: &Scenario<Global>) -> u64 {
    match scenario {
        Scenario::One(_) => 1,
        Scenario::Seq(children) | Scenario::Both(children) => total(children.as_slice()),
        Scenario::Any(children) => greatest(children.as_slice()),
        Scenario::Times(turns, child) => u64::from(*turns).saturating_mul(longest(child)),
    }
}

#[cycle(measuring)]
fn total(children: &[Scenario<Global>]) -> u64 {
    let mut length = 0u64;
    for child in children {
        length = length.saturating_add(longest(child));
    }
    length
}

#[cycle(measuring)]
fn greatest(children: &[Scenario<Global>]) -> u64 {
    let mut length = 0u64;
    for child in children {
        length = length.max(longest(child));
    }
    length
}
