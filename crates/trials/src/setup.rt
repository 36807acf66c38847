ghost use Rattle.std.specs.Prelude.{◌≡◌, IfOk};
ghost use Rattle.record.specs.View.{opened_recording};
ghost use Rattle.trials.specs.Making.{StartsUnder};
ghost use Rattle.trials.specs.Terms.{AreLawful};

use base::{NoMemory, Shape};
use record::Recording;
use std::alloc::Global;
use std::marker::Model;
use tables::Tables;
use thiserror::Error;
use world::World;

/// The most steps that a trial may make.
pub const MOST_STEPS: u32 = 1_000_000;

/// Why trials can't be made so. The faults are tested in this order.
#[derive(Clone, Copy, Debug, PartialEq, Eq, Error)]
pub enum SetupFault {
    /// There isn't one opening value for each block.
    #[error("a world opens with one value for each block")]
    OpeningLength,
    /// More than 1,000,000 steps are asked for.
    #[error("a trial has at most {MOST_STEPS} steps")]
    OverLimit,
}

/// What trials are made under: a world's shape, tables and opening values, the seed of the dice, and how many steps a
/// trial may make.
#[derive(Drop)]
pub struct Setup {
    shape: Shape,
    tables: Tables,
    opening: Vec<u64>,
    seed: u64,
    limit: u32,
}

impl Model for Setup {
    ghost use Rattle.trials.specs.Terms.{Terms, AreLawful};

    ghost Value = { Terms };

    ghost view = { λ s. record { shape = s.shape; tables = s.tables; opening = s.opening.items; seed = s.seed; limit = s.limit } };

    ghost invariant = { λ s. AreLawful (record { shape = s.shape; tables = s.tables; opening = s.opening.items; seed = s.seed; limit = s.limit }) };
}

impl Setup {
    ghost use Rattle.std.specs.Prelude.{◌≡◌, ◌≢◌, ◌<◌, ◌↔◌, IfOk, IsErrOf, length};
    ghost use Rattle.trials.specs.Terms.{AreLawful};

    /// It is refused `OpeningLength` exactly where there is another number of values than blocks, and else `OverLimit`
    /// exactly where the limit is over 1,000,000.
    pub fn new(
        shape: Shape,
        tables: Tables,
        opening: Vec<u64>,
        seed: u64,
        limit: u32,
    ) -> Result<Setup, SetupFault>
        ensures ok { IfOk result (λ setup. setup ≡ record { shape = shape; tables = tables; opening = opening.items; seed = seed; limit = limit }) }
        ensures opening_length { IsErrOf result SetupFault.OpeningLength ↔ (length opening.items ≢ shape.blocks) }
        ensures over_limit { IsErrOf result SetupFault.OverLimit ↔ ((length opening.items ≡ shape.blocks) × (1000000 < limit)) }
    {
        if opening.len() != shape.blocks() as usize {
            return Err(SetupFault::OpeningLength);
        }
        if limit > MOST_STEPS {
            return Err(SetupFault::OverLimit);
        }
        Ok(Setup {
            shape,
            tables,
            opening,
            seed,
            limit,
        })
    }

    /// How many caches and blocks the world has.
    pub fn shape(&self) -> Shape
        ensures { result ≡ self.now.shape }
    {
        self.shape
    }

    /// The tables of the world's controllers.
    pub fn tables(&self) -> Tables
        ensures { result ≡ self.now.tables }
    {
        self.tables
    }

    /// The value that each block opens with.
    pub fn opening(&self) -> &[u64]
        ensures value { result.now ≡ self.now.opening }
        ensures each { length self.now.opening ≡ self.now.shape.blocks }
    {
        self.opening.as_slice()
    }

    /// The seed of the dice.
    pub fn seed(&self) -> u64
        ensures { result ≡ self.now.seed }
    {
        self.seed
    }

    /// How many steps a trial may make.
    pub fn limit(&self) -> u32
        ensures value { result ≡ self.now.limit }
        ensures lawful { AreLawful self.now }
    {
        self.limit
    }
}

/// A setup has a shape within the limits, one opening value for each block, and a limit of at most 1,000,000 steps.
#[inline(always)]
pub fn setups_are_lawful(setup: &Setup)
    ensures { AreLawful setup.now }
{
    let _ = &setup.opening;
}

/// A world under `setup` that has made no step.
///
/// It isn't a method, since a type's users load what its methods speak of ("What is loaded", CONTRIBUTING.md).
pub fn open_world(alloc: Global, setup: &Setup) -> Result<World, NoMemory>
    ensures { IfOk result (StartsUnder setup.now) }
{
    let opening = Vec::from_slice(alloc, setup.opening())?;
    match World::open(alloc, setup.shape(), setup.tables(), opening) {
        Ok(world) => Ok(world),
        Err(_) => Err(NoMemory),
    }
}

/// A recording under `setup`, without entries.
pub(crate) fn open_recording(alloc: Global, setup: &Setup) -> Result<Recording, NoMemory>
    ensures { IfOk result (λ recording. recording ≡ opened_recording setup.now.shape setup.now.tables setup.now.opening) }
{
    let opening = Vec::from_slice(alloc, setup.opening())?;
    match Recording::open(alloc, setup.shape(), setup.tables(), opening) {
        Ok(recording) => Ok(recording),
        Err(_) => Err(NoMemory),
    }
}
