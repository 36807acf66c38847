ghost use Rattle.std.specs.Prelude.{◌≡◌, ◌<◌, length, slice_get};
ghost use Rattle.machine.specs.Machine.{is_blank};
ghost use Rattle.world.specs.Messages.{raised};
ghost use Rattle.world.specs.inner.Tests.{counted};
ghost use Rattle.world.specs.inner.Tests.{tested_in};

use crate::at_block::{ready_at, step_at};
use crate::counts::Counts;
use base::{NoMemory, Outcome, Shape, Step};
use blocks::{Block, Controllers, Tested};
use machine::Made;
use rows::{Sparse, TryClone};
use std::alloc::Global;
use std::marker::Model;
use tables::Tables;
use thiserror::Error;

/// Why a world wasn't opened. The faults are tested in this order.
#[derive(Clone, Copy, Debug, PartialEq, Eq, Error)]
pub enum OpenFault {
    /// There isn't one opening value for each block.
    #[error("a world opens with one value for each block")]
    OpeningLength,
    /// A growth was refused.
    #[error("no memory")]
    NoMemory,
}

impl From<NoMemory> for OpenFault {
    ghost use Rattle.std.specs.Prelude.{◌≡◌};
    ghost use Rattle.world.specs.declared.worlds.OpenFault.TheVariants as fault;

    ghost from_gives = { λ _ e. e ≡ fault.NoMemory };

    fn from(_refused: NoMemory) -> OpenFault {
        OpenFault::NoMemory
    }
}

/// A world of caches and blocks, with the tables of its controllers.
///
/// Only blocks at which a cell has acted or would have acted are kept: where memory was refused, where
/// [`ready`](World::ready) made room, and where a [`restart`](World::restart) or a [`reset`](World::reset) came behind, a block
/// that is as it opens may be kept too. The others take no memory.
pub struct World {
    alloc: Global,
    pub(crate) shape: Shape,
    pub(crate) controllers: Controllers,
    pub(crate) opening: Vec<u64>,
    pub(crate) blocks: Sparse<Block>,
    pub(crate) counts: Counts,
    pub(crate) met_blank: bool,
    pub(crate) tested: u64,
}

impl Drop for World {
    fn drop(self) {
        // One call drops all its parts.
        let World {
            alloc: _,
            shape: _,
            controllers: _,
            opening: _,
            blocks: _,
            counts: _,
            met_blank: _,
            tested: _,
        } = self;
    }
}

impl Model for World {
    ghost use Rattle.world.specs.View.{View, spaces_of, states};
    ghost use Rattle.world.specs.inner.Holding.{IsWorld};

    ghost Value = { View };

    ghost view = { λ w. record {
      shape = w.shape;
      tables = w.controllers;
      opening = w.opening.items;
      state = record { blocks = states w.shape.caches w.opening.items w.blocks.items; broken = w.met_blank };
      spaces = spaces_of w.blocks.items;
      tested = w.tested;
    } };

    ghost invariant = { λ w. IsWorld w.shape w.controllers w.opening.items w.blocks.items w.counts (record {
      blocks = states w.shape.caches w.opening.items w.blocks.items;
      broken = w.met_blank;
    }) };
}

impl World {
    ghost use Rattle.std.specs.Prelude.{◌≡◌, ◌≢◌, ◌↔◌, IfOk, IsOk, IsErrOf, OnErr, length};
    ghost use Rattle.world.specs.Again.{IsSameAgain, OpensWorld};
    ghost use Rattle.world.specs.OneStep.{ForeseesStep, IsAsBefore, NeedsNoMemory, StaysSafely, Steps, StepsSafely};
    ghost use Rattle.world.specs.declared.worlds.OpenFault.TheVariants as fault;

    /// A world that nothing has happened to: all lines and homes are in I, nothing is on the wires,
    /// and memory has the opening values, one for each block.
    ///
    /// It is refused `OpeningLength` exactly where there is another number of values than blocks.
    pub fn open(
        alloc: Global,
        shape: Shape,
        tables: Tables,
        opening: Vec<u64>,
    ) -> Result<World, OpenFault>
        ensures opened { IfOk result (OpensWorld shape tables opening.items) }
        ensures opening_length { IsErrOf result fault.OpeningLength ↔ (length opening.items ≢ shape.blocks) }
    {
        if opening.len() != shape.blocks() as usize {
            return Err(OpenFault::OpeningLength);
        }
        let Ok(counts) = Counts::open(alloc, shape.blocks()) else {
            return Err(OpenFault::NoMemory);
        };
        Ok(World {
            alloc,
            shape,
            controllers: Controllers::new(tables),
            opening,
            blocks: Sparse::open(alloc, shape.blocks()),
            counts,
            met_blank: false,
            tested: 0,
        })
    }

    /// Makes one step. Where memory is refused nothing has changed.
    ///
    /// Where its cell acts it marks the messages of its block anew, whether they would be held, and counts them as tested: it raises
    /// [`tested`](World::tested) by as many, which stays at `u64::MAX`: no fewer than it sends, and no more than the block has
    /// after it. It looks at few of them: those that were sent and those whose marks may have changed, and after a step at the home
    /// all that are on links too.
    ///
    /// A step that sends no message is never refused, but for an ask that acts at a line in I: so no step that is held,
    /// absent, idle, blank or broken, no hit at a line that isn't in I, and no delivery whose cell sends nothing.
    pub fn step(&mut self, step: Step) -> Result<Outcome, NoMemory>
        ensures ok { IfOk result (λ what. StepsSafely self.old step what self.new) }
        ensures err { OnErr result (StaysSafely self.old step self.new) }
        ensures succeeds { NeedsNoMemory self.old step → IsOk result }
    {
        // The shape is within the limits, as that of every world.
        let _ = &self.shape;
        let made = self.make(step)?;
        Ok(made.outcome)
    }

    /// Makes one step as [`step`](World::step) does, and answers what it came to: what a cell did, if one acted, too.
    // Whoever makes steps does so in a loop, and a call hands the step and what it came to through memory.
    #[inline(always)]
    pub fn make(&mut self, step: Step) -> Result<Made, NoMemory>
        ensures ok { IfOk result (λ made. Steps self.old step made self.new) }
        ensures err { OnErr result (IsAsBefore self.old step self.new) }
        ensures succeeds { NeedsNoMemory self.old step → IsOk result }
    {
        if self.met_blank {
            return Ok(Made::refused(Outcome::Broken));
        }
        let number = step.block().0;
        let Some(value) = opening_value(self.opening.as_slice(), number) else {
            return Ok(Made::refused(Outcome::Absent));
        };
        let visit = step_at(
            self.alloc,
            &mut self.blocks,
            self.shape.caches(),
            value,
            number,
            &self.controllers,
            step,
        )?;
        self.tested = note(&mut self.counts, self.tested, number, visit.tested);
        self.met_blank = breaks(visit.made.outcome);
        Ok(visit.made)
    }

    /// Makes the room that a step wants, changes nothing else, and answers the outcome that the step will have.
    ///
    /// The same step directly after it succeeds.
    pub fn ready(&mut self, step: Step) -> Result<Outcome, NoMemory>
        ensures ok { IfOk result (λ what. ForeseesStep self.old step what self.new) }
        ensures kept { IsAsBefore self.old step self.new }
        ensures succeeds { NeedsNoMemory self.old step → IsOk result }
    {
        if self.met_blank {
            return Ok(Outcome::Broken);
        }
        let number = step.block().0;
        let Some(value) = opening_value(self.opening.as_slice(), number) else {
            return Ok(Outcome::Absent);
        };
        ready_at(
            self.alloc,
            &mut self.blocks,
            self.shape.caches(),
            value,
            number,
            self.controllers.tables(),
            step,
        )
    }

    /// The same world again: its shape, its tables, its opening values, its state, and how many messages were tested. It keeps no
    /// block but those that this one keeps, and the same lines.
    pub fn try_clone(&self, alloc: Global) -> Result<World, NoMemory>
        ensures { IfOk result (IsSameAgain self.now) }
    {
        let opening = Vec::from_slice(alloc, self.opening.as_slice())?;
        let blocks = self.blocks.try_clone(alloc)?;
        let counts = self.counts.try_clone(alloc)?;
        Ok(World {
            alloc,
            shape: self.shape,
            controllers: Controllers::new(*self.controllers.tables()),
            opening,
            blocks,
            counts,
            met_blank: self.met_blank,
            tested: self.tested,
        })
    }
}

/// The opening value of a block, if the block is there.
pub(crate) fn opening_value(opening: &[u64], number: u32) -> Option<u64>
    ensures { result ≡ slice_get opening.now number }
{
    opening.get(number as usize).copied()
}

fn breaks(outcome: Outcome) -> bool
    ensures { result ≡ is_blank outcome }
{
    match outcome {
        Outcome::Blank => true,
        _ => false,
    }
}

/// Notes what a step's test found, if it made one, and answers how many messages were tested so far.
#[inline(always)]
fn note(counts: &mut Counts, tested: u64, number: u32, found: Option<Tested>) -> u64
    requires { number < length counts.old.requests }
    ensures counts { counts.new ≡ counted found number counts.old }
    ensures tested { result ≡ raised tested (tested_in found) }
{
    match found {
        None => tested,
        Some(found) => {
            counts.set(number, found.requests, found.heads, found.responses);
            tested.saturating_add(found.messages)
        }
    }
}
