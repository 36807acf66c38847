//! Entries that are made as they are read.

ghost use Rattle.std.specs.Prelude.{◌≡◌, Some};
ghost use Rattle.std.specs.Option.{option_or, option_zip};

use crate::replaying::ReplayFault;
use base::{NoMemory, Shape};
use monitor::{Violation, Watch};
use record::{Entries, Entry, Told};
use std::alloc::Global;
use tables::Tables;
use world::World;

/// A replay on its way: a world and a watch that have seen the same steps, and the first violation.
#[derive(Drop)]
pub(crate) struct Run {
    world: World,
    watch: Watch,
    violation: Option<(u64, Violation)>,
}

impl Run {
    ghost use Rattle.std.specs.Prelude.{◌≡◌, ◌∷◌, ◌++◌, [], ℕ, List, IfOk, IfErr, OnOk, length};
    ghost use Rattle.replays.specs.Replaying.{FaultOf};
    ghost use Rattle.record.specs.View.{RecordingView, opened_of};
    ghost use Rattle.replays.specs.inner.Making.{HasMade, HasMadeFirst};

    /// A replay of no step yet.
    pub(crate) fn open(
        alloc: Global,
        shape: Shape,
        tables: Tables,
        opening: &[u64],
    ) -> Result<Run, NoMemory>
        ensures { IfOk result (λ run. (seats : ℕ) → HasMade (opened_of seats shape tables opening.now) run) }
    {
        let values = Vec::from_slice(alloc, opening)?;
        let Ok(world) = World::open(alloc, shape, tables, values) else {
            return Err(NoMemory);
        };
        let watch = Watch::open(alloc, opening)?;
        Ok(Run {
            world,
            watch,
            violation: None,
        })
    }

    /// Makes the step of the entry of this number, and sees whether it has the outcome that is told.
    #[inline(always)]
    pub(crate) fn make(&mut self, number: u64, entry: Entry) -> Result<(), ReplayFault>
        ensures ok { (r : RecordingView) (done : List Entry) → number ≡ length done → HasMadeFirst r done self.old →
            OnOk result (HasMadeFirst r (done ++ entry ∷ []) self.new) }
        ensures differs { (r : RecordingView) (done rest : List Entry) → number ≡ length done → HasMadeFirst r done self.old →
            r.entries ≡ done ++ entry ∷ rest → IfErr result (FaultOf r) }
    {
        let Ok(made) = self.world.make(entry.step) else {
            return Err(ReplayFault::NoMemory);
        };
        let seen = self.watch.see_made(&self.world, entry.step, &made);
        note(&mut self.violation, number, seen);
        let found = made.outcome;
        if found != entry.outcome {
            return Err(ReplayFault::Differs {
                entry: number,
                told: entry.outcome,
                found,
            });
        }
        Ok(())
    }

    /// The first violation, with the number of its step.
    pub(crate) fn first_violation(&self) -> Option<(u64, Violation)>
        ensures { result ≡ self.now.violation }
    {
        self.violation
    }
}

/// Notes what was seen at the step of this number, unless something was seen before.
#[inline(always)]
fn note(first: &mut Option<(u64, Violation)>, number: u64, seen: Option<Violation>)
    ensures { first.new ≡ option_or first.old (option_zip (Some number) seen) }
{
    if let Some(violation) = seen
        && first.is_none()
    {
        *first = Some((number, violation));
    }
}

/// How far the entries of a text have been made.
#[derive(Drop)]
pub(crate) enum Stage {
    /// The entries aren't due yet.
    Closed,
    /// All that were read had the outcomes that are told.
    Same(Run),
    /// There is no replay, whatever entries follow.
    Refused(ReplayFault),
}

impl Stage {
    ghost use Rattle.std.specs.Prelude.{ℕ};
    ghost use Rattle.record.specs.View.{opened_of};
    ghost use Rattle.replays.specs.inner.Making.{HasCome};

    /// No entry was read yet.
    fn open(alloc: Global, shape: Shape, tables: Tables, opening: &[u64]) -> Stage
        ensures { (seats : ℕ) → HasCome (opened_of seats shape tables opening.now) result }
    {
        match Run::open(alloc, shape, tables, opening) {
            Ok(run) => Stage::Same(run),
            Err(NoMemory) => Stage::Refused(ReplayFault::NoMemory),
        }
    }
}

/// Has no entry made any more. It is the call of what stands apart, with words of its own (docs/PERFORMANCE.md, "Seldom calls").
#[inline(always)]
fn stop(stage: &mut Stage, fault: ReplayFault)
    ensures { stage.new ≡ Stage.Refused fault }
{
    refuse(stage, fault);
}

/// The same. It stands apart, as what it writes is as large as a world.
#[cold]
#[inline(never)]
fn refuse(stage: &mut Stage, fault: ReplayFault)
    ensures { stage.new ≡ Stage.Refused fault }
{
    *stage = Stage::Refused(fault);
}

/// Entries of which each is made as it is read, and none is kept.
#[derive(Drop)]
pub(crate) struct MadeEntries {
    alloc: Global,
    count: u32,
    stage: Stage,
}

impl MadeEntries {
    ghost use Rattle.std.specs.Prelude.{◌≡◌, Some, None, IfOk, IfErr, length};
    ghost use Rattle.monitor.specs.Violations.{AnswersFirst};
    ghost use Rattle.replays.specs.Replaying.{FaultOf};
    ghost use Rattle.record.specs.View.{RecordingView, IsLegal, steps_of};
    ghost use Rattle.replays.specs.inner.Making.{has_made};

    /// No entries yet. It takes no memory.
    pub(crate) fn new(alloc: Global) -> MadeEntries
        ensures { has_made result None }
    {
        MadeEntries {
            alloc,
            count: 0,
            stage: Stage::Closed,
        }
    }

    /// How many entries there were.
    pub(crate) fn count(&self) -> u32
        ensures { (r : RecordingView) → has_made self.now (Some r) → result ≡ length r.entries }
    {
        self.count
    }

    /// The first violation, or why there is no replay.
    pub(crate) fn first_violation(self) -> Result<Option<(u64, Violation)>, ReplayFault>
        requires told { (r : RecordingView) × has_made self (Some r) }
        ensures legal { (r : RecordingView) → has_made self (Some r) → IfOk result (λ violation. IsLegal r) }
        ensures violation { (r : RecordingView) → has_made self (Some r) →
            IfOk result (λ violation. AnswersFirst r.shape r.tables r.opening (steps_of r) violation) }
        ensures differs { (r : RecordingView) → has_made self (Some r) → IfErr result (FaultOf r) }
    {
        match self.stage {
            Stage::Closed => unreachable!(),
            Stage::Same(run) => Ok(run.violation),
            Stage::Refused(fault) => Err(fault),
        }
    }
}

impl Entries for MadeEntries {
    ghost use Rattle.replays.specs.inner.Making.{has_made, needs_none};

    ghost tells = { has_made };

    ghost has_room = { needs_none };

    fn reserve(&mut self, _entries: usize) -> Result<(), NoMemory> {
        Ok(())
    }

    fn open(&mut self, shape: Shape, tables: Tables, opening: &[u64]) {
        self.stage = Stage::open(self.alloc, shape, tables, opening);
    }

    #[inline(always)]
    fn add(&mut self, told: Told) {
        let number = u64::from(self.count);
        self.count += 1;
        let Stage::Same(run) = &mut self.stage else {
            return;
        };
        if let Err(fault) = run.make(number, told.entry) {
            stop(&mut self.stage, fault);
        }
    }
}
