//! A trial on its way, step by step.

use crate::going::trials_go_on;
use crate::notes::Notes;
use crate::setup::{Setup, open_world};
use crate::verdict::Verdict;
use base::NoMemory;
use bumpalo::Bump;
use moment::Moment;
use monitor::{Violation, violation_after};
use record::Entry;
use scenario::Scenario;
use schedule::Dice;
use std::alloc::{Allocator, Global};

/// A trial on its way: its moment, with what is made for the scenario in an arena, and notes of what it has done.
pub(crate) struct Course<'s, 'b, A: Allocator, N: Notes> {
    moment: Moment<'s, A, &'b Bump>,
    dice: Dice,
    notes: N,
}

impl<'s, 'b, A: Allocator, N: Notes> Drop for Course<'s, 'b, A, N> {
    fn drop(self) {
        // One call drops all its parts.
        let Course {
            moment: _,
            dice: _,
            notes: _,
        } = self;
    }
}

impl<'s, 'b, A: Allocator, N: Notes> Course<'s, 'b, A, N> {
    ghost use Rattle.std.specs.Prelude.{◌≡◌, ◌<◌, IfOk, IfSome, OnOk, length};
    ghost use Rattle.moment.specs.Seen.{IsLike, choices_in};
    ghost use Rattle.record.specs.View.{RecordingView};
    ghost use Rattle.scenario.specs.Alike.{Alike};
    ghost use Rattle.scenario.specs.Tree.{Tree, plain};
    ghost use Rattle.trials.specs.inner.Going.{Begins, Chooses, Ends, IsStart, IsUnder, IsVerdictAtRest, MakesNoted, blank, parts_of};

    /// The start of the trial of this number, with notes of no entry.
    pub(crate) fn open(
        alloc: Global,
        scenario: &'s Scenario<A>,
        setup: &Setup,
        number: u32,
        notes: N,
    ) -> Result<Course<'s, 'b, A, N>, NoMemory>
        requires { N.tells notes (blank setup.now) }
        ensures { IfOk result (λ course. Begins N.tells setup.now (plain scenario.entry.now) number course) }
    {
        let world = open_world(alloc, setup)?;
        let moment = Moment::open(alloc, scenario, world)?;
        Ok(Course {
            moment,
            dice: Dice::new(setup.seed(), u64::from(number)),
            notes,
        })
    }

    /// The start of the trial of this number, with notes of no entry, whatever trial under this setup it was before. Its
    /// memory is used again, so that the start costs what trials have touched, however many blocks there are.
    pub(crate) fn restart(&mut self, setup: &Setup, number: u32, notes: N) -> Result<(), NoMemory>
        requires under { IsUnder setup.now self.old.moment }
        requires notes { N.tells notes (blank setup.now) }
        ensures like { IsLike self.old.moment self.new.moment }
        ensures ok { (tree : Tree) → Alike self.old.moment.scenario tree → OnOk result (Begins N.tells setup.now tree number self.new) }
    {
        self.notes = notes;
        self.dice = Dice::new(setup.seed(), u64::from(number));
        self.moment.restart()
    }

    /// Makes steps until the trial ends, at most so many.
    pub(crate) fn run(&mut self, arena: &'b Bump, limit: u32) -> Result<Verdict, NoMemory>
        requires { IsStart N.tells limit self.old }
        ensures ends { IfOk result (λ verdict. Ends N.tells self.old limit self.new verdict) }
        ensures alike { IsLike self.old.moment self.new.moment }
    {
        trials_go_on();
        for made in 0..limit {
            let Some(k) = self.choose() else {
                return Ok(self.verdict_at_rest());
            };
            if let Some(violation) = self.make(arena, k)? {
                return Ok(Verdict::Broke(violation));
            }
        }
        match self.choose() {
            Some(_) => Ok(Verdict::Cut),
            None => Ok(self.verdict_at_rest()),
        }
    }

    /// Draws the number of one of the choices, if there is any.
    #[inline(always)]
    fn choose(&mut self) -> Option<u64>
        ensures chooses { (r : RecordingView) → Chooses (parts_of r self.old) result (parts_of r self.new) }
        ensures there { IfSome result (λ k. k < length (choices_in self.new.moment)) }
        ensures moment { self.new.moment ≡ self.old.moment }
        ensures notes { self.new.notes ≡ self.old.notes }
    {
        let count = self.moment.count();
        if count == 0 {
            return None;
        }
        let number = self.dice.pick(count);
        Some(u64::from(number))
    }

    /// Makes the k-th choice, and answers the violation that its step shows.
    #[inline(always)]
    fn make(&mut self, arena: &'b Bump, k: u64) -> Result<Option<Violation>, NoMemory>
        requires there { k < length (choices_in self.old.moment) }
        requires room { (r : RecordingView) × N.tells self.old.notes r × (length r.entries < 1000000) }
        ensures makes { IfOk result (λ violation. MakesNoted N.tells self.old k self.new violation) }
        ensures alike { IsLike self.old.moment self.new.moment }
    {
        let (step, made) = self.moment.make(arena, k)?;
        let outcome = made.outcome;
        self.notes.add(Entry { step, outcome })?;
        Ok(violation_after(self.moment.world(), step, &made))
    }

    /// The verdict where there is no choice.
    fn verdict_at_rest(&self) -> Verdict
        ensures { IsVerdictAtRest self.now.moment result }
    {
        if self.moment.is_at_rest() {
            Verdict::Quiet
        } else {
            Verdict::Stuck
        }
    }

    /// How many steps the trial has made.
    pub(crate) fn steps(&self) -> u32
        ensures { (r : RecordingView) → N.tells self.now.notes r → result ≡ length r.entries }
    {
        self.notes.count()
    }

    /// The notes of what the trial has done.
    pub(crate) fn into_notes(self) -> N
        ensures { result ≡ self.entry.notes }
    {
        let Course {
            moment: _,
            dice: _,
            notes,
        } = self;
        notes
    }
}
