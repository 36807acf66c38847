//! Trials one after another, in the same memory.

ghost use Rattle.std.specs.Prelude.{◌≡◌, IfOk, MatchOption, OnErr, OnOk};
ghost use Rattle.std.specs.Option.{ForSome};
ghost use Rattle.scenario.specs.Tree.{plain};
ghost use Rattle.moment.specs.Seen.{IsLike};
ghost use Rattle.trials.specs.inner.Going.{Begins, IsOf};
ghost use Rattle.trials.specs.inner.Notes.{counts};
ghost use Rattle.trials.specs.Trial.{IsResult};

use crate::course::Course;
use crate::laws::trials_under_tables_that_keep_going;
use crate::notes::Tally;
use crate::setup::{Setup, setups_are_lawful};
use crate::verdict::TrialResult;
use base::NoMemory;
use bumpalo::Bump;
use scenario::Scenario;
use std::alloc::{Allocator, Global};

/// Trials of one scenario under one setup, each of which is made in the memory that the one before it has left.
pub struct Series<'s, 'b, A: Allocator> {
    alloc: Global,
    arena: &'b Bump,
    scenario: &'s Scenario<A>,
    setup: &'s Setup,
    // The last trial, if there was one.
    course: Option<Course<'s, 'b, A, Tally>>,
    ghost of: { ForSome course (λ it. IsOf setup.now (plain scenario.now) it.moment) },
}

impl<'s, 'b, A: Allocator> Drop for Series<'s, 'b, A> {
    fn drop(self) {
        // One call drops all its parts.
        let Series {
            alloc: _,
            arena: _,
            scenario: _,
            setup: _,
            course: _,
        } = self;
    }
}

impl<'s, 'b, A: Allocator> Series<'s, 'b, A> {
    ghost use Rattle.std.specs.Prelude.{◌≡◌, IfOk};
    ghost use Rattle.machine.specs.Going.{AreNeverStuck};
    ghost use Rattle.scenario.specs.Tree.{plain};
    ghost use Rattle.trials.specs.Series.{planned};
    ghost use Rattle.trials.specs.Trial.{IsResult, IsSound};

    /// The trials of a scenario under a setup. How far a trial is in the scenario is kept in memory of the arena.
    pub fn new(
        alloc: Global,
        arena: &'b Bump,
        scenario: &'s Scenario<A>,
        setup: &'s Setup,
    ) -> Series<'s, 'b, A>
        ensures { planned result ≡ record { terms = setup.entry.now; tree = plain scenario.entry.now } }
    {
        Series {
            alloc,
            arena,
            scenario,
            setup,
            course: None,
        }
    }

    /// The result of the trial of this number, which is that of [`trial`](crate::trial). Its steps are counted, and not kept.
    pub fn result(&mut self, number: u32) -> Result<TrialResult, NoMemory>
        ensures result { IfOk result (λ made. IsResult (planned self.old).terms (planned self.old).tree number made) }
        ensures sound { AreNeverStuck (planned self.old).terms.tables → IfOk result (λ made. IsSound made.verdict) }
        ensures plan { planned self.new ≡ planned self.old }
    {
        trials_under_tables_that_keep_going();
        setups_are_lawful(self.setup);
        if let Some(course) = &mut self.course {
            course.restart(self.setup, number, Tally::new())?;
            return finish(course, self.arena, self.scenario, self.setup, number);
        }
        first(
            &mut self.course,
            self.alloc,
            self.arena,
            self.scenario,
            self.setup,
            number,
        )
    }
}

/// The result of a trial for which everything is opened.
fn first<'s, 'b, A: Allocator>(
    course: &mut Option<Course<'s, 'b, A, Tally>>,
    alloc: Global,
    arena: &'b Bump,
    scenario: &'s Scenario<A>,
    setup: &Setup,
    number: u32,
) -> Result<TrialResult, NoMemory>
    requires { ForSome course.old (λ it. IsOf setup.now (plain scenario.now) it.moment) }
    ensures result { IfOk result (λ made. IsResult setup.now (plain scenario.entry.now) number made) }
    ensures of { ForSome course.new (λ it. IsOf setup.now (plain scenario.now) it.moment) }
{
    open(course, alloc, scenario, setup, number)?;
    let Some(opened) = course else {
        unreachable!();
    };
    let made = finish(opened, arena, scenario, setup, number);
    if made.is_err() {
        *course = None;
    }
    made
}

/// Opens everything for the trial of this number. It stands apart, as whoever makes a course clears the stack for one.
#[inline(never)]
fn open<'s, 'b, A: Allocator>(
    course: &mut Option<Course<'s, 'b, A, Tally>>,
    alloc: Global,
    scenario: &'s Scenario<A>,
    setup: &Setup,
    number: u32,
) -> Result<(), NoMemory>
    ensures ok { OnOk result (MatchOption course.new ⊥ (λ it. Begins counts setup.now (plain scenario.entry.now) number it)) }
    ensures err { OnErr result (course.new ≡ course.old) }
{
    let opened = Course::open(alloc, scenario, setup, number, Tally::new())?;
    *course = Some(opened);
    Ok(())
}

/// Makes the trial of this number, from its start.
fn finish<'s, 'b, A: Allocator>(
    course: &mut Course<'s, 'b, A, Tally>,
    arena: &'b Bump,
    scenario: &Scenario<A>,
    setup: &Setup,
    number: u32,
) -> Result<TrialResult, NoMemory>
    requires { Begins counts setup.now (plain scenario.now) number course.old }
    ensures result { IfOk result (λ made. IsResult setup.now (plain scenario.now) number made) }
    ensures alike { IsLike course.old.moment course.new.moment }
{
    let verdict = course.run(arena, setup.limit())?;
    Ok(TrialResult {
        number,
        verdict,
        steps: course.steps(),
    })
}
