ghost use Rattle.std.specs.Prelude.{◌≡◌, ◌<◌, Some, [], false, length, slice_get};
ghost use Rattle.network.specs.Room.{HasRoomFor, UsesRoomFor};
ghost use Rattle.control.specs.LineEffect.{line_sends, opened_line};
ghost use Rattle.machine.specs.Transition.{outcome_of, plain_outcome, latest_after, without, IsThere};
ghost use Rattle.rows.specs.Flags.{is_set};
ghost use Rattle.blocks.specs.View.{wakes_line};
ghost use Rattle.blocks.specs.inner.Lined.{kept_lines, lines_of};
ghost use Rattle.blocks.specs.inner.Linking.{IsOwn, IsRelinked};
ghost use Rattle.blocks.specs.inner.Performing.{ActsAtLine};
ghost use Rattle.machine.specs.Made.{acted_by};
ghost use Rattle.base.specs.declared.ids.CacheId.{CacheId};

use crate::block::serving::{HeadAt, RequestAt, ResponseAt, Served};
use crate::block::{Block, foreseen};
use crate::controllers::Controllers;
use base::{CacheId, CoreAsk, NoMemory, Outcome, Step};
use cache_table::{CacheActions, CacheState};
use control::{
    Line, LineCompletion, LineInput, home_perform, home_reserve, line_perform, line_reserve,
};
use machine::{Acted, Actor, Decision, Made, Origin};
use network::Wires;
use rows::Sparse;
use tables::Tables;

impl Block {
    ghost use Rattle.std.specs.Prelude.{◌≡◌, [], IfOk, IsOk, OnOk, OnErr, false, length, take};
    ghost use Rattle.base.specs.declared.ids.CacheId.{CacheId};
    ghost use Rattle.blocks.specs.inner.Linking.{IsAtOwn, IsRelinked};
    ghost use Rattle.machine.specs.Transition.{Fits, carried_out, decision_of};
    ghost use Rattle.blocks.specs.View.{acts, lines_after, moved_to, wakes_line, HasSpaceFor};
    ghost use Rattle.blocks.specs.Marking.{marks_of};
    ghost use Rattle.blocks.specs.inner.Named.{DecisionNames};
    ghost use Rattle.blocks.specs.inner.OwnLine.{IsAboutLine};
    ghost use Rattle.blocks.specs.Steps.{Foresees, IsBlockAsBefore, MakesStep, Stays, BlockNeedsNoMemory};

    /// Makes the room that a decision wants. Where it is refused nothing has changed.
    #[inline(always)]
    fn prepare(&mut self, decision: &Decision) -> Result<(), NoMemory>
        requires fits { Fits decision.now self.old.state }
        requires names { DecisionNames self.old.space.lines decision.now }
        ensures state { self.new.state ≡ self.old.state }
        ensures marks { self.new.marks ≡ self.old.marks }
        ensures lines { self.new.space.lines ≡ self.old.space.lines }
        ensures idle { acts decision.now ≡ false → self.new.space ≡ self.old.space }
        ensures ok { OnOk result (HasSpaceFor decision.now self.old.state self.new.space) }
        ensures succeeds { HasSpaceFor decision.now self.old.state self.old.space → IsOk result }
    {
        match *decision {
            Decision::Refused(_) => {}
            Decision::AtLine {
                cache,
                line: _,
                input,
                next: _,
                actions,
                origin: _,
            } => {
                if wakes(decision) && self.lines.get(cache.0).is_none() {
                    self.lines.reserve(1)?;
                }
                line_reserve(input, actions, &mut self.wires)?;
            }
            Decision::AtHome {
                input,
                next: _,
                actions,
                origin: _,
            } => {
                home_reserve(&self.home, input, actions, &mut self.wires)?;
            }
        }
        Ok(())
    }

    /// Makes the room that a step wants, and answers the outcome that it will have.
    pub fn ready(&mut self, tables: &Tables, step: Step) -> Result<Outcome, NoMemory>
        ensures ok { IfOk result (λ what. Foresees tables.now self.old step what self.new) }
        ensures kept { IsBlockAsBefore (decision_of tables.now step self.old.state) self.old self.new }
        ensures succeeds { BlockNeedsNoMemory (decision_of tables.now step self.old.state) self.old.state self.old.space → IsOk result }
    {
        let decision = self.decide(tables, &step);
        self.prepare(&decision)?;
        Ok(foreseen(&decision))
    }

    /// Does what was decided, where there is room for it, and answers the outcome.
    #[inline(always)]
    fn carry_out(&mut self, decision: &Decision) -> Outcome
        requires fits { Fits decision.now self.old.state }
        requires names { DecisionNames self.old.space.lines decision.now }
        requires line { IsAboutLine self.old.state.lines decision.now }
        requires room { HasSpaceFor decision.now self.old.state self.old.space }
        ensures done { carried_out decision.now self.old.state ≡ moved_to self.new.state result }
        ensures lines { self.new.space.lines ≡ lines_after decision.now self.old.space.lines }
        ensures links { (cache : CacheId) → IsAtOwn decision.now cache →
            IsRelinked cache.0 self.old.marks.links self.old.state.traffic.links self.new.marks.links self.new.state.traffic.links }
        ensures requests { (cache : CacheId) → IsAtOwn decision.now cache →
            take (length self.old.marks.requests) self.new.marks.requests ≡ self.old.marks.requests }
    {
        match *decision {
            Decision::Refused(outcome) => outcome,
            Decision::AtLine {
                cache,
                line,
                input,
                next,
                actions,
                origin,
            } => {
                take(&mut self.wires, origin);
                let done = perform(
                    &mut self.lines,
                    cache,
                    line,
                    input,
                    next,
                    actions,
                    &mut self.wires,
                );
                self.access.follow(line.state, next);
                self.latest = latest_value(done, self.latest);
                completion_outcome(cache, origin, done)
            }
            Decision::AtHome {
                input,
                next,
                actions,
                origin,
            } => {
                take(&mut self.wires, origin);
                home_perform(&mut self.home, input, next, actions, &mut self.wires);
                Outcome::Moved
            }
        }
    }

    /// Makes a step. Where memory is refused nothing has changed.
    // A call would hand the step and what it came to through memory.
    #[inline(always)]
    pub fn make(&mut self, controllers: &Controllers, step: &Step) -> Result<Made, NoMemory>
        requires { self.old.marks ≡ marks_of controllers.now self.old.state }
        ensures ok { IfOk result (λ made. MakesStep controllers.now self.old step.now made self.new) }
        ensures err { OnErr result (Stays controllers.now self.old self.new) }
        ensures succeeds { BlockNeedsNoMemory (decision_of controllers.now step.now self.old.state) self.old.state self.old.space → IsOk result }
    {
        match *step {
            Step::Ask { cache, block, ask } => {
                let core = cache;
                self.serve(controllers, &CoreAsk { core, block, ask })
            }
            Step::Request { block, index } => {
                self.serve(controllers, &RequestAt { block, index })
            }
            Step::Forward { block, cache } => self.serve(controllers, &HeadAt { block, cache }),
            Step::Response { block, index } => {
                self.serve(controllers, &ResponseAt { block, index })
            }
        }
    }

    /// Makes the step that serves this.
    #[inline(always)]
    fn serve<S: Served>(&mut self, controllers: &Controllers, served: &S) -> Result<Made, NoMemory>
        requires { self.old.marks ≡ marks_of controllers.now self.old.state }
        ensures ok { IfOk result (λ made. MakesStep controllers.now self.old (S.step served.now) made self.new) }
        ensures err { OnErr result (Stays controllers.now self.old self.new) }
        ensures succeeds { BlockNeedsNoMemory (decision_of controllers.now (S.step served.now) self.old.state) self.old.state self.old.space → IsOk result }
    {
        let decision = self.decide(controllers.tables(), served);
        if let Decision::Refused(outcome) = decision {
            return Ok(Made::refused(outcome));
        }
        let others = self.others(&decision);
        if let Err(refused) = self.prepare(&decision) {
            return Err(refused);
        }
        let outcome = self.carry_out(&decision);
        self.mark_after(controllers, others);
        let acted = acted_by(&decision, self.is_crowded());
        Ok(Made { outcome, acted })
    }
}

/// What a decision had a cell do, if one acted, where its block is crowded after it or isn't.
#[inline(always)]
fn acted_by(decision: &Decision, crowded: bool) -> Option<Acted>
    ensures { result ≡ acted_by decision.now crowded }
{
    let by = match *decision {
        Decision::Refused(_) => return None,
        Decision::AtLine {
            cache,
            line,
            next,
            ..
        } => Actor::Line {
            cache,
            before: line.state,
            after: next,
        },
        Decision::AtHome { .. } => Actor::Home,
    };
    Some(Acted { by, crowded })
}

/// Whether an ask acts at a line in I. Every other line at which a cell acts is kept.
#[inline(always)]
fn wakes(decision: &Decision) -> bool
    ensures { result ≡ wakes_line decision.now }
{
    match *decision {
        Decision::AtLine {
            line,
            origin: Origin::Core,
            ..
        } => line.state == CacheState::I,
        _ => false,
    }
}

/// Lets an input act at the line of a cache, where it lies. A line that isn't kept is from now on.
// (`line` is the line as it was.)
#[inline(always)]
fn perform(
    lines: &mut Sparse<Line>,
    cache: CacheId,
    line: Line,
    input: LineInput,
    next: CacheState,
    actions: CacheActions,
    wires: &mut Wires,
) -> Option<LineCompletion>
    requires line { Some line ≡ slice_get (lines_of lines.old.items) cache.0 }
    requires place { is_set (kept_lines lines.old.items) cache.0 ≡ false → 0 < lines.old.spare }
    requires room { HasRoomFor (line_sends cache input actions line) wires.old.room }
    ensures { ActsAtLine cache input next actions line lines.old.items wires.old result lines.new.items wires.new }
{
    if let Some(kept) = lines.get_mut(cache.0) {
        return line_perform(kept, cache, input, next, actions, wires);
    }
    perform_at_first(lines, cache, input, next, actions, wires)
}

/// Does so at a line that isn't kept. It is the call of what stands apart, taken apart (docs/PERFORMANCE.md, "Seldom calls").
#[inline(always)]
fn perform_at_first(
    lines: &mut Sparse<Line>,
    cache: CacheId,
    input: LineInput,
    next: CacheState,
    actions: CacheActions,
    wires: &mut Wires,
) -> Option<LineCompletion>
    requires below { cache.0 < length lines.old.items }
    requires place { 0 < lines.old.spare }
    requires room { HasRoomFor (line_sends cache input actions opened_line) wires.old.room }
    ensures { ActsAtLine cache input next actions opened_line lines.old.items wires.old result lines.new.items wires.new }
{
    let done = perform_first(lines, cache, input, next, actions, wires)?;
    Some(done)
}

/// The same. It stands apart, as few steps come here.
#[cold]
#[inline(never)]
fn perform_first(
    lines: &mut Sparse<Line>,
    cache: CacheId,
    input: LineInput,
    next: CacheState,
    actions: CacheActions,
    wires: &mut Wires,
) -> Option<LineCompletion>
    requires below { cache.0 < length lines.old.items }
    requires place { 0 < lines.old.spare }
    requires room { HasRoomFor (line_sends cache input actions opened_line) wires.old.room }
    ensures { ActsAtLine cache input next actions opened_line lines.old.items wires.old result lines.new.items wires.new }
{
    let mut line = Line::opened();
    let done = line_perform(&mut line, cache, input, next, actions, wires);
    if let Err(_) = lines.put(cache.0, line) {
        unreachable!();
    }
    done
}

/// Takes the message that is served off its wire.
#[inline(always)]
fn take(wires: &mut Wires, from: Origin)
    requires { IsThere from wires.old.traffic }
    ensures traffic { wires.new.traffic ≡ without from wires.old.traffic }
    ensures room { UsesRoomFor [] wires.old.room wires.new.room }
    ensures links { (cache : CacheId) → IsOwn from cache →
        IsRelinked cache.0 wires.old.marks.links wires.old.traffic.links wires.new.marks.links wires.new.traffic.links }
    ensures requests { (cache : CacheId) → IsOwn from cache → wires.new.marks.requests ≡ wires.old.marks.requests }
{
    match from {
        Origin::Core => {}
        Origin::Request(index) => {
            let _taken = wires.take_request(index);
        }
        Origin::Head(cache) => {
            let _taken = wires.take_head(cache);
        }
        Origin::Response(index) => {
            let _taken = wires.take_response(index);
        }
    }
}

fn plain(from: Origin) -> Outcome
    ensures { result ≡ plain_outcome from }
{
    match from {
        Origin::Core => Outcome::Sent,
        Origin::Request(_) | Origin::Head(_) | Origin::Response(_) => Outcome::Moved,
    }
}

pub(crate) fn completion_outcome(
    cache: CacheId,
    from: Origin,
    done: Option<LineCompletion>,
) -> Outcome
    ensures { result ≡ outcome_of cache from done }
{
    match done {
        None => plain(from),
        Some(LineCompletion::Load(value)) => Outcome::Load { cache, value },
        Some(LineCompletion::Store(value)) => Outcome::Store { cache, value },
    }
}

fn latest_value(done: Option<LineCompletion>, before: u64) -> u64
    ensures { result ≡ latest_after done before }
{
    match done {
        Some(LineCompletion::Store(value)) => value,
        Some(LineCompletion::Load(_)) | None => before,
    }
}
