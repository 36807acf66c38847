ghost use Rattle.std.specs.Prelude.{◌≡◌, ℕ, replicate, slice_get};
ghost use Rattle.control.specs.LineEffect.{opened_line};
ghost use Rattle.machine.specs.Block.{opened_block};
ghost use Rattle.machine.specs.Transition.{at_line, at_ask, decision_of, is_idle};

use crate::block::Block;
use crate::block::serving::Served;
use base::{Ask, CacheId, Outcome, Place, Step};
use cache_table::{CacheEntry, CacheState};
use control::{HomeInput, Line, LineInput, home_event, line_event};
use directory_table::DirectoryEntry;
use machine::{Decision, Origin};
use network::Response;
use tables::Tables;

/// The line of a cache that isn't kept, if the cache is one of so many.
pub fn opened_line(cache: CacheId, caches: u32) -> Option<Line>
    ensures { result ≡ slice_get (replicate caches opened_line) cache.0 }
{
    if cache.0 < caches {
        Some(Line::opened())
    } else {
        None
    }
}

/// What an input comes to at a line.
#[inline(always)]
fn at_line(
    tables: &Tables,
    cache: CacheId,
    input: LineInput,
    from: Origin,
    line: Option<Line>,
) -> Decision
    ensures { result ≡ at_line tables.now.cache cache input from line }
{
    let Some(line) = line else {
        return Decision::Refused(Outcome::Absent);
    };
    match tables.cache.entry(line.state, line_event(&line, input)) {
        CacheEntry::Stall => Decision::Refused(Outcome::Held),
        CacheEntry::Blank => Decision::Refused(Outcome::Blank),
        CacheEntry::Act { next, actions } => Decision::AtLine {
            cache,
            line,
            input,
            next,
            actions,
            origin: from,
        },
    }
}

/// What an ask comes to at the line of its cache.
#[inline(always)]
pub(crate) fn at_ask(tables: &Tables, cache: CacheId, ask: Ask, line: Option<Line>) -> Decision
    ensures { result ≡ at_ask tables.now.cache cache ask line }
{
    let Some(found) = line else {
        return Decision::Refused(Outcome::Absent);
    };
    if is_idle_ask(ask, found.state) {
        return Decision::Refused(Outcome::Idle);
    }
    at_line(tables, cache, LineInput::Ask(ask), Origin::Core, line)
}

/// What a step comes to at a block that nothing has happened to.
pub fn decide_opened(tables: &Tables, caches: u32, step: Step) -> Decision
    ensures { (value : ℕ) → result ≡ decision_of tables.now step (opened_block caches value) }
{
    match step {
        Step::Ask {
            cache,
            block: _,
            ask,
        } => at_ask(tables, cache, ask, opened_line(cache, caches)),
        Step::Request { .. } | Step::Forward { .. } | Step::Response { .. } => {
            Decision::Refused(Outcome::Absent)
        }
    }
}

impl Block {
    ghost use Rattle.std.specs.Prelude.{◌≡◌, length, slice_get};
    ghost use Rattle.network.specs.Traffic.{link};
    ghost use Rattle.machine.specs.Block.{IsBlockAmong};
    ghost use Rattle.machine.specs.Transition.{at_line, at_home, at_request, at_forward, at_response, decision_of, Fits};
    ghost use Rattle.blocks.specs.inner.Named.{DecisionNames};
    ghost use Rattle.blocks.specs.inner.OwnLine.{IsAboutLine};

    #[inline(always)]
    fn at_home(&self, tables: &Tables, input: HomeInput, from: Origin) -> Decision
        ensures { result ≡ at_home tables.now.directory input from self.now.state.home }
    {
        match tables
            .directory
            .entry(self.home.state, home_event(&self.home, input))
        {
            DirectoryEntry::Stall => Decision::Refused(Outcome::Held),
            DirectoryEntry::Blank => Decision::Refused(Outcome::Blank),
            DirectoryEntry::Act { next, actions } => Decision::AtHome {
                input,
                next,
                actions,
                origin: from,
            },
        }
    }

    #[inline(always)]
    fn at_line(&self, tables: &Tables, cache: CacheId, input: LineInput, from: Origin) -> Decision
        ensures { result ≡ at_line tables.now.cache cache input from (slice_get self.now.state.lines cache.0) }
    {
        at_line(tables, cache, input, from, self.line(cache))
    }

    #[inline(always)]
    pub(crate) fn at_request(&self, tables: &Tables, index: u64) -> Decision
        ensures { result ≡ at_request tables.now.directory index self.now.state.home (slice_get self.now.state.traffic.requests index) }
    {
        match self.wires.request(index) {
            None => Decision::Refused(Outcome::Absent),
            Some(request) => {
                self.at_home(tables, HomeInput::Request(request), Origin::Request(index))
            }
        }
    }

    #[inline(always)]
    pub(crate) fn at_forward(&self, tables: &Tables, cache: CacheId) -> Decision
        ensures { result ≡ at_forward tables.now.cache cache self.now.state.lines (slice_get (link self.now.state.traffic cache.0) 0) }
    {
        match self.wires.head(cache) {
            None => Decision::Refused(Outcome::Absent),
            Some(forward) => self.at_line(
                tables,
                cache,
                LineInput::Forward(forward),
                Origin::Head(cache),
            ),
        }
    }

    #[inline(always)]
    pub(crate) fn at_response(&self, tables: &Tables, index: u64) -> Decision
        ensures { result ≡ at_response tables.now index self.now.state (slice_get self.now.state.traffic.responses index) }
    {
        let Some(response) = self.wires.response(index) else {
            return Decision::Refused(Outcome::Absent);
        };
        let from = Origin::Response(index);
        let to = match response {
            Response::Data {
                from: _,
                to: Place::Dir,
                value,
                acks: _,
            } => return self.at_home(tables, HomeInput::Data(value), from),
            Response::Data {
                from: _,
                to: Place::Cache(to),
                value: _,
                acks: _,
            }
            | Response::InvAck { from: _, to }
            | Response::DataExcl { to, value: _ } => to,
        };
        self.at_line(tables, to, LineInput::Response(response), from)
    }

    /// What a step comes to here, by what it serves.
    #[inline(always)]
    pub(crate) fn decide<S: Served>(&self, tables: &Tables, served: &S) -> Decision
        ensures decision { result ≡ decision_of tables.now (S.step served.now) self.now.state }
        ensures fits { Fits result self.now.state }
        ensures names { DecisionNames self.now.space.lines result }
        ensures among { IsBlockAmong (length self.now.state.lines) self.now.state }
        ensures line { IsAboutLine self.now.state.lines result }
    {
        // Nobody but the caches of the block is named in it.
        let _ = &self.lines;
        served.decision(self, tables)
    }
}

pub(crate) fn is_idle_ask(ask: Ask, state: CacheState) -> bool
    ensures { result ≡ is_idle ask state }
{
    match ask {
        Ask::Replace => match state {
            CacheState::I => true,
            _ => false,
        },
        Ask::Load | Ask::Store(_) => false,
    }
}
