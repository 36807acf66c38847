ghost use Rattle.std.specs.Prelude.{◌≡◌, ℕ};
ghost use Rattle.machine.specs.Transition.{decided_outcome};
ghost use Rattle.blocks.specs.Looks.{is_held, held_in};
ghost use Rattle.machine.specs.Block.{opened_block};
ghost use Rattle.blocks.specs.Marking.{ask_stalls};

use crate::block::Block;
use crate::block::access::least_writer;
use crate::block::acting::completion_outcome;
use crate::block::deciding::{is_idle_ask, opened_line};
use crate::block::testing::stalls_line;
use base::{Ask, CacheId, Outcome, Place, Step};
use control::{Line, LineInput, line_completion};
use machine::Decision;
use network::{Forward, Message, Response};
use tables::Tables;

impl Block {
    ghost use Rattle.std.specs.Prelude.{◌≡◌, ◌<◌, ◌≤◌, ◌⊎◌, IfNone, IfSome, None, Some, count_by, slice_get};
    ghost use Rattle.network.specs.Traffic.{is_quiet, link};
    ghost use Rattle.control.specs.LineEffect.{is_reader, is_writer};
    ghost use Rattle.machine.specs.Made.{is_crowded};
    ghost use Rattle.machine.specs.Transition.{transition};
    ghost use Rattle.blocks.specs.Looks.{cache_place, message_in, place_in, response_place, writer_in};
    ghost use Rattle.blocks.specs.Looks.{held_in};

    /// The value of the last store.
    pub fn latest(&self) -> u64
        ensures { result ≡ self.now.state.latest }
    {
        self.latest
    }

    /// Whether nothing is on the wires.
    pub fn is_quiet(&self) -> bool
        ensures { result ≡ is_quiet self.now.state.traffic }
    {
        self.wires.is_quiet()
    }

    /// How many caches may read the block.
    pub fn readers(&self) -> u32
        ensures { result ≡ count_by (λ line. is_reader line.state) self.now.state.lines }
    {
        self.access.readers
    }

    /// The least cache that may write the block.
    pub fn writer(&self) -> Option<CacheId>
        ensures { result ≡ writer_in self.now.state.lines }
    {
        if self.writers() == 0 {
            return None;
        }
        least_writer(&self.lines)
    }

    /// The least cache that may write the block, where more than one may read it.
    pub fn crowded_writer(&self) -> Option<CacheId>
        ensures some { IfSome result (λ cache. Some cache ≡ writer_in self.now.state.lines) }
        ensures many { IfSome result (λ cache. 1 < count_by (λ line. is_reader line.state) self.now.state.lines) }
        ensures none { IfNone result ((count_by (λ line. is_reader line.state) self.now.state.lines ≤ 1) ⊎ (None ≡ writer_in self.now.state.lines)) }
    {
        if self.readers() <= 1 {
            return None;
        }
        self.writer()
    }

    /// Whether more than one cache may read the block, and one may write it. It is told by two counts.
    pub(crate) fn is_crowded(&self) -> bool
        ensures { result ≡ is_crowded self.now.state }
    {
        self.readers() > 1 && self.writers() > 0
    }

    /// How many caches may write the block.
    fn writers(&self) -> u32
        ensures { result ≡ count_by (λ line. is_writer line.state) self.now.state.lines }
    {
        self.access.writers
    }

    /// The controller that a step goes to, if cache and message are there.
    pub fn place(&self, step: Step) -> Option<Place>
        ensures { result ≡ place_in step self.now.state }
    {
        match step {
            Step::Ask {
                cache,
                block: _,
                ask: _,
            } => self.cache_place(cache),
            Step::Request { block: _, index } => match self.wires.request(index) {
                Some(_) => Some(Place::Dir),
                None => None,
            },
            Step::Forward { block: _, cache } => match self.wires.head(cache) {
                Some(_) => self.cache_place(cache),
                None => None,
            },
            Step::Response { block: _, index } => self.response_place(index),
        }
    }

    fn cache_place(&self, cache: CacheId) -> Option<Place>
        ensures { result ≡ cache_place cache (slice_get self.now.state.lines cache.0) }
    {
        match self.line(cache) {
            Some(_) => Some(Place::Cache(cache)),
            None => None,
        }
    }

    fn response_place(&self, index: u64) -> Option<Place>
        ensures { result ≡ response_place self.now.state.lines (slice_get self.now.state.traffic.responses index) }
    {
        match self.wires.response(index)? {
            Response::Data {
                from: _,
                to: Place::Dir,
                value: _,
                acks: _,
            } => Some(Place::Dir),
            Response::Data {
                from: _,
                to: Place::Cache(to),
                value: _,
                acks: _,
            } => self.cache_place(to),
            Response::InvAck { from: _, to } => self.cache_place(to),
            Response::DataExcl { to, value: _ } => self.cache_place(to),
        }
    }

    /// The message that a delivery would serve, if it is there. An ask serves none.
    pub fn message(&self, step: Step) -> Option<Message>
        ensures { result ≡ message_in step self.now.state.traffic }
    {
        match step {
            Step::Ask { .. } => None,
            Step::Request { block: _, index } => {
                Some(Message::Request(self.wires.request(index)?))
            }
            Step::Forward { block: _, cache } => {
                Some(Message::Forward(cache, self.wires.head(cache)?))
            }
            Step::Response { block: _, index } => {
                Some(Message::Response(self.wires.response(index)?))
            }
        }
    }

    /// The message at a place of the link to a cache, if there is one.
    pub fn forward(&self, cache: CacheId, index: u64) -> Option<Forward>
        ensures { result ≡ slice_get (link self.now.state.traffic cache.0) index }
    {
        self.wires.forward(cache, index)
    }

    /// The outcome that a step would have.
    pub fn foresee(&self, tables: &Tables, step: Step) -> Outcome
        ensures { result ≡ (transition tables.now step self.now.state).outcome }
    {
        let decision = self.decide(tables, &step);
        foreseen(&decision)
    }

    /// Whether a step would be held.
    pub fn is_held(&self, tables: &Tables, step: Step) -> bool
        ensures { result ≡ held_in tables.now step self.now.state }
    {
        match step {
            Step::Ask {
                cache,
                block: _,
                ask,
            } => stalls_ask(tables, ask, self.line(cache)),
            Step::Request { .. } | Step::Forward { .. } | Step::Response { .. } => {
                is_held_outcome(self.foresee(tables, step))
            }
        }
    }
}

/// The outcome of a decision.
pub fn foreseen(decision: &Decision) -> Outcome
    ensures { result ≡ decided_outcome decision.now }
{
    match *decision {
        Decision::Refused(outcome) => outcome,
        Decision::AtLine {
            cache,
            line,
            input,
            next,
            actions: _,
            origin,
        } => completion_outcome(cache, origin, line_completion(&line, input, next)),
        Decision::AtHome {
            input: _,
            next: _,
            actions: _,
            origin: _,
        } => Outcome::Moved,
    }
}

/// Whether an outcome is that of a stall.
fn is_held_outcome(outcome: Outcome) -> bool
    ensures { result ≡ is_held outcome }
{
    match outcome {
        Outcome::Held => true,
        _ => false,
    }
}

/// Whether a step would be held at a block that nothing has happened to.
pub fn is_held_opened(tables: &Tables, caches: u32, step: Step) -> bool
    ensures { (value : ℕ) → result ≡ held_in tables.now step (opened_block caches value) }
{
    match step {
        Step::Ask {
            cache,
            block: _,
            ask,
        } => stalls_ask(tables, ask, opened_line(cache, caches)),
        Step::Request { .. } | Step::Forward { .. } | Step::Response { .. } => false,
    }
}

/// Whether an ask would be held at a line. Where there is no line it wouldn't.
pub(crate) fn stalls_ask(tables: &Tables, ask: Ask, line: Option<Line>) -> bool
    ensures { result ≡ ask_stalls tables.now.cache ask line }
{
    let Some(found) = line else {
        return false;
    };
    !is_idle_ask(ask, found.state) && stalls_line(tables, line, LineInput::Ask(ask))
}
