//! What a step serves. A step of each kind is made by code of its own, in which nothing of the other kinds is asked.

use crate::block::Block;
use crate::block::deciding::at_ask;
use base::{BlockId, CacheId, CoreAsk, Step};
use machine::Decision;
use tables::Tables;

/// What a step serves: an ask, or a message of one of the three kinds.
pub(crate) trait Served {
    ghost use Rattle.std.specs.Prelude.{◌≡◌};
    ghost use Rattle.base.specs.declared.step.Step.{Step};
    ghost use Rattle.machine.specs.Transition.{decision_of};

    ghost step: { Self → Step };

    /// What the step comes to at a block.
    fn decision(&self, block: &Block, tables: &Tables) -> Decision
        ensures { result ≡ decision_of tables.now (step self.now) block.now.state };
}

/// The request at a place.
#[derive(Clone, Copy)]
pub(crate) struct RequestAt {
    pub(crate) block: BlockId,
    pub(crate) index: u64,
}

/// The first message on the link to a cache.
#[derive(Clone, Copy)]
pub(crate) struct HeadAt {
    pub(crate) block: BlockId,
    pub(crate) cache: CacheId,
}

/// The response at a place.
#[derive(Clone, Copy)]
pub(crate) struct ResponseAt {
    pub(crate) block: BlockId,
    pub(crate) index: u64,
}

impl Served for CoreAsk {
    ghost use Rattle.base.specs.declared.step.Step.TheVariants as step;

    ghost step = { λ ask. step.Ask ask.core ask.block ask.ask };

    #[inline(always)]
    fn decision(&self, block: &Block, tables: &Tables) -> Decision {
        at_ask(tables, self.core, self.ask, block.line(self.core))
    }
}

impl Served for RequestAt {
    ghost use Rattle.base.specs.declared.step.Step.TheVariants as step;

    ghost step = { λ at. step.Request at.block at.index };

    #[inline(always)]
    fn decision(&self, block: &Block, tables: &Tables) -> Decision {
        block.at_request(tables, self.index)
    }
}

impl Served for HeadAt {
    ghost use Rattle.base.specs.declared.step.Step.TheVariants as step;

    ghost step = { λ at. step.Forward at.block at.cache };

    #[inline(always)]
    fn decision(&self, block: &Block, tables: &Tables) -> Decision {
        block.at_forward(tables, self.cache)
    }
}

impl Served for ResponseAt {
    ghost use Rattle.base.specs.declared.step.Step.TheVariants as step;

    ghost step = { λ at. step.Response at.block at.index };

    #[inline(always)]
    fn decision(&self, block: &Block, tables: &Tables) -> Decision {
        block.at_response(tables, self.index)
    }
}

impl Served for Step {
    ghost step = { λ step. step };

    fn decision(&self, block: &Block, tables: &Tables) -> Decision {
        match *self {
            Step::Ask {
                cache,
                block: _,
                ask,
            } => at_ask(tables, cache, ask, block.line(cache)),
            Step::Request { block: _, index } => block.at_request(tables, index),
            Step::Forward { block: _, cache } => block.at_forward(tables, cache),
            Step::Response { block: _, index } => block.at_response(tables, index),
        }
    }
}
