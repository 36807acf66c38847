//! What closed lists of pairs show of tables, where such lists are known.

ghost use Rattle.std.specs.Prelude.{IfOk, IfSome};
ghost use Rattle.closing.specs.Blamed.{HasFlow, Shows};
ghost use Rattle.closing.specs.Closed.{Closed};
ghost use Rattle.closing.specs.Ranked.{ArePairsOf};
ghost use Rattle.closing.specs.inner.Told.{Keeps};

use crate::blaming::{is_blamed, serves_asks};
use crate::checking::kept_steps;
use crate::codes::pair_code;
use crate::following::Followed;
use crate::gathering::{Refusal, gather};
use crate::index::{Index, is_found};
use crate::ranked::RankedPair;
use base::NoMemory;
use pairs::Pair;
use std::alloc::Global;
use tables::Tables;

/// How far it is shown that nothing gets stuck under tables.
#[derive(Clone, Copy, Debug, PartialEq, Eq)]
pub enum Flow {
    /// No run ever gets stuck.
    NeverStuck,
    /// No message is ever stuck; but an ask may be held where nothing is on its way.
    AsksMayBeHeld,
    /// Nothing is shown.
    MessagesMayGetStuck,
}

/// Pairs that are closed, each in both orders, and how far it is shown that nothing gets stuck.
#[derive(Drop)]
pub struct ClosedPairs {
    pub pairs: Vec<Pair>,
    pub flow: Flow,
}

/// The pairs that can come about under these tables, if they are closed, and what is shown by them; or why none are known.
pub fn closed_pairs(alloc: Global, tables: &Tables) -> Result<ClosedPairs, Refusal>
    ensures { IfOk result (λ found. Closed tables.now found.pairs.items × HasFlow tables.now found.flow) }
{
    let list = gather(alloc, tables)?;
    closed_pairs_of(alloc, tables, &list)
}

/// The same of ranked pairs.
fn closed_pairs_of(
    alloc: Global,
    tables: &Tables,
    list: &[RankedPair],
) -> Result<ClosedPairs, Refusal>
    ensures { IfOk result (λ found. Closed tables.now found.pairs.items × HasFlow tables.now found.flow) }
{
    let Some(flow) = shown_by(alloc, tables, list)? else {
        return Err(Refusal::NotClosed);
    };
    let pairs = pairs_of(alloc, list)?;
    Ok(ClosedPairs { pairs, flow })
}

/// What ranked pairs show of these tables: that their pairs are closed, and how far nothing gets stuck. Nothing where some step
/// leaves them, and where pairs that begin alike don't stand together.
pub fn shown_by(
    alloc: Global,
    tables: &Tables,
    list: &[RankedPair],
) -> Result<Option<Flow>, NoMemory>
    ensures { IfOk result (λ shown. IfSome shown (λ flow. Shows tables.now list.now flow)) }
{
    match kept_steps(alloc, tables, list)? {
        Some(steps) => Ok(Some(flow_by(tables, list, &steps))),
        None => Ok(None),
    }
}

/// How far ranked pairs that no step leaves show that nothing gets stuck.
fn flow_by(tables: &Tables, list: &[RankedPair], steps: &[Vec<Followed>]) -> Flow
    requires { Keeps tables.now list.now steps.now }
    ensures { HasFlow tables.now result }
{
    if !is_blamed(tables, list, steps) {
        return Flow::MessagesMayGetStuck;
    }
    if serves_asks(tables, list) {
        Flow::NeverStuck
    } else {
        Flow::AsksMayBeHeld
    }
}

/// The pairs of ranked ones, each once.
fn pairs_of(alloc: Global, list: &[RankedPair]) -> Result<Vec<Pair>, NoMemory>
    ensures { IfOk result (λ pairs. ArePairsOf list.now pairs.items) }
{
    let mut index = Index::empty(alloc);
    let mut pairs = Vec::new(alloc);
    for ranked in list {
        if !is_found(&pairs, &index, &ranked.pair) {
            index.add(pair_code(&ranked.pair), pairs.len())?;
            pairs.push(ranked.pair)?;
        }
    }
    Ok(pairs)
}
