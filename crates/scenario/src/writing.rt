//! Scenarios written as JSON.

ghost use Rattle.std.specs.Prelude.{◌≡◌, ◌≤◌, codes, string_bytes, IfOk};
ghost use Rattle.serde_json.specs.Data.{array, string, member, no_members};
ghost use Rattle.serde_json.specs.View.{view, items_view};
ghost use Rattle.serde_json.specs.Written.{compact_text};
ghost use Rattle.scenario.specs.Tree.{plain, plain_all};
ghost use Rattle.scenario.specs.Shown.{shown, shown_all, shown_ask, shown_number, shown_times, shown_under, with_core_and_block};
ghost use Rattle.scenario.specs.Limits.{FitsTypes, Throughout, depth};
ghost use Rattle.scenario.specs.Says.{IsJson};
ghost use Rattle.scenario.specs.Saving.{GoesOut, MarksSave, ReadsBack};

use crate::fitting::read_numbers;
use crate::tree::Scenario;
use base::{Ask, CoreAsk, Sink, put_all};
use serde_json::{Value, json};
use std::alloc::{AllocError, Allocator, Global};
use thiserror::Error;

/// Why a scenario wasn't written as a whole.
#[derive(Clone, Copy, Debug, PartialEq, Eq, Error)]
pub enum SaveFault {
    /// A growth was refused. Nothing went out.
    #[error("no memory")]
    NoMemory,
    /// The sink failed.
    #[error("a device failed after {written} bytes")]
    Device {
        /// How many bytes of the text went out.
        written: u64,
    },
}

impl<A: Allocator> Scenario<A> {
    /// Puts the scenario's text into a sink: JSON with the keys in rising order, without spaces and line ends.
    ///
    /// The text is made in the memory of `heap` first.
    ///
    /// Unless memory is refused, [`Scenario::read`] of a shape answers of this text the scenario again exactly where it has
    /// at most [`DEEPEST`](crate::DEEPEST) levels, its words have at most [`LONGEST`](crate::LONGEST) asks, no `any` is
    /// without children, and each ask is in the shape: a law says so, [`trees_within_are_read`](crate::trees_within_are_read).
    /// The numbers always fit, as their types say.
    pub fn write<S: Sink>(&self, heap: Global, sink: &mut S) -> Result<(), SaveFault>
        ensures text { GoesOut (S.taken sink.old) (S.taken sink.new) (compact_text (shown (plain self.now))) result }
        ensures mark { MarksSave (S.has_failed sink.old) result (S.has_failed sink.new) }
        ensures reads_back { ReadsBack (plain self.now) result }
        ensures fits { Throughout FitsTypes (plain self.now) }
    {
        read_numbers(self);
        let Ok(text) = text_of(heap, self) else {
            return Err(SaveFault::NoMemory);
        };
        match put_all(sink, text.as_bytes()) {
            Ok(()) => Ok(()),
            Err(fault) => Err(SaveFault::Device {
                written: fault.written as u64,
            }),
        }
    }
}

#[tactic(auto, using(crate::proofs::Texts::texts))]
fn text_of<A: Allocator>(heap: Global, scenario: &Scenario<A>) -> Result<String, AllocError>
    ensures text { IfOk result (λ t. string_bytes t ≡ compact_text (shown (plain scenario.now))) }
    ensures reads_back { IfOk result (λ t. depth (plain scenario.now) ≤ 48 → IsJson (string_bytes t) (shown (plain scenario.now))) }
{
    value_of(heap, scenario)?.to_string(heap)
}

#[cycle(showing)]
#[tactic(auto, using(crate::proofs::Children::children))]
fn value_of<A: Allocator>(heap: Global, scenario: &Scenario<A>) -> Result<Value, AllocError>
    ensures { IfOk result (λ v. view v ≡ shown (plain scenario.now)) }
{
    match scenario {
        Scenario::One(ask) => ask_value(heap, *ask),
        Scenario::Seq(children) => value_under(heap, "seq", children.as_slice()),
        Scenario::Any(children) => value_under(heap, "any", children.as_slice()),
        Scenario::Both(children) => value_under(heap, "both", children.as_slice()),
        Scenario::Times(turns, child) => times_value(heap, *turns, value_of(heap, child)?),
    }
}

/// An object of one key, which has the values of these children.
#[cycle(showing)]
fn value_under<A: Allocator>(
    heap: Global,
    key: &str,
    children: &[Scenario<A>],
) -> Result<Value, AllocError>
    ensures { IfOk result (λ v. view v ≡ shown_under key.now (array (shown_all (plain_all children.now)))) }
{
    let mut values = Vec::with_capacity(heap, children.len())?;
    for child in children {
        values.push(value_of(heap, child)?)?;
    }
    list_value(heap, key, values)
}

/// An object of one key, which has an array of these values.
#[tactic(auto, using(crate::proofs::Shown::arrays))]
fn list_value(heap: Global, key: &str, values: Vec<Value>) -> Result<Value, AllocError>
    ensures { IfOk result (λ v. view v ≡ shown_under key.now (array (items_view values.items))) }
{
    let values = Value::Array(values);
    json!(in heap; {key: values})
}

fn times_value(heap: Global, turns: u32, child: Value) -> Result<Value, AllocError>
    ensures { IfOk result (λ v. view v ≡ shown_times turns (view child)) }
{
    json!(in heap; {"of": child, "times": turns})
}

fn ask_value(heap: Global, ask: CoreAsk) -> Result<Value, AllocError>
    ensures { IfOk result (λ v. view v ≡ shown_ask ask) }
{
    match ask.ask {
        Ask::Load => word_value(heap, ask, "load"),
        Ask::Store(value) => store_value(heap, ask, value),
        Ask::Replace => word_value(heap, ask, "replace"),
    }
}

/// An ask of which the word says all, beside its core and its block.
fn word_value(heap: Global, ask: CoreAsk, word: &str) -> Result<Value, AllocError>
    ensures { IfOk result (λ v. view v ≡ with_core_and_block ask (member (codes "op") (string word.now) no_members)) }
{
    json!(in heap; {"block": ask.block.0, "core": ask.core.0, "op": word})
}

fn store_value(heap: Global, ask: CoreAsk, value: u64) -> Result<Value, AllocError>
    ensures { IfOk result (λ v. view v ≡
        with_core_and_block ask (member (codes "op") (string (codes "store")) (member (codes "value") (shown_number value) no_members))) }
{
    json!(in heap; {"block": ask.block.0, "core": ask.core.0, "op": "store", "value": value})
}
