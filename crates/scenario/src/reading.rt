//! Scenarios read from JSON.

ghost use Rattle.std.specs.Prelude.{ℕ, ◌≡◌, ◌≤◌, List, [], map, IfOk, IfErr};
ghost use Rattle.serde_json.specs.View.{view, items_view};
ghost use Rattle.scenario.specs.Tree.{plain};
ghost use Rattle.scenario.specs.Limits.{IsWithin};
ghost use Rattle.scenario.specs.Refusals.{IsRefusal, is_in_shape};
ghost use Rattle.scenario.specs.Says.{IsJson, IsTextOf};
ghost use Rattle.scenario.specs.inner.Walk.{Gives, tree_at, trees_behind};

use crate::fitting::read_numbers;
use crate::forms::{NodeForm, form_of};
use crate::making::{children_in, times_in};
use crate::measuring::longest_word;
use crate::tree::Scenario;
use base::{CoreAsk, Shape};
use serde_json::Value;
use std::alloc::{AllocError, AllocFailed, Allocator, Global};
use thiserror::Error;

/// How many levels a scenario may have that is read. One ask, or a list of no children, is one level.
pub const DEEPEST: u32 = 48;

/// How many asks the longest word of a scenario may have that is read.
pub const LONGEST: u32 = 1_000_000;

/// Why a text is no scenario of a shape. `docs/FORMATS.md` has the form of a scenario.
///
/// `NotJson` is tested first. Then the values are visited, each before its children and these in order, and the first
/// one with a fault decides: of one value `TooDeep` is tested first, then `BadShape`, `EmptyAny` and `OutOfShape`. What
/// is too deep isn't looked into. `TooLong` comes last, where nothing else is wrong.
#[derive(Clone, Copy, Debug, PartialEq, Eq, Error)]
pub enum ScenarioFault {
    /// The bytes aren't JSON.
    #[error("not JSON")]
    NotJson,
    /// A key is missing or one too many, or there is something of another kind, or a number out of its range.
    #[error("not of the form of a scenario")]
    BadShape,
    /// An `any` has no children.
    #[error("a choice of nothing")]
    EmptyAny,
    /// A value stands below the level `DEEPEST`.
    #[error("more than {DEEPEST} levels")]
    TooDeep,
    /// The longest word has more than `LONGEST` asks.
    #[error("a word of more than {LONGEST} asks")]
    TooLong,
    /// An ask is of a core or a block that the shape hasn't got.
    #[error("a core or a block out of the shape")]
    OutOfShape,
    /// A growth was refused.
    #[error("no memory")]
    NoMemory,
}

impl From<AllocError> for ScenarioFault {
    ghost use Rattle.scenario.specs.declared.reading.ScenarioFault.TheVariants as fault;

    ghost from_gives = { λ _ e. e ≡ fault.NoMemory };

    fn from(_refused: AllocError) -> ScenarioFault {
        ScenarioFault::NoMemory
    }
}

impl<T: Drop> From<AllocFailed<T>> for ScenarioFault {
    ghost use Rattle.scenario.specs.declared.reading.ScenarioFault.TheVariants as fault;

    ghost from_gives = { λ _ e. e ≡ fault.NoMemory };

    fn from(_refused: AllocFailed<T>) -> ScenarioFault {
        ScenarioFault::NoMemory
    }
}

impl<A: Allocator + Clone> Scenario<A> {
    /// The scenario that a text is, or why it is none of this shape.
    ///
    /// The text is read in the memory of `heap`, and the scenario is made in that of `alloc`.
    pub fn read(
        heap: Global,
        alloc: A,
        bytes: &[u8],
        shape: Shape,
    ) -> Result<Scenario<A>, ScenarioFault>
        ensures tree { IfOk result (λ s. IsTextOf bytes.now (plain s)) }
        ensures within { IfOk result (λ s. IsWithin shape (plain s)) }
        ensures fault { IfErr result (λ f. IsRefusal shape bytes.now f) }
    {
        let value = match Value::from_slice(heap, bytes) {
            Ok(value) => value,
            Err(error) if error.is_memory() => return Err(ScenarioFault::NoMemory),
            Err(_) => return Err(ScenarioFault::NotJson),
        };
        scenario_of(&alloc, &value, shape)
    }
}

/// The scenario that the value of a text is, or why it is none of this shape.
fn scenario_of<A: Allocator + Clone>(
    alloc: &A,
    value: &Value,
    shape: Shape,
) -> Result<Scenario<A>, ScenarioFault>
    ensures tree { (bytes : List ℕ) → IsJson bytes (view value.now) → IfOk result (λ s. IsTextOf bytes (plain s)) }
    ensures within { IfOk result (λ s. IsWithin shape (plain s)) }
    ensures fault { (bytes : List ℕ) → IsJson bytes (view value.now) → IfErr result (λ f. IsRefusal shape bytes f) }
{
    let scenario = scenario_at(alloc, value, shape, DEEPEST)?;
    if longest_word(&scenario) > u64::from(LONGEST) {
        return Err(ScenarioFault::TooLong);
    }
    read_numbers(&scenario);
    Ok(scenario)
}

/// The scenario that the value is, where so many levels are left for it.
#[cycle(reading)]
#[tactic(auto, using(crate::proofs::Walking::walking))]
fn scenario_at<A: Allocator + Clone>(
    alloc: &A,
    value: &Value,
    shape: Shape,
    levels: u32,
) -> Result<Scenario<A>, ScenarioFault>
    ensures { Gives plain result (tree_at shape levels (view value.now)) }
{
    if levels == 0 {
        return Err(ScenarioFault::TooDeep);
    }
    let levels = levels - 1;
    match form_of(value) {
        None => Err(ScenarioFault::BadShape),
        Some(NodeForm::One(ask)) if is_in_shape(ask, shape) => Ok(Scenario::One(ask)),
        Some(NodeForm::One(_)) => Err(ScenarioFault::OutOfShape),
        Some(NodeForm::Any([])) => Err(ScenarioFault::EmptyAny),
        Some(NodeForm::Seq(values)) => Ok(Scenario::Seq(scenarios_at(
            alloc, values, shape, levels,
        )?)),
        Some(NodeForm::Any(values)) => Ok(Scenario::Any(scenarios_at(
            alloc, values, shape, levels,
        )?)),
        Some(NodeForm::Both(values)) => Ok(Scenario::Both(scenarios_at(
            alloc, values, shape, levels,
        )?)),
        Some(NodeForm::Times(turns, value)) => {
            let child = scenario_at(alloc, value, shape, levels)?;
            Ok(times_in(alloc, turns, child)?)
        }
    }
}

#[cycle(reading)]
#[tactic(auto, using(crate::proofs::Walking::walking))]
fn scenarios_at<A: Allocator + Clone>(
    alloc: &A,
    values: &[Value],
    shape: Shape,
    levels: u32,
) -> Result<Vec<Scenario<A>, A>, ScenarioFault>
    ensures { Gives (λ v. map plain v.items) result (trees_behind (tree_at shape levels) [] (items_view values.now)) }
{
    let mut children = children_in(alloc, 0)?;
    for value in values {
        children.push(scenario_at(alloc, value, shape, levels)?)?;
    }
    Ok(children)
}

/// Whether the ask is by a core of the shape, and of one of its blocks.
fn is_in_shape(ask: CoreAsk, shape: Shape) -> bool
    ensures { result ≡ is_in_shape shape ask }
{
    ask.core.0 < shape.caches() && ask.block.0 < shape.blocks()
}
