ghost use Rattle.std.specs.Prelude.{◌≡◌, ◌≢◌, ◌+◌, ◌≤◌, ◌↔◌, ◌⊎◌, ℕ, IfNone, IfSome, IsTrue, MatchOption, None, Option};
ghost use Rattle.world.specs.Looks.{readers_of};
ghost use Rattle.base.specs.Steps.{block_of};
ghost use Rattle.base.specs.declared.step.Outcome.{Outcome};
ghost use Rattle.machine.specs.Machine.{State, is_blank};
ghost use Rattle.machine.specs.Coherence.{Reads, Writes, line_at};
ghost use Rattle.monitor.specs.Scenes.{Answers, IsLookedAt, scene_in};
ghost use Rattle.monitor.specs.Finding.{AnswersWithin, IsLeastFrom, HoldsForNoneFrom, is_suspect};

use crate::violation::Violation;
use base::{BlockId, CacheId, Outcome, Place, Step};
use control::{may_read, may_write};
use machine::Made;
use world::World;

/// What is wrong after a step, where a load of its block ought to have returned the value `due`.
pub fn find(world: &World, step: Step, outcome: Outcome, due: Option<u64>) -> Option<Violation>
    ensures { Answers (scene_in world.now.state step outcome due) result }
{
    if !is_looked_at(outcome) {
        return None;
    }
    if let Some(found) = find_blank(world, step, outcome) {
        return Some(found);
    }
    if let Some(found) = find_shared(world, step) {
        return Some(found);
    }
    find_stale(step, outcome, due)
}

fn is_looked_at(outcome: Outcome) -> bool
    ensures { IsTrue result ↔ IsLookedAt outcome }
{
    match outcome {
        Outcome::Held | Outcome::Absent | Outcome::Idle | Outcome::Broken => false,
        _ => true,
    }
}

/// Whether there may be more to see after a step than a load: it met a blank cell, or its block is crowded.
#[inline(always)]
pub fn is_suspect(made: &Made) -> bool
    ensures { result ≡ is_suspect made.now }
{
    match made.acted {
        Some(acted) => acted.crowded,
        None => meets_blank(made.outcome),
    }
}

/// Whether a step met a blank cell.
fn meets_blank(outcome: Outcome) -> bool
    ensures { result ≡ is_blank outcome }
{
    match outcome {
        Outcome::Blank => true,
        _ => false,
    }
}

/// The blank cell that the step met.
fn find_blank(world: &World, step: Step, outcome: Outcome) -> Option<Violation>
    ensures { (due : Option ℕ) → AnswersWithin (scene_in world.now.state step outcome due) 0 1 result }
{
    match outcome {
        Outcome::Blank => {
            let at = world.at(step)?;
            Some(Violation::Blank {
                at,
                block: step.block(),
            })
        }
        _ => None,
    }
}

/// The writer of the step's block that isn't alone. It walks over the caches only where there is one.
fn find_shared(world: &World, step: Step) -> Option<Violation>
    ensures { (outcome : Outcome) (due : Option ℕ) → IsLookedAt outcome → AnswersWithin (scene_in world.now.state step outcome due) 1 3 result }
{
    let block = step.block();
    // A writer may read too, so a single reader is the writer.
    let first = crowded_writer(world, block)?;
    if let Some(second) = writer_behind(world, block, first) {
        return Some(Violation::SecondWriter {
            block,
            first,
            second,
        });
    }
    let reader = reader_beside(world, block, first)?;
    Some(Violation::WriterBesideReader {
        block,
        writer: first,
        reader,
    })
}

/// The load by the step that returned another value than this one.
pub fn find_stale(step: Step, outcome: Outcome, due: Option<u64>) -> Option<Violation>
    ensures { (state : State) → AnswersWithin (scene_in state step outcome due) 3 4 result }
{
    match (outcome, due) {
        (
            Outcome::Load {
                cache: _,
                value: got,
            },
            Some(due),
        ) if got != due => Some(Violation::StaleLoad {
            block: step.block(),
            got,
            due,
        }),
        _ => None,
    }
}

/// The least cache that may write a block which more than one may read.
fn crowded_writer(world: &World, block: BlockId) -> Option<CacheId>
    ensures some { IfSome result (λ cache. IsLeastFrom (λ c. Writes world.now.state c block.0) 0 cache.0) }
    ensures none { IfNone result ((readers_of world.now.state block.0 ≤ 1) ⊎ HoldsForNoneFrom (λ c. Writes world.now.state c block.0) 0) }
{
    world.crowded_writer(block)
}

/// The least cache behind one that may write a block.
fn writer_behind(world: &World, block: BlockId, first: CacheId) -> Option<CacheId>
    ensures { MatchOption result
        (HoldsForNoneFrom (λ c. Writes world.now.state c block.0) (first.0 + 1))
        (λ cache. IsLeastFrom (λ c. Writes world.now.state c block.0) (first.0 + 1) cache.0) }
{
    for number in first.0..caches_of(world, block) {
        if number > first.0 && writes(world, CacheId(number), block) {
            return Some(CacheId(number));
        }
    }
    None
}

/// The least cache but one that may read a block.
fn reader_beside(world: &World, block: BlockId, writer: CacheId) -> Option<CacheId>
    ensures { MatchOption result
        (HoldsForNoneFrom (λ c. (c ≢ writer.0) × Reads world.now.state c block.0) 0)
        (λ cache. IsLeastFrom (λ c. (c ≢ writer.0) × Reads world.now.state c block.0) 0 cache.0) }
{
    for number in 0..caches_of(world, block) {
        if number != writer.0 && reads(world, CacheId(number), block) {
            return Some(CacheId(number));
        }
    }
    None
}

/// How many caches there are. From that number on none has a line for the block.
fn caches_of(world: &World, block: BlockId) -> u32
    ensures { (cache : ℕ) → result ≤ cache → line_at world.now.state cache block.0 ≡ None }
{
    let caches = world.shape().caches();
    // There is no line here, so there is none further on.
    let _none = world.line(CacheId(caches), block);
    caches
}

fn writes(world: &World, cache: CacheId, block: BlockId) -> bool
    ensures { IsTrue result ↔ Writes world.now.state cache.0 block.0 }
{
    match world.line(cache, block) {
        Some(line) => may_write(line.state),
        None => false,
    }
}

fn reads(world: &World, cache: CacheId, block: BlockId) -> bool
    ensures { IsTrue result ↔ Reads world.now.state cache.0 block.0 }
{
    match world.line(cache, block) {
        Some(line) => may_read(line.state),
        None => false,
    }
}
