ghost use Rattle.std.specs.Prelude.{◌≡◌, ◌<◌, IfOk, IfSome, IsOk, IsSome, None, OnErr, OnOk, Some, false, length, slice_set};
ghost use Rattle.machine.specs.Transition.{decision_of};
ghost use Rattle.blocks.specs.View.{acts};
ghost use Rattle.world.specs.inner.AtBlock.{ForeseesAt, GetsReady, HasStayed, HasStepped, IsTouched, NeedsNoMemoryAt, Touches, Visits};
ghost use Rattle.world.specs.inner.Holding.{kept_at, state_at};
ghost use Rattle.world.specs.inner.Tests.{IsMarked};
ghost use Rattle.blocks.specs.Marking.{marks_of};
ghost use Rattle.blocks.specs.Steps.{Stays, BlockNeedsNoMemory};

use base::{NoMemory, Outcome, Step};
use blocks::{Block, Controllers, Tested, decide_opened};
use machine::{Decision, Made};
use rows::Sparse;
use std::alloc::Global;
use tables::Tables;

/// What a step came to at its block.
#[derive(Clone, Copy)]
pub struct Visit {
    pub made: Made,
    /// What a test of the block's messages finds behind it, where a cell acted.
    pub tested: Option<Tested>,
}

/// Keeps a block that a step acts at, or answers the outcome of a step that no cell acts on there.
///
/// A block that is kept already stays as it is.
#[inline(always)]
fn touch(
    alloc: Global,
    blocks: &mut Sparse<Block>,
    caches: u32,
    value: u64,
    number: u32,
    tables: &Tables,
    step: Step,
) -> Result<Option<Outcome>, NoMemory>
    requires { number < length blocks.old.items }
    ensures touches { Touches tables.now caches value number step blocks.old.items blocks.new.items }
    ensures ok { IfOk result (λ done. IsTouched tables.now caches value number step blocks.old.items done blocks.new.items) }
    ensures opened { IfOk result (λ done. IfSome done (λ what. kept_at blocks.old.items number ≡ None)) }
    ensures stays { IsSome (kept_at blocks.old.items number) → kept_at blocks.new.items number ≡ kept_at blocks.old.items number }
    ensures there { IsSome (kept_at blocks.old.items number) → IsOk result }
    ensures succeeds { acts (decision_of tables.now step (state_at caches value blocks.old.items number)) ≡ false → IsOk result }
{
    // Looked up as the step does behind it, the block is found once for both.
    if let Some(_) = blocks.get_mut(number) {
        return Ok(None);
    }
    touch_opened(alloc, blocks, caches, value, number, tables, step)
}

/// Does so with a block that isn't kept. It stands apart, as few steps come here.
#[cold]
#[inline(never)]
fn touch_opened(
    alloc: Global,
    blocks: &mut Sparse<Block>,
    caches: u32,
    value: u64,
    number: u32,
    tables: &Tables,
    step: Step,
) -> Result<Option<Outcome>, NoMemory>
    requires below { number < length blocks.old.items }
    requires none { kept_at blocks.old.items number ≡ None }
    ensures touches { Touches tables.now caches value number step blocks.old.items blocks.new.items }
    ensures ok { IfOk result (λ done. IsTouched tables.now caches value number step blocks.old.items done blocks.new.items) }
    ensures succeeds { acts (decision_of tables.now step (state_at caches value blocks.old.items number)) ≡ false → IsOk result }
{
    let decision = decide_opened(tables, caches, step);
    if let Decision::Refused(outcome) = decision {
        return Ok(Some(outcome));
    }
    let block = Block::open(alloc, caches, value)?;
    keep(blocks, number, block)?;
    Ok(None)
}

/// Puts an item at a place. Where memory is refused nothing has changed.
fn keep<T: Drop>(row: &mut Sparse<T>, number: u32, item: T) -> Result<(), NoMemory>
    requires { number < length row.old.items }
    ensures ok { OnOk result (row.new.items ≡ slice_set row.old.items number (Some item)) }
    ensures err { OnErr result (row.new.items ≡ row.old.items) }
{
    match row.put(number, item) {
        Ok(()) => Ok(()),
        Err(_) => Err(NoMemory),
    }
}

/// Makes a step at one of the blocks.
// (It hands on nine words and a long result, and has one caller.)
#[inline(always)]
pub fn step_at(
    alloc: Global,
    blocks: &mut Sparse<Block>,
    caches: u32,
    value: u64,
    number: u32,
    controllers: &Controllers,
    step: Step,
) -> Result<Visit, NoMemory>
    requires below { number < length blocks.old.items }
    requires marked { IsMarked controllers.now (kept_at blocks.old.items number) }
    ensures ok { IfOk result (λ visit. HasStepped controllers.now caches value number step blocks.old.items visit blocks.new.items) }
    ensures err { OnErr result (HasStayed controllers.now caches value number step blocks.old.items blocks.new.items) }
    ensures succeeds { NeedsNoMemoryAt controllers.now caches value number step blocks.old.items → IsOk result }
{
    if let Some(block) = blocks.get_mut(number) {
        return made_at(block, controllers, &step);
    }
    open_at(alloc, blocks, caches, value, number, controllers, step)
}

/// Makes a step at a block that isn't kept. It is the call of what stands apart, taken apart (docs/PERFORMANCE.md, "Seldom calls").
#[inline(always)]
fn open_at(
    alloc: Global,
    blocks: &mut Sparse<Block>,
    caches: u32,
    value: u64,
    number: u32,
    controllers: &Controllers,
    step: Step,
) -> Result<Visit, NoMemory>
    requires below { number < length blocks.old.items }
    requires none { kept_at blocks.old.items number ≡ None }
    ensures ok { IfOk result (λ visit. HasStepped controllers.now caches value number step blocks.old.items visit blocks.new.items) }
    ensures err { OnErr result (HasStayed controllers.now caches value number step blocks.old.items blocks.new.items) }
    ensures succeeds { NeedsNoMemoryAt controllers.now caches value number step blocks.old.items → IsOk result }
{
    let first = first_step_at(alloc, blocks, caches, value, number, controllers, &step)?;
    Ok(first)
}

/// The same. It stands apart, as few steps come here.
#[cold]
#[inline(never)]
fn first_step_at(
    alloc: Global,
    blocks: &mut Sparse<Block>,
    caches: u32,
    value: u64,
    number: u32,
    controllers: &Controllers,
    step: &Step,
) -> Result<Visit, NoMemory>
    requires below { number < length blocks.old.items }
    requires none { kept_at blocks.old.items number ≡ None }
    ensures ok { IfOk result (λ visit. HasStepped controllers.now caches value number step.now blocks.old.items visit blocks.new.items) }
    ensures err { OnErr result (HasStayed controllers.now caches value number step.now blocks.old.items blocks.new.items) }
    ensures succeeds { NeedsNoMemoryAt controllers.now caches value number step.now blocks.old.items → IsOk result }
{
    if let Some(outcome) = touch_opened(
        alloc,
        blocks,
        caches,
        value,
        number,
        controllers.tables(),
        *step,
    )? {
        return Ok(Visit {
            made: Made::refused(outcome),
            tested: None,
        });
    }
    let Some(block) = blocks.get_mut(number) else {
        unreachable!();
    };
    made_at(block, controllers, step)
}

/// Makes a step at this block.
#[inline(always)]
fn made_at(block: &mut Block, controllers: &Controllers, step: &Step) -> Result<Visit, NoMemory>
    requires { block.old.marks ≡ marks_of controllers.now block.old.state }
    ensures ok { IfOk result (λ visit. Visits controllers.now block.old step.now visit block.new) }
    ensures err { OnErr result (Stays controllers.now block.old block.new) }
    ensures succeeds { BlockNeedsNoMemory (decision_of controllers.now step.now block.old.state) block.old.state block.old.space → IsOk result }
{
    let made = block.make(controllers, step)?;
    if made.acted.is_none() {
        return Ok(Visit { made, tested: None });
    }
    let tested = Some(block.tested());
    Ok(Visit { made, tested })
}

/// Makes the room that a step at one of the blocks wants.
pub fn ready_at(
    alloc: Global,
    blocks: &mut Sparse<Block>,
    caches: u32,
    value: u64,
    number: u32,
    tables: &Tables,
    step: Step,
) -> Result<Outcome, NoMemory>
    requires { number < length blocks.old.items }
    ensures ok { IfOk result (λ what. ForeseesAt tables.now caches value number step blocks.old.items what blocks.new.items) }
    ensures kept { GetsReady tables.now caches value number step blocks.old.items blocks.new.items }
    ensures succeeds { NeedsNoMemoryAt tables.now caches value number step blocks.old.items → IsOk result }
{
    if let Some(outcome) = touch(alloc, blocks, caches, value, number, tables, step)? {
        return Ok(outcome);
    }
    let Some(block) = blocks.get_mut(number) else {
        unreachable!();
    };
    block.ready(tables, step)
}
