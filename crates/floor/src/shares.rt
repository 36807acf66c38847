//! How many of each block's deliveries are ready for each seat: so a draw lists nothing, and a step counts one block again.

ghost use Rattle.std.specs.Prelude.{◌≡◌, ◌+◌, ◌<◌, ◌^◌, [], ℕ, IfNone, IfOk, IfSome, IsSome, None};
ghost use Rattle.std.specs.Prelude.{length, slice_get, slice_index};
ghost use Rattle.floor.specs.Opening.{IsSeatCount};
ghost use Rattle.floor.specs.inner.Sharing.{AreOfBlocks, AreOfNone, AreRecounted, AreShared, AreTallied, IsDrawn, ready_in, ready_of_block};

use crate::belonging::{is_of, owner};
use base::{BlockId, NoMemory, Step};
use std::alloc::Global;
use trials::{Setup, setups_are_lawful};
use world::{Counts, DeliveryKind, World};

/// How many of a block's deliveries belong to each seat. Those whose controller isn't there belong to all.
#[derive(Clone, Copy)]
struct SeatTally {
    each: [u32; 64],
    all: u32,
}

impl SeatTally {
    ghost use Rattle.std.specs.Prelude.{◌≡◌, ◌+◌, ◌<◌, ◌^◌, ◌-◌, IfNone, IfSome, slice_index};
    ghost use Rattle.floor.specs.inner.Sharing.{HasOneMore};

    /// How many belong to a seat.
    fn of(&self, seat: usize) -> u32
        requires within { seat < 64 }
        requires few { slice_index self.now.each seat + self.now.all < 2 ^ 32 }
        ensures { result ≡ slice_index self.now.each seat + self.now.all }
    {
        self.each[seat] + self.all
    }

    /// One more belongs to this seat, or to all.
    fn note(&mut self, owner: Option<u32>)
        requires within { IfSome owner (λ seat. seat < 64) }
        requires room { IfSome owner (λ seat. slice_index self.old.each seat < 2 ^ 32 - 1) }
        requires room_for_all { self.old.all < 2 ^ 32 - 1 }
        ensures some { IfSome owner (HasOneMore self.old.each self.new.each) }
        ensures some_all { IfSome owner (λ seat. self.new.all ≡ self.old.all) }
        ensures none { IfNone owner (self.new.each ≡ self.old.each) }
        ensures none_all { IfNone owner (self.new.all ≡ self.old.all + 1) }
    {
        match owner {
            Some(seat) => self.each[seat as usize] += 1,
            None => self.all += 1,
        }
    }
}

/// For each of so many seats the counts of a setup's blocks, in which nothing is counted.
pub(crate) fn open_shares(alloc: Global, setup: &Setup, seats: u32) -> Result<Vec<Counts>, NoMemory>
    ensures count { IfOk result (λ shares. length shares.items ≡ seats) }
    ensures none { IfOk result (λ shares. AreOfNone (length setup.now.opening) shares.items) }
{
    setups_are_lawful(setup);
    let blocks = setup.shape().blocks();
    let mut shares = Vec::with_capacity(alloc, seats as usize)?;
    for _ in 0..seats {
        let counts = Counts::open(alloc, blocks)?;
        shares.push(counts)?;
    }
    Ok(shares)
}

/// How many deliveries of a kind of a block belong to each seat.
fn tally_of(world: &World, seats: u32, kind: DeliveryKind, block: BlockId) -> SeatTally
    requires { IsSeatCount seats }
    ensures each { AreTallied seats world.now kind block result.each result.all }
    ensures few { (seat : ℕ) → seat < seats → slice_index result.each seat + result.all < 2 ^ 32 }
{
    let mut tally = SeatTally {
        each: [0; 64],
        all: 0,
    };
    for k in 0..world.enabled_count_of(kind, block) {
        let Some(step) = world.enabled_of(kind, block, k) else {
            unreachable!();
        };
        tally.note(owner(world, seats, step));
    }
    tally
}

/// Counts again how many of a block's deliveries are ready for each seat, if the block is there.
pub(crate) fn recount(shares: &mut Vec<Counts>, world: &World, seats: u32, block: BlockId)
    requires size { IsSeatCount seats }
    requires count { length shares.old.items ≡ seats }
    requires level { AreOfBlocks (length world.now.state.blocks) shares.old.items }
    ensures there { IsSome (slice_get world.now.state.blocks block.0) → AreRecounted seats world.now block shares.old.items shares.new.items }
    ensures absent { slice_get world.now.state.blocks block.0 ≡ None → shares.new.items ≡ shares.old.items }
{
    if world.latest(block).is_none() {
        return;
    }
    let requests = tally_of(world, seats, DeliveryKind::Request, block);
    let heads = tally_of(world, seats, DeliveryKind::Head, block);
    let responses = tally_of(world, seats, DeliveryKind::Response, block);
    for seat in 0..seats as usize {
        shares[seat].set(
            block.0,
            requests.of(seat),
            heads.of(seat),
            responses.of(seat),
        );
    }
}

/// The step that a word draws among the deliveries that are ready for a seat, if there are any.
pub(crate) fn draw(
    shares: &[Counts],
    world: &World,
    seats: u32,
    seat: u32,
    word: u32,
) -> Option<Step>
    requires within { seat < seats }
    requires shared { AreShared seats world.now shares.now }
    ensures none { IfNone result (ready_in seats world.now seat ≡ []) }
    ensures some { IfSome result (IsDrawn (ready_in seats world.now seat) word) }
{
    if world.broken() {
        return None;
    }
    let counts = &shares[seat as usize];
    let total = counts.total();
    if total == 0 {
        return None;
    }
    let Some(spot) = counts.find(u64::from(word) % total) else {
        unreachable!();
    };
    nth_of(
        world,
        seats,
        seat,
        spot.kind,
        BlockId(spot.block),
        spot.rest,
    )
}

/// The n-th, counted from 0, of a block's deliveries of a kind that belong to a seat, if there are so many.
fn nth_of(
    world: &World,
    seats: u32,
    seat: u32,
    kind: DeliveryKind,
    block: BlockId,
    n: u32,
) -> Option<Step>
    requires { 0 < seats }
    ensures { result ≡ slice_get (ready_of_block seats world.now seat kind block) n }
{
    let mut left = n;
    for k in 0..world.enabled_count_of(kind, block) {
        let Some(step) = world.enabled_of(kind, block, k) else {
            unreachable!();
        };
        if !is_of(world, seats, seat, step) {
            continue;
        }
        if left == 0 {
            return Some(step);
        }
        left -= 1;
    }
    None
}
