ghost use Rattle.std.specs.Prelude.{◌≡◌, ◌<◌, ◌≤◌, ◌^◌, IfNone, IfOk, IfSome, length, slice_index_or, slice_set};
ghost use Rattle.world.specs.inner.Counts.{FallsAt, all_in, none_counted, row_of_kind, with_counts};

use base::NoMemory;
use rows::{KthPlace, Sums};
use std::alloc::Global;
use std::marker::Model;

/// For each block how many deliveries of each kind it has, of those that are counted: a world counts those that wouldn't be held.
#[derive(Drop)]
pub struct Counts {
    requests: Sums,
    heads: Sums,
    responses: Sums,
}

/// The kinds of delivery.
#[derive(Clone, Copy)]
pub enum DeliveryKind {
    /// A request, served by its block's home.
    Request,
    /// The first message of a link, served by the link's cache.
    Head,
    /// A response, served by whom it is for.
    Response,
}

/// Where one of all the deliveries that are counted is.
#[derive(Clone, Copy)]
pub struct Spot {
    pub kind: DeliveryKind,
    /// The number of its block.
    pub block: u32,
    /// How many of this kind the block has before it.
    pub rest: u32,
}

impl Model for Counts {
    ghost use Rattle.world.specs.inner.Counts.{AreLevel, Rows};

    ghost Value = { Rows };

    ghost view = { λ c. record { requests = c.requests; heads = c.heads; responses = c.responses } };

    ghost invariant = { λ c. AreLevel (record { requests = c.requests; heads = c.heads; responses = c.responses }) };
}

impl Counts {
    /// Counts of so many blocks, of which none has anything to deliver.
    pub fn open(alloc: Global, blocks: u32) -> Result<Counts, NoMemory>
        requires { blocks ≤ 65536 }
        ensures { IfOk result (λ counts. counts ≡ none_counted blocks) }
    {
        let requests = Sums::open(alloc, blocks)?;
        let heads = Sums::open(alloc, blocks)?;
        let responses = Sums::open(alloc, blocks)?;
        Ok(Counts {
            requests,
            heads,
            responses,
        })
    }

    /// No block has anything to deliver from now on.
    pub fn clear(&mut self)
        ensures { self.new ≡ none_counted (length self.old.requests) }
    {
        self.requests.clear();
        self.heads.clear();
        self.responses.clear();
    }

    /// The same counts again.
    pub fn try_clone(&self, alloc: Global) -> Result<Counts, NoMemory>
        ensures { IfOk result (λ counts. counts ≡ self.now) }
    {
        let requests = self.requests.try_clone(alloc)?;
        let heads = self.heads.try_clone(alloc)?;
        let responses = self.responses.try_clone(alloc)?;
        Ok(Counts {
            requests,
            heads,
            responses,
        })
    }

    /// Makes the counts of a block others.
    #[inline(always)]
    pub fn set(&mut self, number: u32, requests: u32, heads: u32, responses: u32)
        requires { number < length self.old.requests }
        ensures { self.new ≡ with_counts number requests heads responses self.old }
    {
        let at = number as usize;
        change(&mut self.requests, at, requests);
        change(&mut self.heads, at, heads);
        change(&mut self.responses, at, responses);
    }

    /// How many of a kind a block has. Where the block isn't there it is 0.
    pub fn of_block(&self, kind: DeliveryKind, number: u32) -> u32
        ensures { result ≡ slice_index_or (row_of_kind self.now kind) number 0 }
    {
        let row = match kind {
            DeliveryKind::Request => &self.requests,
            DeliveryKind::Head => &self.heads,
            DeliveryKind::Response => &self.responses,
        };
        let at = number as usize;
        if at >= row.len() {
            return 0;
        }
        row.get(at)
    }

    /// How many there are of all kinds in all blocks.
    pub fn total(&self) -> u64
        ensures total { result ≡ all_in self.now }
        ensures few { all_in self.now < 2 ^ 50 }
    {
        self.requests.total() + self.heads.total() + self.responses.total()
    }

    /// Where the k-th of all is, counted from 0, if there are so many: requests come first, then heads, then responses, each
    /// of them block by block.
    #[inline(always)]
    pub fn find(&self, k: u64) -> Option<Spot>
        ensures some { IfSome result (λ spot. FallsAt self.now k spot) }
        ensures none { IfNone result (all_in self.now ≤ k) }
    {
        let mut left = k;
        let requests = self.requests.total();
        if left < requests {
            return Some(spot_of(DeliveryKind::Request, self.requests.find(left)));
        }
        left -= requests;
        let heads = self.heads.total();
        if left < heads {
            return Some(spot_of(DeliveryKind::Head, self.heads.find(left)));
        }
        left -= heads;
        if left < self.responses.total() {
            return Some(spot_of(DeliveryKind::Response, self.responses.find(left)));
        }
        None
    }
}

/// What was found in the row of a kind.
fn spot_of(kind: DeliveryKind, found: KthPlace) -> Spot
    requires { found.place < 2 ^ 32 }
    ensures { result ≡ record { kind = kind; block = found.place; rest = found.rest } }
{
    Spot {
        kind,
        block: found.place as u32,
        rest: found.rest,
    }
}

/// Makes the number at a place another, where it isn't the same: most steps leave most counts.
#[inline(always)]
fn change(row: &mut Sums, at: usize, value: u32)
    requires { at < length row.old }
    ensures { row.new ≡ slice_set row.old at value }
{
    if row.get(at) != value {
        row.set(at, value);
    }
}
