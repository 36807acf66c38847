//! The messages that aren't marked, each by its number among those of its kind.

use crate::block::Block;
use base::CacheId;

impl Block {
    ghost use Rattle.std.specs.Prelude.{◌≡◌, slice_get};
    ghost use Rattle.std.specs.Option.{option_map};
    ghost use Rattle.network.specs.Marks.{unmarked, unmarked_heads};

    /// The place of the k-th request that isn't marked, counted from 0, if there are so many.
    pub fn free_request(&self, k: u32) -> Option<u64>
        ensures { result ≡ slice_get (unmarked 0 self.now.marks.requests) k }
    {
        self.wires.free_request(k)
    }

    /// The cache of the k-th head of a link that isn't marked, counted from 0, if there are so many.
    pub fn free_head(&self, k: u32) -> Option<CacheId>
        ensures { option_map (λ cache. cache.0) result ≡ slice_get (unmarked_heads 0 self.now.marks.links) k }
    {
        self.wires.free_head(k)
    }

    /// The place of the k-th response that isn't marked, counted from 0, if there are so many.
    pub fn free_response(&self, k: u32) -> Option<u64>
        ensures { result ≡ slice_get (unmarked 0 self.now.marks.responses) k }
    {
        self.wires.free_response(k)
    }
}
