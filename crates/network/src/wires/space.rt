//! Room for messages that are still to be sent.

ghost use Rattle.std.specs.Prelude.{◌≡◌, ◌<◌, ◌≤◌};
ghost use Rattle.std.specs.Prelude.{length, slice_index, true};
ghost use Rattle.network.specs.Room.{AllBelow, HasPlaces, MakesRoom, times};

use crate::wires::Wires;
use base::{CacheId, NoMemory};

impl Wires {
    /// Room for so many more requests and responses, and on each link for as many messages as it is listed.
    ///
    /// After it so many sends can't fail. Where it is refused no list has changed.
    pub fn reserve(
        &mut self,
        requests: usize,
        links: &[CacheId],
        responses: usize,
    ) -> Result<(), NoMemory>
        requires { AllBelow (length self.old.traffic.links) links.now }
        ensures { MakesRoom (HasPlaces requests links.now responses) result self.old self.new }
    {
        self.reserve_ends(requests, responses)?;
        for link in links {
            self.reserve_link(*link, times_listed(links, *link))?;
        }
        Ok(())
    }

    /// Whether there is room for so many more requests and for so many more responses.
    #[inline(always)]
    pub fn ends_have_room(&self, count: usize) -> bool
        ensures requests { result ≡ true → count ≤ self.now.room.requests }
        ensures responses { result ≡ true → count ≤ self.now.room.responses }
    {
        self.requests.has_room(count) && self.responses.has_room(count)
    }

    /// Room for so many more requests and responses. Where it is refused no list has changed.
    #[inline(always)]
    pub fn reserve_ends(&mut self, requests: usize, responses: usize) -> Result<(), NoMemory>
        ensures { MakesRoom (λ room. (requests ≤ room.requests) × (responses ≤ room.responses)) result self.old self.new }
    {
        self.requests.reserve(requests)?;
        self.responses.reserve(responses)?;
        Ok(())
    }

    /// Room for so many more messages on the link to a cache. Where it is refused no list has changed.
    #[inline(always)]
    pub fn reserve_link(&mut self, cache: CacheId, count: usize) -> Result<(), NoMemory>
        requires { cache.0 < length self.old.traffic.links }
        ensures { MakesRoom (λ room. count ≤ slice_index room.links cache.0) result self.old self.new }
    {
        self.links.reserve(cache, count)
    }
}

/// How often a cache is listed.
fn times_listed(links: &[CacheId], cache: CacheId) -> usize
    ensures count { result ≡ times cache.0 links.now }
    ensures few { result ≤ length links.now }
{
    let mut count: usize = 0;
    for link in links {
        if *link == cache {
            count += 1;
        }
    }
    count
}
