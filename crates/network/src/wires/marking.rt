//! The marks beside messages, and the messages that have none, each by its number among those of its kind.

ghost use Rattle.std.specs.Prelude.{◌≡◌, false, slice_get};
ghost use Rattle.std.specs.Option.{option_map};
ghost use Rattle.network.specs.Marking.{link_marked, requests_marked, responses_marked};
ghost use Rattle.network.specs.Marks.{unmarked, unmarked_count, unmarked_heads, unmarked_heads_count};

use crate::marker::Marker;
use crate::message::{Forward, Request, Response};
use crate::wires::Wires;
use base::CacheId;

impl Wires {
    /// Marks the requests from a place on, each as is told of it.
    pub fn mark_requests<K: Marker<Request>>(&mut self, from: u64, marker: &K)
        ensures { self.new ≡ requests_marked from (K.told marker.now) self.old }
    {
        self.requests.mark(from, marker);
    }

    /// Marks the messages on the link to a cache, each as is told of it.
    #[inline(always)]
    pub fn mark_link<K: Marker<Forward>>(&mut self, cache: CacheId, marker: &K)
        ensures { self.new ≡ link_marked cache.0 (K.told marker.now) self.old }
    {
        self.links.mark(cache, marker);
    }

    /// Takes the marks of all messages on the link to a cache back. Where none is set it looks at no message.
    #[inline(always)]
    pub fn unmark_link(&mut self, cache: CacheId)
        ensures { self.new ≡ link_marked cache.0 (λ forward. false) self.old }
    {
        self.links.unmark(cache);
    }

    /// Marks all responses, each as is told of it.
    pub fn mark_responses<K: Marker<Response>>(&mut self, marker: &K)
        ensures { self.new ≡ responses_marked (K.told marker.now) self.old }
    {
        self.responses.mark(0, marker);
    }

    /// Takes the marks of all requests back. Where none is set it looks at no message.
    pub fn unmark_requests(&mut self)
        ensures { self.new ≡ requests_marked 0 (λ request. false) self.old }
    {
        self.requests.unmark();
    }

    /// Takes the marks of all responses back. Where none is set it looks at no message.
    pub fn unmark_responses(&mut self)
        ensures { self.new ≡ responses_marked (λ response. false) self.old }
    {
        self.responses.unmark();
    }

    /// How many requests have no mark.
    pub fn free_requests(&self) -> u32
        ensures { result ≡ unmarked_count self.now.marks.requests }
    {
        self.requests.free_count()
    }

    /// How many links have a first message without a mark.
    pub fn free_heads(&self) -> u32
        ensures { result ≡ unmarked_heads_count self.now.marks.links }
    {
        self.links.free_heads()
    }

    /// How many responses have no mark.
    pub fn free_responses(&self) -> u32
        ensures { result ≡ unmarked_count self.now.marks.responses }
    {
        self.responses.free_count()
    }

    /// The place of the k-th request without a mark, counted from 0, if there are so many.
    pub fn free_request(&self, k: u32) -> Option<u64>
        ensures { result ≡ slice_get (unmarked 0 self.now.marks.requests) k }
    {
        self.requests.free_place(k)
    }

    /// The cache of the k-th link that has a first message without a mark, counted from 0, if there are so many.
    pub fn free_head(&self, k: u32) -> Option<CacheId>
        ensures { option_map (λ cache. cache.0) result ≡ slice_get (unmarked_heads 0 self.now.marks.links) k }
    {
        self.links.free_head(k)
    }

    /// The place of the k-th response without a mark, counted from 0, if there are so many.
    pub fn free_response(&self, k: u32) -> Option<u64>
        ensures { result ≡ slice_get (unmarked 0 self.now.marks.responses) k }
    {
        self.responses.free_place(k)
    }
}
