ghost use Rattle.std.specs.Prelude.{◌≡◌, ◌+◌, ◌*◌, ◌-◌, ◌^◌, ◌<◌, ◌≤◌, ◌↔◌, [], IsSome, IfOk, OnOk, IfNone, IfSome};
ghost use Rattle.std.specs.Prelude.{false, length, map, remove, replicate};
ghost use Rattle.std.specs.Prelude.{slice_get, slice_index_or, slice_set};
ghost use Rattle.std.specs.List.{sum_by};
ghost use Rattle.network.specs.Traffic.{all_nil};
ghost use Rattle.network.specs.inner.Links.{IsLinkRemarked, KeepsRoom, MakesRoomOnLink, SendsOnLink, free_of, linked_of, messages_in, on_link, waiting_of};
ghost use Rattle.rows.specs.Flags.{IsFirstFrom, IsKth, NoneFrom, is_set, set_count};

use crate::marker::Marker;
use crate::message::Forward;
use crate::wire::Wire;
use base::{CacheId, NoMemory};
use rows::{Bits, Sparse, TryClone};
use std::alloc::Global;
use std::marker::Model;

/// The links from a block's home to the caches, one for each. Those that were never used take no more than two bits.
#[derive(Drop)]
pub struct Links {
    alloc: Global,
    links: Sparse<Wire<Forward>>,
    // For each link whether it has a message.
    waiting: Bits,
    // For each link whether it has a first message that isn't marked.
    free: Bits,
    // How many messages there are on all links.
    count: u64,
}

impl Model for Links {
    ghost use Rattle.std.specs.Prelude.{map};
    ghost use Rattle.network.specs.inner.Links.{AreLinked, Linked, linked_of, on_link};

    ghost Value = { Linked };

    ghost view = { λ l. linked_of l.links.items };

    ghost invariant = { λ l. AreLinked (map on_link l.links.items) l.waiting l.free l.count };
}

impl Links {
    pub fn open(alloc: Global, caches: u32) -> Result<Links, NoMemory>
        ensures { IfOk result (λ links. links.sent ≡ replicate caches []) }
    {
        let waiting = Bits::open(alloc, caches)?;
        let free = Bits::open(alloc, caches)?;
        Ok(Links {
            alloc,
            links: Sparse::open(alloc, caches),
            waiting,
            free,
            count: 0,
        })
    }

    pub fn try_clone(&self, alloc: Global) -> Result<Links, NoMemory>
        ensures { IfOk result (λ links. links.sent ≡ self.now.sent) }
    {
        let links = self.links.try_clone(alloc)?;
        let waiting = self.waiting.try_clone(alloc)?;
        let free = self.free.try_clone(alloc)?;
        Ok(Links {
            alloc,
            links,
            waiting,
            free,
            count: self.count,
        })
    }

    /// Takes all messages off all links. Where there are none the links keep their memory.
    pub fn clear(&mut self)
        ensures { self.new.sent ≡ replicate (length self.old.sent) [] }
    {
        if self.count == 0 {
            return;
        }
        self.links.clear();
        self.waiting.clear();
        self.free.clear();
        self.count = 0;
    }

    /// How many links there are.
    pub fn len(&self) -> u32
        ensures { result ≡ length self.now.sent }
    {
        self.links.places()
    }

    /// How many messages there are on all links.
    pub fn message_count(&self) -> u64
        ensures count { result ≡ sum_by length self.now.sent }
        ensures few { result ≤ (2 ^ 32 - 1) * (2 ^ 32 - 1) }
    {
        // A `u32` counts the links.
        let _links = self.links.places();
        self.count
    }

    /// The least cache from one on whose link has a message, if there is one.
    #[inline(always)]
    pub fn next_waiting(&self, from: u32) -> Option<CacheId>
        ensures some { IfSome result (λ cache. IsFirstFrom (waiting_of self.now.sent) from cache.0) }
        ensures none { IfNone result (NoneFrom (waiting_of self.now.sent) from) }
    {
        match self.waiting.next_from(from) {
            Some(number) => Some(CacheId(number)),
            None => None,
        }
    }

    /// Whether there is a message on a link. It looks at a bit, and not for the link.
    #[inline(always)]
    pub fn is_waiting(&self, cache: CacheId) -> bool
        ensures { result ≡ is_set (waiting_of self.now.sent) cache.0 }
    {
        self.waiting.contains(cache.0)
    }

    /// How many links have a first message that isn't marked.
    pub fn free_heads(&self) -> u32
        ensures { result ≡ set_count (free_of self.now.sent) }
    {
        self.free.ones()
    }

    /// The k-th cache whose link has a first message that isn't marked, counted from 0, if there are so many.
    pub fn free_head(&self, k: u32) -> Option<CacheId>
        ensures place { IfSome result (λ cache. IsKth (free_of self.now.sent) k cache.0) }
        ensures found { IsSome result ↔ (k < set_count (free_of self.now.sent)) }
    {
        match self.free.find(k) {
            Some(number) => Some(CacheId(number)),
            None => None,
        }
    }

    #[inline(always)]
    pub fn get(&self, cache: CacheId, index: u64) -> Option<Forward>
        ensures { result ≡ slice_get (messages_in (slice_index_or self.now.sent cache.0 [])) index }
    {
        self.links.get(cache.0)?.get(index)
    }

    /// Takes the marks of all messages on a link back. Where none is set it looks at no message.
    #[inline(always)]
    pub fn unmark(&mut self, cache: CacheId)
        ensures { IsLinkRemarked cache.0 (λ forward. false) self.old self.new }
    {
        if !self.waiting.contains(cache.0) {
            return;
        }
        if let Some(link) = self.links.get_mut(cache.0) {
            link.unmark();
            self.free.set(cache.0, link.has_free_head());
        }
    }

    /// Marks the messages on a link, each as is told of it.
    #[inline(always)]
    pub fn mark<K: Marker<Forward>>(&mut self, cache: CacheId, marker: &K)
        ensures { IsLinkRemarked cache.0 (K.told marker.now) self.old self.new }
    {
        if !self.waiting.contains(cache.0) {
            return;
        }
        if let Some(link) = self.links.get_mut(cache.0) {
            link.mark(0, marker);
            self.free.set(cache.0, link.has_free_head());
        }
    }

    #[inline(always)]
    pub fn send(&mut self, cache: CacheId, forward: Forward) -> Result<(), Forward>
        requires { cache.0 < length self.old.sent }
        ensures { SendsOnLink cache.0 forward result self.old self.new }
    {
        // A `u32` counts the links.
        let _links = self.links.places();
        send_on(self.alloc, &mut self.links, cache, forward)?;
        self.count += 1;
        if !self.waiting.contains(cache.0) {
            self.waiting.set(cache.0, true);
            self.free.set(cache.0, true);
        }
        Ok(())
    }

    #[inline(always)]
    pub fn take_head(&mut self, cache: CacheId) -> Option<Forward>
        ensures taken { result ≡ slice_get (messages_in (slice_index_or self.old.sent cache.0 [])) 0 }
        ensures left { self.new.sent ≡ slice_set self.old.sent cache.0 (remove (slice_index_or self.old.sent cache.0 []) 0) }
        ensures room { KeepsRoom self.old.room self.new.room }
    {
        let link = self.links.get_mut(cache.0)?;
        let forward = link.take(0)?;
        self.count -= 1;
        self.waiting.set(cache.0, link.len() != 0);
        self.free.set(cache.0, link.has_free_head());
        Some(forward)
    }

    /// Room for so many more messages on a link.
    #[inline(always)]
    pub fn reserve(&mut self, cache: CacheId, count: usize) -> Result<(), NoMemory>
        requires { cache.0 < length self.old.sent }
        ensures { MakesRoomOnLink cache.0 count result self.old self.new }
    {
        if count == 0 {
            return Ok(());
        }
        if let Some(link) = self.links.get_mut(cache.0) {
            link.reserve(count)?;
            return Ok(());
        }
        let link = Wire::with_room(self.alloc, count)?;
        match self.links.put(cache.0, link) {
            Ok(()) => Ok(()),
            Err(_) => Err(NoMemory),
        }
    }
}

/// Puts a message at the end of a link, or gives it back where there is no memory for it.
fn send_on(
    alloc: Global,
    links: &mut Sparse<Wire<Forward>>,
    cache: CacheId,
    forward: Forward,
) -> Result<(), Forward>
    requires { cache.0 < length links.old.items }
    ensures sent { SendsOnLink cache.0 forward result (linked_of links.old.items) (linked_of links.new.items) }
    ensures short { OnOk result (length (slice_index_or (map on_link links.new.items) cache.0 []) < 2 ^ 32) }
{
    if let Some(link) = links.get_mut(cache.0) {
        link.send(forward)?;
        // A `u32` counts the messages.
        let _count = link.len();
        return Ok(());
    }
    let mut link = Wire::open(alloc);
    link.send(forward)?;
    match links.put(cache.0, link) {
        Ok(()) => Ok(()),
        Err(_) => Err(forward),
    }
}
