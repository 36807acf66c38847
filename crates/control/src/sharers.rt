ghost use Rattle.std.specs.Prelude.{◌≡◌, ◌<◌, IfNone, IfOk, IfSome, length, replicate, slice_set, true, false};
ghost use Rattle.control.specs.Sharing.{shares, others_from, is_sole};
ghost use Rattle.rows.specs.Flags.{IsFirstFrom, NoneFrom};

use base::{CacheId, NoMemory};
use rows::Bits;
use std::alloc::Global;
use std::marker::Model;

/// The caches that share a block, as a flag for each cache.
#[derive(Drop)]
pub struct Sharers {
    flags: Bits,
}

impl Model for Sharers {
    ghost use Rattle.std.specs.Prelude.{List, Bool};

    ghost Value = { List Bool };

    ghost view = { λ s. s.flags };
}

impl Sharers {
    /// No sharers, of so many caches.
    pub fn open(alloc: Global, caches: u32) -> Result<Sharers, NoMemory>
        ensures { IfOk result (λ sharers. sharers ≡ replicate caches false) }
    {
        let flags = Bits::open(alloc, caches)?;
        Ok(Sharers { flags })
    }

    /// The same sharers again.
    pub fn try_clone(&self, alloc: Global) -> Result<Sharers, NoMemory>
        ensures { IfOk result (λ sharers. sharers ≡ self.now) }
    {
        let flags = self.flags.try_clone(alloc)?;
        Ok(Sharers { flags })
    }

    pub fn add(&mut self, cache: CacheId)
        requires { cache.0 < length self.old }
        ensures { self.new ≡ slice_set self.old cache.0 true }
    {
        self.flags.set(cache.0, true);
    }

    pub fn remove(&mut self, cache: CacheId)
        requires { cache.0 < length self.old }
        ensures { self.new ≡ slice_set self.old cache.0 false }
    {
        self.flags.set(cache.0, false);
    }

    pub fn clear(&mut self)
        ensures { self.new ≡ replicate (length self.old) false }
    {
        self.flags.clear();
    }

    /// Whether a cache is among the sharers.
    pub fn contains(&self, cache: CacheId) -> bool
        ensures { result ≡ shares self.now cache.0 }
    {
        self.flags.contains(cache.0)
    }

    /// How many caches there are.
    pub fn caches(&self) -> u32
        ensures { result ≡ length self.now }
    {
        self.flags.places()
    }

    /// The least sharer from a number on, if there is one.
    pub fn next(&self, from: u32) -> Option<CacheId>
        ensures some { IfSome result (λ cache. IsFirstFrom self.now from cache.0) }
        ensures none { IfNone result (NoneFrom self.now from) }
    {
        match self.flags.next_from(from) {
            Some(number) => Some(CacheId(number)),
            None => None,
        }
    }

    /// How many sharers there are besides a cache.
    pub fn others(&self, cache: CacheId) -> u32
        ensures { result ≡ others_from 0 cache.0 self.now }
    {
        let sharers = self.flags.ones();
        if self.contains(cache) {
            sharers - 1
        } else {
            sharers
        }
    }

    /// Whether a cache is the only sharer.
    pub fn is_only(&self, cache: CacheId) -> bool
        ensures { result ≡ is_sole cache.0 self.now }
    {
        self.contains(cache) && self.others(cache) == 0
    }
}
