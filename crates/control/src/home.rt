ghost use Rattle.std.specs.Prelude.{◌≡◌, IfOk, length};
ghost use Rattle.control.specs.Homes.{opened_home, IsAmong};

use crate::sharers::Sharers;
use base::{CacheId, NoMemory};
use directory_table::DirectoryState;
use network::Request;
use std::alloc::Global;

/// A block at the directory.
#[derive(Drop)]
pub struct Home {
    pub state: DirectoryState,
    pub owner: Option<CacheId>,
    pub sharers: Sharers,
    /// The block's value in memory.
    pub memory: u64,
}

/// What is put to a home: a request, or the value of a Data.
#[derive(Clone, Copy, Debug)]
pub enum HomeInput {
    Request(Request),
    Data(u64),
}

impl Home {
    /// A home that nothing has happened to, with this value in memory and room for so many sharers.
    pub fn open(alloc: Global, caches: u32, memory: u64) -> Result<Home, NoMemory>
        ensures home { IfOk result (λ home. home ≡ opened_home caches memory) }
        ensures among { IfOk result (IsAmong caches) }
    {
        let sharers = Sharers::open(alloc, caches)?;
        Ok(Home {
            state: DirectoryState::I,
            owner: None,
            sharers,
            memory,
        })
    }

    /// Whatever happened to the home, it is one that nothing has happened to from now on, with this value in memory.
    pub fn reset(&mut self, memory: u64)
        ensures { self.new ≡ opened_home (length self.old.sharers) memory }
    {
        self.state = DirectoryState::I;
        self.owner = None;
        self.sharers.clear();
        self.memory = memory;
    }

    /// The same home again.
    pub fn try_clone(&self, alloc: Global) -> Result<Home, NoMemory>
        ensures { IfOk result (λ home. home ≡ self.now) }
    {
        let sharers = self.sharers.try_clone(alloc)?;
        Ok(Home {
            state: self.state,
            owner: self.owner,
            sharers,
            memory: self.memory,
        })
    }
}
