/// The number of a cache, counted from 0. The core beside a cache has the same number.
#[derive(Clone, Copy, Debug, PartialEq, Eq)]
pub struct CacheId(pub u32);

/// The number of a block of memory, counted from 0.
#[derive(Clone, Copy, Debug, PartialEq, Eq)]
pub struct BlockId(pub u32);

/// One end of a response: the directory, which is the home of every block, or a cache.
#[derive(Clone, Copy, Debug, PartialEq, Eq)]
pub enum Place {
    Dir,
    Cache(CacheId),
}
