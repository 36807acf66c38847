ghost use Rattle.std.specs.Prelude.{◌≡◌, ◌+◌, slice_get};
ghost use Rattle.control.specs.LineEffect.{is_reader, is_writer};
ghost use Rattle.network.specs.Room.{one_if};
ghost use Rattle.blocks.specs.inner.Access.{CanRecount, lesser, writer_on};
ghost use Rattle.blocks.specs.inner.Lined.{lines_of};
ghost use Rattle.blocks.specs.Looks.{writer_in};

use base::CacheId;
use cache_table::CacheState;
use control::{Line, may_read, may_write};
use rows::Sparse;

/// How many caches may read a block, and how many may write it.
#[derive(Clone, Copy)]
pub struct Access {
    pub readers: u32,
    pub writers: u32,
}

impl Access {
    /// That of a block that no cache may read.
    pub fn none() -> Access
        ensures { result ≡ record { readers = 0; writers = 0 } }
    {
        Access {
            readers: 0,
            writers: 0,
        }
    }

    /// Counts a line anew that went from one state to another.
    #[inline(always)]
    pub fn follow(&mut self, before: CacheState, after: CacheState)
        requires readers { CanRecount self.old.readers (is_reader before) (is_reader after) }
        requires writers { CanRecount self.old.writers (is_writer before) (is_writer after) }
        ensures readers { self.new.readers + one_if (is_reader before) ≡ self.old.readers + one_if (is_reader after) }
        ensures writers { self.new.writers + one_if (is_writer before) ≡ self.old.writers + one_if (is_writer after) }
    {
        self.readers = recount(self.readers, may_read(before), may_read(after));
        self.writers = recount(self.writers, may_write(before), may_write(after));
    }
}

/// The count once a line changed: whether it was counted before, and whether it is after.
#[inline(always)]
fn recount(count: u32, before: bool, after: bool) -> u32
    requires { CanRecount count before after }
    ensures { result + one_if before ≡ count + one_if after }
{
    count - u32::from(before) + u32::from(after)
}

/// The least cache whose line may write. None may whose line isn't kept.
pub fn least_writer(lines: &Sparse<Line>) -> Option<CacheId>
    ensures { result ≡ writer_in (lines_of lines.now.items) }
{
    let mut least = None;
    for index in 0..lines.held() {
        least = lesser(least, nth_writer(lines, index));
    }
    least
}

/// The cache whose line was kept after so many others, if it may write.
fn nth_writer(lines: &Sparse<Line>, index: usize) -> Option<CacheId>
    ensures { result ≡ writer_on (lines_of lines.now.items) (slice_get lines.now.keys index) }
{
    let (place, line) = lines.nth(index)?;
    may_write(line.state).then_some(CacheId(place))
}

/// The lesser of two caches, or the one that is there.
fn lesser(one: Option<CacheId>, other: Option<CacheId>) -> Option<CacheId>
    ensures { result ≡ lesser one other }
{
    match (one, other) {
        (Some(a), Some(b)) => Some(CacheId(a.0.min(b.0))),
        (Some(_), None) => one,
        (None, _) => other,
    }
}
