//! Tables and rows of them under which nothing is held.

ghost use Rattle.std.specs.Prelude.{◌≡◌, true, false};
ghost use Rattle.cache_table.specs.Table as cache_table;
ghost use Rattle.directory_table.specs.Table as directory_table;
ghost use Rattle.blocks.specs.Marking.{is_stall};
ghost use Rattle.blocks.specs.Passing.{ForwardsPass, IsClear, ResponsesPass, RowPasses};

use cache_table::{CacheEntry, CacheEvent, CacheState};
use directory_table::{DirectoryEntry, DirectoryEvent, DirectoryState};
use tables::Tables;

/// Whether the home's cell of a state and an event is a stall.
fn stalls_at_home(tables: &Tables, state: DirectoryState, event: DirectoryEvent) -> bool
    ensures { result ≡ is_stall (directory_table.cell tables.now.directory state event) }
{
    match tables.directory.entry(state, event) {
        DirectoryEntry::Stall => true,
        DirectoryEntry::Blank | DirectoryEntry::Act { .. } => false,
    }
}

/// Whether a line's cell of a state and an event is a stall.
pub(crate) fn stalls_at_line(tables: &Tables, state: CacheState, event: CacheEvent) -> bool
    ensures { result ≡ is_stall (cache_table.cell tables.now.cache state event) }
{
    match tables.cache.entry(state, event) {
        CacheEntry::Stall => true,
        CacheEntry::Blank | CacheEntry::Act { .. } => false,
    }
}

/// Whether a home in this state holds nothing.
pub(crate) fn is_clear(tables: &Tables, state: DirectoryState) -> bool
    ensures { result ≡ true → IsClear tables.now.directory state }
{
    !stalls_at_home(tables, state, DirectoryEvent::GetS)
        && !stalls_at_home(tables, state, DirectoryEvent::GetM)
        && !stalls_at_home(tables, state, DirectoryEvent::PutSNotLast)
        && !stalls_at_home(tables, state, DirectoryEvent::PutSLast)
        && !stalls_at_home(tables, state, DirectoryEvent::PutMOwner)
        && !stalls_at_home(tables, state, DirectoryEvent::PutMNonOwner)
        && !stalls_at_home(tables, state, DirectoryEvent::Data)
}

/// Whether a line in this state holds nothing that comes on its link.
pub(crate) fn forwards_pass(tables: &Tables, state: CacheState) -> bool
    ensures { result ≡ true → ForwardsPass tables.now.cache state }
{
    !stalls_at_line(tables, state, CacheEvent::FwdGetS)
        && !stalls_at_line(tables, state, CacheEvent::FwdGetM)
        && !stalls_at_line(tables, state, CacheEvent::Inv)
        && !stalls_at_line(tables, state, CacheEvent::PutAck)
}

/// Whether a line in this state holds no response.
fn row_passes(tables: &Tables, state: CacheState) -> bool
    ensures { result ≡ true → RowPasses tables.now state }
{
    !stalls_at_line(tables, state, CacheEvent::DataDirZero)
        && !stalls_at_line(tables, state, CacheEvent::DataDirMore)
        && !stalls_at_line(tables, state, CacheEvent::DataOwner)
        && !stalls_at_line(tables, state, CacheEvent::InvAck)
        && !stalls_at_line(tables, state, CacheEvent::LastInvAck)
        && !stalls_at_line(tables, state, CacheEvent::DataDirExcl)
}

/// Whether a line in any state holds no response.
fn lines_pass(tables: &Tables) -> bool
    ensures { result ≡ true → (state : CacheState) → RowPasses tables.now state }
{
    row_passes(tables, CacheState::I)
        && row_passes(tables, CacheState::IsD)
        && row_passes(tables, CacheState::ImAd)
        && row_passes(tables, CacheState::ImA)
        && row_passes(tables, CacheState::S)
        && row_passes(tables, CacheState::SmAd)
        && row_passes(tables, CacheState::SmA)
        && row_passes(tables, CacheState::M)
        && row_passes(tables, CacheState::MiA)
        && row_passes(tables, CacheState::SiA)
        && row_passes(tables, CacheState::IiA)
        && row_passes(tables, CacheState::E)
}

/// Whether a home in any state holds no Data.
fn homes_pass(tables: &Tables) -> bool
    ensures { result ≡ true → (state : DirectoryState) → is_stall (directory_table.cell tables.now.directory state DirectoryEvent.Data) ≡ false }
{
    !stalls_at_home(tables, DirectoryState::I, DirectoryEvent::Data)
        && !stalls_at_home(tables, DirectoryState::S, DirectoryEvent::Data)
        && !stalls_at_home(tables, DirectoryState::M, DirectoryEvent::Data)
        && !stalls_at_home(tables, DirectoryState::SD, DirectoryEvent::Data)
}

/// Whether it is known that no response is ever held under these tables, whatever the states of lines and homes are.
pub(crate) fn responses_pass(tables: &Tables) -> bool
    ensures { result ≡ true → ResponsesPass tables.now }
{
    lines_pass(tables) && homes_pass(tables)
}
