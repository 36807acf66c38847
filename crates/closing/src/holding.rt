//! Which messages of a pair wait at stalls.

ghost use Rattle.std.specs.Prelude.{◌≡◌};
ghost use Rattle.pairs.specs.Sights.{acks_awaited, is_owner};
ghost use Rattle.closing.specs.Blamed as blamed;

use base::controller::CellEntry;
use cache_table::{CacheEvent, CacheState};
use directory_table::{DirectoryEvent, DirectoryState};
use network::ForwardKind;
use pairs::{Lag, Link, Owned, Pair, PairSide, Shared};
use tables::Tables;

/// Whether an event is held at a line in a state.
pub(crate) fn line_holds(tables: &Tables, state: CacheState, event: CacheEvent) -> bool
    ensures { result ≡ blamed.line_holds tables.now state event }
{
    match tables.cache.entry(state, event) {
        CellEntry::Stall => true,
        CellEntry::Blank | CellEntry::Act { .. } => false,
    }
}

/// Whether an event is held at the home in a state.
fn home_holds(tables: &Tables, state: DirectoryState, event: DirectoryEvent) -> bool
    ensures { result ≡ blamed.home_holds tables.now state event }
{
    match tables.directory.entry(state, event) {
        CellEntry::Stall => true,
        CellEntry::Blank | CellEntry::Act { .. } => false,
    }
}

/// Whether the head of a link is held, if there is one.
fn holds_head(tables: &Tables, state: CacheState, link: &Link) -> bool
    ensures { result ≡ blamed.holds_head tables.now state link.now }
{
    match link.head() {
        None => true,
        Some(place) => {
            let event = match place.kind {
                ForwardKind::FwdGetS => CacheEvent::FwdGetS,
                ForwardKind::FwdGetM => CacheEvent::FwdGetM,
                ForwardKind::Inv => CacheEvent::Inv,
                ForwardKind::PutAck => CacheEvent::PutAck,
            };
            line_holds(tables, state, event)
        }
    }
}

/// The event that a PutS of a cache is at the home.
fn put_s_event(side: &PairSide) -> DirectoryEvent
    ensures { result ≡ blamed.puts_event side.now }
{
    if side.shares && !side.others {
        DirectoryEvent::PutSLast
    } else {
        DirectoryEvent::PutSNotLast
    }
}

/// The event that a PutM of a cache is at the home.
fn put_m_event(side: &PairSide) -> DirectoryEvent
    ensures { result ≡ blamed.putm_event side.now }
{
    match side.owned {
        Owned::ByItself => DirectoryEvent::PutMOwner,
        Owned::ByNobody | Owned::ByAnother => DirectoryEvent::PutMNonOwner,
    }
}

/// Whether all requests of a cache are held.
fn holds_requests(tables: &Tables, home: DirectoryState, side: &PairSide) -> bool
    ensures { result ≡ blamed.holds_requests tables.now home side.now }
{
    (side.gets == 0 || home_holds(tables, home, DirectoryEvent::GetS))
        && (side.getm == 0 || home_holds(tables, home, DirectoryEvent::GetM))
        && (side.puts == 0 || home_holds(tables, home, put_s_event(side)))
        && (side.putm == 0 || home_holds(tables, home, put_m_event(side)))
}

/// Whether Data from the home are held at a cache's line. Where it isn't known how many acks that then awaits, they count as held.
fn holds_dir_data(tables: &Tables, side: &PairSide) -> bool
    ensures { result ≡ blamed.holds_dir_data tables.now side.now.state (acks_awaited side.now.lag side.now.owed) }
{
    match side.lag.acks_awaited(side.owed) {
        None => true,
        Some(Lag::Level) => line_holds(tables, side.state, CacheEvent::DataDirZero),
        Some(_) => line_holds(tables, side.state, CacheEvent::DataDirMore),
    }
}

/// Whether all Data on their way to a cache are held.
fn holds_data(tables: &Tables, side: &PairSide) -> bool
    ensures { result ≡ blamed.holds_data tables.now side.now }
{
    (side.dir_data == 0 || holds_dir_data(tables, side))
        && (side.owner_data == 0 || line_holds(tables, side.state, CacheEvent::DataOwner))
        && (side.excl_data == 0 || line_holds(tables, side.state, CacheEvent::DataDirExcl))
}

/// Whether all messages of a cache are held, but for Inv-Acks on their way to it.
fn holds_side(tables: &Tables, home: DirectoryState, side: &PairSide) -> bool
    ensures { result ≡ blamed.holds_side tables.now home side.now }
{
    holds_head(tables, side.state, &side.link)
        && holds_requests(tables, home, side)
        && holds_data(tables, side)
}

/// Whether all Data on their way to the home are held.
fn holds_home_data(tables: &Tables, shared: &Shared) -> bool
    ensures { result ≡ blamed.holds_home_data tables.now shared.now }
{
    shared.home_data == 0 || home_holds(tables, shared.home, DirectoryEvent::Data)
}

/// Whether no message of a pair can be delivered, but for Inv-Acks.
pub(crate) fn is_held(tables: &Tables, pair: &Pair) -> bool
    ensures { result ≡ blamed.is_held tables.now pair.now }
{
    holds_home_data(tables, &pair.shared)
        && holds_side(tables, pair.shared.home, &pair.first)
        && holds_side(tables, pair.shared.home, &pair.second)
}
