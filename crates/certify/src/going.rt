//! Which stalls let messages flow, and which hold asks.

ghost use Rattle.std.specs.Prelude.{◌≡◌, MatchBool};
ghost use Rattle.tables.specs.Tables.{baseline_of};
ghost use Rattle.tables.specs.declared.cell_places.CellPlace.TheVariants as place;
ghost use Rattle.machine.specs.Going.{DataWaits, MayWait, MayWaitAtHome, IsSettled};
ghost use Rattle.certify.specs.Certificates.{LetsFlow, ServesAt};

use base::controller::CellEntry;
use cache_table::{CacheEvent, CacheState};
use directory_table::{DirectoryEvent, DirectoryState};
use tables::{CellPlace, Tables};

/// Whether a cell holds a stall, beside the protocol's own tables, of which it isn't proved that messages flow in spite of it.
pub(crate) fn is_jam(tables: &Tables, own: &Tables, cell: CellPlace) -> bool
    requires { own.now ≡ baseline_of tables.now.protocol }
    ensures { MatchBool result (¬ LetsFlow tables.now cell) (LetsFlow tables.now cell) }
{
    match cell {
        CellPlace::Cache(state, event) => is_line_jam(tables, own, state, event),
        CellPlace::Directory(state, event) => is_home_jam(tables, own, state, event),
    }
}

/// Whether a cell holds an ask of a line that waits for nothing.
pub(crate) fn holds_ask(tables: &Tables, own: &Tables, cell: CellPlace) -> bool
    requires { own.now ≡ baseline_of tables.now.protocol }
    ensures { MatchBool result (¬ ServesAt tables.now cell) (ServesAt tables.now cell) }
{
    match cell {
        CellPlace::Cache(state, event) => is_held_ask(tables, own, state, event),
        CellPlace::Directory(_, _) => false,
    }
}

fn is_line_jam(tables: &Tables, own: &Tables, state: CacheState, event: CacheEvent) -> bool
    requires { own.now ≡ baseline_of tables.now.protocol }
    ensures { MatchBool result (¬ LetsFlow tables.now (place.Cache state event)) (LetsFlow tables.now (place.Cache state event)) }
{
    match (
        tables.cache.entry(state, event),
        own.cache.entry(state, event),
    ) {
        (CellEntry::Stall, CellEntry::Act { .. }) => !may_wait(tables, state, event),
        _ => false,
    }
}

fn is_home_jam(tables: &Tables, own: &Tables, state: DirectoryState, event: DirectoryEvent) -> bool
    requires { own.now ≡ baseline_of tables.now.protocol }
    ensures { MatchBool result (¬ LetsFlow tables.now (place.Directory state event)) (LetsFlow tables.now (place.Directory state event)) }
{
    match (
        tables.directory.entry(state, event),
        own.directory.entry(state, event),
    ) {
        (CellEntry::Stall, CellEntry::Act { .. }) => !may_wait_at_home(state, event),
        _ => false,
    }
}

fn is_held_ask(tables: &Tables, own: &Tables, state: CacheState, event: CacheEvent) -> bool
    requires { own.now ≡ baseline_of tables.now.protocol }
    ensures { MatchBool result (¬ ServesAt tables.now (place.Cache state event)) (ServesAt tables.now (place.Cache state event)) }
{
    is_settled(state)
        && matches!(tables.cache.entry(state, event), CellEntry::Stall)
        && !matches!(own.cache.entry(state, event), CellEntry::Blank)
}

fn is_settled(state: CacheState) -> bool
    ensures { MatchBool result (IsSettled state) (¬ IsSettled state) }
{
    matches!(
        state,
        CacheState::I | CacheState::S | CacheState::M | CacheState::E
    )
}

fn may_wait(tables: &Tables, state: CacheState, event: CacheEvent) -> bool
    ensures { MatchBool result (MayWait tables.now state event) (¬ MayWait tables.now state event) }
{
    match (event, state) {
        (CacheEvent::Load | CacheEvent::Store | CacheEvent::Replacement, _) => true,
        (CacheEvent::DataDirMore, CacheState::ImAd | CacheState::SmAd) => true,
        (CacheEvent::InvAck, CacheState::ImAd) => !data_waits(tables, CacheState::ImAd),
        (CacheEvent::InvAck, CacheState::SmAd) => !data_waits(tables, CacheState::SmAd),
        (CacheEvent::InvAck | CacheEvent::LastInvAck, CacheState::ImA) => {
            data_waits(tables, CacheState::ImAd)
        }
        (CacheEvent::InvAck | CacheEvent::LastInvAck, CacheState::SmA) => {
            data_waits(tables, CacheState::SmAd)
        }
        _ => false,
    }
}

fn data_waits(tables: &Tables, state: CacheState) -> bool
    ensures { MatchBool result (DataWaits tables.now state) (¬ DataWaits tables.now state) }
{
    matches!(
        tables.cache.entry(state, CacheEvent::DataDirMore),
        CellEntry::Stall
    )
}

fn may_wait_at_home(state: DirectoryState, event: DirectoryEvent) -> bool
    ensures { MatchBool result (MayWaitAtHome state event) (¬ MayWaitAtHome state event) }
{
    matches!(
        (state, event),
        (
            DirectoryState::SD,
            DirectoryEvent::PutSNotLast | DirectoryEvent::PutSLast | DirectoryEvent::PutMNonOwner
        ) | (
            DirectoryState::I | DirectoryState::M,
            DirectoryEvent::PutSLast
        )
    )
}
