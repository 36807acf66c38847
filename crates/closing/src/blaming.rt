//! Whether a list of ranked pairs shows that no message is ever stuck.

ghost use Rattle.std.specs.Prelude.{◌≡◌, ◌↔◌, ◌==◌, ℕ, None, Some, IfOk, IsTrue, slice_get, true};
ghost use Rattle.closing.specs.declared.ranked.Order.{Order};
ghost use Rattle.closing.specs.declared.ranked.RankedPair.{RankedPair};
ghost use Rattle.closing.specs.Blamed as blamed;
ghost use Rattle.closing.specs.inner.Told.{Keeps};
ghost use Rattle.closing.specs.inner.Explained.{AreExplained, HasBlame, IsAnswered, IsExplained};

use crate::balancing::are_balanced;
use crate::following::Followed;
use crate::holding::{is_held, line_holds};
use crate::ranked::{Order, RankedPair, is_busy, is_open};
use cache_table::{CacheEvent, CacheState};
use directory_table::DirectoryState;
use network::ForwardKind;
use pairs::{Pair, PairSide};
use tables::Tables;

/// Whether wherever messages of these ranked pairs are held another cache is to blame that was served earlier, and each Data that a
/// home waits for comes.
pub(crate) fn is_blamed(tables: &Tables, list: &[RankedPair], steps: &[Vec<Followed>]) -> bool
    requires { Keeps tables.now list.now steps.now }
    ensures { IsTrue result → blamed.Blamed tables.now list.now }
{
    are_balanced(tables, list, steps) && are_explained(tables, list)
}

/// Whether no line for which nothing is on its way holds an ask.
pub(crate) fn serves_asks(tables: &Tables, list: &[RankedPair]) -> bool
    ensures { IsTrue result → blamed.ServesAsks tables.now list.now }
{
    for ranked in list {
        if !is_ready(tables, &ranked.pair) {
            return false;
        }
    }
    true
}

/// Whether no ask is held at the first cache's line, if the pair is silent.
fn is_ready(tables: &Tables, pair: &Pair) -> bool
    ensures { IsTrue result → blamed.is_silent pair.now ≡ true → blamed.serves_asks tables.now pair.now.first.state ≡ true }
{
    !is_silent(pair) || line_serves_asks(tables, pair.first.state)
}

/// Whether a line in a state holds no ask.
fn line_serves_asks(tables: &Tables, state: CacheState) -> bool
    ensures { result ≡ blamed.serves_asks tables.now state }
{
    let is_absent = matches!(state, CacheState::I);
    !line_holds(tables, state, CacheEvent::Load)
        && !line_holds(tables, state, CacheEvent::Store)
        && (is_absent || !line_holds(tables, state, CacheEvent::Replacement))
}

/// Whether no request of a cache is on its way.
fn lacks_requests(side: &PairSide) -> bool
    ensures { result ≡ (blamed.requests_of side.now == 0) }
{
    side.gets == 0 && side.getm == 0 && side.puts == 0 && side.putm == 0
}

/// Whether any message of a cache is on its way.
fn is_noisy(side: &PairSide) -> bool
    ensures { result ≡ blamed.is_noisy side.now }
{
    is_busy(side) || !lacks_requests(side)
}

/// Whether nothing is on its way that concerns the first cache, nor to the home.
fn is_silent(pair: &Pair) -> bool
    ensures { result ≡ blamed.is_silent pair.now }
{
    !is_open(&pair.first) && lacks_requests(&pair.first) && pair.shared.home_data == 0
}

/// Whether the first cache has only requests, and its home waits for Data that a Fwd-GetS on some link is to bring.
fn awaits_home(pair: &Pair) -> bool
    ensures { result ≡ blamed.awaits_home pair.now }
{
    let waits = match pair.shared.home {
        DirectoryState::SD => true,
        DirectoryState::I | DirectoryState::S | DirectoryState::M => false,
    };
    !is_busy(&pair.first) && waits && pair.shared.home_data == 0
}

/// Whether a forward of this kind that names a cache is on another one's link, and what is held isn't an Inv-Ack.
fn is_named(tables: &Tables, kind: ForwardKind, side: &PairSide) -> bool
    ensures { result ≡ blamed.is_named tables.now kind side.now }
{
    match kind {
        ForwardKind::FwdGetS => !(side.fwd_gets <= side.link.own_count(kind)),
        ForwardKind::FwdGetM => !(side.fwd_getm <= side.link.own_count(kind)),
        ForwardKind::Inv => {
            side.owed
                && side.link.own_count(kind) == 0
                && !line_holds(tables, side.state, CacheEvent::InvAck)
                && !line_holds(tables, side.state, CacheEvent::LastInvAck)
        }
        ForwardKind::PutAck => false,
    }
}

/// Whether another pair begins like this one, is held, and its second cache has a forward of this kind on its link that names the
/// first.
fn is_blamable(tables: &Tables, kind: ForwardKind, pair: &Pair, other: &Pair) -> bool
    ensures { IsTrue result ↔ blamed.IsBlamable tables.now kind pair.now other.now }
{
    other.second.link.marked_count(kind, &other.second_names) != 0
        && pair.shared.is_same(&other.shared)
        && pair.first.is_same(&other.first)
        && is_held(tables, other)
}

/// Whether the second cache of another pair, where it is to blame, was served before the first.
fn is_earlier(tables: &Tables, kind: ForwardKind, pair: &Pair, other: &RankedPair) -> bool
    ensures { IsTrue result → blamed.IsBlamable tables.now kind pair.now other.now.pair → other.now.order ≡ Order.After }
{
    !is_blamable(tables, kind, pair, &other.pair) || other.order == Order::After
}

/// Whether all that are to blame were.
fn are_earlier(tables: &Tables, list: &[RankedPair], kind: ForwardKind, pair: &Pair) -> bool
    ensures { IsTrue result → (k : ℕ) (q : RankedPair) → slice_get list.now k ≡ Some q →
        blamed.IsBlamable tables.now kind pair.now q.pair → q.order ≡ Order.After }
{
    for other in list {
        if !is_earlier(tables, kind, pair, other) {
            return false;
        }
    }
    true
}

/// Whether a pair's first cache may blame those who have a forward of this kind that names it.
fn may_blame(tables: &Tables, list: &[RankedPair], kind: ForwardKind, pair: &Pair) -> bool
    ensures { IsTrue result → blamed.IsBlamed tables.now list.now pair.now kind }
{
    is_named(tables, kind, &pair.first)
        && (!is_busy(&pair.first) || are_earlier(tables, list, kind, pair))
}

/// Whether it may blame anybody.
fn has_blame(tables: &Tables, list: &[RankedPair], pair: &Pair) -> bool
    ensures { IsTrue result → HasBlame tables.now list.now pair.now }
{
    may_blame(tables, list, ForwardKind::FwdGetS, pair)
        || may_blame(tables, list, ForwardKind::FwdGetM, pair)
        || may_blame(tables, list, ForwardKind::Inv, pair)
}

/// Whether it is told of a held pair what its first cache waits for, if it has messages, and no Data is on its way to the home.
fn is_answered(tables: &Tables, list: &[RankedPair], pair: &Pair) -> bool
    ensures { IsTrue result → IsAnswered tables.now list.now pair.now }
{
    pair.shared.home_data == 0
        && (!is_noisy(&pair.first) || awaits_home(pair) || has_blame(tables, list, pair))
}

/// Whether nothing waits in a silent pair.
fn is_done(pair: &Pair) -> bool
    ensures { IsTrue result → blamed.is_silent pair.now ≡ true → pair.now.first.waits ≡ None }
{
    !is_silent(pair) || pair.first.waits.is_none()
}

/// Whether a pair that is silent or held is explained.
fn is_explained(tables: &Tables, list: &[RankedPair], pair: &Pair) -> bool
    ensures { IsTrue result → IsExplained tables.now list.now pair.now }
{
    is_done(pair) && (!is_held(tables, pair) || is_answered(tables, list, pair))
}

/// Whether all pairs are.
fn are_explained(tables: &Tables, list: &[RankedPair]) -> bool
    ensures { IsTrue result → AreExplained tables.now list.now }
{
    for ranked in list {
        if !is_explained(tables, list, &ranked.pair) {
            return false;
        }
    }
    true
}
