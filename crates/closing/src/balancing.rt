//! Whether each Data that a home comes to wait for is on its way, or a Fwd-GetS that brings it.

ghost use Rattle.std.specs.Prelude.{◌≡◌, ◌≤◌, ℕ, Bool, IsTrue, Some, length, slice_get, true};
ghost use Rattle.std.specs.Global.{Vec};
ghost use Rattle.pairs.specs.Marking.{CanBeFollowed};
ghost use Rattle.closing.specs.declared.following.Followed.{Followed};
ghost use Rattle.closing.specs.Ranked as ranks;
ghost use Rattle.closing.specs.inner.Told.{AllKeepBalance, AreBalanced, HomeKeepsBalance, IsBalanced, KeepsBalanceIn};

use crate::following::Followed;
use crate::ranked::RankedPair;
use directory_table::DirectoryState;
use network::ForwardKind;
use pairs::{Link, Pair, Party, Shared, Sight, home_data_seen};
use tables::Tables;

/// Whether each of these steps of ranked pairs, place by place, keeps the balance, and Data that comes to the home does.
pub(crate) fn are_balanced(tables: &Tables, list: &[RankedPair], steps: &[Vec<Followed>]) -> bool
    ensures { IsTrue result → AreBalanced tables.now list.now steps.now }
{
    for place in 0..list.len() {
        if !is_balanced_at(tables, list, steps, place) {
            return false;
        }
    }
    true
}

/// Whether those of the pair at a place do.
fn is_balanced_at(
    tables: &Tables,
    list: &[RankedPair],
    steps: &[Vec<Followed>],
    place: usize,
) -> bool
    ensures { IsTrue result → (r : RankedPair) (told : Vec Followed) → slice_get list.now place ≡ Some r → slice_get steps.now place ≡ Some told →
        IsBalanced tables.now r.pair told.items }
{
    let (Some(ranked), Some(told)) = (list.get(place), steps.get(place)) else {
        return true;
    };
    is_balanced(tables, &ranked.pair, told)
}

/// Whether these steps of a pair do, and Data that comes to its home.
fn is_balanced(tables: &Tables, pair: &Pair, steps: &[Followed]) -> bool
    ensures { IsTrue result → IsBalanced tables.now pair.now steps.now }
{
    if !pair.is_few() || !pair.is_marked() {
        return false;
    }
    home_is_balanced(tables, pair) & steps_are_balanced(pair, steps)
}

/// Whether Data that comes to the home of a pair keeps the balance.
fn home_is_balanced(tables: &Tables, pair: &Pair) -> bool
    requires { CanBeFollowed pair.now }
    ensures { IsTrue result → HomeKeepsBalance tables.now pair.now }
{
    sight_is_balanced(pair, &home_data_seen(tables, false, pair))
        & sight_is_balanced(pair, &home_data_seen(tables, true, pair))
}

/// Whether what is seen from a pair does.
fn sight_is_balanced(pair: &Pair, sight: &Sight) -> bool
    ensures { IsTrue result → KeepsBalanceIn pair.now sight.now }
{
    match sight {
        Sight::Unmoved | Sight::Lost | Sight::Spoilt(_) => true,
        Sight::Seen(concerned, after) => keeps_balance(*concerned, pair, after),
    }
}

/// Whether these steps of a pair do.
fn steps_are_balanced(pair: &Pair, steps: &[Followed]) -> bool
    ensures { IsTrue result → AllKeepBalance pair.now steps.now }
{
    for step in steps {
        if !keeps_balance(step.concerned, pair, &step.after) {
            return false;
        }
    }
    true
}

/// For how many Data of its last owner a home waits.
fn awaited(home: DirectoryState) -> u16
    ensures is { result ≡ ranks.awaited home }
    ensures few { result ≤ 1 }
{
    match home {
        DirectoryState::SD => 1,
        DirectoryState::I | DirectoryState::S | DirectoryState::M => 0,
    }
}

/// How many Data are on their way to the home.
fn data_count(shared: Shared) -> u16
    ensures is { result ≡ shared.home_data }
    ensures few { result ≤ 255 }
{
    u16::from(shared.home_data)
}

/// How many Fwd-GetS are on a link.
fn sharings_on(link: &Link) -> u16
    ensures is { result ≡ ranks.sharings_on link.now }
    ensures within { result ≤ length link.now }
    ensures few { result ≤ 3 }
{
    match link.head() {
        None => 0,
        Some(place) => {
            u16::from(place.kind == ForwardKind::FwdGetS) + sharings_on(&link.behind())
        }
    }
}

/// Whether a step between two pairs, or Data at the home, keeps the balance.
fn keeps_balance(concerned: Party, pair: &Pair, after: &Pair) -> bool
    ensures { IsTrue result → ranks.KeepsBalance concerned pair.now after.now }
{
    let (had, theirs) = (
        sharings_on(&pair.first.link),
        sharings_on(&pair.second.link),
    );
    let (has, theirs_after) = (
        sharings_on(&after.first.link),
        sharings_on(&after.second.link),
    );
    let before = data_count(pair.shared) + had;
    let behind = data_count(after.shared) + has;
    let (waits, waits_after) = (awaited(pair.shared.home), awaited(after.shared.home));
    match concerned {
        Party::Third => theirs_after == theirs,
        Party::Nobody => { (theirs_after == theirs) & (behind + waits == before + waits_after) }
        Party::First | Party::Second => {
            behind + theirs_after + waits == before + theirs + waits_after
        }
    }
}
