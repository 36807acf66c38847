ghost use Rattle.std.specs.Prelude.{◌≡◌, ◌&&◌, not};
ghost use Rattle.pairs.specs.Marking.{IsFollowedAs, IsMarked};
ghost use Rattle.pairs.specs.Sights.{looked_at, stored};
ghost use Rattle.pairs.specs.inner.Following.{done, loads, wait_done};

use crate::pair::Pair;
use crate::side::{PairSide, Waiting};
use crate::steps::{Party, Rule, Sight};
use cache_table::CacheState;
use control::may_read;

/// The first cache stores: its line has the last store's value, and nothing else is known to.
fn store(pair: &mut Pair)
    ensures { pair.new ≡ stored pair.old }
{
    pair.shared.fresh_memory = false;
    pair.shared.fresh_home_data = false;
    pair.shared.trim();
    pair.first.outdate();
    pair.first.fresh = true;
    pair.second.outdate();
}

/// Whether a load completes by this rule, where this waits, in the line's new state.
fn completes_load(rule: Rule, waits: Option<Waiting>, next: CacheState) -> bool
    ensures { result ≡ loads rule waits next }
{
    match rule {
        Rule::AsksLoad => may_read(next),
        Rule::AsksStore | Rule::AsksReplacement => false,
        _ => match waits {
            Some(Waiting::Load) => may_read(next),
            _ => false,
        },
    }
}

/// Whether a load completes by this rule, in the line's new state, and returns what may not be the last store's value.
pub(crate) fn returns_old(rule: Rule, next: CacheState, side: &PairSide) -> bool
    ensures { result ≡ (loads rule side.now.waits next && not side.now.fresh) }
{
    completes_load(rule, side.waits, next) && !side.fresh
}

/// What waits completes, if it can.
fn complete_waiting(pair: &mut Pair)
    ensures { pair.new ≡ wait_done pair.old.first.waits pair.old }
{
    match pair.first.waits {
        Some(Waiting::Load) if may_read(pair.first.state) => pair.first.waits = None,
        Some(Waiting::Store) if pair.first.state == CacheState::M => {
            pair.first.waits = None;
            store(pair);
        }
        _ => {}
    }
}

/// An ask completes or waits from now on. On a message what waits completes, if it can.
pub(crate) fn complete(rule: Rule, pair: &mut Pair)
    ensures { pair.new ≡ done rule pair.old }
{
    match rule {
        Rule::AsksLoad => {
            if !may_read(pair.first.state) {
                pair.first.waits = Some(Waiting::Load);
            }
        }
        Rule::AsksStore => {
            if pair.first.state == CacheState::M {
                store(pair);
            } else {
                pair.first.waits = Some(Waiting::Store);
            }
        }
        Rule::AsksReplacement => {}
        _ => complete_waiting(pair),
    }
}

/// A pair is seen if it is followed. One that can't be is dropped.
pub(crate) fn look_at(concerned: Party, pair: &Pair) -> Sight
    requires { IsMarked pair.now }
    ensures { IsFollowedAs (looked_at concerned pair.now) result }
{
    if !pair.is_few() {
        return Sight::Lost;
    }
    if pair.fits() {
        Sight::Seen(concerned, *pair)
    } else {
        Sight::Unmoved
    }
}
