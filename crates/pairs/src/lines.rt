ghost use Rattle.std.specs.Prelude.{◌≡◌, IfSome, Some, true};
ghost use Rattle.pairs.specs.Pairs.{is_few};
ghost use Rattle.pairs.specs.Marking.{CanBeFollowed, IsFollowedAs, IsMarked};
ghost use Rattle.pairs.specs.Sights.{answer, answered, at_line, by_line, inv_acks, line_acted, line_acts, line_settled};
ghost use Rattle.pairs.specs.inner.Following.{few_pair};

use crate::pair::Pair;
use crate::settling::{complete, look_at, returns_old};
use crate::side::Lag;
use crate::steps::{Party, Rule, Sight};
use base::controller::CellEntry;
use cache_table::{CacheAction, CacheEntry, CacheEvent, CacheState};
use tables::Tables;

/// Does an action of the first cache's line for this requestor. It is told whether the line's value is fresh.
fn act(to: Party, fresh: bool, action: CacheAction, pair: &mut Pair)
    requires { is_few pair.old ≡ true }
    ensures { pair.new ≡ line_acted to fresh action pair.old }
{
    match action {
        CacheAction::GetS => pair.first.gets += 1,
        CacheAction::GetM => pair.first.getm += 1,
        CacheAction::PutS => pair.first.puts += 1,
        CacheAction::PutM => pair.first.add_putm(fresh),
        CacheAction::DataDir => pair.shared.add_data(fresh),
        CacheAction::DataReq => match to {
            Party::First => pair.first.add_owner_data(fresh),
            Party::Second => pair.second.add_owner_data(fresh),
            Party::Nobody | Party::Third => {}
        },
        // What was an Inv that names its receiver is now on its way to it.
        CacheAction::InvAck => {}
    }
}

/// What the actions of the first cache's line make of a pair. `None` comes exactly where it isn't few in the end: as
/// there is never less of a kind than before, it is given up as soon as there is too much.
fn acted(to: Party, fresh: bool, actions: &[CacheAction], pair: &Pair) -> Option<Pair>
    requires { CanBeFollowed pair.now }
    ensures pair { result ≡ few_pair (line_acts to fresh actions.now pair.now) }
    ensures marked { IfSome result IsMarked }
{
    let mut acted = *pair;
    for action in actions {
        act(to, fresh, *action, &mut acted);
        if !acted.is_few() {
            return None;
        }
    }
    Some(acted)
}

/// How many Inv-Acks the actions send, if there is a requestor.
fn count_acks(actions: &[CacheAction]) -> usize
    ensures { result ≡ inv_acks actions.now }
{
    let mut count = 0;
    for action in actions {
        if let CacheAction::InvAck = action {
            count += 1;
        }
    }
    count
}

/// How the Inv-Acks in answer to an event move what their receiver awaits beside what is owed to it: an Inv that named it is
/// owed no longer.
fn answer(event: CacheEvent, actions: &[CacheAction]) -> Lag
    ensures { result ≡ answer event actions.now }
{
    let acks = count_acks(actions);
    match event {
        CacheEvent::Inv if acks == 0 => Lag::Ahead,
        CacheEvent::Inv if acks == 1 => Lag::Level,
        CacheEvent::Inv => Lag::Behind,
        _ if acks == 0 => Lag::Level,
        _ => Lag::Behind,
    }
}

/// What an answer makes of the requestor, if that can be followed. It is guessed whether acks are still owed to it.
fn answered(guess: bool, to: Party, by: Lag, pair: &Pair) -> Option<Pair>
    requires { CanBeFollowed pair.now }
    ensures pair { result ≡ answered guess to by pair.now }
    ensures few { IfSome result (λ q. is_few q ≡ true) }
    ensures marked { IfSome result IsMarked }
{
    match (to, by) {
        (Party::Nobody | Party::Third, _) | (Party::First, Lag::Level) => Some(*pair),
        (Party::First, _) => None,
        (Party::Second, _) => {
            let lag = pair.second.lag.moved(by)?;
            let mut answered = *pair;
            answered.second.owed = by.leaves_owed(guess, pair.second.owed);
            answered.second.lag = lag;
            Some(answered)
        }
    }
}

/// What a cell of the caches' table makes of a pair whose requestor was answered.
fn see_answered(
    rule: Rule,
    to: Party,
    concerned: Party,
    next: CacheState,
    actions: &[CacheAction],
    pair: &Pair,
) -> Sight
    requires { CanBeFollowed pair.now }
    ensures { IsFollowedAs (line_settled rule to concerned next actions.now (Some pair.now)) result }
{
    // What a load returns is seen first: no action changes the line's value.
    if returns_old(rule, next, &pair.first) {
        return Sight::Spoilt(concerned);
    }
    let Some(mut after) = acted(to, pair.first.fresh, actions, pair) else {
        return Sight::Lost;
    };
    after.first.state = next;
    complete(rule, &mut after);
    look_at(concerned, &after)
}

/// What an entry of the caches' table makes of a pair from which the input was taken.
fn see_entry(
    rule: Rule,
    guess: bool,
    to: Party,
    concerned: Party,
    event: CacheEvent,
    entry: &CacheEntry,
    pair: &Pair,
) -> Sight
    requires { CanBeFollowed pair.now }
    ensures { IsFollowedAs (by_line rule guess to concerned event entry.now pair.now) result }
{
    match entry {
        CellEntry::Stall => Sight::Unmoved,
        CellEntry::Blank => Sight::Spoilt(concerned),
        CellEntry::Act { next, actions } => {
            let actions = actions.as_slice();
            match answered(guess, to, answer(event, actions), pair) {
                Some(answered) => see_answered(rule, to, concerned, *next, actions, &answered),
                None => Sight::Lost,
            }
        }
    }
}

/// What is seen where an event comes to the first cache's line, from a forward that names this cache.
pub(crate) fn see_line(
    tables: &Tables,
    rule: Rule,
    guess: bool,
    to: Party,
    concerned: Party,
    event: CacheEvent,
    pair: &Pair,
) -> Sight
    requires { CanBeFollowed pair.now }
    ensures { IsFollowedAs (at_line tables.now rule guess to concerned event pair.now) result }
{
    let entry = tables.cache.entry(pair.first.state, event);
    see_entry(rule, guess, to, concerned, event, &entry, pair)
}
