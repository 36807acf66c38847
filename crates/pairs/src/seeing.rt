ghost use Rattle.std.specs.Prelude.{◌≡◌, true};
ghost use Rattle.control.specs.LineEvents.{forward_event};
ghost use Rattle.pairs.specs.Marking.{CanBeFollowed, IsFollowedAs};
ghost use Rattle.pairs.specs.Sights.{ack_fits, at_line, counts_fit, besides, home_data_seen, requestor, sight, unnamed};

use crate::homes::see_home;
use crate::lines::see_line;
use crate::link::LinkPlace;
use crate::pair::Pair;
use crate::side::{Lag, Owned, PairSide};
use crate::steps::{Party, Rule, Sight};
use cache_table::{CacheEvent, CacheState};
use directory_table::DirectoryEvent;
use network::ForwardKind;
use tables::Tables;

/// What is seen where an event that names no other cache comes to the first's line, from a pair that it was taken from.
fn see_event(tables: &Tables, rule: Rule, guess: bool, event: CacheEvent, pair: &Pair) -> Sight
    requires { CanBeFollowed pair.now }
    ensures { IsFollowedAs (at_line tables.now rule guess Party.Nobody Party.Nobody event pair.now) result }
{
    see_line(
        tables,
        rule,
        guess,
        Party::Nobody,
        Party::Nobody,
        event,
        pair,
    )
}

/// The event that the head of a link is at a line.
fn head_event(kind: ForwardKind) -> CacheEvent
    ensures { result ≡ forward_event kind }
{
    match kind {
        ForwardKind::FwdGetS => CacheEvent::FwdGetS,
        ForwardKind::FwdGetM => CacheEvent::FwdGetM,
        ForwardKind::Inv => CacheEvent::Inv,
        ForwardKind::PutAck => CacheEvent::PutAck,
    }
}

/// The requestor of the head of the first's link. It may name the first itself, or the second.
fn requestor(place: LinkPlace, mark: bool) -> Party
    ensures { result ≡ requestor place mark }
{
    match (place.kind, place.own, mark) {
        (ForwardKind::PutAck, _, _) => Party::Nobody,
        (_, true, _) => Party::First,
        (_, false, true) => Party::Second,
        (_, false, false) => Party::Third,
    }
}

/// The cache besides the first that is concerned.
fn besides(to: Party) -> Party
    ensures { result ≡ besides to }
{
    match to {
        Party::First => Party::Nobody,
        _ => to,
    }
}

/// One forward less of this kind names a cache.
fn unname(to: Party, kind: ForwardKind, pair: &mut Pair)
    ensures { pair.new ≡ unnamed to kind pair.old }
{
    match to {
        Party::First => pair.first.unname(kind),
        Party::Second => pair.second.unname(kind),
        Party::Nobody | Party::Third => {}
    }
}

/// What is seen where the head of the first's link comes to its line.
fn see_head(tables: &Tables, guess: bool, pair: &Pair) -> Sight
    requires { CanBeFollowed pair.now }
    ensures { IsFollowedAs (sight tables.now Rule.TakesHead guess pair.now) result }
{
    match (pair.first.link.head(), pair.first_names.head()) {
        (Some(place), Some(mark)) => {
            let mut left = *pair;
            left.first.link = pair.first.link.behind();
            left.first_names = pair.first_names.behind();
            let to = requestor(place, mark);
            unname(to, place.kind, &mut left);
            let event = head_event(place.kind);
            see_line(
                tables,
                Rule::TakesHead,
                guess,
                to,
                besides(to),
                event,
                &left,
            )
        }
        _ => Sight::Unmoved,
    }
}

/// What is seen where a GetS of the first comes to the home.
fn see_get_s(tables: &Tables, third_shares: bool, pair: &Pair) -> Sight
    requires { CanBeFollowed pair.now }
    ensures { IsFollowedAs (sight tables.now Rule.SentGetS third_shares pair.now) result }
{
    if pair.first.gets == 0 {
        return Sight::Unmoved;
    }
    let mut left = *pair;
    left.first.gets -= 1;
    left.first.trim();
    see_home(
        tables,
        third_shares,
        true,
        None,
        DirectoryEvent::GetS,
        &left,
    )
}

/// What is seen where a GetM of the first comes to the home.
fn see_get_m(tables: &Tables, third_shares: bool, pair: &Pair) -> Sight
    requires { CanBeFollowed pair.now }
    ensures { IsFollowedAs (sight tables.now Rule.SentGetM third_shares pair.now) result }
{
    if pair.first.getm == 0 {
        return Sight::Unmoved;
    }
    let mut left = *pair;
    left.first.getm -= 1;
    left.first.trim();
    see_home(
        tables,
        third_shares,
        true,
        None,
        DirectoryEvent::GetM,
        &left,
    )
}

/// What is seen where a PutS of the first comes to the home.
fn see_put_s(tables: &Tables, third_shares: bool, pair: &Pair) -> Sight
    requires { CanBeFollowed pair.now }
    ensures { IsFollowedAs (sight tables.now Rule.SentPutS third_shares pair.now) result }
{
    if pair.first.puts == 0 {
        return Sight::Unmoved;
    }
    let event = if pair.first.shares && !pair.first.others {
        DirectoryEvent::PutSLast
    } else {
        DirectoryEvent::PutSNotLast
    };
    let mut left = *pair;
    left.first.puts -= 1;
    left.first.trim();
    see_home(tables, third_shares, true, None, event, &left)
}

/// What is seen where a PutM of the first comes to the home.
fn see_put_m(tables: &Tables, third_shares: bool, pair: &Pair) -> Sight
    requires { CanBeFollowed pair.now }
    ensures { IsFollowedAs (sight tables.now Rule.SentPutM third_shares pair.now) result }
{
    if pair.first.putm == 0 {
        return Sight::Unmoved;
    }
    let event = match pair.first.owned {
        Owned::ByItself => DirectoryEvent::PutMOwner,
        Owned::ByNobody | Owned::ByAnother => DirectoryEvent::PutMNonOwner,
    };
    let value = Some(pair.first.fresh_putm);
    let mut left = *pair;
    left.first.putm -= 1;
    left.first.trim();
    see_home(tables, third_shares, true, value, event, &left)
}

/// What is seen where Data from the home come to the first's line.
fn see_dir_data(tables: &Tables, guess: bool, pair: &Pair) -> Sight
    requires { CanBeFollowed pair.now }
    ensures { IsFollowedAs (sight tables.now Rule.GetsDirData guess pair.now) result }
{
    if pair.first.dir_data == 0 {
        return Sight::Unmoved;
    }
    let Some(awaited) = pair.first.lag.acks_awaited(pair.first.owed) else {
        return Sight::Lost;
    };
    let event = match awaited {
        Lag::Level => CacheEvent::DataDirZero,
        Lag::Behind | Lag::Ahead => CacheEvent::DataDirMore,
    };
    let mut left = *pair;
    left.first.dir_data -= 1;
    left.first.low = awaited != Lag::Ahead;
    left.first.take_data();
    see_event(tables, Rule::GetsDirData, guess, event, &left)
}

/// What is seen where Data of another cache come to the first's line.
fn see_owner_data(tables: &Tables, guess: bool, pair: &Pair) -> Sight
    requires { CanBeFollowed pair.now }
    ensures { IsFollowedAs (sight tables.now Rule.GetsOwnerData guess pair.now) result }
{
    if pair.first.owner_data == 0 {
        return Sight::Unmoved;
    }
    let mut left = *pair;
    left.first.owner_data -= 1;
    left.first.take_data();
    see_event(
        tables,
        Rule::GetsOwnerData,
        guess,
        CacheEvent::DataOwner,
        &left,
    )
}

/// What is seen where exclusive Data come to the first's line.
fn see_excl_data(tables: &Tables, guess: bool, pair: &Pair) -> Sight
    requires { CanBeFollowed pair.now }
    ensures { IsFollowedAs (sight tables.now Rule.GetsExclData guess pair.now) result }
{
    if pair.first.excl_data == 0 {
        return Sight::Unmoved;
    }
    let mut left = *pair;
    left.first.excl_data -= 1;
    left.first.take_data();
    see_event(
        tables,
        Rule::GetsExclData,
        guess,
        CacheEvent::DataDirExcl,
        &left,
    )
}

/// Whether an Inv-Ack may be the last one or not, and leave something owed or not, where no Data from the home is on its way: a
/// line awaits what is owed to it, more or fewer.
fn counts_fit(side: &PairSide, last: bool, owed: bool) -> bool
    ensures { result ≡ counts_fit side.now.lag side.now.low last owed }
{
    match side.lag {
        Lag::Level => !side.low && last != owed,
        Lag::Ahead => !side.low && !last,
        Lag::Behind => side.low || owed,
    }
}

/// Whether an Inv-Ack may be the last one or not, and leave something owed or not.
fn may_get_ack(side: &PairSide, last: bool, owed: bool) -> bool
    ensures { result ≡ ack_fits side.now last owed }
{
    side.owed && !(side.low && last) && (side.dir_data != 0 || counts_fit(side, last, owed))
}

/// What is seen where an Inv-Ack comes to the first's line, the last one or not, which leaves something owed or not.
fn see_ack(tables: &Tables, last: bool, owed: bool, guess: bool, pair: &Pair) -> Sight
    requires { CanBeFollowed pair.now }
    ensures { IsFollowedAs (sight tables.now (Rule.GetsInvAck last owed) guess pair.now) result }
{
    if !may_get_ack(&pair.first, last, owed) {
        return Sight::Unmoved;
    }
    let event = if last {
        CacheEvent::LastInvAck
    } else {
        CacheEvent::InvAck
    };
    let mut left = *pair;
    left.first.owed = owed;
    left.first.low = pair.first.low || last;
    see_event(tables, Rule::GetsInvAck { last, owed }, guess, event, &left)
}

/// What is seen where a core asks for a replacement at the first's line.
fn see_replacement(tables: &Tables, guess: bool, pair: &Pair) -> Sight
    requires { CanBeFollowed pair.now }
    ensures { IsFollowedAs (sight tables.now Rule.AsksReplacement guess pair.now) result }
{
    match pair.first.state {
        CacheState::I => Sight::Unmoved,
        _ => see_event(
            tables,
            Rule::AsksReplacement,
            guess,
            CacheEvent::Replacement,
            pair,
        ),
    }
}

/// What a step of the first cache by this rule makes of a pair. What that doesn't tell is guessed: of a request whether a third
/// cache shares, of a head whether acks are still owed to the second.
pub fn sight(tables: &Tables, rule: Rule, guess: bool, pair: &Pair) -> Sight
    requires { CanBeFollowed pair.now }
    ensures { IsFollowedAs (sight tables.now rule guess pair.now) result }
{
    match rule {
        Rule::AsksLoad => see_event(tables, rule, guess, CacheEvent::Load, pair),
        Rule::AsksStore => see_event(tables, rule, guess, CacheEvent::Store, pair),
        Rule::AsksReplacement => see_replacement(tables, guess, pair),
        Rule::TakesHead => see_head(tables, guess, pair),
        Rule::SentGetS => see_get_s(tables, guess, pair),
        Rule::SentGetM => see_get_m(tables, guess, pair),
        Rule::SentPutS => see_put_s(tables, guess, pair),
        Rule::SentPutM => see_put_m(tables, guess, pair),
        Rule::GetsDirData => see_dir_data(tables, guess, pair),
        Rule::GetsOwnerData => see_owner_data(tables, guess, pair),
        Rule::GetsExclData => see_excl_data(tables, guess, pair),
        Rule::GetsInvAck { last, owed } => see_ack(tables, last, owed, guess, pair),
    }
}

/// What Data that comes to the home makes of any pair, where a third cache shares or not.
pub fn home_data_seen(tables: &Tables, third_shares: bool, pair: &Pair) -> Sight
    requires { CanBeFollowed pair.now }
    ensures { IsFollowedAs (home_data_seen tables.now third_shares pair.now) result }
{
    if pair.shared.home_data == 0 {
        return Sight::Unmoved;
    }
    let value = Some(pair.shared.fresh_home_data);
    let mut left = *pair;
    left.shared.home_data -= 1;
    left.shared.trim();
    see_home(
        tables,
        third_shares,
        false,
        value,
        DirectoryEvent::Data,
        &left,
    )
}
