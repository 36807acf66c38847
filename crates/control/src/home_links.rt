ghost use Rattle.std.specs.Prelude.{◌≡◌, ◌≤◌, ◌+◌, ◌++◌, [], IsOk, IfOk, OnOk, OnErr, length, replicate, vec_len};
ghost use Rattle.std.specs.Vec.{vec_capacity};
ghost use Rattle.network.specs.Room.{forward_count};
ghost use Rattle.control.specs.Acts.{AreNeeds};
ghost use Rattle.control.specs.HomeEffect.{home_sends};
ghost use Rattle.control.specs.inner.HomeCounting.{unflagged, unflagged_owner, unflagged_sender, links_to_any, links_of};

use crate::home::{Home, HomeInput};
use crate::home_counts::{forwards_to, is_owner, replies};
use crate::needs::Needs;
use base::{CacheId, NoMemory};
use directory_table::{DirectoryAction, DirectoryActions};

/// Lists the link of each message that an act of this input at a home sends, in place of what the lent list held, and
/// answers how many responses it sends.
///
/// So much is to be reserved before a `home_act`. `NoMemory` comes only where the list has to grow and memory is
/// refused; then the list is as it was.
pub fn home_needs(
    home: &Home,
    input: HomeInput,
    actions: DirectoryActions,
    links: &mut Vec<CacheId>,
) -> Result<Needs, NoMemory>
    ensures ok { IfOk result (λ needs. AreNeeds input actions home.now needs links.new.items) }
    ensures succeeds { forward_count (home_sends input actions home.now) ≤ vec_capacity links.old → IsOk result }
    ensures kept { OnErr result (links.new.items ≡ links.old.items) }
{
    let mut needs = Needs {
        requests: 0,
        responses: 0,
    };
    match input {
        HomeInput::Data(_) => links.clear(),
        HomeInput::Request(request) => {
            list_links(home, request.from, actions.as_slice(), links)?;
            needs.responses = replies(actions.as_slice());
        }
    }
    Ok(needs)
}

/// Lists the links in place of what was listed, once there is room for them.
fn list_links(
    home: &Home,
    from: CacheId,
    actions: &[DirectoryAction],
    links: &mut Vec<CacheId>,
) -> Result<(), NoMemory>
    requires few { length actions.now ≤ 8 }
    ensures ok { OnOk result (links.new.items ≡ links_of from actions.now home.now) }
    ensures succeeds { length (links_of from actions.now home.now) ≤ vec_capacity links.old → IsOk result }
    ensures kept { OnErr result (links.new.items ≡ links.old.items) }
{
    let count = count_links(home, from, actions);
    // What is listed now makes room for the new links.
    links.reserve(count.saturating_sub(links.len()))?;
    links.clear();
    fill(home, from, actions, links);
    Ok(())
}

/// How many links are listed.
fn count_links(home: &Home, from: CacheId, actions: &[DirectoryAction]) -> usize
    requires few { length actions.now ≤ 8 }
    ensures { result ≡ length (links_of from actions.now home.now) }
{
    let mut count: usize = 0;
    for number in 0..home.sharers.caches() {
        count += forwards_to(CacheId(number), from, actions, home);
    }
    count += count_any(unflagged_owner(home), from, actions, home);
    count += count_any(unflagged_sender(home, from), from, actions, home);
    count
}

/// Lists the links by rising cache; an owner and a sender for which the home has no flag come last.
fn fill(home: &Home, from: CacheId, actions: &[DirectoryAction], links: &mut Vec<CacheId>)
    requires few { length actions.now ≤ 8 }
    requires empty { links.old.items ≡ [] }
    requires room { length (links_of from actions.now home.now) ≤ vec_capacity links.old }
    ensures { links.new.items ≡ links_of from actions.now home.now }
{
    for number in 0..home.sharers.caches() {
        let cache = CacheId(number);
        list_times(links, cache, forwards_to(cache, from, actions, home));
    }
    list_any(unflagged_owner(home), from, actions, home, links);
    list_any(unflagged_sender(home, from), from, actions, home, links);
}

/// How often the link to a cache is listed, if there is one.
fn count_any(
    cache: Option<CacheId>,
    from: CacheId,
    actions: &[DirectoryAction],
    home: &Home,
) -> usize
    requires few { length actions.now ≤ 8 }
    ensures count { result ≡ length (links_to_any cache from actions.now home.now) }
    ensures few { result ≤ 8 }
{
    match cache {
        Some(cache) => forwards_to(cache, from, actions, home),
        None => 0,
    }
}

/// Lists the link to a cache, if there is one, as often as the actions put a message on it.
fn list_any(
    cache: Option<CacheId>,
    from: CacheId,
    actions: &[DirectoryAction],
    home: &Home,
    links: &mut Vec<CacheId>,
)
    requires few { length actions.now ≤ 8 }
    requires room { vec_len links.old + length (links_to_any cache from actions.now home.now) ≤ vec_capacity links.old }
    ensures items { links.new.items ≡ links.old.items ++ links_to_any cache from actions.now home.now }
    ensures capacity { vec_capacity links.old ≤ vec_capacity links.new }
{
    if let Some(cache) = cache {
        list_times(links, cache, forwards_to(cache, from, actions, home));
    }
}

fn list_times(links: &mut Vec<CacheId>, cache: CacheId, count: usize)
    requires { vec_len links.old + count ≤ vec_capacity links.old }
    ensures items { links.new.items ≡ links.old.items ++ replicate count cache }
    ensures capacity { vec_capacity links.old ≤ vec_capacity links.new }
{
    let listed = links.len();
    if let Err(_) = links.resize(listed + count, cache) {
        unreachable!();
    }
}

/// A cache for which the home has no flag.
fn unflagged(cache: CacheId, home: &Home) -> Option<CacheId>
    ensures { result ≡ unflagged cache home.now }
{
    if cache.0 < home.sharers.caches() {
        None
    } else {
        Some(cache)
    }
}

fn unflagged_owner(home: &Home) -> Option<CacheId>
    ensures { result ≡ unflagged_owner home.now.owner home.now }
{
    match home.owner {
        Some(owner) => unflagged(owner, home),
        None => None,
    }
}

/// The sender, where the home has no flag for it and it isn't the owner.
fn unflagged_sender(home: &Home, from: CacheId) -> Option<CacheId>
    ensures { result ≡ unflagged_sender from home.now }
{
    if is_owner(home.owner, from) {
        None
    } else {
        unflagged(from, home)
    }
}
