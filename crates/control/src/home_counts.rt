ghost use Rattle.std.specs.Prelude.{◌≡◌, ◌≤◌, length};
ghost use Rattle.control.specs.HomeEvents.{owns};
ghost use Rattle.control.specs.inner.HomeCounting.{invalidates, reaches_owner, reaches_sender, replies_by, is_sent_to, owner_left, sharer_left, forwards_to};

use crate::home::Home;
use base::CacheId;
use directory_table::DirectoryAction;

/// How many responses the actions send on a request.
pub(crate) fn replies(actions: &[DirectoryAction]) -> usize
    requires { length actions.now ≤ 8 }
    ensures { result ≡ replies_by actions.now }
{
    let mut count: usize = 0;
    for action in actions {
        match action {
            DirectoryAction::DataReq | DirectoryAction::DataAcks | DirectoryAction::DataExcl => {
                count += 1;
            }
            _ => {}
        }
    }
    count
}

/// What the actions of a home may send on a request, and to whom.
#[derive(Clone, Copy)]
pub(crate) struct Reach {
    /// How many responses.
    pub(crate) replies: usize,
    /// Whether anything on the link to the sender.
    pub(crate) sender: bool,
    /// Whether anything on the link to an owner that isn't the sender.
    pub(crate) owner: bool,
    /// Whether anything on the link to a sharer that is neither.
    pub(crate) sharers: bool,
}

/// What the actions may send, by one look at each.
#[inline(always)]
pub(crate) fn reach_of(actions: &[DirectoryAction]) -> Reach
    requires { length actions.now ≤ 8 }
    ensures replies { result.replies ≡ replies_by actions.now }
    ensures sender { result.sender ≡ reaches_sender actions.now }
    ensures owner { result.owner ≡ reaches_owner actions.now }
    ensures sharers { result.sharers ≡ invalidates actions.now }
{
    let mut replies: usize = 0;
    let mut sender = false;
    let mut owner = false;
    let mut sharers = false;
    for action in actions {
        match action {
            DirectoryAction::DataReq | DirectoryAction::DataAcks | DirectoryAction::DataExcl => {
                replies += 1;
            }
            DirectoryAction::FwdGetS | DirectoryAction::FwdGetM => {
                sender = true;
                owner = true;
            }
            DirectoryAction::InvSharers => {
                owner = true;
                sharers = true;
            }
            DirectoryAction::PutAck => sender = true,
            _ => {}
        }
    }
    Reach {
        replies,
        sender,
        owner,
        sharers,
    }
}

pub(crate) fn is_owner(owner: Option<CacheId>, cache: CacheId) -> bool
    ensures { result ≡ owns owner cache }
{
    match owner {
        Some(owner) => owner == cache,
        None => false,
    }
}

/// Whether an action sends on the link to a cache.
fn sends_to(
    cache: CacheId,
    from: CacheId,
    owner: Option<CacheId>,
    sharer: bool,
    action: DirectoryAction,
) -> bool
    ensures { result ≡ is_sent_to cache from owner sharer action }
{
    match action {
        DirectoryAction::InvSharers => sharer && cache != from,
        DirectoryAction::FwdGetS | DirectoryAction::FwdGetM => is_owner(owner, cache),
        DirectoryAction::PutAck => from == cache,
        _ => false,
    }
}

fn owner_after(from: CacheId, action: DirectoryAction, owner: Option<CacheId>) -> Option<CacheId>
    ensures { result ≡ owner_left from action owner }
{
    match action {
        DirectoryAction::ClearOwner => None,
        DirectoryAction::SetOwner => Some(from),
        _ => owner,
    }
}

/// Whether a cache that has a flag is a sharer after an action.
fn sharer_after(
    cache: CacheId,
    from: CacheId,
    owner: Option<CacheId>,
    action: DirectoryAction,
    sharer: bool,
) -> bool
    ensures { result ≡ sharer_left cache from owner action sharer }
{
    match action {
        DirectoryAction::AddReq => from == cache || sharer,
        DirectoryAction::RemoveReq => from != cache && sharer,
        DirectoryAction::AddOwner => is_owner(owner, cache) || sharer,
        DirectoryAction::ClearSharers => false,
        _ => sharer,
    }
}

/// How many messages the actions put on the link to a cache.
///
/// Of the home only its owner and this cache's share have to be followed from action to action, so no copy is needed.
#[inline(always)]
pub(crate) fn forwards_to(
    cache: CacheId,
    from: CacheId,
    actions: &[DirectoryAction],
    home: &Home,
) -> usize
    requires { length actions.now ≤ 8 }
    ensures count { result ≡ forwards_to cache from actions.now home.now }
    ensures few { result ≤ 8 }
{
    let flagged = cache.0 < home.sharers.caches();
    let mut owner = home.owner;
    let mut sharer = home.sharers.contains(cache);
    let mut count: usize = 0;
    for action in actions {
        if sends_to(cache, from, owner, sharer, *action) {
            count += 1;
        }
        let shares = sharer_after(cache, from, owner, *action, sharer);
        sharer = flagged && shares;
        owner = owner_after(from, *action, owner);
    }
    count
}
