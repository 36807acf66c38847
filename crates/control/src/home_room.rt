ghost use Rattle.std.specs.Prelude.{◌≡◌, ◌<◌, ◌≤◌, ℕ, length, true};
ghost use Rattle.network.specs.Room.{HasRoomFor, MakesRoom};
ghost use Rattle.control.specs.Acts.{HasFlagsAndLinks};
ghost use Rattle.control.specs.HomeEffect.{sender_of, home_sends};
ghost use Rattle.control.specs.Homes.{IsBelow, NamesBelow};
ghost use Rattle.control.specs.inner.HomeCounting.{HasRoomOnLink, HasRoomToReply, HasRoomToOwner, MakesRoomToSharers};
ghost use Rattle.control.specs.inner.HomeCounting.{invalidates, reaches_owner, reaches_sender};
ghost use Rattle.control.specs.Sharing.{shares};

use crate::home::{Home, HomeInput};
use crate::home_counts::{forwards_to, reach_of};
use base::{CacheId, NoMemory};
use directory_table::{DirectoryAction, DirectoryActions};
use network::Wires;

/// Makes the room that an act of this input at a home wants. Where it is refused nothing else has changed.
///
/// Each cache that the home or the input names has a flag at the home and a link.
#[inline(always)]
pub fn home_reserve(
    home: &Home,
    input: HomeInput,
    actions: DirectoryActions,
    wires: &mut Wires,
) -> Result<(), NoMemory>
    requires { HasFlagsAndLinks (sender_of input) home.now wires.old }
    ensures { MakesRoom (HasRoomFor (home_sends input actions home.now)) result wires.old wires.new }
{
    match input {
        HomeInput::Data(_) => Ok(()),
        HomeInput::Request(request) => {
            if let Err(refused) = reserve_for(home, request.from, actions.as_slice(), wires) {
                return Err(refused);
            }
            Ok(())
        }
    }
}

/// Room for what the actions send on a request. Only the sender, the owner and the sharers are sent anything.
#[inline(always)]
fn reserve_for(
    home: &Home,
    from: CacheId,
    actions: &[DirectoryAction],
    wires: &mut Wires,
) -> Result<(), NoMemory>
    requires few { length actions.now ≤ 8 }
    requires links { NamesBelow (length wires.old.traffic.links) home.now }
    requires sender { from.0 < length wires.old.traffic.links }
    ensures { MakesRoom (HasRoomToReply from actions.now home.now) result wires.old wires.new }
{
    let reach = reach_of(actions);
    wires.reserve_ends(0, reach.replies)?;
    reserve_for_sender(reach.sender, home, from, actions, wires)?;
    reserve_for_owner(reach.owner, home, from, actions, wires)?;
    reserve_for_sharers(reach.sharers, home, from, actions, wires)
}

/// Room on the sender's link, where the actions reach it.
#[inline(always)]
fn reserve_for_sender(
    reached: bool,
    home: &Home,
    from: CacheId,
    actions: &[DirectoryAction],
    wires: &mut Wires,
) -> Result<(), NoMemory>
    requires few { length actions.now ≤ 8 }
    requires reached { reached ≡ reaches_sender actions.now }
    requires link { from.0 < length wires.old.traffic.links }
    ensures { MakesRoom (HasRoomOnLink from.0 from actions.now home.now) result wires.old wires.new }
{
    if !reached {
        return Ok(());
    }
    wires.reserve_link(from, forwards_to(from, from, actions, home))
}

/// Room on the link of an owner that isn't the sender, where the actions reach it.
#[inline(always)]
fn reserve_for_owner(
    reached: bool,
    home: &Home,
    from: CacheId,
    actions: &[DirectoryAction],
    wires: &mut Wires,
) -> Result<(), NoMemory>
    requires few { length actions.now ≤ 8 }
    requires reached { reached ≡ reaches_owner actions.now }
    requires link { IsBelow home.now.owner (length wires.old.traffic.links) }
    ensures { MakesRoom (HasRoomToOwner from actions.now home.now) result wires.old wires.new }
{
    if !reached {
        return Ok(());
    }
    match home.owner {
        Some(owner) if owner != from => {
            wires.reserve_link(owner, forwards_to(owner, from, actions, home))
        }
        _ => Ok(()),
    }
}

/// Room on the link to each sharer that is neither the owner nor the sender, where the actions reach them: only invalidations
/// go there.
#[inline(always)]
fn reserve_for_sharers(
    reached: bool,
    home: &Home,
    from: CacheId,
    actions: &[DirectoryAction],
    wires: &mut Wires,
) -> Result<(), NoMemory>
    requires few { length actions.now ≤ 8 }
    requires reached { reached ≡ invalidates actions.now }
    requires links { (k : ℕ) → shares home.now.sharers k ≡ true → k < length wires.old.traffic.links }
    ensures { MakesRoomToSharers from actions.now home.now result wires.old wires.new }
{
    if !reached {
        return Ok(());
    }
    reserve_for_each_sharer(home, from, actions, wires)
}

/// Room on the link to each sharer that is neither the owner nor the sender. It stands apart, as few steps come here.
#[inline(never)]
fn reserve_for_each_sharer(
    home: &Home,
    from: CacheId,
    actions: &[DirectoryAction],
    wires: &mut Wires,
) -> Result<(), NoMemory>
    requires few { length actions.now ≤ 8 }
    requires links { (k : ℕ) → shares home.now.sharers k ≡ true → k < length wires.old.traffic.links }
    ensures { MakesRoomToSharers from actions.now home.now result wires.old wires.new }
{
    // No cache has the largest number, so the number after a sharer's fits.
    let caches = home.sharers.caches();
    let mut next = 0;
    while next < caches {
        let Some(cache) = home.sharers.next(next) else {
            return Ok(());
        };
        wires.reserve_link(cache, forwards_to(cache, from, actions, home))?;
        next = cache.0 + 1;
    }
    Ok(())
}
