ghost use Rattle.std.specs.Prelude.{◌≡◌, IfSome, true};
ghost use Rattle.pairs.specs.Marking.{CanBeFollowed, IsFollowedAs, IsMarked};
ghost use Rattle.pairs.specs.Sights.{any_names_owner, at_home, by_home, concerned_by};
ghost use Rattle.pairs.specs.Sights.{home_acted, home_acts, names_owner, owner_in};
ghost use Rattle.pairs.specs.inner.Following.{few_scene};

use crate::pair::Pair;
use crate::settling::look_at;
use crate::side::Owned;
use crate::steps::{Debt, Party, Scene, Sight};
use base::controller::CellEntry;
use directory_table::{DirectoryAction, DirectoryEntry, DirectoryEvent, DirectoryState};
use network::ForwardKind;
use tables::Tables;

/// Does an action of the home for a request of the first cache, or for Data if nobody asked. Either brings a fresh
/// value, another one, or none.
fn act(asked: bool, value: Option<bool>, action: DirectoryAction, scene: &mut Scene)
    requires { CanBeFollowed scene.old.pair }
    ensures { scene.new ≡ home_acted asked value action scene.old }
{
    let fresh_memory = scene.pair.shared.fresh_memory;
    match action {
        DirectoryAction::AddOwner => scene.add_owner(),
        DirectoryAction::ClearSharers => scene.clear_sharers(),
        DirectoryAction::ClearOwner => scene.owner = Party::Nobody,
        DirectoryAction::CopyData => {
            if let Some(fresh) = value {
                scene.pair.shared.fresh_memory = fresh;
            }
        }
        // The others want a requestor.
        _ if !asked => {}
        DirectoryAction::DataReq => scene.pair.first.add_dir_data(fresh_memory),
        DirectoryAction::DataAcks => {
            scene.pair.first.add_dir_data(fresh_memory);
            scene.announce();
        }
        DirectoryAction::DataExcl => scene.pair.first.add_excl_data(fresh_memory),
        DirectoryAction::InvSharers => scene.invite(),
        DirectoryAction::FwdGetS => scene.forward(ForwardKind::FwdGetS),
        DirectoryAction::FwdGetM => scene.forward(ForwardKind::FwdGetM),
        DirectoryAction::PutAck => scene.pair.link_first(ForwardKind::PutAck),
        DirectoryAction::AddReq => scene.pair.first.shares = true,
        DirectoryAction::RemoveReq => scene.pair.first.shares = false,
        DirectoryAction::SetOwner => scene.owner = Party::First,
    }
}

/// What the actions of a home make of a scene. `None` comes exactly where its pair isn't few in the end: as there is
/// never less of a kind than before, it is given up as soon as there is too much.
fn acted(
    asked: bool,
    value: Option<bool>,
    actions: &[DirectoryAction],
    scene: &Scene,
) -> Option<Scene>
    requires { CanBeFollowed scene.now.pair }
    ensures scene { result ≡ few_scene (home_acts asked value actions.now scene.now) }
    ensures marked { IfSome result (λ s. IsMarked s.pair) }
{
    let mut acted = *scene;
    for action in actions {
        act(asked, value, *action, &mut acted);
        if !acted.pair.is_few() {
            return None;
        }
    }
    Some(acted)
}

/// Whether an action names the owner.
fn names_the_owner(action: DirectoryAction) -> bool
    ensures { result ≡ names_owner action }
{
    match action {
        DirectoryAction::FwdGetS | DirectoryAction::FwdGetM | DirectoryAction::AddOwner => true,
        _ => false,
    }
}

/// Whether one of these actions names the owner.
fn name_the_owner(actions: &[DirectoryAction]) -> bool
    ensures { result ≡ any_names_owner actions.now }
{
    for action in actions {
        if names_the_owner(*action) {
            return true;
        }
    }
    false
}

/// The cache besides the first that a request concerns: the owner, if the actions name it.
fn concerned(asked: bool, actions: &[DirectoryAction], owner: Party) -> Party
    ensures { result ≡ concerned_by asked actions.now owner }
{
    match owner {
        Party::Second | Party::Third if asked && name_the_owner(actions) => owner,
        _ => Party::Nobody,
    }
}

/// What a cell of the directory's table makes of a scene.
fn see_act(
    asked: bool,
    value: Option<bool>,
    next: DirectoryState,
    actions: &[DirectoryAction],
    scene: &Scene,
) -> Sight
    requires { CanBeFollowed scene.now.pair }
    ensures { IsFollowedAs (by_home asked value (CellEntry.Act next actions.now) scene.now) result }
{
    let Some(after) = acted(asked, value, actions, scene) else {
        return Sight::Lost;
    };
    let Some(lag) = after.debt.moved(after.pair.first.lag) else {
        return Sight::Lost;
    };
    let mut left = after.left(next);
    left.first.lag = lag;
    look_at(concerned(asked, actions, scene.owner), &left)
}

/// What an entry of the directory's table makes of a scene.
fn see_entry(asked: bool, value: Option<bool>, entry: &DirectoryEntry, scene: &Scene) -> Sight
    requires { CanBeFollowed scene.now.pair }
    ensures { IsFollowedAs (by_home asked value entry.now scene.now) result }
{
    match entry {
        CellEntry::Stall => Sight::Unmoved,
        CellEntry::Blank => Sight::Spoilt(Party::Nobody),
        CellEntry::Act { next, actions } => see_act(asked, value, *next, actions.as_slice(), scene),
    }
}

/// Who owns the block.
fn owner(mine: Owned, theirs: Owned) -> Party
    ensures { result ≡ owner_in mine theirs }
{
    match (mine, theirs) {
        (Owned::ByNobody, _) => Party::Nobody,
        (Owned::ByItself, _) => Party::First,
        (Owned::ByAnother, Owned::ByItself) => Party::Second,
        (Owned::ByAnother, _) => Party::Third,
    }
}

/// What is seen where an event comes to the home: a request of the first cache if it asked, else Data. A third cache
/// shares or not.
pub(crate) fn see_home(
    tables: &Tables,
    third_shares: bool,
    asked: bool,
    value: Option<bool>,
    event: DirectoryEvent,
    pair: &Pair,
) -> Sight
    requires { CanBeFollowed pair.now }
    ensures { IsFollowedAs (at_home tables.now third_shares asked value event pair.now) result }
{
    if !pair.thirds_fit(third_shares) {
        return Sight::Unmoved;
    }
    let entry = tables.directory.entry(pair.shared.home, event);
    let scene = Scene {
        pair: *pair,
        owner: owner(pair.first.owned, pair.second.owned),
        third_shares,
        debt: Debt::Even,
    };
    see_entry(asked, value, &entry, &scene)
}
