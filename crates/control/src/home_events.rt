ghost use Rattle.std.specs.Prelude.{◌≡◌};
ghost use Rattle.control.specs.HomeEvents.{event_at_home};

use crate::home::{Home, HomeInput};
use directory_table::DirectoryEvent;
use network::RequestKind;

/// The event that an input is at a home.
///
/// A PutS is the last one where its sender is the only sharer. A PutM is the owner's where its
/// sender is the owner.
pub fn home_event(home: &Home, input: HomeInput) -> DirectoryEvent
    ensures { result ≡ event_at_home home.now.owner home.now.sharers input }
{
    match input {
        HomeInput::Data(_) => DirectoryEvent::Data,
        HomeInput::Request(request) => match request.kind {
            RequestKind::GetS => DirectoryEvent::GetS,
            RequestKind::GetM => DirectoryEvent::GetM,
            RequestKind::PutS => {
                if home.sharers.is_only(request.from) {
                    DirectoryEvent::PutSLast
                } else {
                    DirectoryEvent::PutSNotLast
                }
            }
            RequestKind::PutM(_) => match home.owner {
                Some(owner) => {
                    if owner == request.from {
                        DirectoryEvent::PutMOwner
                    } else {
                        DirectoryEvent::PutMNonOwner
                    }
                }
                None => DirectoryEvent::PutMNonOwner,
            },
        },
    }
}
