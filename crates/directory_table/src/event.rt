use base::controller::{Listed, Protocol};

/// What happens to a block at its home (Primer, section 8.2): a request of a cache, or Data.
#[derive(Clone, Copy, PartialEq, Eq, Debug)]
pub enum DirectoryEvent {
    /// `GetS`: a cache asks for a copy to read.
    GetS,
    /// `GetM`: a cache asks for the only copy, to write.
    GetM,
    /// `PutS-NotLast`: a cache gives up its shared copy, and it isn't the only sharer.
    PutSNotLast,
    /// `PutS-Last`: the only sharer gives up its copy.
    PutSLast,
    /// `PutM-Owner`: the owner gives up its copy, and sends the value.
    PutMOwner,
    /// `PutM-NonOwner`: a cache that isn't the owner, or no longer is, gives up its copy.
    PutMNonOwner,
    /// `Data`: a response to the home. In the protocol it is the Data of the cache that was the owner.
    Data,
}

impl DirectoryEvent {
    /// All events, in the order of a table's columns.
    pub const ALL: [DirectoryEvent; 7] = [
        DirectoryEvent::GetS,
        DirectoryEvent::GetM,
        DirectoryEvent::PutSNotLast,
        DirectoryEvent::PutSLast,
        DirectoryEvent::PutMOwner,
        DirectoryEvent::PutMNonOwner,
        DirectoryEvent::Data,
    ];
}

impl Listed for DirectoryEvent {
    ghost use Rattle.directory_table.specs.Names.{event_name, first_event};
    ghost use Rattle.directory_table.specs.Table.{event_number, has_event};
    ghost use Rattle.directory_table.specs.Baseline.{all_events};
    ghost use Rattle.directory_table.specs.inner.Standing.{event_found, event_plain, event_stands};

    ghost spelling = { event_name };

    ghost place = { event_number };

    ghost kind = { all_events };

    ghost head = { first_event };

    ghost has = { has_event };

    fn name(self) -> &'static str {
        match self {
            DirectoryEvent::GetS => "GetS",
            DirectoryEvent::GetM => "GetM",
            DirectoryEvent::PutSNotLast => "PutS-NotLast",
            DirectoryEvent::PutSLast => "PutS-Last",
            DirectoryEvent::PutMOwner => "PutM-Owner",
            DirectoryEvent::PutMNonOwner => "PutM-NonOwner",
            DirectoryEvent::Data => "Data",
        }
    }

    fn number(self) -> usize {
        self as usize
    }

    fn all() -> &'static [DirectoryEvent] {
        &DirectoryEvent::ALL
    }

    fn first() -> DirectoryEvent {
        DirectoryEvent::GetS
    }

    fn is_in(self, _protocol: Protocol) -> bool {
        true
    }

    ghost stands = { event_stands };

    ghost found = { event_found };

    ghost plain = { event_plain };
}
