use base::controller::{Listed, Protocol};

/// What happens to a block's line in a cache (Primer, section 8.2).
///
/// The first three come from the core, the next four on the link from the directory, and the others are
/// responses.
#[derive(Clone, Copy, PartialEq, Eq, Debug)]
pub enum CacheEvent {
    /// `Load`: the core reads the block.
    Load,
    /// `Store`: the core writes the block.
    Store,
    /// `Replacement`: the cache is to give the block up.
    Replacement,
    /// `Fwd-GetS`: the directory forwards another cache's GetS to the owner.
    FwdGetS,
    /// `Fwd-GetM`: the directory forwards another cache's GetM to the owner.
    FwdGetM,
    /// `Inv`: the directory asks a sharer to invalidate its copy, for another cache's GetM.
    Inv,
    /// `Put-Ack`: the directory has served this cache's PutS or PutM.
    PutAck,
    /// `Data-Dir-Zero`: Data from the directory, after which no Inv-Ack is awaited.
    DataDirZero,
    /// `Data-Dir-More`: Data from the directory, after which the Inv-Acks announced and those counted differ.
    DataDirMore,
    /// `Data-Owner`: Data from the cache that was the owner.
    DataOwner,
    /// `Inv-Ack`: a sharer has invalidated its copy, and this isn't the last Inv-Ack that is awaited.
    InvAck,
    /// `Last-Inv-Ack`: a sharer has invalidated its copy, and this is the last Inv-Ack that is awaited.
    LastInvAck,
    /// `Data-Dir-Excl`: Data from the directory, by which this cache is the owner.
    DataDirExcl,
}

impl CacheEvent {
    /// All events, in the order of a table's columns.
    pub const ALL: [CacheEvent; 13] = [
        CacheEvent::Load,
        CacheEvent::Store,
        CacheEvent::Replacement,
        CacheEvent::FwdGetS,
        CacheEvent::FwdGetM,
        CacheEvent::Inv,
        CacheEvent::PutAck,
        CacheEvent::DataDirZero,
        CacheEvent::DataDirMore,
        CacheEvent::DataOwner,
        CacheEvent::InvAck,
        CacheEvent::LastInvAck,
        CacheEvent::DataDirExcl,
    ];
}

impl Listed for CacheEvent {
    ghost use Rattle.cache_table.specs.Names.{event_name, first_event};
    ghost use Rattle.cache_table.specs.Table.{event_number, has_event};
    ghost use Rattle.cache_table.specs.Baseline.{all_events};
    ghost use Rattle.cache_table.specs.inner.Standing.{event_found, event_plain, event_stands};

    ghost spelling = { event_name };

    ghost place = { event_number };

    ghost kind = { all_events };

    ghost head = { first_event };

    ghost has = { has_event };

    fn name(self) -> &'static str {
        match self {
            CacheEvent::Load => "Load",
            CacheEvent::Store => "Store",
            CacheEvent::Replacement => "Replacement",
            CacheEvent::FwdGetS => "Fwd-GetS",
            CacheEvent::FwdGetM => "Fwd-GetM",
            CacheEvent::Inv => "Inv",
            CacheEvent::PutAck => "Put-Ack",
            CacheEvent::DataDirZero => "Data-Dir-Zero",
            CacheEvent::DataDirMore => "Data-Dir-More",
            CacheEvent::DataOwner => "Data-Owner",
            CacheEvent::InvAck => "Inv-Ack",
            CacheEvent::LastInvAck => "Last-Inv-Ack",
            CacheEvent::DataDirExcl => "Data-Dir-Excl",
        }
    }

    fn number(self) -> usize {
        self as usize
    }

    fn all() -> &'static [CacheEvent] {
        &CacheEvent::ALL
    }

    fn first() -> CacheEvent {
        CacheEvent::Load
    }

    fn is_in(self, protocol: Protocol) -> bool {
        match (protocol, self) {
            (Protocol::Msi, CacheEvent::DataDirExcl) => false,
            _ => true,
        }
    }

    ghost stands = { event_stands };

    ghost found = { event_found };

    ghost plain = { event_plain };
}
