use base::controller::{Listed, Protocol};

/// One thing that a cache's controller does in a cell (Primer, section 8.2).
///
/// The requestor is the cache whose request a Fwd-GetS, a Fwd-GetM or an Inv serves. On another event there is none,
/// and what goes to it isn't sent.
#[derive(Clone, Copy, PartialEq, Eq, Debug)]
pub enum CacheAction {
    /// `gets`: sends a GetS to the directory.
    GetS,
    /// `getm`: sends a GetM to the directory.
    GetM,
    /// `puts`: sends a PutS to the directory.
    PutS,
    /// `putm`: sends a PutM with the line's value to the directory.
    PutM,
    /// `inv-ack`: sends an Inv-Ack to the requestor.
    InvAck,
    /// `data-req`: sends Data with the line's value to the requestor, with no acknowledgements to wait for.
    DataReq,
    /// `data-dir`: sends Data with the line's value to the directory.
    DataDir,
}

impl CacheAction {
    /// All actions, in order.
    pub const ALL: [CacheAction; 7] = [
        CacheAction::GetS,
        CacheAction::GetM,
        CacheAction::PutS,
        CacheAction::PutM,
        CacheAction::InvAck,
        CacheAction::DataReq,
        CacheAction::DataDir,
    ];
}

impl Listed for CacheAction {
    ghost use Rattle.cache_table.specs.Names.{action_name, action_number, all_actions, first_action};
    ghost use Rattle.cache_table.specs.Table.{has_action};
    ghost use Rattle.cache_table.specs.inner.Standing.{action_found, action_plain, action_stands};

    ghost spelling = { action_name };

    ghost place = { action_number };

    ghost kind = { all_actions };

    ghost head = { first_action };

    ghost has = { has_action };

    fn name(self) -> &'static str {
        match self {
            CacheAction::GetS => "gets",
            CacheAction::GetM => "getm",
            CacheAction::PutS => "puts",
            CacheAction::PutM => "putm",
            CacheAction::InvAck => "inv-ack",
            CacheAction::DataReq => "data-req",
            CacheAction::DataDir => "data-dir",
        }
    }

    fn number(self) -> usize {
        self as usize
    }

    fn all() -> &'static [CacheAction] {
        &CacheAction::ALL
    }

    fn first() -> CacheAction {
        CacheAction::GetS
    }

    fn is_in(self, _protocol: Protocol) -> bool {
        true
    }

    ghost stands = { action_stands };

    ghost found = { action_found };

    ghost plain = { action_plain };
}
