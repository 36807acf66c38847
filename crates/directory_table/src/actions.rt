use base::controller::{Listed, Protocol};

/// One thing that a block's home does in a cell (Primer, section 8.2).
///
/// The requestor is the cache that sent the request, and Data has no requestor. What needs a requestor or an owner is
/// left out if there is none. The actions of a cell are done in order, each on what the last one left.
#[derive(Clone, Copy, PartialEq, Eq, Debug)]
pub enum DirectoryAction {
    /// `data-req`: sends Data with memory's value to the requestor, with no acknowledgements to wait for.
    DataReq,
    /// `data-acks`: sends Data with memory's value to the requestor, which is to wait for an Inv-Ack of each other
    /// sharer.
    DataAcks,
    /// `inv-sharers`: sends an Inv to each sharer but the requestor, which its Inv-Ack is for.
    InvSharers,
    /// `fwd-gets`: forwards the requestor's GetS to the owner.
    FwdGetS,
    /// `fwd-getm`: forwards the requestor's GetM to the owner.
    FwdGetM,
    /// `put-ack`: sends a Put-Ack to the requestor.
    PutAck,
    /// `add-req`: the requestor is one of the sharers from now on.
    AddReq,
    /// `add-owner`: the owner is one of the sharers from now on.
    AddOwner,
    /// `remove-req`: the requestor isn't one of the sharers from now on.
    RemoveReq,
    /// `clear-sharers`: there are no sharers from now on.
    ClearSharers,
    /// `clear-owner`: there is no owner from now on.
    ClearOwner,
    /// `set-owner`: the requestor is the owner from now on.
    SetOwner,
    /// `copy-data`: memory takes the value that came with a PutM or a Data. On another event it does nothing.
    CopyData,
    /// `data-excl`: sends Data with memory's value to the requestor, which may come to write without asking.
    DataExcl,
}

impl DirectoryAction {
    /// All actions, in order.
    pub const ALL: [DirectoryAction; 14] = [
        DirectoryAction::DataReq,
        DirectoryAction::DataAcks,
        DirectoryAction::InvSharers,
        DirectoryAction::FwdGetS,
        DirectoryAction::FwdGetM,
        DirectoryAction::PutAck,
        DirectoryAction::AddReq,
        DirectoryAction::AddOwner,
        DirectoryAction::RemoveReq,
        DirectoryAction::ClearSharers,
        DirectoryAction::ClearOwner,
        DirectoryAction::SetOwner,
        DirectoryAction::CopyData,
        DirectoryAction::DataExcl,
    ];
}

impl Listed for DirectoryAction {
    ghost use Rattle.directory_table.specs.Names.{action_name, action_number, all_actions, first_action};
    ghost use Rattle.directory_table.specs.Table.{has_action};
    ghost use Rattle.directory_table.specs.inner.Standing.{action_found, action_plain, action_stands};

    ghost spelling = { action_name };

    ghost place = { action_number };

    ghost kind = { all_actions };

    ghost head = { first_action };

    ghost has = { has_action };

    fn name(self) -> &'static str {
        match self {
            DirectoryAction::DataReq => "data-req",
            DirectoryAction::DataAcks => "data-acks",
            DirectoryAction::InvSharers => "inv-sharers",
            DirectoryAction::FwdGetS => "fwd-gets",
            DirectoryAction::FwdGetM => "fwd-getm",
            DirectoryAction::PutAck => "put-ack",
            DirectoryAction::AddReq => "add-req",
            DirectoryAction::AddOwner => "add-owner",
            DirectoryAction::RemoveReq => "remove-req",
            DirectoryAction::ClearSharers => "clear-sharers",
            DirectoryAction::ClearOwner => "clear-owner",
            DirectoryAction::SetOwner => "set-owner",
            DirectoryAction::CopyData => "copy-data",
            DirectoryAction::DataExcl => "data-excl",
        }
    }

    fn number(self) -> usize {
        self as usize
    }

    fn all() -> &'static [DirectoryAction] {
        &DirectoryAction::ALL
    }

    fn first() -> DirectoryAction {
        DirectoryAction::DataReq
    }

    fn is_in(self, protocol: Protocol) -> bool {
        match (protocol, self) {
            (Protocol::Msi, DirectoryAction::DataExcl) => false,
            _ => true,
        }
    }

    ghost stands = { action_stands };

    ghost found = { action_found };

    ghost plain = { action_plain };
}
