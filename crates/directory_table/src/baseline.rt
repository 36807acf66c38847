ghost use Rattle.std.specs.Prelude.{◌≡◌};
ghost use Rattle.base.specs.declared.controller.protocol.Protocol.TheVariants.{Msi};
ghost use Rattle.directory_table.specs.Baseline.{baseline_cells, baseline_row};

use crate::actions::DirectoryAction::{
    AddOwner, AddReq, ClearOwner, ClearSharers, CopyData, DataAcks, DataExcl, DataReq, FwdGetM,
    FwdGetS, InvSharers, PutAck, RemoveReq, SetOwner,
};
use crate::state::DirectoryState::{self, I, M, S, SD};
use crate::table::DirectoryEntry;
use base::controller::CellEntry::{Blank, Stall};
use base::controller::Protocol;

/// The rows of a protocol's baseline (after Primer, section 8.2), each with its cells in the order of the events.
pub(crate) fn baseline_rows(protocol: Protocol) -> [[DirectoryEntry; 7]; 4]
    ensures { result ≡ baseline_cells protocol }
{
    [i_row(protocol), s_row(), m_row(), s_d_row()]
}

fn i_row(protocol: Protocol) -> [DirectoryEntry; 7]
    ensures { result ≡ baseline_row protocol DirectoryState.I }
{
    match protocol {
        Protocol::Msi => [
            DirectoryEntry::two(DataReq, AddReq, S), // I, GetS
            DirectoryEntry::two(DataReq, SetOwner, M), // I, GetM
            DirectoryEntry::one(PutAck, I), // I, PutS-NotLast
            DirectoryEntry::one(PutAck, I), // I, PutS-Last
            Blank, // I, PutM-Owner
            DirectoryEntry::one(PutAck, I), // I, PutM-NonOwner
            Blank, // I, Data
        ],
        Protocol::MsiE => [
            DirectoryEntry::two(DataExcl, SetOwner, M), // I, GetS
            DirectoryEntry::two(DataReq, SetOwner, M), // I, GetM
            DirectoryEntry::one(PutAck, I), // I, PutS-NotLast
            DirectoryEntry::one(PutAck, I), // I, PutS-Last
            Blank, // I, PutM-Owner
            DirectoryEntry::one(PutAck, I), // I, PutM-NonOwner
            Blank, // I, Data
        ],
    }
}

fn s_row() -> [DirectoryEntry; 7]
    ensures { result ≡ baseline_row Msi DirectoryState.S }
{
    [
        DirectoryEntry::two(DataReq, AddReq, S), // S, GetS
        DirectoryEntry::four(DataAcks, InvSharers, ClearSharers, SetOwner, M), // S, GetM
        DirectoryEntry::two(RemoveReq, PutAck, S), // S, PutS-NotLast
        DirectoryEntry::two(RemoveReq, PutAck, I), // S, PutS-Last
        Blank, // S, PutM-Owner
        DirectoryEntry::two(RemoveReq, PutAck, S), // S, PutM-NonOwner
        Blank, // S, Data
    ]
}

fn m_row() -> [DirectoryEntry; 7]
    ensures { result ≡ baseline_row Msi DirectoryState.M }
{
    [
        DirectoryEntry::four(FwdGetS, AddReq, AddOwner, ClearOwner, SD), // M, GetS
        DirectoryEntry::two(FwdGetM, SetOwner, M), // M, GetM
        DirectoryEntry::one(PutAck, M), // M, PutS-NotLast
        DirectoryEntry::one(PutAck, M), // M, PutS-Last
        DirectoryEntry::three(CopyData, ClearOwner, PutAck, I), // M, PutM-Owner
        DirectoryEntry::one(PutAck, M), // M, PutM-NonOwner
        Blank, // M, Data
    ]
}

fn s_d_row() -> [DirectoryEntry; 7]
    ensures { result ≡ baseline_row Msi DirectoryState.SD }
{
    [
        Stall, // S^D, GetS
        Stall, // S^D, GetM
        DirectoryEntry::two(RemoveReq, PutAck, SD), // S^D, PutS-NotLast
        DirectoryEntry::two(RemoveReq, PutAck, SD), // S^D, PutS-Last
        Blank, // S^D, PutM-Owner
        DirectoryEntry::two(RemoveReq, PutAck, SD), // S^D, PutM-NonOwner
        DirectoryEntry::one(CopyData, S), // S^D, Data
    ]
}
