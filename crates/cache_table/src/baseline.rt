ghost use Rattle.std.specs.Prelude.{◌≡◌};
ghost use Rattle.base.specs.declared.controller.protocol.Protocol.TheVariants.{Msi};
ghost use Rattle.cache_table.specs.Baseline.{baseline_cells, baseline_row};

use crate::actions::CacheAction::{DataDir, DataReq, GetM, GetS, InvAck, PutM, PutS};
use crate::state::CacheState::{self, E, I, IiA, ImA, ImAd, IsD, M, MiA, S, SiA, SmA, SmAd};
use crate::table::CacheEntry;
use base::controller::CellEntry::{Blank, Stall};
use base::controller::Protocol;

/// The rows of a protocol's baseline (after Primer, section 8.2), each with its cells in the order of the events.
pub(crate) fn baseline_rows(protocol: Protocol) -> [[CacheEntry; 13]; 12]
    ensures { result ≡ baseline_cells protocol }
{
    [
        i_row(),
        is_d_row(protocol),
        im_ad_row(),
        im_a_row(),
        s_row(),
        sm_ad_row(),
        sm_a_row(),
        m_row(),
        mi_a_row(),
        si_a_row(),
        ii_a_row(),
        e_row(protocol),
    ]
}

fn i_row() -> [CacheEntry; 13]
    ensures { result ≡ baseline_row Msi CacheState.I }
{
    [
        CacheEntry::one(GetS, IsD), // I, Load
        CacheEntry::one(GetM, ImAd), // I, Store
        Blank, // I, Replacement
        Blank, // I, Fwd-GetS
        Blank, // I, Fwd-GetM
        Blank, // I, Inv
        Blank, // I, Put-Ack
        Blank, // I, Data-Dir-Zero
        Blank, // I, Data-Dir-More
        Blank, // I, Data-Owner
        Blank, // I, Inv-Ack
        Blank, // I, Last-Inv-Ack
        Blank, // I, Data-Dir-Excl
    ]
}

fn is_d_row(protocol: Protocol) -> [CacheEntry; 13]
    ensures { result ≡ baseline_row protocol CacheState.IsD }
{
    match protocol {
        Protocol::Msi => [
            Stall, // IS^D, Load
            Stall, // IS^D, Store
            Stall, // IS^D, Replacement
            Blank, // IS^D, Fwd-GetS
            Blank, // IS^D, Fwd-GetM
            Stall, // IS^D, Inv
            Blank, // IS^D, Put-Ack
            CacheEntry::quiet(S), // IS^D, Data-Dir-Zero
            Blank, // IS^D, Data-Dir-More
            CacheEntry::quiet(S), // IS^D, Data-Owner
            Blank, // IS^D, Inv-Ack
            Blank, // IS^D, Last-Inv-Ack
            Blank, // IS^D, Data-Dir-Excl
        ],
        Protocol::MsiE => [
            Stall, // IS^D with E, Load
            Stall, // IS^D with E, Store
            Stall, // IS^D with E, Replacement
            Stall, // IS^D with E, Fwd-GetS
            Stall, // IS^D with E, Fwd-GetM
            Stall, // IS^D with E, Inv
            Blank, // IS^D with E, Put-Ack
            CacheEntry::quiet(S), // IS^D with E, Data-Dir-Zero
            Blank, // IS^D with E, Data-Dir-More
            CacheEntry::quiet(S), // IS^D with E, Data-Owner
            Blank, // IS^D with E, Inv-Ack
            Blank, // IS^D with E, Last-Inv-Ack
            CacheEntry::quiet(E), // IS^D with E, Data-Dir-Excl
        ],
    }
}

fn im_ad_row() -> [CacheEntry; 13]
    ensures { result ≡ baseline_row Msi CacheState.ImAd }
{
    [
        Stall, // IM^AD, Load
        Stall, // IM^AD, Store
        Stall, // IM^AD, Replacement
        Stall, // IM^AD, Fwd-GetS
        Stall, // IM^AD, Fwd-GetM
        Blank, // IM^AD, Inv
        Blank, // IM^AD, Put-Ack
        CacheEntry::quiet(M), // IM^AD, Data-Dir-Zero
        CacheEntry::quiet(ImA), // IM^AD, Data-Dir-More
        CacheEntry::quiet(M), // IM^AD, Data-Owner
        CacheEntry::quiet(ImAd), // IM^AD, Inv-Ack
        Blank, // IM^AD, Last-Inv-Ack
        Blank, // IM^AD, Data-Dir-Excl
    ]
}

fn im_a_row() -> [CacheEntry; 13]
    ensures { result ≡ baseline_row Msi CacheState.ImA }
{
    [
        Stall, // IM^A, Load
        Stall, // IM^A, Store
        Stall, // IM^A, Replacement
        Stall, // IM^A, Fwd-GetS
        Stall, // IM^A, Fwd-GetM
        Blank, // IM^A, Inv
        Blank, // IM^A, Put-Ack
        Blank, // IM^A, Data-Dir-Zero
        Blank, // IM^A, Data-Dir-More
        Blank, // IM^A, Data-Owner
        CacheEntry::quiet(ImA), // IM^A, Inv-Ack
        CacheEntry::quiet(M), // IM^A, Last-Inv-Ack
        Blank, // IM^A, Data-Dir-Excl
    ]
}

fn s_row() -> [CacheEntry; 13]
    ensures { result ≡ baseline_row Msi CacheState.S }
{
    [
        CacheEntry::quiet(S), // S, Load
        CacheEntry::one(GetM, SmAd), // S, Store
        CacheEntry::one(PutS, SiA), // S, Replacement
        Blank, // S, Fwd-GetS
        Blank, // S, Fwd-GetM
        CacheEntry::one(InvAck, I), // S, Inv
        Blank, // S, Put-Ack
        Blank, // S, Data-Dir-Zero
        Blank, // S, Data-Dir-More
        Blank, // S, Data-Owner
        Blank, // S, Inv-Ack
        Blank, // S, Last-Inv-Ack
        Blank, // S, Data-Dir-Excl
    ]
}

fn sm_ad_row() -> [CacheEntry; 13]
    ensures { result ≡ baseline_row Msi CacheState.SmAd }
{
    [
        CacheEntry::quiet(SmAd), // SM^AD, Load
        Stall, // SM^AD, Store
        Stall, // SM^AD, Replacement
        Stall, // SM^AD, Fwd-GetS
        Stall, // SM^AD, Fwd-GetM
        CacheEntry::one(InvAck, ImAd), // SM^AD, Inv
        Blank, // SM^AD, Put-Ack
        CacheEntry::quiet(M), // SM^AD, Data-Dir-Zero
        CacheEntry::quiet(SmA), // SM^AD, Data-Dir-More
        Blank, // SM^AD, Data-Owner
        CacheEntry::quiet(SmAd), // SM^AD, Inv-Ack
        Blank, // SM^AD, Last-Inv-Ack
        Blank, // SM^AD, Data-Dir-Excl
    ]
}

fn sm_a_row() -> [CacheEntry; 13]
    ensures { result ≡ baseline_row Msi CacheState.SmA }
{
    [
        CacheEntry::quiet(SmA), // SM^A, Load
        Stall, // SM^A, Store
        Stall, // SM^A, Replacement
        Stall, // SM^A, Fwd-GetS
        Stall, // SM^A, Fwd-GetM
        Blank, // SM^A, Inv
        Blank, // SM^A, Put-Ack
        Blank, // SM^A, Data-Dir-Zero
        Blank, // SM^A, Data-Dir-More
        Blank, // SM^A, Data-Owner
        CacheEntry::quiet(SmA), // SM^A, Inv-Ack
        CacheEntry::quiet(M), // SM^A, Last-Inv-Ack
        Blank, // SM^A, Data-Dir-Excl
    ]
}

fn m_row() -> [CacheEntry; 13]
    ensures { result ≡ baseline_row Msi CacheState.M }
{
    [
        CacheEntry::quiet(M), // M, Load
        CacheEntry::quiet(M), // M, Store
        CacheEntry::one(PutM, MiA), // M, Replacement
        CacheEntry::two(DataReq, DataDir, S), // M, Fwd-GetS
        CacheEntry::one(DataReq, I), // M, Fwd-GetM
        Blank, // M, Inv
        Blank, // M, Put-Ack
        Blank, // M, Data-Dir-Zero
        Blank, // M, Data-Dir-More
        Blank, // M, Data-Owner
        Blank, // M, Inv-Ack
        Blank, // M, Last-Inv-Ack
        Blank, // M, Data-Dir-Excl
    ]
}

fn mi_a_row() -> [CacheEntry; 13]
    ensures { result ≡ baseline_row Msi CacheState.MiA }
{
    [
        Stall, // MI^A, Load
        Stall, // MI^A, Store
        Stall, // MI^A, Replacement
        CacheEntry::two(DataReq, DataDir, SiA), // MI^A, Fwd-GetS
        CacheEntry::one(DataReq, IiA), // MI^A, Fwd-GetM
        Blank, // MI^A, Inv
        CacheEntry::quiet(I), // MI^A, Put-Ack
        Blank, // MI^A, Data-Dir-Zero
        Blank, // MI^A, Data-Dir-More
        Blank, // MI^A, Data-Owner
        Blank, // MI^A, Inv-Ack
        Blank, // MI^A, Last-Inv-Ack
        Blank, // MI^A, Data-Dir-Excl
    ]
}

fn si_a_row() -> [CacheEntry; 13]
    ensures { result ≡ baseline_row Msi CacheState.SiA }
{
    [
        Stall, // SI^A, Load
        Stall, // SI^A, Store
        Stall, // SI^A, Replacement
        Blank, // SI^A, Fwd-GetS
        Blank, // SI^A, Fwd-GetM
        CacheEntry::one(InvAck, IiA), // SI^A, Inv
        CacheEntry::quiet(I), // SI^A, Put-Ack
        Blank, // SI^A, Data-Dir-Zero
        Blank, // SI^A, Data-Dir-More
        Blank, // SI^A, Data-Owner
        Blank, // SI^A, Inv-Ack
        Blank, // SI^A, Last-Inv-Ack
        Blank, // SI^A, Data-Dir-Excl
    ]
}

fn ii_a_row() -> [CacheEntry; 13]
    ensures { result ≡ baseline_row Msi CacheState.IiA }
{
    [
        Stall, // II^A, Load
        Stall, // II^A, Store
        Stall, // II^A, Replacement
        Blank, // II^A, Fwd-GetS
        Blank, // II^A, Fwd-GetM
        Blank, // II^A, Inv
        CacheEntry::quiet(I), // II^A, Put-Ack
        Blank, // II^A, Data-Dir-Zero
        Blank, // II^A, Data-Dir-More
        Blank, // II^A, Data-Owner
        Blank, // II^A, Inv-Ack
        Blank, // II^A, Last-Inv-Ack
        Blank, // II^A, Data-Dir-Excl
    ]
}

fn e_row(protocol: Protocol) -> [CacheEntry; 13]
    ensures { result ≡ baseline_row protocol CacheState.E }
{
    match protocol {
        Protocol::Msi => [Blank; 13],
        Protocol::MsiE => [
            CacheEntry::quiet(E), // E, Load
            CacheEntry::quiet(M), // E, Store
            CacheEntry::one(PutM, MiA), // E, Replacement
            CacheEntry::two(DataReq, DataDir, S), // E, Fwd-GetS
            CacheEntry::one(DataReq, I), // E, Fwd-GetM
            Blank, // E, Inv
            Blank, // E, Put-Ack
            Blank, // E, Data-Dir-Zero
            Blank, // E, Data-Dir-More
            Blank, // E, Data-Owner
            Blank, // E, Inv-Ack
            Blank, // E, Last-Inv-Ack
            Blank, // E, Data-Dir-Excl
        ],
    }
}
