use base::controller::{Listed, Protocol};

/// The state of a block's line in a cache (Primer, section 8.2).
///
/// A state with two letters is on its way from the first to the second. Behind them stands what it waits for: `D` for
/// Data, `A` for acknowledgements.
#[derive(Clone, Copy, PartialEq, Eq, Debug)]
pub enum CacheState {
    /// `I`: there is no copy.
    I,
    /// `IS^D`: a load has sent a GetS, and waits for its Data.
    IsD,
    /// `IM^AD`: a store has sent a GetM, and waits for its Data and for the Inv-Acks of the sharers.
    ImAd,
    /// `IM^A`: the Data of a store has come, and some Inv-Acks haven't.
    ImA,
    /// `S`: there is a copy to read, and other caches may have one too.
    S,
    /// `SM^AD`: a store at a shared copy has sent a GetM, and waits as in `IM^AD`. The copy can still be read.
    SmAd,
    /// `SM^A`: the Data of a store at a shared copy has come, and some Inv-Acks haven't. The copy can still be read.
    SmA,
    /// `M`: this cache has the only copy, to read and to write. It is the owner.
    M,
    /// `MI^A`: the owner has sent a PutM, and waits for the Put-Ack.
    MiA,
    /// `SI^A`: a sharer gives its copy up, and waits for the Put-Ack.
    SiA,
    /// `II^A`: the copy went while the cache was giving it up, and only the Put-Ack is still to come.
    IiA,
    /// `E`: this cache has the only copy, as memory has it. It is the owner, and may come to write without asking.
    E,
}

impl CacheState {
    /// All states, in the order of a table's rows.
    pub const ALL: [CacheState; 12] = [
        CacheState::I,
        CacheState::IsD,
        CacheState::ImAd,
        CacheState::ImA,
        CacheState::S,
        CacheState::SmAd,
        CacheState::SmA,
        CacheState::M,
        CacheState::MiA,
        CacheState::SiA,
        CacheState::IiA,
        CacheState::E,
    ];
}

impl Listed for CacheState {
    ghost use Rattle.cache_table.specs.Names.{state_name, first_state};
    ghost use Rattle.cache_table.specs.Table.{state_number, has_state};
    ghost use Rattle.cache_table.specs.Baseline.{all_states};
    ghost use Rattle.cache_table.specs.inner.Standing.{state_found, state_plain, state_stands};

    ghost spelling = { state_name };

    ghost place = { state_number };

    ghost kind = { all_states };

    ghost head = { first_state };

    ghost has = { has_state };

    fn name(self) -> &'static str {
        match self {
            CacheState::I => "I",
            CacheState::IsD => "IS^D",
            CacheState::ImAd => "IM^AD",
            CacheState::ImA => "IM^A",
            CacheState::S => "S",
            CacheState::SmAd => "SM^AD",
            CacheState::SmA => "SM^A",
            CacheState::M => "M",
            CacheState::MiA => "MI^A",
            CacheState::SiA => "SI^A",
            CacheState::IiA => "II^A",
            CacheState::E => "E",
        }
    }

    fn number(self) -> usize {
        self as usize
    }

    fn all() -> &'static [CacheState] {
        &CacheState::ALL
    }

    fn first() -> CacheState {
        CacheState::I
    }

    fn is_in(self, protocol: Protocol) -> bool {
        match (protocol, self) {
            (Protocol::Msi, CacheState::E) => false,
            _ => true,
        }
    }

    ghost stands = { state_stands };

    ghost found = { state_found };

    ghost plain = { state_plain };
}
