//! Whether two pairs are the same, part by part: each part is looked at, with no branch between.

ghost use Rattle.std.specs.Prelude.{◌≡◌, ◌↔◌, IsTrue};
ghost use Rattle.pairs.specs.inner.Alike.{AreNamedAlike, AskAlike, GetAlike, HaveLinesAlike, StandAlike};

use crate::link::LinkPlace;
use crate::pair::{Pair, Shared};
use crate::side::{PairSide, Waiting};
use crate::steps::Rule;

impl LinkPlace {
    /// Whether both are the same.
    pub fn is_same(&self, other: &LinkPlace) -> bool
        ensures { IsTrue result ↔ (self.now ≡ other.now) }
    {
        (self.kind == other.kind) & (self.own == other.own)
    }
}

impl Shared {
    /// Whether both are the same.
    pub fn is_same(&self, other: &Shared) -> bool
        ensures { IsTrue result ↔ (self.now ≡ other.now) }
    {
        (self.home == other.home)
            & (self.fresh_memory == other.fresh_memory)
            & (self.home_data == other.home_data)
            & (self.fresh_home_data == other.fresh_home_data)
    }
}

/// Whether two caches wait for the same.
fn wait_alike(one: Option<Waiting>, other: Option<Waiting>) -> bool
    ensures { IsTrue result ↔ (one ≡ other) }
{
    match (one, other) {
        (None, None) => true,
        (Some(one), Some(other)) => one == other,
        _ => false,
    }
}

impl PairSide {
    /// Whether both have the same requests on their way.
    fn asks_alike(&self, other: &PairSide) -> bool
        ensures { IsTrue result ↔ AskAlike self.now other.now }
    {
        (self.gets == other.gets)
            & (self.getm == other.getm)
            & (self.puts == other.puts)
            & (self.putm == other.putm)
            & (self.fresh_putm == other.fresh_putm)
    }

    /// Whether both have the same Data on their way to them.
    fn gets_alike(&self, other: &PairSide) -> bool
        ensures { IsTrue result ↔ GetAlike self.now other.now }
    {
        (self.dir_data == other.dir_data)
            & (self.owner_data == other.owner_data)
            & (self.excl_data == other.excl_data)
            & (self.fresh_data == other.fresh_data)
    }

    /// Whether both are named alike, and have the same link.
    fn is_named_alike(&self, other: &PairSide) -> bool
        ensures { IsTrue result ↔ AreNamedAlike self.now other.now }
    {
        (self.fwd_gets == other.fwd_gets)
            & (self.fwd_getm == other.fwd_getm)
            & self.link.is_same(&other.link)
    }

    /// Whether both have the same line.
    fn has_line_alike(&self, other: &PairSide) -> bool
        ensures { IsTrue result ↔ HaveLinesAlike self.now other.now }
    {
        (self.state == other.state)
            & wait_alike(self.waits, other.waits)
            & (self.fresh == other.fresh)
            & (self.low == other.low)
    }

    /// Whether both are owed and await, share and own alike.
    fn stands_alike(&self, other: &PairSide) -> bool
        ensures { IsTrue result ↔ StandAlike self.now other.now }
    {
        (self.owed == other.owed)
            & (self.lag == other.lag)
            & (self.shares == other.shares)
            & (self.others == other.others)
            & (self.owned == other.owned)
    }

    /// Whether both are the same.
    pub fn is_same(&self, other: &PairSide) -> bool
        ensures { IsTrue result ↔ (self.now ≡ other.now) }
    {
        self.has_line_alike(other)
            & self.stands_alike(other)
            & self.asks_alike(other)
            & self.gets_alike(other)
            & self.is_named_alike(other)
    }
}

impl Pair {
    /// Whether both are the same.
    pub fn is_same(&self, other: &Pair) -> bool
        ensures { IsTrue result ↔ (self.now ≡ other.now) }
    {
        self.shared.is_same(&other.shared)
            & self.first.is_same(&other.first)
            & self.second.is_same(&other.second)
            & self.first_names.is_same(&other.first_names)
            & self.second_names.is_same(&other.second_names)
    }
}

impl Rule {
    /// Whether both are the same.
    pub fn is_same(self, other: Rule) -> bool
        ensures { IsTrue result ↔ (self ≡ other) }
    {
        match self {
            Rule::AsksLoad => matches!(other, Rule::AsksLoad),
            Rule::AsksStore => matches!(other, Rule::AsksStore),
            Rule::AsksReplacement => matches!(other, Rule::AsksReplacement),
            Rule::TakesHead => matches!(other, Rule::TakesHead),
            Rule::SentGetS => matches!(other, Rule::SentGetS),
            Rule::SentGetM => matches!(other, Rule::SentGetM),
            Rule::SentPutS => matches!(other, Rule::SentPutS),
            Rule::SentPutM => matches!(other, Rule::SentPutM),
            Rule::GetsDirData => matches!(other, Rule::GetsDirData),
            Rule::GetsOwnerData => matches!(other, Rule::GetsOwnerData),
            Rule::GetsExclData => matches!(other, Rule::GetsExclData),
            Rule::GetsInvAck { last, owed } => match other {
                Rule::GetsInvAck {
                    last: other_last,
                    owed: other_owed,
                } => (last == other_last) & (owed == other_owed),
                _ => false,
            },
        }
    }
}
