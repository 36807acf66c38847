ghost use Rattle.std.specs.Prelude.{Contains};
ghost use Rattle.pairs.specs.declared.steps.Rule.{Rule};

use crate::pair::Pair;
use crate::side::{Lag, Owned};
use directory_table::DirectoryState;
use network::ForwardKind;

/// A cache, as a pair sees it in which the first one acts.
#[derive(Clone, Copy, PartialEq, Eq, Debug)]
pub enum Party {
    Nobody,
    First,
    Second,
    /// Any cache that isn't of the pair.
    Third,
}

/// What the first cache of a pair does or gets.
#[derive(Clone, Copy, PartialEq, Eq, Debug)]
pub enum Rule {
    AsksLoad,
    AsksStore,
    AsksReplacement,
    /// The head of its link comes to its line.
    TakesHead,
    /// A request of it comes to the home.
    SentGetS,
    SentGetM,
    SentPutS,
    SentPutM,
    /// Data from the home, from another cache, and exclusive Data.
    GetsDirData,
    GetsOwnerData,
    GetsExclData,
    /// An Inv-Ack, which is the last that its line waits for or not, and leaves some owed to it or none.
    GetsInvAck { last: bool, owed: bool },
}

/// What a step makes of a pair.
#[derive(Clone, Copy, PartialEq, Eq, Debug)]
pub enum Sight {
    /// There is no such step here, or it changes nothing.
    Unmoved,
    /// What comes of it isn't followed.
    Lost,
    /// A blank cell is met, or a load returns what may not be the last store's value. The step concerns this cache
    /// besides the first.
    Spoilt(Party),
    /// It leads to this pair, and concerns this cache besides the first.
    Seen(Party, Pair),
}

/// How often a cell has told a requestor, by the acks of its Data, of the other sharers, and how often it has sent these an
/// Inv that names it.
#[derive(Clone, Copy, PartialEq, Eq, Debug)]
pub enum Debt {
    /// As often.
    Even,
    /// They were announced once more.
    Announced,
    /// They were invalidated once more.
    Invalidated,
    /// They changed while it wasn't even, or it can't be followed.
    Uneven,
}

/// A pair at whose home a cell acts.
#[derive(Clone, Copy, PartialEq, Eq, Debug)]
pub struct Scene {
    pub pair: Pair,
    /// Who owns the block, among the actions.
    pub owner: Party,
    /// Whether a cache that isn't of the pair shares.
    pub third_shares: bool,
    pub debt: Debt,
}

impl Rule {
    /// All rules, each once.
    pub const ALL: [Rule; 15] = [
        Rule::AsksLoad,
        Rule::AsksStore,
        Rule::AsksReplacement,
        Rule::TakesHead,
        Rule::SentGetS,
        Rule::SentGetM,
        Rule::SentPutS,
        Rule::SentPutM,
        Rule::GetsDirData,
        Rule::GetsOwnerData,
        Rule::GetsExclData,
        Rule::GetsInvAck {
            last: false,
            owed: false,
        },
        Rule::GetsInvAck {
            last: false,
            owed: true,
        },
        Rule::GetsInvAck {
            last: true,
            owed: false,
        },
        Rule::GetsInvAck {
            last: true,
            owed: true,
        },
    ];
}

/// Each rule is one of all.
pub fn each_rule_is_listed()
    ensures { (rule : Rule) → Contains Rule.ALL rule }
{}

impl Debt {
    ghost use Rattle.std.specs.Prelude.{◌≡◌};
    ghost use Rattle.pairs.specs.Sights.{lag_after, more_announced, more_invalidated, settled_debt};

    /// The requestor was told of the other sharers once more.
    fn announced(self) -> Debt
        ensures { result ≡ more_announced self }
    {
        match self {
            Debt::Even => Debt::Announced,
            Debt::Invalidated => Debt::Even,
            Debt::Announced | Debt::Uneven => Debt::Uneven,
        }
    }

    /// Each other sharer was sent one more Inv that names the requestor, to whom something was owed before or nothing.
    fn invalidated(self, owed: bool) -> Debt
        ensures { result ≡ more_invalidated owed self }
    {
        match self {
            Debt::Even if !owed => Debt::Invalidated,
            Debt::Announced if !owed => Debt::Even,
            _ => Debt::Uneven,
        }
    }

    /// The lag of the requestor where the debt is this in the end, if that tells.
    pub(crate) fn moved(self, lag: Lag) -> Option<Lag>
        ensures { result ≡ lag_after self lag }
    {
        match self {
            Debt::Even => Some(lag),
            Debt::Announced => lag.moved(Lag::Ahead),
            Debt::Invalidated => lag.moved(Lag::Behind),
            Debt::Uneven => None,
        }
    }

    /// The other sharers change.
    fn settled(self) -> Debt
        ensures { result ≡ settled_debt self }
    {
        match self {
            Debt::Even => Debt::Even,
            _ => Debt::Uneven,
        }
    }
}

impl Scene {
    ghost use Rattle.std.specs.Prelude.{◌≡◌, ◌≤◌, true};
    ghost use Rattle.pairs.specs.Marking.{CanBeFollowed};
    ghost use Rattle.pairs.specs.Sights.{announces, forwarded, home_left, invited, others_share, owner_added};
    ghost use Rattle.pairs.specs.inner.Following.{unshared};

    /// Whether some cache besides the first shares.
    fn others_share(&self) -> bool
        ensures { result ≡ others_share self.now }
    {
        self.pair.second.shares || self.third_shares
    }

    /// The requestor is told of the other sharers, by Data on their way to it.
    pub(crate) fn announce(&mut self)
        ensures { self.new ≡ announces self.old }
    {
        if self.others_share() {
            self.debt = self.debt.announced();
        }
    }

    /// An Inv goes onto the link of each other sharer, and names the first cache.
    pub(crate) fn invite(&mut self)
        requires { CanBeFollowed self.old.pair }
        ensures { self.new ≡ invited self.old }
    {
        if !self.others_share() {
            return;
        }
        self.debt = self.debt.invalidated(self.pair.first.owed);
        if self.pair.second.shares {
            self.pair.link_second(ForwardKind::Inv);
        }
        self.pair.first.owed = true;
    }

    /// A forward of this kind goes onto the owner's link, and names the first cache.
    pub(crate) fn forward(&mut self, kind: ForwardKind)
        requires { CanBeFollowed self.old.pair }
        ensures { self.new ≡ forwarded kind self.old }
    {
        self.pair.link_owner(self.owner, kind);
        self.pair.first.name(self.owner, kind);
    }

    /// The owner is one of the sharers from now on.
    pub(crate) fn add_owner(&mut self)
        ensures { self.new ≡ owner_added self.old.owner self.old }
    {
        match self.owner {
            Party::Nobody => {}
            Party::First => self.pair.first.shares = true,
            Party::Second => {
                self.pair.second.shares = true;
                self.debt = self.debt.settled();
            }
            Party::Third => {
                self.third_shares = true;
                self.debt = self.debt.settled();
            }
        }
    }

    /// Nobody shares from now on.
    pub(crate) fn clear_sharers(&mut self)
        ensures { self.new ≡ unshared self.old }
    {
        self.pair.first.shares = false;
        self.pair.second.shares = false;
        self.third_shares = false;
        self.debt = self.debt.settled();
    }

    /// What a request or Data leaves of the home, in its new state.
    pub(crate) fn left(&self, next: DirectoryState) -> Pair
        ensures { result ≡ home_left next self.now }
    {
        let (first_owned, second_owned) = match self.owner {
            Party::Nobody => (Owned::ByNobody, Owned::ByNobody),
            Party::First => (Owned::ByItself, Owned::ByAnother),
            Party::Second => (Owned::ByAnother, Owned::ByItself),
            Party::Third => (Owned::ByAnother, Owned::ByAnother),
        };
        let mut left = self.pair;
        left.shared.home = next;
        left.first.others = self.pair.second.shares || self.third_shares;
        left.first.owned = first_owned;
        left.second.others = self.pair.first.shares || self.third_shares;
        left.second.owned = second_owned;
        left
    }
}
