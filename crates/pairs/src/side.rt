ghost use Rattle.std.specs.Prelude.{◌≡◌};
ghost use Rattle.pairs.specs.Pairs.{owners_fit};
ghost use Rattle.pairs.specs.Sights.{acks_awaited, shifted, still_owed};

use crate::link::Link;
use crate::marks::Marks;
use crate::steps::Party;
use cache_table::CacheState;
use network::ForwardKind;

/// What a core waits for at a line.
#[derive(Clone, Copy, PartialEq, Eq, Debug)]
pub enum Waiting {
    Load,
    Store,
}

/// Who the block's owner is, as a cache knows it.
#[derive(Clone, Copy, PartialEq, Eq, Debug)]
pub enum Owned {
    ByNobody,
    ByItself,
    ByAnother,
}

/// How many Inv-Acks a cache awaits, in its line and by Data from the home that announce them, beside how many are owed to it.
#[derive(Clone, Copy, PartialEq, Eq, Debug)]
pub enum Lag {
    /// Fewer are awaited than are owed.
    Behind,
    /// As many.
    Level,
    /// More are awaited.
    Ahead,
}

/// What concerns one cache. What is fresh is known to be the value of the block's last store; of what isn't nothing is
/// known. Where there is none of a kind, it counts as fresh.
#[derive(Clone, Copy, PartialEq, Eq, Debug)]
pub struct PairSide {
    pub state: CacheState,
    pub waits: Option<Waiting>,
    /// Whether the line's value is fresh.
    pub fresh: bool,
    /// How many GetS of the cache are on their way, and of the other requests below.
    pub gets: u8,
    pub getm: u8,
    pub puts: u8,
    pub putm: u8,
    /// Whether each PutM of the cache brings a fresh value.
    pub fresh_putm: bool,
    /// How many Data from the home are on their way to the cache.
    pub dir_data: u8,
    /// How many Data from other caches.
    pub owner_data: u8,
    /// How many exclusive Data.
    pub excl_data: u8,
    /// Whether all Data on their way to the cache bring a fresh value.
    pub fresh_data: bool,
    /// Whether the Inv-Acks that the line still counts on are at most 0.
    pub low: bool,
    /// Whether an Inv names the cache, or an Inv-Ack is on its way to it.
    pub owed: bool,
    /// What is awaited beside what is owed.
    pub lag: Lag,
    /// How many Fwd-GetS name the cache, on any link.
    pub fwd_gets: u8,
    /// How many Fwd-GetM name the cache, on any link.
    pub fwd_getm: u8,
    pub link: Link,
    pub shares: bool,
    /// Whether some other cache shares.
    pub others: bool,
    pub owned: Owned,
}

impl Owned {
    /// Whether two caches agree on who owns the block, of which the first knows this and the second the other.
    pub(crate) fn fits(self, other: Owned) -> bool
        ensures { result ≡ owners_fit self other }
    {
        match (self, other) {
            (Owned::ByNobody, Owned::ByNobody)
            | (Owned::ByItself, Owned::ByAnother)
            | (Owned::ByAnother, Owned::ByItself)
            | (Owned::ByAnother, Owned::ByAnother) => true,
            _ => false,
        }
    }
}

impl Lag {
    /// The lag where it was moved by another one, if that tells.
    pub(crate) fn moved(self, by: Lag) -> Option<Lag>
        ensures { result ≡ shifted by self }
    {
        match (by, self) {
            (Lag::Level, lag) => Some(lag),
            (Lag::Behind, Lag::Ahead) | (Lag::Ahead, Lag::Behind) => None,
            (Lag::Behind, _) => Some(Lag::Behind),
            (Lag::Ahead, _) => Some(Lag::Ahead),
        }
    }

    /// Whether acks are owed, where the lag was moved by this one, to a cache to whom they were owed before or not. Where
    /// one is owed less, that is guessed.
    pub(crate) fn leaves_owed(self, guess: bool, owed: bool) -> bool
        ensures { result ≡ still_owed guess self owed }
    {
        match self {
            Lag::Level => owed,
            Lag::Ahead => guess,
            Lag::Behind => true,
        }
    }

    /// How many acks a line awaits to whom all are announced, if that is known: none, or fewer or more than none. Some are
    /// still owed to it or not.
    pub fn acks_awaited(self, owed: bool) -> Option<Lag>
        ensures { result ≡ acks_awaited self owed }
    {
        let coming = if owed { Lag::Ahead } else { Lag::Level };
        self.moved(coming)
    }
}

impl PairSide {
    ghost use Rattle.std.specs.Prelude.{◌≡◌, ◌≤◌, ◌==◌};
    ghost use Rattle.pairs.specs.Pairs.{data_to, is_few_side, names_fit, opened_side, trimmed};
    ghost use Rattle.pairs.specs.Sights.{dir_data_sent, excl_data_sent, named, owner_data_sent, putm_sent};
    ghost use Rattle.pairs.specs.Sights.{stale, unnamed_side, with_data};

    /// A cache that nothing has happened to.
    pub(crate) fn opened() -> PairSide
        ensures { result ≡ opened_side }
    {
        PairSide {
            state: CacheState::I,
            waits: None,
            fresh: false,
            gets: 0,
            getm: 0,
            puts: 0,
            putm: 0,
            fresh_putm: true,
            dir_data: 0,
            owner_data: 0,
            excl_data: 0,
            fresh_data: true,
            low: true,
            owed: false,
            lag: Lag::Level,
            fwd_gets: 0,
            fwd_getm: 0,
            link: Link::empty(),
            shares: false,
            others: false,
            owned: Owned::ByNobody,
        }
    }

    /// Whether no Data are on their way to the cache.
    fn lacks_data(&self) -> bool
        ensures { result ≡ (data_to self.now == 0) }
    {
        self.dir_data == 0 && self.owner_data == 0 && self.excl_data == 0
    }

    /// Lets what isn't there count as fresh.
    pub(crate) fn trim(&mut self)
        ensures { self.new ≡ trimmed self.old }
    {
        self.fresh_putm = self.fresh_putm || self.putm == 0;
        self.fresh_data = self.fresh_data || self.lacks_data();
    }

    /// One more PutM of the cache is on its way, with a fresh value or not.
    pub(crate) fn add_putm(&mut self, fresh: bool)
        requires { self.old.putm ≤ 1 }
        ensures { self.new ≡ putm_sent fresh self.old }
    {
        self.putm += 1;
        self.fresh_putm = self.fresh_putm && fresh;
    }

    /// One more Data from the home is on its way to the cache, with a fresh value or not.
    pub(crate) fn add_dir_data(&mut self, fresh: bool)
        requires { self.old.dir_data ≤ 1 }
        ensures { self.new ≡ dir_data_sent fresh self.old }
    {
        self.dir_data += 1;
        self.fresh_data = self.fresh_data && fresh;
    }

    /// One more Data from another cache.
    pub(crate) fn add_owner_data(&mut self, fresh: bool)
        requires { self.old.owner_data ≤ 1 }
        ensures { self.new ≡ owner_data_sent fresh self.old }
    {
        self.owner_data += 1;
        self.fresh_data = self.fresh_data && fresh;
    }

    /// One more exclusive Data.
    pub(crate) fn add_excl_data(&mut self, fresh: bool)
        requires { self.old.excl_data ≤ 1 }
        ensures { self.new ≡ excl_data_sent fresh self.old }
    {
        self.excl_data += 1;
        self.fresh_data = self.fresh_data && fresh;
    }

    /// One more forward of this kind names the cache, if there is an owner whom it goes to.
    pub(crate) fn name(&mut self, owner: Party, kind: ForwardKind)
        requires sharing { self.old.fwd_gets ≤ 2 }
        requires handing { self.old.fwd_getm ≤ 2 }
        ensures { self.new ≡ named owner kind self.old }
    {
        match (owner, kind) {
            (Party::Nobody, _) => {}
            (_, ForwardKind::FwdGetS) => self.fwd_gets += 1,
            (_, ForwardKind::FwdGetM) => self.fwd_getm += 1,
            _ => {}
        }
    }

    /// One forward less of this kind names the cache.
    pub(crate) fn unname(&mut self, kind: ForwardKind)
        ensures { self.new ≡ unnamed_side kind self.old }
    {
        match kind {
            ForwardKind::FwdGetS => self.fwd_gets = self.fwd_gets.saturating_sub(1),
            ForwardKind::FwdGetM => self.fwd_getm = self.fwd_getm.saturating_sub(1),
            ForwardKind::Inv | ForwardKind::PutAck => {}
        }
    }

    /// The line takes the value of Data that were on their way to it.
    pub(crate) fn take_data(&mut self)
        ensures { self.new ≡ with_data self.old }
    {
        self.fresh = self.fresh_data;
        self.trim();
    }

    /// No value is that of the last store any more.
    pub(crate) fn outdate(&mut self)
        ensures { self.new ≡ stale self.old }
    {
        self.fresh = false;
        self.fresh_putm = false;
        self.fresh_data = false;
        self.trim();
    }

    /// Whether there are few enough of each kind: at most two that ask for the block, two that hand such an ask on, two on the
    /// link, and one of each other.
    pub(crate) fn is_few(&self) -> bool
        ensures { result ≡ is_few_side self.now }
    {
        self.gets <= 2
            && self.getm <= 2
            && self.puts <= 1
            && self.putm <= 1
            && self.dir_data <= 1
            && self.owner_data <= 1
            && self.excl_data <= 1
            && self.fwd_gets <= 2
            && self.fwd_getm <= 2
            && self.link.len() <= 2
    }

    /// Whether what names the cache, on its own link and where the other's link is marked, is counted in it.
    pub(crate) fn names_fit(&self, other: &PairSide, marks: &Marks) -> bool
        ensures { result ≡ names_fit self.now other.now marks.now }
    {
        let sharing = self.link.own_count(ForwardKind::FwdGetS)
            + other.link.marked_count(ForwardKind::FwdGetS, marks);
        let handing = self.link.own_count(ForwardKind::FwdGetM)
            + other.link.marked_count(ForwardKind::FwdGetM, marks);
        let owing = other.link.marked_count(ForwardKind::Inv, marks);
        sharing <= self.fwd_gets && handing <= self.fwd_getm && (owing == 0 || self.owed)
    }
}
