use crate::link::LinkPlace;
use crate::marks::Marks;
use crate::side::PairSide;
use crate::steps::Party;
use directory_table::DirectoryState;
use network::ForwardKind;

/// What all caches of a block see alike.
#[derive(Clone, Copy, PartialEq, Eq, Debug)]
pub struct Shared {
    pub home: DirectoryState,
    /// Whether memory has the value of the last store.
    pub fresh_memory: bool,
    /// How many Data are on their way to the home.
    pub home_data: u8,
    /// Whether each of them brings the value of the last store.
    pub fresh_home_data: bool,
}

/// Two caches of a block.
#[derive(Clone, Copy, PartialEq, Eq, Debug)]
pub struct Pair {
    pub shared: Shared,
    pub first: PairSide,
    pub second: PairSide,
    /// Which places of the first one's link name the second.
    pub first_names: Marks,
    /// Which places of the second one's link name the first.
    pub second_names: Marks,
}

impl Shared {
    ghost use Rattle.std.specs.Prelude.{◌≡◌, ◌≤◌};
    ghost use Rattle.pairs.specs.Pairs.{trimmed_home};
    ghost use Rattle.pairs.specs.Sights.{home_data_sent};

    /// Lets what isn't there count as fresh.
    pub(crate) fn trim(&mut self)
        ensures { self.new ≡ trimmed_home self.old }
    {
        self.fresh_home_data = self.fresh_home_data || self.home_data == 0;
    }

    /// One more Data is on its way to the home, with a fresh value or not.
    pub(crate) fn add_data(&mut self, fresh: bool)
        requires { self.old.home_data ≤ 1 }
        ensures { self.new ≡ home_data_sent fresh self.old }
    {
        self.home_data += 1;
        self.fresh_home_data = self.fresh_home_data && fresh;
    }
}

impl Pair {
    ghost use Rattle.std.specs.Prelude.{◌≡◌, ◌↔◌, IsTrue, ◌<◌, length, true};
    ghost use Rattle.pairs.specs.Marking.{CanBeFollowed, IsMarked};
    ghost use Rattle.pairs.specs.Sights.{first_linked, owner_linked, second_linked};
    ghost use Rattle.pairs.specs.Pairs.{fits, is_few, opened_pair, swapped, thirds_fit};

    /// Any two caches of a block that nothing has happened to.
    pub fn opened() -> Pair
        ensures { result ≡ opened_pair }
    {
        Pair {
            shared: Shared {
                home: DirectoryState::I,
                fresh_memory: true,
                home_data: 0,
                fresh_home_data: true,
            },
            first: PairSide::opened(),
            second: PairSide::opened(),
            first_names: Marks::empty(),
            second_names: Marks::empty(),
        }
    }

    /// The same with the caches in the other order.
    pub fn swapped(&self) -> Pair
        ensures { result ≡ swapped self.now }
    {
        Pair {
            shared: self.shared,
            first: self.second,
            second: self.first,
            first_names: self.second_names,
            second_names: self.first_names,
        }
    }

    /// Whether there are few enough of each kind that the pair is followed: at most one message, and two on a link.
    pub fn is_few(&self) -> bool
        ensures { result ≡ is_few self.now }
    {
        self.shared.home_data <= 1 && self.first.is_few() && self.second.is_few()
    }

    /// Whether it is told of each place of both links whether it names the other cache.
    pub fn is_marked(&self) -> bool
        ensures { IsTrue result ↔ IsMarked self.now }
    {
        self.first_names.len() == self.first.link.len()
            && self.second_names.len() == self.second.link.len()
    }

    /// Whether a third cache may share, or may not.
    pub(crate) fn thirds_fit(&self, third_shares: bool) -> bool
        ensures { result ≡ thirds_fit third_shares self.now }
    {
        self.first.others == (self.second.shares || third_shares)
            && self.second.others == (self.first.shares || third_shares)
    }

    /// Whether both caches agree on the owner, on who shares and on what names them, as any two caches of a block do.
    pub fn fits(&self) -> bool
        ensures { result ≡ fits self.now }
    {
        self.first.owned.fits(self.second.owned)
            && (self.thirds_fit(true) || self.thirds_fit(false))
            && self.first.names_fit(&self.second, &self.second_names)
            && self.second.names_fit(&self.first, &self.first_names)
    }

    /// A forward of this kind goes onto the first's link, and names it.
    pub(crate) fn link_first(&mut self, kind: ForwardKind)
        requires link { length self.old.first.link < 3 }
        requires names { length self.old.first_names < 3 }
        ensures { self.new ≡ first_linked kind self.old }
    {
        self.first.link.push(LinkPlace { kind, own: true });
        self.first_names.push(false);
    }

    /// A forward of this kind goes onto the second's link, and names the first.
    pub(crate) fn link_second(&mut self, kind: ForwardKind)
        requires link { length self.old.second.link < 3 }
        requires names { length self.old.second_names < 3 }
        ensures { self.new ≡ second_linked kind self.old }
    {
        self.second.link.push(LinkPlace { kind, own: false });
        self.second_names.push(true);
    }

    /// A forward of this kind goes onto the owner's link, if there is an owner.
    pub(crate) fn link_owner(&mut self, owner: Party, kind: ForwardKind)
        requires { CanBeFollowed self.old }
        ensures { self.new ≡ owner_linked owner kind self.old }
    {
        match owner {
            Party::Nobody | Party::Third => {}
            Party::First => self.link_first(kind),
            Party::Second => self.link_second(kind),
        }
    }
}
