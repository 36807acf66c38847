//! How two caches of a block read, as far as a pair of caches knows them.

use crate::listing::kind_name;
use base::controller::Listed;
use control::may_read;
use directory_table::DirectoryState;
use network::ForwardKind;
use pairs::{Lag, Link, Marks, Owned, Pair, PairSide, Shared, Waiting};
use std::fmt;

/// A cache of a pair: its state, and what there is of it besides.
#[derive(Clone, Copy)]
pub(crate) struct SideText {
    side: PairSide,
    /// Which places of its link name the other cache of the pair.
    names: Marks,
    own_name: &'static str,
    other_name: &'static str,
}

/// The home of a pair.
#[derive(Clone, Copy)]
pub(crate) struct HomeText(pub(crate) Shared);

impl SideText {
    /// The first cache of a pair, which is named A here.
    pub(crate) fn of_first(pair: &Pair) -> SideText {
        SideText {
            side: pair.first,
            names: pair.first_names,
            own_name: "A",
            other_name: "B",
        }
    }

    /// The second one, which is named B.
    pub(crate) fn of_second(pair: &Pair) -> SideText {
        SideText {
            side: pair.second,
            names: pair.second_names,
            own_name: "B",
            other_name: "A",
        }
    }

    /// What there is of the cache, in words, and whether there is.
    fn words(&self) -> [(bool, &'static str); 16] {
        let side = &self.side;
        let has_data = side.dir_data > 0 || side.owner_data > 0 || side.excl_data > 0;
        [
            (!side.fresh && may_read(side.state), "value may be old"),
            (matches!(side.waits, Some(Waiting::Load)), "load waits"),
            (matches!(side.waits, Some(Waiting::Store)), "store waits"),
            (matches!(side.owned, Owned::ByItself), "owner"),
            (side.shares, "sharer"),
            (side.owed, "acks owed"),
            (matches!(side.lag, Lag::Behind), "fewer awaited"),
            (matches!(side.lag, Lag::Ahead), "more awaited"),
            (side.gets > 0, "GetS on its way"),
            (side.getm > 0, "GetM on its way"),
            (side.puts > 0, "PutS on its way"),
            (side.putm > 0, "PutM on its way"),
            (side.dir_data > 0, "Data from the home"),
            (side.owner_data > 0, "Data from a cache"),
            (side.excl_data > 0, "exclusive Data"),
            (has_data && !side.fresh_data, "which may be old"),
        ]
    }

    /// Writes the messages of the link, the first one in front.
    fn write_link<W: fmt::Write>(&self, f: &mut fmt::Formatter<W>) -> fmt::Result {
        let mut link: Link = self.side.link;
        let mut names: Marks = self.names;
        let mut front = "; link: ";
        for _ in 0..self.side.link.len() {
            let Some(place) = link.head() else {
                break;
            };
            let requestor = match (place.own, names.head()) {
                (true, _) => self.own_name,
                (false, Some(true)) => self.other_name,
                (false, _) => "another",
            };
            let kind = kind_name(place.kind);
            match place.kind {
                ForwardKind::PutAck => write!(f, "{front}{kind}")?,
                _ => write!(f, "{front}{kind} for {requestor}")?,
            }
            link = link.behind();
            names = names.behind();
            front = ", ";
        }
        Ok(())
    }
}

impl fmt::Display for SideText {
    fn fmt<W: fmt::Write>(&self, f: &mut fmt::Formatter<W>) -> fmt::Result {
        f.write_str(self.side.state.name())?;
        for (holds, word) in self.words() {
            if holds {
                write!(f, ", {word}")?;
            }
        }
        self.write_link(f)
    }
}

impl fmt::Display for HomeText {
    fn fmt<W: fmt::Write>(&self, f: &mut fmt::Formatter<W>) -> fmt::Result {
        let home = &self.0;
        f.write_str(home.home.name())?;
        let gives = matches!(home.home, DirectoryState::I | DirectoryState::S);
        let has_data = home.home_data > 0;
        let words = [
            (gives && !home.fresh_memory, "value may be old"),
            (has_data, "Data on its way"),
            (has_data && !home.fresh_home_data, "which may be old"),
        ];
        for (holds, word) in words {
            if holds {
                write!(f, ", {word}")?;
            }
        }
        Ok(())
    }
}
