//! A closed list of pairs of caches, an object in JSON a line, for programs that look at it again.

use base::controller::Listed;
use certify::{Refusal, closed_pairs};
use command_output::{Fault, Printer};
use network::ForwardKind;
use pairs::{Lag, Link, Marks, Owned, Pair, PairSide, Shared, Waiting};
use std::alloc::Global;
use std::fmt;
use std::io::Write;
use tables::Tables;

/// Prints each pair of the list under which these tables are closed, if there is one.
pub(crate) fn print_pairs<O: Write + Drop>(
    alloc: Global,
    tables: &Tables,
    printer: &mut Printer<O>,
) -> Result<(), Fault> {
    match closed_pairs(alloc, tables) {
        Err(Refusal::NoMemory) => Err(Fault::NoMemory),
        Err(_) => Ok(()),
        Ok(found) => {
            for pair in &found.pairs {
                printer.line(PairObject(*pair));
            }
            Ok(())
        }
    }
}

#[derive(Clone, Copy)]
struct PairObject(Pair);

#[derive(Clone, Copy)]
struct HomeObject(Shared);

/// A cache, with the places of its link that name the other one.
#[derive(Clone, Copy)]
struct SideObject {
    side: PairSide,
    names: Marks,
}

impl SideObject {
    fn counts(&self) -> [(&'static str, u8); 9] {
        let side = &self.side;
        [
            ("gets", side.gets),
            ("getm", side.getm),
            ("puts", side.puts),
            ("putm", side.putm),
            ("dir_data", side.dir_data),
            ("owner_data", side.owner_data),
            ("excl_data", side.excl_data),
            ("fwd_gets", side.fwd_gets),
            ("fwd_getm", side.fwd_getm),
        ]
    }

    fn tests(&self) -> [(&'static str, bool); 7] {
        let side = &self.side;
        [
            ("fresh", side.fresh),
            ("fresh_putm", side.fresh_putm),
            ("fresh_data", side.fresh_data),
            ("low", side.low),
            ("owed", side.owed),
            ("shares", side.shares),
            ("others", side.others),
        ]
    }

    /// Writes the messages of the link, the first one in front.
    fn write_link<W: fmt::Write>(&self, f: &mut fmt::Formatter<W>) -> fmt::Result {
        let mut link: Link = self.side.link;
        let mut names: Marks = self.names;
        let mut front = "";
        for _ in 0..self.side.link.len() {
            let (Some(place), Some(other)) = (link.head(), names.head()) else {
                break;
            };
            let kind = kind_name(place.kind);
            let own = place.own;
            write!(
                f,
                "{front}{{\"kind\":\"{kind}\",\"own\":{own},\"other\":{other}}}"
            )?;
            link = link.behind();
            names = names.behind();
            front = ",";
        }
        Ok(())
    }
}

/// The name of a message on a link.
pub(crate) fn kind_name(kind: ForwardKind) -> &'static str {
    match kind {
        ForwardKind::FwdGetS => "Fwd-GetS",
        ForwardKind::FwdGetM => "Fwd-GetM",
        ForwardKind::Inv => "Inv",
        ForwardKind::PutAck => "Put-Ack",
    }
}

impl fmt::Display for SideObject {
    fn fmt<W: fmt::Write>(&self, f: &mut fmt::Formatter<W>) -> fmt::Result {
        let waits = match self.side.waits {
            None => "null",
            Some(Waiting::Load) => "\"load\"",
            Some(Waiting::Store) => "\"store\"",
        };
        let owned = match self.side.owned {
            Owned::ByNobody => "nobody",
            Owned::ByItself => "itself",
            Owned::ByAnother => "another",
        };
        let lag = match self.side.lag {
            Lag::Behind => "behind",
            Lag::Level => "level",
            Lag::Ahead => "ahead",
        };
        let state = self.side.state.name();
        write!(
            f,
            "{{\"state\":\"{state}\",\"waits\":{waits},\"owned\":\"{owned}\""
        )?;
        write!(f, ",\"lag\":\"{lag}\"")?;
        for (name, count) in self.counts() {
            write!(f, ",\"{name}\":{count}")?;
        }
        for (name, holds) in self.tests() {
            write!(f, ",\"{name}\":{holds}")?;
        }
        f.write_str(",\"link\":[")?;
        self.write_link(f)?;
        f.write_str("]}")
    }
}

impl fmt::Display for HomeObject {
    fn fmt<W: fmt::Write>(&self, f: &mut fmt::Formatter<W>) -> fmt::Result {
        let home = &self.0;
        let (state, count) = (home.home.name(), home.home_data);
        let (fresh, fresh_data) = (home.fresh_memory, home.fresh_home_data);
        write!(f, "{{\"state\":\"{state}\",\"data\":{count},")?;
        write!(f, "\"fresh\":{fresh},\"fresh_data\":{fresh_data}}}")
    }
}

impl fmt::Display for PairObject {
    fn fmt<W: fmt::Write>(&self, f: &mut fmt::Formatter<W>) -> fmt::Result {
        let pair = &self.0;
        let first = SideObject {
            side: pair.first,
            names: pair.first_names,
        };
        let second = SideObject {
            side: pair.second,
            names: pair.second_names,
        };
        let home = HomeObject(pair.shared);
        write!(
            f,
            "{{\"home\":{home},\"first\":{first},\"second\":{second}}}"
        )
    }
}
