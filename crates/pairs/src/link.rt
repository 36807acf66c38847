ghost use Rattle.std.specs.Prelude.{◌≡◌, ◌≤◌, ◌&&◌, if◌then◌else◌};
ghost use Rattle.pairs.specs.Pairs.{same_kind};

use crate::marks::Marks;
use network::ForwardKind;
use std::marker::Model;

/// A message on the link from a block's home to a cache.
#[derive(Clone, Copy, PartialEq, Eq, Debug)]
pub struct LinkPlace {
    pub kind: ForwardKind,
    /// Whether it names the very cache that it is on its way to.
    pub own: bool,
}

#[derive(Clone, Copy, PartialEq, Eq, Debug)]
enum Places {
    Zero,
    One(LinkPlace),
    Two(LinkPlace, LinkPlace),
    Three(LinkPlace, LinkPlace, LinkPlace),
}

/// The link from a block's home to a cache, the message that comes first in front: at most three of them.
#[derive(Clone, Copy, PartialEq, Eq, Debug)]
pub struct Link {
    places: Places,
}

impl Model for Link {
    ghost use Rattle.std.specs.Prelude.{List};
    ghost use Rattle.pairs.specs.declared.link.LinkPlace.{LinkPlace};
    ghost use Rattle.pairs.specs.inner.Short.{places_of, of_places, places_again};

    ghost Value = { List LinkPlace };

    ghost view = { λ l. places_of l.places };

    ghost inverse = { λ places. record { places = of_places places } };

    ghost inverse_ok = { λ a h i. record { places = places_again a.places i } };
}

/// 1 where a forward counts: there is a mark, and it is of the kind that is counted.
fn counted(mark: bool, place: LinkPlace, kind: ForwardKind) -> u8
    ensures count { result ≡ (if mark && same_kind place.kind kind then 1 else 0) }
    ensures few { result ≤ 1 }
{
    u8::from(mark && place.kind == kind)
}

impl Link {
    ghost use Rattle.std.specs.Prelude.{◌≡◌, ◌↔◌, IsTrue, ◌<◌, ◌≤◌, ◌++◌, ◌∷◌, [], length};
    ghost use Rattle.pairs.specs.Pairs.{marked, own_marked};
    ghost use Rattle.pairs.specs.inner.Short.{behind, head_of};

    /// A link with no message.
    pub fn empty() -> Link
        ensures { result ≡ [] }
    {
        Link {
            places: Places::Zero,
        }
    }

    /// Whether both have the same messages.
    pub fn is_same(&self, other: &Link) -> bool
        ensures { IsTrue result ↔ (self.now ≡ other.now) }
    {
        match (self.places, other.places) {
            (Places::Zero, Places::Zero) => true,
            (Places::One(a), Places::One(b)) => a.is_same(&b),
            (Places::Two(a, b), Places::Two(c, d)) => a.is_same(&c) & b.is_same(&d),
            (Places::Three(a, b, c), Places::Three(d, e, f)) => {
                a.is_same(&d) & b.is_same(&e) & c.is_same(&f)
            }
            _ => false,
        }
    }

    /// How many messages there are.
    pub fn len(&self) -> u8
        ensures count { result ≡ length self.now }
        ensures few { result ≤ 3 }
    {
        match self.places {
            Places::Zero => 0,
            Places::One(_) => 1,
            Places::Two(_, _) => 2,
            Places::Three(_, _, _) => 3,
        }
    }

    /// Puts a message behind the others.
    pub fn push(&mut self, place: LinkPlace)
        requires { length self.old < 3 }
        ensures { self.new ≡ self.old ++ place ∷ [] }
    {
        self.places = match self.places {
            Places::Zero => Places::One(place),
            Places::One(first) => Places::Two(first, place),
            Places::Two(first, second) | Places::Three(first, second, _) => {
                Places::Three(first, second, place)
            }
        };
    }

    /// The message that comes first, if there is one.
    pub fn head(&self) -> Option<LinkPlace>
        ensures { result ≡ head_of self.now }
    {
        match self.places {
            Places::Zero => None,
            Places::One(head) | Places::Two(head, _) | Places::Three(head, _, _) => Some(head),
        }
    }

    /// The link behind its head.
    pub fn behind(&self) -> Link
        ensures rest { result ≡ behind self.now }
        ensures few { length self.now ≤ 3 }
    {
        let places = match self.places {
            Places::Zero | Places::One(_) => Places::Zero,
            Places::Two(_, second) => Places::One(second),
            Places::Three(_, second, third) => Places::Two(second, third),
        };
        Link { places }
    }

    /// How many forwards of a kind name the very cache that they are on their way to.
    pub fn own_count(&self, kind: ForwardKind) -> u8
        ensures count { result ≡ own_marked kind self.now }
        ensures within { result ≤ length self.now }
        ensures few { result ≤ 3 }
    {
        match self.head() {
            None => 0,
            Some(place) => counted(place.own, place, kind) + self.behind().own_count(kind),
        }
    }

    /// How many forwards of a kind stand at a place that is marked.
    pub fn marked_count(&self, kind: ForwardKind, marks: &Marks) -> u8
        ensures count { result ≡ marked kind self.now marks.now }
        ensures within { result ≤ length self.now }
        ensures few { result ≤ 3 }
    {
        match (self.head(), marks.head()) {
            (Some(place), Some(mark)) => {
                counted(mark, place, kind) + self.behind().marked_count(kind, &marks.behind())
            }
            _ => 0,
        }
    }
}
