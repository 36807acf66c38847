use std::marker::Model;

#[derive(Clone, Copy, PartialEq, Eq, Debug)]
enum Flags {
    Zero,
    One(bool),
    Two(bool, bool),
    Three(bool, bool, bool),
}

/// Which places of a link name another cache, in the link's order: at most three.
#[derive(Clone, Copy, PartialEq, Eq, Debug)]
pub struct Marks {
    flags: Flags,
}

impl Model for Marks {
    ghost use Rattle.std.specs.Prelude.{List, Bool};
    ghost use Rattle.pairs.specs.inner.Short.{flags_of, of_flags, flags_again};

    ghost Value = { List Bool };

    ghost view = { λ m. flags_of m.flags };

    ghost inverse = { λ flags. record { flags = of_flags flags } };

    ghost inverse_ok = { λ a h i. record { flags = flags_again a.flags i } };
}

impl Marks {
    ghost use Rattle.std.specs.Prelude.{◌≡◌, ◌↔◌, IsTrue, ◌<◌, ◌≤◌, ◌++◌, ◌∷◌, [], length};
    ghost use Rattle.pairs.specs.inner.Short.{behind, head_of};

    /// Those of a link with no message.
    pub fn empty() -> Marks
        ensures { result ≡ [] }
    {
        Marks { flags: Flags::Zero }
    }

    /// Whether both have the same marks.
    pub fn is_same(&self, other: &Marks) -> bool
        ensures { IsTrue result ↔ (self.now ≡ other.now) }
    {
        match (self.flags, other.flags) {
            (Flags::Zero, Flags::Zero) => true,
            (Flags::One(a), Flags::One(b)) => a == b,
            (Flags::Two(a, b), Flags::Two(c, d)) => (a == c) & (b == d),
            (Flags::Three(a, b, c), Flags::Three(d, e, f)) => (a == d) & (b == e) & (c == f),
            _ => false,
        }
    }

    /// How many places there are.
    pub fn len(&self) -> u8
        ensures count { result ≡ length self.now }
        ensures few { result ≤ 3 }
    {
        match self.flags {
            Flags::Zero => 0,
            Flags::One(_) => 1,
            Flags::Two(_, _) => 2,
            Flags::Three(_, _, _) => 3,
        }
    }

    /// Puts a mark behind the others, or none.
    pub fn push(&mut self, flag: bool)
        requires { length self.old < 3 }
        ensures { self.new ≡ self.old ++ flag ∷ [] }
    {
        self.flags = match self.flags {
            Flags::Zero => Flags::One(flag),
            Flags::One(first) => Flags::Two(first, flag),
            Flags::Two(first, second) | Flags::Three(first, second, _) => {
                Flags::Three(first, second, flag)
            }
        };
    }

    /// Whether the head of the link is marked, if there is one.
    pub fn head(&self) -> Option<bool>
        ensures { result ≡ head_of self.now }
    {
        match self.flags {
            Flags::Zero => None,
            Flags::One(head) | Flags::Two(head, _) | Flags::Three(head, _, _) => Some(head),
        }
    }

    /// The marks behind the head of the link.
    pub fn behind(&self) -> Marks
        ensures { result ≡ behind self.now }
    {
        let flags = match self.flags {
            Flags::Zero | Flags::One(_) => Flags::Zero,
            Flags::Two(_, second) => Flags::One(second),
            Flags::Three(_, second, third) => Flags::Two(second, third),
        };
        Marks { flags }
    }
}
