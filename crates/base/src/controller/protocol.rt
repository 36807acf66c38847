ghost use Rattle.std.specs.Prelude.{◌≡◌, ◌≤◌, MatchOption, length};
ghost use Rattle.base.specs.Spelling.{IsUnnamed};
ghost use Rattle.base.specs.Protocols.{protocol_name, IsOfOne};

/// A protocol, which says what the tables of both controllers are where no cell is changed.
#[derive(Clone, Copy, Debug, PartialEq, Eq)]
pub enum Protocol {
    /// The baseline of Primer, section 8.2.
    Msi,
    /// The same with a state E, into which the first reader of a block comes.
    MsiE,
}

impl Protocol {
    /// How it is spelled in texts.
    pub fn name(self) -> &'static str
        ensures name { result.now ≡ protocol_name self }
        ensures short { length (protocol_name self) ≤ 13 }
    {
        match self {
            Protocol::Msi => "msi",
            Protocol::MsiE => "msi+e",
        }
    }

    /// The protocol that has this name. `None` comes exactly where none has it.
    pub fn named(name: &[u8]) -> Option<Protocol>
        ensures { MatchOption result (IsUnnamed protocol_name name.now) (λ p. name.now ≡ protocol_name p) }
    {
        if name == b"msi".as_slice() {
            return Some(Protocol::Msi);
        }
        if name == b"msi+e".as_slice() {
            return Some(Protocol::MsiE);
        }
        None
    }
}

/// A name is that of one protocol at most, and one word.
pub fn a_name_is_of_one_protocol()
    ensures { IsOfOne }
{}
