use base::controller::{Listed, Protocol};

/// The state of a block at its home (Primer, section 8.2).
#[derive(Clone, Copy, PartialEq, Eq, Debug)]
pub enum DirectoryState {
    /// `I`: no cache has a copy, and memory has the value.
    I,
    /// `S`: the sharers may have copies to read, and memory has the value.
    S,
    /// `M`: the owner has the only copy or is about to get it, and memory may be out of date.
    M,
    /// `S^D`: the owner was told to share its copy, and the home waits for its Data.
    SD,
}

impl DirectoryState {
    /// All states, in the order of a table's rows.
    pub const ALL: [DirectoryState; 4] = [
        DirectoryState::I,
        DirectoryState::S,
        DirectoryState::M,
        DirectoryState::SD,
    ];
}

impl Listed for DirectoryState {
    ghost use Rattle.directory_table.specs.Names.{state_name, first_state};
    ghost use Rattle.directory_table.specs.Table.{state_number, has_state};
    ghost use Rattle.directory_table.specs.Baseline.{all_states};
    ghost use Rattle.directory_table.specs.inner.Standing.{state_found, state_plain, state_stands};

    ghost spelling = { state_name };

    ghost place = { state_number };

    ghost kind = { all_states };

    ghost head = { first_state };

    ghost has = { has_state };

    fn name(self) -> &'static str {
        match self {
            DirectoryState::I => "I",
            DirectoryState::S => "S",
            DirectoryState::M => "M",
            DirectoryState::SD => "S^D",
        }
    }

    fn number(self) -> usize {
        self as usize
    }

    fn all() -> &'static [DirectoryState] {
        &DirectoryState::ALL
    }

    fn first() -> DirectoryState {
        DirectoryState::I
    }

    fn is_in(self, _protocol: Protocol) -> bool {
        true
    }

    ghost stands = { state_stands };

    ghost found = { state_found };

    ghost plain = { state_plain };
}
