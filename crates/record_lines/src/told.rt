use crate::entry::Entry;

/// An entry as it is told: where there are seats, with the one that owns it.
#[derive(Clone, Copy)]
pub struct Told {
    /// The number of the seat, where there are any.
    pub owner: Option<u32>,
    /// The entry.
    pub entry: Entry,
}
