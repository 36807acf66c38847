ghost use Rattle.std.specs.Prelude.{◌≡◌, ◌≤◌};
ghost use Rattle.record_lines.specs.Versions.{most_blocks, most_bytes, most_caches};

/// How a recording's text is written. All that differs is in this file and in `specs/Versions.antt`.
#[derive(Clone, Copy, Debug, PartialEq, Eq)]
pub enum Version {
    /// The text tells neither the protocol nor seats.
    One,
    Two,
}

impl Version {
    /// The most caches of a recording that is told so.
    pub(crate) fn most_caches(self) -> u32
        ensures most { result ≡ most_caches self }
        ensures small { most_caches self ≤ 4096 }
    {
        match self {
            Version::One => 1024,
            Version::Two => 4096,
        }
    }

    /// The most blocks of a recording that is told so.
    pub(crate) fn most_blocks(self) -> u32
        ensures most { result ≡ most_blocks self }
        ensures small { most_blocks self ≤ 65536 }
    {
        match self {
            Version::One => 4096,
            Version::Two => 65_536,
        }
    }

    /// The most bytes of a line behind the first, without its end.
    pub(crate) fn most_bytes(self) -> usize
        ensures most { result ≡ most_bytes self }
        ensures small { most_bytes self ≤ 1400000 }
    {
        match self {
            Version::One => 90_000,
            Version::Two => 1_400_000,
        }
    }
}
