ghost use Rattle.std.specs.Prelude.{◌≡◌, ◌<◌, ◌≤◌};
ghost use Rattle.outside_memory.specs.Pace.{portion_of};

/// How much a read or a write takes at once.
#[derive(Clone, Copy, Debug, PartialEq, Eq)]
pub enum Pace {
    /// As much as there is and has room.
    Full,
    /// One byte.
    ByteByByte,
}

impl Pace {
    /// How many of so many bytes are taken at once.
    pub fn portion(self, length: usize) -> usize
        ensures portion { result ≡ portion_of self length }
        ensures bound { result ≤ length }
        ensures some { 0 < length → 0 < result }
    {
        match self {
            Pace::Full => length,
            Pace::ByteByByte => length.min(1),
        }
    }
}
