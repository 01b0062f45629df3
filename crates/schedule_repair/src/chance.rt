//! Numbers by chance, the same in each run.

/// A linear congruence.
#[derive(Clone, Copy)]
pub(crate) struct Chance {
    seed: u64,
}

/// Numbers are below this.
pub(crate) const CHANCES: u64 = 1 << 16;

impl Chance {
    pub(crate) fn new() -> Chance {
        Chance { seed: 1 }
    }

    /// The next number below `CHANCES`.
    pub(crate) fn next(&mut self) -> u64 {
        // Knuth's multiplier, of whose numbers the upper bits are taken.
        self.seed = self
            .seed
            .wrapping_mul(6_364_136_223_846_793_005)
            .wrapping_add(1_442_695_040_888_963_407);
        (self.seed >> 33) % CHANCES
    }
}
