//! Numbers that look random and are the same in every run.

ghost use Rattle.std.specs.Prelude.{◌<◌, ◌≤◌};

/// A linear congruential generator of 64 bits, with the numbers of Knuth's MMIX.
#[derive(Drop)]
pub(crate) struct Draws {
    state: u64,
}

impl Draws {
    /// The numbers that this seed begins.
    pub(crate) fn of(seed: u64) -> Draws {
        Draws { state: seed }
    }

    /// A number below `end`, by the upper bits of the state.
    pub(crate) fn below(&mut self, end: u8) -> u8
        requires { 1 ≤ end }
        ensures { result < end }
    {
        self.state = self
            .state
            .wrapping_mul(6_364_136_223_846_793_005)
            .wrapping_add(1_442_695_040_888_963_407);
        (self.state / (1 << 33) % u64::from(end)) as u8
    }

    /// True once in `times`.
    pub(crate) fn once_in(&mut self, times: u8) -> bool
        requires { 1 ≤ times }
    {
        self.below(times) == 0
    }

    /// A number from -`most` to `most`.
    pub(crate) fn around_zero(&mut self, most: u8) -> i8
        requires { most < 64 }
    {
        self.below(2 * most + 1) as i8 - most as i8
    }
}
