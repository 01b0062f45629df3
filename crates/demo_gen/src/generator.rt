//! The draws of the demo generator.

ghost use Rattle.std.specs.Prelude.{◌≡◌, ◌/◌, ◌%◌, ◌^◌, ◌≤◌};
ghost use Rattle.demo_gen.specs.Demo.{next_state};

/// The numbers of the linear congruential generator of Knuth's MMIX.
const MULTIPLIER: u64 = 6_364_136_223_846_793_005;

const INCREMENT: u64 = 1_442_695_040_888_963_407;

/// How many low bits of a state are left out, since they repeat soonest.
const LOW_BITS: u32 = 33;

/// A linear congruential generator of 64 bits.
#[derive(Drop)]
pub(crate) struct Generator {
    state: u64,
}

impl Generator {
    /// The generator that this seed begins.
    pub(crate) fn of(seed: u32) -> Self
        ensures { result.state ≡ seed }
    {
        Generator {
            state: u64::from(seed),
        }
    }

    /// One of so many numbers, from 0.
    pub(crate) fn draw(&mut self, sides: u32) -> u32
        requires { 1 ≤ sides }
        ensures state { self.new.state ≡ next_state self.old.state }
        ensures drawn { result ≡ self.new.state / 2 ^ 33 % sides }
    {
        self.state = self.state.wrapping_mul(MULTIPLIER).wrapping_add(INCREMENT);
        ((self.state >> LOW_BITS) % u64::from(sides)) as u32
    }
}
