//! Commitment patterns: in which periods one unit is on.

ghost use Rattle.std.specs.Prelude.{◌≡◌, ◌≢◌, ℕ, ◌<◌, true, false};
ghost use Rattle.uc_model.specs.PatternBits.{commitment_of};

use crate::limits::MAX_PERIODS;

/// The periods that `low` holds.
const LOW_PERIODS: u32 = 128;

/// The commitment of one unit over up to 168 periods, without heap: period t, from 0, is bit t of
/// `low`, or bit t - 128 of `high`.
#[derive(Clone, Copy, Debug, PartialEq, Eq)]
pub struct Pattern {
    pub low: u128,
    pub high: u64,
}

impl Pattern {
    /// The unit is off in each period.
    pub fn all_off() -> Pattern
        ensures { (t : ℕ) → commitment_of result t ≡ false }
    {
        Pattern { low: 0, high: 0 }
    }

    /// Whether the unit is on in the period, from 0.
    pub fn is_on(&self, period: u32) -> bool
        requires { period < MAX_PERIODS }
        ensures { result ≡ commitment_of self.now period }
    {
        if period < LOW_PERIODS {
            (self.low >> period) & 1 == 1
        } else {
            (self.high >> (period - LOW_PERIODS)) & 1 == 1
        }
    }

    /// Switches the unit on in the period, from 0, and leaves the others.
    pub fn switch_on(&mut self, period: u32)
        requires { period < MAX_PERIODS }
        ensures switched { commitment_of self.new period ≡ true }
        ensures others { (t : ℕ) → t ≢ period → commitment_of self.new t ≡ commitment_of self.old t }
    {
        if period < LOW_PERIODS {
            self.low |= 1 << period;
        } else {
            self.high |= 1 << (period - LOW_PERIODS);
        }
    }
}
