//! How often a unit starts or stops before each period.

ghost use Rattle.std.specs.Prelude.{◌≡◌, ℕ, ◌+◌, ◌-◌, ◌<◌, ◌≤◌, Bool, length};
ghost use Rattle.schedule_check.specs.inside.Changes.{AreCounts, change_at, count_below};
ghost use Rattle.schedule_check.specs.WholeWatts.{commitment};

use crate::commitment::{starts, stops};
use uc_model::{Cell, Thermal};

/// As many counts as there may be: one before each period, and one after the last.
pub(crate) const MOMENTS: usize = 169;

/// A change of a unit's state.
#[derive(Clone, Copy)]
pub(crate) enum Change {
    Start,
    Stop,
}

/// The number of a unit's changes of one kind before each period, and before the end of the last.
#[derive(Drop)]
pub(crate) struct Counts {
    before: [u8; MOMENTS],
}

impl Counts {
    /// The counts of the unit's changes in its row.
    pub fn of(change: Change, unit: &Thermal, row: &[Cell]) -> Counts
        requires { length row.now < MOMENTS }
        ensures { AreCounts result.before (length row.now) (change_at change unit.now (commitment row.now)) }
    {
        let mut before = [0; MOMENTS];
        for t in 0..row.len() {
            before[t + 1] = before[t] + u8::from(is_change(change, unit, row, t));
        }
        Counts { before }
    }

    /// How many changes there are in the periods from `from` up to the one before `to`.
    pub fn within(&self, from: usize, to: usize) -> u8
        requires from { from < MOMENTS }
        requires to { to < MOMENTS }
        ensures { (last : ℕ) (test : ℕ → Bool) → AreCounts self.now.before last test → from ≤ last → to ≤ last
            → result ≡ count_below to test - count_below from test }
    {
        self.before[to].saturating_sub(self.before[from])
    }
}

// Whether the unit's state changes so in period t.
fn is_change(change: Change, unit: &Thermal, row: &[Cell], t: usize) -> bool
    requires { t < length row.now }
    ensures { result ≡ change_at change unit.now (commitment row.now) t }
{
    match change {
        Change::Start => starts(unit, row, t),
        Change::Stop => stops(unit, row, t),
    }
}
