//! The rules on minimum times: M4 and M5.

ghost use Rattle.std.specs.Prelude.{◌≡◌, ℕ, ◌+◌, ◌<◌, Bool, length};
ghost use Rattle.uc_model.specs.Prelude.{keeps_minimum_at, minimum_up_at, minimum_down_at, starts as starts_at, stops as stops_at};
ghost use Rattle.schedule_check.specs.inside.Changes.{AreCounts};
ghost use Rattle.schedule_check.specs.WholeWatts.{commitment};

use crate::counts::{Counts, MOMENTS};
use uc_model::{Cell, Thermal};

/// M4: the unit starts at most once in its minimum up time, and is on then.
pub(crate) fn minimum_up(starts: &Counts, unit: &Thermal, row: &[Cell], t: usize) -> bool
    requires few { length row.now < MOMENTS }
    requires counts { AreCounts starts.now.before (length row.now) (starts_at unit.now (commitment row.now)) }
    requires period { t < length row.now }
    ensures { result ≡ minimum_up_at (length row.now) unit.now (commitment row.now) t }
{
    keeps_minimum(starts, (unit.ut as usize).min(row.len()), t, row[t].on)
}

/// M5: the unit stops at most once in its minimum down time, and is off then.
pub(crate) fn minimum_down(stops: &Counts, unit: &Thermal, row: &[Cell], t: usize) -> bool
    requires few { length row.now < MOMENTS }
    requires counts { AreCounts stops.now.before (length row.now) (stops_at unit.now (commitment row.now)) }
    requires period { t < length row.now }
    ensures { result ≡ minimum_down_at (length row.now) unit.now (commitment row.now) t }
{
    keeps_minimum(stops, (unit.dt as usize).min(row.len()), t, !row[t].on)
}

// Whether the changes in the last `window` periods up to t are at most as many as the state that they lead to
// stands at t: one or none.
fn keeps_minimum(changes: &Counts, window: usize, t: usize, state: bool) -> bool
    requires { t + 1 < MOMENTS }
    ensures { (last : ℕ) (test after : ℕ → Bool) → AreCounts changes.now.before last test → t < last → after t ≡ state
        → result ≡ keeps_minimum_at window test after t }
{
    t + 1 < window || changes.within(t + 1 - window, t + 1) <= u8::from(state)
}
