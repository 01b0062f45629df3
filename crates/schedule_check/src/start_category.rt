//! The rule on start categories: M6.

ghost use Rattle.std.specs.Prelude.{◌≡◌, ℕ, suc, ◌+◌, ◌<◌, ◌≤◌, length};
ghost use Rattle.uc_model.specs.Prelude.{Commitment, stops as stops_at, category_count, category_holds_at, has_stop_within as has_stop_in, is_category_allowed, IsLawfulThermal};
ghost use Rattle.schedule_check.specs.inside.Changes.{AreCounts};
ghost use Rattle.schedule_check.specs.WholeWatts.{Thermal, commitment, category as category_of};

use crate::commitment::starts;
use crate::counts::{Counts, MOMENTS};
use start_costs::is_barred;
use uc_model::{Cell, Thermal};

/// M6: a start has an allowed category, and no other cell has one.
pub(crate) fn category(stops: &Counts, unit: &Thermal, row: &[Cell], t: usize) -> bool
    requires lawful { IsLawfulThermal unit.now }
    requires few { length row.now < MOMENTS }
    requires counts { AreCounts stops.now.before (length row.now) (stops_at unit.now (commitment row.now)) }
    requires period { t < length row.now }
    ensures { result ≡ category_holds_at unit.now (commitment row.now) (category_of row.now) t }
{
    let category = row[t].category as usize;
    if starts(unit, row, t) {
        is_allowed(stops, unit, category, t)
    } else {
        category == 0
    }
}

// Whether the history that the stops are counted of allows a start in period t to use the category, from 1.
fn is_allowed(stops: &Counts, unit: &Thermal, category: usize, t: usize) -> bool
    requires lawful { IsLawfulThermal unit.now }
    requires period { t + 1 < MOMENTS }
    ensures { (last : ℕ) (on : Commitment) → AreCounts stops.now.before last (stops_at unit.now on) → t < last
        → result ≡ is_category_allowed unit.now on category t }
{
    let last = unit.startup.as_slice().len();
    if category == 0 || category > last {
        return false;
    }
    category == last || is_earlier_allowed(stops, unit, category, t)
}

// The same of a category before the last.
fn is_earlier_allowed(stops: &Counts, unit: &Thermal, category: usize, t: usize) -> bool
    requires lawful { IsLawfulThermal unit.now }
    requires some { 0 < category }
    requires within { category < category_count unit.now }
    requires period { t + 1 < MOMENTS }
    ensures { (last : ℕ) (on : Commitment) → AreCounts stops.now.before last (stops_at unit.now on) → t < last
        → result ≡ is_category_allowed unit.now on category t }
{
    let rows = unit.startup.as_slice();
    let next = rows[category].lag as usize;
    if next <= t + 1 {
        has_stop_within(stops, rows[category - 1].lag as usize, next, t)
    } else {
        !is_barred(unit.dt0 as usize, next, t)
    }
}

// Whether there is a stop at least `from` periods before t, and less than `to`.
fn has_stop_within(stops: &Counts, from: usize, to: usize, t: usize) -> bool
    requires reached { to ≤ t + 1 }
    requires period { t + 1 < MOMENTS }
    ensures { (last : ℕ) (unit : Thermal) (on : Commitment) → AreCounts stops.now.before last (stops_at unit on) → t < last
        → result ≡ has_stop_in unit on from to t }
{
    stops.within(t + 1 - to, (t + 1).saturating_sub(from)) > 0
}
