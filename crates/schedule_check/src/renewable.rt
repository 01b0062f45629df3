//! The rule on renewable units: M13.

ghost use Rattle.std.specs.Prelude.{◌≡◌, ℕ, ◌<◌, ◌≤◌, ◌&&◌, int_le, pos, length, slice_index_or};
ghost use Rattle.std.specs.Int.{int_max};
ghost use Rattle.uc_model.specs.Prelude.{IsLawfulInstance, HasShapeOf, renewable_count};
ghost use Rattle.schedule_check.specs.inside.Failures.{IsFirstFailure, IsFirstPlace};
ghost use Rattle.schedule_check.specs.WholeWatts.{is_output_within, over, renewable_range_at};

use crate::broken::Place;
use crate::limits::{is_at_most, numerator};
use uc_model::{Instance, Printed, Renewable};

/// The first renewable unit and period at which M13 is broken.
pub(crate) fn first_place(instance: &Instance, printed: &Printed) -> Option<Place>
    requires lawful { IsLawfulInstance instance.now }
    requires shape { HasShapeOf instance.now printed.now }
    ensures { IsFirstPlace (renewable_count instance.now) instance.now.periods (renewable_range_at (over printed.now.denominator) instance.now printed.now) result }
{
    let units = instance.renewable.as_slice();
    let rows = printed.renewable.as_slice();
    for unit in 0..units.len() {
        if let Some(period) = first_period(
            printed.denominator,
            &units[unit],
            rows[unit].as_slice(),
        ) {
            return Some(Place { unit, period });
        }
    }
    None
}

// The first period at which a unit's output isn't between its limits.
fn first_period(denominator: u8, unit: &Renewable, outputs: &[i64]) -> Option<usize>
    requires minimum { length unit.now.minimum ≡ length outputs.now }
    requires maximum { length unit.now.maximum ≡ length outputs.now }
    ensures { IsFirstFailure (length outputs.now) (is_output_within (over denominator) unit.now outputs.now) result }
{
    for t in 0..outputs.len() {
        if !is_within(denominator, unit, outputs, t) {
            return Some(t);
        }
    }
    None
}

// Whether the output in period t is between the limits.
fn is_within(denominator: u8, unit: &Renewable, outputs: &[i64], t: usize) -> bool
    requires minimum { length unit.now.minimum ≡ length outputs.now }
    requires maximum { length unit.now.maximum ≡ length outputs.now }
    requires period { t < length outputs.now }
    ensures { result ≡ is_output_within (over denominator) unit.now outputs.now t }
{
    let least = unit.minimum.as_slice()[t].max(0);
    is_at_least(denominator, outputs[t], least)
        && is_at_most(denominator, outputs[t], unit.maximum.as_slice()[t])
}

// Whether a numerator is at least that of a limit.
fn is_at_least(denominator: u8, number: i64, limit: i64) -> bool
    ensures { result ≡ int_le (over denominator limit) number }
{
    numerator(denominator, limit) <= i128::from(number)
}
