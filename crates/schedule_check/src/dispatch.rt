//! The rules on output and reserve: M8 to M12, and the numbers that they and M7 speak of.

ghost use Rattle.std.specs.Prelude.{◌≡◌, suc, ◌*◌, ◌^◌, ◌<◌, ◌≤◌, ◌&&◌, pos, ◌-ℤ◌, ◌*ℤ◌, ◌+ℤ◌, int_le, length, unsigned_abs};
ghost use Rattle.uc_model.specs.Prelude.{bit, stop_cap as stop_cap_of, stop_reduction as stop_reduction_of, IsLawfulThermal};
ghost use Rattle.schedule_check.specs.SizedNumbers.{IsSizedCell};
ghost use Rattle.schedule_check.specs.WholeWatts.{IsSizedRow, cell, commitment, output_before_by as before_of, over, production_by, start_cap_by, stop_cap_by, ramp_up_by, ramp_down_by, width as width_of};

use crate::commitment::{starts, stops};
use crate::limits::{is_at_most, numerator, width};
use uc_model::{Cell, Thermal};

/// M8: an on cell's output lies on the hull of the unit's points and its reserve isn't below 0; an off cell has
/// neither.
pub(crate) fn production(denominator: u8, unit: &Thermal, row: &[Cell], t: usize) -> bool
    requires lawful { IsLawfulThermal unit.now }
    requires period { t < length row.now }
    ensures { result ≡ production_by (over denominator) unit.now row.now t }
{
    let cell = &row[t];
    if cell.on {
        is_on_hull(denominator, unit, cell.p) && 0 <= cell.r
    } else {
        cell.p == 0 && cell.r == 0
    }
}

/// M9: output and reserve are within the range, and in the period of a start within the start-up limit.
pub(crate) fn start_cap(denominator: u8, unit: &Thermal, row: &[Cell], t: usize) -> bool
    requires lawful { IsLawfulThermal unit.now }
    requires sized { IsSizedRow row.now }
    requires period { t < length row.now }
    ensures { result ≡ start_cap_by (over denominator) unit.now row.now t }
{
    let cap = unit.start_cap(row[t].on, starts(unit, row, t));
    is_at_most(denominator, head(&row[t]), cap)
}

/// M10: they are within the range, and in the period before a stop within the shut-down limit.
pub(crate) fn stop_cap(denominator: u8, unit: &Thermal, row: &[Cell], t: usize) -> bool
    requires lawful { IsLawfulThermal unit.now }
    requires sized { IsSizedRow row.now }
    requires period { t < length row.now }
    ensures { result ≡ stop_cap_by (over denominator) (length row.now) unit.now row.now t }
{
    t + 1 >= row.len() || is_below_stop_cap(denominator, unit, row, t)
}

/// M11: output with reserve rises by no more than the ramp-up limit.
pub(crate) fn ramp_up(denominator: u8, unit: &Thermal, row: &[Cell], t: usize) -> bool
    requires lawful { IsLawfulThermal unit.now }
    requires sized { IsSizedRow row.now }
    requires period { t < length row.now }
    ensures { result ≡ ramp_up_by (over denominator) unit.now row.now t }
{
    let before = output_before(denominator, unit, row, t);
    let limit = numerator(denominator, unit.ru);
    is_rise_within(before, wide(head(&row[t])), limit)
}

/// M12: output falls by no more than the ramp-down limit.
pub(crate) fn ramp_down(denominator: u8, unit: &Thermal, row: &[Cell], t: usize) -> bool
    requires lawful { IsLawfulThermal unit.now }
    requires period { t < length row.now }
    ensures { result ≡ ramp_down_by (over denominator) unit.now row.now t }
{
    let before = output_before(denominator, unit, row, t);
    let limit = numerator(denominator, unit.rd);
    is_rise_within(wide(row[t].p), before, limit)
}

// Whether one output is above another by no more than a limit.
fn is_rise_within(from: i128, to: i128, limit: i128) -> bool
    requires from { unsigned_abs from ≤ 2 ^ 71 }
    requires to { unsigned_abs to ≤ 2 ^ 71 }
    ensures { result ≡ int_le (to -ℤ from) limit }
{
    to - from <= limit
}

// Whether an output lies between the outputs of the unit's first and last point.
fn is_on_hull(denominator: u8, unit: &Thermal, p: i64) -> bool
    requires { IsLawfulThermal unit.now }
    ensures { result ≡ (int_le (pos 0) p && int_le p (over denominator (width_of unit.now.points))) }
{
    0 <= p && is_at_most(denominator, p, width(unit.points.as_slice()))
}

// M10 where a period follows.
fn is_below_stop_cap(denominator: u8, unit: &Thermal, row: &[Cell], t: usize) -> bool
    requires lawful { IsLawfulThermal unit.now }
    requires sized { IsSizedRow row.now }
    requires period { suc t < length row.now }
    ensures { result ≡ int_le ((cell row.now t).p +ℤ (cell row.now t).r) (over denominator (stop_cap_of unit.now (commitment row.now) t)) }
{
    let cap = unit.stop_cap(row[t].on, stops(unit, row, t + 1));
    is_at_most(denominator, head(&row[t]), cap)
}

// A number in 128 bits.
fn wide(number: i64) -> i128
    ensures value { result ≡ number }
    ensures size { unsigned_abs result ≤ 2 ^ 71 }
{
    i128::from(number)
}

// The output of a cell with its reserve.
fn head(cell: &Cell) -> i64
    requires { IsSizedCell cell.now }
    ensures value { result ≡ cell.now.p +ℤ cell.now.r }
    ensures size { unsigned_abs result ≤ 2 * 1000000000000000 }
{
    cell.p + cell.r
}

// The output in the period before, which is the initial one before the first.
fn output_before(denominator: u8, unit: &Thermal, row: &[Cell], t: usize) -> i128
    requires lawful { IsLawfulThermal unit.now }
    requires period { t < length row.now }
    ensures value { result ≡ before_of (over denominator) unit.now row.now t }
    ensures size { unsigned_abs result ≤ 2 ^ 71 }
{
    if t == 0 {
        numerator(denominator, unit.initial_output())
    } else {
        wide(row[t - 1].p)
    }
}

/// M7's limit on it, by whether the unit stops in the first period.
pub(crate) fn initial_limit(unit: &Thermal, stop: bool) -> i64
    requires { IsLawfulThermal unit.now }
    ensures { result ≡ bit unit.now.on0 *ℤ (unit.now.pmax -ℤ unit.now.pmin) -ℤ stop_reduction_of unit.now *ℤ bit stop }
{
    unit.stop_cap(unit.on0, stop)
}
