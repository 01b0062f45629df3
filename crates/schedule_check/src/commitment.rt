//! The rules on commitments: M1 to M3, and M7.

ghost use Rattle.std.specs.Prelude.{◌≡◌, ◌<◌, ◌≤◌, length};
ghost use Rattle.uc_model.specs.Prelude.{starts as starts_at, stops as stops_at, was_on as was_on_at, must_run_at, initial_up_at, initial_down_at, initial_stop_holds, IsLawfulThermal};
ghost use Rattle.schedule_check.specs.WholeWatts.{commitment};

use crate::dispatch::initial_limit;
use uc_model::{Cell, Thermal};

/// Whether the unit is on in the period before t, which is the initial one before the first.
pub(crate) fn was_on(unit: &Thermal, row: &[Cell], t: usize) -> bool
    requires { t ≤ length row.now }
    ensures { result ≡ was_on_at unit.now (commitment row.now) t }
{
    if t == 0 { unit.on0 } else { row[t - 1].on }
}

/// Whether the unit starts in period t.
pub(crate) fn starts(unit: &Thermal, row: &[Cell], t: usize) -> bool
    requires { t < length row.now }
    ensures { result ≡ starts_at unit.now (commitment row.now) t }
{
    !was_on(unit, row, t) && row[t].on
}

/// Whether the unit stops in period t.
pub(crate) fn stops(unit: &Thermal, row: &[Cell], t: usize) -> bool
    requires { t < length row.now }
    ensures { result ≡ stops_at unit.now (commitment row.now) t }
{
    was_on(unit, row, t) && !row[t].on
}

/// M1: a must-run unit is on.
pub(crate) fn must_run(unit: &Thermal, row: &[Cell], t: usize) -> bool
    requires { t < length row.now }
    ensures { result ≡ must_run_at unit.now (commitment row.now) t }
{
    !unit.must_run || row[t].on
}

/// M2: a unit that is on initially stays on until its minimum up time is over.
pub(crate) fn initial_up(unit: &Thermal, row: &[Cell], t: usize) -> bool
    requires { t < length row.now }
    ensures { result ≡ initial_up_at unit.now (commitment row.now) t }
{
    !(unit.on0 && t < unit.up_time_left() as usize) || row[t].on
}

/// M3: a unit that is off initially stays off until its minimum down time is over.
pub(crate) fn initial_down(unit: &Thermal, row: &[Cell], t: usize) -> bool
    requires { t < length row.now }
    ensures { result ≡ initial_down_at unit.now (commitment row.now) t }
{
    !(!unit.on0 && t < unit.down_time_left() as usize) || !row[t].on
}

/// M7: a unit that stops in the first period was low enough initially.
pub(crate) fn initial_stop(unit: &Thermal, row: &[Cell]) -> bool
    requires lawful { IsLawfulThermal unit.now }
    requires some { 0 < length row.now }
    ensures { result ≡ initial_stop_holds unit.now (commitment row.now) }
{
    unit.initial_output() <= initial_limit(unit, stops(unit, row, 0))
}
