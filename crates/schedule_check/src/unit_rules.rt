//! The rules on thermal units, unit by unit and period by period.

ghost use Rattle.std.specs.Prelude.{◌≡◌, ℕ, ◌<◌, ◌≤◌, length, slice_index_or};
ghost use Rattle.uc_model.specs.Prelude.{IsLawfulInstance, IsLawfulThermal, HasShapeOf, thermal_count, thermal_unit};
ghost use Rattle.schedule_check.specs.SizedNumbers.{HasSizedNumbers};
ghost use Rattle.schedule_check.specs.inside.Changes.{Start, Stop, AreCounts, change_at};
ghost use Rattle.schedule_check.specs.CommitmentRules.{IsFirstBrokenRule};
ghost use Rattle.schedule_check.specs.inside.Failures.{IsFirstFailure, IsFirstPlace};
ghost use Rattle.schedule_check.specs.WholeWatts.{IsSizedRow, commitment, over, row_of, unit_holds_by, unit_periods};

use crate::broken::Place;
use crate::counts::{Change, Counts, MOMENTS};
use crate::unit_rule::{COMMITMENT_RULES, UnitRule};
use crate::{commitment, dispatch, minimum_times, start_category};
use uc_model::{Cell, Instance, Printed, Thermal};

/// The first unit and period at which the rule is broken.
pub(crate) fn first_place(rule: UnitRule, instance: &Instance, printed: &Printed) -> Option<Place>
    requires lawful { IsLawfulInstance instance.now }
    requires shape { HasShapeOf instance.now printed.now }
    requires sized { HasSizedNumbers printed.now }
    ensures { IsFirstPlace (thermal_count instance.now) (unit_periods rule instance.now.periods)
        (λ g t. unit_holds_by (over printed.now.denominator) rule instance.now.periods (thermal_unit instance.now g) (row_of printed.now g) t) result }
{
    let units = instance.thermal.as_slice();
    let rows = printed.thermal.as_slice();
    for unit in 0..units.len() {
        if let Some(period) = first_period(
            rule,
            printed.denominator,
            &units[unit],
            rows[unit].as_slice(),
        ) {
            return Some(Place { unit, period });
        }
    }
    None
}

// The first period at which a unit breaks the rule.
fn first_period(rule: UnitRule, denominator: u8, unit: &Thermal, row: &[Cell]) -> Option<usize>
    requires lawful { IsLawfulThermal unit.now }
    requires some { 0 < length row.now }
    requires few { length row.now < MOMENTS }
    requires sized { IsSizedRow row.now }
    ensures { IsFirstFailure (unit_periods rule (length row.now)) (unit_holds_by (over denominator) rule (length row.now) unit.now row.now) result }
{
    let starts = Counts::of(Change::Start, unit, row);
    let stops = Counts::of(Change::Stop, unit, row);
    first_failure(rule, denominator, &starts, &stops, unit, row)
}

/// The first of the rules on commitments, M1 to M5 and M7, that a unit's row breaks, by its number. Power plays no part.
pub fn broken_rule(unit: &Thermal, row: &[Cell]) -> Option<u8>
    requires lawful { IsLawfulThermal unit.now }
    requires some { 0 < length row.now }
    requires few { length row.now < MOMENTS }
    requires sized { IsSizedRow row.now }
    ensures { IsFirstBrokenRule unit.now row.now result }
{
    let starts = Counts::of(Change::Start, unit, row);
    let stops = Counts::of(Change::Stop, unit, row);
    for rule in COMMITMENT_RULES {
        match first_failure(rule, 1, &starts, &stops, unit, row) {
            Some(_) => return Some(rule.number()),
            None => {}
        }
    }
    None
}

// The first period at which a unit breaks the rule, by the counts of its starts and stops.
fn first_failure(
    rule: UnitRule,
    denominator: u8,
    starts: &Counts,
    stops: &Counts,
    unit: &Thermal,
    row: &[Cell],
) -> Option<usize>
    requires lawful { IsLawfulThermal unit.now }
    requires some { 0 < length row.now }
    requires few { length row.now < MOMENTS }
    requires sized { IsSizedRow row.now }
    requires starts { AreCounts starts.now.before (length row.now) (change_at Start unit.now (commitment row.now)) }
    requires stops { AreCounts stops.now.before (length row.now) (change_at Stop unit.now (commitment row.now)) }
    ensures { IsFirstFailure (unit_periods rule (length row.now)) (unit_holds_by (over denominator) rule (length row.now) unit.now row.now) result }
{
    for t in 0..rule.periods(row.len()) {
        if !holds(rule, denominator, starts, stops, unit, row, t) {
            return Some(t);
        }
    }
    None
}

// Whether a unit keeps the rule in period t.
fn holds(
    rule: UnitRule,
    denominator: u8,
    starts: &Counts,
    stops: &Counts,
    unit: &Thermal,
    row: &[Cell],
    t: usize,
) -> bool
    requires lawful { IsLawfulThermal unit.now }
    requires few { length row.now < MOMENTS }
    requires sized { IsSizedRow row.now }
    requires starts { AreCounts starts.now.before (length row.now) (change_at Start unit.now (commitment row.now)) }
    requires stops { AreCounts stops.now.before (length row.now) (change_at Stop unit.now (commitment row.now)) }
    requires period { t < length row.now }
    ensures { result ≡ unit_holds_by (over denominator) rule (length row.now) unit.now row.now t }
{
    match rule {
        UnitRule::MustRun => commitment::must_run(unit, row, t),
        UnitRule::InitialUp => commitment::initial_up(unit, row, t),
        UnitRule::InitialDown => commitment::initial_down(unit, row, t),
        UnitRule::MinimumUp => minimum_times::minimum_up(starts, unit, row, t),
        UnitRule::MinimumDown => minimum_times::minimum_down(stops, unit, row, t),
        UnitRule::Category => start_category::category(stops, unit, row, t),
        UnitRule::InitialStop => commitment::initial_stop(unit, row),
        UnitRule::Production => dispatch::production(denominator, unit, row, t),
        UnitRule::StartCap => dispatch::start_cap(denominator, unit, row, t),
        UnitRule::StopCap => dispatch::stop_cap(denominator, unit, row, t),
        UnitRule::RampUp => dispatch::ramp_up(denominator, unit, row, t),
        UnitRule::RampDown => dispatch::ramp_down(denominator, unit, row, t),
    }
}
