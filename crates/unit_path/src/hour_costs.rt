//! What the hour before a period costs a unit that was on in it, by what it does in the period.

ghost use Rattle.std.specs.Prelude.{◌≡◌, ◌<◌, ◌≤◌, Some, false, unsigned_abs, if◌then◌else◌};
ghost use Rattle.uc_model.specs.Prelude.{IsLawfulThermal, period_count};
ghost use Rattle.dual_model.specs.Prelude.{AreSizedTerms, IsWithin, MAX_MOVE, hour_before as hour_of};
ghost use Rattle.unit_path.specs.inside.Hours.{leave_cost, stay_cost};

use dual_model::Fix;
use dual_model::moves::{holds_initially, hour_before, hour_cost};
use interval_graph::Intervals;
use uc_model::{Terms, Thermal};

/// A unit that is on stays on in period `t`, or stops in it where it has been on for long enough: the cost of the hour before,
/// which was a start or none.
pub(crate) fn hour_to(
    terms: &Terms,
    unit: &Thermal,
    fix: &Fix,
    t: usize,
    start: bool,
    stop: bool,
) -> Option<i128>
    requires lawful { IsLawfulThermal unit.now }
    requires sized { AreSizedTerms unit.now terms.now }
    requires period { t < period_count terms.now }
    ensures value { result ≡ (if stop then leave_cost terms.now unit.now fix.now t start else stay_cost terms.now unit.now fix.now t start) }
    ensures size { IsWithin MAX_MOVE result }
{
    if stop {
        if fix.may_be_off(unit, t) && holds_initially(unit, t, true) {
            hour_before(terms, unit, t, start, true)
        } else {
            None
        }
    } else if fix.may_be_on(t) && holds_initially(unit, t, false) {
        hour_before(terms, unit, t, start, false)
    } else {
        None
    }
}

/// What the hour before period `t` costs where it neither follows a switch nor comes before one, so that it has always a term.
pub(crate) fn full_hour_before(
    intervals: &Intervals,
    terms: &Terms,
    unit: &Thermal,
    t: usize,
) -> i128
    requires lawful { IsLawfulThermal unit.now }
    requires sized { AreSizedTerms unit.now terms.now }
    requires filled { intervals.now ≡ terms.now.terms }
    requires period { t ≤ period_count terms.now }
    ensures value { Some result ≡ hour_of terms.now unit.now t false false }
    ensures size { unsigned_abs result ≤ MAX_MOVE }
{
    if t == 0 {
        return 0;
    }
    let price = terms.pi.as_slice()[t - 1];
    hour_cost(intervals.full_term(t - 1), price, unit.pmin)
}
