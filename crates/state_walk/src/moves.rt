//! What the moves of a unit cost, by its state before the period; `None` is a move that it may not make.

ghost use Rattle.std.specs.Prelude.{◌≡◌, ◌<◌, ◌≤◌};
ghost use Rattle.uc_model.specs.Prelude.{IsLawfulThermal, period_count};
ghost use Rattle.dual_model.specs.Prelude.{AreSizedTerms, move, stop_since as stop_of};

use dual_model::Fix;
use dual_model::moves::{holds_initially, hour_before};
use start_costs::sigma;
use uc_model::{Terms, Thermal, scaled};

/// What it costs to go on from a state before period `t`, the unit being on in the period or not.
pub(crate) fn move_cost(
    terms: &Terms,
    unit: &Thermal,
    fix: &Fix,
    t: usize,
    was: bool,
    since: usize,
    now: bool,
) -> Option<i128>
    requires lawful { IsLawfulThermal unit.now }
    requires sized { AreSizedTerms unit.now terms.now }
    requires period { t < period_count terms.now }
    requires past { since ≤ t }
    ensures { result ≡ move terms.now unit.now fix.now t was since now }
{
    match (was, now) {
        (true, true) => {
            if fix.may_be_on(t) && holds_initially(unit, t, false) {
                hour_before(terms, unit, t, since == t, false)
            } else {
                None
            }
        }
        (true, false) => {
            if fix.may_be_off(unit, t)
                && holds_initially(unit, t, true)
                && unit.may_switch(true, since, t)
            {
                hour_before(terms, unit, t, since == t, true)
            } else {
                None
            }
        }
        (false, true) => {
            if fix.may_be_on(t) && unit.may_switch(false, since, t) {
                Some(scaled(terms.k, sigma(unit, stop_since(since), t)))
            } else {
                None
            }
        }
        (false, false) => {
            if fix.may_be_off(unit, t) {
                Some(0)
            } else {
                None
            }
        }
    }
}

/// The last stop of a unit that is off since then.
pub(crate) fn stop_since(since: usize) -> Option<usize>
    ensures { result ≡ stop_of since }
{
    if since == 0 { None } else { Some(since - 1) }
}
