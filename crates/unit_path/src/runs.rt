//! The least way of a unit that is on: the run of on hours, extended hour by hour until it may end, and where it ends.

ghost use Rattle.std.specs.Prelude.{◌≡◌, ℕ, ◌-◌, ◌<◌, ◌≤◌, Some, true, unsigned_abs};
ghost use Rattle.uc_model.specs.Prelude.{IsLawfulThermal, period_count};
ghost use Rattle.dual_model.specs.Prelude.{AreSizedTerms, IsWithin, MAX_COST_TO_GO, MAX_MOVE, may_be_on, move, lesser_of, total_of};
ghost use Rattle.unit_path.specs.inside.Choices.{choice_cost, longer_of, stays, stop_cost, IsLeastStop, IsOneOf, IsStopAtOnce};
ghost use Rattle.unit_path.specs.inside.Hours.{IsHour, IsTableFrom};

use crate::choices::{better_of, joined, longer_by};
use crate::hour::Hour;
use crate::hour_costs::hour_to;
use dual_model::Fix;
use dual_model::choices::{Choice, better, cost_of};
use dual_model::moves::hour_before;
use uc_model::{Terms, Thermal};

/// The least way of a unit that is on since `since`, before period `since`: in which period it stops next.
pub(crate) fn next_stop(
    hours: &[Hour],
    terms: &Terms,
    unit: &Thermal,
    fix: &Fix,
    since: usize,
) -> Option<Choice>
    requires lawful { IsLawfulThermal unit.now }
    requires sized { AreSizedTerms unit.now terms.now }
    requires past { since ≤ period_count terms.now }
    requires later { IsTableFrom terms.now unit.now fix.now since hours.now }
    ensures { IsLeastStop terms.now unit.now fix.now since since result }
{
    let end = hours.len() - 1;
    if since == end {
        let last = hour_before(terms, unit, end, true, false);
        return better(None, last, None);
    }
    let at_once = at_once(&hours[since], terms, unit, fix, since);
    let known = better(None, at_once, Some(since));
    match hour_to(terms, unit, fix, since, true, false) {
        None => known,
        Some(spent) => later_stop(hours, terms, unit, fix, known, spent, since),
    }
}

// What a stop in period `since` itself costs, with all that follows.
fn at_once(hour: &Hour, terms: &Terms, unit: &Thermal, fix: &Fix, since: usize) -> Option<i128>
    requires lawful { IsLawfulThermal unit.now }
    requires sized { AreSizedTerms unit.now terms.now }
    requires period { since < period_count terms.now }
    requires hour { IsHour terms.now unit.now fix.now since hour.now }
    ensures { result ≡ stop_cost terms.now unit.now fix.now since since }
{
    if unit.first_switch(true, since) > since {
        return None;
    }
    match hour_to(terms, unit, fix, since, true, true) {
        None => None,
        Some(cost) => joined(cost, cost_of(&hour.stop)),
    }
}

// The least way, where `known` is what the stop in period `since` comes to, and `spent` what staying on in it costs.
fn later_stop(
    hours: &[Hour],
    terms: &Terms,
    unit: &Thermal,
    fix: &Fix,
    known: Option<Choice>,
    spent: i128,
    since: usize,
) -> Option<Choice>
    requires lawful { IsLawfulThermal unit.now }
    requires sized { AreSizedTerms unit.now terms.now }
    requires period { since < period_count terms.now }
    requires later { IsTableFrom terms.now unit.now fix.now since hours.now }
    requires known { IsStopAtOnce terms.now unit.now fix.now since since known }
    requires spent { Some spent ≡ move terms.now unit.now fix.now since true since true }
    ensures { IsLeastStop terms.now unit.now fix.now since since result }
{
    let end = hours.len() - 1;
    let from = unit.first_switch(true, since).max(since + 1).min(end);
    if from > hours[since + 1].on_until {
        return known;
    }
    let spent = run_cost(hours, terms, unit, fix, spent, since, from);
    better_of(known, longer_by(spent, hours[from].onward))
}

// What it costs to stay on from period `since` to the one before `to`, where `spent` is what it costs in the first.
fn run_cost(
    hours: &[Hour],
    terms: &Terms,
    unit: &Thermal,
    fix: &Fix,
    spent: i128,
    since: usize,
    to: usize,
) -> i128
    requires lawful { IsLawfulThermal unit.now }
    requires sized { AreSizedTerms unit.now terms.now }
    requires order { since < to }
    requires within { to ≤ period_count terms.now }
    requires later { IsTableFrom terms.now unit.now fix.now since hours.now }
    requires spent { Some spent ≡ move terms.now unit.now fix.now since true since true }
    requires on { (t : ℕ) → since < t → t < to → may_be_on fix.now t ≡ true }
    ensures value { Some result ≡ stays terms.now unit.now fix.now since since (to - since) }
    ensures size { unsigned_abs result ≤ MAX_COST_TO_GO }
{
    // Invariant, before period t: Some total = stays .. since since (t - since), at most (t - since) * MAX_MOVE in size.
    let mut total = spent;
    for t in since + 1..to {
        total += hours[t].stay;
    }
    total
}

/// The least way of a unit that is on before period `t` and may stop from it on: to stop in it at the cost `exit`, or to
/// go on at the cost `stay`, where it may, by the least way `later` from the next one.
pub(crate) fn onward(
    exit: Option<i128>,
    stay: i128,
    later: Option<Choice>,
    t: usize,
) -> Option<Choice>
    requires exit { IsWithin MAX_COST_TO_GO exit }
    requires stay { unsigned_abs stay ≤ MAX_MOVE }
    requires later { IsWithin MAX_COST_TO_GO (choice_cost later) }
    ensures cost { choice_cost result ≡ lesser_of (total_of (Some stay) (choice_cost later)) exit }
    ensures choice { IsOneOf (longer_of stay later) exit (Some t) result }
{
    better(longer_by(stay, later), exit, Some(t))
}
