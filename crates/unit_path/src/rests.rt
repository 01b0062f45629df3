//! The least way of a unit that is off: where its rest ends.

ghost use Rattle.std.specs.Prelude.{◌≡◌, ℕ, ◌-◌, ◌<◌, ◌≤◌, ◌*ℤ◌, Some, None, true, false, IfSome};
ghost use Rattle.uc_model.specs.Prelude.{IsCost, IsLawfulThermal, sigma, period_count, may_start};
ghost use Rattle.dual_model.specs.Prelude.{IsLawfulScale, AreSizedTerms, cost_to_go, IsWithin, MAX_COST_TO_GO, may_be_off, stop_since, lesser_of, total_of};
ghost use Rattle.unit_path.specs.inside.Choices.{choice_cost, IsLeastStart, IsOneOf, IsStart};
ghost use Rattle.unit_path.specs.inside.Hours.{IsTableFrom};

use crate::choices::better_of;
use crate::hour::Hour;
use crate::start_table::{first_cold, start_cost};
use dual_model::Fix;
use dual_model::choices::{Choice, better};
use uc_model::{Terms, Thermal, scaled, sum};

/// The least way of a unit that is off since `since`, before period `since`: in which period it starts next.
pub(crate) fn next_start(
    hours: &[Hour],
    terms: &Terms,
    unit: &Thermal,
    fix: &Fix,
    since: usize,
) -> Option<Choice>
    requires lawful { IsLawfulThermal unit.now }
    requires sized { AreSizedTerms unit.now terms.now }
    requires past { since ≤ period_count terms.now }
    requires later { IsTableFrom terms.now unit.now fix.now since hours.now }
    ensures { IsLeastStart terms.now unit.now fix.now since since result }
{
    let end = hours.len() - 1;
    let from = unit.first_switch(false, since).max(since).min(end);
    let until = hours[since].off_until;
    if from > until {
        return None;
    }
    let cold = first_cold(unit, since).max(from).min(end);
    if cold > until {
        let best = best_warm(hours, terms, unit, fix, since, from, until);
        better(
            best,
            from_start(&hours[until], terms, unit, since, until),
            Some(until),
        )
    } else {
        let best = best_warm(hours, terms, unit, fix, since, from, cold);
        better_of(best, hours[cold].cold_start)
    }
}

// The best of the starts from period `from` to the one before `to`, of a unit that is off since `since`, and may start and
// may rest in them.
fn best_warm(
    hours: &[Hour],
    terms: &Terms,
    unit: &Thermal,
    fix: &Fix,
    since: usize,
    from: usize,
    to: usize,
) -> Option<Choice>
    requires lawful { IsLawfulThermal unit.now }
    requires sized { AreSizedTerms unit.now terms.now }
    requires past { since ≤ from }
    requires order { from ≤ to }
    requires within { to ≤ period_count terms.now }
    requires later { IsTableFrom terms.now unit.now fix.now since hours.now }
    requires may { from < to → may_start unit.now since from ≡ true }
    requires off { (t : ℕ) → from ≤ t → t < to → may_be_off unit.now fix.now t ≡ true }
    ensures cost { lesser_of (choice_cost result) (cost_to_go terms.now unit.now fix.now (period_count terms.now - to) to false since)
        ≡ cost_to_go terms.now unit.now fix.now (period_count terms.now - from) from false since }
    ensures start { IfSome result (IsStart terms.now unit.now fix.now since from) }
{
    // Invariant, before period t: both clauses with t in place of `to`.
    let mut best = None;
    for t in from..to {
        best = better(best, from_start(&hours[t], terms, unit, since, t), Some(t));
    }
    best
}

// What a start in period t costs with all that follows, of a unit that is off since `since` and may start then.
fn from_start(hour: &Hour, terms: &Terms, unit: &Thermal, since: usize, t: usize) -> Option<i128>
    requires lawful { IsLawfulThermal unit.now }
    requires sized { AreSizedTerms unit.now terms.now }
    requires period { t < period_count terms.now }
    requires past { since ≤ t }
    requires start_cost { hour.now.start_cost ≡ sigma unit.now None t }
    requires start { IsWithin MAX_COST_TO_GO (choice_cost hour.now.start) }
    ensures { result ≡ total_of (Some (terms.now.k *ℤ sigma unit.now (stop_since since) t)) (choice_cost hour.now.start) }
{
    let cost = start_cost(unit, hour.start_cost, since, t);
    priced_start(&hour.start, terms, cost)
}

/// The least way of a unit that is off before period `t`, may start from it on, and has cold starts: to start in it at this
/// cost, in micro-dollars, or to rest, where it may, and go on by the least way `later` from the next one.
pub(crate) fn cold_start(
    start: &Option<Choice>,
    terms: &Terms,
    cost: i64,
    t: usize,
    later: Option<Choice>,
) -> Option<Choice>
    requires scale { IsLawfulScale terms.now.k }
    requires cost { IsCost cost }
    requires start { IsWithin MAX_COST_TO_GO (choice_cost start.now) }
    ensures cost { choice_cost result ≡ lesser_of (choice_cost later) (total_of (Some (terms.now.k *ℤ cost)) (choice_cost start.now)) }
    ensures choice { IsOneOf later (total_of (Some (terms.now.k *ℤ cost)) (choice_cost start.now)) (Some t) result }
{
    better(later, priced_start(start, terms, cost), Some(t))
}

// A start of this cost, in micro-dollars, with the way that begins with it.
fn priced_start(start: &Option<Choice>, terms: &Terms, cost: i64) -> Option<i128>
    requires scale { IsLawfulScale terms.now.k }
    requires cost { IsCost cost }
    requires start { IsWithin MAX_COST_TO_GO (choice_cost start.now) }
    ensures { result ≡ total_of (Some (terms.now.k *ℤ cost)) (choice_cost start.now) }
{
    match start {
        None => None,
        Some(start) => Some(sum(scaled(terms.k, cost), start.cost)),
    }
}
