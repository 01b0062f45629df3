//! The path: the least ways from each switch on, from the last period to the first.

ghost use Rattle.std.specs.Prelude.{◌≡◌, ℕ, suc, ◌<◌, ◌≤◌, IfSome, IfNone, MatchOption, None, true, false, length, unsigned_abs};
ghost use Rattle.uc_model.specs.Prelude.{IsLawfulThermal, commitment_of, thermal_unit, period_count};
ghost use Rattle.uc_model.specs.declared.instance.Instance.{Instance};
ghost use Rattle.dual_model.specs.Prelude.{IsFixOf, AreSizedTerms, IsBestPattern, IsLeastValue, IsPattern, pattern_value, AreTermsOf, cost_to_go, IsWithin, MAX_COST_TO_GO, MAX_MOVE, may_be_off as may_be_off_in, may_be_on as may_be_on_in, total_of};
ghost use Rattle.dual_model.specs.Fixings.{HasNoPattern as HasNoPatternAt};
ghost use Rattle.dual_model.specs.PatternValue.{HasNoPattern};
ghost use Rattle.dual_model.specs.declared.node.Node.{Node};
ghost use Rattle.dual_model.specs.declared.table.Table.{Table};
ghost use Rattle.unit_path.specs.inside.Choices.{choice_cost, IsFirst};
ghost use Rattle.unit_path.specs.inside.Hours.{IsEnd, IsHour, IsStartIn, IsStopIn, IsTableFrom};

use crate::choices::joined;
use crate::hour::{Hour, UNKNOWN};
use crate::hour_costs::{full_hour_before, hour_to};
use crate::rests::{cold_start, next_start};
use crate::runs::{next_stop, onward};
use crate::scratch::Scratch;
use crate::trace::pattern_of;
use dual_model::Fix;
use dual_model::choices::{Choice, better, cost_of};
use interval_graph::Intervals;
use start_costs::sigma;
use uc_model::limits::MAX_PERIODS;
use uc_model::{Pattern, Terms, Thermal};

/// The value of one unit, exact, with a pattern that attains it: the least value of a pattern that is allowed and as
/// `fix` decides, by the unit's `terms`; `None` exactly where there is no such pattern. Where the terms are those of
/// a unit of an instance at a price table, this is the unit's value there. In periods past the last one the pattern is
/// off. Takes no memory, and a time that grows as the square of the number of periods.
pub fn least(
    scratch: &mut Scratch,
    terms: &Terms,
    unit: &Thermal,
    fix: &Fix,
) -> Option<(i128, Pattern)>
    requires lawful { IsLawfulThermal unit.now }
    requires sized { AreSizedTerms unit.now terms.now }
    requires room { scratch.old ≡ period_count terms.now }
    ensures kept { scratch.new ≡ scratch.old }

    ensures value { IfSome result (λ best. IsLeastValue terms.now unit.now fix.now best.0) }
    ensures pattern { IfSome result (λ best. IsPattern (period_count terms.now) unit.now fix.now (commitment_of best.1)) }
    ensures attained { IfSome result (λ best. best.0 ≡ pattern_value terms.now unit.now (commitment_of best.1)) }
    ensures within { IfSome result (λ best. (t : ℕ) → period_count terms.now ≤ t → commitment_of best.1 t ≡ false) }
    ensures none { IfNone result (HasNoPattern terms.now unit.now fix.now) }
    ensures size { IfSome result (λ best. unsigned_abs best.0 ≤ MAX_COST_TO_GO) }
    ensures unit_value { (instance : Instance) (node : Node) (table : Table) (g : ℕ)
        → thermal_unit instance g ≡ unit.now → AreTermsOf instance table g terms.now
        → IsFixOf instance.periods node g fix.now
        → MatchOption result (HasNoPatternAt instance node g) (λ best. IsBestPattern instance node table g (commitment_of best.1) best.0) }
{
    scratch.intervals.fill(terms);
    let hours = scratch.hours.as_mut_slice();
    fill(hours, &scratch.intervals, terms, unit, fix);
    match first_switch(hours, terms, unit, fix) {
        None => None,
        Some(first) => Some((first.cost, pattern_of(hours, terms, unit, fix, &first))),
    }
}

// Fills the table, from the last period to the first.
fn fill(hours: &mut [Hour], intervals: &Intervals, terms: &Terms, unit: &Thermal, fix: &Fix)
    requires lawful { IsLawfulThermal unit.now }
    requires sized { AreSizedTerms unit.now terms.now }
    requires filled { intervals.now ≡ terms.now.terms }
    requires room { length hours.old ≡ suc (period_count terms.now) }
    ensures { IsTableFrom terms.now unit.now fix.now 0 hours.new }
{
    let periods = intervals.periods();
    hours[periods] = end(intervals, terms, unit, fix);
    // Invariant: the table is right from period `periods` - back on.
    for back in 0..periods {
        let t = periods - 1 - back;
        hours[t] = hour(hours, intervals, terms, unit, fix, t);
    }
}

// The least way from the initial state on, and where the unit is switched first on it.
fn first_switch(hours: &[Hour], terms: &Terms, unit: &Thermal, fix: &Fix) -> Option<Choice>
    requires lawful { IsLawfulThermal unit.now }
    requires sized { AreSizedTerms unit.now terms.now }
    requires table { IsTableFrom terms.now unit.now fix.now 0 hours.now }
    ensures cost { choice_cost result ≡ cost_to_go terms.now unit.now fix.now (period_count terms.now) 0 unit.now.on0 0 }
    ensures first { IfSome result (IsFirst terms.now unit.now fix.now) }
{
    if unit.on0 {
        next_stop(hours, terms, unit, fix, 0)
    } else {
        next_start(hours, terms, unit, fix, 0)
    }
}

// The end of the horizon.
fn end(intervals: &Intervals, terms: &Terms, unit: &Thermal, fix: &Fix) -> Hour
    requires lawful { IsLawfulThermal unit.now }
    requires sized { AreSizedTerms unit.now terms.now }
    requires filled { intervals.now ≡ terms.now.terms }
    ensures { IsEnd terms.now unit.now fix.now result }
{
    let periods = intervals.periods();
    let last = full_hour_before(intervals, terms, unit, periods);
    Hour {
        on_until: periods,
        off_until: periods,
        onward: better(None, Some(last), None),
        cold_start: better(None, Some(0), None),
        ..UNKNOWN
    }
}

// Period t, from the later ones.
fn hour(
    hours: &[Hour],
    intervals: &Intervals,
    terms: &Terms,
    unit: &Thermal,
    fix: &Fix,
    t: usize,
) -> Hour
    requires lawful { IsLawfulThermal unit.now }
    requires sized { AreSizedTerms unit.now terms.now }
    requires filled { intervals.now ≡ terms.now.terms }
    requires period { t < period_count terms.now }
    requires later { IsTableFrom terms.now unit.now fix.now (suc t) hours.now }
    ensures { IsHour terms.now unit.now fix.now t result }
{
    let next = &hours[t + 1];
    let (on_until, onward_later) = on_after(next, fix, t);
    let (off_until, cold_later) = off_after(next, unit, fix, t);
    let start = start_in(hours, terms, unit, fix, t);
    let start_cost = sigma(unit, None, t);
    let stop = stop_in(hours, terms, unit, fix, t);
    let exit = exit(hour_to(terms, unit, fix, t, false, true), &stop);
    let stay = full_hour_before(intervals, terms, unit, t);
    Hour {
        stay,
        start_cost,
        on_until,
        off_until,
        onward: onward(exit, stay, onward_later, t),
        cold_start: cold_start(&start, terms, start_cost, t, cold_later),
        start,
        stop,
    }
}

// How long a unit may be on from period t on, and its least way from the next period on where it may be on in t.
fn on_after(next: &Hour, fix: &Fix, t: usize) -> (usize, Option<Choice>)
    requires { t < MAX_PERIODS }
    ensures on { may_be_on_in fix.now t ≡ true → result ≡ (next.now.on_until, next.now.onward) }
    ensures off { may_be_on_in fix.now t ≡ false → result ≡ (t, None) }
{
    if fix.may_be_on(t) {
        (next.on_until, next.onward)
    } else {
        (t, None)
    }
}

// How long a unit may be off from period t on, and its least way from the next period on where it may be off in t.
fn off_after(next: &Hour, unit: &Thermal, fix: &Fix, t: usize) -> (usize, Option<Choice>)
    requires { t < MAX_PERIODS }
    ensures off { may_be_off_in unit.now fix.now t ≡ true → result ≡ (next.now.off_until, next.now.cold_start) }
    ensures on { may_be_off_in unit.now fix.now t ≡ false → result ≡ (t, None) }
{
    if fix.may_be_off(unit, t) {
        (next.off_until, next.cold_start)
    } else {
        (t, None)
    }
}

// What a stop costs with all that follows.
fn exit(cost: Option<i128>, stop: &Option<Choice>) -> Option<i128>
    requires cost { IsWithin MAX_MOVE cost }
    requires stop { IsWithin MAX_COST_TO_GO (choice_cost stop.now) }
    ensures { result ≡ total_of cost (choice_cost stop.now) }
{
    match cost {
        None => None,
        Some(cost) => joined(cost, cost_of(stop)),
    }
}

// The least way from a stop in period t on, where the unit may be off in it.
fn stop_in(hours: &[Hour], terms: &Terms, unit: &Thermal, fix: &Fix, t: usize) -> Option<Choice>
    requires lawful { IsLawfulThermal unit.now }
    requires sized { AreSizedTerms unit.now terms.now }
    requires period { t < period_count terms.now }
    requires later { IsTableFrom terms.now unit.now fix.now (suc t) hours.now }
    ensures { IsStopIn terms.now unit.now fix.now t result }
{
    if fix.may_be_off(unit, t) {
        next_start(hours, terms, unit, fix, t + 1)
    } else {
        None
    }
}

// The least way from a start in period t on, without the cost of that start, where the unit may be on in it.
fn start_in(hours: &[Hour], terms: &Terms, unit: &Thermal, fix: &Fix, t: usize) -> Option<Choice>
    requires lawful { IsLawfulThermal unit.now }
    requires sized { AreSizedTerms unit.now terms.now }
    requires period { t < period_count terms.now }
    requires later { IsTableFrom terms.now unit.now fix.now (suc t) hours.now }
    ensures { IsStartIn terms.now unit.now fix.now t result }
{
    if fix.may_be_on(t) {
        next_stop(hours, terms, unit, fix, t + 1)
    } else {
        None
    }
}
