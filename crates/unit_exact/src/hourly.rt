//! A pattern's hours, each at what is best in it by itself.

ghost use Rattle.std.specs.Prelude.{◌≡◌, ◌*◌, ◌<◌, ◌≤◌, true, pos, ◌+ℤ◌, ◌≤ℤ◌, ◌<ℤ◌, IfSome, IsTrue, unsigned_abs};
ghost use Rattle.uc_model.specs.Prelude.{was_on as on_before, IsLawfulThermal, commitment_of, period_count, term_at as term_of};
ghost use Rattle.dual_model.specs.Prelude.{is_followed as followed, AreSizedTerms, MAX_TERM};
ghost use Rattle.hull_function.specs.Hulls.{IsHullFunction};
ghost use Rattle.hull_function.specs.Hours.{IsSizedHour};
ghost use Rattle.hull_function.specs.Problems.{MAX_POWER, IsLawfulProblem, HasHull};
ghost use Rattle.unit_runs.specs.Runs.{KeepsRamps};
ghost use Rattle.unit_exact.specs.inside.Hourly.{IsBestIn, IsGivenAt, IsHourly};

use crate::output_costs::cost;
use dual_model::Fix;
use hull_function::{Hour, Problem};
use step_functions::ConvexFunction;
use uc_model::limits::MAX_PERIODS;
use uc_model::terms::place;
use uc_model::{Pattern, Terms, Thermal};
use unit_runs::entry_output;

/// What a plain evaluation knows of a unit: what is decided of it, its terms at the table, and a pattern.
#[derive(Clone, Copy)]
pub struct Plain<'a> {
    pub fix: &'a Fix,
    pub terms: &'a Terms,
    pub pattern: &'a Pattern,
}

/// Output above the minimum, and reserve, in an hour, in watts.
#[derive(Clone, Copy)]
pub(crate) struct Given {
    pub(crate) output: i64,
    pub(crate) reserve: i64,
}

/// Whether what is best in each hour of the pattern by itself keeps the ramps, for no more than the hour's term.
pub(crate) fn is_hourly(problem: &Problem, plain: &Plain) -> bool
    requires lawful { IsLawfulProblem problem.now.periods problem.now.table.now problem.now.unit.now }
    requires hull { HasHull problem.now.table.now problem.now.unit.now problem.now.hull.now }
    requires terms { period_count plain.now.terms.now ≡ problem.now.periods }
    requires sized { AreSizedTerms problem.now.unit.now plain.now.terms.now }
    ensures { IsTrue result
        → IsHourly problem.now.periods problem.now.table.now problem.now.unit.now plain.now.terms.now (commitment_of plain.now.pattern.now) }
{
    // Invariant: the hours before period t are so, and `before` is the output of the last of them.
    let mut before = entry_output(problem.unit, 0);
    for t in 0..problem.periods {
        let Some(given) = given_in(problem, plain, t) else {
            return false;
        };
        if !follows(problem.unit, &given, before) {
            return false;
        }
        before = given.output;
    }
    true
}

// What is best in period t; `None` where that costs more than the hour's term. An off period gives nothing.
fn given_in(problem: &Problem, plain: &Plain, t: usize) -> Option<Given>
    requires lawful { IsLawfulProblem problem.now.periods problem.now.table.now problem.now.unit.now }
    requires hull { HasHull problem.now.table.now problem.now.unit.now problem.now.hull.now }
    requires terms { period_count plain.now.terms.now ≡ problem.now.periods }
    requires sized { AreSizedTerms problem.now.unit.now plain.now.terms.now }
    requires period { t < problem.now.periods }
    ensures { IfSome result (IsGivenAt problem.now.periods problem.now.table.now problem.now.unit.now plain.now.terms.now (commitment_of plain.now.pattern.now) t) }
{
    if !plain.pattern.is_on(t as u32) {
        return Some(Given {
            output: 0,
            reserve: 0,
        });
    }
    let start = !was_on(problem.unit, plain.pattern, t);
    let stop = is_followed(problem.periods, plain.pattern, t);
    let hour = Hour::at(problem, t, start, stop);
    let term = term_at(plain.terms, t, start, stop)?;
    best_in(problem.hull, &hour, term)
}

// Whether the unit is on in the period before t.
fn was_on(unit: &Thermal, pattern: &Pattern, t: usize) -> bool
    requires { t ≤ MAX_PERIODS }
    ensures { result ≡ on_before unit.now (commitment_of pattern.now) t }
{
    if t == 0 {
        unit.on0
    } else {
        pattern.is_on(t as u32 - 1)
    }
}

// Whether a stop follows period t, in which the unit is on.
fn is_followed(periods: usize, pattern: &Pattern, t: usize) -> bool
    requires period { t < periods }
    requires periods { periods ≤ MAX_PERIODS }
    requires on { commitment_of pattern.now t ≡ true }
    ensures { (unit : Thermal) → result ≡ followed periods unit (commitment_of pattern.now) t }
{
    t + 1 < periods && !pattern.is_on(t as u32 + 1)
}

// The term of a cell in period t, by whether it is a start and whether a stop follows.
fn term_at(terms: &Terms, t: usize, start: bool, stop: bool) -> Option<i128>
    requires { t < period_count terms.now }
    ensures value { result ≡ term_of terms.now t start stop }
    ensures size { (unit : Thermal) → AreSizedTerms unit terms.now → IfSome result (λ m. unsigned_abs m ≤ MAX_TERM) }
{
    terms.terms.as_slice()[t][place(start, stop)]
}

// What is best in the hour; `None` where that costs more than the term. Reserve takes all the room that is left where it
// earns something.
fn best_in(hull: &ConvexFunction, hour: &Hour, term: i128) -> Option<Given>
    requires hull { IsHullFunction hull.now }
    requires hour { IsSizedHour hour.now }
    ensures { IfSome result (IsBestIn hull.now hour.now term) }
{
    if hour.cap < 0 {
        return None;
    }
    let output = hull.least_place(i128::from(hour.price)).min(hour.cap);
    if cost(hull, hour, output) <= term {
        Some(Given {
            output,
            reserve: reserve_beside(hour, output),
        })
    } else {
        None
    }
}

// The reserve beside an output.
fn reserve_beside(hour: &Hour, output: i64) -> i64
    requires hour { IsSizedHour hour.now }
    requires output { (pos 0 ≤ℤ output) × (output ≤ℤ hour.now.cap) }
    ensures sign { pos 0 ≤ℤ result }
    ensures cap { (output +ℤ result) ≤ℤ hour.now.cap }
    ensures none { hour.now.worth ≡ pos 0 → result ≡ pos 0 }
    ensures all { pos 0 <ℤ hour.now.worth → output +ℤ result ≡ hour.now.cap }
{
    if hour.worth > 0 { hour.cap - output } else { 0 }
}

// Whether what the unit gives keeps the ramps behind the output before.
fn follows(unit: &Thermal, given: &Given, before: i64) -> bool
    requires unit { IsLawfulThermal unit.now }
    requires before { unsigned_abs before ≤ 2 * MAX_POWER }
    requires output { (pos 0 ≤ℤ given.now.output) × (given.now.output ≤ℤ pos (2 * MAX_POWER)) }
    requires reserve { (pos 0 ≤ℤ given.now.reserve) × (given.now.reserve ≤ℤ pos (2 * MAX_POWER)) }
    ensures { IsTrue result → KeepsRamps unit.now before given.now.output given.now.reserve }
{
    let rise = given.output + given.reserve - before;
    let fall = before - given.output;
    rise <= unit.ru && fall <= unit.rd
}
