//! What intervals of on hours cost the first unit of a system, where nothing has a price.

ghost use Rattle.std.specs.Prelude.{◌≡◌, ◌<◌, ◌≤◌, ℕ, IfOk, length};
ghost use Rattle.uc_model.specs.Prelude.{IsLawfulInstance, IsLawfulThermal, period_count};
ghost use Rattle.dual_model.specs.Prelude.{IsLawfulRow, row_at, AreSizedTerms};

use crate::Answer;
use crate::text::{first, large_line, told};
use crate::unit::{first_unit, period};
use cost_curves::Curve;
use interval_graph::Intervals;
use period_term::terms;
use std::alloc::Global;
use uc_model::limits::MAX_PERIODS;
use uc_model::{Instance, NoMemory, Terms, Thermal};

/// What the hours of an interval cost, as `FIRST LAST` says.
pub(crate) fn tell_interval(alloc: Global, instance: &Instance, words: &str) -> Answer
    requires { IsLawfulInstance instance.now }
{
    let (begin, end) = first(words);
    let periods = instance.periods as usize;
    match (first_unit(instance), period(begin), period(end)) {
        (Some(unit), Some(a), Some(b)) if a <= b && b < periods => {
            interval_text(alloc, unit, periods, a, b)
        }
        _ => told(alloc, "no such interval\n"),
    }
}

// What the hours from period a to period b cost.
fn interval_text(alloc: Global, unit: &Thermal, periods: usize, a: usize, b: usize) -> Answer
    requires lawful { IsLawfulThermal unit.now }
    requires periods { periods ≤ MAX_PERIODS }
    requires order { a ≤ b }
    requires within { b < periods }
{
    match interval_cost(alloc, unit, periods, a, b)? {
        Some(cost) => large_line(alloc, "cost", &[cost]),
        None => told(alloc, "no cost\n"),
    }
}

// What the hours from period a to period b cost, if the unit may be on in each.
fn interval_cost(
    alloc: Global,
    unit: &Thermal,
    periods: usize,
    a: usize,
    b: usize,
) -> Result<Option<i128>, NoMemory>
    requires lawful { IsLawfulThermal unit.now }
    requires periods { periods ≤ MAX_PERIODS }
    requires order { a ≤ b }
    requires within { b < periods }
{
    let terms = free_terms(alloc, unit, periods)?;
    let cost = match Intervals::new(alloc, periods) {
        Ok(intervals) => {
            let mut intervals = intervals;
            intervals.fill(&terms);
            let cost = intervals.cost(a, b);
            drop(intervals);
            Ok(cost)
        }
        Err(NoMemory) => Err(NoMemory),
    };
    drop(terms);
    cost
}

// The unit's terms at the scale of a million, where nothing has a price.
fn free_terms(alloc: Global, unit: &Thermal, periods: usize) -> Result<Terms, NoMemory>
    requires lawful { IsLawfulThermal unit.now }
    requires periods { (1 ≤ periods) × (periods ≤ MAX_PERIODS) }
    ensures sized { IfOk result (AreSizedTerms unit.now) }
    ensures periods { IfOk result (λ terms. period_count terms ≡ periods) }
{
    let rows = free_rows(alloc, periods)?;
    let curve = Curve::of(alloc, unit.points.as_slice());
    let made = match &curve {
        Ok(curve) => terms(alloc, unit, curve, 1_000_000, &rows),
        Err(NoMemory) => Err(NoMemory),
    };
    drop(curve);
    drop(rows);
    made
}

// Prices of 0 in each period.
fn free_rows(alloc: Global, periods: usize) -> Result<Vec<(i128, i128, i128)>, NoMemory>
    ensures count { IfOk result (λ rows. length rows.items ≡ periods) }
    ensures rows { IfOk result (λ rows. (t : ℕ) → t < length rows.items → IsLawfulRow (row_at rows.items t)) }
{
    Ok(vec![in alloc; (0, 0, 0); periods]?)
}
