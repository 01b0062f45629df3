//! The terms of a unit: a cell's term for each period and each of its four caps.

ghost use Rattle.std.specs.Prelude.{◌≡◌, ℕ, pos, ◌<◌, ◌≤◌, Bool, None, IfOk, length, slice_index_or, unsigned_abs};
ghost use Rattle.uc_model.specs.Prelude.{cell_cap as cap_of, IsLawfulThermal, thermal_unit, place};
ghost use Rattle.uc_model.specs.declared.instance.Instance.{Instance};
ghost use Rattle.dual_model.specs.declared.table.Table.{Table};
ghost use Rattle.cost_curves.specs.LowerHull.{IsLowerHull};
ghost use Rattle.dual_model.specs.Prelude.{AreSizedTerms, ArePricesOf, AreRowsOf, AreTermsFor, AreTermsOf, AreTermsOfRows, IsLawfulRow, IsLawfulScale, IsTermOfRow, row_at};

use crate::cell::row_terms;
use cost_curves::Curve;
use dual_model::limits::MAX_CAP;
use std::alloc::Global;
use uc_model::limits::{MAX_PERIODS, MAX_POWER};
use uc_model::{List, NoMemory, Terms, Thermal};

/// The terms of a unit, whose points have the curve, at the scale `k` and these prices, a row being a period's A,
/// B and price of demand. The only error is `NoMemory`.
pub fn terms(
    alloc: Global,
    unit: &Thermal,
    curve: &Curve,
    k: i64,
    rows: &[(i128, i128, i128)],
) -> Result<Terms, NoMemory>
    requires lawful { IsLawfulThermal unit.now }
    requires curve { IsLowerHull unit.now.points curve.now }
    requires scale { IsLawfulScale k }
    requires periods { (1 ≤ length rows.now) × (length rows.now ≤ MAX_PERIODS) }
    requires rows { (t : ℕ) → t < length rows.now → IsLawfulRow (row_at rows.now t) }
    ensures terms { IfOk result (AreTermsFor unit.now k rows.now) }
    ensures sized { IfOk result (AreSizedTerms unit.now) }
    ensures at_table { (instance : Instance) (table : Table) (g : ℕ) → thermal_unit instance g ≡ unit.now
        → k ≡ table.k → AreRowsOf instance table g rows.now → IfOk result (AreTermsOf instance table g) }
{
    let mut pi = vec![in alloc; 0; rows.len()]?;
    let mut terms = vec![in alloc; [None; 4]; rows.len()]?;
    fill(
        pi.as_mut_slice(),
        terms.as_mut_slice(),
        unit,
        curve,
        k,
        rows,
    );
    Ok(Terms {
        k,
        pi: List::from_vec(pi),
        terms: List::from_vec(terms),
    })
}

// Writes the price of demand and the terms of each period.
fn fill(
    pi: &mut [i128],
    terms: &mut [[Option<i128>; 4]],
    unit: &Thermal,
    curve: &Curve,
    k: i64,
    rows: &[(i128, i128, i128)],
)
    requires lawful { IsLawfulThermal unit.now }
    requires curve { IsLowerHull unit.now.points curve.now }
    requires scale { IsLawfulScale k }
    requires rows { (t : ℕ) → t < length rows.now → IsLawfulRow (row_at rows.now t) }
    requires prices_room { length pi.old ≡ length rows.now }
    requires terms_room { length terms.old ≡ length rows.now }
    ensures prices { ArePricesOf rows.now (length rows.now) pi.new }
    ensures terms { AreTermsOfRows unit.now k rows.now (length rows.now) terms.new }
{
    for t in 0..rows.len() {
        let row = &rows[t];
        pi[t] = row.2;
        terms[t] = period_terms(unit, curve, k, row, rows.len(), t);
    }
}

// The terms of the cells of period t, in the order of `Terms`.
fn period_terms(
    unit: &Thermal,
    curve: &Curve,
    k: i64,
    row: &(i128, i128, i128),
    periods: usize,
    t: usize,
) -> [Option<i128>; 4]
    requires lawful { IsLawfulThermal unit.now }
    requires curve { IsLowerHull unit.now.points curve.now }
    requires scale { IsLawfulScale k }
    requires row { IsLawfulRow row.now }
    requires period { t < periods }
    ensures { (start stop : Bool) → IsTermOfRow periods unit.now k row.now t start stop (slice_index_or result (place start stop) None) }
{
    let caps = cell_caps(unit, periods, t);
    row_terms(curve, k, row.0, row.1, &caps)
}

// The caps of the cells of period t, in the order of `Terms`.
fn cell_caps(unit: &Thermal, periods: usize, t: usize) -> [i64; 4]
    requires lawful { IsLawfulThermal unit.now }
    requires period { t < periods }
    ensures value { (start stop : Bool) → slice_index_or result (place start stop) (pos 0) ≡ cap_of periods unit.now t start stop }
    ensures size { (i : ℕ) → i < 4 → unsigned_abs (slice_index_or result i (pos 0)) ≤ MAX_CAP }
{
    [
        unit.cell_cap(periods, t, false, false),
        unit.cell_cap(periods, t, true, false),
        unit.cell_cap(periods, t, false, true),
        unit.cell_cap(periods, t, true, true),
    ]
}
