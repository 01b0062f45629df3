//! The prices of a unit's output and reserve.

ghost use Rattle.std.specs.Prelude.{◌≡◌, ℕ, suc, ◌<◌, ◌≤◌, pos, ◌+ℤ◌, ◌-ℤ◌, length, slice_index_or, unsigned_abs};
ghost use Rattle.uc_model.specs.declared.instance.Instance.{Instance};
ghost use Rattle.dual_model.specs.Prelude.{IsWithinLimits, AreRowsOf, IsLawfulRow, row_at, output_price, reserve_price};
ghost use Rattle.ramp_duals.specs.RampRows.{AreOfTable, IsRowOf};

use crate::multipliers::{Multipliers, following, multipliers_of};
use crate::wide::{gap, wide};
use dual_model::Table;
use dual_model::limits::MAX_UNIT_PRICE;
use uc_model::{difference, sum};

/// The prices of output above the minimum and of reserve, A and B, of thermal unit `g` in period `t`, both from 0, at
/// the scale of the table. Takes a time that grows as the logarithm of the number of the unit's ramp rows.
pub fn coefficients(table: &Table, g: u32, t: u32) -> (i128, i128)
    requires period { t < length table.now.pi }
    ensures output { result.0 ≡ output_price table.now g t }
    ensures reserve { result.1 ≡ reserve_price table.now g t }
    ensures size { IsWithinLimits table.now
        → (unsigned_abs result.0 ≤ MAX_UNIT_PRICE) × (unsigned_abs result.1 ≤ MAX_UNIT_PRICE) }
{
    let t = t as usize;
    let ramps = table.unit_rows(g);
    let now = multipliers_of(ramps, g, t);
    let next = following(ramps, g, t, now);
    let row = row(table, g, t, &now, &next);
    (row.0, row.1)
}

/// Writes the prices of thermal unit `g`, from 0, in each period into `rows`: A, B and the price of demand. Takes a
/// time that grows as the number of periods, whatever ramp rows other units have.
pub fn fill(rows: &mut [(i128, i128, i128)], table: &Table, g: u32)
    requires room { length rows.old ≡ length table.now.pi }
    ensures rows { (instance : Instance) → instance.periods ≡ length table.now.pi → AreRowsOf instance table.now g rows.new }
    ensures size { IsWithinLimits table.now → (t : ℕ) → t < length table.now.pi → IsLawfulRow (row_at rows.new t) }
{
    let ramps = table.unit_rows(g);
    let mut now = multipliers_of(ramps, g, 0);
    for t in 0..rows.len() {
        let next = following(ramps, g, t, now);
        rows[t] = row(table, g, t, &now, &next);
        now = next;
    }
}

// The prices of unit g in period t, from its multipliers there and in the next period.
fn row(table: &Table, g: u32, t: usize, now: &Multipliers, next: &Multipliers) -> (i128, i128, i128)
    requires period { t < length table.now.pi }
    requires now { AreOfTable table.now g t now.now }
    requires next { AreOfTable table.now g (suc t) next.now }
    ensures { IsRowOf table.now g t result }
{
    let demand = price_in(table.pi(), t);
    let reserve = price_in(table.mu(), t);
    (
        output(demand, now, next),
        gap(now.up, reserve),
        wide(demand),
    )
}

// The price in period t; past the last one it is 0.
fn price_in(prices: &[i64], t: usize) -> i64
    ensures { result ≡ slice_index_or prices.now t (pos 0) }
{
    if t < prices.len() { prices[t] } else { 0 }
}

// The price of output in a period of this price of demand.
fn output(demand: i64, now: &Multipliers, next: &Multipliers) -> i128
    ensures { result ≡ now.now.up -ℤ demand -ℤ next.now.up -ℤ now.now.down +ℤ next.now.down }
{
    let own = gap(now.up, demand);
    let later = gap(next.down, now.down);
    difference(sum(own, later), wide(next.up))
}
