//! The prices of an ascent as one list: in each period that of demand, in each that of reserve, and for each unit whose ramps can
//! bind those of its ramp up and then of its ramp down in each period. And the table that they make.

ghost use Rattle.std.specs.Prelude.{◌≡◌, true, All, IfOk, length};
ghost use Rattle.uc_model.specs.Prelude.{IsLawfulInstance};
ghost use Rattle.dual_model.specs.Prelude.{IsLawfulTable, IsPrice, IsRowWithin, IsLawfulScale};
ghost use Rattle.prices.specs.inside.Moves.{AreLawfulRows, IsBehind, IsMultiplier};

use bundle::at;
use dual_model::{RampRow, Table};
use opening_tables::kept;
use std::alloc::Global;
use uc_model::{Instance, NoMemory};

/// Adds the ramps' prices of a table.
pub(crate) fn push_ramp_prices(
    prices: &mut Vec<i64>,
    table: &Table,
    ramped: &[u32],
) -> Result<(), NoMemory> {
    let periods = table.pi().len();
    for g in ramped {
        let first = prices.len();
        for _ in 0..periods {
            prices.push(0)?;
            prices.push(0)?;
        }
        for row in table.unit_rows(*g) {
            let up = first.saturating_add(row.t as usize);
            set(prices, up, &row.up);
            set(prices, up.saturating_add(periods), &row.down);
        }
    }
    Ok(())
}

fn set(prices: &mut [i64], i: usize, price: &i64) {
    if let Some(own) = prices.get_mut(i) {
        *own = *price;
    }
}

/// The table of the prices at the scale `k`, each kept within its limits.
pub(crate) fn table_of(
    alloc: Global,
    instance: &Instance,
    prices: &[i64],
    ramped: &[u32],
    k: i64,
) -> Result<Table, NoMemory>
    requires lawful { IsLawfulInstance instance.now }
    requires scale { IsLawfulScale k }
    ensures lawful { IfOk result (IsLawfulTable instance.now) }
    ensures scale { IfOk result (λ table. table.k ≡ k) }
{
    let pi = demand_prices(alloc, instance.periods, prices)?;
    let mu = reserve_prices(alloc, instance.periods, prices)?;
    let units = instance.thermal.as_slice().len() as u32;
    let rows = ramp_rows(alloc, units, instance.periods, prices, ramped)?;
    Table::new(alloc, units, k, &pi, &mu, &rows)
}

// The prices of demand.
fn demand_prices(alloc: Global, periods: u32, prices: &[i64]) -> Result<Vec<i64>, NoMemory>
    ensures count { IfOk result (λ demand. length demand.items ≡ periods) }
    ensures prices { IfOk result (λ demand. All IsPrice demand.items) }
{
    let mut demand = Vec::new(alloc);
    for t in 0..periods {
        demand.push(kept(i128::from(at(prices, t as usize))))?;
    }
    Ok(demand)
}

// The prices of reserve.
fn reserve_prices(alloc: Global, periods: u32, prices: &[i64]) -> Result<Vec<i64>, NoMemory>
    ensures count { IfOk result (λ reserve. length reserve.items ≡ periods) }
    ensures prices { IfOk result (λ reserve. All IsMultiplier reserve.items) }
{
    let mut reserve = Vec::new(alloc);
    let first = periods as usize;
    for t in 0..periods {
        reserve.push(multiplier(prices, first.saturating_add(t as usize)))?;
    }
    Ok(reserve)
}

// The price i of the list as a multiplier of an inequality.
fn multiplier(prices: &[i64], i: usize) -> i64
    ensures { IsMultiplier result }
{
    kept(i128::from(at(prices, i))).max(0)
}

// The rows of the ramps' prices.
fn ramp_rows(
    alloc: Global,
    units: u32,
    periods: u32,
    prices: &[i64],
    ramped: &[u32],
) -> Result<Vec<RampRow>, NoMemory>
    ensures { IfOk result (λ rows. AreLawfulRows units periods rows.items) }
{
    let mut rows = Vec::new(alloc);
    let mut first = (periods as usize).saturating_mul(2);
    for g in ramped {
        for t in 0..periods {
            let row = ramp_row(prices, periods, first, *g, t);
            push_row(&mut rows, units, periods, row)?;
        }
        first = first.saturating_add((periods as usize).saturating_mul(2));
    }
    Ok(rows)
}

// The row of unit g in period t, whose prices begin at `first`.
fn ramp_row(prices: &[i64], periods: u32, first: usize, g: u32, t: u32) -> RampRow
    ensures up { IsMultiplier result.up }
    ensures down { IsMultiplier result.down }
{
    let up = first.saturating_add(t as usize);
    RampRow {
        g,
        t,
        up: multiplier(prices, up),
        down: multiplier(prices, up.saturating_add(periods as usize)),
    }
}

// Adds a row, if it lies in the size behind the others and isn't all 0.
fn push_row(rows: &mut Vec<RampRow>, units: u32, periods: u32, row: RampRow) -> Result<(), NoMemory>
    requires rows { AreLawfulRows units periods rows.old.items }
    requires up { IsMultiplier row.up }
    requires down { IsMultiplier row.down }
    ensures { IfOk result (λ _. AreLawfulRows units periods rows.new.items) }
{
    if is_within(&row, units, periods) && is_behind(&row, rows) {
        rows.push(row)?;
    }
    Ok(())
}

// Whether the row is one of a cell of the size, and not all 0.
fn is_within(row: &RampRow, units: u32, periods: u32) -> bool
    ensures { result ≡ true → IsRowWithin units periods row.now }
{
    row.g < units && row.t < periods && (row.up != 0 || row.down != 0)
}

// Whether the row comes behind all others.
fn is_behind(row: &RampRow, rows: &[RampRow]) -> bool
    ensures { result ≡ true → IsBehind rows.now row.now }
{
    match rows.last() {
        None => true,
        Some(last) => last.g < row.g || (last.g == row.g && last.t < row.t),
    }
}
