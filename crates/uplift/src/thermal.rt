//! The uplifts of the thermal units.

ghost use Rattle.std.specs.Prelude.{◌≡◌, ℕ, ◌+◌, ◌*◌, ◌<◌, ◌≤◌, ◌+ℤ◌, ◌-ℤ◌, ◌*ℤ◌, pos, ◌≤ℤ◌, IfOk, length, unsigned_abs, All};
ghost use Rattle.uc_model.specs.Prelude.{IsLawfulInstance, IsLawfulThermal, IsPower, HasShapeOf, cell_at, thermal_count, thermal_unit, bit, sum_below};
ghost use Rattle.dual_model.specs.Prelude.{MAX_PART, constant_at, HasSizeOf, IsWithinLimits, output_price, reserve_price};
ghost use Rattle.schedule_check.specs.SizedNumbers.{HasSizedNumbers, IsSized, IsSizedCell};
ghost use Rattle.schedule_check.specs.WholeWatts.{HasPrice, IsSizedRow, cell as cell_of};
ghost use Rattle.uplift.specs.Sizes.{MAX_CHARGE, MAX_PRICED, MAX_UNIT_COST, MAX_UPLIFT};
ghost use Rattle.uplift.specs.Uplift.{charge as charge_of, thermal_uplift};
ghost use Rattle.uplift.specs.inside.Lists.{AreThermalUplifts, reduced_cost as reduced_cost_of};

use dual_model::Table;
use dual_model::limits::MAX_UNIT_PRICE;
use ramp_duals::{coefficients, constant};
use schedule_check::row_cost;
use std::alloc::Global;
use uc_model::limits::MAX_POWER;
use uc_model::{Cell, Instance, NoMemory, Printed, Thermal, difference, product, scaled, sum};

/// The uplift of each thermal unit, from what each adds to the value of the root.
pub(crate) fn thermal_uplifts(
    alloc: Global,
    instance: &Instance,
    printed: &Printed,
    table: &Table,
    parts: &[i128],
) -> Result<Vec<i128>, NoMemory>
    requires lawful { IsLawfulInstance instance.now }
    requires shape { HasShapeOf instance.now printed.now }
    requires sized { HasSizedNumbers printed.now }
    requires whole { printed.now.denominator ≡ 1 }
    requires prices { (g t : ℕ) → g < thermal_count instance.now → t < instance.now.periods → HasPrice (thermal_unit instance.now g) (cell_at printed.now g t) }
    requires size { HasSizeOf instance.now table.now }
    requires limits { IsWithinLimits table.now }
    requires parts { length parts.now ≡ thermal_count instance.now }
    requires part { All (λ part. unsigned_abs part ≤ MAX_PART) parts.now }
    ensures { IfOk result (λ uplifts. AreThermalUplifts instance.now printed.now table.now parts.now uplifts.items) }
{
    let mut uplifts = vec![in alloc; 0_i128; parts.len()]?;
    for g in 0..parts.len() {
        uplifts[g] = unit_uplift(instance, printed, table, g, parts[g]);
    }
    Ok(uplifts)
}

// The uplift of unit g, which adds this part to the value of the root: its value and its constant.
fn unit_uplift(instance: &Instance, printed: &Printed, table: &Table, g: usize, part: i128) -> i128
    requires lawful { IsLawfulInstance instance.now }
    requires shape { HasShapeOf instance.now printed.now }
    requires sized { HasSizedNumbers printed.now }
    requires whole { printed.now.denominator ≡ 1 }
    requires prices { (g t : ℕ) → g < thermal_count instance.now → t < instance.now.periods → HasPrice (thermal_unit instance.now g) (cell_at printed.now g t) }
    requires size { HasSizeOf instance.now table.now }
    requires limits { IsWithinLimits table.now }
    requires unit { g < thermal_count instance.now }
    requires part { unsigned_abs part ≤ MAX_PART }
    ensures value { result ≡ thermal_uplift instance.now printed.now table.now g (part -ℤ constant_at instance.now table.now g) }
    ensures size { unsigned_abs result ≤ MAX_UPLIFT }
{
    let unit = &instance.thermal.as_slice()[g];
    let row = printed.thermal.as_slice()[g].as_slice();
    let value = difference(part, constant(table, unit, g as u32));
    difference(reduced_cost(unit, row, table, g as u32), value)
}

// What a unit costs by its row, and is charged for it.
fn reduced_cost(unit: &Thermal, row: &[Cell], table: &Table, g: u32) -> i128
    requires unit { IsLawfulThermal unit.now }
    requires few { length row.now ≤ 168 }
    requires periods { length row.now ≡ length table.now.pi }
    requires sized { IsSizedRow row.now }
    requires prices { (t : ℕ) → t < length row.now → HasPrice unit.now (cell_of row.now t) }
    requires scale { pos 0 ≤ℤ table.now.k }
    requires limits { IsWithinLimits table.now }
    ensures value { result ≡ reduced_cost_of unit.now table.now g row.now }
    ensures size { unsigned_abs result ≤ MAX_UNIT_COST + 168 * MAX_CHARGE }
{
    let cost = product(i128::from(table.k()), row_cost(unit, row));
    sum(cost, charges(unit, row, table, g))
}

// What the prices charge a unit for its row.
fn charges(unit: &Thermal, row: &[Cell], table: &Table, g: u32) -> i128
    requires unit { IsPower unit.now.pmin }
    requires few { length row.now ≤ 168 }
    requires periods { length row.now ≡ length table.now.pi }
    requires sized { IsSizedRow row.now }
    requires limits { IsWithinLimits table.now }
    ensures value { result ≡ sum_below (length row.now) (λ t. charge_of unit.now table.now g t (cell_of row.now t)) }
    ensures size { unsigned_abs result ≤ 168 * MAX_CHARGE }
{
    let mut total = 0;
    for t in 0..row.len() {
        total = sum(total, charge(unit, table, g, t as u32, &row[t]));
    }
    total
}

// What they charge it for a cell in period t.
fn charge(unit: &Thermal, table: &Table, g: u32, t: u32, cell: &Cell) -> i128
    requires unit { IsPower unit.now.pmin }
    requires period { t < length table.now.pi }
    requires sized { IsSizedCell cell.now }
    requires limits { IsWithinLimits table.now }
    ensures value { result ≡ charge_of unit.now table.now g t cell.now }
    ensures size { unsigned_abs result ≤ MAX_CHARGE }
{
    let paid = minimum_paid(table.pi()[t as usize], unit.pmin, cell.on);
    difference(charged(table, g, t, cell), paid)
}

// What they charge it for its output and its reserve there.
fn charged(table: &Table, g: u32, t: u32, cell: &Cell) -> i128
    requires period { t < length table.now.pi }
    requires sized { IsSizedCell cell.now }
    requires limits { IsWithinLimits table.now }
    ensures value { result ≡ output_price table.now g t *ℤ cell.now.p +ℤ reserve_price table.now g t *ℤ cell.now.r }
    ensures size { unsigned_abs result ≤ 2 * MAX_PRICED }
{
    let (output, reserve) = coefficients(table, g, t);
    sum(priced(output, cell.p), priced(reserve, cell.r))
}

// A price times a number of a schedule.
fn priced(price: i128, power: i64) -> i128
    requires price { unsigned_abs price ≤ MAX_UNIT_PRICE }
    requires power { IsSized power }
    ensures value { result ≡ price *ℤ power }
    ensures size { unsigned_abs result ≤ MAX_PRICED }
{
    product(price, i128::from(power))
}

// What is paid for the least output while on.
fn minimum_paid(price: i64, minimum: i64, on: bool) -> i128
    requires price { unsigned_abs price ≤ MAX_UNIT_PRICE }
    requires minimum { IsPower minimum }
    ensures value { result ≡ price *ℤ (minimum *ℤ bit on) }
    ensures size { unsigned_abs result ≤ MAX_PRICED }
{
    scaled(price, output_of(minimum, on))
}

// The least output while on, and else 0.
fn output_of(minimum: i64, on: bool) -> i64
    requires { IsPower minimum }
    ensures value { result ≡ minimum *ℤ bit on }
    ensures size { unsigned_abs result ≤ MAX_POWER }
{
    if on { minimum } else { 0 }
}
