//! The printed cost of a schedule.

ghost use Rattle.std.specs.Prelude.{◌≡◌, ℕ, ◌+◌, ◌*◌, ◌^◌, ◌<◌, ◌≤◌, ◌+ℤ◌, ◌*ℤ◌, ◌≤ℤ◌, pos, IfSome, if◌then◌else◌, length, unsigned_abs};
ghost use Rattle.uc_model.specs.Prelude.{quotient_up, hull_cost, IsLawfulInstance, IsLawfulThermal, HasShapeOf, cell_at, printed_cell_cost, printed_cost as printed_cost_of, printed_shortage_cost, thermal_count, thermal_unit, category_cost as category_cost_of, category_count, sum_below};
ghost use Rattle.cost_curves.specs.LowerHull.{IsLowerHull};
ghost use Rattle.schedule_check.specs.WholeWatts.{HasPrice, HasPriceBy, cell as cell_of, lacking_alone, over, width};
ghost use Rattle.schedule_check.specs.inside.Known.{IsKnownOn};

use cost_curves::InlineCurve;
use uc_model::limits::MAX_DENOMINATOR;
use uc_model::{Cell, Instance, Printed, Thermal, ceil_div, scaled, sum};

/// The most periods, and the most units of a kind.
const MOST_PERIODS: u64 = 168;

const MOST_UNITS: u64 = 4096;

/// More than a cell's cost: twice the greatest 64-bit number.
const MOST_CELL_COST: u128 = 18_446_744_073_709_551_616;

/// More than a shortage's cost: 2^32 times the greatest 64-bit number.
const MOST_MISSING_COST: u128 = 39_614_081_257_132_168_796_771_975_168;

/// What the schedule is printed to cost, in micro-dollars: each on cell's cost on the hull, rounded up, the costs
/// of the start categories, and those of what is missing.
pub(crate) fn printed_cost(instance: &Instance, printed: &Printed) -> i128
    requires lawful { IsLawfulInstance instance.now }
    requires shape { HasShapeOf instance.now printed.now }
    requires prices { (g t : ℕ) → g < thermal_count instance.now → t < instance.now.periods → HasPriceBy (over printed.now.denominator) (thermal_unit instance.now g) (cell_at printed.now g t) }
    ensures { result ≡ printed_cost_of instance.now printed.now }
{
    sum(
        units_cost(instance, printed),
        shortages_cost(
            printed.denominator,
            instance,
            printed.shed.as_slice(),
            printed.short.as_slice(),
        ),
    )
}

// What the thermal units cost.
fn units_cost(instance: &Instance, printed: &Printed) -> i128
    requires lawful { IsLawfulInstance instance.now }
    requires shape { HasShapeOf instance.now printed.now }
    requires prices { (g t : ℕ) → g < thermal_count instance.now → t < instance.now.periods → HasPriceBy (over printed.now.denominator) (thermal_unit instance.now g) (cell_at printed.now g t) }
    ensures value { result ≡ sum_below (thermal_count instance.now) (λ g. sum_below instance.now.periods (λ t. printed_cell_cost (thermal_unit instance.now g) printed.now.denominator (cell_at printed.now g t))) }
    ensures size { unsigned_abs result ≤ MOST_UNITS * (MOST_PERIODS * MOST_CELL_COST) }
{
    let mut total = 0;
    for g in 0..instance.thermal.as_slice().len() {
        total = sum(total, unit_cost(instance, printed, g));
    }
    total
}

// What unit g costs.
fn unit_cost(instance: &Instance, printed: &Printed, g: usize) -> i128
    requires lawful { IsLawfulInstance instance.now }
    requires shape { HasShapeOf instance.now printed.now }
    requires unit { g < thermal_count instance.now }
    requires prices { (t : ℕ) → t < instance.now.periods → HasPriceBy (over printed.now.denominator) (thermal_unit instance.now g) (cell_at printed.now g t) }
    ensures value { result ≡ sum_below instance.now.periods (λ t. printed_cell_cost (thermal_unit instance.now g) printed.now.denominator (cell_at printed.now g t)) }
    ensures size { unsigned_abs result ≤ MOST_PERIODS * MOST_CELL_COST }
{
    row_cost_over(
        printed.denominator,
        &instance.thermal.as_slice()[g],
        printed.thermal.as_slice()[g].as_slice(),
    )
}

/// What the cells of a unit's row in whole watts cost, in micro-dollars.
pub fn row_cost(unit: &Thermal, row: &[Cell]) -> i128
    requires unit { IsLawfulThermal unit.now }
    requires few { length row.now ≤ 168 }
    requires prices { (t : ℕ) → t < length row.now → HasPrice unit.now (cell_of row.now t) }
    ensures value { result ≡ sum_below (length row.now) (λ t. printed_cell_cost unit.now 1 (cell_of row.now t)) }
    ensures size { unsigned_abs result ≤ 168 * 2 ^ 64 }
{
    row_cost_over(1, unit, row)
}

// What the cells of a unit's row over a denominator cost.
fn row_cost_over(denominator: u8, unit: &Thermal, row: &[Cell]) -> i128
    requires denominator { (1 ≤ denominator) × (denominator ≤ MAX_DENOMINATOR) }
    requires unit { IsLawfulThermal unit.now }
    requires few { length row.now ≤ 168 }
    requires prices { (t : ℕ) → t < length row.now → HasPriceBy (over denominator) unit.now (cell_of row.now t) }
    ensures value { result ≡ sum_below (length row.now) (λ t. printed_cell_cost unit.now denominator (cell_of row.now t)) }
    ensures size { unsigned_abs result ≤ 168 * 2 ^ 64 }
{
    let curve = InlineCurve::of(unit.points.as_slice());
    let mut known = None;
    let mut total = 0;
    for t in 0..row.len() {
        total = sum(
            total,
            cell_cost(denominator, unit, &curve, &mut known, &row[t]),
        );
    }
    total
}

// What a cell costs.
fn cell_cost(
    denominator: u8,
    unit: &Thermal,
    curve: &InlineCurve,
    known: &mut Option<Known>,
    cell: &Cell,
) -> i128
    requires denominator { (1 ≤ denominator) × (denominator ≤ MAX_DENOMINATOR) }
    requires curve { IsLowerHull unit.now.points curve.now }
    requires known { IfSome known.old (IsKnownOn denominator unit.now) }
    requires price { HasPriceBy (over denominator) unit.now cell.now }
    ensures known { IfSome known.new (IsKnownOn denominator unit.now) }
    ensures value { result ≡ printed_cell_cost unit.now denominator cell.now }
    ensures size { unsigned_abs result ≤ MOST_CELL_COST }
{
    let production = production_cost(denominator, unit, curve, known, cell);
    sum(wide(production), wide(category_cost(unit, cell.category)))
}

// What its output costs.
fn production_cost(
    denominator: u8,
    unit: &Thermal,
    curve: &InlineCurve,
    known: &mut Option<Known>,
    cell: &Cell,
) -> i64
    requires denominator { (1 ≤ denominator) × (denominator ≤ MAX_DENOMINATOR) }
    requires curve { IsLowerHull unit.now.points curve.now }
    requires known { IfSome known.old (IsKnownOn denominator unit.now) }
    requires price { HasPriceBy (over denominator) unit.now cell.now }
    ensures known { IfSome known.new (IsKnownOn denominator unit.now) }
    ensures cost { result ≡ (if cell.now.on then hull_cost unit.now.points denominator cell.now.p else pos 0) }
{
    if cell.on {
        output_cost(denominator, unit, curve, known, cell.p)
    } else {
        0
    }
}

// An output above the minimum, by its numerator, and what it costs.
#[derive(Clone, Copy)]
struct Known {
    output: i64,
    cost: i64,
}

// What an output costs; that of the last one is known.
fn output_cost(
    denominator: u8,
    unit: &Thermal,
    curve: &InlineCurve,
    known: &mut Option<Known>,
    output: i64,
) -> i64
    requires denominator { (1 ≤ denominator) × (denominator ≤ MAX_DENOMINATOR) }
    requires curve { IsLowerHull unit.now.points curve.now }
    requires known { IfSome known.old (IsKnownOn denominator unit.now) }
    requires low { pos 0 ≤ℤ output }
    requires high { output ≤ℤ over denominator (width unit.now.points) }
    ensures known { IfSome known.new (IsKnownOn denominator unit.now) }
    ensures cost { result ≡ hull_cost unit.now.points denominator output }
{
    match *known {
        Some(last) if last.output == output => last.cost,
        _ => {
            let cost = curve.ceil_at(output, i64::from(denominator));
            *known = Some(Known { output, cost });
            cost
        }
    }
}

/// What costs, in micro-dollars, what is missing of demand and reserve in each period, in numerators over the denominator.
pub fn shortages_cost(denominator: u8, instance: &Instance, shed: &[i64], short: &[i64]) -> i128
    requires lawful { IsLawfulInstance instance.now }
    requires denominator { 1 ≤ denominator }
    requires shed { length shed.now ≡ instance.now.periods }
    requires short { length short.now ≡ instance.now.periods }
    ensures value { result ≡ sum_below instance.now.periods (printed_shortage_cost instance.now (lacking_alone denominator shed.now short.now)) }
    ensures size { unsigned_abs result ≤ 168 * 2 ^ 96 }
{
    let mut total = 0;
    for t in 0..instance.periods as usize {
        total = sum(
            total,
            shortage_cost(denominator, instance, shed[t], short[t]),
        );
    }
    total
}

// What it costs in a period.
fn shortage_cost(denominator: u8, instance: &Instance, shed: i64, short: i64) -> i128
    requires { 1 ≤ denominator }
    ensures value { result ≡ quotient_up (pos instance.now.a *ℤ shed) (pos denominator) +ℤ quotient_up (pos instance.now.b *ℤ short) (pos denominator) }
    ensures size { unsigned_abs result ≤ 2 * MOST_MISSING_COST }
{
    sum(
        missing_cost(denominator, instance.a, shed),
        missing_cost(denominator, instance.b, short),
    )
}

// What is missing over the denominator costs at the price of a watt, rounded up.
fn missing_cost(denominator: u8, price: u32, missing: i64) -> i128
    requires { 1 ≤ denominator }
    ensures value { result ≡ quotient_up (pos price *ℤ missing) (pos denominator) }
    ensures size { unsigned_abs result ≤ MOST_MISSING_COST }
{
    ceil_div(cost_over(price, missing), i128::from(denominator))
}

// The same by its numerator.
fn cost_over(price: u32, missing: i64) -> i128
    ensures value { result ≡ pos price *ℤ missing }
    ensures size { unsigned_abs result ≤ MOST_MISSING_COST }
{
    scaled(i64::from(price), missing)
}

// A cost in 128 bits.
fn wide(cost: i64) -> i128
    ensures value { result ≡ cost }
    ensures size { unsigned_abs result ≤ 2 ^ 63 }
{
    i128::from(cost)
}

// What a start of the category costs; 0 is no start.
fn category_cost(unit: &Thermal, category: u8) -> i64
    requires { category ≤ category_count unit.now }
    ensures { result ≡ category_cost_of unit.now category }
{
    if category == 0 {
        0
    } else {
        unit.startup.as_slice()[category as usize - 1].cost
    }
}
