//! The prices of a dispatch: in each period what the last watt costs of the steepest unit that runs.

ghost use Rattle.std.specs.Prelude.{◌≡◌, ◌<◌, pos, ◌<ℤ◌, ◌≤ℤ◌, IfOk, MatchOption, length, slice_index_or, [], IsTrue};
ghost use Rattle.uc_model.specs.Prelude.{IsLawfulInstance, HasShapeOf, cell_at, printed_denominator, printed_schedule, Obeys, thermal_count};
ghost use Rattle.cost_curves.specs.LowerHull.{width_of};
ghost use Rattle.dual_model.specs.Prelude.{IsLawfulTable, IsPrice};
ghost use Rattle.cost_curves.specs.UnitCurves.{AreCurvesOf};
ghost use Rattle.opening_tables.specs.Marginal.{IsMarginalPrice, IsMarginalTable, IsPriceAt, IsRunning};
ghost use Rattle.opening_tables.specs.inside.Slopes.{AreOutputsWithin, ArePriced, IsCellSlope, IsGreatestOf, steeper_of, steeper_slope as steeper_slope_of};

use crate::limited::kept;
use crate::no_prices::{SCALE, zeros};
use cost_curves::{Curve, Slope, curves_of};
use dual_model::Table;
use std::alloc::Global;
use uc_model::{Cell, Instance, NoMemory, Printed, floor_div, scaled};

/// The table of a dispatch in whole watts that obeys: the price of demand is in each period the greatest slope, on the left of its output, of
/// a unit that is on above its minimum, in whole numbers of the scale of a million, rounded down and kept within the limit, and
/// 0 where there is no such unit. All other prices are 0. The only error is `NoMemory`.
pub fn marginal(alloc: Global, instance: &Instance, printed: &Printed) -> Result<Table, NoMemory>
    requires lawful { IsLawfulInstance instance.now }
    requires shape { HasShapeOf instance.now printed.now }
    requires whole { printed.now.denominator ≡ 1 }
    requires obeys { let q = printed_denominator instance.now printed.now in Obeys instance.now q (printed_schedule instance.now printed.now q) }
    ensures table { IfOk result (IsMarginalTable instance.now printed.now) }
    ensures lawful { IfOk result (IsLawfulTable instance.now) }
{
    let curves = curves_of(alloc, instance)?;
    marginal_in(alloc, &curves, instance, printed)
}

/// The same, with the curves of the instance's units.
pub fn marginal_in(
    alloc: Global,
    curves: &[Curve],
    instance: &Instance,
    printed: &Printed,
) -> Result<Table, NoMemory>
    requires lawful { IsLawfulInstance instance.now }
    requires curves { AreCurvesOf instance.now curves.now }
    requires shape { HasShapeOf instance.now printed.now }
    requires whole { printed.now.denominator ≡ 1 }
    requires obeys { let q = printed_denominator instance.now printed.now in Obeys instance.now q (printed_schedule instance.now printed.now q) }
    ensures table { IfOk result (IsMarginalTable instance.now printed.now) }
    ensures lawful { IfOk result (IsLawfulTable instance.now) }
{
    let prices = period_prices(alloc, curves, instance, printed)?;
    let zeros = zeros(alloc, instance.periods as usize)?;
    let units = instance.thermal.as_slice().len() as u32;
    Table::new(alloc, units, SCALE, &prices, &zeros, &[])
}

// The price of each period.
fn period_prices(
    alloc: Global,
    curves: &[Curve],
    instance: &Instance,
    printed: &Printed,
) -> Result<Vec<i64>, NoMemory>
    requires lawful { IsLawfulInstance instance.now }
    requires curves { AreCurvesOf instance.now curves.now }
    requires shape { HasShapeOf instance.now printed.now }
    requires outputs { AreOutputsWithin instance.now printed.now }
    ensures count { IfOk result (λ prices. length prices.items ≡ instance.now.periods) }
    ensures prices { IfOk result (λ prices. ArePriced instance.now printed.now instance.now.periods prices.items) }
{
    let mut prices = zeros(alloc, instance.periods as usize)?;
    for t in 0..instance.periods as usize {
        prices[t] = period_price(curves, instance, printed, t);
    }
    Ok(prices)
}

// The price of period t.
fn period_price(curves: &[Curve], instance: &Instance, printed: &Printed, t: usize) -> i64
    requires lawful { IsLawfulInstance instance.now }
    requires curves { AreCurvesOf instance.now curves.now }
    requires shape { HasShapeOf instance.now printed.now }
    requires outputs { AreOutputsWithin instance.now printed.now }
    requires period { t < instance.now.periods }
    ensures price { IsMarginalPrice instance.now printed.now t result }
    ensures size { IsPrice result }
{
    match greatest_slope(curves, instance, printed, t) {
        None => 0,
        Some(slope) => price_at(&slope),
    }
}

// The greatest slope of the units that run in period t, if any does.
fn greatest_slope(
    curves: &[Curve],
    instance: &Instance,
    printed: &Printed,
    t: usize,
) -> Option<Slope>
    requires lawful { IsLawfulInstance instance.now }
    requires curves { AreCurvesOf instance.now curves.now }
    requires shape { HasShapeOf instance.now printed.now }
    requires outputs { AreOutputsWithin instance.now printed.now }
    requires period { t < instance.now.periods }
    ensures { IsGreatestOf instance.now printed.now t (thermal_count instance.now) result }
{
    let mut greatest = None;
    for g in 0..instance.thermal.as_slice().len() {
        let own = cell_slope(&curves[g], &cell(printed, g, t));
        greatest = steeper(&greatest, &own);
    }
    greatest
}

// The slope of a cell that runs.
fn cell_slope(curve: &Curve, cell: &Cell) -> Option<Slope>
    requires { IsTrue cell.now.on → cell.now.p ≤ℤ width_of curve.now }
    ensures { MatchOption result (¬ IsRunning cell.now) (IsCellSlope curve.now cell.now) }
{
    if cell.on && cell.p > 0 {
        Some(curve.left_slope(cell.p))
    } else {
        None
    }
}

// The greater of two slopes, of which either may be missing.
fn steeper(first: &Option<Slope>, second: &Option<Slope>) -> Option<Slope>
    ensures { result ≡ steeper_of first.now second.now }
{
    match (first, second) {
        (None, second) => *second,
        (first, None) => *first,
        (Some(first), Some(second)) => Some(steeper_slope(first, second)),
    }
}

// The greater of two slopes, the first where they are equal.
fn steeper_slope(first: &Slope, second: &Slope) -> Slope
    ensures { result ≡ steeper_slope_of first.now second.now }
{
    if scaled(first.rise, second.run) < scaled(second.rise, first.run) {
        *second
    } else {
        *first
    }
}

// The price at a slope.
fn price_at(slope: &Slope) -> i64
    requires { pos 0 <ℤ slope.now.run }
    ensures price { IsPriceAt slope.now result }
    ensures size { IsPrice result }
{
    let price = floor_div(scaled(SCALE, slope.rise), i128::from(slope.run));
    kept(price)
}

// The cell of thermal unit g in period t.
fn cell(printed: &Printed, g: usize, t: usize) -> Cell
    requires unit { g < length printed.now.thermal }
    requires period { t < length (slice_index_or printed.now.thermal g []) }
    ensures { result ≡ cell_at printed.now g t }
{
    printed.thermal.as_slice()[g].as_slice()[t]
}
