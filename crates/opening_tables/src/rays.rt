//! The rays with which a search begins.

ghost use Rattle.std.specs.Prelude.{◌≡◌, ◌++◌, ◌*◌, ◌<◌, ◌≤◌, ◌+ℤ◌, IfOk, slice_index_or};
ghost use Rattle.uc_model.specs.Prelude.{bit, initial_p, IsLawfulInstance, IsLawfulThermal, thermal_count};
ghost use Rattle.dual_model.specs.Prelude.{HasRayNumbers, falls_short as falls_short_at, first_row, first_rows, no_ray, period_rays, price_in, ramp_rays, ray_at, ray_count, ray_period, ray_table, rises_short as rises_short_at, stays_below as stays_below_at, IsLawfulTable};
ghost use Rattle.opening_tables.specs.inside.Rays.{down_of, named_by, up_of};

use crate::no_prices::zeros;
use dual_model::{RampRow, Table};
use std::alloc::Global;
use uc_model::limits::{MAX_PERIODS, MAX_POWER};
use uc_model::{Instance, NoMemory, Thermal};

/// The units that have a multiplier of 1 on a ramp rule in the first period.
#[derive(Clone, Copy)]
enum Ramps {
    /// None.
    Free,
    /// On ramping up, those that can't reach their greatest output.
    RiseShort,
    /// On ramping down, those that can't reach their minimum from above.
    FallShort,
    /// On ramping up, those that can't reach their minimum from below.
    StayBelow,
}

/// What a ray names: the price of demand and that of reserve in period `t`, and the units whose ramps it prices.
#[derive(Clone, Copy)]
struct Ray {
    t: usize,
    demand: i64,
    reserve: i64,
    ramps: Ramps,
}

/// The opening's ray `n`, from 0, of as many as four for each period and four more, with the scale 0. Where its value at
/// a node is above 0, no schedule agrees with the node. The only error is `NoMemory`.
pub fn opening_ray(alloc: Global, instance: &Instance, n: u32) -> Result<Table, NoMemory>
    requires lawful { IsLawfulInstance instance.now }
    requires number { n < ray_count instance.now.periods }
    ensures table { IfOk result (λ table. table ≡ ray_table instance.now n) }
    ensures numbers { IfOk result (HasRayNumbers instance.now n) }
    ensures lawful { IfOk result (IsLawfulTable instance.now) }
{
    let ray = ray_of(instance.periods, n);
    let periods = instance.periods as usize;
    let pi = prices(alloc, periods, ray.t, &ray.demand)?;
    let mu = prices(alloc, periods, ray.t, &ray.reserve)?;
    let ramps = ramp_rows(alloc, instance, &ray.ramps)?;
    let units = instance.thermal.as_slice().len() as u32;
    Table::new(alloc, units, 0, &pi, &mu, &ramps)
}

// Ray n.
fn ray_of(periods: u32, n: u32) -> Ray
    requires periods { (1 ≤ periods) × (periods ≤ MAX_PERIODS) }
    requires number { n < ray_count periods }
    ensures ray { named_by result ≡ ray_at periods n }
    ensures period { result.t ≡ ray_period periods n }
    ensures within { result.t < periods }
{
    let priced = 4 * periods;
    if n < priced {
        period_ray((n / 4) as usize, n % 4)
    } else {
        ramp_ray(n - priced)
    }
}

// Which of the four rays of a period.
fn period_ray(t: usize, kind: u32) -> Ray
    requires { kind < 4 }
    ensures ray { named_by result ≡ slice_index_or period_rays kind no_ray }
    ensures period { result.t ≡ t }
{
    let (demand, reserve) = match kind {
        0 => (1, 0),
        1 => (-1, 0),
        2 => (1, 1),
        _ => (0, 1),
    };
    Ray {
        t,
        demand,
        reserve,
        ramps: Ramps::Free,
    }
}

// Which of the four rays of the ramps.
fn ramp_ray(kind: u32) -> Ray
    requires { kind < 4 }
    ensures ray { named_by result ≡ slice_index_or ramp_rays kind no_ray }
    ensures period { result.t ≡ 0 }
{
    let (demand, reserve, ramps) = match kind {
        0 => (1, 0, Ramps::RiseShort),
        1 => (1, 1, Ramps::RiseShort),
        2 => (-1, 0, Ramps::FallShort),
        _ => (0, 0, Ramps::StayBelow),
    };
    Ray {
        t: 0,
        demand,
        reserve,
        ramps,
    }
}

// A price in period t, and 0 in the others.
fn prices(alloc: Global, periods: usize, t: usize, price: &i64) -> Result<Vec<i64>, NoMemory>
    requires { t < periods }
    ensures { IfOk result (λ prices. prices.items ≡ price_in periods t price.now) }
{
    let mut prices = zeros(alloc, periods)?;
    prices[t] = *price;
    Ok(prices)
}

// The rows of the units that have a multiplier.
fn ramp_rows(alloc: Global, instance: &Instance, ramps: &Ramps) -> Result<Vec<RampRow>, NoMemory>
    requires { IsLawfulInstance instance.now }
    ensures { IfOk result (λ rows. rows.items ≡ first_rows instance.now (up_of ramps.now) (down_of ramps.now) (thermal_count instance.now)) }
{
    let units = instance.thermal.as_slice();
    let mut rows = Vec::new(alloc);
    for g in 0..units.len() {
        push_row(&mut rows, g as u32, &units[g], ramps)?;
    }
    Ok(rows)
}

// Adds the row of unit g, if it has a multiplier.
fn push_row(rows: &mut Vec<RampRow>, g: u32, unit: &Thermal, ramps: &Ramps) -> Result<(), NoMemory>
    requires { IsLawfulThermal unit.now }
    ensures { IfOk result (λ _. rows.new.items ≡ rows.old.items ++ first_row g (up_of ramps.now unit.now) (down_of ramps.now unit.now)) }
{
    let up = is_up(ramps, unit);
    let down = is_down(ramps, unit);
    if up || down {
        rows.push(row(g, up, down))?;
    }
    Ok(())
}

// The row of unit g in the first period.
fn row(g: u32, up: bool, down: bool) -> RampRow
    ensures { result ≡ record { g = g; t = 0; up = bit up; down = bit down } }
{
    RampRow {
        g,
        t: 0,
        up: i64::from(up),
        down: i64::from(down),
    }
}

// Whether a unit has a multiplier on ramping up.
fn is_up(ramps: &Ramps, unit: &Thermal) -> bool
    requires { IsLawfulThermal unit.now }
    ensures { result ≡ up_of ramps.now unit.now }
{
    match ramps {
        Ramps::RiseShort => rises_short(unit),
        Ramps::StayBelow => stays_below(unit),
        Ramps::Free | Ramps::FallShort => false,
    }
}

// Whether a unit has a multiplier on ramping down.
fn is_down(ramps: &Ramps, unit: &Thermal) -> bool
    requires { IsLawfulThermal unit.now }
    ensures { result ≡ down_of ramps.now unit.now }
{
    match ramps {
        Ramps::FallShort => falls_short(unit),
        Ramps::Free | Ramps::RiseShort | Ramps::StayBelow => false,
    }
}

// Whether a unit that is on initially can't rise to its greatest output.
fn rises_short(unit: &Thermal) -> bool
    requires { IsLawfulThermal unit.now }
    ensures { result ≡ rises_short_at unit.now }
{
    unit.on0 && first_reach(unit) < unit.range()
}

// Whether one that is on initially can't fall to its minimum.
fn falls_short(unit: &Thermal) -> bool
    requires { IsLawfulThermal unit.now }
    ensures { result ≡ falls_short_at unit.now }
{
    unit.on0 && unit.rd < unit.initial_output()
}

// Whether one that is on initially can't rise to its minimum.
fn stays_below(unit: &Thermal) -> bool
    requires { IsLawfulThermal unit.now }
    ensures { result ≡ stays_below_at unit.now }
{
    unit.on0 && first_reach(unit) < 0
}

// The greatest output above the minimum that the ramp allows in the first period.
fn first_reach(unit: &Thermal) -> i64
    requires { IsLawfulThermal unit.now }
    ensures { result ≡ unit.now.ru +ℤ initial_p unit.now }
{
    unit.ru + unit.initial_output()
}
