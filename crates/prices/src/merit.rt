//! Rates of cost, and the prices in order of merit.

use bundle::at;
use opening_tables::{SCALE, kept};
use quick_value::Caps;
use std::alloc::Global;
use uc_model::{Instance, NoMemory, Thermal, scaled};

/// A unit's greatest output in watts, and what a watt costs there, in numbers of the scale.
#[derive(Clone, Copy)]
struct FullLoad {
    rate: i64,
    output: i64,
}

/// The prices of demand and then of reserve in each period: the rate at full load of the unit with which the greatest outputs, cheapest
/// first, reach demand and reserve less the most of the renewable units, and of reserve these ones. Where all outputs don't reach them and
/// something may be missing, what the last watt of reserve and of demand is worth then.
pub(crate) fn merit_prices(
    alloc: Global,
    instance: &Instance,
    of_reserve: &[i64],
    caps: Caps,
) -> Result<Vec<i64>, NoMemory> {
    let loads = full_loads(alloc, instance)?;
    let mut prices = Vec::new(alloc);
    let mut others = Vec::new(alloc);
    let (demand, reserves) = (instance.demand.as_slice(), instance.reserves.as_slice());
    for t in 0..demand.len().min(reserves.len()) {
        let mut needed = demand[t].saturating_add(reserves[t]);
        for unit in instance.renewable.as_slice() {
            needed = needed.saturating_sub(at(unit.maximum.as_slice(), t));
        }
        let (rate, lacking) = merit_price(&loads, needed);
        let own = prices_within(caps, rate, lacking, reserves[t]);
        prices.push(own.0)?;
        others.push(own.1.max(at(of_reserve, t)))?;
    }
    prices.extend_from_slice(&others)?;
    Ok(prices)
}

// The rate of the unit that reaches what is needed, or of the last one, and what is lacking then.
fn merit_price(loads: &[FullLoad], needed: i64) -> (i64, i64) {
    let mut left = needed;
    let mut rate = 0;
    for load in loads {
        if left <= 0 {
            return (rate, 0);
        }
        rate = load.rate;
        left = left.saturating_sub(load.output);
    }
    (rate, left)
}

// The prices of demand and of reserve where the last unit has this rate, and so much of both is lacking.
fn prices_within(caps: Caps, rate: i64, lacking: i64, reserve: i64) -> (i64, i64) {
    let most = caps.demand;
    if lacking <= 0 || !caps.are_any() {
        return (rate.min(most), 0);
    }
    let of_reserve = caps.reserve.min(most.saturating_sub(rate)).max(0);
    if lacking > reserve.max(0) && most < i64::MAX {
        (most, of_reserve)
    } else {
        (rate.saturating_add(of_reserve).min(most), of_reserve)
    }
}

// The units at full load, cheapest first.
fn full_loads(alloc: Global, instance: &Instance) -> Result<Vec<FullLoad>, NoMemory> {
    let mut loads = Vec::new(alloc);
    for unit in instance.thermal.as_slice() {
        loads.push(full_load(unit))?;
    }
    loads.sort_by_key(|load| load.rate)?;
    Ok(loads)
}

fn full_load(unit: &Thermal) -> FullLoad {
    let cost = match unit.points.as_slice().last() {
        Some(point) => point.cost,
        None => 0,
    };
    let rate = scaled(SCALE, cost) / i128::from(unit.pmax.max(1));
    FullLoad {
        rate: kept(rate),
        output: unit.pmax,
    }
}
