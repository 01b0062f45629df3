//! The system of a seed.

ghost use Rattle.std.specs.Prelude.{◌≡◌, ◌∷◌, [], ◌≤◌, ◌*◌, ◌/◌, All, IfOk, map, replicate};
ghost use Rattle.uc_model.specs.Prelude.{IsLawfulInstance};
ghost use Rattle.demo_gen.specs.Demo.{MayAllRun, demand_at, demo_instance, renewable_of};

use crate::millions::{HOURS, in_each_hour, millions_of};
use crate::units::units_of;
use std::alloc::Global;
use uc_model::{Instance, List, Name, NoMemory, Renewable};

/// What is in demand above the minimums in each hour, in percent of the ranges.
const PERCENTS: [u32; 24] = [
    30, 30, 32, 35, 40, 45, 50, 55, 60, 64, 68, 70, 72, 72, 70, 68, 70, 74, 76, 72, 66, 58, 50, 42,
];

/// The reserve, in percent of the ranges.
const RESERVE_PERCENT: u32 = 3;

/// The most that the renewable unit gives, in megawatts.
const RENEWABLE_MAXIMUM: u32 = 30;

/// The instance of a seed, of forty thermal units and a renewable one over 24 hours, as this project's demo generator draws it: power
/// in watts, money in micro-dollars. The only error is `NoMemory`.
pub fn instance(alloc: Global, seed: u32) -> Result<Instance, NoMemory>
    ensures generated { IfOk result (λ instance. instance ≡ demo_instance seed) }
    ensures lawful { IfOk result IsLawfulInstance }
    ensures running { IfOk result MayAllRun }
{
    let units = units_of(alloc, seed)?;
    let demand = demand(alloc, &PERCENTS, units.minimum, units.range)?;
    let reserves = in_each_hour(alloc, RESERVE_PERCENT * units.range / 100)?;
    let renewable = renewable(alloc)?;
    let renewables = vec![in alloc; renewable]?;
    Ok(Instance {
        periods: HOURS,
        demand: List::from_vec(demand),
        reserves: List::from_vec(reserves),
        thermal: List::from_vec(units.thermal),
        renewable: List::from_vec(renewables),
        a: 0,
        b: 0,
    })
}

// The demand at each percentage, in watts, by the sums of the minimums and of the ranges in megawatts.
fn demand(alloc: Global, percents: &[u32], minimum: u32, range: u32) -> Result<Vec<i64>, NoMemory>
    requires percents { All (λ percent. percent ≤ 100) percents.now }
    requires minimum { minimum ≤ 10000 }
    requires range { range ≤ 10000 }
    ensures { IfOk result (λ demand. demand.items ≡ map (demand_at minimum range) percents.now) }
{
    let mut demand = Vec::new(alloc);
    for percent in percents {
        demand.push(millions_of(minimum + part(range, *percent)))?;
    }
    Ok(demand)
}

// So many percent of the ranges, rounded down.
fn part(range: u32, percent: u32) -> u32
    requires range { range ≤ 10000 }
    requires percent { percent ≤ 100 }
    ensures value { result ≡ range * percent / 100 }
    ensures size { result ≤ 10000 }
{
    range * percent / 100
}

// The renewable unit.
fn renewable(alloc: Global) -> Result<Renewable, NoMemory>
    ensures { IfOk result (λ unit. unit ≡ renewable_of) }
{
    let name = String::from_str(alloc, "w1")?;
    let minimum = in_each_hour(alloc, 0)?;
    let maximum = in_each_hour(alloc, RENEWABLE_MAXIMUM)?;
    Ok(Renewable {
        name: Name::from_string(name),
        minimum: List::from_vec(minimum),
        maximum: List::from_vec(maximum),
    })
}
