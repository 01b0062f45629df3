//! The instance of a window.

ghost use Rattle.std.specs.Prelude.{◌≡◌, ◌+◌, ◌-◌, ◌≤◌, IfOk, drop, length, take};
ghost use Rattle.uc_model.specs.Prelude.{IsLawfulInstance};
ghost use Rattle.roll.specs.Left.{HasStates};
ghost use Rattle.roll.specs.NextWindow.{IsWindow, continued, limits_within};
ghost use Rattle.roll.specs.inside.Units.{AreContinued, AreWithin, HaveLimits};

use crate::state::{Carried, CarriedUnit};
use std::alloc::Global;
use uc_model::{Instance, List, Name, NoMemory, Renewable, Thermal};

/// The instance of the `len` periods from `a` on, which counts from 1: their demand, reserves and renewable limits, and each
/// thermal unit with the state that is carried to it. All else is as in the instance. The only error is `NoMemory`.
pub fn window(
    alloc: Global,
    instance: &Instance,
    carried: &Carried,
    a: u32,
    len: u32,
) -> Result<Instance, NoMemory>
    requires lawful { IsLawfulInstance instance.now }
    requires first { 1 ≤ a }
    requires some { 1 ≤ len }
    requires last { a - 1 + len ≤ instance.now.periods }
    requires states { HasStates instance.now carried.now }
    ensures window { IfOk result (IsWindow instance.now carried.now (a - 1) len) }
    ensures lawful { IfOk result IsLawfulInstance }
{
    let start = a as usize - 1;
    let periods = len as usize;
    let demand = part(alloc, instance.demand.as_slice(), start, periods)?;
    let reserves = part(alloc, instance.reserves.as_slice(), start, periods)?;
    let thermal = continued_units(alloc, instance.thermal.as_slice(), carried.units.as_slice())?;
    let renewable = renewables_within(alloc, instance.renewable.as_slice(), start, periods)?;
    Ok(Instance {
        periods: len,
        demand,
        reserves,
        thermal: List::from_vec(thermal),
        renewable: List::from_vec(renewable),
        a: instance.a,
        b: instance.b,
    })
}

// The numbers of `len` periods from `start` on, from 0.
fn part(alloc: Global, numbers: &[i64], start: usize, len: usize) -> Result<List<i64>, NoMemory>
    requires { start + len ≤ length numbers.now }
    ensures { IfOk result (λ part. part ≡ take len (drop start numbers.now)) }
{
    let (_, rest) = numbers.split_at(start);
    let (part, _) = rest.split_at(len);
    Ok(List::from_vec(part.to_vec(alloc)?))
}

// The thermal units with these states.
fn continued_units(
    alloc: Global,
    units: &[Thermal],
    states: &[CarriedUnit],
) -> Result<Vec<Thermal>, NoMemory>
    requires { length states.now ≡ length units.now }
    ensures { IfOk result (λ continued. AreContinued units.now states.now (length units.now) continued.items) }
{
    let mut continued = Vec::new(alloc);
    for g in 0..units.len() {
        continued.push(continued_unit(alloc, &units[g], &states[g])?)?;
    }
    Ok(continued)
}

// The unit with this initial state.
fn continued_unit(alloc: Global, unit: &Thermal, state: &CarriedUnit) -> Result<Thermal, NoMemory>
    ensures { IfOk result (λ own. own ≡ continued unit.now state.now) }
{
    let name = String::from_str(alloc, unit.name.as_str())?;
    let startup = unit.startup.as_slice().to_vec(alloc)?;
    let points = unit.points.as_slice().to_vec(alloc)?;
    Ok(Thermal {
        name: Name::from_string(name),
        must_run: unit.must_run,
        pmin: unit.pmin,
        pmax: unit.pmax,
        ru: unit.ru,
        rd: unit.rd,
        su: unit.su,
        sd: unit.sd,
        ut: unit.ut,
        dt: unit.dt,
        p0: state.output,
        on0: state.on,
        ut0: state.time_on,
        dt0: state.time_off,
        startup: List::from_vec(startup),
        points: List::from_vec(points),
    })
}

// The renewable units with their limits in `len` periods from `start` on, from 0.
fn renewables_within(
    alloc: Global,
    units: &[Renewable],
    start: usize,
    len: usize,
) -> Result<Vec<Renewable>, NoMemory>
    requires { HaveLimits (start + len) units.now }
    ensures { IfOk result (λ within. AreWithin units.now start len (length units.now) within.items) }
{
    let mut within = Vec::new(alloc);
    for w in 0..units.len() {
        within.push(renewable_within(alloc, &units[w], start, len)?)?;
    }
    Ok(within)
}

// The renewable unit with its limits in these periods.
fn renewable_within(
    alloc: Global,
    unit: &Renewable,
    start: usize,
    len: usize,
) -> Result<Renewable, NoMemory>
    requires minimum { start + len ≤ length unit.now.minimum }
    requires maximum { start + len ≤ length unit.now.maximum }
    ensures { IfOk result (λ own. own ≡ limits_within start len unit.now) }
{
    let name = String::from_str(alloc, unit.name.as_str())?;
    let minimum = part(alloc, unit.minimum.as_slice(), start, len)?;
    let maximum = part(alloc, unit.maximum.as_slice(), start, len)?;
    Ok(Renewable {
        name: Name::from_string(name),
        minimum,
        maximum,
    })
}
