//! The right sides of the limits.
ghost use Rattle.std.specs.Prelude.{◌≡◌, ℕ, suc, ◌<◌, ◌≤◌, ◌*◌, IfOk, map, pos, unsigned_abs, ◌+ℤ◌, ◌-ℤ◌};
ghost use Rattle.std.specs.Int.{int_max};
ghost use Rattle.uc_model.specs.Prelude.{initial_p, start_cap as start_cap_of, stop_cap as stop_cap_of, stops, IsLawfulInstance, IsLawfulThermal, IsPower, demand_at, renewable_count, renewable_maximum, renewable_minimum, reserve_at, thermal_count, thermal_unit};
ghost use Rattle.dispatch_rules.specs.Prelude.{commitment_at, limit_of, given_output as output_given, initial_at as initial_in, limits as limits_in, right_of};
ghost use Rattle.dispatch_table.specs.Tasks.{IsGiven, IsLimitIn, task_of};

use crate::given::Given;
use crate::outputs::{given_output, greatest_output, least_output};
use dispatch_rules::{LimitAt, LimitRule};
use std::alloc::Global;
use uc_model::limits::MAX_POWER;
use uc_model::{Instance, NoMemory, Thermal};

/// The right side of each limit.
pub(crate) fn rights(alloc: Global, given: &Given, limits: &[LimitAt]) -> Result<Vec<i64>, NoMemory>
    requires given { IsGiven given.now }
    requires limits { map limit_of limits.now ≡ limits_in (task_of given.now) }
    ensures { IfOk result (λ rights. rights.items ≡ map (right_of (task_of given.now)) (limits_in (task_of given.now))) }
{
    let mut rights = Vec::with_capacity(alloc, limits.len())?;
    for limit in limits {
        rights.push(right(given, limit))?;
    }
    Ok(rights)
}

// The right side of a limit, in watts.
fn right(given: &Given, limit: &LimitAt) -> i64
    requires given { IsGiven given.now }
    requires limit { IsLimitIn (task_of given.now) (limit_of limit.now) }
    ensures { result ≡ right_of (task_of given.now) (limit_of limit.now) }
{
    let g = limit.unit as usize;
    let t = limit.period;
    match limit.rule {
        LimitRule::Production => given.width(g, limit.segment as usize),
        LimitRule::StartCap => start_cap(given, g, t),
        LimitRule::StopCap => stop_cap(given, g, t),
        LimitRule::RampUp => ramp_up(given, g, t),
        LimitRule::RampDown => ramp_down(given, g, t),
        LimitRule::RenewableRange => room_above(given.instance, g, t as usize),
        LimitRule::Demand => demand_left(given, t),
        LimitRule::Reserve => -reserve(given.instance, t as usize),
        LimitRule::ShedRange => demand(given.instance, t as usize).max(0),
        LimitRule::ShortRange => reserve(given.instance, t as usize).max(0),
    }
}

// The right side of M9.
fn start_cap(given: &Given, g: usize, t: u32) -> i64
    requires given { IsGiven given.now }
    requires unit { g < thermal_count given.now.instance.now }
    requires period { t < given.now.instance.now.periods }
    ensures { result ≡ start_cap_of (thermal_unit given.now.instance.now g) (commitment_at given.now.patterns.now g) t }
{
    let on = given.is_on(g, t);
    let starts = !given.was_on(g, t) && on;
    given.unit(g).start_cap(on, starts)
}

// The right side of M10.
fn stop_cap(given: &Given, g: usize, t: u32) -> i64
    requires given { IsGiven given.now }
    requires unit { g < thermal_count given.now.instance.now }
    requires period { suc t < given.now.instance.now.periods }
    ensures { result ≡ stop_cap_of (thermal_unit given.now.instance.now g) (commitment_at given.now.patterns.now g) t }
{
    let on = given.is_on(g, t);
    let stops = stops_behind(given, g, t);
    given.unit(g).stop_cap(on, stops)
}

// Whether a unit that is on in a period is off in the next one.
fn stops_behind(given: &Given, g: usize, t: u32) -> bool
    requires given { IsGiven given.now }
    requires unit { g < thermal_count given.now.instance.now }
    requires period { suc t < given.now.instance.now.periods }
    ensures { result ≡ stops (thermal_unit given.now.instance.now g) (commitment_at given.now.patterns.now g) (suc t) }
{
    given.is_on(g, t) && !given.is_on(g, t + 1)
}

// The right side of M11.
fn ramp_up(given: &Given, g: usize, t: u32) -> i64
    requires given { IsGiven given.now }
    requires unit { g < thermal_count given.now.instance.now }
    ensures { result ≡ (thermal_unit given.now.instance.now g).ru +ℤ initial_in (task_of given.now) g t }
{
    sum(&given.unit(g).ru, &initial(given, g, t))
}

// The right side of M12.
fn ramp_down(given: &Given, g: usize, t: u32) -> i64
    requires given { IsGiven given.now }
    requires unit { g < thermal_count given.now.instance.now }
    ensures { result ≡ (thermal_unit given.now.instance.now g).rd -ℤ initial_in (task_of given.now) g t }
{
    difference(&given.unit(g).rd, &initial(given, g, t))
}

// What is given of the output above the minimum in the period before.
fn initial(given: &Given, g: usize, t: u32) -> i64
    requires given { IsGiven given.now }
    requires unit { g < thermal_count given.now.instance.now }
    ensures value { result ≡ initial_in (task_of given.now) g t }
    ensures size { unsigned_abs result ≤ 2 * MAX_POWER }
{
    initial_output(given.unit(g), t)
}

// The output above the minimum before the first period, and 0 in all others.
fn initial_output(unit: &Thermal, t: u32) -> i64
    requires { IsLawfulThermal unit.now }
    ensures first { t ≡ 0 → result ≡ initial_p unit.now }
    ensures later { (n : ℕ) → t ≡ suc n → result ≡ pos 0 }
    ensures size { unsigned_abs result ≤ 2 * MAX_POWER }
{
    if t == 0 { unit.initial_output() } else { 0 }
}

// The sum of two powers.
fn sum(power: &i64, other: &i64) -> i64
    requires power { IsPower power.now }
    requires other { unsigned_abs other.now ≤ 2 * MAX_POWER }
    ensures { result ≡ power.now +ℤ other.now }
{
    *power + *other
}

// The difference of two powers.
fn difference(power: &i64, other: &i64) -> i64
    requires power { IsPower power.now }
    requires other { unsigned_abs other.now ≤ 8192 * MAX_POWER }
    ensures { result ≡ power.now -ℤ other.now }
{
    *power - *other
}

// The right side of M13.
fn room_above(instance: &Instance, w: usize, t: usize) -> i64
    requires lawful { IsLawfulInstance instance.now }
    requires unit { w < renewable_count instance.now }
    requires period { t < instance.now.periods }
    ensures { result ≡ renewable_maximum instance.now w t -ℤ int_max (renewable_minimum instance.now w t) (pos 0) }
{
    difference(
        &greatest_output(instance, w, t),
        &least_output(instance, w, t),
    )
}

// The right side of M14.
fn demand_left(given: &Given, t: u32) -> i64
    requires given { IsGiven given.now }
    requires period { t < given.now.instance.now.periods }
    ensures { result ≡ demand_at given.now.instance.now t -ℤ output_given (task_of given.now) t }
{
    difference(&demand(given.instance, t as usize), &given_output(given, t))
}

// The demand.
fn demand(instance: &Instance, t: usize) -> i64
    requires lawful { IsLawfulInstance instance.now }
    requires period { t < instance.now.periods }
    ensures value { result ≡ demand_at instance.now t }
    ensures size { IsPower result }
{
    instance.demand.as_slice()[t]
}

// The required reserve.
fn reserve(instance: &Instance, t: usize) -> i64
    requires lawful { IsLawfulInstance instance.now }
    requires period { t < instance.now.periods }
    ensures value { result ≡ reserve_at instance.now t }
    ensures size { IsPower result }
{
    instance.reserves.as_slice()[t]
}
