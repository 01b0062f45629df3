//! The output that a commitment gives without a choice.
ghost use Rattle.std.specs.Prelude.{◌≡◌, ◌<◌, ◌≤◌, ◌*◌, ◌+ℤ◌, ◌*ℤ◌, ℤ, pos, unsigned_abs};
ghost use Rattle.std.specs.Int.{int_max};
ghost use Rattle.uc_model.specs.Prelude.{IsLawfulInstance, IsLawfulThermal, IsPower, renewable_count, renewable_maximum, renewable_minimum, thermal_count, thermal_unit, bit, sum_below};
ghost use Rattle.dispatch_rules.specs.Prelude.{commitment_at, given_output as output_given};
ghost use Rattle.dispatch_table.specs.Tasks.{IsGiven, IsOutputSum, task_of};

use crate::given::Given;
use uc_model::limits::{MAX_POWER, MAX_UNITS};
use uc_model::{Instance, Thermal};

/// What the commitment gives in period `t`, in watts: the least outputs of the on units and of the renewable ones.
pub(crate) fn given_output(given: &Given, t: u32) -> i64
    requires given { IsGiven given.now }
    requires period { t < given.now.instance.now.periods }
    ensures value { result ≡ output_given (task_of given.now) t }
    ensures size { unsigned_abs result ≤ 8192 * MAX_POWER }
{
    let thermal = thermal_output(given, t);
    let renewable = renewable_output(given.instance, t as usize);
    thermal + renewable
}

// The least outputs of the on units.
fn thermal_output(given: &Given, t: u32) -> i64
    requires given { IsGiven given.now }
    requires period { t < given.now.instance.now.periods }
    ensures value { result ≡ sum_below (thermal_count given.now.instance.now) (λ g. (thermal_unit given.now.instance.now g).pmin *ℤ bit (commitment_at given.now.patterns.now g t)) }
    ensures size { IsOutputSum result }
{
    let mut total = 0;
    for g in 0..given.instance.thermal.as_slice().len() {
        total = with_term(total, least_where(given.unit(g), given.is_on(g, t)));
    }
    total
}

// The least output of a unit that is on, and else 0.
fn least_where(unit: &Thermal, on: bool) -> i64
    requires { IsLawfulThermal unit.now }
    ensures value { result ≡ unit.now.pmin *ℤ bit on }
    ensures size { IsPower result }
{
    if on { unit.pmin } else { 0 }
}

// The least outputs of the renewable units.
fn renewable_output(instance: &Instance, t: usize) -> i64
    requires lawful { IsLawfulInstance instance.now }
    requires period { t < instance.now.periods }
    ensures value { result ≡ sum_below (renewable_count instance.now) (λ w. int_max (renewable_minimum instance.now w t) (pos 0)) }
    ensures size { IsOutputSum result }
{
    let mut total = 0;
    for w in 0..instance.renewable.as_slice().len() {
        total = with_term(total, least_output(instance, w, t));
    }
    total
}

// A sum with an output more.
fn with_term(total: i64, output: i64) -> i64
    requires total { IsOutputSum total }
    requires output { IsPower output }
    ensures { result ≡ total +ℤ output }
{
    total + output
}

/// The least output of renewable unit `w` in period `t`, in watts: none below 0.
pub(crate) fn least_output(instance: &Instance, w: usize, t: usize) -> i64
    requires lawful { IsLawfulInstance instance.now }
    requires unit { w < renewable_count instance.now }
    requires period { t < instance.now.periods }
    ensures value { result ≡ int_max (renewable_minimum instance.now w t) (pos 0) }
    ensures size { IsPower result }
{
    let unit = &instance.renewable.as_slice()[w];
    unit.minimum.as_slice()[t].max(0)
}

/// The greatest output of renewable unit `w` in period `t`, in watts.
pub(crate) fn greatest_output(instance: &Instance, w: usize, t: usize) -> i64
    requires lawful { IsLawfulInstance instance.now }
    requires unit { w < renewable_count instance.now }
    requires period { t < instance.now.periods }
    ensures value { result ≡ renewable_maximum instance.now w t }
    ensures size { IsPower result }
{
    let unit = &instance.renewable.as_slice()[w];
    unit.maximum.as_slice()[t]
}
