//! What demand and reserves add, and what may be missing of them at a price.

ghost use Rattle.std.specs.Prelude.{◌≡◌, ◌*◌, ◌<◌, ◌≤◌, pos, ◌*ℤ◌, ◌+ℤ◌, ◌-ℤ◌, ◌≤ℤ◌, unsigned_abs};
ghost use Rattle.std.specs.Int.{int_max, int_min};
ghost use Rattle.uc_model.specs.Prelude.{IsLawfulInstance, IsPower};
ghost use Rattle.uc_model.specs.declared.limits.TheConstants.{MAX_PENALTY};
ghost use Rattle.dual_model.specs.Prelude.{needs_value, shortage_value, shortages_value, system_value as value_of, HasSizeOf, IsPrice, IsWithinLimits};
ghost use Rattle.dual_model.specs.declared.limits.TheConstants.{MAX_SCALE};
ghost use Rattle.system_value.specs.Sizes.{MAX_CELL, MAX_HOUR, MAX_SYSTEM};

use crate::priced::{above_zero, priced};
use dual_model::Table;
use uc_model::{Instance, sum};

/// Demand and reserves at their prices, less what may be missing where that is cheaper, over all periods, at the scale of
/// the table.
pub fn system_value(instance: &Instance, table: &Table) -> i128
    requires lawful { IsLawfulInstance instance.now }
    requires size { HasSizeOf instance.now table.now }
    requires limits { IsWithinLimits table.now }
    ensures value { result ≡ value_of instance.now table.now }
    ensures size { unsigned_abs result ≤ MAX_SYSTEM }
{
    let mut total = 0;
    for t in 0..instance.periods as usize {
        total = sum(total, period_value(instance, table, t));
    }
    total
}

// Demand and reserve of period t at their prices, less what may be missing.
fn period_value(instance: &Instance, table: &Table, t: usize) -> i128
    requires lawful { IsLawfulInstance instance.now }
    requires size { HasSizeOf instance.now table.now }
    requires limits { IsWithinLimits table.now }
    requires period { t < instance.now.periods }
    ensures value { result ≡ needs_value instance.now table.now t }
    ensures size { unsigned_abs result ≤ MAX_HOUR }
{
    let demand = priced(table.pi()[t], instance.demand.as_slice()[t]);
    let reserve = priced(table.mu()[t], instance.reserves.as_slice()[t]);
    sum(sum(demand, reserve), shortages(instance, table, t))
}

// What demand and reserve of period t that may be missing add.
fn shortages(instance: &Instance, table: &Table, t: usize) -> i128
    requires lawful { IsLawfulInstance instance.now }
    requires size { HasSizeOf instance.now table.now }
    requires limits { IsWithinLimits table.now }
    requires period { t < instance.now.periods }
    ensures value { result ≡ shortages_value instance.now table.now t }
    ensures size { unsigned_abs result ≤ 2 * MAX_CELL }
{
    let unserved = shortage(
        table.k(),
        instance.a,
        table.pi()[t],
        instance.demand.as_slice()[t],
    );
    let missing = shortage(
        table.k(),
        instance.b,
        table.mu()[t],
        instance.reserves.as_slice()[t],
    );
    sum(unserved, missing)
}

// What a need at a multiplier adds where it may be missing at a price.
fn shortage(k: i64, price: u32, multiplier: i64, need: i64) -> i128
    requires scale { (pos 0 ≤ℤ k) × (k ≤ℤ MAX_SCALE) }
    requires price { price ≤ MAX_PENALTY }
    requires multiplier { IsPrice multiplier }
    requires need { IsPower need }
    ensures value { result ≡ shortage_value k price multiplier (int_max need (pos 0)) }
    ensures size { unsigned_abs result ≤ MAX_CELL }
{
    if price > 0 {
        priced(saved(k, price, multiplier), above_zero(need))
    } else {
        0
    }
}

// What a watt that is missing adds: its price less the multiplier, where that is below 0.
fn saved(k: i64, price: u32, multiplier: i64) -> i64
    requires scale { (pos 0 ≤ℤ k) × (k ≤ℤ MAX_SCALE) }
    requires price { price ≤ MAX_PENALTY }
    requires multiplier { IsPrice multiplier }
    ensures value { result ≡ int_min (pos 0) (k *ℤ pos price -ℤ multiplier) }
    ensures size { IsPrice result }
{
    let cost = k * i64::from(price);
    if cost < multiplier {
        cost - multiplier
    } else {
        0
    }
}
