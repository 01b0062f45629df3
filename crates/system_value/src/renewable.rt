//! What the renewable units add.

ghost use Rattle.std.specs.Prelude.{◌≡◌, ◌<◌, ◌≤◌, pos, ◌*ℤ◌, neg_ℤ, int_lt, unsigned_abs, if◌then◌else◌};
ghost use Rattle.std.specs.Int.{int_max};
ghost use Rattle.uc_model.specs.Prelude.{IsLawfulInstance, IsPower, renewable_count};
ghost use Rattle.dual_model.specs.Prelude.{renewable_part as part_of, renewable_value as value_of, renewables_value as all_of, HasSizeOf, IsPrice, IsWithinLimits};
ghost use Rattle.system_value.specs.Sizes.{MAX_CELL, MAX_RENEWABLE, MAX_RENEWABLES};

use crate::priced::{above_zero, priced};
use dual_model::Table;
use uc_model::{Instance, sum};

/// What the renewable units add over all periods, at the scale of the table: each is at its greatest output where energy
/// has a price above 0, else at its least.
pub fn renewables_value(instance: &Instance, table: &Table) -> i128
    requires lawful { IsLawfulInstance instance.now }
    requires size { HasSizeOf instance.now table.now }
    requires limits { IsWithinLimits table.now }
    ensures value { result ≡ all_of instance.now table.now }
    ensures size { unsigned_abs result ≤ MAX_RENEWABLES }
{
    let mut total = 0;
    for w in 0..instance.renewable.as_slice().len() {
        total = sum(total, unit_value(instance, table, w));
    }
    total
}

// What renewable unit w adds.
fn unit_value(instance: &Instance, table: &Table, w: usize) -> i128
    requires lawful { IsLawfulInstance instance.now }
    requires size { HasSizeOf instance.now table.now }
    requires limits { IsWithinLimits table.now }
    requires unit { w < renewable_count instance.now }
    ensures value { result ≡ part_of instance.now table.now w }
    ensures size { unsigned_abs result ≤ MAX_RENEWABLE }
{
    let mut total = 0;
    for t in 0..instance.periods as usize {
        total = sum(total, period_value(instance, table, w, t));
    }
    total
}

// What renewable unit w adds in period t.
fn period_value(instance: &Instance, table: &Table, w: usize, t: usize) -> i128
    requires lawful { IsLawfulInstance instance.now }
    requires size { HasSizeOf instance.now table.now }
    requires limits { IsWithinLimits table.now }
    requires unit { w < renewable_count instance.now }
    requires period { t < instance.now.periods }
    ensures value { result ≡ value_of instance.now table.now w t }
    ensures size { unsigned_abs result ≤ MAX_CELL }
{
    let unit = &instance.renewable.as_slice()[w];
    cost(
        table.pi()[t],
        unit.minimum.as_slice()[t],
        unit.maximum.as_slice()[t],
    )
}

// Minus the price times the greatest output where the price is above 0, else times the least.
fn cost(price: i64, least: i64, most: i64) -> i128
    requires price { IsPrice price }
    requires least { IsPower least }
    requires most { IsPower most }
    ensures value { result ≡ (if int_lt (pos 0) price then neg_ℤ (price *ℤ most)
        else neg_ℤ (price *ℤ int_max least (pos 0))) }
    ensures size { unsigned_abs result ≤ MAX_CELL }
{
    if price > 0 {
        earned(price, most)
    } else {
        earned(price, above_zero(least))
    }
}

// Minus the price times an output.
fn earned(price: i64, output: i64) -> i128
    requires price { IsPrice price }
    requires output { IsPower output }
    ensures value { result ≡ neg_ℤ (price *ℤ output) }
    ensures size { unsigned_abs result ≤ MAX_CELL }
{
    -priced(price, output)
}
