//! What the shortages would gain.

ghost use Rattle.std.specs.Prelude.{◌≡◌, ◌*◌, ◌^◌, ◌<◌, ◌≤◌, ◌-ℤ◌, ◌*ℤ◌, pos, ◌≤ℤ◌, unsigned_abs};
ghost use Rattle.std.specs.Int.{int_max, int_min};
ghost use Rattle.uc_model.specs.Prelude.{IsLawfulInstance, IsPower, HasShapeOf};
ghost use Rattle.dual_model.specs.Prelude.{HasSizeOf, IsPrice, IsWithinLimits};
ghost use Rattle.uplift.specs.Sizes.{MAX_SHORTAGE};
ghost use Rattle.uplift.specs.Uplift.{shed_uplift as uplift_of, shortage_uplift, shortage_uplift_at};

use dual_model::Table;
use dual_model::limits::MAX_SCALE;
use uc_model::limits::{MAX_PENALTY, MAX_PERIODS};
use uc_model::{Instance, Printed, difference, scaled, sum};

/// A price in micro-dollars times the scale is at most this.
const MOST_SCALED: u64 = 1_000_000_000_000_000;

/// More than a price in micro-dollars times the scale is above a multiplier.
const MOST_GAIN: u64 = 2_000_000_000_000_000;

/// The uplift of what is missing of demand and reserve, over all periods.
pub(crate) fn shed_uplift(instance: &Instance, printed: &Printed, table: &Table) -> i128
    requires lawful { IsLawfulInstance instance.now }
    requires shape { HasShapeOf instance.now printed.now }
    requires size { HasSizeOf instance.now table.now }
    requires limits { IsWithinLimits table.now }
    ensures value { result ≡ uplift_of instance.now printed.now table.now }
    ensures size { unsigned_abs result ≤ MAX_PERIODS * MAX_SHORTAGE }
{
    let mut total = 0;
    for t in 0..instance.periods as usize {
        total = sum(total, period_uplift(instance, printed, table, t));
    }
    total
}

// That of period t.
fn period_uplift(instance: &Instance, printed: &Printed, table: &Table, t: usize) -> i128
    requires lawful { IsLawfulInstance instance.now }
    requires shape { HasShapeOf instance.now printed.now }
    requires size { HasSizeOf instance.now table.now }
    requires limits { IsWithinLimits table.now }
    requires period { t < instance.now.periods }
    ensures value { result ≡ shortage_uplift_at instance.now printed.now table.now t }
    ensures size { unsigned_abs result ≤ MAX_SHORTAGE }
{
    let unserved = missing_uplift(
        table.k(),
        instance.a,
        table.pi()[t],
        instance.demand.as_slice()[t],
        printed.shed.as_slice()[t],
    );
    let missing = missing_uplift(
        table.k(),
        instance.b,
        table.mu()[t],
        instance.reserves.as_slice()[t],
        printed.short.as_slice()[t],
    );
    sum(unserved, missing)
}

// That of what is missing of a need at a multiplier.
fn missing_uplift(k: i64, price: u32, multiplier: i64, need: i64, missing: i64) -> i128
    requires scale { (pos 0 ≤ℤ k) × (k ≤ℤ MAX_SCALE) }
    requires price { price ≤ MAX_PENALTY }
    requires multiplier { IsPrice multiplier }
    requires need { IsPower need }
    ensures value { result ≡ shortage_uplift k price multiplier (int_max need (pos 0)) missing }
    ensures size { unsigned_abs result ≤ 2 * (MOST_GAIN * 2 ^ 63) }
{
    if price > 0 {
        lost(loss(k, price, multiplier), need, missing)
    } else {
        0
    }
}

// What a watt that is missing costs beyond the multiplier.
fn loss(k: i64, price: u32, multiplier: i64) -> i64
    requires scale { (pos 0 ≤ℤ k) × (k ≤ℤ MAX_SCALE) }
    requires price { price ≤ MAX_PENALTY }
    requires multiplier { IsPrice multiplier }
    ensures value { result ≡ k *ℤ pos price -ℤ multiplier }
    ensures size { unsigned_abs result ≤ MOST_GAIN }
{
    scaled_price(k, price) - multiplier
}

// The price at the scale.
fn scaled_price(k: i64, price: u32) -> i64
    requires scale { (pos 0 ≤ℤ k) × (k ≤ℤ MAX_SCALE) }
    requires price { price ≤ MAX_PENALTY }
    ensures value { result ≡ k *ℤ pos price }
    ensures size { unsigned_abs result ≤ MOST_SCALED }
{
    k * i64::from(price)
}

// What the missing watts cost at this loss each, less the least that they may.
fn lost(loss: i64, need: i64, missing: i64) -> i128
    requires loss { unsigned_abs loss ≤ MOST_GAIN }
    ensures value { result ≡ loss *ℤ missing -ℤ int_min (pos 0) loss *ℤ int_max need (pos 0) }
    ensures size { unsigned_abs result ≤ 2 * (MOST_GAIN * 2 ^ 63) }
{
    let least = at_loss(below_zero(loss), above_zero(need));
    difference(at_loss(loss, missing), least)
}

// The loss where it is below 0, and else 0.
fn below_zero(loss: i64) -> i64
    requires { unsigned_abs loss ≤ MOST_GAIN }
    ensures value { result ≡ int_min (pos 0) loss }
    ensures size { unsigned_abs result ≤ MOST_GAIN }
{
    if loss < 0 { loss } else { 0 }
}

// The need where it is above 0, and else 0.
fn above_zero(need: i64) -> i64
    ensures { result ≡ int_max need (pos 0) }
{
    need.max(0)
}

// Watts at a loss.
fn at_loss(loss: i64, watts: i64) -> i128
    requires { unsigned_abs loss ≤ MOST_GAIN }
    ensures value { result ≡ loss *ℤ watts }
    ensures size { unsigned_abs result ≤ MOST_GAIN * 2 ^ 63 }
{
    scaled(loss, watts)
}
