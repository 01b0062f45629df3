//! Prices for shortages.

ghost use Rattle.std.specs.Prelude.{◌≡◌, ◌*◌, ◌^◌, ◌≤◌, true, false, All, length, pos, ◌*ℤ◌, int_le, slice_index_or, unsigned_abs};
ghost use Rattle.std.specs.Int.{int_max};
ghost use Rattle.uc_model.specs.Prelude.{sum_below, IsLawfulInstance, IsPower, greatest_shortage_cost};
ghost use Rattle.uc_model.specs.declared.limits.TheConstants.{MAX_PERIODS, MAX_PENALTY, MAX_POWER, MAX_SHORTAGE_COST};

use uc_model::limits::MAX_SHORTAGE_COST;
use uc_model::{Instance, scaled, sum};

/// Lets demand stay unserved at `a` micro-dollars for a watt and an hour, and reserve be missing at `b`; 0 allows neither.
/// It is false, with nothing changed, where all shortages together could cost more than `MAX_SHORTAGE_COST`.
pub fn penalize(instance: &mut Instance, a: u32, b: u32) -> bool
    requires { IsLawfulInstance instance.old }
    ensures fits { result ≡ int_le (greatest_shortage_cost instance.old a b) (pos MAX_SHORTAGE_COST) }
    ensures set { result ≡ true → instance.new ≡ record instance.old { a = a; b = b } }
    ensures kept { result ≡ false → instance.new ≡ instance.old }
    ensures lawful { result ≡ true → a ≤ MAX_PENALTY → b ≤ MAX_PENALTY → IsLawfulInstance instance.new }
{
    let fits = greatest_cost(instance, a, b) <= i128::from(MAX_SHORTAGE_COST);
    if fits {
        instance.a = a;
        instance.b = b;
    }
    fits
}

// What all shortages would cost at these prices.
fn greatest_cost(instance: &Instance, a: u32, b: u32) -> i128
    requires { IsLawfulInstance instance.now }
    ensures { result ≡ greatest_shortage_cost instance.now a b }
{
    let unserved = most_cost(a, instance.demand.as_slice());
    let missing = most_cost(b, instance.reserves.as_slice());
    sum(unserved, missing)
}

// What it would cost at a price if all powers above 0 were missing.
fn most_cost(price: u32, powers: &[i64]) -> i128
    requires powers { All IsPower powers.now }
    requires few { length powers.now ≤ MAX_PERIODS }
    ensures value { result ≡ pos price *ℤ sum_below (length powers.now) (λ t. int_max (slice_index_or powers.now t (pos 0)) (pos 0)) }
    ensures size { unsigned_abs result ≤ 2 ^ 32 * (MAX_PERIODS * MAX_POWER) }
{
    scaled(i64::from(price), above_zero(powers))
}

// The sum of the powers that are above 0.
fn above_zero(powers: &[i64]) -> i64
    requires powers { All IsPower powers.now }
    requires few { length powers.now ≤ MAX_PERIODS }
    ensures value { result ≡ sum_below (length powers.now) (λ t. int_max (slice_index_or powers.now t (pos 0)) (pos 0)) }
    ensures size { unsigned_abs result ≤ MAX_PERIODS * MAX_POWER }
{
    let mut total = 0;
    for t in 0..powers.len() {
        total += powers[t].max(0);
    }
    total
}
