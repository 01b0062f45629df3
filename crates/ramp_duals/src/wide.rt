//! Numbers of 64 bits as ones of 128, and their differences and products.

ghost use Rattle.std.specs.Prelude.{◌≡◌, ◌*◌, ◌^◌, ◌≤◌, ◌-ℤ◌, ◌*ℤ◌, unsigned_abs};

use uc_model::limits::MAX_POWER;
use uc_model::scaled;

/// The number.
pub(crate) fn wide(number: i64) -> i128
    ensures value { result ≡ number }
    ensures size { unsigned_abs result ≤ 2 ^ 63 }
{
    i128::from(number)
}

/// What is left of a number when another is taken away.
pub(crate) fn gap(left: i64, right: i64) -> i128
    ensures value { result ≡ left -ℤ right }
    ensures size { unsigned_abs result ≤ 2 ^ 64 }
{
    i128::from(left) - i128::from(right)
}

/// A multiplier times a power.
pub(crate) fn priced(multiplier: i64, power: i64) -> i128
    requires { unsigned_abs power ≤ MAX_POWER }
    ensures value { result ≡ multiplier *ℤ power }
    ensures size { unsigned_abs result ≤ 2 ^ 107 }
{
    scaled(multiplier, power)
}
