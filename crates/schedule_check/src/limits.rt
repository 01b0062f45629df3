//! The limits of a unit's output: what its powers say of it, in whole watts.

ghost use Rattle.std.specs.Prelude.{◌≡◌, ℕ, ◌-◌, ◌^◌, ◌<◌, ◌≤◌, int_le, length, unsigned_abs};
ghost use Rattle.uc_model.specs.Prelude.{IsPower, output_of, point_of};
ghost use Rattle.schedule_check.specs.WholeWatts.{over};

use uc_model::limits::MAX_POWER;
use uc_model::{Point, Thermal, scaled};

/// A power in watts by its numerator over a denominator.
pub(crate) fn numerator(denominator: u8, power: i64) -> i128
    ensures value { result ≡ over denominator power }
    ensures size { unsigned_abs result ≤ 2 ^ 71 }
{
    scaled(i64::from(denominator), power)
}

/// Whether a numerator is at most that of a limit.
pub(crate) fn is_at_most(denominator: u8, number: i64, limit: i64) -> bool
    ensures { result ≡ int_le number (over denominator limit) }
{
    i128::from(number) <= numerator(denominator, limit)
}

/// The output of the last point above the first one's, in watts.
pub fn width(points: &[Point]) -> i64
    requires some { 0 < length points.now }
    requires each { (l : ℕ) → l < length points.now → IsPower (point_of points.now l).mw }
    ensures { result ≡ output_of points.now (length points.now - 1) }
{
    points[points.len() - 1].mw - points[0].mw
}
