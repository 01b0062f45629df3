//! Points and the lines between them.

ghost use Rattle.std.specs.Prelude.{◌≡◌, ◌*◌, ◌≤◌, ◌-ℤ◌, unsigned_abs};
ghost use Rattle.cost_curves.specs.LowerHull.{IsLawfulPoint, is_above};

use uc_model::limits::{MAX_COST, MAX_POWER};
use uc_model::{Point, scaled};

/// How far a point lies right of another, in watts.
pub fn run(from: &Point, to: &Point) -> i64
    requires from { IsLawfulPoint from.now }
    requires to { IsLawfulPoint to.now }
    ensures value { result ≡ to.now.mw -ℤ from.now.mw }
    ensures size { unsigned_abs result ≤ 2 * MAX_POWER }
{
    to.mw - from.mw
}

/// How far it lies above the other, in micro-dollars.
pub fn rise(from: &Point, to: &Point) -> i64
    requires from { IsLawfulPoint from.now }
    requires to { IsLawfulPoint to.now }
    ensures value { result ≡ to.now.cost -ℤ from.now.cost }
    ensures size { unsigned_abs result ≤ 2 * MAX_COST }
{
    to.cost - from.cost
}

/// Whether a point lies on the line from a point to one right of it, or above it.
pub(crate) fn is_above_line(left: &Point, right: &Point, point: &Point) -> bool
    requires left { IsLawfulPoint left.now }
    requires right { IsLawfulPoint right.now }
    requires point { IsLawfulPoint point.now }
    ensures { result ≡ is_above left.now right.now point.now }
{
    let line = scaled(rise(left, right), run(left, point));
    let height = scaled(rise(left, point), run(left, right));
    line <= height
}
