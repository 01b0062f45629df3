//! L, what the output of a unit costs, as a convex function: along the hull, with whole slopes.

ghost use Rattle.std.specs.Prelude.{◌≡◌, pos, ◌+◌, ◌*◌, ◌<◌, ◌≤◌, ◌+ℤ◌, ◌-ℤ◌, ◌*ℤ◌, ◌≤ℤ◌, ◌<ℤ◌, length, unsigned_abs};
ghost use Rattle.uc_model.specs.Prelude.{IsFloor};
ghost use Rattle.cost_curves.specs.LowerHull.{IsLawfulPoint, IsLowerHull};
ghost use Rattle.dual_model.specs.Prelude.{greatest_output};
ghost use Rattle.step_functions.specs.Functions.{last_place, run_count};
ghost use Rattle.hull_function.specs.Hulls.{IsHull, IsScale};
ghost use Rattle.hull_function.specs.inside.HullParts.{IsHullTo};
ghost use Rattle.uc_model.specs.declared.limits.TheConstants.{MAX_POWER};

use cost_curves::{Curve, rise, run};
use step_functions::ConvexFunction;
use uc_model::limits::MAX_POINTS;
use uc_model::{Point, floor_div, scaled};

/// Makes the function L on these points, of which the curve is the hull, at the scale `k`. It takes a run for each segment
/// of the hull, which are fewer than the points.
pub fn fill(function: &mut ConvexFunction, curve: &Curve, points: &[Point], k: i64)
    requires scale { IsScale k }
    requires curve { IsLowerHull points.now curve.now }
    requires few { length points.now ≤ MAX_POINTS }
    requires room { length points.now ≤ function.old.room }
    ensures hull { IsHull points.now k function.new }
    ensures pieces { run_count function.new < length points.now }
    ensures room { function.new.room ≡ function.old.room }
{
    function.set_point(0, scaled(k, curve.ceil_at(0, 1)));
    // Invariant: the function is L up to its last place.
    while function.last() < curve.width() {
        add_segment(function, curve, points, k);
    }
}

// Adds the segment of the hull on which the function ends, from there on.
fn add_segment(function: &mut ConvexFunction, curve: &Curve, points: &[Point], k: i64)
    requires scale { IsScale k }
    requires curve { IsLowerHull points.now curve.now }
    requires few { length points.now ≤ MAX_POINTS }
    requires room { length points.now ≤ function.old.room }
    requires hull { IsHullTo points.now k function.old }
    requires more { last_place function.old <ℤ greatest_output points.now }
    ensures hull { IsHullTo points.now k function.new }
    ensures within { last_place function.new ≤ℤ greatest_output points.now }
    ensures one { run_count function.new ≡ run_count function.old + 1 }
    ensures room { function.new.room ≡ function.old.room }
{
    let place = function.last();
    let (left, right) = curve.segment(place + 1);
    let length = steps_between(place, run(&points[0], &right));
    function.extend(length, slope(&left, &right, k));
}

// How many steps of a watt lie between two outputs.
fn steps_between(from: i64, to: i64) -> u64
    requires order { from ≤ℤ to }
    requires from { unsigned_abs from ≤ 2 * MAX_POWER }
    requires to { unsigned_abs to ≤ 2 * MAX_POWER }
    ensures { to ≡ from +ℤ pos result }
{
    (to - from) as u64
}

// K times the slope from one point to another one right of it, rounded down to a whole number.
fn slope(left: &Point, right: &Point, k: i64) -> i128
    requires left { IsLawfulPoint left.now }
    requires right { IsLawfulPoint right.now }
    requires order { left.now.mw <ℤ right.now.mw }
    ensures { IsFloor (k *ℤ (right.now.cost -ℤ left.now.cost)) (right.now.mw -ℤ left.now.mw) result }
{
    floor_div(scaled(k, rise(left, right)), i128::from(run(left, right)))
}
