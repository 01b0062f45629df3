//! Where an output lies among the corners, and what the hull says there.

ghost use Rattle.std.specs.Prelude.{◌≡◌, ℕ, suc, ◌*◌, ◌^◌, ◌<◌, ◌≤◌, pos, List, ◌-ℤ◌, ◌*ℤ◌, ◌<ℤ◌, ◌≤ℤ◌, int_lt, length, unsigned_abs};
ghost use Rattle.uc_model.specs.Prelude.{IsCeiling, hull_cost, point_of, output_of};
ghost use Rattle.cost_curves.specs.LowerHull.{Point, AreLawfulCorners, IsLawfulPoint, IsLowerHull, width_of};
ghost use Rattle.cost_curves.specs.LeastCost.{IsLeastCostUp, IsLeftSlope, IsSegmentAt};
ghost use Rattle.cost_curves.specs.inside.Places.{HoldsOutput};

use crate::line::{rise, run};
use crate::slope::Slope;
use uc_model::limits::{MAX_COST, MAX_DENOMINATOR, MAX_POWER};
use uc_model::{Point, ceil_div, scaled};

/// The greatest output above the first corner's.
pub(crate) fn width(corners: &[Point]) -> i64
    requires { AreLawfulCorners corners.now }
    ensures value { result ≡ width_of corners.now }
{
    output(corners, corners.len() - 1)
}

/// The least cost at the output `p` over `q`, rounded up. The segment is that of the next whole output, since corners
/// lie at whole ones.
pub(crate) fn ceil_at(corners: &[Point], p: i64, q: i64) -> i64
    requires lawful { AreLawfulCorners corners.now }
    requires denominator { (pos 1 ≤ℤ q) × (q ≤ℤ pos MAX_DENOMINATOR) }
    requires low { pos 0 ≤ℤ p }
    requires high { p ≤ℤ (q *ℤ width_of corners.now) }
    ensures least { (points : List Point) → IsLowerHull points corners.now → IsLeastCostUp points (unsigned_abs q) p result }
    ensures hull { (points : List Point) → IsLowerHull points corners.now → result ≡ hull_cost points (unsigned_abs q) p }
{
    let found = ends_at(corners, whole_up(p, q));
    let over = over_left(corners, found.left, p, q);
    cost_between(&corners[found.left], &corners[found.right], over, q)
}

// The least whole output that isn't below p over q.
fn whole_up(p: i64, q: i64) -> i64
    requires denominator { pos 1 ≤ℤ q }
    requires low { pos 0 ≤ℤ p }
    requires size { unsigned_abs p ≤ MAX_DENOMINATOR * (2 * MAX_POWER) }
    ensures ceiling { IsCeiling p q result }
    ensures low { pos 0 ≤ℤ result }
{
    ceil_div(wide(p), wide(q)) as i64
}

// A number in 128 bits.
fn wide(number: i64) -> i128
    ensures value { result ≡ number }
    ensures size { unsigned_abs result ≤ 2 ^ 63 }
{
    i128::from(number)
}

// How far the output p over q lies right of a corner, over q.
fn over_left(corners: &[Point], left: usize, p: i64, q: i64) -> i64
    requires lawful { AreLawfulCorners corners.now }
    requires within { left < length corners.now }
    requires denominator { (pos 1 ≤ℤ q) × (q ≤ℤ pos MAX_DENOMINATOR) }
    requires low { (q *ℤ output_of corners.now left) ≤ℤ p }
    requires high { p ≤ℤ (q *ℤ width_of corners.now) }
    ensures { result ≡ p -ℤ q *ℤ output_of corners.now left }
{
    p - q * output(corners, left)
}

/// The ends of a segment that holds an output.
pub(crate) fn segment(corners: &[Point], p: i64) -> (Point, Point)
    requires lawful { AreLawfulCorners corners.now }
    requires low { pos 0 ≤ℤ p }
    requires high { p ≤ℤ width_of corners.now }
    ensures { (points : List Point) → IsLowerHull points corners.now → IsSegmentAt points p result.0 result.1 }
{
    let found = ends_at(corners, p);
    (corners[found.left], corners[found.right])
}

/// The slope on the left of an output.
pub(crate) fn slope(corners: &[Point], p: i64) -> Slope
    requires lawful { AreLawfulCorners corners.now }
    requires low { pos 0 <ℤ p }
    requires high { p ≤ℤ width_of corners.now }
    ensures { (points : List Point) → IsLowerHull points corners.now → IsLeftSlope points p result }
{
    let left = place(corners, p);
    Slope {
        rise: rise(&corners[left], &corners[left + 1]),
        run: run(&corners[left], &corners[left + 1]),
    }
}

// The cost on the line between two points, so far over q right of the left one, rounded up.
fn cost_between(left: &Point, right: &Point, over: i64, q: i64) -> i64
    requires left { IsLawfulPoint left.now }
    requires right { IsLawfulPoint right.now }
    requires low { pos 0 ≤ℤ over }
    requires high { over ≤ℤ (q *ℤ (right.now.mw -ℤ left.now.mw)) }
    requires denominator { (pos 1 ≤ℤ q) × (q ≤ℤ pos MAX_DENOMINATOR) }
    ensures level { left.now.mw ≡ right.now.mw → result ≡ left.now.cost }
    ensures rising { left.now.mw <ℤ right.now.mw → IsCeiling ((right.now.cost -ℤ left.now.cost) *ℤ over) (q *ℤ (right.now.mw -ℤ left.now.mw)) (result -ℤ left.now.cost) }
{
    if left.mw == right.mw {
        return left.cost;
    }
    left.cost + rise_up(left, right, over, q)
}

// How far the line between two points rises until so far over q right of the left one, rounded up.
fn rise_up(left: &Point, right: &Point, over: i64, q: i64) -> i64
    requires left { IsLawfulPoint left.now }
    requires right { IsLawfulPoint right.now }
    requires low { pos 0 ≤ℤ over }
    requires high { over ≤ℤ (q *ℤ (right.now.mw -ℤ left.now.mw)) }
    requires denominator { (pos 1 ≤ℤ q) × (q ≤ℤ pos MAX_DENOMINATOR) }
    requires apart { left.now.mw <ℤ right.now.mw }
    ensures ceiling { IsCeiling ((right.now.cost -ℤ left.now.cost) *ℤ over) (q *ℤ (right.now.mw -ℤ left.now.mw)) result }
    ensures size { unsigned_abs result ≤ 2 * MAX_COST }
{
    let rising = scaled(rise(left, right), over);
    let width = scaled(q, run(left, right));
    ceil_div(rising, width) as i64
}

// The places of a segment's ends among the corners.
#[derive(Clone, Copy)]
struct Ends {
    left: usize,
    right: usize,
}

// The ends of a segment that holds an output, or the corner that is alone.
fn ends_at(corners: &[Point], p: i64) -> Ends
    requires lawful { AreLawfulCorners corners.now }
    requires low { pos 0 ≤ℤ p }
    requires high { p ≤ℤ width_of corners.now }
    ensures { HoldsOutput corners.now p result.left result.right }
{
    if corners.len() == 1 {
        return Ends { left: 0, right: 0 };
    }
    if p == 0 {
        return Ends { left: 0, right: 1 };
    }
    let left = place(corners, p);
    Ends {
        left,
        right: left + 1,
    }
}

// The corner from which a segment reaches an output that lies right of it, found by halving.
fn place(corners: &[Point], p: i64) -> usize
    requires lawful { AreLawfulCorners corners.now }
    requires low { pos 0 <ℤ p }
    requires high { p ≤ℤ width_of corners.now }
    ensures within { suc result < length corners.now }
    ensures begins { output_of corners.now result <ℤ p }
    ensures reaches { p ≤ℤ output_of corners.now (suc result) }
{
    let mut low = 0;
    let mut high = corners.len() - 1;
    while high - low > 1 {
        let middle = low + (high - low) / 2;
        if is_left(corners, middle, p) {
            low = middle;
        } else {
            high = middle;
        }
    }
    low
}

// Whether a corner lies left of an output.
fn is_left(corners: &[Point], place: usize, p: i64) -> bool
    requires lawful { AreLawfulCorners corners.now }
    requires within { place < length corners.now }
    ensures { result ≡ int_lt (output_of corners.now place) p }
{
    output(corners, place) < p
}

// A corner's output above the first one's.
fn output(corners: &[Point], place: usize) -> i64
    requires lawful { AreLawfulCorners corners.now }
    requires within { place < length corners.now }
    ensures value { result ≡ output_of corners.now place }
    ensures size { unsigned_abs result ≤ 2 * MAX_POWER }
{
    run(&corners[0], &corners[place])
}
