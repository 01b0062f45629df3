//! The corners of the lower hull: how a point joins them, and between which an output lies.

ghost use Rattle.std.specs.Prelude.{◌≡◌, ℕ, suc, ◌+◌, ◌<◌, ◌≤◌, false, int_le, length, take};
ghost use Rattle.uc_model.specs.Prelude.{point_of};
ghost use Rattle.cost_curves.specs.LowerHull.{AreLawfulPoints, IsLawfulPoint, HullOfFirst, IsLowerHull, is_above};
ghost use Rattle.cost_curves.specs.inside.Corners.{is_over, IsNext, Joins};

use crate::line::is_above_line;
use uc_model::Point;

/// Puts the corners of the points' lower hull into the front of a list with room for as many as there are
/// points, and answers how many they are.
pub(crate) fn fill(corners: &mut [Point], points: &[Point]) -> usize
    requires lawful { AreLawfulPoints points.now }
    requires room { length points.now ≤ length corners.old }
    ensures within { result ≤ length points.now }
    ensures hull { IsLowerHull points.now (take result corners.new) }
{
    let mut held = 0;
    for count in 0..points.len() {
        held = join(corners, held, points, count);
    }
    held
}

// Makes the corners of the first `count` points' lower hull, the first `held` of the list, those of the next
// point's too, and answers how many they are then.
fn join(corners: &mut [Point], held: usize, points: &[Point], count: usize) -> usize
    requires lawful { AreLawfulPoints points.now }
    requires within { count < length points.now }
    requires room { length points.now ≤ length corners.old }
    requires held { held ≤ count }
    requires hull { HullOfFirst points.now count (take held corners.old) }
    ensures held { result ≤ count + 1 }
    ensures hull { HullOfFirst points.now (count + 1) (take result corners.new) }
{
    let point = &points[count];
    if is_over_last(&corners[..held], point) {
        return held;
    }
    let kept = kept_corners(&corners[..held], points, count);
    corners[kept] = *point;
    kept + 1
}

// Whether the last corner has the point's output and costs no more.
fn is_over_last(corners: &[Point], point: &Point) -> bool
    ensures none { length corners.now ≡ 0 → result ≡ false }
    ensures some { (i : ℕ) → length corners.now ≡ suc i → result ≡ is_over (point_of corners.now i) point.now }
{
    let count = corners.len();
    if count == 0 {
        return false;
    }
    is_over_corner(&corners[count - 1], point)
}

// Whether a corner lies no further left than a point, and costs no more.
fn is_over_corner(corner: &Point, point: &Point) -> bool
    ensures { result ≡ is_over corner.now point.now }
{
    if point.mw <= corner.mw {
        corner.cost <= point.cost
    } else {
        false
    }
}

// How many of the corners stay beside the next point.
fn kept_corners(corners: &[Point], points: &[Point], count: usize) -> usize
    requires lawful { AreLawfulPoints points.now }
    requires within { count < length points.now }
    requires hull { HullOfFirst points.now count corners.now }
    requires next { IsNext points.now count (point_of points.now count) }
    ensures within { result ≤ length corners.now }
    ensures joins { Joins points.now count corners.now (point_of points.now count) result }
{
    let point = &points[count];
    let mut kept = corners.len();
    while is_covered(corners, kept, point) {
        kept -= 1;
    }
    kept
}

// Whether the last of the first `count` corners is none beside a point right of it, or below it at its output.
fn is_covered(corners: &[Point], count: usize, point: &Point) -> bool
    requires within { count ≤ length corners.now }
    requires lawful { (i : ℕ) → i < length corners.now → IsLawfulPoint (point_of corners.now i) }
    requires point { IsLawfulPoint point.now }
    ensures none { count ≡ 0 → result ≡ false }
    ensures one { count ≡ 1 → result ≡ int_le point.now.mw (point_of corners.now 0).mw }
    ensures more { (i : ℕ) → count ≡ suc (suc i) → result ≡ is_above (point_of corners.now i) point.now (point_of corners.now (suc i)) }
{
    if count == 0 {
        return false;
    }
    if count == 1 {
        return point.mw <= corners[0].mw;
    }
    is_above_line(&corners[count - 2], point, &corners[count - 1])
}
