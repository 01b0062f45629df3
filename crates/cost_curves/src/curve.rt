//! The production cost of a unit as a curve: the lower hull of its points.

ghost use Rattle.std.specs.Prelude.{◌≡◌, ℕ, List, ◌<◌, pos, ◌*ℤ◌, ◌<ℤ◌, ◌≤ℤ◌, unsigned_abs, IfOk};
ghost use Rattle.uc_model.specs.Prelude.{hull_cost};
ghost use Rattle.cost_curves.specs.LowerHull.{Point, AreLawfulCorners, AreLawfulPoints, IsLowerHull, width_of};
ghost use Rattle.cost_curves.specs.LeastCost.{IsLeastCostUp, IsLeftSlope, IsRightSlope, IsSegmentAt};

use crate::slope::Slope;
use crate::{corners, places};
use std::alloc::Global;
use std::marker::Model;
use uc_model::limits::MAX_DENOMINATOR;
use uc_model::{NoMemory, Point};

/// The lower convex hull of a unit's points, which contracts see as the list of its corners from left to
/// right. Outputs `p` are watts above the first point's; no query takes memory.
#[derive(Debug, Drop)]
pub struct Curve {
    corners: Vec<Point>,
}

impl Model for Curve {
    ghost use Rattle.std.specs.Prelude.{List};
    ghost use Rattle.cost_curves.specs.LowerHull.{Point, AreLawfulCorners};

    ghost Value = { List Point };

    ghost view = { λ curve. curve.corners.items };

    ghost invariant = { λ curve. AreLawfulCorners curve.corners.items };
}

impl Curve {
    /// The lower hull of the points. The only error is `NoMemory`.
    pub fn of(alloc: Global, points: &[Point]) -> Result<Curve, NoMemory>
        requires { AreLawfulPoints points.now }
        ensures hull { IfOk result (λ curve. IsLowerHull points.now curve) }
        ensures width { IfOk result (λ curve. width_of curve ≡ width_of points.now) }
    {
        let mut corners = points.to_vec(alloc)?;
        let count = corners::fill(&mut corners, points);
        corners.truncate(count);
        Ok(Curve { corners })
    }

    /// The corners of the hull, from left to right.
    pub fn corners(&self) -> &[Point]
        ensures value { result.now ≡ self.now }
        ensures lawful { AreLawfulCorners result.now }
    {
        &self.corners
    }

    /// The greatest output, in watts above the first point's.
    pub fn width(&self) -> i64
        ensures { result ≡ width_of self.now }
    {
        places::width(&self.corners)
    }

    /// The least cost of weights on the points at the output `p` over `q`, rounded up to whole micro-dollars.
    pub fn ceil_at(&self, p: i64, q: i64) -> i64
        requires denominator { (pos 1 ≤ℤ q) × (q ≤ℤ pos MAX_DENOMINATOR) }
        requires low { pos 0 ≤ℤ p }
        requires high { p ≤ℤ (q *ℤ width_of self.now) }
        ensures least { (points : List Point) → IsLowerHull points self.now → IsLeastCostUp points (unsigned_abs q) p result }

        // It is what a printed schedule pays at this output.
        ensures hull { (points : List Point) → IsLowerHull points self.now → result ≡ hull_cost points (unsigned_abs q) p }
    {
        places::ceil_at(&self.corners, p, q)
    }

    /// The points at the ends of a segment of the hull that holds the output `p`, the left one first: of the
    /// one that ends at `p`, where two meet there. Both are one point where all points share an output.
    pub fn segment(&self, p: i64) -> (Point, Point)
        requires low { pos 0 ≤ℤ p }
        requires high { p ≤ℤ width_of self.now }
        ensures { (points : List Point) → IsLowerHull points self.now → IsSegmentAt points p result.0 result.1 }
    {
        places::segment(&self.corners, p)
    }

    /// The slope of the hull on the left of the output `p`.
    pub fn left_slope(&self, p: i64) -> Slope
        requires low { pos 0 <ℤ p }
        requires high { p ≤ℤ width_of self.now }
        ensures { (points : List Point) → IsLowerHull points self.now → IsLeftSlope points p result }
    {
        places::slope(&self.corners, p)
    }

    /// The slope of the hull on the right of the output `p`.
    pub fn right_slope(&self, p: i64) -> Slope
        requires low { pos 0 ≤ℤ p }
        requires high { p <ℤ width_of self.now }
        ensures { (points : List Point) → IsLowerHull points self.now → IsRightSlope points p result }
    {
        places::slope(&self.corners, p + 1)
    }
}
