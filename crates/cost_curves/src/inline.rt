//! The production cost of a unit as a curve without memory of its own.

ghost use Rattle.std.specs.Prelude.{◌≡◌, ◌≤◌, List, pos, ◌*ℤ◌, ◌≤ℤ◌, unsigned_abs, length};
ghost use Rattle.uc_model.specs.Prelude.{hull_cost};
ghost use Rattle.cost_curves.specs.LowerHull.{Point, AreLawfulPoints, IsLowerHull, width_of};
ghost use Rattle.cost_curves.specs.LeastCost.{IsLeastCostUp};

use crate::{corners, places};
use std::marker::Model;
use uc_model::Point;
use uc_model::limits::{MAX_DENOMINATOR, MAX_POINTS};

/// The lower convex hull of a unit's points with its corners in the value itself, which contracts see as their
/// list from left to right: a curve that takes no memory. Outputs `p` are watts above the first point's.
#[derive(Debug, Drop)]
pub struct InlineCurve {
    corners: [Point; MAX_POINTS],
    count: usize,
}

impl Model for InlineCurve {
    ghost use Rattle.std.specs.Prelude.{List, take, length, ◌≤◌};
    ghost use Rattle.cost_curves.specs.LowerHull.{Point, AreLawfulCorners};

    ghost Value = { List Point };

    ghost view = { λ curve. take curve.count curve.corners };

    ghost invariant = { λ curve. (curve.count ≤ 64) × AreLawfulCorners (take curve.count curve.corners) };
}

impl InlineCurve {
    /// The lower hull of the points.
    pub fn of(points: &[Point]) -> InlineCurve
        requires lawful { AreLawfulPoints points.now }
        requires few { length points.now ≤ MAX_POINTS }
        ensures hull { IsLowerHull points.now result }
    {
        let mut corners = [Point { mw: 0, cost: 0 }; MAX_POINTS];
        let count = corners::fill(&mut corners, points);
        InlineCurve { corners, count }
    }

    /// The least cost of weights on the points at the output `p` over `q`, rounded up to whole micro-dollars.
    pub fn ceil_at(&self, p: i64, q: i64) -> i64
        requires denominator { (pos 1 ≤ℤ q) × (q ≤ℤ pos MAX_DENOMINATOR) }
        requires low { pos 0 ≤ℤ p }
        requires high { p ≤ℤ (q *ℤ width_of self.now) }
        ensures least { (points : List Point) → IsLowerHull points self.now → IsLeastCostUp points (unsigned_abs q) p result }

        // It is what a printed schedule pays at this output.
        ensures hull { (points : List Point) → IsLowerHull points self.now → result ≡ hull_cost points (unsigned_abs q) p }
    {
        places::ceil_at(&self.corners[..self.count], p, q)
    }
}
