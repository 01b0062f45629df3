//! Terms of cells, beside the plain way over all points and pairs of points.

ghost use Rattle.cost_curves.specs.LowerHull.{AreLawfulPoints};

use cost_curves::Curve;
use period_term::term;
use std::alloc::Global;
use std::process::Abort;
use std::test::Fail;
use uc_model::Point;

/// The scale and the prices of output and reserve of a cell, the output of the first point, and the cap above it.
#[derive(Clone, Copy)]
pub(crate) struct Cell {
    pub(crate) k: i64,
    pub(crate) a: i128,
    pub(crate) b: i128,
    pub(crate) first: i64,
    pub(crate) cap: i64,
}

impl Cell {
    // The output of a point above the first one's.
    fn output(&self, point: &Point) -> i128 {
        i128::from(point.mw) - i128::from(self.first)
    }

    // How far a point lies left of the cap.
    fn room(&self, point: &Point) -> i128 {
        i128::from(self.cap).saturating_sub(self.output(point))
    }

    // The reduced cost of a point without reserve.
    fn cost(&self, point: &Point) -> i128 {
        let scaled = i128::from(self.k) * i128::from(point.cost);
        scaled.saturating_add(self.a.saturating_mul(self.output(point)))
    }

    // The least cost of a point at or left of the cap, with all the reserve that is left or with none.
    fn corner(&self, point: &Point) -> i128 {
        let reserve = self.b.saturating_mul(self.room(point));
        self.cost(point).saturating_add(reserve.min(0))
    }

    // The cost of the weights on two points, one on each side of the cap, that meet it, rounded down.
    fn pair(&self, left: &Point, right: &Point) -> i128 {
        let over = self.room(right).saturating_neg();
        let width = over.saturating_add(self.room(left));
        let weighted = over.saturating_mul(self.cost(left));
        let other = self.room(left).saturating_mul(self.cost(right));
        if width > 0 {
            weighted.saturating_add(other).div_euclid(width)
        } else {
            i128::MAX
        }
    }

    /// The least of all corners.
    pub(crate) fn least(&self, points: &[Point]) -> i128 {
        let mut least = i128::MAX;
        for left in points {
            if self.room(left) >= 0 {
                least = self.corner(left).min(least);
                for right in points {
                    if self.room(right) < 0 {
                        least = self.pair(left, right).min(least);
                    }
                }
            }
        }
        least
    }
}

// The terms of the cells of a small curve, whose first point is at no output, are the least of all corners, at every cap, scale
// and pair of prices.
fn assert_cells<R: Abort>(rt: &R, alloc: Global, points: &[Point]) -> Result<(), Fail>
    requires { AreLawfulPoints points.now }
{
    let curve = Curve::of(alloc, points)?;
    for cap in 0..8_u8 {
        let cap = i64::from(cap);
        for k in [0, 1, 3] {
            for a in [-6, -4, -3, -2, -1, 0, 2] {
                for b in [-5, -1, 0, 3] {
                    let cell = Cell {
                        k,
                        a,
                        b,
                        first: 0,
                        cap,
                    };
                    assert_eq!(rt; term(&curve, k, a, b, cap), Some(cell.least(points)));
                }
            }
        }
    }
    Ok(())
}

// Points, each an output and a cost.
macro_rules! points {
    ($(($mw:expr, $cost:expr)),*) => {
        [$(Point { mw: $mw, cost: $cost }),*]
    };
}

const CONVEX: [Point; 3] = points![(0, 1), (2, 3), (5, 12)];

const ABOVE_THE_HULL: [Point; 3] = points![(0, 0), (2, 9), (5, 4)];

const SHARED_OUTPUTS: [Point; 4] = points![(0, 5), (0, 2), (4, 1), (4, 7)];

const ON_A_LINE: [Point; 3] = points![(0, 0), (1, 2), (3, 6)];

const ALONE: [Point; 1] = points![(0, -3)];

// The term by halving is the least over all points and pairs of points: also where points share an output, lie above
// the hull or have one slope, and where slopes tie with a price.
#[test]
fn terms_are_the_least_of_all_corners(rt: HostRuntime) -> Result<(), Fail> {
    assert_cells(&rt, rt.alloc(), &CONVEX)?;
    assert_cells(&rt, rt.alloc(), &ABOVE_THE_HULL)?;
    assert_cells(&rt, rt.alloc(), &SHARED_OUTPUTS)?;
    assert_cells(&rt, rt.alloc(), &ON_A_LINE)?;
    assert_cells(&rt, rt.alloc(), &ALONE)
}
