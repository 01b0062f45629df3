//! The prices and the cap of an hour.

ghost use Rattle.std.specs.Prelude.{◌≡◌, ◌<◌};
ghost use Rattle.uc_model.specs.Prelude.{cell_cap};
ghost use Rattle.hull_function.specs.Hours.{IsHourAt, IsSizedHour};
ghost use Rattle.hull_function.specs.Problems.{IsLawfulProblem};

use crate::problem::Problem;
use uc_model::scaled;

/// An hour of a run by its prices: what it costs by its output, and what its reserve earns.
#[derive(Clone, Copy)]
pub struct Hour {
    /// The most output above the minimum and reserve together.
    pub cap: i64,
    /// What a watt of reserve earns.
    pub worth: i64,
    /// What a watt of output costs beside L, and what the minimum output costs.
    pub price: i64,
    pub fixed: i128,
}

impl Hour {
    /// The hour of a run in period `t`, by whether the run begins with it, and whether it ends with it.
    pub fn at(problem: &Problem, t: usize, first: bool, last: bool) -> Hour
        requires lawful { IsLawfulProblem problem.now.periods problem.now.table.now problem.now.unit.now }
        requires period { t < problem.now.periods }
        ensures at { IsHourAt problem.now.table.now problem.now.unit.now t result }
        ensures cap { result.cap ≡ cell_cap problem.now.periods problem.now.unit.now t first last }
        ensures sized { IsSizedHour result }
    {
        let unit = problem.unit;
        let pi = problem.table.pi()[t];
        let worth = problem.table.mu()[t].max(0);
        Hour {
            cap: unit.cell_cap(problem.periods, t, first, last),
            worth,
            price: worth - pi,
            fixed: -scaled(pi, unit.pmin),
        }
    }
}
