//! What the runs of one unit cost, hour by hour.

ghost use Rattle.std.specs.Prelude.{◌≡◌, ℕ, ℤ, ◌-◌, ◌<◌, ◌≤◌, ◌≤ℤ◌, suc, true, Option, Some, IfOk, IfSome, unsigned_abs};
ghost use Rattle.step_functions.specs.Functions.{run_count};
ghost use Rattle.hull_function.specs.Hulls.{IsBounded};
ghost use Rattle.hull_function.specs.Hours.{IsCostsOf};
ghost use Rattle.hull_function.specs.Problems.{IsLawfulProblem, HasHull};
ghost use Rattle.unit_runs.specs.CostThrough.{run_cost};
ghost use Rattle.unit_exact.specs.inside.Choices.{IsCostBelow, IsReached};
ghost use Rattle.unit_exact.specs.inside.Problems.{MAX_SWITCH};
ghost use Rattle.unit_exact.specs.inside.Running.{HasRoom, IsRunning, least_ending};

use crate::output_costs::{OutputCosts, cost};
use hull_function::{Hour, Problem};
use std::alloc::Global;
use uc_model::NoMemory;
use unit_runs::entry_output;

/// The costs of the hours of a run that goes on, and those of one that ends.
#[derive(Drop)]
pub(crate) struct Runs {
    pub(crate) living: OutputCosts,
    pub(crate) ending: OutputCosts,
}

impl Runs {
    /// No runs, with room for functions of `room` runs of one slope. The only error is `NoMemory`.
    pub(crate) fn with_room(alloc: Global, room: usize) -> Result<Runs, NoMemory>
        ensures { IfOk result (λ runs. (runs.living.function.room ≡ room) × (runs.ending.function.room ≡ room)) }
    {
        let living = OutputCosts::with_room(alloc, room)?;
        let ending = OutputCosts::with_room(alloc, room)?;
        Ok(Runs { living, ending })
    }

    /// Begins a run in period `from`, without an hour yet.
    pub(crate) fn begin(&mut self, problem: &Problem, from: usize)
        requires lawful { IsLawfulProblem problem.now.periods problem.now.table.now problem.now.unit.now }
        requires room { HasRoom problem.now.periods problem.now.hull.now self.old }
        ensures { IsRunning problem.now.periods problem.now.table.now problem.now.unit.now problem.now.hull.now from 0 self.new }
    {
        self.living.begin(entry_output(problem.unit, from));
    }

    /// Adds the hour in period `t` to a run that goes on behind it.
    pub(crate) fn go_on(&mut self, problem: &Problem, from: usize, t: usize)
        requires lawful { IsLawfulProblem problem.now.periods problem.now.table.now problem.now.unit.now }
        requires hull { HasHull problem.now.table.now problem.now.unit.now problem.now.hull.now }
        requires order { from ≤ t }
        requires period { t < problem.now.periods }
        requires running { IsRunning problem.now.periods problem.now.table.now problem.now.unit.now problem.now.hull.now from (t - from) self.old }
        ensures { IsRunning problem.now.periods problem.now.table.now problem.now.unit.now problem.now.hull.now from (suc (t - from)) self.new }
    {
        let hour = Hour::at(problem, t, t == from, false);
        self.living.add_hour(problem, &hour);
    }

    /// The least cost of the run whose last hour is in period `t`; the run may go on as before.
    pub(crate) fn cost_to(&mut self, problem: &Problem, from: usize, t: usize) -> Option<i128>
        requires lawful { IsLawfulProblem problem.now.periods problem.now.table.now problem.now.unit.now }
        requires hull { HasHull problem.now.table.now problem.now.unit.now problem.now.hull.now }
        requires order { from ≤ t }
        requires period { t < problem.now.periods }
        requires running { IsRunning problem.now.periods problem.now.table.now problem.now.unit.now problem.now.hull.now from (t - from) self.old }
        ensures running { IsRunning problem.now.periods problem.now.table.now problem.now.unit.now problem.now.hull.now from (t - from) self.new }
        ensures cost { result ≡ run_cost problem.now.periods problem.now.table.now problem.now.unit.now from (suc (t - from)) }
        ensures size { IfSome result (λ cost. unsigned_abs cost ≤ MAX_SWITCH) }
    {
        let hour = Hour::at(problem, t, t == from, true);
        self.ending.copy_from(&self.living);
        self.ending.add_hour(problem, &hour);
        least_at_end(&mut self.ending, problem, t)
    }

    /// That cost, if it may be below the limit; `None` where it is plain that it isn't, or where there is none.
    pub(crate) fn cost_below(
        &mut self,
        problem: &Problem,
        from: usize,
        t: usize,
        limit: &Option<i128>,
    ) -> Option<i128>
        requires lawful { IsLawfulProblem problem.now.periods problem.now.table.now problem.now.unit.now }
        requires hull { HasHull problem.now.table.now problem.now.unit.now problem.now.hull.now }
        requires order { from ≤ t }
        requires period { t < problem.now.periods }
        requires running { IsRunning problem.now.periods problem.now.table.now problem.now.unit.now problem.now.hull.now from (t - from) self.old }
        ensures running { IsRunning problem.now.periods problem.now.table.now problem.now.unit.now problem.now.hull.now from (t - from) self.new }
        ensures cost { IsCostBelow limit.now (run_cost problem.now.periods problem.now.table.now problem.now.unit.now from (suc (t - from))) result }
        ensures size { IfSome result (λ cost. unsigned_abs cost ≤ MAX_SWITCH) }
    {
        if self.reaches(problem, from, t, limit) {
            None
        } else {
            self.cost_to(problem, from, t)
        }
    }

    // Whether it is plain that no run whose last hour is in period `t` costs less than the limit.
    fn reaches(&self, problem: &Problem, from: usize, t: usize, limit: &Option<i128>) -> bool
        requires lawful { IsLawfulProblem problem.now.periods problem.now.table.now problem.now.unit.now }
        requires hull { HasHull problem.now.table.now problem.now.unit.now problem.now.hull.now }
        requires order { from ≤ t }
        requires period { t < problem.now.periods }
        requires running { IsRunning problem.now.periods problem.now.table.now problem.now.unit.now problem.now.hull.now from (t - from) self.now }
        ensures { result ≡ true → IsReached limit.now (run_cost problem.now.periods problem.now.table.now problem.now.unit.now from (suc (t - from))) }
    {
        match limit {
            None => false,
            Some(limit) => self.costs_at_least(problem, from, t, *limit),
        }
    }

    // The same of a limit that is there.
    fn costs_at_least(&self, problem: &Problem, from: usize, t: usize, limit: i128) -> bool
        requires lawful { IsLawfulProblem problem.now.periods problem.now.table.now problem.now.unit.now }
        requires hull { HasHull problem.now.table.now problem.now.unit.now problem.now.hull.now }
        requires order { from ≤ t }
        requires period { t < problem.now.periods }
        requires running { IsRunning problem.now.periods problem.now.table.now problem.now.unit.now problem.now.hull.now from (t - from) self.now }
        ensures { result ≡ true → IsReached (Some limit) (run_cost problem.now.periods problem.now.table.now problem.now.unit.now from (suc (t - from))) }
    {
        if !self.living.is_alive() {
            return true;
        }
        limit <= self.bound_to(problem, from, t)
    }

    // A cost that no run whose last hour is in period `t` is below: the hours before at their least, and that hour at its own
    // least, with all the room that is left as reserve.
    fn bound_to(&self, problem: &Problem, from: usize, t: usize) -> i128
        requires lawful { IsLawfulProblem problem.now.periods problem.now.table.now problem.now.unit.now }
        requires hull { HasHull problem.now.table.now problem.now.unit.now problem.now.hull.now }
        requires order { from ≤ t }
        requires period { t < problem.now.periods }
        requires running { IsRunning problem.now.periods problem.now.table.now problem.now.unit.now problem.now.hull.now from (t - from) self.now }
        requires alive { self.now.living.alive ≡ true }
        ensures { (v : ℤ) → run_cost problem.now.periods problem.now.table.now problem.now.unit.now from (suc (t - from)) ≡ Some v → result ≤ℤ v }
    {
        let last = Hour::at(problem, t, t == from, true);
        let output = problem.hull.least_place(i128::from(last.price));
        let own = cost(problem.hull, &last, output) + last.fixed;
        self.living.function.least().value + own
    }
}

// The least of the costs of a run whose last hour is in period `t`: before a stop in the horizon the output can fall to
// nothing.
fn least_at_end(costs: &mut OutputCosts, problem: &Problem, t: usize) -> Option<i128>
    requires lawful { IsLawfulProblem problem.now.periods problem.now.table.now problem.now.unit.now }
    requires hull { HasHull problem.now.table.now problem.now.unit.now problem.now.hull.now }
    requires period { t < problem.now.periods }
    requires room { run_count costs.old.function < costs.old.function.room }
    ensures least { (cost : ℤ → Option ℤ) → IsCostsOf costs.old.alive costs.old.function cost
        → result ≡ least_ending problem.now.periods problem.now.unit.now (suc t) cost }
    ensures size { (size : ℕ) → (costs.old.alive ≡ true → IsBounded costs.old.function size) → IfSome result (λ v. unsigned_abs v ≤ size) }
    ensures room { costs.new.function.room ≡ costs.old.function.room }
{
    let unit = problem.unit;
    if t + 1 < problem.periods {
        costs.least_between(-unit.ru, unit.rd)
    } else {
        costs.least_between(0, problem.hull.last())
    }
}
