//! What is left of a run, by the output before it: the hours of the run are added from its end back.

ghost use Rattle.std.specs.Prelude.{◌≡◌, ℤ, pos, suc, ◌+◌, ◌*◌, ◌<◌, ◌≤◌, ◌≤ℤ◌, IfOk, unsigned_abs};
ghost use Rattle.step_functions.specs.Functions.{IsPlace, last_place, run_count, value_at};
ghost use Rattle.state_walk.specs.inside.CostToEnd.{highest_end as highest_of, is_between, lowest_end as lowest_of};
ghost use Rattle.state_walk.specs.inside.Problems.{IsLawful, MAX_POWER};
ghost use Rattle.state_walk.specs.inside.Rests.{HasRoom, IsHoursFrom, IsRest};

use hull_function::{Hour, Problem, add_outputs, add_reserve, spread};
use std::alloc::Global;
use step_functions::ConvexFunction;
use uc_model::NoMemory;

/// The least costs of the last hours of a run by the output before them, as a convex function; where it isn't alive no
/// output lets the run go on.
#[derive(Drop)]
pub(crate) struct Rest {
    pub(crate) function: ConvexFunction,
    pub(crate) alive: bool,
}

impl Rest {
    /// No costs, with room for `room` runs of one slope. The only error is `NoMemory`.
    pub(crate) fn with_room(alloc: Global, room: usize) -> Result<Rest, NoMemory>
        ensures { IfOk result (λ rest. rest.function.room ≡ room) }
    {
        let function = ConvexFunction::with_room(alloc, room)?;
        Ok(Rest {
            function,
            alive: false,
        })
    }

    /// Makes them those of no hours, of a run that ends before period `t`.
    pub(crate) fn end(&mut self, problem: &Problem, t: usize)
        requires lawful { IsLawful problem.now.periods problem.now.table.now problem.now.unit.now problem.now.hull.now }
        requires room { HasRoom problem.now.periods problem.now.hull.now self.old.function }
        ensures { IsRest problem.now.periods problem.now.table.now problem.now.unit.now problem.now.hull.now 0 t self.new }
    {
        set_level(
            &mut self.function,
            lowest_end(problem, t),
            highest_end(problem, t),
        );
        self.alive = true;
    }

    /// Adds the hour in period `t` to the `n` hours behind it, by the output in it.
    pub(crate) fn add_hour(&mut self, problem: &Problem, t: usize, n: usize)
        requires lawful { IsLawful problem.now.periods problem.now.table.now problem.now.unit.now problem.now.hull.now }
        requires within { t + n < problem.now.periods }
        requires rest { IsRest problem.now.periods problem.now.table.now problem.now.unit.now problem.now.hull.now n (suc t) self.old }
        ensures { IsHoursFrom problem.now.periods problem.now.table.now problem.now.unit.now problem.now.hull.now n t self.new }
    {
        if self.alive {
            let hour = Hour::at(problem, t, false, n == 0);
            self.alive = add_outputs(&mut self.function, problem.hull, &hour);
        }
    }

    /// Goes on from the output in the first of the hours to the output before it.
    pub(crate) fn go_back(&mut self, problem: &Problem, t: usize, n: usize)
        requires lawful { IsLawful problem.now.periods problem.now.table.now problem.now.unit.now problem.now.hull.now }
        requires within { t + n < problem.now.periods }
        requires hours { IsHoursFrom problem.now.periods problem.now.table.now problem.now.unit.now problem.now.hull.now n t self.old }
        ensures { IsRest problem.now.periods problem.now.table.now problem.now.unit.now problem.now.hull.now (suc n) t self.new }
    {
        if self.alive {
            let hour = Hour::at(problem, t, false, n == 0);
            spread(&mut self.function, problem.unit.rd, problem.unit.ru);
            add_reserve(&mut self.function, problem.unit, &hour);
        }
    }
}

/// Whether a run with this output in its last hour may end before period `t`.
pub(crate) fn may_end(problem: &Problem, t: usize, output: i64) -> bool
    requires lawful { IsLawful problem.now.periods problem.now.table.now problem.now.unit.now problem.now.hull.now }
    ensures { result ≡ is_between (lowest_of problem.now.periods problem.now.unit.now t) (highest_of problem.now.periods problem.now.unit.now t) output }
{
    lowest_end(problem, t) <= output && output <= highest_end(problem, t)
}

// The least output, and the greatest, that a run can have before it ends before period t: a stop in the horizon has it fall
// to nothing.
fn lowest_end(problem: &Problem, t: usize) -> i64
    requires lawful { IsLawful problem.now.periods problem.now.table.now problem.now.unit.now problem.now.hull.now }
    ensures { result ≡ lowest_of problem.now.periods problem.now.unit.now t }
{
    if t < problem.periods {
        -problem.unit.ru
    } else {
        0
    }
}

fn highest_end(problem: &Problem, t: usize) -> i64
    requires lawful { IsLawful problem.now.periods problem.now.table.now problem.now.unit.now problem.now.hull.now }
    ensures { result ≡ highest_of problem.now.periods problem.now.unit.now t }
{
    if t < problem.periods {
        problem.unit.rd
    } else {
        problem.hull.last()
    }
}

// Makes it the function that is 0 from `low` to `high`.
fn set_level(function: &mut ConvexFunction, low: i64, high: i64)
    requires order { low ≤ℤ high }
    requires low { unsigned_abs low ≤ 2 * MAX_POWER }
    requires high { unsigned_abs high ≤ 2 * MAX_POWER }
    requires room { 0 < function.old.room }
    ensures first { function.new.first ≡ low }
    ensures last { last_place function.new ≡ high }
    ensures value { (p : ℤ) → IsPlace function.new p → value_at function.new p ≡ pos 0 }
    ensures pieces { run_count function.new ≤ 1 }
    ensures room { function.new.room ≡ function.old.room }
{
    function.set_point(low, 0);
    if low < high {
        function.extend((high - low) as u64, 0);
    }
}
