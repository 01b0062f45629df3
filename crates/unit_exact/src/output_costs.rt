//! The least costs of the hours of a run, by the output of the last one.

ghost use Rattle.std.specs.Prelude.{◌≡◌, ℕ, ℤ, pos, ◌+◌, ◌*◌, ◌<◌, ◌≤◌, ◌+ℤ◌, ◌-ℤ◌, ◌*ℤ◌, Option, IfOk, IfSome, None, Some, true, unsigned_abs, if◌then◌else◌};
ghost use Rattle.std.specs.Ordering.{int_eq};
ghost use Rattle.uc_model.specs.Prelude.{IsLawfulThermal};
ghost use Rattle.step_functions.specs.Functions.{IsPlace, run_count, value_at};
ghost use Rattle.hull_function.specs.Hours.{IsCostsOf, IsHourAt, IsNear, IsSizedHour, MAX_HOUR};
ghost use Rattle.hull_function.specs.Hulls.{IsBounded, IsHull, IsHullFunction};
ghost use Rattle.hull_function.specs.Problems.{Table, MAX_POWER};
ghost use Rattle.unit_runs.specs.CostThrough.{hour_after, least_between as least_of};
ghost use Rattle.unit_exact.specs.inside.Problems.{MAX_SWITCH};

use hull_function::{Hour, Problem, add_outputs, add_reserve, spread};
use std::alloc::Global;
use step_functions::ConvexFunction;
use uc_model::NoMemory;

/// The least costs by output, as a convex function; where it isn't alive there are none.
#[derive(Drop)]
pub(crate) struct OutputCosts {
    pub(crate) function: ConvexFunction,
    pub(crate) alive: bool,
}

impl OutputCosts {
    /// No costs, with room for `room` runs. The only error is `NoMemory`.
    pub(crate) fn with_room(alloc: Global, room: usize) -> Result<OutputCosts, NoMemory>
        ensures { IfOk result (λ costs. costs.function.room ≡ room) }
    {
        let function = ConvexFunction::with_room(alloc, room)?;
        Ok(OutputCosts {
            function,
            alive: false,
        })
    }

    /// Whether there are any.
    pub(crate) fn is_alive(&self) -> bool
        ensures { result ≡ self.now.alive }
    {
        self.alive
    }

    /// Makes them those of no hours behind this output.
    pub(crate) fn begin(&mut self, output: i64)
        requires { unsigned_abs output ≤ 2 * MAX_POWER }
        ensures costs { IsCostsOf self.new.alive self.new.function (λ p. if int_eq p output then Some (pos 0) else None) }
        ensures size { IsBounded self.new.function 0 }
        ensures near { IsNear 2 self.new.function }
        ensures pieces { run_count self.new.function ≡ 0 }
        ensures room { self.new.function.room ≡ self.old.function.room }
    {
        self.function.set_point(output, 0);
        self.alive = true;
    }

    /// Makes them those of other hours.
    pub(crate) fn copy_from(&mut self, other: &OutputCosts)
        requires room { run_count other.now.function ≤ self.old.function.room }
        ensures alive { self.new.alive ≡ other.now.alive }
        ensures function { self.new.function ≡ record other.now.function { room = self.old.function.room } }
    {
        self.alive = other.alive;
        self.function.copy_from(&other.function);
    }

    /// Makes them those with one more hour. It takes a run for each of the hull's, and two more.
    pub(crate) fn add_hour(&mut self, problem: &Problem, hour: &Hour)
        requires unit { IsLawfulThermal problem.now.unit.now }
        requires hour { IsSizedHour hour.now }
        requires hull { IsHullFunction problem.now.hull.now }
        requires near { self.old.alive ≡ true → IsNear 2 self.old.function }
        requires size { self.old.alive ≡ true → IsBounded self.old.function MAX_SWITCH }
        requires room { run_count self.old.function + run_count problem.now.hull.now + 2 < self.old.function.room }
        ensures costs { (table : Table) (t : ℕ) (before : ℤ → Option ℤ)
            → IsHull problem.now.unit.now.points table.k problem.now.hull.now → IsHourAt table problem.now.unit.now t hour.now
            → IsCostsOf self.old.alive self.old.function before
            → IsCostsOf self.new.alive self.new.function (hour_after table problem.now.unit.now t hour.now.cap before) }
        ensures size { (size : ℕ) → (self.old.alive ≡ true → IsBounded self.old.function size)
            → self.new.alive ≡ true → IsBounded self.new.function (size + MAX_HOUR) }
        ensures near { self.new.alive ≡ true → IsNear 2 self.new.function }
        ensures pieces { run_count self.new.function ≤ run_count self.old.function + run_count problem.now.hull.now + 2 }
        ensures room { self.new.function.room ≡ self.old.function.room }
    {
        if self.alive {
            add_reserve(&mut self.function, problem.unit, hour);
            spread(&mut self.function, problem.unit.ru, problem.unit.rd);
            self.alive = add_outputs(&mut self.function, problem.hull, hour);
        }
    }

    /// The least of them at the outputs from `low` to `high`, which are all that is left then.
    pub(crate) fn least_between(&mut self, low: i64, high: i64) -> Option<i128>
        requires low { unsigned_abs low ≤ 2 * MAX_POWER }
        requires high { unsigned_abs high ≤ 2 * MAX_POWER }
        requires room { run_count self.old.function < self.old.function.room }
        ensures least { (cost : ℤ → Option ℤ) → IsCostsOf self.old.alive self.old.function cost → result ≡ least_of low high cost }
        ensures size { (size : ℕ) → (self.old.alive ≡ true → IsBounded self.old.function size) → IfSome result (λ v. unsigned_abs v ≤ size) }
        ensures room { self.new.function.room ≡ self.old.function.room }
    {
        if self.alive && self.function.cut(low, high) {
            Some(self.function.least().value)
        } else {
            None
        }
    }
}

/// What an output costs in the hour, with all the room that is left as reserve, beside the minimum output.
pub(crate) fn cost(hull: &ConvexFunction, hour: &Hour, output: i64) -> i128
    requires hull { IsHullFunction hull.now }
    requires hour { IsSizedHour hour.now }
    requires output { IsPlace hull.now output }
    ensures value { result ≡ value_at hull.now output +ℤ hour.now.price *ℤ output -ℤ hour.now.worth *ℤ hour.now.cap }
    ensures size { unsigned_abs result ≤ MAX_HOUR }
{
    let earned = i128::from(hour.worth) * i128::from(hour.cap);
    hull.at(output) + i128::from(hour.price) * i128::from(output) - earned
}
