//! The steps by which an hour is added to what others cost by an output, as a convex function: its output, the ramp, its reserve.

ghost use Rattle.std.specs.Prelude.{◌≡◌, ℕ, ℤ, pos, ◌+◌, ◌<◌, ◌≤◌, ◌+ℤ◌, ◌-ℤ◌, ◌*ℤ◌, ◌≤ℤ◌, true, Option, Some};
ghost use Rattle.uc_model.specs.Prelude.{IsLawfulThermal, IsLimit};
ghost use Rattle.dual_model.specs.Prelude.{total_of};
ghost use Rattle.step_functions.specs.Functions.{IsPlace, last_place, run_count, value_at};
ghost use Rattle.unit_runs.specs.CostThrough.{least_between, reserve_cost};
ghost use Rattle.hull_function.specs.Hours.{IsCostsOf, IsHourAt, IsNear, IsSizedHour, MAX_OUTPUT_COST, MAX_RESERVE, MAX_RUN, with_output};
ghost use Rattle.hull_function.specs.Hulls.{IsBounded, IsHull, IsHullFunction};
ghost use Rattle.hull_function.specs.Problems.{Table, Thermal};

use crate::hour::Hour;
use step_functions::ConvexFunction;
use uc_model::Thermal;

/// Keeps of the costs those at outputs that the hour may have, adds what such an output costs in it beside the reserve, and
/// answers whether there are any. It takes a run for each of the hull's.
pub fn add_outputs(function: &mut ConvexFunction, hull: &ConvexFunction, hour: &Hour) -> bool
    requires hour { IsSizedHour hour.now }
    requires hull { IsHullFunction hull.now }
    requires size { IsBounded function.old MAX_RUN }
    requires room { run_count function.old + run_count hull.now < function.old.room }
    ensures costs { (table : Table) (unit : Thermal) (t : ℕ) (others : ℤ → Option ℤ)
        → IsHull unit.points table.k hull.now → IsHourAt table unit t hour.now → IsCostsOf true function.old others
        → IsCostsOf result function.new (with_output table unit t hour.now.cap others) }
    ensures size { (size : ℕ) → IsBounded function.old size → result ≡ true → IsBounded function.new (size + MAX_OUTPUT_COST) }
    ensures near { result ≡ true → IsNear 2 function.new }
    ensures pieces { run_count function.new ≤ run_count function.old + run_count hull.now }
    ensures room { function.new.room ≡ function.old.room }
{
    if !function.cut(0, hour.cap.min(hull.last())) {
        return false;
    }
    add_output(function, hull, hour);
    true
}

// Adds what output costs in an hour without what reserve earns beside it.
fn add_output(function: &mut ConvexFunction, hull: &ConvexFunction, hour: &Hour)
    requires hour { IsSizedHour hour.now }
    requires hull { IsHullFunction hull.now }
    requires low { pos 0 ≤ℤ function.old.first }
    requires high { last_place function.old ≤ℤ last_place hull.now }
    requires size { IsBounded function.old MAX_RUN }
    requires room { run_count function.old + run_count hull.now < function.old.room }
    ensures first { function.new.first ≡ function.old.first }
    ensures last { last_place function.new ≡ last_place function.old }
    ensures value { (p : ℤ) → IsPlace function.new p
        → value_at function.new p ≡ value_at function.old p +ℤ value_at hull.now p +ℤ hour.now.price *ℤ p +ℤ hour.now.fixed }
    ensures pieces { run_count function.new ≤ run_count function.old + run_count hull.now }
    ensures room { function.new.room ≡ function.old.room }
{
    function.add(hull);
    function.add_slope(i128::from(hour.price));
    function.add_constant(hour.fixed);
}

/// Makes costs by an output those by the one in the next hour: the least at the outputs that lie at most `up` watts below it,
/// and `down` watts above. It takes a run.
pub fn spread(function: &mut ConvexFunction, up: i64, down: i64)
    requires up { IsLimit up }
    requires down { IsLimit down }
    requires near { IsNear 3 function.old }
    requires room { run_count function.old < function.old.room }
    ensures costs { (cost : ℤ → Option ℤ) → IsCostsOf true function.old cost
        → IsCostsOf true function.new (λ p. least_between (p -ℤ up) (p +ℤ down) cost) }
    ensures size { (size : ℕ) → IsBounded function.old size → IsBounded function.new size }
    ensures near { IsNear 4 function.new }
    ensures pieces { run_count function.new ≤ run_count function.old + 1 }
    ensures room { function.new.room ≡ function.old.room }
{
    function.ramp(up, down);
}

/// Adds what reserve costs, by the output before an hour: no less is earned than the most that both outputs leave room for. It
/// takes a run.
pub fn add_reserve(function: &mut ConvexFunction, unit: &Thermal, hour: &Hour)
    requires unit { IsLawfulThermal unit.now }
    requires hour { IsSizedHour hour.now }
    requires near { IsNear 4 function.old }
    requires size { IsBounded function.old MAX_RUN }
    requires room { run_count function.old < function.old.room }
    ensures costs { (table : Table) (t : ℕ) (cost : ℤ → Option ℤ) → IsHourAt table unit.now t hour.now → IsCostsOf true function.old cost
        → IsCostsOf true function.new (λ q. total_of (cost q) (Some (reserve_cost table unit.now t hour.now.cap q))) }
    ensures size { (size : ℕ) → IsBounded function.old size → IsBounded function.new (size + MAX_RESERVE) }
    ensures near { (times : ℕ) → IsNear times function.old → IsNear times function.new }
    ensures pieces { run_count function.new ≤ run_count function.old + 1 }
    ensures room { function.new.room ≡ function.old.room }
{
    let worth = i128::from(hour.worth);
    function.add_shortfall(hour.cap - unit.ru, worth);
    function.add_constant(-(worth * i128::from(hour.cap)));
}
