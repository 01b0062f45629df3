//! The runs that end before one period, by the period in which they begin.

ghost use Rattle.std.specs.Prelude.{◌≡◌, ℕ, ℤ, ◌+◌, ◌*◌, ◌<◌, ◌≤◌, ◌≤ℤ◌, suc, true, Option, IfOk, length, unsigned_abs};
ghost use Rattle.uc_model.specs.Prelude.{IsLawfulThermal};
ghost use Rattle.step_functions.specs.Functions.{run_count};
ghost use Rattle.hull_function.specs.Hours.{IsCostsOf, IsHourAt, IsSizedHour, MAX_RUN, with_output};
ghost use Rattle.hull_function.specs.Hulls.{IsBounded};
ghost use Rattle.unit_runs.specs.Runs.{entry_output as output_at_entry};
ghost use Rattle.unit_runs.specs.RunsToGo.{run_until};
ghost use Rattle.state_walk.specs.inside.CostToEnd.{cost_to_end, hours_after};
ghost use Rattle.state_walk.specs.inside.ExactTable.{AreRunsTo, cost_at};
ghost use Rattle.state_walk.specs.inside.Problems.{IsLawful, Table, MAX_POWER};
ghost use Rattle.state_walk.specs.inside.Rests.{HasRoom, HaveRoom, IsRest};

use crate::rest::{Rest, may_end};
use hull_function::{Hour, Problem};
use std::alloc::Global;
use step_functions::ConvexFunction;
use uc_model::{NoMemory, Thermal};
use unit_runs::entry_output;

/// The memory for the runs that end before a period: what is left of them, and a function to cut.
#[derive(Drop)]
pub(crate) struct Endings {
    pub(crate) rest: Rest,
    pub(crate) cut: ConvexFunction,
}

impl Endings {
    /// With room for functions of `room` runs of one slope. The only error is `NoMemory`.
    pub(crate) fn with_room(alloc: Global, room: usize) -> Result<Endings, NoMemory>
        ensures { IfOk result (λ endings. (endings.rest.function.room ≡ room) × (endings.cut.room ≡ room)) }
    {
        let rest = Rest::with_room(alloc, room)?;
        let cut = ConvexFunction::with_room(alloc, room)?;
        Ok(Endings { rest, cut })
    }

    /// Writes what each run costs that ends before period `t`, by the time since which the unit is on then.
    pub(crate) fn fill(&mut self, costs: &mut [Option<i128>], problem: &Problem, t: usize)
        requires lawful { IsLawful problem.now.periods problem.now.table.now problem.now.unit.now problem.now.hull.now }
        requires room { HaveRoom problem.now.periods problem.now.hull.now self.old }
        requires period { t ≤ problem.now.periods }
        requires count { t < length costs.old }
        ensures room { HaveRoom problem.now.periods problem.now.hull.now self.new }
        ensures count { length costs.new ≡ length costs.old }
        ensures runs { AreRunsTo problem.now.periods problem.now.table.now problem.now.unit.now t costs.new }
    {
        // Invariant: of a run that ends before period t the last n hours are left, and the costs of the shorter ones are written.
        self.rest.end(problem, t);
        for n in 0..t {
            costs[t - n] = self.begin_before(problem, t - n - 1, n);
        }
        costs[0] = earliest(costs, problem, t);
    }

    // What the run costs that begins in period `t`, with `n` hours behind it; what is left has that hour then too.
    fn begin_before(&mut self, problem: &Problem, t: usize, n: usize) -> Option<i128>
        requires lawful { IsLawful problem.now.periods problem.now.table.now problem.now.unit.now problem.now.hull.now }
        requires within { t + n < problem.now.periods }
        requires rest { IsRest problem.now.periods problem.now.table.now problem.now.unit.now problem.now.hull.now n (suc t) self.old.rest }
        requires room { HasRoom problem.now.periods problem.now.hull.now self.old.cut }
        ensures cost { result ≡ cost_to_end problem.now.periods problem.now.table.now problem.now.unit.now (suc n) t true (output_at_entry problem.now.unit.now t) }
        ensures rest { IsRest problem.now.periods problem.now.table.now problem.now.unit.now problem.now.hull.now (suc n) t self.new.rest }
        ensures room { HasRoom problem.now.periods problem.now.hull.now self.new.cut }
    {
        self.rest.add_hour(problem, t, n);
        let hour = Hour::at(problem, t, true, n == 0);
        let cost = begun(
            &self.rest,
            &mut self.cut,
            problem.unit,
            &hour,
            entry_output(problem.unit, t),
        );
        self.rest.go_back(problem, t, n);
        cost
    }
}

// The least cost of a run that begins with this hour behind the output `entry`, by that of the hours from it on. It writes
// over the function `cut`.
fn begun(
    hours: &Rest,
    cut: &mut ConvexFunction,
    unit: &Thermal,
    hour: &Hour,
    entry: i64,
) -> Option<i128>
    requires unit { IsLawfulThermal unit.now }
    requires hour { IsSizedHour hour.now }
    requires entry { unsigned_abs entry ≤ 2 * MAX_POWER }
    requires size { hours.now.alive ≡ true → IsBounded hours.now.function MAX_RUN }
    requires room { run_count hours.now.function < cut.old.room }
    ensures cost { (table : Table) (t : ℕ) (cap : ℤ) (behind : ℤ → Option ℤ)
        → IsHourAt table unit.now t hour.now → hour.now.cap ≤ℤ cap
        → IsCostsOf hours.now.alive hours.now.function (with_output table unit.now t cap behind)
        → result ≡ hours_after table unit.now t hour.now.cap (with_output table unit.now t hour.now.cap behind) entry }
    ensures room { cut.new.room ≡ cut.old.room }
{
    if !hours.alive {
        return None;
    }
    let most = hour.cap.min(entry + unit.ru);
    cut.copy_from(&hours.function);
    if !cut.cut(entry - unit.rd, most) {
        return None;
    }
    Some(cut.least().value - i128::from(hour.worth) * i128::from(most))
}

// What the run costs that ends before period `t` of a unit that is on since before the first period: that of one that begins in
// that period, if it has an hour.
fn earliest(costs: &[Option<i128>], problem: &Problem, t: usize) -> Option<i128>
    requires lawful { IsLawful problem.now.periods problem.now.table.now problem.now.unit.now problem.now.hull.now }
    requires count { t < length costs.now }
    requires later { 0 < t → cost_at costs.now 1 ≡ run_until problem.now.periods problem.now.table.now problem.now.unit.now 1 t }
    ensures { result ≡ run_until problem.now.periods problem.now.table.now problem.now.unit.now 0 t }
{
    if t > 0 {
        costs[1]
    } else if may_end(problem, 0, entry_output(problem.unit, 0)) {
        Some(0)
    } else {
        None
    }
}
