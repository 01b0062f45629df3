//! The exact walk: the least value by runs of one unit's patterns, period by period from the last to the first. What is left of
//! a run is found from its end back.

ghost use Rattle.std.specs.Prelude.{◌≡◌, ℕ, pos, suc, ◌+◌, ◌-◌, ◌<◌, ◌≤◌, false, true, None, Some, IfOk, MatchOption, length, if◌then◌else◌};
ghost use Rattle.cost_curves.specs.LowerHull.{IsLowerHull};
ghost use Rattle.uc_model.specs.Prelude.{IsLawfulInstance, IsLawfulThermal, thermal_count, thermal_unit};
ghost use Rattle.dual_model.specs.Prelude.{IsWithin, MAX_COST_TO_GO, HasNoUnitSchedule, IsExactUnitValue, IsFixOf, may_be_off, HasSizeOf, IsWithinLimits, lesser_of, total_of};
ghost use Rattle.dual_model.specs.declared.node.Node.{Node};
ghost use Rattle.hull_function.specs.Hulls.{IsScale};
ghost use Rattle.unit_runs.specs.RunsToGo.{least_runs, may_stay, run_until, switch_cost};
ghost use Rattle.state_walk.specs.inside.ExactTable.{AreRunsTo, IsExactTable, cost_at, exact_entry};
ghost use Rattle.state_walk.specs.inside.Problems.{IsLawful};
ghost use Rattle.state_walk.specs.inside.Rests.{HaveRoom};
ghost use Rattle.state_walk.specs.inside.WalkTable.{entry_at};

use crate::endings::Endings;
use crate::moves::stop_since;
use crate::walk::{CostToGo, lesser, total};
use cost_curves::Curve;
use dual_model::moves::holds_initially;
use dual_model::{Fix, Table};
use hull_function::Problem;
use start_costs::sigma;
use std::alloc::Global;
use std::marker::Model;
use step_functions::ConvexFunction;
use uc_model::limits::{MAX_PERIODS, MAX_POINTS};
use uc_model::{Instance, NoMemory, scaled};

// Nothing is known yet.
const NOTHING: CostToGo = CostToGo {
    on: None,
    off: None,
};

// The entries after a period: of the state that is kept, and of one that begins in it.
#[derive(Clone, Copy)]
struct Later {
    kept: CostToGo,
    switched: CostToGo,
}

/// The memory of exact walks over a number of periods, of units with at most so many points, which contracts see as these
/// two numbers.
#[derive(Drop)]
pub struct ExactWalk {
    hull: ConvexFunction,
    endings: Endings,
    runs: Vec<Option<i128>>,
    values: Vec<CostToGo>,
}

impl Model for ExactWalk {
    ghost use Rattle.state_walk.specs.Sizes.{Size};

    ghost Value = { Size };

    ghost use Rattle.std.specs.Prelude.{◌≡◌, ◌-◌, ◌≤◌, length};
    ghost use Rattle.state_walk.specs.inside.Rests.{HaveRoom};

    ghost view = { λ walk. record { periods = length walk.values.items - 1; points = walk.hull.room } };

    ghost invariant = { λ walk. (1 ≤ length walk.values.items) × (length walk.runs.items ≡ length walk.values.items)
        × HaveRoom (length walk.values.items - 1) walk.hull walk.endings };
}

impl ExactWalk {
    /// The memory for `periods` periods and units of at most `points` points. The only error is `NoMemory`.
    pub fn new(alloc: Global, periods: usize, points: usize) -> Result<ExactWalk, NoMemory>
        requires periods { periods ≤ MAX_PERIODS }
        requires points { points ≤ MAX_POINTS }
        ensures { IfOk result (λ walk. walk ≡ record { periods = periods; points = points }) }
    {
        let hull = ConvexFunction::with_room(alloc, points)?;
        let endings = Endings::with_room(alloc, (periods + 2) * (points + 2))?;
        let runs = vec![in alloc; None; periods + 1]?;
        let values = vec![in alloc; NOTHING; periods + 1]?;
        Ok(ExactWalk {
            hull,
            endings,
            runs,
            values,
        })
    }
}

/// The exact value of unit `g` (from 0) of the instance at the table, by what `fix` decides of it, in 1/K micro-dollars by the
/// table's scale K; `None` exactly where the unit has no schedule of its own. Takes no memory, and a time that grows as the
/// square of the number of periods and the length of the functions.
pub fn least_exact(
    walk: &mut ExactWalk,
    instance: &Instance,
    curve: &Curve,
    table: &Table,
    g: u32,
    fix: &Fix,
) -> Option<i128>
    requires lawful { IsLawfulInstance instance.now }
    requires unit { g < thermal_count instance.now }
    requires curve { IsLowerHull (thermal_unit instance.now g).points curve.now }
    requires table { HasSizeOf instance.now table.now }
    requires limits { IsWithinLimits table.now }
    requires periods { walk.old.periods ≡ instance.now.periods }
    requires points { length (thermal_unit instance.now g).points ≤ walk.old.points }
    ensures kept { walk.new ≡ walk.old }
    ensures value { (node : Node) → IsFixOf instance.now.periods node g fix.now
        → MatchOption result (HasNoUnitSchedule instance.now node g) (IsExactUnitValue instance.now node table.now g) }
    ensures size { IsWithin MAX_COST_TO_GO result }
{
    let unit = &instance.thermal.as_slice()[g as usize];
    hull_function::fill(&mut walk.hull, curve, unit.points.as_slice(), table.k());
    let problem = Problem {
        periods: instance.periods as usize,
        table,
        unit,
        fix,
        hull: &walk.hull,
    };
    least_cost(
        walk.values.as_mut_slice(),
        walk.runs.as_mut_slice(),
        &mut walk.endings,
        &problem,
    )
}

// The least cost of a unit from the beginning on, by the table `values`, which it fills.
fn least_cost(
    values: &mut [CostToGo],
    runs: &mut [Option<i128>],
    endings: &mut Endings,
    problem: &Problem,
) -> Option<i128>
    requires lawful { IsLawful problem.now.periods problem.now.table.now problem.now.unit.now problem.now.hull.now }
    requires room { HaveRoom problem.now.periods problem.now.hull.now endings.old }
    requires values { length values.old ≡ problem.now.periods + 1 }
    requires runs { length runs.old ≡ problem.now.periods + 1 }
    ensures room { HaveRoom problem.now.periods problem.now.hull.now endings.new }
    ensures least { result ≡ least_runs problem.now.periods problem.now.table.now problem.now.unit.now problem.now.fix.now }
{
    let periods = problem.periods;
    endings.fill(runs, problem, periods);
    end(values, runs);
    // Invariant: the table is that before period `periods` - back.
    for back in 0..periods {
        let t = periods - 1 - back;
        fill_stops(endings, runs, problem, t);
        step(values, runs, problem, t);
    }
    let first = values[0];
    if problem.unit.on0 {
        first.on
    } else {
        first.off
    }
}

// Writes what each run costs that a stop in period `t` ends, where the unit may be off in it.
fn fill_stops(endings: &mut Endings, runs: &mut [Option<i128>], problem: &Problem, t: usize)
    requires lawful { IsLawful problem.now.periods problem.now.table.now problem.now.unit.now problem.now.hull.now }
    requires room { HaveRoom problem.now.periods problem.now.hull.now endings.old }
    requires period { t < problem.now.periods }
    requires count { length runs.old ≡ problem.now.periods + 1 }
    ensures room { HaveRoom problem.now.periods problem.now.hull.now endings.new }
    ensures count { length runs.new ≡ length runs.old }
    ensures runs { may_be_off problem.now.unit.now problem.now.fix.now t ≡ true
        → AreRunsTo problem.now.periods problem.now.table.now problem.now.unit.now t runs.new }
{
    if problem.fix.may_be_off(problem.unit, t) {
        endings.fill(runs, problem, t);
    }
}

// The table after the last period, by the runs that last until then.
fn end(values: &mut [CostToGo], runs: &[Option<i128>])
    requires { length values.old ≡ length runs.now }
    ensures count { length values.new ≡ length values.old }
    ensures entries { (since : ℕ) → since < length runs.now
        → entry_at values.new since ≡ record { on = cost_at runs.now since; off = Some (pos 0) } }
{
    for since in 0..runs.len() {
        values[since] = CostToGo {
            on: runs[since],
            off: Some(0),
        };
    }
}

// The table before period t, from the one after it and from what the runs cost that end there.
fn step(values: &mut [CostToGo], runs: &[Option<i128>], problem: &Problem, t: usize)
    requires lawful { IsLawful problem.now.periods problem.now.table.now problem.now.unit.now problem.now.hull.now }
    requires values { length values.old ≡ problem.now.periods + 1 }
    requires count { length runs.now ≡ problem.now.periods + 1 }
    requires period { t < problem.now.periods }
    requires runs { may_be_off problem.now.unit.now problem.now.fix.now t ≡ true
        → AreRunsTo problem.now.periods problem.now.table.now problem.now.unit.now t runs.now }
    requires later { IsExactTable problem.now.periods problem.now.table.now problem.now.unit.now problem.now.fix.now (problem.now.periods - suc t) (suc t) values.old }
    ensures count { length values.new ≡ length values.old }
    ensures table { IsExactTable problem.now.periods problem.now.table.now problem.now.unit.now problem.now.fix.now (problem.now.periods - t) t values.new }
{
    let switched = values[t + 1];
    for since in 0..t + 1 {
        let later = Later {
            kept: values[since],
            switched,
        };
        values[since] = entry_before(problem, t, since, runs[since], &later);
    }
}

// The entry before period `t` of a time since which a state lasts, from what the run costs then that a stop ends.
fn entry_before(
    problem: &Problem,
    t: usize,
    since: usize,
    run: Option<i128>,
    later: &Later,
) -> CostToGo
    requires lawful { IsLawful problem.now.periods problem.now.table.now problem.now.unit.now problem.now.hull.now }
    requires period { t < problem.now.periods }
    requires past { since ≤ t }
    requires run { may_be_off problem.now.unit.now problem.now.fix.now t ≡ true
        → run ≡ run_until problem.now.periods problem.now.table.now problem.now.unit.now since t }
    requires kept { later.now.kept ≡ exact_entry problem.now.periods problem.now.table.now problem.now.unit.now problem.now.fix.now (problem.now.periods - suc t) (suc t) since }
    requires switched { later.now.switched ≡ exact_entry problem.now.periods problem.now.table.now problem.now.unit.now problem.now.fix.now (problem.now.periods - suc t) (suc t) (suc t) }
    ensures { result ≡ exact_entry problem.now.periods problem.now.table.now problem.now.unit.now problem.now.fix.now (problem.now.periods - t) t since }
{
    CostToGo {
        on: onward(
            stop_cost(problem, t, since, run),
            later.switched.off,
            may_stay_on(problem, t),
            later.kept.on,
        ),
        off: onward(
            start_cost(problem, t, since),
            later.switched.on,
            problem.fix.may_be_off(problem.unit, t),
            later.kept.off,
        ),
    }
}

// What a stop in period `t` costs a unit that is on since `since`, whose run costs `run` then.
fn stop_cost(problem: &Problem, t: usize, since: usize, run: Option<i128>) -> Option<i128>
    requires period { t < MAX_PERIODS }
    requires past { since ≤ t }
    requires run { may_be_off problem.now.unit.now problem.now.fix.now t ≡ true
        → run ≡ run_until problem.now.periods problem.now.table.now problem.now.unit.now since t }
    ensures { result ≡ switch_cost problem.now.periods problem.now.table.now problem.now.unit.now problem.now.fix.now t true since }
{
    let unit = problem.unit;
    if problem.fix.may_be_off(unit, t)
        && holds_initially(unit, t, true)
        && unit.may_switch(true, since, t)
    {
        run
    } else {
        None
    }
}

// What a start in period `t` costs a unit that is off since `since`.
fn start_cost(problem: &Problem, t: usize, since: usize) -> Option<i128>
    requires lawful { IsLawfulThermal problem.now.unit.now }
    requires scale { IsScale problem.now.table.now.k }
    requires period { t < MAX_PERIODS }
    requires past { since ≤ t }
    ensures { result ≡ switch_cost problem.now.periods problem.now.table.now problem.now.unit.now problem.now.fix.now t false since }
{
    let unit = problem.unit;
    if problem.fix.may_be_on(t) && unit.may_switch(false, since, t) {
        Some(scaled(problem.table.k(), sigma(unit, stop_since(since), t)))
    } else {
        None
    }
}

// The least cost of going on before period `t`: with a switch of this cost, or as before where that may be.
fn onward(
    switch: Option<i128>,
    switched: Option<i128>,
    stays: bool,
    kept: Option<i128>,
) -> Option<i128>
    requires switch { IsWithin MAX_COST_TO_GO switch }
    requires switched { IsWithin MAX_COST_TO_GO switched }
    ensures { result ≡ lesser_of (total_of switch switched) (if stays then kept else None) }
{
    lesser(total(switch, switched), if stays { kept } else { None })
}

// Whether a unit that is on may stay on in period `t`.
fn may_stay_on(problem: &Problem, t: usize) -> bool
    requires { t < MAX_PERIODS }
    ensures { result ≡ may_stay problem.now.unit.now problem.now.fix.now t true }
{
    problem.fix.may_be_on(t) && holds_initially(problem.unit, t, false)
}
