//! The exact value of a unit: the least ways from each switch on, from the last period to the first.

ghost use Rattle.std.specs.Prelude.{◌≡◌, ◌<◌, ◌≤◌, ℕ, suc, true, false, None, IfOk, IfSome, IsTrue, Some, length, unsigned_abs};
ghost use Rattle.cost_curves.specs.LowerHull.{IsLowerHull};
ghost use Rattle.uc_model.specs.Prelude.{IsLawfulInstance, commitment_of, thermal_count, thermal_unit};
ghost use Rattle.dual_model.specs.Prelude.{HasNoUnitSchedule, IsExactUnitValue, IsFixOf, IsPatternAt, may_be_on, HasSizeOf, IsWithinLimits, AreTermsOf, AreSizedTerms};
ghost use Rattle.dual_model.specs.declared.node.Node.{Node};
ghost use Rattle.hull_function.specs.Problems.{IsLawfulProblem, HasHull};
ghost use Rattle.unit_runs.specs.Patterns.{IsValueByRuns};
ghost use Rattle.unit_runs.specs.RunsToGo.{least_runs, whole_way};
ghost use Rattle.unit_exact.specs.Hourly.{HasScheduleWithin};
ghost use Rattle.unit_exact.specs.Sizes.{MAX_EXACT};
ghost use Rattle.unit_exact.specs.inside.Choices.{value_of};
ghost use Rattle.unit_exact.specs.inside.Problems.{MAX_WAY};
ghost use Rattle.unit_exact.specs.inside.Running.{HasRoom};
ghost use Rattle.unit_exact.specs.inside.Switches.{AreSwitches, IsLeastSwitch, IsTableFrom};

use crate::choices::{Switches, UNKNOWN};
use crate::hourly::{Plain, is_hourly};
use crate::runs::Runs;
use crate::starts::next_start;
use crate::stops::{after_start, first_stop};
use crate::trace::pattern_of;
use cost_curves::Curve;
use dual_model::choices::Choice;
use dual_model::{Fix, Table};
use hull_function::Problem;
use std::alloc::Global;
use std::marker::Model;
use step_functions::ConvexFunction;
use uc_model::limits::{MAX_PERIODS, MAX_POINTS};
use uc_model::{Instance, NoMemory, Pattern};

/// The memory of exact values over a number of periods, of units with at most so many points, which contracts see as
/// these two numbers.
#[derive(Drop)]
pub struct Exact {
    hull: ConvexFunction,
    runs: Runs,
    entries: Vec<Switches>,
}

impl Model for Exact {
    ghost use Rattle.unit_exact.specs.Sizes.{Size};

    ghost Value = { Size };

    ghost use Rattle.std.specs.Prelude.{length};
    ghost use Rattle.unit_exact.specs.inside.Running.{HasRoom};

    ghost view = { λ exact. record { periods = length exact.entries.items; points = exact.hull.room } };

    ghost invariant = { λ exact. HasRoom (length exact.entries.items) exact.hull exact.runs };
}

impl Exact {
    /// The memory for `periods` periods and units of at most `points` points. The only error is `NoMemory`.
    pub fn new(alloc: Global, periods: usize, points: usize) -> Result<Exact, NoMemory>
        requires periods { periods ≤ MAX_PERIODS }
        requires points { points ≤ MAX_POINTS }
        ensures { IfOk result (λ exact. exact ≡ record { periods = periods; points = points }) }
    {
        let hull = ConvexFunction::with_room(alloc, points)?;
        let runs = Runs::with_room(alloc, (periods + 2) * (points + 2))?;
        let entries = vec![in alloc; UNKNOWN; periods]?;
        Ok(Exact {
            hull,
            runs,
            entries,
        })
    }
}

/// The exact value of unit `g` (from 0) of the instance at the table, by what `fix` decides of it, with a pattern that
/// attains it; `None` exactly where the unit has no schedule of its own. The value is 1/K micro-dollars, by the table's scale
/// K. In periods past the last one the pattern is off. Takes no memory.
pub fn least(
    exact: &mut Exact,
    instance: &Instance,
    curve: &Curve,
    table: &Table,
    g: u32,
    fix: &Fix,
) -> Option<(i128, Pattern)>
    requires lawful { IsLawfulInstance instance.now }
    requires unit { g < thermal_count instance.now }
    requires curve { IsLowerHull (thermal_unit instance.now g).points curve.now }
    requires table { HasSizeOf instance.now table.now }
    requires limits { IsWithinLimits table.now }
    requires periods { exact.old.periods ≡ instance.now.periods }
    requires points { length (thermal_unit instance.now g).points ≤ exact.old.points }
    ensures kept { exact.new ≡ exact.old }
    ensures value { (node : Node) → IsFixOf instance.now.periods node g fix.now
        → IfSome result (λ best. IsExactUnitValue instance.now node table.now g best.0) }
    ensures pattern { (node : Node) → IsFixOf instance.now.periods node g fix.now
        → IfSome result (λ best. IsPatternAt instance.now node g (commitment_of best.1)) }
    ensures attained { IfSome result (λ best. IsValueByRuns instance.now.periods table.now (thermal_unit instance.now g) (commitment_of best.1) best.0) }
    ensures within { IfSome result (λ best. (t : ℕ) → instance.now.periods ≤ t → commitment_of best.1 t ≡ false) }
    ensures size { IfSome result (λ best. unsigned_abs best.0 ≤ MAX_EXACT) }
    ensures none { (node : Node) → IsFixOf instance.now.periods node g fix.now → result ≡ None → HasNoUnitSchedule instance.now node g }
{
    let unit = &instance.thermal.as_slice()[g as usize];
    hull_function::fill(&mut exact.hull, curve, unit.points.as_slice(), table.k());
    let problem = Problem {
        periods: instance.periods as usize,
        table,
        unit,
        fix,
        hull: &exact.hull,
    };
    least_way(&mut exact.runs, exact.entries.as_mut_slice(), &problem)
}

/// Whether unit `g` (from 0) of the instance keeps its ramps where it gives in each hour of the pattern what is best in that
/// hour by itself at the table, for no more than the hour's term. It then has a schedule of its own whose value is at most the
/// pattern's, so that its exact value is no greater. Takes no memory.
pub fn keeps_ramps(
    exact: &mut Exact,
    instance: &Instance,
    curve: &Curve,
    table: &Table,
    g: u32,
    plain: &Plain,
) -> bool
    requires lawful { IsLawfulInstance instance.now }
    requires unit { g < thermal_count instance.now }
    requires curve { IsLowerHull (thermal_unit instance.now g).points curve.now }
    requires table { HasSizeOf instance.now table.now }
    requires limits { IsWithinLimits table.now }
    requires periods { exact.old.periods ≡ instance.now.periods }
    requires points { length (thermal_unit instance.now g).points ≤ exact.old.points }
    requires terms { AreTermsOf instance.now table.now g plain.now.terms.now }
    requires sized { AreSizedTerms (thermal_unit instance.now g) plain.now.terms.now }
    ensures kept { exact.new ≡ exact.old }
    ensures within { (node : Node) → IsPatternAt instance.now node g (commitment_of plain.now.pattern.now) → IsTrue result
        → HasScheduleWithin instance.now node table.now g (commitment_of plain.now.pattern.now) }
{
    let unit = &instance.thermal.as_slice()[g as usize];
    hull_function::fill(&mut exact.hull, curve, unit.points.as_slice(), table.k());
    let problem = Problem {
        periods: instance.periods as usize,
        table,
        unit,
        fix: plain.fix,
        hull: &exact.hull,
    };
    is_hourly(&problem, plain)
}

// The least way from the initial state on, with its pattern.
fn least_way(
    runs: &mut Runs,
    entries: &mut [Switches],
    problem: &Problem,
) -> Option<(i128, Pattern)>
    requires lawful { IsLawfulProblem problem.now.periods problem.now.table.now problem.now.unit.now }
    requires hull { HasHull problem.now.table.now problem.now.unit.now problem.now.hull.now }
    requires room { HasRoom problem.now.periods problem.now.hull.now runs.old }
    requires count { length entries.old ≡ problem.now.periods }
    ensures room { HasRoom problem.now.periods problem.now.hull.now runs.new }
    ensures least { value_of result ≡ least_runs problem.now.periods problem.now.table.now problem.now.unit.now problem.now.fix.now }
    ensures way { IfSome result (λ best. whole_way problem.now.periods problem.now.table.now problem.now.unit.now problem.now.fix.now (commitment_of best.1) ≡ Some best.0) }
    ensures after { IfSome result (λ best. (t : ℕ) → problem.now.periods ≤ t → commitment_of best.1 t ≡ false) }
    ensures size { IfSome result (λ best. unsigned_abs best.0 ≤ MAX_WAY) }
{
    fill(runs, entries, problem);
    match first_switch(runs, entries, problem) {
        None => None,
        Some(first) => Some((first.cost, pattern_of(entries, problem, &first))),
    }
}

// Fills the table, from the last period to the first.
fn fill(runs: &mut Runs, entries: &mut [Switches], problem: &Problem)
    requires lawful { IsLawfulProblem problem.now.periods problem.now.table.now problem.now.unit.now }
    requires hull { HasHull problem.now.table.now problem.now.unit.now problem.now.hull.now }
    requires room { HasRoom problem.now.periods problem.now.hull.now runs.old }
    requires count { length entries.old ≡ problem.now.periods }
    ensures room { HasRoom problem.now.periods problem.now.hull.now runs.new }
    ensures table { IsTableFrom problem.now.periods problem.now.table.now problem.now.unit.now problem.now.fix.now 0 entries.new }
{
    // Invariant: the table is right from period `periods` - back on.
    for back in 0..problem.periods {
        let t = problem.periods - 1 - back;
        entries[t] = switches(runs, entries, problem, t);
    }
}

// The least ways from a switch in period `t` on, from those in the later ones.
fn switches(runs: &mut Runs, entries: &[Switches], problem: &Problem, t: usize) -> Switches
    requires lawful { IsLawfulProblem problem.now.periods problem.now.table.now problem.now.unit.now }
    requires hull { HasHull problem.now.table.now problem.now.unit.now problem.now.hull.now }
    requires room { HasRoom problem.now.periods problem.now.hull.now runs.old }
    requires period { t < problem.now.periods }
    requires later { IsTableFrom problem.now.periods problem.now.table.now problem.now.unit.now problem.now.fix.now (suc t) entries.now }
    ensures room { HasRoom problem.now.periods problem.now.hull.now runs.new }
    ensures switches { AreSwitches problem.now.periods problem.now.table.now problem.now.unit.now problem.now.fix.now t result }
{
    let start = start_in(runs, entries, problem, t);
    let stop = next_start(entries, problem, t + 1);
    Switches { start, stop }
}

// The least way from a start in period `t` on, where the unit may be on in it.
fn start_in(runs: &mut Runs, entries: &[Switches], problem: &Problem, t: usize) -> Option<Choice>
    requires lawful { IsLawfulProblem problem.now.periods problem.now.table.now problem.now.unit.now }
    requires hull { HasHull problem.now.table.now problem.now.unit.now problem.now.hull.now }
    requires room { HasRoom problem.now.periods problem.now.hull.now runs.old }
    requires period { t < problem.now.periods }
    requires later { IsTableFrom problem.now.periods problem.now.table.now problem.now.unit.now problem.now.fix.now (suc t) entries.now }
    ensures room { HasRoom problem.now.periods problem.now.hull.now runs.new }
    ensures least { may_be_on problem.now.fix.now t ≡ true
        → IsLeastSwitch problem.now.periods problem.now.table.now problem.now.unit.now problem.now.fix.now (suc t) true (suc t) result }
{
    if problem.fix.may_be_on(t) {
        after_start(runs, entries, problem, t)
    } else {
        None
    }
}

// The least way from the initial state on, and where the unit is switched first on it.
fn first_switch(runs: &mut Runs, entries: &[Switches], problem: &Problem) -> Option<Choice>
    requires lawful { IsLawfulProblem problem.now.periods problem.now.table.now problem.now.unit.now }
    requires hull { HasHull problem.now.table.now problem.now.unit.now problem.now.hull.now }
    requires room { HasRoom problem.now.periods problem.now.hull.now runs.old }
    requires table { IsTableFrom problem.now.periods problem.now.table.now problem.now.unit.now problem.now.fix.now 0 entries.now }
    ensures room { HasRoom problem.now.periods problem.now.hull.now runs.new }
    ensures least { IsLeastSwitch problem.now.periods problem.now.table.now problem.now.unit.now problem.now.fix.now 0 problem.now.unit.now.on0 0 result }
{
    if problem.unit.on0 {
        first_stop(runs, entries, problem)
    } else {
        next_start(entries, problem, 0)
    }
}
