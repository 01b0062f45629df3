//! The least way of a unit that is on: the run of on hours, extended hour by hour, and where it ends.

ghost use Rattle.std.specs.Prelude.{◌≡◌, ◌-◌, ◌<◌, ◌≤◌, suc, true, IfSome};
ghost use Rattle.hull_function.specs.Problems.{IsLawfulProblem, HasHull};
ghost use Rattle.unit_runs.specs.RunsToGo.{run_from};
ghost use Rattle.unit_exact.specs.inside.Choices.{choice_cost, IsCostBelow};
ghost use Rattle.unit_exact.specs.inside.Running.{HasRoom, IsRunning};
ghost use Rattle.unit_exact.specs.inside.Switches.{AreSwitches, IsBestTo, IsLeastSwitch, IsTableFrom, IsWithinSwitches, switch_total};

use crate::choices::{Switches, limit_before, with_choice};
use crate::moves::{may_stay_on, may_stop};
use crate::runs::Runs;
use dual_model::choices::{Choice, better, cost_of};
use hull_function::Problem;
use unit_runs::entry_output;

/// The least way of a unit that starts in period `from`: in which period it stops next.
pub(crate) fn after_start(
    runs: &mut Runs,
    entries: &[Switches],
    problem: &Problem,
    from: usize,
) -> Option<Choice>
    requires lawful { IsLawfulProblem problem.now.periods problem.now.table.now problem.now.unit.now }
    requires hull { HasHull problem.now.table.now problem.now.unit.now problem.now.hull.now }
    requires room { HasRoom problem.now.periods problem.now.hull.now runs.old }
    requires period { from < problem.now.periods }
    requires later { IsTableFrom problem.now.periods problem.now.table.now problem.now.unit.now problem.now.fix.now (suc from) entries.now }
    ensures room { HasRoom problem.now.periods problem.now.hull.now runs.new }
    ensures least { IsLeastSwitch problem.now.periods problem.now.table.now problem.now.unit.now problem.now.fix.now (suc from) true (suc from) result }
{
    runs.begin(problem, from);
    later_stop(runs, entries, problem, from + 1, None)
}

/// The least way of a unit that is on before the first period: in which period it stops first.
pub(crate) fn first_stop(runs: &mut Runs, entries: &[Switches], problem: &Problem) -> Option<Choice>
    requires lawful { IsLawfulProblem problem.now.periods problem.now.table.now problem.now.unit.now }
    requires hull { HasHull problem.now.table.now problem.now.unit.now problem.now.hull.now }
    requires room { HasRoom problem.now.periods problem.now.hull.now runs.old }
    requires table { IsTableFrom problem.now.periods problem.now.table.now problem.now.unit.now problem.now.fix.now 0 entries.now }
    ensures room { HasRoom problem.now.periods problem.now.hull.now runs.new }
    ensures least { IsLeastSwitch problem.now.periods problem.now.table.now problem.now.unit.now problem.now.fix.now 0 true 0 result }
{
    let known = better(None, stop_at_once(entries, problem), Some(0));
    if !may_stay_on(problem, 0) {
        return known;
    }
    runs.begin(problem, 0);
    later_stop(runs, entries, problem, 0, known)
}

// What a stop in the first period costs with all that follows.
fn stop_at_once(entries: &[Switches], problem: &Problem) -> Option<i128>
    requires lawful { IsLawfulProblem problem.now.periods problem.now.table.now problem.now.unit.now }
    requires table { IsTableFrom problem.now.periods problem.now.table.now problem.now.unit.now problem.now.fix.now 0 entries.now }
    ensures total { result ≡ switch_total problem.now.periods problem.now.table.now problem.now.unit.now problem.now.fix.now 0 true 0 }
    ensures size { IfSome result (IsWithinSwitches problem.now.periods) }
{
    let before = entry_output(problem.unit, 0);
    if !may_stop(problem, 0, 0) || before < -problem.unit.ru || before > problem.unit.rd {
        return None;
    }
    with_choice(0, &entries[0].stop)
}

// The better of a stop that is known and of those behind the hours of the run of a unit that is on since `since`.
fn later_stop(
    runs: &mut Runs,
    entries: &[Switches],
    problem: &Problem,
    since: usize,
    known: Option<Choice>,
) -> Option<Choice>
    requires lawful { IsLawfulProblem problem.now.periods problem.now.table.now problem.now.unit.now }
    requires hull { HasHull problem.now.table.now problem.now.unit.now problem.now.hull.now }
    requires past { run_from since < problem.now.periods }
    requires running { IsRunning problem.now.periods problem.now.table.now problem.now.unit.now problem.now.hull.now (run_from since) 0 runs.old }
    requires later { IsTableFrom problem.now.periods problem.now.table.now problem.now.unit.now problem.now.fix.now (suc (run_from since)) entries.now }
    requires known { IsBestTo problem.now.periods problem.now.table.now problem.now.unit.now problem.now.fix.now since true since (suc (run_from since)) known }
    ensures room { HasRoom problem.now.periods problem.now.hull.now runs.new }
    ensures least { IsLeastSwitch problem.now.periods problem.now.table.now problem.now.unit.now problem.now.fix.now since true since result }
{
    // Invariant: before the hour in period t the run has those before it, and `best` is the best stop up to that period.
    let from = run_begin(since);
    let last = problem.periods - 1;
    let mut best = known;
    for t in from..last {
        let total = stop_total(runs, &entries[t + 1], problem, &best, since, t);
        best = better(best, total, Some(t + 1));
        if !may_stay_on(problem, t + 1) {
            return best;
        }
        runs.go_on(problem, from, t);
    }
    let total = runs.cost_below(problem, from, last, &cost_of(&best));
    better(best, total, None)
}

// The period in which the run began of a unit that is on since `since`.
fn run_begin(since: usize) -> usize
    ensures { result ≡ run_from since }
{
    since.saturating_sub(1)
}

// What a stop behind the hour in period `t` costs with all that follows, of a unit that is on since `since`, if that may be
// better than the best stop that is known.
fn stop_total(
    runs: &mut Runs,
    next: &Switches,
    problem: &Problem,
    best: &Option<Choice>,
    since: usize,
    t: usize,
) -> Option<i128>
    requires lawful { IsLawfulProblem problem.now.periods problem.now.table.now problem.now.unit.now }
    requires hull { HasHull problem.now.table.now problem.now.unit.now problem.now.hull.now }
    requires past { since ≤ suc t }
    requires order { run_from since ≤ t }
    requires period { suc t < problem.now.periods }
    requires running { IsRunning problem.now.periods problem.now.table.now problem.now.unit.now problem.now.hull.now (run_from since) (t - run_from since) runs.old }
    requires entry { AreSwitches problem.now.periods problem.now.table.now problem.now.unit.now problem.now.fix.now (suc t) next.now }
    requires best { IfSome best.now (λ choice. IsWithinSwitches (problem.now.periods - since) choice.cost) }
    ensures running { IsRunning problem.now.periods problem.now.table.now problem.now.unit.now problem.now.hull.now (run_from since) (t - run_from since) runs.new }
    ensures total { IsCostBelow (choice_cost best.now)
        (switch_total problem.now.periods problem.now.table.now problem.now.unit.now problem.now.fix.now (suc t) true since) result }
    ensures size { IfSome result (IsWithinSwitches (problem.now.periods - suc t)) }
{
    if !may_stop(problem, since, t + 1) {
        return None;
    }
    match runs.cost_below(
        problem,
        run_begin(since),
        t,
        &limit_before(best, &next.stop),
    ) {
        None => None,
        Some(cost) => with_choice(cost, &next.stop),
    }
}
