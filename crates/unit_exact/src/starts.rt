//! The least way of a unit that is off: where its rest ends.

ghost use Rattle.std.specs.Prelude.{◌≡◌, ◌-◌, ◌≤◌, ◌<◌, ◌*ℤ◌, false, IfSome, unsigned_abs};
ghost use Rattle.uc_model.specs.Prelude.{sigma as least_cost};
ghost use Rattle.dual_model.specs.Prelude.{stop_since};
ghost use Rattle.hull_function.specs.Problems.{IsLawfulProblem};
ghost use Rattle.unit_exact.specs.inside.Problems.{MAX_SWITCH};
ghost use Rattle.unit_exact.specs.inside.Switches.{AreSwitches, IsLeastSwitch, IsTableFrom, IsWithinSwitches, switch_total};

use crate::choices::{Switches, with_choice};
use crate::moves::{may_start, may_stay_off};
use dual_model::choices::{Choice, better};
use hull_function::Problem;
use start_costs::sigma;
use uc_model::scaled;

/// The least way of a unit that is off since `since`, before period `since`: in which period it starts next.
pub(crate) fn next_start(entries: &[Switches], problem: &Problem, since: usize) -> Option<Choice>
    requires lawful { IsLawfulProblem problem.now.periods problem.now.table.now problem.now.unit.now }
    requires past { since ≤ problem.now.periods }
    requires later { IsTableFrom problem.now.periods problem.now.table.now problem.now.unit.now problem.now.fix.now since entries.now }
    ensures { IsLeastSwitch problem.now.periods problem.now.table.now problem.now.unit.now problem.now.fix.now since false since result }
{
    // Invariant, before period t: what `best` leaves and the ways that rest until t make up the least way; it rests until then.
    let mut best = None;
    for t in since..problem.periods {
        best = better(best, start_total(&entries[t], problem, since, t), Some(t));
        if !may_stay_off(problem, t) {
            return best;
        }
    }
    better(best, Some(0), None)
}

// What a start in period t costs with all that follows, of a unit that is off since `since`.
fn start_total(entry: &Switches, problem: &Problem, since: usize, t: usize) -> Option<i128>
    requires lawful { IsLawfulProblem problem.now.periods problem.now.table.now problem.now.unit.now }
    requires past { since ≤ t }
    requires period { t < problem.now.periods }
    requires entry { AreSwitches problem.now.periods problem.now.table.now problem.now.unit.now problem.now.fix.now t entry.now }
    ensures total { result ≡ switch_total problem.now.periods problem.now.table.now problem.now.unit.now problem.now.fix.now t false since }
    ensures size { IfSome result (IsWithinSwitches (problem.now.periods - t)) }
{
    if !may_start(problem, since, t) {
        return None;
    }
    with_choice(start_cost(problem, since, t), &entry.start)
}

// K times the least cost of a start in period t, of a unit that is off since `since`.
fn start_cost(problem: &Problem, since: usize, t: usize) -> i128
    requires lawful { IsLawfulProblem problem.now.periods problem.now.table.now problem.now.unit.now }
    requires period { t < problem.now.periods }
    ensures value { result ≡ problem.now.table.now.k *ℤ least_cost problem.now.unit.now (stop_since since) t }
    ensures size { unsigned_abs result ≤ MAX_SWITCH }
{
    scaled(problem.table.k(), sigma(problem.unit, last_stop(since), t))
}

// The last stop of a unit that is off since `since`.
fn last_stop(since: usize) -> Option<usize>
    ensures { result ≡ stop_since since }
{
    if since == 0 { None } else { Some(since - 1) }
}
