//! What the unit of a problem may do in a period.
//!
//! `since` says since when a state lasts: 0 is since before the first period, and s + 1 since period s (from 0), in
//! which the unit was switched.

ghost use Rattle.std.specs.Prelude.{◌≡◌, ◌<◌, ◌≤◌, true, false};
ghost use Rattle.dual_model.specs.Prelude.{may_move};
ghost use Rattle.hull_function.specs.Problems.{IsLawfulProblem};
ghost use Rattle.unit_runs.specs.RunsToGo.{may_stay};

use dual_model::moves::holds_initially;
use hull_function::Problem;
use uc_model::limits::MAX_PERIODS;

/// Whether a unit that is on since `since` may stop in period `t`.
pub(crate) fn may_stop(problem: &Problem, since: usize, t: usize) -> bool
    requires lawful { IsLawfulProblem problem.now.periods problem.now.table.now problem.now.unit.now }
    requires past { since ≤ MAX_PERIODS }
    requires period { t < problem.now.periods }
    ensures { result ≡ may_move problem.now.unit.now problem.now.fix.now t true since false }
{
    problem.fix.may_be_off(problem.unit, t)
        && holds_initially(problem.unit, t, true)
        && problem.unit.may_switch(true, since, t)
}

/// Whether a unit that is off since `since` may start in period `t`.
pub(crate) fn may_start(problem: &Problem, since: usize, t: usize) -> bool
    requires lawful { IsLawfulProblem problem.now.periods problem.now.table.now problem.now.unit.now }
    requires past { since ≤ MAX_PERIODS }
    requires period { t < problem.now.periods }
    ensures { result ≡ may_move problem.now.unit.now problem.now.fix.now t false since true }
{
    problem.fix.may_be_on(t) && problem.unit.may_switch(false, since, t)
}

/// Whether a unit that is on may stay on in period `t`.
pub(crate) fn may_stay_on(problem: &Problem, t: usize) -> bool
    requires lawful { IsLawfulProblem problem.now.periods problem.now.table.now problem.now.unit.now }
    requires period { t < problem.now.periods }
    ensures { result ≡ may_stay problem.now.unit.now problem.now.fix.now t true }
{
    problem.fix.may_be_on(t) && holds_initially(problem.unit, t, false)
}

/// Whether a unit that is off may stay off in period `t`.
pub(crate) fn may_stay_off(problem: &Problem, t: usize) -> bool
    requires lawful { IsLawfulProblem problem.now.periods problem.now.table.now problem.now.unit.now }
    requires period { t < problem.now.periods }
    ensures { result ≡ may_stay problem.now.unit.now problem.now.fix.now t false }
{
    problem.fix.may_be_off(problem.unit, t)
}
