//! The pattern of the least way, read from the table period by period.

ghost use Rattle.std.specs.Prelude.{◌≡◌, ℕ, ◌≤◌, Some, false};
ghost use Rattle.uc_model.specs.Prelude.{commitment_of};
ghost use Rattle.hull_function.specs.Problems.{IsLawfulProblem};
ghost use Rattle.unit_runs.specs.RunsToGo.{whole_way};
ghost use Rattle.unit_exact.specs.inside.Switches.{IsPlan, IsTableFrom};

use crate::choices::Switches;
use dual_model::choices::Choice;
use dual_model::traces::Trace;
use hull_function::Problem;
use uc_model::Pattern;

/// The pattern of the way on which the unit is switched first as `first` says, from its initial state on.
pub(crate) fn pattern_of(entries: &[Switches], problem: &Problem, first: &Choice) -> Pattern
    requires lawful { IsLawfulProblem problem.now.periods problem.now.table.now problem.now.unit.now }
    requires table { IsTableFrom problem.now.periods problem.now.table.now problem.now.unit.now problem.now.fix.now 0 entries.now }
    requires first { IsPlan problem.now.periods problem.now.table.now problem.now.unit.now problem.now.fix.now 0 problem.now.unit.now.on0 0 first.now }
    ensures way { whole_way problem.now.periods problem.now.table.now problem.now.unit.now problem.now.fix.now (commitment_of result) ≡ Some first.now.cost }
    ensures after { (t : ℕ) → problem.now.periods ≤ t → commitment_of result t ≡ false }
{
    // Invariant, before period t: the trace has the way that the table's choices lead until then.
    let mut trace = Trace::begin(problem.unit.on0, first, problem.periods);
    for t in 0..problem.periods {
        trace = trace.follow(t, &entries[t].start, &entries[t].stop);
    }
    trace.pattern
}
