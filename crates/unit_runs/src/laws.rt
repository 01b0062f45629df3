//! The laws of runs. Each is the contract of a function that does nothing.

ghost use Rattle.unit_runs.specs.Laws.{RunCostsAreLeast, ExactValuesAreByRuns, ValuesByRunsAreExact, UnscheduledUnitsHaveNoRuns, UnitsWithoutRunsAreUnscheduled, RunsToGoAreLeast, WaysAreValues, LeastByFixIsExact, NoRunsByFixMeansUnscheduled};

/// The recursion over the hours of a run, by the output of the last one, gives the least value of the run's trajectories;
/// it gives none exactly where there is no trajectory.
pub fn run_costs_are_least()
    ensures { RunCostsAreLeast }
{}

/// The least value of a unit's schedules in whole watts is the least sum, over the unit's patterns at the node, of the
/// least values of their runs and of their start costs. A unit has no schedule of its own exactly where no pattern has a
/// trajectory for each of its runs.
pub fn exact_values_are_sums_over_runs()
    ensures by_runs { ExactValuesAreByRuns }
    ensures exact { ValuesByRunsAreExact }
    ensures no_runs { UnscheduledUnitsHaveNoRuns }
    ensures unscheduled { UnitsWithoutRunsAreUnscheduled }
{}

/// The recursion over periods, in which a run is paid for where it ends, gives the least value by runs of a pattern that is
/// as a fix decides; it gives none exactly where no such pattern has a trajectory for each of its runs. A commitment whose
/// way has a cost is such a pattern, of that value.
pub fn runs_to_go_are_least()
    ensures least { RunsToGoAreLeast }
    ensures ways { WaysAreValues }
{}

/// Where the fix says what a node decides of a unit, that value is the unit's exact value at the node, and where there is none
/// the unit has no schedule of its own.
pub fn least_runs_are_exact()
    ensures exact { LeastByFixIsExact }
    ensures none { NoRunsByFixMeansUnscheduled }
{}
