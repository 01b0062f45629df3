//! What exact values have besides the laws of both kinds in the module `laws`. Each law is the contract of a function
//! that does nothing, as there.

ghost use Rattle.dual_model.specs.Laws.{ExactValuesReach, WholeWattsBound, WholeWattsExist, LeastWholeValuesAreExact, ExactValuesAreLeast, SchedulesAreUnitSchedules, ExactUnitValuesAreUnique, ExactValuesRise, ExactUnitValuesExist};

/// VE is at least V. A number that bounds a unit's schedules in whole watts bounds them over every denominator, and a
/// unit that has one has one in whole watts: so E is the least value of these, and that is E.
pub fn exact_value_laws()
    ensures reach { ExactValuesReach }
    ensures bound { WholeWattsBound }
    ensures some { WholeWattsExist }
    ensures least { ExactValuesAreLeast }
    ensures exact { LeastWholeValuesAreExact }
{}

/// A unit has an exact value, or no schedule of its own at the node, and has at most one. A schedule that obeys and
/// agrees with the node gives each unit one of its own there. A child's exact value at its parent's table is at least
/// the parent's, where both are there.
pub fn exact_values_of_units()
    ensures exists { ExactUnitValuesExist }
    ensures unique { ExactUnitValuesAreUnique }
    ensures schedule { SchedulesAreUnitSchedules }
    ensures child { ExactValuesRise }
{}
