//! The laws of a program's table. Each is the contract of a function that does nothing.

ghost use Rattle.dispatch_program.specs.LastRows.{RightSidesAdd, UnknownsAdd};
ghost use Rattle.dispatch_program.specs.LastTables.{BasesGiveValues, EndsAreLast, EnteringGivesRays, NoSumNoArtificial, SharesExist, StartsAreTables, SumsAreLow, SumsGoOn};
ghost use Rattle.dispatch_program.specs.ProgramRuns.{RunsReachTables, RunsEnd};
ghost use Rattle.dispatch_program.specs.ProgramValues.{SumIsArtificial, ValuesObey};

/// The start of each program's table is a table with a basis, and right sides of 0 or above.
pub fn starts_are_tables()
    ensures { StartsAreTables }
{}

/// The rules, as often as they stand in a row that each solution of the start solves, and the cost make up its numbers.
pub fn rows_add_rules()
    ensures unknowns { UnknownsAdd }
    ensures right { RightSidesAdd }
{}

/// Values of 0 or above that solve the start, with artificial columns of 0, obey the rules.
pub fn values_obey_rules()
    ensures { ValuesObey }
{}

/// In each solution of the start the sum is minus that of the artificial columns; so its right side never is above 0, and
/// where it is 0, no artificial column has a value.
pub fn sums_are_artificial()
    ensures values { SumIsArtificial }
    ensures low { SumsAreLow }
    ensures none { NoSumNoArtificial }
{}

/// Where no column enters by the row of the sum or of the cost, it is a last row; and where no sum is left, the values of the basis
/// solve the start and balance the row of the cost.
pub fn ends_give_values()
    ensures last { EndsAreLast }
    ensures shares { SharesExist }
    ensures values { BasesGiveValues }
{}

/// Wherever a column enters by the sum's row, a row leaves; and one that enters by the cost's row with none to leave gives a ray.
pub fn entering_columns_go_on()
    ensures sum { SumsGoOn }
    ensures rays { EnteringGivesRays }
{}

/// A run from the start reaches tables that keep its solutions. Where it ends, either a sum is left and no column enters by its row, or none
/// is left and no column enters by the row of the cost, or one does that finds no row.
pub fn runs_end()
    ensures tables { RunsReachTables }
    ensures ends { RunsEnd }
{}
