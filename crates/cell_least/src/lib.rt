//! Laws of the least reduced cost of a cell, before it is rounded, with nothing to run.
#![tactic(auto)]

ghost use Rattle.cell_least.specs.CellLeast.{LeastsAreOne, LeastsBoundCells, TermsAreFloors};

/// The least reduced cost of a cell is one number, its term is that number rounded down, and no on cell of a schedule that obeys costs
/// less.
pub fn cells_have_one_least()
    ensures one { LeastsAreOne }
    ensures floor { TermsAreFloors }
    ensures bound { LeastsBoundCells }
{}
