//! Rows of ramp multipliers.

ghost use Rattle.std.specs.Prelude.{◌≡◌};
ghost use Rattle.table_list.specs.Changes.{is_before, no_row};

use dual_model::RampRow;

/// A row comes before another: by unit, and then by period.
pub fn is_before(first: &RampRow, second: &RampRow) -> bool
    ensures { result ≡ is_before first.now second.now }
{
    first.g < second.g || (first.g == second.g && first.t < second.t)
}

/// A row of this one's unit and period that is all 0, which stands for none.
pub fn no_row(row: &RampRow) -> RampRow
    ensures { result ≡ no_row row.now }
{
    RampRow {
        g: row.g,
        t: row.t,
        up: 0,
        down: 0,
    }
}
