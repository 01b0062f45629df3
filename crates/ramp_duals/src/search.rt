//! The place of a cell among a unit's ramp rows, by halving.

ghost use Rattle.std.specs.Prelude.{◌≡◌, ◌<◌, true, false, IsTrue};
ghost use Rattle.ramp_duals.specs.RampRows.{AreRising, IsBefore, IsPlace};

use dual_model::RampRow;

/// How many of the rows stand before the cell of unit `g` in period `t`, both from 0. Takes a time that grows as the
/// logarithm of their number.
pub(crate) fn place(rows: &[RampRow], g: u32, t: usize) -> usize
    requires { AreRising rows.now }
    ensures { IsPlace rows.now g t result }
{
    let mut low = 0;
    let mut high = rows.len();
    while low < high {
        let middle = low + (high - low) / 2;
        if is_before(&rows[middle], g, t) {
            low = middle + 1;
        } else {
            high = middle;
        }
    }
    low
}

// Whether the row stands before the cell of unit g in period t.
fn is_before(row: &RampRow, g: u32, t: usize) -> bool
    ensures before { result ≡ true → IsBefore row.now g t }
    ensures later { result ≡ false → ¬ IsBefore row.now g t }
{
    row.g < g || (row.g == g && (row.t as usize) < t)
}
