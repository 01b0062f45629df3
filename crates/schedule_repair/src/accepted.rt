//! The door of this crate: only what the feasibility check accepts goes through.

ghost use Rattle.std.specs.Prelude.{◌≡◌, ◌+ℤ◌, All, IfSome, IsTrue, length};
ghost use Rattle.uc_model.specs.Prelude.{IsLawfulInstance, IsLimit, HasShapeOf};
ghost use Rattle.schedule_check.specs.PlainNumbers.{IsIdleCell, IsPlainCell};
ghost use Rattle.schedule_check.specs.Accepted.{IsAccepted};

use schedule_check::check;
use uc_model::limits::{MAX_POWER, MAX_START_ROWS};
use uc_model::{Cell, Instance, List, Printed};

/// The cost of a schedule in whole watts that has the shape of the instance and numbers within their limits, and that the check
/// accepts.
pub(crate) fn accepted(instance: &Instance, printed: &Printed) -> Option<i64>
    requires lawful { IsLawfulInstance instance.now }
    requires whole { printed.now.denominator ≡ 1 }
    ensures { IfSome result (IsAccepted instance.now printed.now) }
{
    if !has_shape(instance, printed) {
        return None;
    }
    if !are_plain(printed.thermal.as_slice()) || !are_limits(printed.renewable.as_slice()) {
        return None;
    }
    if !is_missing_within(printed) {
        return None;
    }
    match check(instance, printed) {
        Ok(cost) => Some(cost),
        Err(_) => None,
    }
}

// Whether there is a row for each unit, with a cell or an output for each period, and what is missing in each period.
fn has_shape(instance: &Instance, printed: &Printed) -> bool
    requires whole { printed.now.denominator ≡ 1 }
    ensures { IsTrue result → HasShapeOf instance.now printed.now }
{
    let periods = instance.periods as usize;
    let thermal = printed.thermal.as_slice();
    let renewable = printed.renewable.as_slice();
    thermal.len() == instance.thermal.as_slice().len()
        && renewable.len() == instance.renewable.as_slice().len()
        && printed.shed.as_slice().len() == periods
        && printed.short.as_slice().len() == periods
        && have_cells(thermal, periods)
        && have_outputs(renewable, periods)
}

// Whether each row has so many cells.
fn have_cells(rows: &[List<Cell>], periods: usize) -> bool
    ensures { IsTrue result → All (λ row. length row ≡ periods) rows.now }
{
    rows.iter().all(|row| row.as_slice().len() == periods)
}

// Whether each row has so many outputs.
fn have_outputs(rows: &[List<i64>], periods: usize) -> bool
    ensures { IsTrue result → All (λ row. length row ≡ periods) rows.now }
{
    rows.iter().all(|row| row.as_slice().len() == periods)
}

// Whether the numbers of all cells are plain.
fn are_plain(rows: &[List<Cell>]) -> bool
    ensures { IsTrue result → All (All IsPlainCell) rows.now }
{
    rows.iter().all(|row| is_plain_row(row.as_slice()))
}

fn is_plain_row(cells: &[Cell]) -> bool
    ensures { IsTrue result → All IsPlainCell cells.now }
{
    cells.iter().all(|cell| is_plain(cell))
}

// Whether all outputs are within their limits.
fn are_limits(rows: &[List<i64>]) -> bool
    ensures { IsTrue result → All (All IsLimit) rows.now }
{
    rows.iter().all(|row| is_limit_row(row.as_slice()))
}

fn is_limit_row(outputs: &[i64]) -> bool
    ensures { IsTrue result → All IsLimit outputs.now }
{
    outputs.iter().all(|&output| is_limit(output))
}

// Whether what is missing of demand and of reserve is within its limits.
fn is_missing_within(printed: &Printed) -> bool
    ensures shed { IsTrue result → All IsLimit printed.now.shed }
    ensures short { IsTrue result → All IsLimit printed.now.short }
{
    is_limit_row(printed.shed.as_slice()) && is_limit_row(printed.short.as_slice())
}

// Whether a cell's output and reserve are at least 0 and within the limit on a power together, its category is one that a unit may
// have, or 0, and it has none of these where it is off.
fn is_plain(cell: &Cell) -> bool
    ensures { IsTrue result → IsPlainCell cell.now }
{
    has_limits(cell) && (cell.category as usize) <= MAX_START_ROWS && (cell.on || is_idle(cell))
}

// Whether output and reserve are at least 0 and within the limit on a power together.
fn has_limits(cell: &Cell) -> bool
    ensures { IsTrue result → (IsLimit cell.now.p × IsLimit cell.now.r × IsLimit (cell.now.p +ℤ cell.now.r)) }
{
    is_limit(cell.p) && is_limit(cell.r) && is_limit(cell.p + cell.r)
}

// Whether a cell has no number.
fn is_idle(cell: &Cell) -> bool
    ensures { IsTrue result → IsIdleCell cell.now }
{
    cell.p == 0 && cell.r == 0 && cell.category == 0
}

// Whether a number is at least 0 and within the limit on a power.
fn is_limit(number: i64) -> bool
    ensures { IsTrue result → IsLimit number }
{
    0 <= number && number <= MAX_POWER as i64
}
