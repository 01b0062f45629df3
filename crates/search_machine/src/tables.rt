//! Which tables are equal.

ghost use Rattle.std.specs.Prelude.{◌≡◌, ◌↔◌, IsTrue, Some, slice_get};

use dual_model::{RampRow, Table};

// Whether two rows are equal.
fn is_same_row(a: &RampRow, b: &RampRow) -> bool
    ensures { IsTrue result ↔ (a.now ≡ b.now) }
{
    a.g == b.g && a.t == b.t && a.up == b.up && a.down == b.down
}

// Whether two lists of rows are equal.
fn are_same_rows(a: &[RampRow], b: &[RampRow]) -> bool
    ensures { IsTrue result ↔ (a.now ≡ b.now) }
{
    if a.len() != b.len() {
        return false;
    }
    for i in 0..a.len() {
        if !is_same_row(&a[i], &b[i]) {
            return false;
        }
    }
    true
}

// Whether two lists of numbers are equal.
fn are_same_numbers(a: &[i64], b: &[i64]) -> bool
    ensures { IsTrue result ↔ (a.now ≡ b.now) }
{
    a == b
}

/// Whether two tables are equal.
pub fn is_same_table(a: &Table, b: &Table) -> bool
    ensures { IsTrue result ↔ (a.now ≡ b.now) }
{
    if a.k() != b.k() {
        return false;
    }
    if a.units() != b.units() {
        return false;
    }
    if !are_same_numbers(a.pi(), b.pi()) {
        return false;
    }
    if !are_same_numbers(a.mu(), b.mu()) {
        return false;
    }
    are_same_rows(a.ramps(), b.ramps())
}

/// Whether the table of this number, from 0, is there, and is this one.
pub fn is_table(tables: &[Table], number: u32, table: &Table) -> bool
    ensures { IsTrue result ↔ (slice_get tables.now number ≡ Some table.now) }
{
    match tables.get(number as usize) {
        Some(other) => is_same_table(other, table),
        None => false,
    }
}
