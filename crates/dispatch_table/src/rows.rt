//! The rows of a program's table.
ghost use Rattle.std.specs.Prelude.{◌≡◌, ◌++◌, ◌∷◌, [], IfOk, OnOk, map};
ghost use Rattle.dispatch_program.specs.Prelude.{columns_of, line_number, start_rows};
ghost use Rattle.pivot_run.specs.Prelude.{IsSmall};
ghost use Rattle.dispatch_table.specs.Numbers.{AreWhole, HasLine, column_of, line_of, program_of};

use crate::column::{Column, Line};
use crate::program::Numbers;
use pivot_run::Row;
use std::alloc::Global;
use uc_model::NoMemory;

/// The rows of the rules, of the sum and of the cost.
pub(crate) fn rows(
    alloc: Global,
    numbers: &Numbers,
    columns: &[Column],
) -> Result<Vec<Row>, NoMemory>
    requires whole { AreWhole numbers.now }
    requires columns { map column_of columns.now ≡ columns_of (program_of numbers.now) }
    ensures { IfOk result (λ rows. rows.items ≡ start_rows (program_of numbers.now)) }
{
    let mut rows = Vec::new(alloc);
    for i in 0..numbers.limits.len() {
        push_row(&mut rows, alloc, numbers, columns, Line::Rule(i))?;
    }
    push_row(&mut rows, alloc, numbers, columns, Line::Sum)?;
    push_row(&mut rows, alloc, numbers, columns, Line::Cost)?;
    Ok(rows)
}

// Adds the row of a line.
fn push_row(
    rows: &mut Vec<Row>,
    alloc: Global,
    numbers: &Numbers,
    columns: &[Column],
    line: Line,
) -> Result<(), NoMemory>
    requires whole { AreWhole numbers.now }
    requires columns { map column_of columns.now ≡ columns_of (program_of numbers.now) }
    requires line { HasLine (program_of numbers.now) (line_of line) }
    ensures { OnOk result (rows.new.items ≡ rows.old.items ++ map (line_number (program_of numbers.now) (line_of line)) (columns_of (program_of numbers.now)) ∷ []) }
{
    rows.push(row(alloc, numbers, columns, line)?)?;
    Ok(())
}

/// The row of a line.
pub(crate) fn row(
    alloc: Global,
    numbers: &Numbers,
    columns: &[Column],
    line: Line,
) -> Result<Row, NoMemory>
    requires whole { AreWhole numbers.now }
    requires columns { map column_of columns.now ≡ columns_of (program_of numbers.now) }
    requires line { HasLine (program_of numbers.now) (line_of line) }
    ensures { IfOk result (λ row. row ≡ map (line_number (program_of numbers.now) (line_of line)) (columns_of (program_of numbers.now))) }
{
    let numbers = line_numbers(alloc, numbers, columns, line)?;
    small_row(alloc, &numbers)
}

// A row of small numbers.
fn small_row(alloc: Global, numbers: &[i128]) -> Result<Row, NoMemory>
    requires { IsSmall numbers.now }
    ensures { IfOk result (λ row. row ≡ numbers.now) }
{
    match Row::from_numbers(alloc, numbers)? {
        Some(row) => Ok(row),
        None => unreachable!(),
    }
}

// The numbers of a line.
fn line_numbers(
    alloc: Global,
    numbers: &Numbers,
    columns: &[Column],
    line: Line,
) -> Result<Vec<i128>, NoMemory>
    requires whole { AreWhole numbers.now }
    requires columns { map column_of columns.now ≡ columns_of (program_of numbers.now) }
    requires line { HasLine (program_of numbers.now) (line_of line) }
    ensures row { IfOk result (λ row. row.items ≡ map (line_number (program_of numbers.now) (line_of line)) (columns_of (program_of numbers.now))) }
    ensures small { IfOk result (λ row. IsSmall row.items) }
{
    let mut row = Vec::with_capacity(alloc, columns.len())?;
    for column in columns {
        row.push(numbers.number(line, column))?;
    }
    Ok(row)
}
