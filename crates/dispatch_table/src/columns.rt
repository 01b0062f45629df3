//! The columns of a program's table, in order.
ghost use Rattle.std.specs.Prelude.{◌≡◌, ◌++◌, ◌∷◌, [], if◌then◌else◌, IfOk, OnOk, map};
ghost use Rattle.dispatch_program.specs.Prelude.{Artificial, CostValue, RightSide, Slack, SumValue, Unknown, all, columns_of, has_artificial, is_limit, picked};
ghost use Rattle.dispatch_table.specs.Numbers.{AreWhole, column_of, program_of};

use crate::column::Column;
use crate::program::Numbers;
use std::alloc::Global;
use uc_model::NoMemory;

/// The columns of the program's table.
pub(crate) fn columns(alloc: Global, numbers: &Numbers) -> Result<Vec<Column>, NoMemory>
    requires { AreWhole numbers.now }
    ensures { IfOk result (λ columns. map column_of columns.items ≡ columns_of (program_of numbers.now)) }
{
    let mut columns = Vec::new(alloc);
    push_unknowns(&mut columns, numbers.amounts.len())?;
    push_slacks(&mut columns, numbers)?;
    push_artificials(&mut columns, numbers)?;
    push_last(&mut columns)?;
    Ok(columns)
}

// Adds the columns of so many unknowns.
fn push_unknowns(columns: &mut Vec<Column>, unknowns: usize) -> Result<(), NoMemory>
    ensures { OnOk result (map column_of columns.new.items ≡ map column_of columns.old.items ++ picked all Unknown unknowns) }
{
    for c in 0..unknowns {
        columns.push(Column::Unknown(c))?;
    }
    Ok(())
}

// Adds the slack columns.
fn push_slacks(columns: &mut Vec<Column>, numbers: &Numbers) -> Result<(), NoMemory>
    ensures { OnOk result (map column_of columns.new.items ≡ map column_of columns.old.items ++ picked (is_limit (program_of numbers.now)) Slack (program_of numbers.now).rules) }
{
    for i in 0..numbers.limits.len() {
        push_where(columns, numbers.is_limit(i), Column::Slack(i))?;
    }
    Ok(())
}

// Adds the artificial columns.
fn push_artificials(columns: &mut Vec<Column>, numbers: &Numbers) -> Result<(), NoMemory>
    requires { AreWhole numbers.now }
    ensures { OnOk result (map column_of columns.new.items ≡ map column_of columns.old.items ++ picked (has_artificial (program_of numbers.now)) Artificial (program_of numbers.now).rules) }
{
    for i in 0..numbers.limits.len() {
        push_where(columns, numbers.has_artificial(i), Column::Artificial(i))?;
    }
    Ok(())
}

// Adds a column where there is one.
fn push_where(columns: &mut Vec<Column>, exists: bool, column: Column) -> Result<(), NoMemory>
    ensures { OnOk result (map column_of columns.new.items ≡ map column_of columns.old.items ++ (if exists then column_of column ∷ [] else [])) }
{
    if exists {
        columns.push(column)?;
    }
    Ok(())
}

// Adds the columns of the values and of the right side.
fn push_last(columns: &mut Vec<Column>) -> Result<(), NoMemory>
    ensures { OnOk result (map column_of columns.new.items ≡ map column_of columns.old.items ++ (SumValue ∷ CostValue ∷ RightSide ∷ [])) }
{
    columns.push(Column::SumValue)?;
    columns.push(Column::CostValue)?;
    columns.push(Column::RightSide)?;
    Ok(())
}
