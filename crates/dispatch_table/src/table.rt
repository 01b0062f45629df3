//! A program's table at its start.
ghost use Rattle.std.specs.Prelude.{◌≡◌, IfOk, length};
ghost use Rattle.dispatch_program.specs.Prelude.{start_table};
ghost use Rattle.pivot_run.specs.Prelude.{IsTable};
ghost use Rattle.dispatch_table.specs.Numbers.{AreWhole, program_of};

use crate::basis::basis;
use crate::column::Line;
use crate::columns::columns;
use crate::program::Numbers;
use crate::rows::{row, rows};
use pivot_run::{Row, Tableau};
use std::alloc::Global;
use uc_model::NoMemory;

/// The program's table at its start.
pub(crate) fn table(alloc: Global, numbers: &Numbers) -> Result<Tableau, NoMemory>
    requires { AreWhole numbers.now }
    ensures { IfOk result (λ table. table ≡ start_table (program_of numbers.now)) }
{
    let columns = columns(alloc, numbers)?;
    let rows = rows(alloc, numbers, &columns)?;
    let basis = basis(alloc, numbers)?;
    let pivot = row(alloc, numbers, &columns, Line::Cost)?;
    let limits = numbers.limits.as_slice();
    Ok(joined(alloc, rows, limits.len(), basis, pivot))
}

// A table of these parts.
fn joined(
    alloc: Global,
    rows: Vec<Row>,
    constraints: usize,
    basis: Vec<usize>,
    pivot: Row,
) -> Tableau
    requires { IsTable (record { columns = length pivot; rows = rows.items; constraints = constraints; basis = basis.items }) }
    ensures { result ≡ record { columns = length pivot; rows = rows.items; constraints = constraints; basis = basis.items } }
{
    match Tableau::new(alloc, rows, constraints, basis, pivot) {
        Some(table) => table,
        None => unreachable!(),
    }
}
