//! The basic columns of a program's table at its start.
ghost use Rattle.std.specs.Prelude.{◌≡◌, ◌+◌, ◌^◌, ◌<◌, ◌≤◌, IfOk, if◌then◌else◌, length, map};
ghost use Rattle.dispatch_program.specs.Prelude.{basic_column, bump, lines_of, place};
ghost use Rattle.dispatch_program.specs.Programs.{free_columns as free_columns_of, slacks as slacks_of};
ghost use Rattle.dispatch_table.specs.Numbers.{AreWhole, program_of};

use crate::program::Numbers;
use std::alloc::Global;
use uc_model::NoMemory;

/// The basic column of each line.
pub(crate) fn basis(alloc: Global, numbers: &Numbers) -> Result<Vec<usize>, NoMemory>
    requires { AreWhole numbers.now }
    ensures { IfOk result (λ basis. basis.items ≡ map (λ line. place (program_of numbers.now) (basic_column (program_of numbers.now) line)) (lines_of (program_of numbers.now))) }
{
    let mut basis = Vec::new(alloc);
    let (amounts, limits) = (numbers.amounts.as_slice(), numbers.limits.as_slice());
    let mut slack = amounts.len();
    let mut artificial = free_columns(numbers);
    for i in 0..limits.len() {
        let has_artificial = numbers.has_artificial(i);
        basis.push(own_column(has_artificial, artificial, slack))?;
        slack = next(slack, numbers.is_limit(i));
        artificial = next(artificial, has_artificial);
    }
    basis.push(artificial)?;
    basis.push(artificial + 1)?;
    Ok(basis)
}

/// How many columns may enter: those of the unknowns and the slacks.
pub(crate) fn free_columns(numbers: &Numbers) -> usize
    ensures value { result ≡ free_columns_of (program_of numbers.now) }
    ensures size { result ≤ length numbers.now.amounts.items + length numbers.now.limits.items }
{
    numbers.amounts.len() + slacks(numbers)
}

// How many slack columns there are.
fn slacks(numbers: &Numbers) -> usize
    ensures value { result ≡ slacks_of (program_of numbers.now) }
    ensures size { result ≤ length numbers.now.limits.items }
{
    let mut count = 0;
    for i in 0..numbers.limits.len() {
        count = next(count, numbers.is_limit(i));
    }
    count
}

// The basic column of a rule.
fn own_column(has_artificial: bool, artificial: usize, slack: usize) -> usize
    ensures { result ≡ (if has_artificial then artificial else slack) }
{
    if has_artificial { artificial } else { slack }
}

// The place behind a column, where there is one.
fn next(place: usize, exists: bool) -> usize
    requires { place + 1 < 2 ^ 64 }
    ensures value { result ≡ place + bump exists }
    ensures size { result ≤ place + 1 }
{
    if exists { place + 1 } else { place }
}
