//! The schedule of a cheapest basis.

ghost use Rattle.std.specs.Prelude.{IfOk};
ghost use Rattle.uc_model.specs.Prelude.{IsLawfulInstance};
ghost use Rattle.dispatch_rules.specs.Prelude.{AreAllowed, Task};
ghost use Rattle.dispatch_schedule.specs.ShownSchedules.{IsCheapestEnd, IsShown};

use crate::choices::choose;
use crate::printing::print;
use crate::shown::Shown;
use crate::values::{column_values, least_denominator};
use dispatch_rules::Amount;
use pivot_run::Tableau;
use std::alloc::Global;
use uc_model::limits::MAX_DENOMINATOR;
use uc_model::{Instance, NoMemory, Pattern};

/// The schedule of a commitment that a table's cheapest basis stands for, over the least denominator over which its powers are whole; or that
/// denominator, where it is above 99; or the factors of a product on the way to it that is too large. The amounts are the columns' of the table,
/// in order. The only error is `NoMemory`.
pub fn schedule(
    alloc: Global,
    instance: &Instance,
    patterns: &[Pattern],
    table: &Tableau,
    amounts: &[Amount],
) -> Result<Shown, NoMemory>
    requires lawful { IsLawfulInstance instance.now }
    requires allowed { AreAllowed instance.now patterns.now }
    requires end { (task : Task) × IsCheapestEnd instance.now patterns.now amounts.now table.now task }
    ensures { IfOk result (λ shown. (task : Task) → IsCheapestEnd instance.now patterns.now amounts.now table.now task → IsShown task table.now shown) }
{
    let values = column_values(alloc, table, amounts.len())?;
    let denominator = match least_denominator(&values) {
        Ok(denominator) => denominator,
        Err(wide) => return Ok(Shown::Wide(wide)),
    };
    if denominator > MAX_DENOMINATOR as i128 {
        return Ok(Shown::Fine(denominator));
    }
    let chosen = choose(alloc, amounts, &values, &denominator)?;
    let printed = print(alloc, instance, patterns, &chosen, denominator as u8)?;
    Ok(Shown::Schedule(printed))
}
