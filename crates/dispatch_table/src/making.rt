//! The making of a commitment's table.
ghost use Rattle.std.specs.Prelude.{◌≡◌, IfOk};
ghost use Rattle.uc_model.specs.Prelude.{IsLawfulInstance};
ghost use Rattle.dispatch_rules.specs.Prelude.{AreAllowed, amounts as amounts_in};
ghost use Rattle.dispatch_table.specs.Tasks.{IsGiven, task_of};
ghost use Rattle.dispatch_table.specs.Start.{AreCosts, IsMade, IsScale};

use crate::amounts::amounts;
use crate::basis::free_columns;
use crate::given::Given;
use crate::limits::limits;
use crate::made::{Made, Start};
use crate::program::Numbers;
use crate::rights::rights;
use crate::scale::{fill_costs, scale};
use crate::table::table;
use cost_curves::curves_of;
use dispatch_rules::Amount;
use std::alloc::Global;
use uc_model::{Instance, NoMemory, Pattern};

/// The table of the dispatch of a commitment at its start, or the product that is too large in making it: of the scale or of a cost. There is a
/// pattern for each thermal unit, in the order of the instance. The only error is `NoMemory`.
pub fn start(alloc: Global, instance: &Instance, patterns: &[Pattern]) -> Result<Made, NoMemory>
    requires lawful { IsLawfulInstance instance.now }
    requires allowed { AreAllowed instance.now patterns.now }
    ensures { IfOk result (IsMade instance.now patterns.now) }
{
    let curves = curves_of(alloc, instance)?;
    let given = Given {
        instance,
        patterns,
        curves: &curves,
    };
    made(alloc, &given)
}

// The same, where the curves are given.
fn made(alloc: Global, given: &Given) -> Result<Made, NoMemory>
    requires { IsGiven given.now }
    ensures { IfOk result (IsMade given.now.instance.now given.now.patterns.now) }
{
    let amounts = amounts(alloc, given)?;
    match scale(given, &amounts) {
        Ok(scale) => scaled(alloc, given, amounts, &scale),
        Err(wide) => Ok(Made::Wide(wide)),
    }
}

// The same, where the scale is made.
fn scaled(
    alloc: Global,
    given: &Given,
    amounts: Vec<Amount>,
    scale: &i128,
) -> Result<Made, NoMemory>
    requires given { IsGiven given.now }
    requires amounts { amounts.items ≡ amounts_in (task_of given.now) }
    requires scale { IsScale given.now scale.now }
    ensures { IfOk result (IsMade given.now.instance.now given.now.patterns.now) }
{
    let mut costs = vec![in alloc; 0; amounts.len()]?;
    match fill_costs(&mut costs, given, &amounts, scale) {
        Ok(()) => filled(alloc, given, amounts, costs, scale),
        Err(wide) => Ok(Made::Wide(wide)),
    }
}

// The same, where the costs are made.
fn filled(
    alloc: Global,
    given: &Given,
    amounts: Vec<Amount>,
    costs: Vec<i128>,
    scale: &i128,
) -> Result<Made, NoMemory>
    requires given { IsGiven given.now }
    requires amounts { amounts.items ≡ amounts_in (task_of given.now) }
    requires scale { IsScale given.now scale.now }
    requires costs { AreCosts given.now scale.now costs.items }
    ensures { IfOk result (IsMade given.now.instance.now given.now.patterns.now) }
{
    let limits = limits(alloc, given)?;
    let rights = rights(alloc, given, &limits)?;
    let numbers = Numbers {
        amounts,
        limits,
        rights,
        costs,
    };
    let table = table(alloc, &numbers)?;
    let free = free_columns(&numbers);
    Ok(Made::Start(Start {
        table,
        amounts: numbers.amounts,
        limits: numbers.limits,
        rights: numbers.rights,
        scale: *scale,
        free,
    }))
}
