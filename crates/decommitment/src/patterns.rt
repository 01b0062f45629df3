//! The patterns of a drop pass: those with the most on periods, and with the fewest.

ghost use Rattle.std.specs.Prelude.{◌<◌, IfOk};
ghost use Rattle.uc_model.specs.Prelude.{IsLawfulInstance, thermal_count};
ghost use Rattle.dispatch_repair.specs.Prelude.{AreMostOn};
ghost use Rattle.dual_model.specs.Prelude.{HasEachPattern};
ghost use Rattle.decommitment.specs.DropCommitment.{IsFewestOnOf};

use dispatch_repair::{MostFault, fewest_of, most_on};
use std::alloc::Global;
use uc_model::{Instance, NoMemory, Pattern};

/// The patterns with the most on periods, of which each unit has one. The only error is `NoMemory`.
pub(crate) fn most_on_patterns(alloc: Global, instance: &Instance) -> Result<Vec<Pattern>, NoMemory>
    requires lawful { IsLawfulInstance instance.now }
    requires patterns { HasEachPattern instance.now }
    ensures { IfOk result (λ patterns. AreMostOn instance.now patterns.items) }
{
    match most_on(alloc, instance) {
        Ok(patterns) => Ok(patterns),
        Err(MostFault::Empty(_)) => unreachable!(),
        Err(MostFault::NoMemory) => Err(NoMemory),
    }
}

/// The pattern of unit g, from 0, with the fewest on periods.
pub(crate) fn fewest(instance: &Instance, g: usize) -> Pattern
    requires lawful { IsLawfulInstance instance.now }
    requires each { HasEachPattern instance.now }
    requires unit { g < thermal_count instance.now }
    ensures { IsFewestOnOf instance.now g result }
{
    match fewest_of(&instance.thermal.as_slice()[g], instance.periods) {
        Some(pattern) => pattern,
        None => unreachable!(),
    }
}
