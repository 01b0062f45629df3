//! The exact dispatch of a commitment: the run of its table, and what its end gives.
ghost use Rattle.std.specs.Prelude.{IfOk};
ghost use Rattle.uc_model.specs.Prelude.{IsLawfulInstance};
ghost use Rattle.dispatch_rules.specs.Prelude.{AreAllowed};
ghost use Rattle.dispatch_table.specs.Start.{IsMade};
ghost use Rattle.dispatch_table.specs.declared.made.Made.TheVariants.{Start as StartOf};
ghost use Rattle.pivot_dispatch.specs.Answers.{IsAnswer};

use crate::ending::Ending;
use crate::pivot::DispatchAnswer;
use dispatch_table::{Made, Start, start};
use pivot_run::{Halt, run};
use std::alloc::Global;
use uc_model::{Instance, NoMemory, Pattern};

/// The cheapest schedule of a commitment, which has a pattern for each thermal unit, with a table of prices that bounds its cost exactly; or a
/// ray that excludes the commitment; or the number that meets a limit. It answers `NoMemory` only where memory is refused.
pub fn best(
    alloc: Global,
    instance: &Instance,
    patterns: &[Pattern],
) -> Result<DispatchAnswer, NoMemory>
    requires lawful { IsLawfulInstance instance.now }
    requires allowed { AreAllowed instance.now patterns.now }
    ensures { IfOk result (IsAnswer instance.now patterns.now) }
{
    match start(alloc, instance, patterns)? {
        Made::Start(start) => pivoted(alloc, instance, patterns, start),
        Made::Wide(wide) => Ok(DispatchAnswer::too_large(&wide, 0)),
    }
}

// The same, from the start of the table.
fn pivoted(
    alloc: Global,
    instance: &Instance,
    patterns: &[Pattern],
    start: Start,
) -> Result<DispatchAnswer, NoMemory>
    requires lawful { IsLawfulInstance instance.now }
    requires allowed { AreAllowed instance.now patterns.now }
    requires start { IsMade instance.now patterns.now (StartOf start) }
    ensures { IfOk result (IsAnswer instance.now patterns.now) }
{
    let mut last = start;
    match run(&mut last.table, last.free) {
        Ok(pivots) => {
            let ending = Ending {
                instance,
                patterns,
                last: &last,
                pivots,
            };
            ending.answer(alloc)
        }
        Err(Halt::Met(stop)) => Ok(DispatchAnswer::stopped(&stop)),
        Err(Halt::NoMemory) => Err(NoMemory),
    }
}
