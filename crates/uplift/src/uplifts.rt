//! The uplifts of a schedule at a price table, and that they add up to the duality gap.

ghost use Rattle.std.specs.Prelude.{◌≡◌, IfOk};
ghost use Rattle.uc_model.specs.Prelude.{IsLawfulInstance, HasShapeOf, printed_denominator, printed_schedule, Obeys};
ghost use Rattle.dual_model.specs.Prelude.{IsValued, IsLawfulTable, root};
ghost use Rattle.dual_value.specs.NodeAnswer.{HasSizes};
ghost use Rattle.schedule_check.specs.SizedNumbers.{HasSizedNumbers};
ghost use Rattle.uplift.specs.Uplift.{AreUplifts};

use crate::renewable::renewable_uplifts;
use crate::reserve::reserve_slack;
use crate::shortage::shed_uplift;
use crate::thermal::thermal_uplifts;
use crate::total::{gap, rest};
use dual_model::{Node, Table, Valued};
use dual_value::{ValueFault, value};
use std::alloc::Global;
use uc_model::{Instance, List, NoMemory, Printed, sum};
use unit_path::Scratch;

/// Uplifts and slacks of a schedule at a price table of scale K, each in 1/K micro-dollars and at least 0: by how much each
/// unit, in the order of the instance, would do better by its own choice at the prices; what the shortages would; and what the
/// reserve beyond what is required, and what ramps leave of their limits, are worth. They add up to the total, the duality gap.
#[derive(Drop)]
pub struct Uplifts {
    /// Of each thermal unit.
    pub thermal: List<i128>,
    /// Of each renewable unit.
    pub renewable: List<i128>,
    /// Of the demand that may stay unserved, and the reserve that may be missing, at their prices; 0 where they have none.
    pub shed: i128,
    pub reserve_slack: i128,
    pub ramp_slack: i128,
    /// K times the printed cost, less the value of the root.
    pub total: i128,
}

/// The uplifts of an accepted schedule in whole watts at a lawful table: each number is its definition, none is below 0, and the
/// total, which is K times the printed cost less the root's value, is the sum of all others. The only error is `NoMemory`.
pub fn of(
    alloc: Global,
    instance: &Instance,
    printed: &Printed,
    table: &Table,
) -> Result<Uplifts, NoMemory>
    requires lawful { IsLawfulInstance instance.now }
    requires shape { HasShapeOf instance.now printed.now }
    requires sized { HasSizedNumbers printed.now }
    requires whole { printed.now.denominator ≡ 1 }
    requires obeys { let q = printed_denominator instance.now printed.now in Obeys instance.now q (printed_schedule instance.now printed.now q) }
    requires table { IsLawfulTable instance.now table.now }
    ensures { IfOk result (AreUplifts instance.now printed.now table.now) }
{
    let valued = root_value(alloc, instance, printed, table)?;
    let parts = valued.parts.as_slice();
    let thermal = thermal_uplifts(alloc, instance, printed, table, parts)?;
    let renewable = renewable_uplifts(alloc, instance, printed, table)?;
    let shed = shed_uplift(instance, printed, table);
    let reserve_slack = reserve_slack(instance, printed, table);
    let total = gap(instance, printed, table, valued.total);
    // The other numbers leave the ramp slack of the total: this is the theorem, read from its end.
    let ramp_slack = rest(total, sum(shed, reserve_slack), &thermal, &renewable);
    Ok(Uplifts {
        thermal: List::from_vec(thermal),
        renewable: List::from_vec(renewable),
        shed,
        reserve_slack,
        ramp_slack,
        total,
    })
}

// The value of the root at the table, at which the schedule leaves no unit without a pattern.
fn root_value(
    alloc: Global,
    instance: &Instance,
    printed: &Printed,
    table: &Table,
) -> Result<Valued, NoMemory>
    requires lawful { IsLawfulInstance instance.now }
    requires obeys { let q = printed_denominator instance.now printed.now in Obeys instance.now q (printed_schedule instance.now printed.now q) }
    requires table { IsLawfulTable instance.now table.now }
    ensures value { IfOk result (IsValued instance.now root table.now) }
    ensures sizes { IfOk result HasSizes }
{
    let mut scratch = Scratch::new(alloc, instance.periods as usize)?;
    match value(alloc, &mut scratch, instance, &Node::root(alloc), table) {
        Ok(valued) => Ok(valued),
        Err(ValueFault::Empty(_)) => unreachable!(),
        Err(ValueFault::NoMemory) => Err(NoMemory),
    }
}
