//! Whether a unit has a schedule of its own at a node at all.

ghost use Rattle.std.specs.Prelude.{◌≡◌, ℕ, ◌<◌, ◌↔◌, pos, IfOk, IsTrue};
ghost use Rattle.uc_model.specs.Prelude.{IsLawfulInstance, thermal_count};
ghost use Rattle.dual_model.specs.Prelude.{HasNoUnitSchedule, IsFixOf, unpriced_table, IsLawfulTable};
ghost use Rattle.dual_model.specs.declared.node.Node.{Node};
ghost use Rattle.leaf_values.specs.ExactRooms.{IsRoomOf};

use crate::exact::ExactRoom;
use dual_model::{Fix, Table};
use std::alloc::Global;
use uc_model::{Instance, NoMemory};

/// Whether thermal unit `g`, from 0, has no schedule of its own that is as `fix` decides. Prices play no part in it: the
/// walk is at a table of the scale 0, at which each schedule costs nothing. The only error is `NoMemory`.
pub fn is_unscheduled(
    alloc: Global,
    room: &mut ExactRoom,
    instance: &Instance,
    g: u32,
    fix: &Fix,
) -> Result<bool, NoMemory>
    requires lawful { IsLawfulInstance instance.now }
    requires unit { g < thermal_count instance.now }
    requires room { IsRoomOf instance.now room.old }
    ensures kept { IsRoomOf instance.now room.new }
    ensures none { (node : Node) → IsFixOf instance.now.periods node g fix.now
        → IfOk result (λ none. IsTrue none ↔ HasNoUnitSchedule instance.now node g) }
{
    let table = free_table(alloc, instance)?;
    Ok(room.unit_value(instance, &table, g as usize, fix).is_none())
}

// The table of the scale 0 at which all prices are 0.
fn free_table(alloc: Global, instance: &Instance) -> Result<Table, NoMemory>
    requires { IsLawfulInstance instance.now }
    ensures table { IfOk result (λ table. table ≡ unpriced_table instance.now (pos 0)) }
    ensures lawful { IfOk result (IsLawfulTable instance.now) }
{
    let zeros = vec![in alloc; 0_i64; instance.periods as usize]?;
    let units = instance.thermal.as_slice().len() as u32;
    Table::new(alloc, units, 0, &zeros, &zeros, &[])
}
