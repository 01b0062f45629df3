//! The value of a node at a table.

ghost use Rattle.std.specs.Prelude.{◌≡◌, IfOk, IfErr, length};
ghost use Rattle.uc_model.specs.Prelude.{IsLawfulInstance};
ghost use Rattle.dual_model.specs.Prelude.{IsNodeOf, HasSizeOf, IsWithinLimits};
ghost use Rattle.dual_value.specs.NodeAnswer.{HasSizes, IsExactFaultOf, IsExactValued, IsFaultOf, IsFaultOfKind, IsValued, IsValuedOf};
ghost use Rattle.dual_value.specs.Rooms.{IsExactRoomOf, IsRoomFor, IsRoomOf, keeps_ramps};

use crate::room::Room;
use crate::units::unit_part;
use crate::valued::ValueFault;
use dual_model::{Node, Table, Valued};
use std::alloc::Global;
use system_value::{renewables_value, system_value};
use uc_model::{Instance, List, NoMemory, Pattern, sum};
use unit_path::Scratch;

/// The value of a node at a table, exact, with what each thermal unit adds and a pattern of each that attains its
/// value. `Empty(g)` exactly where thermal unit `g`, from 0, is the first without a pattern at the node. The only other
/// error is `NoMemory`.
pub fn value(
    alloc: Global,
    scratch: &mut Scratch,
    instance: &Instance,
    node: &Node,
    table: &Table,
) -> Result<Valued, ValueFault>
    requires lawful { IsLawfulInstance instance.now }
    requires node { IsNodeOf instance.now node.now }
    requires size { HasSizeOf instance.now table.now }
    requires limits { IsWithinLimits table.now }
    requires memory { scratch.old ≡ instance.now.periods }
    ensures kept { scratch.new ≡ scratch.old }

    ensures value { IfOk result (IsValued instance.now node.now table.now) }
    ensures sizes { IfOk result HasSizes }
    ensures fault { IfErr result (IsFaultOf instance.now node.now) }
{
    let mut room = Room::new(alloc, instance)?;
    value_in(alloc, scratch, &mut room, instance, node, table)
}

/// The same, with the room that was made for the instance: nothing is made anew that many tables or nodes of the
/// instance share.
pub fn value_in(
    alloc: Global,
    scratch: &mut Scratch,
    room: &mut Room,
    instance: &Instance,
    node: &Node,
    table: &Table,
) -> Result<Valued, ValueFault>
    requires lawful { IsLawfulInstance instance.now }
    requires node { IsNodeOf instance.now node.now }
    requires size { HasSizeOf instance.now table.now }
    requires limits { IsWithinLimits table.now }
    requires memory { scratch.old ≡ instance.now.periods }
    requires room { IsRoomOf instance.now room.old }
    ensures kept { scratch.new ≡ scratch.old }
    ensures kept_room { room.new ≡ room.old }

    ensures value { IfOk result (IsValued instance.now node.now table.now) }
    ensures sizes { IfOk result HasSizes }
    ensures fault { IfErr result (IsFaultOf instance.now node.now) }
{
    valued(alloc, scratch, room, instance, node, table)
}

/// The exact value VE of a node at a table, which keeps the ramps of each thermal unit in place of pricing them, with what each
/// unit adds and a pattern of each, in a room that was made for exact values of the instance. `Empty(g)` exactly where thermal
/// unit `g`, from 0, is the first without a schedule of its own at the node. The only other error is `NoMemory`.
pub fn exact_value(
    alloc: Global,
    scratch: &mut Scratch,
    room: &mut Room,
    instance: &Instance,
    node: &Node,
    table: &Table,
) -> Result<Valued, ValueFault>
    requires lawful { IsLawfulInstance instance.now }
    requires node { IsNodeOf instance.now node.now }
    requires size { HasSizeOf instance.now table.now }
    requires limits { IsWithinLimits table.now }
    requires memory { scratch.old ≡ instance.now.periods }
    requires room { IsExactRoomOf instance.now room.old }
    ensures kept { scratch.new ≡ scratch.old }
    ensures kept_room { room.new ≡ room.old }

    ensures value { IfOk result (IsExactValued instance.now node.now table.now) }
    ensures sizes { IfOk result HasSizes }
    ensures fault { IfErr result (IsExactFaultOf instance.now node.now) }
{
    valued(alloc, scratch, room, instance, node, table)
}

// The value of the kind that the room is for.
fn valued(
    alloc: Global,
    scratch: &mut Scratch,
    room: &mut Room,
    instance: &Instance,
    node: &Node,
    table: &Table,
) -> Result<Valued, ValueFault>
    requires lawful { IsLawfulInstance instance.now }
    requires node { IsNodeOf instance.now node.now }
    requires size { HasSizeOf instance.now table.now }
    requires limits { IsWithinLimits table.now }
    requires memory { scratch.old ≡ instance.now.periods }
    requires room { IsRoomFor (keeps_ramps room.old) instance.now room.old }
    ensures kept { scratch.new ≡ scratch.old }
    ensures kept_room { room.new ≡ room.old }
    ensures value { IfOk result (IsValuedOf (keeps_ramps room.old) instance.now node.now table.now) }
    ensures sizes { IfOk result HasSizes }
    ensures fault { IfErr result (IsFaultOfKind (keeps_ramps room.old) instance.now node.now) }
{
    let units = instance.thermal.as_slice().len();
    let mut parts = no_parts(alloc, units)?;
    let mut patterns = no_patterns(alloc, units)?;
    let mut total = sum(
        system_value(instance, table),
        renewables_value(instance, table),
    );
    // Invariant, before unit g: each unit before it has its part and a pattern of it (IsPartOfKind), and `total` is what
    // does not hang on units with the sum of their parts, at most MAX_SYSTEM + MAX_RENEWABLES + g * MAX_PART in size.
    for g in 0..units {
        let (part, pattern) = unit_part(alloc, scratch, room, instance, node, table, g)?;
        parts[g] = part;
        patterns[g] = pattern;
        total = sum(total, part);
    }
    Ok(Valued {
        total,
        parts: List::from_vec(parts),
        patterns: List::from_vec(patterns),
    })
}

// A part of 0 for each unit.
fn no_parts(alloc: Global, units: usize) -> Result<Vec<i128>, NoMemory>
    ensures { IfOk result (λ parts. length parts.items ≡ units) }
{
    Ok(vec![in alloc; 0; units]?)
}

// A pattern for each unit.
fn no_patterns(alloc: Global, units: usize) -> Result<Vec<Pattern>, NoMemory>
    ensures { IfOk result (λ patterns. length patterns.items ≡ units) }
{
    Ok(vec![in alloc; Pattern::all_off(); units]?)
}
