//! The value of a node from its parent's.

ghost use Rattle.std.specs.Prelude.{◌≡◌, ◌+◌, ◌<◌, ◌≤◌, pos, ◌-ℤ◌, IfOk, IfErr, length, slice_index_or, slice_set, unsigned_abs};
ghost use Rattle.uc_model.specs.Prelude.{IsLawfulInstance};
ghost use Rattle.dual_model.specs.Prelude.{IsNodeOf, HasSizeOf, IsWithinLimits};
ghost use Rattle.dual_value.specs.Inheritance.{IsParentOf};
ghost use Rattle.dual_value.specs.NodeAnswer.{HasSizes, IsFaultOf, IsValued, MAX_PART, MAX_VALUE};
ghost use Rattle.dual_value.specs.Rooms.{IsRoomOf};

use crate::room::Room;
use crate::units::unit_part;
use crate::valued::ValueFault;
use dual_model::{Node, Table, Valued};
use std::alloc::Global;
use uc_model::{Instance, List, NoMemory, difference, sum};
use unit_path::Scratch;

/// What a node has from its parent, the node without its last decision: the parent's value at a table, and the thermal unit,
/// from 0, that the decision is on.
#[derive(Clone, Copy)]
pub struct Inherited<'a> {
    pub table: &'a Table,
    pub parent: &'a Valued,
    pub g: u32,
}

/// The value of a node at a table at which its parent's is known, as `value_in` gives it. Only the unit of the last decision is
/// evaluated: what the others add stays. `Empty(g)` exactly where that unit has no pattern at the node. The only other error is
/// `NoMemory`.
pub fn child(
    alloc: Global,
    scratch: &mut Scratch,
    room: &mut Room,
    instance: &Instance,
    node: &Node,
    inherited: &Inherited,
) -> Result<Valued, ValueFault>
    requires lawful { IsLawfulInstance instance.now }
    requires node { IsNodeOf instance.now node.now }
    requires size { HasSizeOf instance.now inherited.now.table.now }
    requires limits { IsWithinLimits inherited.now.table.now }
    requires memory { scratch.old ≡ instance.now.periods }
    requires room { IsRoomOf instance.now room.old }
    requires parent { IsParentOf instance.now node.now inherited.now.table.now inherited.now.g inherited.now.parent.now }
    ensures kept { scratch.new ≡ scratch.old }
    ensures kept_room { room.new ≡ room.old }

    ensures value { IfOk result (IsValued instance.now node.now inherited.now.table.now) }
    ensures sizes { IfOk result HasSizes }
    ensures fault { IfErr result (IsFaultOf instance.now node.now) }
{
    let g = inherited.g as usize;
    let table = inherited.table;
    let parent = inherited.parent;
    let (part, pattern) = unit_part(alloc, scratch, room, instance, node, table, g)?;
    let total = sum(total_without(parent, g), part);
    let parts = replaced(alloc, parent.parts.as_slice(), g, part)?;
    let patterns = replaced(alloc, parent.patterns.as_slice(), g, pattern)?;
    Ok(Valued {
        total,
        parts,
        patterns,
    })
}

// The total without the part of thermal unit g, from 0.
fn total_without(valued: &Valued, g: usize) -> i128
    requires unit { g < length valued.now.parts }
    requires size { unsigned_abs valued.now.total ≤ MAX_VALUE }
    requires sizes { HasSizes valued.now }
    ensures value { result ≡ valued.now.total -ℤ slice_index_or valued.now.parts g (pos 0) }
    ensures size { unsigned_abs result ≤ MAX_VALUE + MAX_PART }
{
    let parts = valued.parts.as_slice();
    difference(valued.total, parts[g])
}

// The elements, with another one at place n, from 0.
fn replaced<T: Copy>(alloc: Global, items: &[T], n: usize, item: T) -> Result<List<T>, NoMemory>
    requires { n < length items.now }
    ensures { IfOk result (λ list. list ≡ slice_set items.now n item) }
{
    let mut copy = Vec::new(alloc);
    match copy.extend_from_slice(items) {
        Ok(()) => {
            copy[n] = item;
            Ok(List::from_vec(copy))
        }
        Err(_) => Err(NoMemory),
    }
}
