//! Whether the exact value of a node, with ramps kept in each unit, is enough at the table that was loaded last.

ghost use Rattle.std.specs.Prelude.{◌≡◌, ◌*◌, ◌<◌, ◌≤◌, ◌⊎◌, ◌↔◌, pos, ◌-ℤ◌, ◌<ℤ◌, true, IfOk, IsTrue, MatchOption, length, unsigned_abs};
ghost use Rattle.std.specs.Int.{int_max};
ghost use Rattle.uc_model.specs.Prelude.{IsLawfulInstance, thermal_count};
ghost use Rattle.dual_model.specs.Prelude.{IsWithin, MAX_COST_TO_GO, HasNoUnitSchedule, HasUnscheduledUnit, IsExactUnitValue, IsFixOf, IsNodeValue, HasSizeOf, IsWithinLimits};
ghost use Rattle.leaf_values.specs.Entries.{AreEntriesOf, IsExactByFix, IsExactEntryOf, MAX_NODE_VALUE};
ghost use Rattle.leaf_values.specs.ExactRooms.{IsRoomOf};
ghost use Rattle.leaf_values.specs.Paths.{Node, AreFixesOf};
ghost use Rattle.leaf_values.specs.Reached.{HasValueFrom, least_value};
ghost use Rattle.leaf_values.specs.inside.ExactTotals.{AreDecided, MAX_PART, gain_of};

use crate::entries::{ExactEntry, TableEntries};
use crate::least::Least;
use crate::node_value::{part, reckon_each, total};
use cost_curves::{Curve, curves_of};
use dual_model::{Fix, Table};
use state_walk::{ExactWalk, Walk, least_exact};
use std::alloc::Global;
use uc_model::limits::MAX_POINTS;
use uc_model::{Instance, NoMemory, difference, sum};

/// The memory for exact values of an instance's nodes, with the curves of its units.
#[derive(Drop)]
pub struct ExactRoom {
    pub(crate) walk: Walk,
    pub(crate) exact: ExactWalk,
    pub(crate) curves: Vec<Curve>,
}

impl ExactRoom {
    /// The memory for an instance's nodes. The only error is `NoMemory`.
    pub fn new(alloc: Global, instance: &Instance) -> Result<ExactRoom, NoMemory>
        requires { IsLawfulInstance instance.now }
        ensures { IfOk result (IsRoomOf instance.now) }
    {
        let periods = instance.periods as usize;
        let walk = Walk::new(alloc, periods)?;
        let exact = ExactWalk::new(alloc, periods, MAX_POINTS)?;
        let curves = curves_of(alloc, instance)?;
        Ok(ExactRoom {
            walk,
            exact,
            curves,
        })
    }

    /// The exact value of thermal unit `g`, from 0, by what is decided of it; `None` exactly where it has no schedule of its own.
    pub(crate) fn unit_value(
        &mut self,
        instance: &Instance,
        table: &Table,
        g: usize,
        fix: &Fix,
    ) -> Option<i128>
        requires lawful { IsLawfulInstance instance.now }
        requires table { HasSizeOf instance.now table.now }
        requires limits { IsWithinLimits table.now }
        requires unit { g < thermal_count instance.now }
        requires room { IsRoomOf instance.now self.old }
        ensures room { IsRoomOf instance.now self.new }
        ensures value { (node : Node) → IsFixOf instance.now.periods node g fix.now
            → MatchOption result (HasNoUnitSchedule instance.now node g) (IsExactUnitValue instance.now node table.now g) }
        ensures size { IsWithin MAX_COST_TO_GO result }
    {
        let curve = &self.curves[g];
        least_exact(&mut self.exact, instance, curve, table, g as u32, fix)
    }

    // The exact value of thermal unit `g`, from 0, by what is decided of it, which is found only where it isn't known.
    fn value_from(
        &mut self,
        known: &mut ExactEntry,
        instance: &Instance,
        table: &Table,
        g: usize,
        fix: &Fix,
    ) -> Option<i128>
        requires lawful { IsLawfulInstance instance.now }
        requires table { HasSizeOf instance.now table.now }
        requires limits { IsWithinLimits table.now }
        requires unit { g < thermal_count instance.now }
        requires room { IsRoomOf instance.now self.old }
        requires known { IsExactEntryOf instance.now table.now g known.old }
        ensures room { IsRoomOf instance.now self.new }
        ensures known { IsExactEntryOf instance.now table.now g known.new }
        ensures value { IsExactByFix instance.now table.now g fix.now result }
    {
        if let ExactEntry::Sought { fix: kept, value } = *known {
            if kept == *fix {
                return value;
            }
        }
        let value = self.unit_value(instance, table, g, fix);
        *known = ExactEntry::Sought { fix: *fix, value };
        value
    }
}

/// Whether the exact value of a node that decides `fixes` of the thermal units, at the table that the entries are of, is the least
/// one or more, or some unit has no schedule of its own at the node. Takes no memory, a walk for each unit of which something else is
/// decided than the entry's value is for, and exact walks of one unit after the other until these are enough.
pub fn exact_reaches(
    entries: &mut TableEntries,
    room: &mut ExactRoom,
    instance: &Instance,
    table: &Table,
    fixes: &[Fix],
    least: &Least,
) -> bool
    requires lawful { IsLawfulInstance instance.now }
    requires table { HasSizeOf instance.now table.now }
    requires limits { IsWithinLimits table.now }
    requires entries { AreEntriesOf instance.now table.now entries.old }
    requires fixes { length fixes.now ≡ thermal_count instance.now }
    requires room { IsRoomOf instance.now room.old }
    requires scale { pos 0 <ℤ least.now.scale }
    ensures kept_room { IsRoomOf instance.now room.new }
    ensures kept { AreEntriesOf instance.now table.now entries.new }

    ensures reaches { (node : Node) → AreFixesOf instance.now node fixes.now
        → IsTrue result ↔ (HasValueFrom true instance.now node table.now (least_value least.now) ⊎ HasUnscheduledUnit instance.now node) }
{
    reckon_each(
        entries.units.as_mut_slice(),
        &mut room.walk,
        instance,
        fixes,
    );
    match total(entries, instance) {
        None => true,
        Some(plain) => reaches_from(entries, room, instance, table, least, plain),
    }
}

// Whether the value `plain` of a node, or what it becomes as each unit's exact value takes the place of its part, is enough; or some
// unit has no schedule of its own.
fn reaches_from(
    entries: &mut TableEntries,
    room: &mut ExactRoom,
    instance: &Instance,
    table: &Table,
    least: &Least,
    plain: i128,
) -> bool
    requires lawful { IsLawfulInstance instance.now }
    requires table { HasSizeOf instance.now table.now }
    requires limits { IsWithinLimits table.now }
    requires entries { AreEntriesOf instance.now table.now entries.old }
    requires room { IsRoomOf instance.now room.old }
    requires scale { pos 0 <ℤ least.now.scale }
    requires size { unsigned_abs plain ≤ MAX_NODE_VALUE }
    ensures room { IsRoomOf instance.now room.new }
    ensures kept { AreEntriesOf instance.now table.now entries.new }
    ensures reaches { (node : Node) → AreDecided instance.now node entries.old.units.items → IsNodeValue instance.now node table.now plain
        → IsTrue result ↔ (HasValueFrom true instance.now node table.now (least_value least.now) ⊎ HasUnscheduledUnit instance.now node) }
{
    let mut total = plain;
    for g in 0..entries.units.len() {
        if least.is_reached(total) {
            return true;
        }
        let fix = entries.units[g].fix;
        let exact = room.value_from(&mut entries.exact[g], instance, table, g, &fix);
        match gain(exact, part(&entries.units[g])) {
            None => return true,
            Some(gain) => total = sum(total, gain),
        }
    }
    least.is_reached(total)
}

// What a unit's exact value is above what the unit adds without it, where both are there.
fn gain(exact: Option<i128>, part: Option<i128>) -> Option<i128>
    requires exact { IsWithin MAX_COST_TO_GO exact }
    requires part { IsWithin MAX_PART part }
    ensures value { result ≡ gain_of exact part }
    ensures size { IsWithin (2 * MAX_PART) result }
{
    match (exact, part) {
        (Some(exact), Some(part)) => Some(excess(exact, part)),
        _ => None,
    }
}

// How much the greater of two numbers is above the second one.
fn excess(first: i128, second: i128) -> i128
    requires first { unsigned_abs first ≤ MAX_COST_TO_GO }
    requires second { unsigned_abs second ≤ MAX_PART }
    ensures value { result ≡ int_max first second -ℤ second }
    ensures size { unsigned_abs result ≤ 2 * MAX_PART }
{
    difference(first.max(second), second)
}
