//! The value of a node at the table that was loaded last.

ghost use Rattle.std.specs.Prelude.{◌≡◌, ◌+◌, ◌≤◌, MatchOption, length, unsigned_abs};
ghost use Rattle.uc_model.specs.Prelude.{IsLawfulInstance, IsLawfulThermal, thermal_count};
ghost use Rattle.dual_model.specs.Prelude.{HasEmptyUnit, IsNodeValue, IsWithin, MAX_COST_TO_GO};
ghost use Rattle.leaf_values.specs.Entries.{AreEntriesOf, AreReckoned, AreUnitsReckoned, IsReckoned, MAX_CONSTANT, MAX_NODE_VALUE};
ghost use Rattle.dual_model.specs.declared.table.Table.{Table};
ghost use Rattle.leaf_values.specs.Paths.{Node, AreFixesOf};
ghost use Rattle.leaf_values.specs.inside.Totals.{AreReckonedFor, HasNoValue, IsPart, IsReckonedFor, IsTotal};

use crate::entries::{TableEntries, UnitEntry};
use crate::units::unit_of;
use dual_model::Fix;
use state_walk::{Walk, least};
use uc_model::{Instance, Pattern, Thermal, sum};

/// The value, exact and at the table's scale, of a node that decides `fixes` of the thermal units, at the table that the
/// entries are of; `None` exactly where some unit has no pattern at the node. Takes no memory, and a walk for each unit
/// of which something else is decided than the entry's value is for.
pub fn value(
    entries: &mut TableEntries,
    walk: &mut Walk,
    instance: &Instance,
    fixes: &[Fix],
) -> Option<i128>
    requires lawful { IsLawfulInstance instance.now }
    requires entries { AreReckoned instance.now entries.old }
    requires fixes { length fixes.now ≡ thermal_count instance.now }
    requires room { walk.old ≡ instance.now.periods }
    ensures kept_room { walk.new ≡ walk.old }
    ensures reckoned { AreReckoned instance.now entries.new }
    ensures kept { (table : Table) → AreEntriesOf instance.now table entries.old → AreEntriesOf instance.now table entries.new }

    ensures value { (table : Table) (node : Node) → AreEntriesOf instance.now table entries.old
        → AreFixesOf instance.now node fixes.now
        → MatchOption result (HasEmptyUnit instance.now node) (IsNodeValue instance.now node table) }
    ensures size { IsWithin MAX_NODE_VALUE result }
{
    reckon_each(entries.units.as_mut_slice(), walk, instance, fixes);
    total(entries, instance)
}

/// Reckons each unit's value for its fix.
pub(crate) fn reckon_each(
    units: &mut [UnitEntry],
    walk: &mut Walk,
    instance: &Instance,
    fixes: &[Fix],
)
    requires lawful { IsLawfulInstance instance.now }
    requires units { AreUnitsReckoned instance.now units.old }
    requires fixes { length fixes.now ≡ thermal_count instance.now }
    requires room { walk.old ≡ instance.now.periods }
    ensures kept { walk.new ≡ walk.old }
    ensures units { AreReckonedFor instance.now fixes.now (thermal_count instance.now) units.old units.new }
{
    for g in 0..fixes.len() {
        let unit = unit_of(instance, g);
        reckon(&mut units[g], walk, unit, &fixes[g]);
    }
}

// Reckons the value of a unit for the fix, if its entry has that for another one.
fn reckon(entry: &mut UnitEntry, walk: &mut Walk, unit: &Thermal, fix: &Fix)
    requires lawful { IsLawfulThermal unit.now }
    requires entry { IsReckoned walk.old unit.now entry.old }
    ensures kept { walk.new ≡ walk.old }
    ensures entry { IsReckonedFor walk.old unit.now fix.now entry.old entry.new }
{
    if entry.fix != *fix {
        entry.value = least(walk, &entry.terms, unit, fix);
        entry.fix = *fix;
    }
}

/// The sum of what each unit adds and what doesn't hang on them; `None` exactly where some unit has no value.
pub(crate) fn total(entries: &TableEntries, instance: &Instance) -> Option<i128>
    requires lawful { IsLawfulInstance instance.now }
    requires entries { AreReckoned instance.now entries.now }
    ensures total { MatchOption result (HasNoValue entries.now (thermal_count instance.now)) (IsTotal entries.now (thermal_count instance.now)) }
    ensures size { IsWithin MAX_NODE_VALUE result }
{
    let mut total = entries.rest;
    for g in 0..entries.units.len() {
        match part(&entries.units[g]) {
            None => return None,
            Some(part) => total = sum(total, part),
        }
    }
    Some(total)
}

/// What a unit adds: its value and its constant.
pub(crate) fn part(entry: &UnitEntry) -> Option<i128>
    requires value { IsWithin MAX_COST_TO_GO entry.now.value }
    requires constant { unsigned_abs entry.now.constant ≤ MAX_CONSTANT }
    ensures part { IsPart entry.now result }
    ensures size { IsWithin (MAX_COST_TO_GO + MAX_CONSTANT) result }
{
    match entry.value {
        None => None,
        Some(value) => Some(sum(value, entry.constant)),
    }
}
