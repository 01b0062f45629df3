//! What one thermal unit adds to a node's value.

ghost use Rattle.std.specs.Prelude.{◌≡◌, ◌<◌, ◌≤◌, IfOk, IfErr, length, unsigned_abs};
ghost use Rattle.uc_model.specs.Prelude.{IsLawfulInstance, IsLawfulThermal, thermal_count, thermal_unit, commitment_of, period_count};
ghost use Rattle.dual_model.specs.Prelude.{IsFixOf, IsNodeOf, constant_at, HasSizeOf, IsWithinLimits, AreTermsOf, AreSizedTerms, IsBestPattern};
ghost use Rattle.dual_model.specs.declared.node.Node.{Node};
ghost use Rattle.dual_value.specs.NodeAnswer.{Instance, IsPartFault, IsPartOfKind, MAX_PART};
ghost use Rattle.dual_value.specs.Rooms.{IsPlaceIn, IsRoomFor, keeps_ramps};
ghost use Rattle.dual_value.specs.inside.Parts.{IsSizedPart};

use crate::exact_part::{Priced, part_with_ramps};
use crate::fixes::fix_of;
use crate::room::Room;
use crate::valued::ValueFault;
use dual_model::{Node, Table};
use period_term::terms;
use ramp_duals::{constant, fill};
use std::alloc::Global;
use uc_model::{Instance, NoMemory, Pattern, Terms, Thermal, sum};
use unit_exact::Plain;
use unit_path::{Scratch, least};

/// What thermal unit `g`, from 0, adds to the value of the node at the table, of the kind that the room is for, and a pattern of
/// the unit. `Empty(g)` exactly where it is blocked there; the only other error is `NoMemory`.
pub(crate) fn unit_part(
    alloc: Global,
    scratch: &mut Scratch,
    room: &mut Room,
    instance: &Instance,
    node: &Node,
    table: &Table,
    g: usize,
) -> Result<(i128, Pattern), ValueFault>
    requires lawful { IsLawfulInstance instance.now }
    requires unit { g < thermal_count instance.now }
    requires node { IsNodeOf instance.now node.now }
    requires size { HasSizeOf instance.now table.now }
    requires limits { IsWithinLimits table.now }
    requires memory { scratch.old ≡ instance.now.periods }
    requires room { IsRoomFor (keeps_ramps room.old) instance.now room.old }
    ensures kept { scratch.new ≡ scratch.old }
    ensures kept_room { room.new ≡ room.old }
    ensures part { IfOk result (λ part. IsPartOfKind (keeps_ramps room.old) instance.now node.now table.now g part.0 part.1) }
    ensures fault { IfErr result (IsPartFault (keeps_ramps room.old) instance.now node.now g) }
    ensures size { IfOk result (λ part. unsigned_abs part.0 ≤ MAX_PART) }
{
    let number = g as u32;
    let unit = &instance.thermal.as_slice()[g];
    let Some(fix) = fix_of(node, number) else {
        return Err(ValueFault::Empty(number));
    };
    let terms = unit_terms(alloc, room, unit, table, g)?;
    let Some((value, pattern)) = least(scratch, &terms, unit, &fix) else {
        return Err(ValueFault::Empty(number));
    };
    let priced = Priced {
        value,
        constant: constant(table, unit, number),
        plain: Plain {
            fix: &fix,
            terms: &terms,
            pattern: &pattern,
        },
    };
    part_in(room, instance, table, g, &priced)
}

// What the unit adds, of the kind that the room is for, where this is what it adds with ramps priced.
fn part_in(
    room: &mut Room,
    instance: &Instance,
    table: &Table,
    g: usize,
    priced: &Priced,
) -> Result<(i128, Pattern), ValueFault>
    requires lawful { IsLawfulInstance instance.now }
    requires unit { g < thermal_count instance.now }
    requires size { HasSizeOf instance.now table.now }
    requires limits { IsWithinLimits table.now }
    requires room { IsRoomFor (keeps_ramps room.old) instance.now room.old }
    requires terms { AreTermsOf instance.now table.now g priced.now.plain.terms.now }
    requires sized { AreSizedTerms (thermal_unit instance.now g) priced.now.plain.terms.now }
    requires constant { priced.now.constant ≡ constant_at instance.now table.now g }
    requires numbers { IsSizedPart priced.now }
    ensures kept { room.new ≡ room.old }
    ensures part { (node : Node) → IsFixOf instance.now.periods node g priced.now.plain.fix.now
        → IsBestPattern instance.now node table.now g (commitment_of priced.now.plain.pattern.now) priced.now.value
        → IfOk result (λ part. IsPartOfKind (keeps_ramps room.old) instance.now node table.now g part.0 part.1) }
    ensures fault { (node : Node) → IsFixOf instance.now.periods node g priced.now.plain.fix.now
        → IfErr result (IsPartFault (keeps_ramps room.old) instance.now node g) }
    ensures size { IfOk result (λ part. unsigned_abs part.0 ≤ MAX_PART) }
{
    let Some(exact) = &mut room.exact else {
        return Ok((priced.part(), *priced.plain.pattern));
    };
    part_with_ramps(exact, instance, &room.curves[g], table, g as u32, priced)
}

// The terms of thermal unit g at the table.
fn unit_terms(
    alloc: Global,
    room: &mut Room,
    unit: &Thermal,
    table: &Table,
    g: usize,
) -> Result<Terms, NoMemory>
    requires lawful { IsLawfulThermal unit.now }
    requires limits { IsWithinLimits table.now }
    requires place { IsPlaceIn room.old unit.now table.now g }
    ensures kept { room.new ≡ room.old }
    ensures sized { IfOk result (AreSizedTerms unit.now) }
    ensures periods { IfOk result (λ terms. period_count terms ≡ room.old.periods) }
    ensures at_table { (instance : Instance) → thermal_unit instance g ≡ unit.now → instance.periods ≡ room.old.periods
        → IfOk result (AreTermsOf instance table.now g) }
{
    let rows = room.rows.as_mut_slice();
    fill(rows, table, g as u32);
    terms(alloc, unit, &room.curves[g], table.k(), rows)
}
