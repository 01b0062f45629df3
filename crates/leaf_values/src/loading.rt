//! The entries of a table, made anew.

ghost use Rattle.std.specs.Prelude.{◌≡◌, ℕ, ◌<◌, ◌≤◌, ◌+ℤ◌, IfOk, length, unsigned_abs};
ghost use Rattle.uc_model.specs.Prelude.{IsLawfulInstance, thermal_count, thermal_unit, period_count};
ghost use Rattle.dual_model.specs.Prelude.{constant_at, renewables_value as renewables_of, system_value as system_of, HasSizeOf, IsWithinLimits, AreTermsOf, AreSizedTerms};
ghost use Rattle.leaf_values.specs.Entries.{AreEntriesOf, IsEntryOf, IsReckoned, MAX_CONSTANT, MAX_REST};

use crate::entries::{ExactEntry, TableEntries, UnitEntry};
use crate::fixes::undecided;
use crate::units::unit_of;
use cost_curves::Curve;
use dual_model::Table;
use period_term::terms;
use ramp_duals::{constant, fill};
use state_walk::{Walk, least};
use std::alloc::Global;
use system_value::{renewables_value, system_value};
use uc_model::{Instance, NoMemory, Terms, sum};

/// The entries of a table's units, with their values where nothing is decided, and without exact values. The only error is `NoMemory`. Takes a
/// time that grows as the number of units and the square of the number of periods.
pub fn load(
    alloc: Global,
    walk: &mut Walk,
    instance: &Instance,
    table: &Table,
) -> Result<TableEntries, NoMemory>
    requires lawful { IsLawfulInstance instance.now }
    requires size { HasSizeOf instance.now table.now }
    requires limits { IsWithinLimits table.now }
    requires room { walk.old ≡ instance.now.periods }
    ensures kept { walk.new ≡ walk.old }
    ensures entries { IfOk result (AreEntriesOf instance.now table.now) }
{
    let mut units = Vec::new(alloc);
    let mut rows = vec![in alloc; (0_i128, 0_i128, 0_i128); instance.periods as usize]?;
    for g in 0..instance.thermal.as_slice().len() {
        units.push(entry(alloc, walk, &mut rows, instance, table, g)?)?;
    }
    let exact = vec![in alloc; ExactEntry::Unsought; instance.thermal.as_slice().len()]?;
    Ok(TableEntries {
        units,
        exact,
        rest: rest(instance, table),
    })
}

// The entry of thermal unit g, with its value where nothing is decided. It fills `rows` with the unit's prices.
fn entry(
    alloc: Global,
    walk: &mut Walk,
    rows: &mut [(i128, i128, i128)],
    instance: &Instance,
    table: &Table,
    g: usize,
) -> Result<UnitEntry, NoMemory>
    requires lawful { IsLawfulInstance instance.now }
    requires size { HasSizeOf instance.now table.now }
    requires limits { IsWithinLimits table.now }
    requires unit { g < thermal_count instance.now }
    requires room { walk.old ≡ instance.now.periods }
    requires rows { length rows.old ≡ instance.now.periods }
    ensures kept { walk.new ≡ walk.old }
    ensures reckoned { IfOk result (IsReckoned instance.now.periods (thermal_unit instance.now g)) }
    ensures entry { IfOk result (IsEntryOf instance.now table.now g) }
{
    let terms = unit_terms(alloc, rows, instance, table, g)?;
    let constant = unit_constant(instance, table, g);
    let fix = undecided();
    let value = least(walk, &terms, unit_of(instance, g), &fix);
    Ok(UnitEntry {
        terms,
        constant,
        fix,
        value,
    })
}

// The terms of thermal unit g. It fills `rows` with the unit's prices.
fn unit_terms(
    alloc: Global,
    rows: &mut [(i128, i128, i128)],
    instance: &Instance,
    table: &Table,
    g: usize,
) -> Result<Terms, NoMemory>
    requires lawful { IsLawfulInstance instance.now }
    requires size { HasSizeOf instance.now table.now }
    requires limits { IsWithinLimits table.now }
    requires unit { g < thermal_count instance.now }
    requires rows { length rows.old ≡ instance.now.periods }
    ensures sized { IfOk result (AreSizedTerms (thermal_unit instance.now g)) }
    ensures periods { IfOk result (λ terms. period_count terms ≡ instance.now.periods) }
    ensures terms { IfOk result (AreTermsOf instance.now table.now g) }
{
    fill(rows, table, g as u32);
    let unit = unit_of(instance, g);
    let curve = Curve::of(alloc, unit.points.as_slice())?;
    terms(alloc, unit, &curve, table.k(), rows)
}

// The constant of thermal unit g.
fn unit_constant(instance: &Instance, table: &Table, g: usize) -> i128
    requires lawful { IsLawfulInstance instance.now }
    requires size { HasSizeOf instance.now table.now }
    requires limits { IsWithinLimits table.now }
    requires unit { g < thermal_count instance.now }
    ensures value { result ≡ constant_at instance.now table.now g }
    ensures size { unsigned_abs result ≤ MAX_CONSTANT }
{
    constant(table, unit_of(instance, g), g as u32)
}

// What doesn't hang on thermal units.
fn rest(instance: &Instance, table: &Table) -> i128
    requires lawful { IsLawfulInstance instance.now }
    requires size { HasSizeOf instance.now table.now }
    requires limits { IsWithinLimits table.now }
    ensures value { result ≡ system_of instance.now table.now +ℤ renewables_of instance.now table.now }
    ensures size { unsigned_abs result ≤ MAX_REST }
{
    sum(
        system_value(instance, table),
        renewables_value(instance, table),
    )
}
