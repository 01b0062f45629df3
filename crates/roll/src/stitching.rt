//! A schedule of more periods, from what is kept and a window's schedule.

ghost use Rattle.std.specs.Prelude.{ℕ, ◌+◌, ◌<◌, ◌≤◌, IfOk, length};
ghost use Rattle.uc_model.specs.Prelude.{IsLawfulInstance};
ghost use Rattle.uc_model.specs.declared.limits.TheConstants.{MAX_PERIODS};
ghost use Rattle.schedule_check.specs.Accepted.{IsAccepted};
ghost use Rattle.roll.specs.Kept.{IsKept};
ghost use Rattle.roll.specs.Stitched.{IsContinuation, IsStitched};
ghost use Rattle.roll.specs.inside.Joined.{AreEmpty, AreJoinable, AreJoined, AreStitchedRows};
ghost use Rattle.roll.specs.inside.Rows.{AreLawful, row_at};

use crate::rows::{joined, stitched_row};
use std::alloc::Global;
use uc_model::{Cell, Instance, List, NoMemory, Printed, Thermal};

/// The schedule of no period, which is what is kept before the first window: an empty row for each unit. The only error is
/// `NoMemory`.
pub fn begin(alloc: Global, instance: &Instance) -> Result<Printed, NoMemory>
    ensures { IfOk result (IsKept instance.now 0) }
{
    let thermal = empty_rows(alloc, instance.thermal.as_slice().len())?;
    let renewable = empty_rows(alloc, instance.renewable.as_slice().len())?;
    Ok(Printed {
        thermal: List::from_vec(thermal),
        renewable: List::from_vec(renewable),
        shed: List::from_vec(Vec::new(alloc)),
        short: List::from_vec(Vec::new(alloc)),
        denominator: 1,
    })
}

// So many rows without entries.
fn empty_rows<T: Drop>(alloc: Global, count: usize) -> Result<Vec<List<T>>, NoMemory>
    ensures { IfOk result (λ rows. AreEmpty count rows.items) }
{
    let mut rows = Vec::new(alloc);
    for _ in 0..count {
        rows.push(List::from_vec(Vec::new(alloc)))?;
    }
    Ok(rows)
}

/// What is kept, and behind it the first `keep` periods of a schedule of the window there. Each start has the cheapest category
/// that the whole history allows, the first of several. The only error is `NoMemory`.
pub fn stitch(
    alloc: Global,
    instance: &Instance,
    kept: &Printed,
    shown: &Printed,
    keep: u32,
) -> Result<Printed, NoMemory>
    requires lawful { IsLawfulInstance instance.now }
    requires kept { IsKept instance.now (length kept.now.shed) kept.now }
    requires next { IsContinuation instance.now kept.now (length kept.now.shed) keep shown.now }
    ensures stitched { IfOk result (IsStitched instance.now (length kept.now.shed) keep kept.now shown.now) }
    ensures kept { IfOk result (IsKept instance.now (length kept.now.shed + keep)) }
{
    let keep = keep as usize;
    let units = instance.thermal.as_slice();
    let (old, new) = (kept.thermal.as_slice(), shown.thermal.as_slice());
    let thermal = thermal_rows(alloc, units, old, new, keep)?;
    let (old, new) = (kept.renewable.as_slice(), shown.renewable.as_slice());
    let renewable = renewable_rows(alloc, old, new, keep)?;
    let shed = joined(alloc, kept.shed.as_slice(), shown.shed.as_slice(), keep)?;
    let short = joined(alloc, kept.short.as_slice(), shown.short.as_slice(), keep)?;
    Ok(Printed {
        thermal: List::from_vec(thermal),
        renewable: List::from_vec(renewable),
        shed: List::from_vec(shed),
        short: List::from_vec(short),
        denominator: 1,
    })
}

// The rows of the thermal units.
fn thermal_rows(
    alloc: Global,
    units: &[Thermal],
    kept: &[List<Cell>],
    new: &[List<Cell>],
    keep: usize,
) -> Result<Vec<List<Cell>>, NoMemory>
    requires lawful { AreLawful units.now }
    requires rows { AreJoinable (length units.now) keep kept.now new.now }
    requires few { (g : ℕ) → g < length units.now → length (row_at kept.now g) + keep ≤ MAX_PERIODS }
    ensures { IfOk result (λ rows. AreStitchedRows units.now kept.now new.now keep (length units.now) rows.items) }
{
    let mut rows = Vec::new(alloc);
    for g in 0..units.len() {
        let (old, more) = (kept[g].as_slice(), new[g].as_slice());
        rows.push(stitched_row(alloc, &units[g], old, more, keep)?)?;
    }
    Ok(rows)
}

// The outputs of the renewable units.
fn renewable_rows(
    alloc: Global,
    kept: &[List<i64>],
    new: &[List<i64>],
    keep: usize,
) -> Result<Vec<List<i64>>, NoMemory>
    requires { AreJoinable (length kept.now) keep kept.now new.now }
    ensures { IfOk result (λ rows. AreJoined kept.now new.now keep (length kept.now) rows.items) }
{
    let mut rows = Vec::new(alloc);
    for w in 0..kept.len() {
        let row = joined(alloc, kept[w].as_slice(), new[w].as_slice(), keep)?;
        rows.push(List::from_vec(row))?;
    }
    Ok(rows)
}

/// The printed cost, in micro-dollars, of a schedule that is kept of all periods of the instance.
pub fn whole_cost(instance: &Instance, kept: &Printed) -> i64
    requires lawful { IsLawfulInstance instance.now }
    requires kept { IsKept instance.now instance.now.periods kept.now }
    ensures { IsAccepted instance.now kept.now result }
{
    schedule_check::cost(instance, kept)
}
