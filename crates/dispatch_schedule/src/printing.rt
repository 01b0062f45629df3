//! Printing the amounts that are chosen as a schedule.

ghost use Rattle.std.specs.Prelude.{◌≡◌, ◌≤◌, ◌<◌, pos, ◌+ℤ◌, ◌*ℤ◌, ◌≤ℤ◌, ◌<ℤ◌, IfOk};
ghost use Rattle.uc_model.specs.Prelude.{IsLawfulInstance, renewable_count, thermal_count};
ghost use Rattle.dispatch_rules.specs.Prelude.{AreAllowed};
ghost use Rattle.dispatch_schedule.specs.inside.Chosen.{AreCellRows, AreNumbers, AreRows, AreSmall, AreSmallOutputs, IsCellOf, IsCellRow, IsPrintOf, low_of, renewable_of, total_of};
ghost use Rattle.dispatch_schedule.specs.declared.power.Power.TheVariants.{Missing, Unserved};

use crate::choices::total;
use crate::chosen::Chosen;
use crate::power::Power;
use start_costs::start_category;
use std::alloc::Global;
use uc_model::{Cell, Instance, List, NoMemory, Pattern, Printed};

/// The schedule of the commitment with these amounts over the denominator.
pub(crate) fn print(
    alloc: Global,
    instance: &Instance,
    patterns: &[Pattern],
    chosen: &[Chosen],
    denominator: u8,
) -> Result<Printed, NoMemory>
    requires lawful { IsLawfulInstance instance.now }
    requires allowed { AreAllowed instance.now patterns.now }
    requires small { AreSmall instance.now chosen.now }
    requires outputs { AreSmallOutputs instance.now chosen.now denominator }
    requires denominator { denominator ≤ 99 }
    ensures { IfOk result (IsPrintOf instance.now patterns.now chosen.now denominator) }
{
    let thermal = cell_rows(alloc, instance, patterns, chosen)?;
    let renewable = renewable_rows(alloc, instance, chosen, denominator)?;
    let shed = unserved(alloc, instance, chosen)?;
    let short = missing(alloc, instance, chosen)?;
    Ok(Printed {
        thermal: List::from_vec(thermal),
        renewable: List::from_vec(renewable),
        shed: List::from_vec(shed),
        short: List::from_vec(short),
        denominator,
    })
}

// The thermal units' rows.
fn cell_rows(
    alloc: Global,
    instance: &Instance,
    patterns: &[Pattern],
    chosen: &[Chosen],
) -> Result<Vec<List<Cell>>, NoMemory>
    requires lawful { IsLawfulInstance instance.now }
    requires allowed { AreAllowed instance.now patterns.now }
    requires small { AreSmall instance.now chosen.now }
    ensures { IfOk result (λ rows. AreCellRows instance.now patterns.now chosen.now (thermal_count instance.now) rows.items) }
{
    let mut rows = Vec::new(alloc);
    for g in 0..instance.thermal.as_slice().len() {
        let row = cell_row(alloc, instance, patterns, chosen, g)?;
        rows.push(List::from_vec(row))?;
    }
    Ok(rows)
}

// A thermal unit's row.
fn cell_row(
    alloc: Global,
    instance: &Instance,
    patterns: &[Pattern],
    chosen: &[Chosen],
    g: usize,
) -> Result<Vec<Cell>, NoMemory>
    requires lawful { IsLawfulInstance instance.now }
    requires allowed { AreAllowed instance.now patterns.now }
    requires small { AreSmall instance.now chosen.now }
    requires unit { g < thermal_count instance.now }
    ensures { IfOk result (λ row. IsCellRow instance.now patterns.now chosen.now g instance.now.periods row.items) }
{
    let mut row = Vec::new(alloc);
    for t in 0..instance.periods as usize {
        row.push(cell(instance, patterns, chosen, g, t))?;
    }
    Ok(row)
}

fn cell(instance: &Instance, patterns: &[Pattern], chosen: &[Chosen], g: usize, t: usize) -> Cell
    requires lawful { IsLawfulInstance instance.now }
    requires allowed { AreAllowed instance.now patterns.now }
    requires small { AreSmall instance.now chosen.now }
    requires unit { g < thermal_count instance.now }
    requires period { t < instance.now.periods }
    ensures { IsCellOf instance.now patterns.now chosen.now g t result }
{
    let (unit, period) = (g as u32, t as u32);
    let pattern = &patterns[g];
    Cell {
        on: pattern.is_on(period),
        p: total(chosen, Power::Output(unit, period)),
        r: total(chosen, Power::Reserve(unit, period)),
        category: start_category(&instance.thermal.as_slice()[g], pattern, t),
    }
}

// The renewable units' rows.
fn renewable_rows(
    alloc: Global,
    instance: &Instance,
    chosen: &[Chosen],
    denominator: u8,
) -> Result<Vec<List<i64>>, NoMemory>
    requires lawful { IsLawfulInstance instance.now }
    requires small { AreSmall instance.now chosen.now }
    requires outputs { AreSmallOutputs instance.now chosen.now denominator }
    requires denominator { denominator ≤ 99 }
    ensures { IfOk result (λ rows. AreRows (renewable_of instance.now chosen.now denominator) instance.now.periods (renewable_count instance.now) rows.items) }
{
    let mut rows = Vec::new(alloc);
    for w in 0..instance.renewable.as_slice().len() {
        let row = renewable_row(alloc, instance, chosen, denominator, w)?;
        rows.push(List::from_vec(row))?;
    }
    Ok(rows)
}

// A renewable unit's row.
fn renewable_row(
    alloc: Global,
    instance: &Instance,
    chosen: &[Chosen],
    denominator: u8,
    w: usize,
) -> Result<Vec<i64>, NoMemory>
    requires lawful { IsLawfulInstance instance.now }
    requires small { AreSmall instance.now chosen.now }
    requires outputs { AreSmallOutputs instance.now chosen.now denominator }
    requires denominator { denominator ≤ 99 }
    requires unit { w < renewable_count instance.now }
    ensures { IfOk result (λ row. AreNumbers (renewable_of instance.now chosen.now denominator w) instance.now.periods row.items) }
{
    let mut row = Vec::new(alloc);
    for t in 0..instance.periods as usize {
        let more = total(chosen, Power::Renewable(w as u32, t as u32));
        let low = low(instance, w, t);
        row.push(output(&more, &low, denominator))?;
    }
    Ok(row)
}

// The least output of a renewable unit, in watts.
fn low(instance: &Instance, w: usize, t: usize) -> i64
    requires lawful { IsLawfulInstance instance.now }
    requires unit { w < renewable_count instance.now }
    requires period { t < instance.now.periods }
    ensures { result ≡ low_of instance.now w t }
{
    instance.renewable.as_slice()[w].minimum.as_slice()[t].max(0)
}

// An output, by what is given above the least one, which is over 1.
fn output(more: &i64, low: &i64, denominator: u8) -> i64
    requires more { pos 0 ≤ℤ more.now }
    requires low { pos 0 ≤ℤ low.now }
    requires small { (more.now +ℤ pos denominator *ℤ low.now) <ℤ pos 1000000000000000 }
    ensures { result ≡ more.now +ℤ pos denominator *ℤ low.now }
{
    *more + denominator as i64 * *low
}

// The demand that isn't served, by periods.
fn unserved(alloc: Global, instance: &Instance, chosen: &[Chosen]) -> Result<Vec<i64>, NoMemory>
    requires lawful { IsLawfulInstance instance.now }
    requires small { AreSmall instance.now chosen.now }
    ensures { IfOk result (λ row. AreNumbers (λ t. total_of chosen.now (Unserved t)) instance.now.periods row.items) }
{
    let mut row = Vec::new(alloc);
    for t in 0..instance.periods {
        row.push(total(chosen, Power::Unserved(t)))?;
    }
    Ok(row)
}

// The reserve that is missing, by periods.
fn missing(alloc: Global, instance: &Instance, chosen: &[Chosen]) -> Result<Vec<i64>, NoMemory>
    requires lawful { IsLawfulInstance instance.now }
    requires small { AreSmall instance.now chosen.now }
    ensures { IfOk result (λ row. AreNumbers (λ t. total_of chosen.now (Missing t)) instance.now.periods row.items) }
{
    let mut row = Vec::new(alloc);
    for t in 0..instance.periods {
        row.push(total(chosen, Power::Missing(t)))?;
    }
    Ok(row)
}
