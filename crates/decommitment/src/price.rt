//! What a run through all periods costs, from what another one does.

ghost use Rattle.std.specs.Prelude.{◌≡◌, ℕ, ◌*◌, ◌^◌, ◌<◌, ◌≤◌, pos, IfOk, IsTrue, length, slice_index_or, unsigned_abs};
ghost use Rattle.uc_model.specs.Prelude.{printed_shortage_cost, thermal_count, sum_below};
ghost use Rattle.decommitment.specs.DropCommitment.{Printed};
ghost use Rattle.decommitment.specs.inside.Runs.{AreUnitCosts, GivesSame, IsCellOf, IsChanged, IsRowOf, IsTrialOf, IsUnitCost, LacksSo, cost_at, lack_at};
ghost use Rattle.decommitment.specs.inside.Stretches.{IsMarked};
ghost use Rattle.decommitment.specs.declared.stand.Trial.TheVariants as trial;

use crate::fill::Fill;
use crate::run::Origin;
use crate::stretch::{has_mark, keep_same};
use dispatch_repair::committed_cell;
use schedule_check::{row_cost, shortages_cost};
use std::alloc::Global;
use uc_model::{Cell, Instance, NoMemory, Pattern, sum};

/// All periods of a commitment that differs from the origin's in its unit g alone.
#[derive(Clone, Copy)]
pub(crate) struct Changed<'a> {
    pub instance: &'a Instance,
    pub patterns: &'a [Pattern],
    pub origin: &'a Origin<'a>,
    pub fills: &'a [Fill],
}

/// What the commitment's dispatch costs, in micro-dollars; what each unit costs is written. The only error is `NoMemory`.
pub(crate) fn price(alloc: Global, changed: &Changed, costs: &mut [i128]) -> Result<i128, NoMemory>
    requires changed { IsChanged changed.now }
    requires count { length costs.old ≡ thermal_count changed.now.instance.now }
    ensures count { length costs.new ≡ length costs.old }
    ensures costs { IfOk result (λ cost. AreUnitCosts changed.now.instance.now changed.now.patterns.now changed.now.fills.now
        (thermal_count changed.now.instance.now) costs.new) }
    ensures trial { IfOk result (λ cost. IsTrialOf changed.now.instance.now changed.now.patterns.now (trial.Dispatched cost)) }
{
    let units = price_units(alloc, changed, costs)?;
    let missing = missing_cost(alloc, changed)?;
    Ok(sum(units, missing))
}

// What the thermal units cost; what each of them costs is written.
fn price_units(alloc: Global, changed: &Changed, costs: &mut [i128]) -> Result<i128, NoMemory>
    requires changed { IsChanged changed.now }
    requires count { length costs.old ≡ thermal_count changed.now.instance.now }
    ensures count { length costs.new ≡ length costs.old }
    ensures costs { IfOk result (λ total. AreUnitCosts changed.now.instance.now changed.now.patterns.now changed.now.fills.now
        (thermal_count changed.now.instance.now) costs.new) }
    ensures total { IfOk result (λ total. total ≡ sum_below (thermal_count changed.now.instance.now) (cost_at costs.new)) }
    ensures size { IfOk result (λ total. unsigned_abs total ≤ 4096 * (168 * 2 ^ 64)) }
{
    let same = same_units(alloc, changed)?;
    let mut total = 0;
    for g in 0..changed.instance.thermal.as_slice().len() {
        let cost = unit_cost(alloc, changed, g, has_mark(&same, g))?;
        costs[g] = cost;
        total = sum(total, cost);
    }
    Ok(total)
}

// Whether each unit gives the same in each period of both runs.
fn same_units(alloc: Global, changed: &Changed) -> Result<Vec<bool>, NoMemory>
    requires changed { IsChanged changed.now }
    ensures count { IfOk result (λ same. length same.items ≡ thermal_count changed.now.instance.now) }
    ensures same { IfOk result (λ same. (g : ℕ) → g < length same.items → IsMarked same.items g
        → GivesSame changed.now.instance.now g changed.now.origin.now.run.now.fills.items changed.now.fills.now) }
{
    let units = changed.instance.thermal.as_slice().len();
    if changed.origin.run.fills.len() != changed.fills.len() {
        return Ok(vec![in alloc; false; units]?);
    }
    let mut same = vec![in alloc; true; units]?;
    keep_all(changed, &mut same);
    Ok(same)
}

// Takes the marks from the units that don't give the same in each period of both runs, of which there are as many.
fn keep_all(changed: &Changed, marks: &mut [bool])
    requires changed { IsChanged changed.now }
    requires periods { length changed.now.origin.now.run.now.fills.items ≡ length changed.now.fills.now }
    requires units { length marks.old ≡ thermal_count changed.now.instance.now }
    ensures count { length marks.new ≡ length marks.old }
    ensures same { (g : ℕ) → g < length marks.new → IsMarked marks.new g
        → GivesSame changed.now.instance.now g changed.now.origin.now.run.now.fills.items changed.now.fills.now }
{
    let renewables = changed.instance.renewable.as_slice().len();
    let stood = changed.origin.run.fills.as_slice();
    for t in 0..changed.fills.len() {
        let was = stood[t].amounts.as_slice();
        let is = changed.fills[t].amounts.as_slice();
        keep_same(was, is, renewables, marks);
    }
}

// What unit g costs: what it does in the origin's run, where it has the same pattern there and gives the same.
fn unit_cost(alloc: Global, changed: &Changed, g: usize, is_same: bool) -> Result<i128, NoMemory>
    requires changed { IsChanged changed.now }
    requires unit { g < thermal_count changed.now.instance.now }
    requires same { IsTrue is_same → GivesSame changed.now.instance.now g changed.now.origin.now.run.now.fills.items changed.now.fills.now }
    ensures { IfOk result (IsUnitCost changed.now.instance.now changed.now.patterns.now changed.now.fills.now g) }
{
    if g != changed.origin.g && is_same {
        Ok(changed.origin.run.costs[g])
    } else {
        price_row(alloc, changed, g)
    }
}

// What unit g's cells cost.
fn price_row(alloc: Global, changed: &Changed, g: usize) -> Result<i128, NoMemory>
    requires changed { IsChanged changed.now }
    requires unit { g < thermal_count changed.now.instance.now }
    ensures { IfOk result (IsUnitCost changed.now.instance.now changed.now.patterns.now changed.now.fills.now g) }
{
    let row = row_of(alloc, changed, g)?;
    Ok(row_cost(&changed.instance.thermal.as_slice()[g], &row))
}

// Unit g's cells, without reserve.
fn row_of(alloc: Global, changed: &Changed, g: usize) -> Result<Vec<Cell>, NoMemory>
    requires changed { IsChanged changed.now }
    requires unit { g < thermal_count changed.now.instance.now }
    ensures { IfOk result (λ row. IsRowOf changed.now.instance.now changed.now.patterns.now changed.now.fills.now g (length changed.now.fills.now) row.items) }
{
    let mut row = Vec::with_capacity(alloc, changed.fills.len())?;
    for t in 0..changed.fills.len() {
        row.push(cell_of(changed, g, t))?;
    }
    Ok(row)
}

// Unit g's cell in period t, without reserve.
fn cell_of(changed: &Changed, g: usize, t: usize) -> Cell
    requires changed { IsChanged changed.now }
    requires unit { g < thermal_count changed.now.instance.now }
    requires period { t < length changed.now.fills.now }
    ensures { IsCellOf changed.now.instance.now changed.now.patterns.now changed.now.fills.now g t result }
{
    let place = changed.instance.renewable.as_slice().len() + g;
    let cell = committed_cell(changed.instance, changed.patterns, g, t);
    let p = changed.fills[t].amounts[place];
    Cell { p, ..cell }
}

// What is missing costs.
fn missing_cost(alloc: Global, changed: &Changed) -> Result<i128, NoMemory>
    requires changed { IsChanged changed.now }
    ensures value { IfOk result (λ cost. (printed : Printed) → LacksSo changed.now.instance.now changed.now.fills.now printed
        → cost ≡ sum_below changed.now.instance.now.periods (printed_shortage_cost changed.now.instance.now printed)) }
    ensures size { IfOk result (λ cost. unsigned_abs cost ≤ 168 * 2 ^ 96) }
{
    let (shed, short) = lacks(alloc, changed.fills)?;
    Ok(shortages_cost(1, changed.instance, &shed, &short))
}

// The demand that is unserved and the reserve that is missing in each period, in watts.
fn lacks(alloc: Global, fills: &[Fill]) -> Result<(Vec<i64>, Vec<i64>), NoMemory>
    ensures shed_count { IfOk result (λ lacks. length lacks.0.items ≡ length fills.now) }
    ensures short_count { IfOk result (λ lacks. length lacks.1.items ≡ length fills.now) }
    ensures shed { IfOk result (λ lacks. (t : ℕ) → t < length fills.now → slice_index_or lacks.0.items t (pos 0) ≡ (lack_at fills.now t).shed) }
    ensures short { IfOk result (λ lacks. (t : ℕ) → t < length fills.now → slice_index_or lacks.1.items t (pos 0) ≡ (lack_at fills.now t).short) }
{
    let mut shed = Vec::new(alloc);
    let mut short = Vec::new(alloc);
    for t in 0..fills.len() {
        shed.push(fills[t].shortage.shed)?;
        short.push(fills[t].shortage.short)?;
    }
    Ok((shed, short))
}
