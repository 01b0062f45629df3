//! The schedule of a state, in whole watts.

ghost use Rattle.std.specs.Prelude.{◌≡◌, IfOk};
ghost use Rattle.uc_model.specs.Prelude.{IsLawfulInstance, IsLawfulThermal};

use repair_state::{Plant, RepairState, Unit, Window, at, is_on, limits_at, put, unit_at};
use start_costs::least_allowed;
use std::alloc::Global;
use uc_model::limits::MAX_PERIODS;
use uc_model::{Cell, Instance, List, NoMemory, Pattern, Printed, Renewable, Thermal};

/// The schedule of a state, whose windows are centred on what each unit gives. The only error is `NoMemory`.
pub(crate) fn printed_of(
    alloc: Global,
    plant: &Plant,
    state: &RepairState,
    instance: &Instance,
) -> Result<Printed, NoMemory>
    requires { IsLawfulInstance instance.now }
    ensures { IfOk result (λ printed. printed.denominator ≡ 1) }
{
    let mut wanted = instance.reserves.as_slice().to_vec(alloc)?;
    let mut left = instance.demand.as_slice().to_vec(alloc)?;
    let thermal = thermal_rows(alloc, plant, state, instance, &mut wanted, &mut left)?;
    let renewable = renewable_rows(alloc, instance, &mut left)?;
    keep_missing(&mut left, instance.a);
    keep_missing(&mut wanted, instance.b);
    Ok(Printed {
        thermal: List::from_vec(thermal),
        renewable: List::from_vec(renewable),
        shed: List::from_vec(left),
        short: List::from_vec(wanted),
        denominator: 1,
    })
}

// Makes what is left of a need what is missing of it, which is nothing where that has no price.
fn keep_missing(left: &mut [i64], price: u32) {
    for watts in left.iter_mut() {
        *watts = if price > 0 { (*watts).max(0) } else { 0 };
    }
}

// The cells of all thermal units.
fn thermal_rows(
    alloc: Global,
    plant: &Plant,
    state: &RepairState,
    instance: &Instance,
    wanted: &mut [i64],
    left: &mut [i64],
) -> Result<Vec<List<Cell>>, NoMemory>
    requires { IsLawfulInstance instance.now }
{
    let mut rows = Vec::new(alloc);
    let count = plant.units.len().min(state.patterns.len());
    for g in 0..count.min(state.rows.len()) {
        if let Some(thermal) = unit_at(instance, g) {
            let cells = cells(
                alloc,
                thermal,
                &plant.units[g],
                &state.patterns[g],
                &state.rows[g],
                instance.periods,
                wanted,
                left,
            )?;
            rows.push(List::from_vec(cells))?;
        }
    }
    Ok(rows)
}

// The cells of a unit, which gives of the wanted reserve what it can, and takes its output from what is left of demand.
fn cells(
    alloc: Global,
    thermal: &Thermal,
    unit: &Unit,
    pattern: &Pattern,
    row: &[Window],
    periods: u32,
    wanted: &mut [i64],
    left: &mut [i64],
) -> Result<Vec<Cell>, NoMemory>
    requires { IsLawfulThermal thermal.now }
{
    let mut cells = Vec::new(alloc);
    let mut before = unit.before;
    let mut was_on = unit.was_on;
    let mut t: u32 = 0;
    for i in 0..row.len().min(wanted.len()).min(left.len()) {
        let on = is_on(pattern, t);
        let mut cell = OFF;
        if on {
            let head = limits_at(unit, pattern, t, periods).head;
            let most = head.min(before.saturating_add(unit.rise));
            let spare = most.saturating_sub(row[i].power);
            cell = Cell {
                on,
                p: row[i].power,
                r: spare.min(wanted[i]).max(0),
                category: category(thermal, pattern, t, !was_on),
            };
            left[i] = left[i].saturating_sub(unit.minimum).saturating_sub(cell.p);
            wanted[i] = wanted[i].saturating_sub(cell.r);
        }
        before = cell.p;
        was_on = on;
        put(&mut cells, cell)?;
        t = t.saturating_add(1);
    }
    Ok(cells)
}

const OFF: Cell = Cell {
    on: false,
    p: 0,
    r: 0,
    category: 0,
};

// The category of a start, and 0 where there is none.
fn category(thermal: &Thermal, pattern: &Pattern, t: u32, starts: bool) -> u8
    requires { IsLawfulThermal thermal.now }
{
    if starts && t < MAX_PERIODS {
        least_allowed(thermal, pattern, t as usize).0
    } else {
        0
    }
}

// What the renewable units give: each its least, and of what is left then as much as it can.
fn renewable_rows(
    alloc: Global,
    instance: &Instance,
    left: &mut [i64],
) -> Result<Vec<List<i64>>, NoMemory> {
    for unit in instance.renewable.as_slice() {
        for t in 0..left.len() {
            left[t] = left[t].saturating_sub(at(unit.minimum.as_slice(), t).max(0));
        }
    }
    let mut rows = Vec::new(alloc);
    for unit in instance.renewable.as_slice() {
        let mut outputs = vec![in alloc; 0; left.len()]?;
        fill_outputs(unit, left, &mut outputs);
        rows.push(List::from_vec(outputs))?;
    }
    Ok(rows)
}

fn fill_outputs(unit: &Renewable, left: &mut [i64], outputs: &mut [i64]) {
    for t in 0..left.len().min(outputs.len()) {
        let least = at(unit.minimum.as_slice(), t).max(0);
        let most = at(unit.maximum.as_slice(), t);
        let more = most.saturating_sub(least).min(left[t]).max(0);
        left[t] = left[t].saturating_sub(more);
        outputs[t] = least.saturating_add(more);
    }
}
