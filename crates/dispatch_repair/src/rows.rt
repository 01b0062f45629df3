//! The rows of a schedule while it is dispatched.

ghost use Rattle.std.specs.Prelude.{◌≡◌, ℕ, ◌<◌, ◌≤◌, ◌-ℤ◌, All, IfOk, length, map, slice_set, take};
ghost use Rattle.uc_model.specs.Prelude.{renewable_count, reserve_at, thermal_count, IsLawfulInstance, IsPower};
ghost use Rattle.dispatch_repair.specs.Dispatch.{Instance, Pattern, HasPeriods};
ghost use Rattle.dispatch_repair.specs.Rooms.{ArePowerless, AreRowsOf, AreSameBelow, IsNewCell, IsRoomOf, printed_of, rows_of};
ghost use Rattle.dispatch_repair.specs.Amounts.{IsSizedEnd, IsSizedOutput, amount_at, thermal_amount};
ghost use Rattle.dispatch_repair.specs.inside.Rows.{AreCommittedRows, IsCommittedRow, IsLeft, cell_of, cells_with, list_of, outputs_with, reserve_of, row_at, with_power, written};

use crate::room::Room;
use crate::shortage::Shortage;
use start_costs::start_category;
use std::alloc::Global;
use uc_model::limits::MAX_UNITS;
use uc_model::{Cell, Instance, List, NoMemory, Pattern, Printed};

/// For each unit a cell, or a renewable output in watts, for each period; and what is missing of demand and of reserve.
#[derive(Drop)]
pub struct Rows {
    pub(crate) thermal: Vec<Vec<Cell>>,
    pub(crate) renewable: Vec<Vec<i64>>,
    pub(crate) shed: Vec<i64>,
    pub(crate) short: Vec<i64>,
}

/// The rows of a commitment, without any power.
pub fn committed(alloc: Global, instance: &Instance, patterns: &[Pattern]) -> Result<Rows, NoMemory>
    requires lawful { IsLawfulInstance instance.now }
    requires patterns { length patterns.now ≡ thermal_count instance.now }
    ensures committed { IfOk result (AreRowsOf instance.now patterns.now) }
    ensures powerless { IfOk result (ArePowerless instance.now) }
{
    let thermal = committed_rows(alloc, instance, patterns)?;
    let renewables = instance.renewable.as_slice().len();
    let periods = instance.periods as usize;
    Ok(Rows {
        thermal,
        renewable: no_outputs(alloc, renewables, periods)?,
        shed: vec![in alloc; 0; periods]?,
        short: vec![in alloc; 0; periods]?,
    })
}

// The thermal units' rows, without any power.
fn committed_rows(
    alloc: Global,
    instance: &Instance,
    patterns: &[Pattern],
) -> Result<Vec<Vec<Cell>>, NoMemory>
    requires lawful { IsLawfulInstance instance.now }
    requires patterns { length patterns.now ≡ thermal_count instance.now }
    ensures { IfOk result (λ rows. AreCommittedRows instance.now patterns.now (thermal_count instance.now) (rows_of rows.items)) }
{
    let mut rows = Vec::new(alloc);
    for g in 0..patterns.len() {
        rows.push(committed_row(alloc, instance, patterns, g)?)?;
    }
    Ok(rows)
}

// A unit's row, without any power.
fn committed_row(
    alloc: Global,
    instance: &Instance,
    patterns: &[Pattern],
    g: usize,
) -> Result<Vec<Cell>, NoMemory>
    requires lawful { IsLawfulInstance instance.now }
    requires patterns { length patterns.now ≡ thermal_count instance.now }
    requires unit { g < thermal_count instance.now }
    ensures { IfOk result (λ row. IsCommittedRow instance.now patterns.now g instance.now.periods row.items) }
{
    let mut row = Vec::new(alloc);
    for t in 0..instance.periods as usize {
        row.push(committed_cell(instance, patterns, g, t))?;
    }
    Ok(row)
}

/// The cell of unit g in period t of a commitment, both from 0, without any power: a start takes the cheapest category that the history
/// allows, the first of several.
pub fn committed_cell(instance: &Instance, patterns: &[Pattern], g: usize, t: usize) -> Cell
    requires lawful { IsLawfulInstance instance.now }
    requires patterns { length patterns.now ≡ thermal_count instance.now }
    requires unit { g < thermal_count instance.now }
    requires period { t < instance.now.periods }
    ensures { IsNewCell instance.now patterns.now g t result }
{
    let unit = &instance.thermal.as_slice()[g];
    let pattern = &patterns[g];
    let on = pattern.is_on(t as u32);
    let category = start_category(unit, pattern, t);
    Cell {
        on,
        p: 0,
        r: 0,
        category,
    }
}

// Rows of outputs of 0, for each unit and period.
fn no_outputs(alloc: Global, units: usize, periods: usize) -> Result<Vec<Vec<i64>>, NoMemory>
    ensures units { IfOk result (λ rows. length rows.items ≡ units) }
    ensures periods { IfOk result (λ rows. All (λ row. length row ≡ periods) (rows_of rows.items)) }
{
    let mut rows = Vec::new(alloc);
    for _ in 0..units {
        rows.push(vec![in alloc; 0; periods]?)?;
    }
    Ok(rows)
}

/// Writes the amounts of period t and what is missing in it, and gives reserve to the units in the order of the file, each
/// up to its head, until what is to be kept is reached.
pub(crate) fn write_period(
    instance: &Instance,
    rows: &mut Rows,
    room: &Room,
    shortage: &Shortage,
    t: usize,
)
    requires shape { HasPeriods instance.now instance.now.periods (printed_of rows.old) }
    requires room { IsRoomOf instance.now room.now }
    requires period { t < instance.now.periods }
    requires kept { IsPower (reserve_at instance.now t -ℤ shortage.now.short) }
    requires units { IsLawfulInstance instance.now }
    requires amounts { (g : ℕ) → g < thermal_count instance.now → IsSizedOutput (thermal_amount instance.now room.now.amounts.items g) }
    requires heads { (g : ℕ) → g < thermal_count instance.now → IsSizedEnd (amount_at room.now.heads.items g) }
    ensures { printed_of rows.new ≡ written instance.now room.now.amounts.items room.now.heads.items shortage.now t (printed_of rows.old) }
{
    let kept = without(instance.reserves.as_slice()[t], shortage.short);
    write_powers(instance, rows, room, kept, t);
    set_number(&mut rows.shed, t, shortage.shed);
    set_number(&mut rows.short, t, shortage.short);
}

// A need without what is missing of it.
fn without(need: i64, missing: i64) -> i64
    requires { IsPower (need -ℤ missing) }
    ensures value { result ≡ need -ℤ missing }
    ensures size { IsPower result }
{
    need - missing
}

// Writes the number of period t.
fn set_number(numbers: &mut Vec<i64>, t: usize, number: i64)
    requires { t < length numbers.old.items }
    ensures { numbers.new.items ≡ slice_set numbers.old.items t number }
{
    numbers[t] = number;
}

// Writes the amounts of period t, and reserve up to what is to be kept.
fn write_powers(instance: &Instance, rows: &mut Rows, room: &Room, need: i64, t: usize)
    requires shape { HasPeriods instance.now instance.now.periods (printed_of rows.old) }
    requires room { IsRoomOf instance.now room.now }
    requires period { t < instance.now.periods }
    requires need { IsPower need }
    requires units { IsLawfulInstance instance.now }
    requires amounts { (g : ℕ) → g < thermal_count instance.now → IsSizedOutput (thermal_amount instance.now room.now.amounts.items g) }
    requires heads { (g : ℕ) → g < thermal_count instance.now → IsSizedEnd (amount_at room.now.heads.items g) }
    ensures thermal { rows_of rows.new.thermal.items ≡ list_of (thermal_count instance.now)
        (cells_with (thermal_amount instance.now room.now.amounts.items) (amount_at room.now.heads.items) need t (rows_of rows.old.thermal.items)) }
    ensures renewable { rows_of rows.new.renewable.items ≡ list_of (renewable_count instance.now)
        (outputs_with (amount_at room.now.amounts.items) t (rows_of rows.old.renewable.items)) }
    ensures shed { rows.new.shed ≡ rows.old.shed }
    ensures short { rows.new.short ≡ rows.old.short }
{
    let amounts = room.amounts.as_slice();
    let renewables = instance.renewable.as_slice().len();
    write_outputs(&mut rows.renewable, &amounts[..renewables], t);
    write_cells(
        &mut rows.thermal,
        &amounts[renewables..],
        room.heads.as_slice(),
        need,
        t,
    );
}

// Writes the outputs of period t.
fn write_outputs(rows: &mut Vec<Vec<i64>>, amounts: &[i64], t: usize)
    requires units { length amounts.now ≡ length rows.old.items }
    requires period { (w : ℕ) → w < length rows.old.items → t < length (row_at (rows_of rows.old.items) w) }
    ensures { rows_of rows.new.items ≡ list_of (length rows.old.items) (outputs_with (amount_at amounts.now) t (rows_of rows.old.items)) }
{
    for w in 0..amounts.len() {
        set_at(rows, w, t, &amounts[w]);
    }
}

// Writes the cells of period t, with reserve up to each head until what is needed is reached.
fn write_cells(rows: &mut Vec<Vec<Cell>>, amounts: &[i64], heads: &[i64], need: i64, t: usize)
    requires units { length amounts.now ≡ length rows.old.items }
    requires few { length rows.old.items ≤ MAX_UNITS }
    requires heads { length heads.now ≡ length rows.old.items }
    requires period { (g : ℕ) → g < length rows.old.items → t < length (row_at (rows_of rows.old.items) g) }
    requires need { IsPower need }
    requires outputs { (g : ℕ) → g < length rows.old.items → IsSizedOutput (amount_at amounts.now g) }
    requires ends { (g : ℕ) → g < length rows.old.items → IsSizedEnd (amount_at heads.now g) }
    ensures { rows_of rows.new.items ≡ list_of (length rows.old.items)
        (cells_with (amount_at amounts.now) (amount_at heads.now) need t (rows_of rows.old.items)) }
{
    let mut left = need;
    for g in 0..amounts.len() {
        write_cell(rows, g, t, amounts[g], heads[g], &mut left);
    }
}

// Writes a cell's output, and its reserve: up to its head, and to what is left to give, which it takes away.
fn write_cell(rows: &mut Vec<Vec<Cell>>, g: usize, t: usize, p: i64, head: i64, left: &mut i64)
    requires unit { g < length rows.old.items }
    requires period { t < length (row_at (rows_of rows.old.items) g) }
    requires output { IsSizedOutput p }
    requires head { IsSizedEnd head }
    requires left { IsLeft MAX_UNITS left.old }
    ensures left { left.new ≡ left.old -ℤ reserve_of p head left.old }
    ensures cell { rows_of rows.new.items ≡ slice_set (rows_of rows.old.items) g (slice_set (row_at (rows_of rows.old.items) g) t
        (with_power (cell_of (row_at (rows_of rows.old.items) g) t) p (reserve_of p head left.old))) }
{
    let r = reserve(p, head, *left);
    *left -= r;
    let cell = powered(&rows[g][t], p, r);
    set_at(rows, g, t, &cell);
}

// A cell with this output and reserve.
fn powered(cell: &Cell, p: i64, r: i64) -> Cell
    ensures { result ≡ with_power cell.now p r }
{
    Cell { p, r, ..*cell }
}

// A unit's reserve: up to its head, and to what is left to give.
fn reserve(p: i64, head: i64, left: i64) -> i64
    requires output { IsSizedOutput p }
    requires head { IsSizedEnd head }
    requires left { IsLeft MAX_UNITS left }
    ensures { result ≡ reserve_of p head left }
{
    (head - p).min(left.max(0))
}

// Writes unit i's entry of period t.
fn set_at<T: Copy>(rows: &mut Vec<Vec<T>>, i: usize, t: usize, value: &T)
    requires unit { i < length rows.old.items }
    requires period { t < length (row_at (rows_of rows.old.items) i) }
    ensures { rows_of rows.new.items ≡ slice_set (rows_of rows.old.items) i (slice_set (row_at (rows_of rows.old.items) i) t value.now) }
{
    let row = &mut rows[i];
    row[t] = *value;
}

/// The schedule of these rows.
pub fn printed(alloc: Global, rows: Rows) -> Result<Printed, NoMemory>
    ensures { IfOk result (λ printed. printed ≡ printed_of rows) }
{
    Ok(Printed {
        thermal: List::from_vec(lists(alloc, rows.thermal)?),
        renewable: List::from_vec(lists(alloc, rows.renewable)?),
        shed: List::from_vec(rows.shed),
        short: List::from_vec(rows.short),
        denominator: 1,
    })
}

/// The schedule of the first periods.
pub(crate) fn first_periods(alloc: Global, rows: Rows, periods: usize) -> Result<Printed, NoMemory>
    ensures shape { (instance : Instance) → HasPeriods instance instance.periods (printed_of rows) → periods ≤ instance.periods
        → IfOk result (HasPeriods instance periods) }
    ensures same { IfOk result (AreSameBelow periods (printed_of rows)) }
{
    let mut rows = rows;
    cut(&mut rows.thermal, periods);
    cut(&mut rows.renewable, periods);
    rows.shed.truncate(periods);
    rows.short.truncate(periods);
    printed(alloc, rows)
}

// The rows as lists.
fn lists<T: Drop>(alloc: Global, rows: Vec<Vec<T>>) -> Result<Vec<List<T>>, NoMemory>
    ensures { IfOk result (λ lists. lists.items ≡ rows_of rows.items) }
{
    let mut lists = Vec::new(alloc);
    for row in rows {
        lists.push(List::from_vec(row))?;
    }
    Ok(lists)
}

// The first entries of each row.
fn cut<T: Drop>(rows: &mut Vec<Vec<T>>, periods: usize)
    ensures { rows_of rows.new.items ≡ map (take periods) (rows_of rows.old.items) }
{
    for i in 0..rows.len() {
        let row = &mut rows[i];
        row.truncate(periods);
    }
}
