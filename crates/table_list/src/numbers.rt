//! A table that is being rebuilt.

ghost use Rattle.std.specs.Prelude.{◌≡◌, ◌≤◌, ◌<◌, ◌++◌, suc, true, IfOk, OnOk, length, take, drop, slice_set, if◌then◌else◌};
ghost use Rattle.dual_model.specs.Prelude.{AreRising, IsWellFormed};
ghost use Rattle.table_list.specs.Changes.{all_changed, changed, is_before, is_none, placed, with_row};
ghost use Rattle.table_list.specs.TableChanges.{changes_of, change_of};
ghost use Rattle.table_list.specs.inside.Steps.{numbered, IsRowPlace};
ghost use Rattle.table_list.specs.inside.Kept.{with_scale};

use crate::change::Change;
use crate::rows::is_before;
use dual_model::{RampRow, Table};
use std::alloc::Global;
use uc_model::NoMemory;

/// The numbers of a table.
#[derive(Drop)]
pub(crate) struct Numbers {
    units: u32,
    k: i64,
    pi: Vec<i64>,
    mu: Vec<i64>,
    ramps: Vec<RampRow>,
}

// The same elements.
fn copied<T: Copy>(alloc: Global, items: &[T]) -> Result<Vec<T>, NoMemory>
    ensures { IfOk result (λ copy. copy.items ≡ items.now) }
{
    let mut copy = Vec::new(alloc);
    copy.extend_from_slice(items)?;
    Ok(copy)
}

// Sets the price of period t, where there is that period.
fn set_price(prices: &mut Vec<i64>, t: usize, price: i64)
    ensures { prices.new.items ≡ slice_set prices.old.items t price }
{
    if t < prices.len() {
        prices[t] = price;
    }
}

// The first of rising rows that doesn't come before the row, or else their end.
fn place_of(rows: &[RampRow], row: &RampRow) -> usize
    requires { AreRising rows.now }
    ensures { IsRowPlace rows.now row.now result }
{
    rows.partition_point(
        |other: &RampRow| -> bool
            ensures { result ≡ is_before other.now row.entry.now }
        { is_before(other, row) },
    )
}

// Whether the row there is of this one's unit and period, of rising rows of which that is the first one that doesn't come before it.
fn is_there(rows: &[RampRow], place: usize, row: &RampRow) -> bool
    requires { IsRowPlace rows.now row.now place }
    ensures within { result ≡ true → place < length rows.now }
    ensures rows { with_row (drop place rows.now) row.now ≡ placed row.now (drop (if result then suc place else place) rows.now) }
{
    place < rows.len() && !is_before(row, &rows[place])
}

// Puts a row in place of the one there, unless it is all 0.
fn replace(rows: &mut Vec<RampRow>, place: usize, row: &RampRow)
    requires { place < length rows.old.items }
    ensures { rows.new.items ≡ take place rows.old.items ++ placed row.now (drop (suc place) rows.old.items) }
{
    if is_none(row) {
        rows.remove(place);
    } else {
        rows[place] = *row;
    }
}

// Puts a row before the one there, unless it is all 0.
fn insert(rows: &mut Vec<RampRow>, place: usize, row: &RampRow) -> Result<(), NoMemory>
    requires { place ≤ length rows.old.items }
    ensures { OnOk result (rows.new.items ≡ take place rows.old.items ++ placed row.now (drop place rows.old.items)) }
{
    if !is_none(row) {
        rows.insert(place, *row)?;
    }
    Ok(())
}

// Puts a row in place of that of its unit and period.
fn set_row(rows: &mut Vec<RampRow>, row: &RampRow) -> Result<(), NoMemory>
    requires { AreRising rows.old.items }
    ensures { OnOk result (rows.new.items ≡ with_row rows.old.items row.now) }
{
    let place = place_of(rows.as_slice(), row);
    if is_there(rows.as_slice(), place, row) {
        replace(rows, place, row);
        return Ok(());
    }
    insert(rows, place, row)
}

fn is_none(row: &RampRow) -> bool
    ensures { result ≡ is_none row.now }
{
    row.up == 0 && row.down == 0
}

impl Numbers {
    /// Those of a table, with this scale.
    pub(crate) fn of(alloc: Global, table: &Table, k: i64) -> Result<Numbers, NoMemory>
        ensures numbers { IfOk result (λ numbers. numbered numbers ≡ with_scale table.now k) }
        ensures rising { IfOk result (λ numbers. AreRising numbers.ramps.items) }
    {
        Ok(Numbers {
            units: table.units(),
            k,
            pi: copied(alloc, table.pi())?,
            mu: copied(alloc, table.mu())?,
            ramps: copied(alloc, table.ramps())?,
        })
    }

    // Makes a change.
    fn make(&mut self, change: &Change) -> Result<(), NoMemory>
        requires { AreRising self.old.ramps.items }
        ensures { OnOk result (numbered self.new ≡ changed (numbered self.old) (change_of change.now)) }
    {
        match change {
            Change::Demand { t, price } => set_price(&mut self.pi, *t, *price),
            Change::Reserve { t, price } => set_price(&mut self.mu, *t, *price),
            Change::Ramps(row) => set_row(&mut self.ramps, row)?,
        }
        Ok(())
    }

    /// Makes the changes, one after another.
    pub(crate) fn make_all(&mut self, changes: &[Change]) -> Result<(), NoMemory>
        requires { AreRising self.old.ramps.items }
        ensures { OnOk result (numbered self.new ≡ all_changed (numbered self.old) (changes_of changes.now)) }
    {
        for change in changes {
            self.make(change)?;
        }
        Ok(())
    }

    /// The table of these numbers.
    pub(crate) fn table(&self, alloc: Global) -> Result<Table, NoMemory>
        requires { IsWellFormed (numbered self.now) }
        ensures { IfOk result (λ table. table ≡ numbered self.now) }
    {
        Table::new(
            alloc,
            self.units,
            self.k,
            self.pi.as_slice(),
            self.mu.as_slice(),
            self.ramps.as_slice(),
        )
    }
}
