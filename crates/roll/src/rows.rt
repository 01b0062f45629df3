//! Rows of a stitched schedule.

ghost use Rattle.std.specs.Prelude.{◌≡◌, ◌≢◌, ℕ, ◌+◌, ◌++◌, ◌<◌, ◌≤◌, IfOk, false, length, take};
ghost use Rattle.uc_model.specs.Prelude.{IsLawfulThermal, commitment_of};
ghost use Rattle.uc_model.specs.declared.limits.TheConstants.{MAX_PERIODS};
ghost use Rattle.schedule_check.specs.WholeWatts.{category, cell, commitment};
ghost use Rattle.roll.specs.Stitched.{SameDispatch};
ghost use Rattle.start_costs.specs.Cheapest.{HasLeastCategory};
ghost use Rattle.roll.specs.inside.Joined.{IsStitchedRow};

use start_costs::start_category;
use std::alloc::Global;
use uc_model::limits::MAX_PERIODS;
use uc_model::{Cell, List, NoMemory, Pattern, Thermal};

/// What is kept, and behind it the first `keep` of what is new. The only error is `NoMemory`.
pub(crate) fn joined<T: Copy>(
    alloc: Global,
    kept: &[T],
    new: &[T],
    keep: usize,
) -> Result<Vec<T>, NoMemory>
    requires { keep ≤ length new.now }
    ensures { IfOk result (λ row. row.items ≡ kept.now ++ take keep new.now) }
{
    let (part, _) = new.split_at(keep);
    let mut row = Vec::new(alloc);
    row.extend_from_slice(kept)?;
    row.extend_from_slice(part)?;
    Ok(row)
}

/// The row of a unit, with the start categories chosen anew. The only error is `NoMemory`.
pub(crate) fn stitched_row(
    alloc: Global,
    unit: &Thermal,
    kept: &[Cell],
    new: &[Cell],
    keep: usize,
) -> Result<List<Cell>, NoMemory>
    requires lawful { IsLawfulThermal unit.now }
    requires part { keep ≤ length new.now }
    requires few { length kept.now + keep ≤ MAX_PERIODS }
    ensures { IfOk result (IsStitchedRow unit.now kept.now new.now keep) }
{
    let mut row = joined(alloc, kept, new, keep)?;
    choose_categories(unit, &mut row);
    Ok(List::from_vec(row))
}

// Gives each start the cheapest category that the row's history allows, the first of several, and other cells none.
fn choose_categories(unit: &Thermal, row: &mut [Cell])
    requires lawful { IsLawfulThermal unit.now }
    requires few { length row.old ≤ MAX_PERIODS }
    ensures same { (t : ℕ) → SameDispatch (cell row.old t) (cell row.new t) }
    ensures least { (t : ℕ) → t < length row.new → HasLeastCategory unit.now (commitment row.new) t (category row.new t) }
{
    let pattern = pattern_of(row);
    for t in 0..row.len() {
        let category = start_category(unit, &pattern, t);
        set_category(row, t, category);
    }
}

// Sets the category of a cell.
fn set_category(row: &mut [Cell], t: usize, number: u8)
    requires { t < length row.old }
    ensures same { (k : ℕ) → SameDispatch (cell row.old k) (cell row.new k) }
    ensures own { category row.new t ≡ number }
    ensures others { (k : ℕ) → k ≢ t → category row.new k ≡ category row.old k }
{
    let cell = &mut row[t];
    cell.category = number;
}

// The pattern of a row.
fn pattern_of(row: &[Cell]) -> Pattern
    requires { length row.now ≤ MAX_PERIODS }
    ensures { (t : ℕ) → commitment_of result t ≡ commitment row.now t }
{
    let mut pattern = Pattern::all_off();
    for t in 0..row.len() {
        switch(&mut pattern, t as u32, row[t].on);
    }
    pattern
}

// Switches the pattern, which is off in the period, to this state.
fn switch(pattern: &mut Pattern, period: u32, on: bool)
    requires period { period < MAX_PERIODS }
    requires off { commitment_of pattern.old period ≡ false }
    ensures told { commitment_of pattern.new period ≡ on }
    ensures others { (t : ℕ) → t ≢ period → commitment_of pattern.new t ≡ commitment_of pattern.old t }
{
    if on {
        pattern.switch_on(period);
    }
}
