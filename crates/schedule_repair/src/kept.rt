//! States that are kept: the best one so far, and one near it.

ghost use Rattle.uc_model.specs.Prelude.{IsLawfulInstance};

use crate::moves::start_cost;
use repair_state::{Period, Plant, RepairState, Window, copy_row, exchange, total, unit_at};
use std::alloc::Global;
use uc_model::{Instance, NoMemory, Pattern};

/// The patterns and windows of a state, and what it costs; nothing is kept at the greatest cost.
#[derive(Drop)]
pub(crate) struct Kept {
    patterns: Vec<Pattern>,
    rows: Vec<Vec<Window>>,
    pub cost: i64,
}

impl Kept {
    /// Nothing, without memory for a state.
    pub(crate) fn new(alloc: Global) -> Kept {
        Kept {
            patterns: Vec::new(alloc),
            rows: Vec::new(alloc),
            cost: i64::MAX,
        }
    }

    /// Takes memory for such a state. The only error is `NoMemory`.
    pub(crate) fn fill(&mut self, alloc: Global, state: &RepairState) -> Result<(), NoMemory> {
        self.patterns.extend_from_slice(&state.patterns)?;
        for row in &state.rows {
            self.rows.push(row.to_vec(alloc)?)?;
        }
        Ok(())
    }

    /// Keeps the state if it is cheaper than what is kept, and tells whether.
    pub(crate) fn keep(
        &mut self,
        plant: &Plant,
        state: &mut RepairState,
        instance: &Instance,
    ) -> bool
        requires lawful { IsLawfulInstance instance.now }
    {
        let cost = cost_of_state(plant, state, instance);
        self.keep_cheaper(state, cost)
    }

    /// Keeps the state, which costs so much, if that is less than what is kept; and tells whether.
    pub(crate) fn keep_cheaper(&mut self, state: &RepairState, cost: i64) -> bool {
        let most = self.cost;
        self.keep_below(state, cost, most)
    }

    /// Keeps the state, which costs so much, if that is below `most`; and tells whether.
    pub(crate) fn keep_below(&mut self, state: &RepairState, cost: i64, most: i64) -> bool {
        if cost >= most {
            return false;
        }
        self.cost = cost;
        copy_patterns(&state.patterns, &mut self.patterns);
        copy_rows(&state.rows, &mut self.rows);
        true
    }

    /// Keeps what another one keeps.
    pub(crate) fn copy(&mut self, other: &Kept) {
        self.cost = other.cost;
        copy_patterns(&other.patterns, &mut self.patterns);
        copy_rows(&other.rows, &mut self.rows);
    }

    /// Makes the state what is kept.
    pub(crate) fn restore(&self, plant: &Plant, state: &mut RepairState) {
        copy_patterns(&self.patterns, &mut state.patterns);
        restore_rows(plant, &self.rows, &mut state.periods, &mut state.rows);
    }
}

// Moves all units into the kept windows.
fn restore_rows(
    plant: &Plant,
    kept: &[Vec<Window>],
    periods: &mut [Period],
    rows: &mut [Vec<Window>],
) {
    for (g, unit) in plant.units.iter().enumerate() {
        if g < kept.len() && g < rows.len() {
            exchange(&plant.market, periods, unit, &mut rows[g], &kept[g]);
        }
    }
}

/// What a state costs, with its starts.
pub(crate) fn cost_of_state(plant: &Plant, state: &mut RepairState, instance: &Instance) -> i64
    requires lawful { IsLawfulInstance instance.now }
{
    let mut cost = total(&plant.market, &mut state.periods);
    let patterns = state.patterns.as_slice();
    for g in 0..patterns.len() {
        if let Some(unit) = unit_at(instance, g) {
            cost = cost.saturating_add(start_cost(unit, &patterns[g], instance.periods));
        }
    }
    cost
}

fn copy_patterns(from: &[Pattern], to: &mut [Pattern]) {
    let count = from.len().min(to.len());
    to[..count].copy_from_slice(&from[..count]);
}

fn copy_rows(from: &[Vec<Window>], to: &mut [Vec<Window>]) {
    for g in 0..from.len().min(to.len()) {
        copy_row(&from[g], &mut to[g]);
    }
}
