//! The walk of kicks: they go on near the best state, and from it once many have found none cheaper.

use crate::kept::Kept;
use repair_state::{Plant, RepairState};
use std::alloc::Global;
use uc_model::NoMemory;

/// A kick goes on from a state that costs more than the best one by less than this part of what a unit costs on the mean.
const NEAR: i64 = 512;

/// After so many kicks in a row without a cheaper best state they go on from the best one.
const FRUITLESS: u32 = 50;

/// The state that the next kick leaves, and how many in a row have found no cheaper best state.
#[derive(Drop)]
pub(crate) struct Walk {
    near: Kept,
    fruitless: u32,
}

impl Walk {
    /// A walk that hasn't begun, without memory for a state.
    pub(crate) fn new(alloc: Global) -> Walk {
        Walk {
            near: Kept::new(alloc),
            fruitless: 0,
        }
    }

    /// Takes memory for a state like this one. The only error is `NoMemory`.
    pub(crate) fn fill(&mut self, alloc: Global, state: &RepairState) -> Result<(), NoMemory> {
        self.near.fill(alloc, state)
    }

    /// Begins at the best state.
    pub(crate) fn begin(&mut self, best: &Kept) {
        self.near.copy(best);
        self.fruitless = 0;
    }

    /// Goes on from the state that a kick has come to, which costs so much and no less than the best one, if it is near that; and else
    /// makes it the state that the kick left, or the best one once it is time.
    pub(crate) fn go_on(&mut self, plant: &Plant, state: &mut RepairState, best: &Kept, cost: i64) {
        self.fruitless = self.fruitless.saturating_add(1);
        if self.fruitless % FRUITLESS == 0 {
            self.near.copy(best);
        } else if self.near.keep_below(state, cost, most_near(plant, best)) {
            return;
        }
        self.near.restore(plant, state);
    }
}

// What a state costs at least that isn't near the best one.
fn most_near(plant: &Plant, best: &Kept) -> i64 {
    let units = (plant.units.len() as i64).max(1);
    let each = best.cost.saturating_abs() / units;
    best.cost.saturating_add(each / NEAR)
}
