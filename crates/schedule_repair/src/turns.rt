//! The turns: cells of which it costs little more that the unit is on where it is off, or off where it is on.

use crate::chance::{CHANCES, Chance};
use crate::moves::{fill_cells, put_back};
use repair_state::{Decided, Plant, RepairState, Unit, is_on, put, stretch};
use std::alloc::Global;
use uc_model::{NoMemory, Pattern};

/// A turn of a unit in period t, from 0: the fix that forces it, and what the unit's best pattern under it costs more beside the others.
#[derive(Clone, Copy)]
pub(crate) struct Turn {
    pub more: i64,
    pub unit: usize,
    pub fix: Decided,
}

/// After so many choices the turns are listed anew, if the best state is another one then.
const CHOICES: u32 = 40;

/// The turns, cheapest first, and which units have one; what the best state cost when they were listed, which is the greatest number
/// before; and how often one was chosen since.
#[derive(Drop)]
pub(crate) struct Turns {
    turns: Vec<Turn>,
    are_listed: Vec<bool>,
    listed_at: i64,
    choices: u32,
}

impl Turns {
    /// No turns of no units.
    pub(crate) fn new(alloc: Global) -> Turns {
        Turns {
            turns: Vec::new(alloc),
            are_listed: Vec::new(alloc),
            listed_at: i64::MAX,
            choices: 0,
        }
    }

    /// Makes it those of so many units. The only error is `NoMemory`.
    pub(crate) fn fill(&mut self, units: usize) -> Result<(), NoMemory> {
        stretch(&mut self.are_listed, units, false)
    }

    /// Whether the turns are to be listed anew, where the best state costs so much.
    pub(crate) fn are_old(&self, cost: i64) -> bool {
        self.listed_at == i64::MAX || (self.choices >= CHOICES && cost < self.listed_at)
    }

    /// Whether unit g has a turn.
    pub(crate) fn is_listed(&self, g: usize) -> bool {
        g < self.are_listed.len() && self.are_listed[g]
    }

    /// A turn by chance, a cheap one more likely.
    pub(crate) fn choose(&mut self, chance: &mut Chance) -> Option<Turn> {
        self.choices = self.choices.saturating_add(1);
        let number = chance.next();
        let count = self.turns.len() as u64;
        let place = number.saturating_mul(number).saturating_mul(count) / (CHANCES * CHANCES);
        match self.turns.get(place as usize) {
            Some(turn) => Some(*turn),
            None => None,
        }
    }

    /// Lists the turns of a state that cost less than so much more, where the best one costs so much. The only error is `NoMemory`.
    pub(crate) fn list(
        &mut self,
        plant: &Plant,
        state: &mut RepairState,
        periods: u32,
        cost: i64,
        most: i64,
    ) -> Result<(), NoMemory> {
        self.turns.clear();
        self.listed_at = cost;
        self.choices = 0;
        for g in 0..plant.units.len().min(self.are_listed.len()) {
            let before = self.turns.len();
            fill_cells(&plant.market, state, &plant.units[g], g);
            put_back(&plant.market, state, &plant.units[g], g);
            push_turns(&plant.units[g], state, g, periods, most, &mut self.turns)?;
            self.are_listed[g] = self.turns.len() > before;
        }
        self.turns.sort_by_key(|turn| turn.more)?;
        Ok(())
    }
}

// Adds the turns of unit g, whose cells are filled, that cost less than so much more.
fn push_turns(
    unit: &Unit,
    state: &mut RepairState,
    g: usize,
    periods: u32,
    most: i64,
    turns: &mut Vec<Turn>,
) -> Result<(), NoMemory> {
    let best = state.course.best(unit, &unit.fix, &state.cells, false);
    if g >= state.patterns.len() || best.is_none() {
        return Ok(());
    }
    let own = state.patterns[g];
    for t in 0..periods {
        if !is_on(&unit.fix.known, t) {
            let fix = unit.fix.with_turn(t, !is_on(&own, t));
            let turned = state.course.best(unit, &fix, &state.cells, false);
            push_turn(turns, g, &fix, cost_above(&turned, &best), most)?;
        }
    }
    Ok(())
}

// What a best pattern costs more than another one, if there are both.
fn cost_above(turned: &Option<(i64, Pattern)>, best: &Option<(i64, Pattern)>) -> Option<i64> {
    match (turned, best) {
        (Some((cost, _)), Some((least, _))) => Some(cost.saturating_sub(*least)),
        _ => None,
    }
}

// Adds a turn of unit g, if there is one that costs less than so much more.
fn push_turn(
    turns: &mut Vec<Turn>,
    unit: usize,
    fix: &Decided,
    more: Option<i64>,
    most: i64,
) -> Result<(), NoMemory> {
    match more {
        Some(more) if more < most => {
            let fix = *fix;
            put(turns, Turn { more, unit, fix })
        }
        _ => Ok(()),
    }
}
