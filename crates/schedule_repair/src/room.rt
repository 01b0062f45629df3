//! What repairs share.

ghost use Rattle.uc_model.specs.Prelude.{IsLawfulInstance, IsLawfulThermal};

use crate::chance::Chance;
use crate::descent::THRESHOLDS;
use crate::kept::Kept;
use crate::tried::Tried;
use crate::turns::Turns;
use crate::walk::Walk;
use cost_curves::Curve;
use repair_state::{Plant, RepairState, Unit, put, unit_at};
use start_costs::sigma;
use std::alloc::Global;
use uc_model::limits::MAX_PERIODS;
use uc_model::{Instance, NoMemory, Thermal};

/// What repairs of an instance's schedules share; made once, mended by each move. `repairs` counts them; one
/// may make so many `moves`, of which some are `left`.
#[derive(Drop)]
pub struct Repair {
    pub(crate) plant: Plant,
    pub(crate) state: RepairState,
    pub(crate) chance: Chance,
    pub(crate) visits: Vec<Visit>,
    pub(crate) turns: Turns,
    pub(crate) tried: Tried,
    pub(crate) kept: Kept,
    pub(crate) walk: Walk,
    moves: u32,
    pub(crate) left: u32,
    repairs: usize,
}

/// A unit, and when it is visited in a pass.
#[derive(Clone, Copy)]
pub(crate) struct Visit {
    pub key: u64,
    pub unit: usize,
}

impl Repair {
    /// What repairs of the instance share. The only error is `NoMemory`.
    pub fn new(alloc: Global, instance: &Instance) -> Result<Repair, NoMemory>
        requires { IsLawfulInstance instance.now }
    {
        let mut repair = Repair {
            plant: Plant::new(alloc),
            state: RepairState::new(alloc),
            chance: Chance::new(),
            visits: Vec::new(alloc),
            turns: Turns::new(alloc),
            tried: Tried::new(alloc),
            kept: Kept::new(alloc),
            walk: Walk::new(alloc),
            moves: 0,
            left: 0,
            repairs: 0,
        };
        repair.fill(alloc, instance).and(Ok(repair))
    }

    // Fills in what hangs on the instance.
    fn fill(&mut self, alloc: Global, instance: &Instance) -> Result<(), NoMemory>
        requires { IsLawfulInstance instance.now }
    {
        push_units(alloc, instance, &mut self.plant.units)
            .and(self.plant.order(alloc, instance))
            .and(self.state.fill(alloc, instance, &self.plant))
            .and(push_visits(&mut self.visits, self.plant.units.len()))
            .and(self.turns.fill(self.plant.units.len()))
            .and(self.tried.fill())
            .and(self.kept.fill(alloc, &self.state))
            .and(self.walk.fill(alloc, &self.state))
    }

    /// Gives a repair so many moves.
    pub(crate) fn begin(&mut self, moves: u32) {
        self.moves = moves;
        self.left = moves;
    }

    /// How many of its moves were made.
    pub(crate) fn spent(&self) -> u32 {
        self.moves.saturating_sub(self.left)
    }

    /// The first threshold of the next repair and how many it has: all in the first one, and then one after another.
    pub(crate) fn next_thresholds(&mut self) -> (usize, usize) {
        let number = self.repairs;
        self.repairs = number.saturating_add(1);
        if number == 0 {
            (0, THRESHOLDS.len())
        } else {
            (number % THRESHOLDS.len(), 1)
        }
    }
}

// Adds the units of an instance.
fn push_units(alloc: Global, instance: &Instance, units: &mut Vec<Unit>) -> Result<(), NoMemory>
    requires { IsLawfulInstance instance.now }
{
    for g in 0..instance.thermal.as_slice().len() {
        if let Some(thermal) = unit_at(instance, g) {
            let mut unit = Unit::new(alloc, thermal, g);
            fill_unit(alloc, thermal, instance.periods, &mut unit)?;
            units.push(unit)?;
        }
    }
    Ok(())
}

// Fills in what hangs on the curve and on starts.
fn fill_unit(alloc: Global, thermal: &Thermal, count: u32, unit: &mut Unit) -> Result<(), NoMemory>
    requires { IsLawfulThermal thermal.now }
{
    let curve = Curve::of(alloc, thermal.points.as_slice())?;
    let mut bases = Vec::new(alloc);
    push_bases(&mut bases, thermal, count).and(unit.fill(thermal, curve.corners(), &bases))
}

// Adds what a start costs in each period without a stop before it.
fn push_bases(bases: &mut Vec<i64>, unit: &Thermal, count: u32) -> Result<(), NoMemory>
    requires { IsLawfulThermal unit.now }
{
    for t in 0..count.min(MAX_PERIODS) {
        put(bases, sigma(unit, None, t as usize))?;
    }
    Ok(())
}

// Adds a visit of each of so many units.
fn push_visits(visits: &mut Vec<Visit>, units: usize) -> Result<(), NoMemory> {
    for unit in 0..units {
        put(visits, Visit { key: 0, unit })?;
    }
    Ok(())
}
