//! Which ascents are repaired and how far, and at which bound a node is pruned.

ghost use Rattle.std.specs.Prelude.{◌≤◌};
ghost use Rattle.uc_model.specs.Prelude.{IsLawfulInstance};
ghost use Rattle.uc_model.specs.declared.tolerance.TheConstants.{WHOLE_GAP};

use uc_model::tolerance::{WHOLE_GAP, tolerance};
use uc_model::{Instance, Printed};

/// The moves of the first repair for each unit: enough for the passes of each threshold.
const FIRST_MOVES_EACH: u32 = 60;

/// Further ones of it for each of the first so many units, for kicks of what comes of these passes.
const KICKS_EACH: u32 = 140;

const KICKED_UNITS: u32 = 100;

/// The moves of each later repair for each unit: enough for a descent from one threshold, and some kicks of the best state.
const LATER_MOVES_EACH: u32 = 25;

/// After a schedule is found, so many ascents without a cheaper one are repaired, or more in a large system, and then one of so many.
const IDLE_ASCENTS: usize = 100;

const SPARSE: usize = 4;

/// By this part of the cost what an ascent takes the bound for may be too high: a margin that was chosen, of which nothing is proved.
const ERRORS: u64 = 1 << 21;

/// How far a repair goes: so many moves, and to a cost that is low enough, in micro-dollars.
#[derive(Clone, Copy)]
pub struct RepairEffort {
    pub moves: u32,
    pub enough: i64,
}

/// The least cost that a worker's repairs have found, in micro-dollars, if they have found a schedule, and how many ascents there were
/// since.
#[derive(Clone, Copy)]
pub(crate) struct Idle {
    least: Option<i64>,
    ascents: usize,
}

impl Idle {
    /// Nothing was found yet.
    pub(crate) fn new() -> Idle {
        Idle {
            least: None,
            ascents: 0,
        }
    }

    /// Whether the next ascent is to be repaired: each one while no schedule was found. Of those since the cheapest schedule the first
    /// hundred are, or as many as there are units or periods if that is more, since the larger a system is, the longer its schedules come
    /// out cheaper; and of the others each fourth.
    pub(crate) fn is_due(&mut self, instance: &Instance) -> bool {
        self.ascents = self.ascents.saturating_add(1);
        let units = instance.thermal.as_slice().len();
        let few = units.max(instance.periods as usize);
        self.least.is_none() || self.ascents <= few.max(IDLE_ASCENTS) || self.ascents % SPARSE == 0
    }

    /// Takes what a repair has found into account.
    pub(crate) fn take(&mut self, found: &Option<(Printed, i64)>) {
        if let Some((_, cost)) = found {
            if *cost < self.least.unwrap_or(i64::MAX) {
                self.least = Some(*cost);
                self.ascents = 0;
            }
        }
    }
}

/// How many moves the repair has at the claim of this unit.
pub fn moves(instance: &Instance, unit: u32) -> u32
    requires { IsLawfulInstance instance.now }
{
    let units = instance.thermal.as_slice().len() as u32;
    if unit == 1 {
        let kicks = units.min(KICKED_UNITS).saturating_mul(KICKS_EACH);
        units.saturating_mul(FIRST_MOVES_EACH).saturating_add(kicks)
    } else {
        units.saturating_mul(LATER_MOVES_EACH)
    }
}

/// The greatest cost, in micro-dollars, that is taken to be within the gap of the bound.
pub fn enough(bound: i128, gap: u32) -> i64
    requires { gap ≤ WHOLE_GAP }
{
    let rest = i128::from(WHOLE_GAP - gap).max(1);
    let cost = if bound > 0 {
        bound.saturating_mul(i128::from(WHOLE_GAP)) / rest
    } else {
        bound
    };
    cost.min(i128::from(i64::MAX)).max(i128::from(i64::MIN)) as i64
}

/// The bound at which this cost, in micro-dollars, is within the gap of it, and a margin more, since an ascent may be wrong.
pub(crate) fn goal(cost: Option<i64>, gap: u32) -> i128
    requires { gap ≤ WHOLE_GAP }
{
    match cost {
        Some(cost) => {
            let least = i128::from(cost).saturating_sub(i128::from(tolerance(cost, gap)));
            least.saturating_add(i128::from(cost.unsigned_abs() / ERRORS))
        }
        None => i128::MAX,
    }
}
