//! The table to try next at a node.

ghost use Rattle.std.specs.Prelude.{◌≡◌, ◌+◌, ◌≤◌, pos, IfOk, IfSome};
ghost use Rattle.uc_model.specs.Prelude.{IsLawfulInstance};
ghost use Rattle.dual_model.specs.Prelude.{IsNodeOf, IsLawfulTable, IsValued};
ghost use Rattle.prices.specs.Steps.{IsStepFor};

use crate::ascent::{Ascent, AscentEffort, Plan, Values, ascend};
use crate::pool::CutPool;
use dual_model::{Node, Table, Valued};
use opening_tables::SCALE;
use std::alloc::Global;
use uc_model::{Instance, NoMemory, Thermal};

/// The most evaluations of an ascent, also where the pool keeps the cuts of earlier ones and there are some cells and no more, and those where
/// there are so few cells that each is cheap beside what the cuts take, and no ramps that have prices too.
const EVALUATIONS: u32 = 150;

const FEW_EVALUATIONS: u32 = 40;

const FEW_CELLS: usize = 500;

const SOME_CELLS: usize = 2500;

/// Those where there are so many cells that each evaluation takes long.
const MANY_EVALUATIONS: u32 = 60;

const MANY_CELLS: usize = 20_000;

/// The most at a node but the root, whose table begins near the best one, and those there where the ramps of few units can bind.
const NODE_EVALUATIONS: u32 = 120;

const FREE_NODE_EVALUATIONS: u32 = 180;

/// The ramps of few units can bind where it is at most one of so many.
const FEW_RAMPED: usize = 4;

/// The most at a node but the root where the pool keeps the cuts of earlier ascents, those there where there are few cells and no ramps
/// that have prices, and those where prices differ much: over many periods, or where renewable units may meet half of the demand.
const LENT_EVALUATIONS: u32 = 75;

const FEW_LENT_EVALUATIONS: u32 = 25;

const MANY_LENT_EVALUATIONS: u32 = 120;

const MANY_PERIODS: u32 = 72;

/// A node at which `had` tables were tried, and at what an ascent there takes the bound for where it ends, in micro-dollars.
#[derive(Clone, Copy)]
pub struct TriedNode<'a> {
    pub node: &'a Node,
    pub had: u32,
    pub enough: i128,
}

/// The ascent to a table to try next at the target's node, of whose tables the last is `table`, with the cuts of the pool: the table's scale is
/// a million and as many as were tried. The only error is `NoMemory`.
pub fn next_ascent(
    alloc: Global,
    values: Values,
    pool: &mut CutPool,
    table: &Table,
    target: TriedNode,
) -> Result<Ascent, NoMemory>
    requires lawful { IsLawfulInstance values.instance.now }
    requires node { IsNodeOf values.instance.now target.node.now }
    requires count { target.had ≤ 999000000 }
    ensures lawful { IfOk result (λ ascent. IsLawfulTable values.entry.instance.now ascent.table) }
    ensures scale { IfOk result (λ ascent. ascent.table.k ≡ pos (1000000 + target.entry.had)) }
    ensures ray { IfOk result (λ ascent. IfSome ascent.ray (IsLawfulTable values.entry.instance.now)) }
    ensures ray_scale { IfOk result (λ ascent. IfSome ascent.ray (λ ray. ray.k ≡ pos 0)) }
{
    let TriedNode { node, had, enough } = target;
    let is_root = node.fixings.as_slice().is_empty();
    let evaluations = if is_root || !pool.is_open(values.instance) {
        evaluations_of(values.instance, is_root)
    } else {
        lent_evaluations(values.instance)
    };
    let effort = AscentEffort {
        evaluations,
        enough,
    };
    let plan = Plan {
        node,
        effort,
        scale: SCALE + i64::from(had),
    };
    ascend(alloc, values, pool, table, plan)
}

// The most evaluations of an ascent from one cut, at the root or at another node.
fn evaluations_of(instance: &Instance, is_root: bool) -> u32 {
    if cells_of(instance) >= MANY_CELLS {
        MANY_EVALUATIONS
    } else if is_cheap(instance) {
        FEW_EVALUATIONS
    } else if is_root {
        EVALUATIONS
    } else if ramped_units(instance) <= instance.thermal.as_slice().len() / FEW_RAMPED {
        FREE_NODE_EVALUATIONS
    } else {
        NODE_EVALUATIONS
    }
}

// The most of one at a node but the root, with a pool that keeps cuts.
fn lent_evaluations(instance: &Instance) -> u32 {
    if is_cheap(instance) {
        FEW_LENT_EVALUATIONS
    } else if is_middling(instance) {
        EVALUATIONS
    } else if instance.periods > MANY_PERIODS || is_windy(instance) {
        MANY_LENT_EVALUATIONS
    } else {
        LENT_EVALUATIONS
    }
}

/// How many cells the units have.
pub(crate) fn cells_of(instance: &Instance) -> usize {
    let units = instance.thermal.as_slice().len();
    units.saturating_mul(instance.periods as usize)
}

// Whether an evaluation is cheap beside what the cuts take.
fn is_cheap(instance: &Instance) -> bool {
    cells_of(instance) <= FEW_CELLS && ramped_units(instance) == 0
}

// Whether there are so many cells that a claim takes long beside its table, and so few that the best prices are a matter of few units.
fn is_middling(instance: &Instance) -> bool {
    let cells = cells_of(instance);
    FEW_CELLS < cells && cells <= SOME_CELLS
}

// How many units have ramps that can bind.
fn ramped_units(instance: &Instance) -> usize {
    let mut ramped: usize = 0;
    for unit in instance.thermal.as_slice() {
        if !is_agile(unit) {
            ramped = ramped.saturating_add(1);
        }
    }
    ramped
}

// Whether renewable units may meet half of all demand.
fn is_windy(instance: &Instance) -> bool {
    let mut most: i64 = 0;
    for unit in instance.renewable.as_slice() {
        most = most.saturating_add(sum_of(unit.maximum.as_slice()));
    }
    most.saturating_mul(2) >= sum_of(instance.demand.as_slice())
}

fn sum_of(watts: &[i64]) -> i64 {
    let mut sum: i64 = 0;
    for own in watts {
        sum = sum.saturating_add(*own);
    }
    sum
}

// Whether a unit may rise and fall over its whole range within an hour.
fn is_agile(unit: &Thermal) -> bool {
    unit.ru.min(unit.rd) >= unit.range()
}

/// A table to try next at a node at which `had` tables were tried, of which the last is `table`; `valued` is its value, or `None`
/// where it wasn't evaluated here. Tables of different `had` differ. The only error is `NoMemory`.
pub fn step(
    alloc: Global,
    instance: &Instance,
    node: &Node,
    table: &Table,
    valued: Option<&Valued>,
    had: u32,
) -> Result<Table, NoMemory>
    requires lawful { IsLawfulInstance instance.now }
    requires node { IsNodeOf instance.now node.now }
    requires table { IsLawfulTable instance.now table.now }
    requires valued { IfSome valued (λ valued. IsValued instance.now node.now table.now valued.now) }
    requires count { had ≤ 999000000 }
    ensures lawful { IfOk result (IsLawfulTable instance.now) }
    ensures told_apart { IfOk result (IsStepFor had) }
{
    let values = Values {
        instance,
        exact: false,
    };
    let mut pool = CutPool::closed(alloc);
    let target = TriedNode {
        node,
        had,
        enough: i128::MAX,
    };
    Ok(next_ascent(alloc, values, &mut pool, table, target)?.table)
}
