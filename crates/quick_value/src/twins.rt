//! Units of the same data. At one list of prices those that are decided alike give the same, and one of them is walked for all.

use crate::amounts::entry_or;
use crate::decisions::{Choice, Decisions};
use crate::outputs::{NOTHING, Output};
use std::alloc::Global;
use uc_model::{Instance, NoMemory, Point, StartRow, Thermal};

/// The kind of each unit that has a twin, and what was found of one unit of each kind.
#[derive(Drop)]
pub(crate) struct Twins {
    kinds: Vec<Option<usize>>,
    found: Vec<Found>,
}

/// The amount of a unit and what it gives in each period; none where no unit was walked yet.
#[derive(Drop)]
pub(crate) struct Found {
    unit: Option<usize>,
    pub amount: i64,
    pub outputs: Vec<Output>,
}

impl Twins {
    /// Those of an instance. The only error is `NoMemory`.
    pub(crate) fn of(alloc: Global, instance: &Instance) -> Result<Twins, NoMemory> {
        let mut twins = Twins {
            kinds: Vec::new(alloc),
            found: Vec::new(alloc),
        };
        let mut firsts = Vec::new(alloc);
        for (g, unit) in instance.thermal.as_slice().iter().enumerate() {
            match first_like(instance, &firsts, unit) {
                Some(first) => {
                    let kind = twins.kind_of(alloc, first, instance.periods as usize)?;
                    twins.kinds.push(Some(kind))?;
                }
                None => {
                    firsts.push(g)?;
                    twins.kinds.push(None)?;
                }
            }
        }
        Ok(twins)
    }

    // The kind of a unit that turns out to have a twin.
    fn kind_of(&mut self, alloc: Global, g: usize, periods: usize) -> Result<usize, NoMemory> {
        if let Some(kind) = entry_or(&self.kinds, g, None) {
            return Ok(kind);
        }
        let kind = self.found.len();
        self.found.push(Found {
            unit: None,
            amount: 0,
            outputs: vec![in alloc; NOTHING; periods]?,
        })?;
        if g < self.kinds.len() {
            self.kinds[g] = Some(kind);
        }
        Ok(kind)
    }

    /// Forgets what was found, since prices have changed.
    pub(crate) fn forget(&mut self) {
        for found in self.found.iter_mut() {
            found.unit = None;
        }
    }

    /// What was found of a unit like this one that is decided alike.
    pub(crate) fn find(&self, g: usize, decisions: &Decisions) -> Option<&Found> {
        let found = self.found.get(entry_or(&self.kinds, g, None)?)?;
        let rows = decisions.rows.as_slice();
        let own = rows.get(g)?;
        let other = rows.get(found.unit?)?;
        if are_alike(own, other) {
            Some(found)
        } else {
            None
        }
    }

    /// Keeps what was found of a unit for others like it, unless this was done of one already.
    pub(crate) fn keep(&mut self, g: usize, amount: i64, outputs: &[Output]) {
        let Some(kind) = entry_or(&self.kinds, g, None) else {
            return;
        };
        if kind < self.found.len() && self.found[kind].unit.is_none() {
            self.found[kind].unit = Some(g);
            self.found[kind].amount = amount;
            copy_outputs(outputs, &mut self.found[kind].outputs);
        }
    }
}

/// Copies what a unit gives.
pub(crate) fn copy_outputs(from: &[Output], to: &mut [Output]) {
    let count = from.len().min(to.len());
    to[..count].copy_from_slice(&from[..count]);
}

// The first of these units that is like another one.
fn first_like(instance: &Instance, firsts: &[usize], unit: &Thermal) -> Option<usize> {
    let units = instance.thermal.as_slice();
    for first in firsts {
        if let Some(other) = units.get(*first) {
            if is_like(unit, other) {
                return Some(*first);
            }
        }
    }
    None
}

// Whether two units have the same data but for their names.
fn is_like(unit: &Thermal, other: &Thermal) -> bool {
    unit.pmin == other.pmin
        && unit.pmax == other.pmax
        && unit.p0 == other.p0
        && unit.on0 == other.on0
        && has_times_of(unit, other)
        && has_limits_of(unit, other)
        && are_points_alike(unit.points.as_slice(), other.points.as_slice())
        && are_starts_alike(unit.startup.as_slice(), other.startup.as_slice())
}

fn has_times_of(unit: &Thermal, other: &Thermal) -> bool {
    unit.must_run == other.must_run
        && unit.ut == other.ut
        && unit.dt == other.dt
        && unit.ut0 == other.ut0
        && unit.dt0 == other.dt0
}

fn has_limits_of(unit: &Thermal, other: &Thermal) -> bool {
    unit.ru == other.ru && unit.rd == other.rd && unit.su == other.su && unit.sd == other.sd
}

fn are_points_alike(points: &[Point], others: &[Point]) -> bool {
    for i in 0..points.len().min(others.len()) {
        if points[i].mw != others[i].mw || points[i].cost != others[i].cost {
            return false;
        }
    }
    points.len() == others.len()
}

fn are_starts_alike(rows: &[StartRow], others: &[StartRow]) -> bool {
    for i in 0..rows.len().min(others.len()) {
        if rows[i].lag != others[i].lag || rows[i].cost != others[i].cost {
            return false;
        }
    }
    rows.len() == others.len()
}

fn are_alike(row: &[Choice], other: &[Choice]) -> bool {
    for t in 0..row.len().min(other.len()) {
        if row[t].on != other[t].on || row[t].off != other[t].off {
            return false;
        }
    }
    row.len() == other.len()
}
