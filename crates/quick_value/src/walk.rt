//! The least way of a unit through its periods, where each cell costs the same whatever the outputs in others.
//!
//! Which runs go on is kept while the periods are walked over, like the rests.

use crate::amounts::{HARDLY, NEVER, amount_at, entry_or, number_at, put};
use crate::cells::{Cell, IDLE};
use crate::decisions::Choice;
use crate::unit::Unit;
use crate::ways::{NO_WAY, Way, Ways};
use std::alloc::Global;
use uc_model::NoMemory;

/// Memory for the walk of one unit: its cells; what they add up to before each period; the least ways; and the least way into a run from
/// each period on less the sums before the next period.
#[derive(Drop)]
pub(crate) struct Walk {
    pub cells: Vec<Cell>,
    sums: Vec<i64>,
    pub ways: Ways,
    runs: Vec<i64>,
}

// The runs that go on: since when no period forbids one, whether the initial one does, and the least that has lasted the minimum time.
#[derive(Clone, Copy)]
struct Running {
    since: usize,
    first: bool,
    least: Way,
}

impl Walk {
    /// Memory for so many periods. The only error is `NoMemory`.
    pub(crate) fn new(alloc: Global, periods: usize) -> Result<Walk, NoMemory> {
        Ok(Walk {
            cells: vec![in alloc; IDLE; periods]?,
            sums: vec![in alloc; 0_i64; periods.saturating_add(1)]?,
            ways: Ways::new(alloc, periods)?,
            runs: vec![in alloc; NEVER; periods]?,
        })
    }

    /// The least amount of a way of the unit that may be as it is decided, by its cells; and puts down how it stands on it.
    pub(crate) fn least(&mut self, unit: &Unit, choices: &[Choice]) -> Option<i64> {
        let mut resting = self.ways.begin(unit, choices, unit.may_stop_at_once);
        let mut running = self.begin(unit);
        for (t, choice) in choices.iter().enumerate() {
            self.ways.lengthen_rest(unit, &mut resting, t);
            if choice.on {
                let start = self.ways.start(unit, &resting, t);
                self.run(start, t);
            } else {
                running.end(t);
            }
            if !choice.off {
                resting.end(t);
            }
            self.lengthen_run(unit, &mut running, t);
            let next = t.saturating_add(1);
            let rest = match choices.get(next) {
                Some(after) if choice.on && after.off => self.stop(unit, &running, t),
                Some(_) => NO_WAY,
                None => self.end(&running, next),
            };
            self.ways.rest(next, rest);
        }
        self.ways.trace(&resting)
    }

    // The sums of the cells, and the initial run.
    fn begin(&mut self, unit: &Unit) -> Running {
        let mut sum: i64 = 0;
        for (t, cell) in self.cells.iter().enumerate() {
            sum = sum.saturating_add(cell.full);
            put(&mut self.sums, t.saturating_add(1), sum);
        }
        Running {
            since: 0,
            first: unit.was_on && unit.may_stay,
            least: NO_WAY,
        }
    }

    // The run that begins with the start of this amount in period t.
    fn run(&mut self, start: i64, t: usize) {
        let cell = entry_or(&self.cells, t, IDLE);
        let after = number_at(&self.sums, t.saturating_add(1));
        let run = if start < HARDLY && cell.start < HARDLY {
            start.saturating_add(cell.start).saturating_sub(after)
        } else {
            NEVER
        };
        put(&mut self.runs, t, run);
    }

    // The run of more than one period that has lasted long enough in period t for the first time.
    fn lengthen_run(&self, unit: &Unit, running: &mut Running, t: usize) {
        let least = unit.up_time.max(2).saturating_sub(1);
        let Some(since) = t.checked_sub(least) else {
            return;
        };
        if since >= running.since {
            let amount = amount_at(&self.runs, since);
            if amount < running.least.amount {
                running.least = Way {
                    amount,
                    since: Some(since),
                };
            }
        }
    }

    // The least way to a rest behind period t.
    fn stop(&self, unit: &Unit, running: &Running, t: usize) -> Way {
        let cell = entry_or(&self.cells, t, IDLE);
        let before = number_at(&self.sums, t);
        let mut way = NO_WAY;
        if cell.stop < HARDLY {
            let amount = before.saturating_add(cell.stop);
            if running.first && t.saturating_add(1) >= unit.first_stop {
                way.amount = amount;
            }
            if running.least.amount < HARDLY {
                let amount = amount.saturating_add(running.least.amount);
                if amount < way.amount {
                    way = Way {
                        amount,
                        since: running.least.since,
                    };
                }
            }
        }
        if unit.up_time == 1 && t >= running.since {
            self.stop_at_once(&mut way, &cell, t);
        }
        way
    }

    // The same by a run of period t alone.
    fn stop_at_once(&self, way: &mut Way, cell: &Cell, t: usize) {
        let start = self.ways.start_amount(t);
        let amount = start.saturating_add(cell.both);
        if start < HARDLY && cell.both < HARDLY && amount < way.amount {
            *way = Way {
                amount,
                since: Some(t),
            };
        }
    }

    // The least way that is on at the end, before which there are so many periods.
    fn end(&self, running: &Running, periods: usize) -> Way {
        let sum = number_at(&self.sums, periods);
        let mut way = NO_WAY;
        if running.first {
            way.amount = sum;
        }
        for since in running.since..periods {
            let run = amount_at(&self.runs, since);
            let amount = sum.saturating_add(run);
            if run < HARDLY && amount < way.amount {
                way = Way {
                    amount,
                    since: Some(since),
                };
            }
        }
        way
    }
}

impl Running {
    // A period forbids to run in it: no run goes on behind it.
    fn end(&mut self, t: usize) {
        self.since = t.saturating_add(1);
        self.first = false;
        self.least = NO_WAY;
    }
}
