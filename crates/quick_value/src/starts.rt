//! What a start costs, period by period.

ghost use Rattle.uc_model.specs.Prelude.{IsLawfulThermal};

use crate::amounts::{SCALE, amount_of, times};
use start_costs::is_barred;
use std::alloc::Global;
use uc_model::limits::MAX_PERIODS;
use uc_model::{NoMemory, StartRow, Thermal};

/// From a period on, a start costs so much where the last stop was at most so many periods before.
#[derive(Clone, Copy)]
pub(crate) struct Warm {
    pub from: usize,
    pub longest: usize,
    pub cost: i64,
}

/// The amounts of starts: in each period whatever the last stop, and those that a late stop allows.
#[derive(Drop)]
pub(crate) struct Starts {
    pub always: Vec<i64>,
    pub warm: Vec<Warm>,
}

impl Starts {
    /// The starts of a unit. The only error is `NoMemory`.
    pub(crate) fn of(alloc: Global, unit: &Thermal, periods: u32) -> Result<Starts, NoMemory> {
        let rows = unit.startup.as_slice();
        let mut always = Vec::new(alloc);
        for t in 0..periods as usize {
            always.push(cost_always(rows, unit.dt0 as usize, t))?;
        }
        let mut warm = Vec::new(alloc);
        for i in 1..rows.len() {
            let least = (rows[i].lag as usize).saturating_sub(1);
            if rows[i - 1].lag < rows[i].lag && least < periods as usize {
                warm.push(Warm {
                    from: least,
                    longest: least,
                    cost: amount(rows[i - 1].cost),
                })?;
            }
        }
        Ok(Starts { always, warm })
    }

    /// Makes all starts cost nothing.
    pub(crate) fn forget_costs(&mut self) {
        self.always.fill(0);
        self.warm.clear();
    }
}

// The amount of a cost in micro-dollars.
fn amount(cost: i64) -> i64 {
    amount_of(&times(SCALE, cost))
}

// The least amount of a start in period t, whatever the last stop: of the last category, or of one whose next one's lag lies past the
// period and which the initial time off doesn't bar.
fn cost_always(rows: &[StartRow], time_down: usize, t: usize) -> i64 {
    let mut least = match rows.last() {
        Some(row) => row.cost,
        None => 0,
    };
    for i in 1..rows.len() {
        let lag = rows[i].lag as usize;
        if t < MAX_PERIODS as usize && t.saturating_add(1) < lag && !is_barred(time_down, lag, t) {
            least = least.min(rows[i - 1].cost);
        }
    }
    amount(least)
}
