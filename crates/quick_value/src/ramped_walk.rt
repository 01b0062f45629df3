//! The least way of a unit through its periods by outputs that keep its ramps.
//!
//! Of each run that goes on the cost so far is kept as a function of the last output. A run is given up where another one that may stop no
//! later costs no more whatever the output.

use crate::amounts::{HARDLY, PART, entry_or, number_at, put};
use crate::cells::{Cell, IDLE};
use crate::decisions::Choice;
use crate::outputs::{NOTHING, Output};
use crate::prices::{FREE, Price};
use crate::run_cost::{Hour, RunCost};
use crate::unit::{Cap, Unit};
use crate::ways::{NO_WAY, Stand, Way, Ways};
use std::alloc::Global;
use std::mem;
use uc_model::NoMemory;

/// A unit with its prices, and what its cells cost where it keeps no ramp.
#[derive(Clone, Copy)]
pub(crate) struct Task<'a> {
    pub unit: &'a Unit,
    pub prices: &'a [Price],
    pub cells: &'a [Cell],
}

/// Memory for the walk of one unit: the least ways; what runs cost so far, by the period in which they began, and last the initial one;
/// which of them go on, in the order in which they began; one more function; for each run and period the output before it from which it
/// goes on at least cost; and how the run before each rest ends.
#[derive(Drop)]
pub(crate) struct RampedWalk {
    ways: Ways,
    runs: Vec<RunCost>,
    living: Vec<usize>,
    spare: RunCost,
    befores: Vec<i64>,
    endings: Vec<Ending>,
}

// The last output of a run, and the one before it from which it is reached at least cost where no ramp is in the way.
#[derive(Clone, Copy)]
struct Ending {
    output: i64,
    before: i64,
}

const NO_ENDING: Ending = Ending {
    output: 0,
    before: 0,
};

// The least way to a rest so far: its cost at the scale, when its run began, and how this ends.
#[derive(Clone, Copy)]
struct Least {
    cost: i128,
    since: Option<usize>,
    ending: Ending,
}

const NONE: Least = Least {
    cost: i128::MAX,
    since: None,
    ending: NO_ENDING,
};

impl Task<'_> {
    // The hour of period t under a cap, with an output of at most so much.
    fn hour(&self, cap: &Cap, t: usize, most: i64) -> Hour {
        Hour::of(self.unit, cap, &entry_or(self.prices, t, FREE), most)
    }

    // What period t costs at least before a stop.
    fn least_stop(&self, t: usize) -> i128 {
        cost_of(entry_or(self.cells, t, IDLE).stop)
    }
}

impl Least {
    // As a way to a rest, in amounts.
    fn way(&self) -> Way {
        if self.cost == i128::MAX {
            return NO_WAY;
        }
        let limit = i128::from(HARDLY).saturating_sub(1);
        Way {
            amount: (self.cost / PART).min(limit).max(-limit) as i64,
            since: self.since,
        }
    }
}

impl RampedWalk {
    /// Memory for so many periods. The only error is `NoMemory`.
    pub(crate) fn new(alloc: Global, periods: usize) -> Result<RampedWalk, NoMemory> {
        let more = periods.saturating_add(1);
        let mut runs = Vec::new(alloc);
        for _ in 0..more {
            runs.push(RunCost::new(alloc))?;
        }
        Ok(RampedWalk {
            ways: Ways::new(alloc, periods)?,
            runs,
            living: Vec::new(alloc),
            spare: RunCost::new(alloc),
            befores: vec![in alloc; 0_i64; more.saturating_mul(periods)]?,
            endings: vec![in alloc; NO_ENDING; more]?,
        })
    }

    // The least amount of a way of the unit that may be as it is decided, and none where there is no way; and puts down what was found on
    // it. The only error is `NoMemory`.
    fn least(&mut self, task: &Task, choices: &[Choice]) -> Result<Option<i64>, NoMemory> {
        let unit = task.unit;
        let may_stop = unit.may_stop_at_once && unit.before <= unit.fall;
        let mut resting = self.ways.begin(unit, choices, may_stop);
        self.begin(unit)?;
        for (t, choice) in choices.iter().enumerate() {
            self.ways.lengthen_rest(unit, &mut resting, t);
            let next = t.saturating_add(1);
            let mut least = NONE;
            if choice.on {
                let start = self.ways.start(unit, &resting, t);
                if may_rest(choices, next) {
                    least = self.stop(task, t, start)?;
                }
                self.go_on(task, t)?;
                self.start(task, t, start)?;
                self.thin(unit, t);
            } else {
                self.living.clear();
            }
            if !choice.off {
                resting.end(t);
            }
            if next >= choices.len() {
                least = self.last(next);
            }
            self.ways.rest(next, least.way());
            put(&mut self.endings, next, least.ending);
        }
        Ok(self.ways.trace(&resting))
    }

    // The initial run.
    fn begin(&mut self, unit: &Unit) -> Result<(), NoMemory> {
        self.living.clear();
        let initial = self.periods();
        if unit.was_on && unit.may_stay && initial < self.runs.len() {
            self.runs[initial].set_point(unit.before);
            self.living.push(initial)?;
        }
        Ok(())
    }

    // For how many periods there is memory.
    fn periods(&self) -> usize {
        self.runs.len().saturating_sub(1)
    }

    // The run that stands there among those that go on, and no run past them.
    fn run_at(&self, i: usize) -> usize {
        entry_or(&self.living, i, self.runs.len())
    }

    // The period in which a run began.
    fn since(&self, run: usize) -> Option<usize> {
        if run < self.periods() {
            Some(run)
        } else {
            None
        }
    }

    // The place of a run and a period among the outputs before.
    fn place(&self, run: usize, t: usize) -> usize {
        run.saturating_mul(self.periods()).saturating_add(t)
    }

    // Whether a run may stop behind period t.
    fn may_stop(&self, unit: &Unit, run: usize, t: usize) -> bool {
        match self.since(run) {
            Some(since) => t.saturating_add(1) >= since.saturating_add(unit.up_time),
            None => t.saturating_add(1) >= unit.first_stop,
        }
    }

    // The least way to a rest behind period t, in which a run may begin after so much was paid.
    fn stop(&mut self, task: &Task, t: usize, paid: i64) -> Result<Least, NoMemory> {
        let unit = task.unit;
        let hour = task.hour(&unit.stop, t, unit.fall);
        let more = task.least_stop(t);
        let mut least = NONE;
        for i in 0..self.living.len() {
            let run = self.run_at(i);
            if run < self.runs.len()
                && self.may_stop(unit, run, t)
                && self.runs[run].least.saturating_add(more) < least.cost
            {
                self.stop_run(unit, &hour, run, &mut least)?;
            }
        }
        if unit.up_time == 1 && paid < HARDLY {
            self.stop_at_once(task, t, paid, &mut least)?;
        }
        Ok(least)
    }

    // The same of a run, with the hour in which it ends.
    fn stop_run(
        &mut self,
        unit: &Unit,
        hour: &Hour,
        run: usize,
        least: &mut Least,
    ) -> Result<(), NoMemory> {
        if run < self.runs.len() {
            if let Some(before) = self.spare.set_next(&self.runs[run], unit, hour)? {
                if self.spare.least < least.cost {
                    *least = Least {
                        cost: self.spare.least,
                        since: self.since(run),
                        ending: Ending {
                            output: self.spare.bottom,
                            before,
                        },
                    };
                }
            }
        }
        Ok(())
    }

    // The same of a run of period t alone.
    fn stop_at_once(
        &mut self,
        task: &Task,
        t: usize,
        paid: i64,
        least: &mut Least,
    ) -> Result<(), NoMemory> {
        let unit = task.unit;
        let hour = task.hour(&unit.both, t, unit.rise.min(unit.fall));
        let begun = self.spare.set_start(unit, &hour, cost_of(paid))?;
        if begun && self.spare.least < least.cost {
            *least = Least {
                cost: self.spare.least,
                since: Some(t),
                ending: Ending {
                    output: self.spare.bottom,
                    before: 0,
                },
            };
        }
        Ok(())
    }

    // All runs go on through period t.
    fn go_on(&mut self, task: &Task, t: usize) -> Result<(), NoMemory> {
        let hour = task.hour(&task.unit.full, t, i64::MAX);
        let mut kept: usize = 0;
        for i in 0..self.living.len() {
            let run = self.run_at(i);
            if self.goes_on(task.unit, &hour, run, t)? {
                put(&mut self.living, kept, run);
                kept = kept.saturating_add(1);
            }
        }
        self.living.truncate(kept);
        Ok(())
    }

    // A run goes on through period t, whose hour this is; and whether it can.
    fn goes_on(
        &mut self,
        unit: &Unit,
        hour: &Hour,
        run: usize,
        t: usize,
    ) -> Result<bool, NoMemory> {
        if run >= self.runs.len() {
            return Ok(false);
        }
        let Some(before) = self.spare.set_next(&self.runs[run], unit, hour)? else {
            return Ok(false);
        };
        mem::swap(&mut self.spare, &mut self.runs[run]);
        let place = self.place(run, t);
        put(&mut self.befores, place, before);
        Ok(true)
    }

    // The run that begins in period t after so much was paid.
    fn start(&mut self, task: &Task, t: usize, paid: i64) -> Result<(), NoMemory> {
        let unit = task.unit;
        if paid >= HARDLY || t >= self.runs.len() {
            return Ok(());
        }
        let hour = task.hour(&unit.start, t, unit.rise);
        if self.runs[t].set_start(unit, &hour, cost_of(paid))? {
            self.living.push(t)?;
        }
        Ok(())
    }

    // Gives up runs behind period t that cost no less than one beside them in their order.
    fn thin(&mut self, unit: &Unit, t: usize) {
        let mut kept: usize = 0;
        for i in 0..self.living.len() {
            let run = self.run_at(i);
            let (left, is_kept) = self.beaten(unit, t, run, kept);
            kept = left;
            if is_kept {
                put(&mut self.living, kept, run);
                kept = kept.saturating_add(1);
            }
        }
        self.living.truncate(kept);
    }

    // How many of the first runs that go on aren't beaten by another one behind them, and whether that one isn't.
    fn beaten(&self, unit: &Unit, t: usize, run: usize, kept: usize) -> (usize, bool) {
        let mut left = kept;
        for _ in 0..kept {
            let last = self.run_at(left.saturating_sub(1));
            if self.is_within(last, run) {
                return (left, false);
            }
            if !self.may_stop(unit, run, t) || !self.is_within(run, last) {
                break;
            }
            left = left.saturating_sub(1);
        }
        (left, true)
    }

    // Whether a run costs no more than another one whatever the output.
    fn is_within(&self, run: usize, other: usize) -> bool {
        run < self.runs.len()
            && other < self.runs.len()
            && self.runs[run].is_within(&self.runs[other])
    }

    // The least way that is on at the end, before which there are so many periods.
    fn last(&self, periods: usize) -> Least {
        let mut least = NONE;
        for i in 0..self.living.len() {
            let run = self.living[i];
            if run < self.runs.len() && self.runs[run].least < least.cost {
                let place = self.place(run, periods.saturating_sub(1));
                least = Least {
                    cost: self.runs[run].least,
                    since: self.since(run),
                    ending: Ending {
                        output: self.runs[run].bottom,
                        before: number_at(&self.befores, place),
                    },
                };
            }
        }
        least
    }

    /// The least amount of a way, with outputs that keep the ramps in place of others. Where these keep them, they and their amount stand. The only
    /// error is `NoMemory`.
    pub(crate) fn keep(
        &mut self,
        task: &Task,
        choices: &[Choice],
        amount: i64,
        outputs: &mut [Output],
    ) -> Result<Option<i64>, NoMemory> {
        if !task.unit.is_ramped || keep_ramps(task.unit, outputs) {
            return Ok(Some(amount));
        }
        let least = self.least(task, choices)?;
        self.fill_outputs(outputs, task);
        Ok(least)
    }

    // Fills what the unit gives in each period on the least way.
    fn fill_outputs(&self, outputs: &mut [Output], task: &Task) {
        let stands = self.ways.stands.as_slice();
        let mut run = self.periods();
        let mut before = 0;
        let mut after = NOTHING;
        for t in (0..stands.len().min(outputs.len())).rev() {
            let mut own = NOTHING;
            own.on = is_on(stands[t]);
            if own.on && after.on {
                own.power = reached(task.unit, before, after.power);
                before = number_at(&self.befores, self.place(run, t));
            } else if own.on {
                let end = t.saturating_add(1);
                run = self.ways.rest_at(end).since.unwrap_or(self.periods());
                let ending = entry_or(&self.endings, end, NO_ENDING);
                own.power = ending.output;
                before = ending.before;
            }
            outputs[t] = own;
            after = own;
        }
        fill_reserves(outputs, task, stands);
    }
}

// Whether the unit may rest in period t.
fn may_rest(choices: &[Choice], t: usize) -> bool {
    t < choices.len() && choices[t].off
}

// The output nearest to the one at which the cost so far is least from which the next one can be reached.
fn reached(unit: &Unit, least: i64, next: i64) -> i64 {
    least
        .max(next.saturating_sub(unit.rise))
        .min(next.saturating_add(unit.fall))
}

// An amount at the scale.
fn cost_of(amount: i64) -> i128 {
    i128::from(amount).saturating_mul(PART)
}

// Fills the reserves that the caps and the ramps from the outputs before leave, where they earn.
fn fill_reserves(outputs: &mut [Output], task: &Task, stands: &[Stand]) {
    let mut before = task.unit.before;
    for t in 0..outputs.len().min(stands.len()).min(task.prices.len()) {
        if outputs[t].on && task.prices[t].reserve > 0 {
            let head = before.saturating_add(task.unit.rise);
            let most = cap_at(task.unit, stands[t]).min(head);
            outputs[t].reserve = most.saturating_sub(outputs[t].power).max(0);
        }
        before = outputs[t].power;
    }
}

// What output and reserve may be together.
fn cap_at(unit: &Unit, stand: Stand) -> i64 {
    match stand {
        Stand::Off => 0,
        Stand::Full => unit.full.most,
        Stand::Start => unit.start.most,
        Stand::Stop => unit.stop.most,
        Stand::Both => unit.both.most,
    }
}

fn is_on(stand: Stand) -> bool {
    match stand {
        Stand::Off => false,
        _ => true,
    }
}

// Whether outputs keep the unit's ramps.
fn keep_ramps(unit: &Unit, outputs: &[Output]) -> bool {
    let mut before = unit.before;
    for output in outputs {
        let (risen, fallen) = output.moves(before);
        if risen > unit.rise || fallen > unit.fall {
            return false;
        }
        before = output.power;
    }
    true
}
