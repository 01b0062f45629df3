//! The least ways of a unit into its runs, and to the rests behind them.
//!
//! A run is a stretch of on periods that begins with a start, and a rest one of off periods that begins with a stop. Which rests go on is
//! kept while the periods are walked over, so that only a warm start looks back, and no farther than its category's lag.

use crate::amounts::{HARDLY, NEVER, amount_at, entry_or, put};
use crate::decisions::Choice;
use crate::unit::Unit;
use std::alloc::Global;
use uc_model::NoMemory;
use uc_model::limits::MAX_START_ROWS;

/// An amount, and in which period the run or the rest before began; `None` is the initial state.
#[derive(Clone, Copy)]
pub(crate) struct Way {
    pub amount: i64,
    pub since: Option<usize>,
}

pub(crate) const NO_WAY: Way = Way {
    amount: NEVER,
    since: None,
};

/// How a unit is on in a period.
#[derive(Clone, Copy)]
pub(crate) enum Stand {
    Off,
    Full,
    Start,
    Stop,
    Both,
}

/// The least way that ends in a rest from each period on, the last one being that to the end; the least way into a run from each period
/// on; how the unit stands in each period on the least way of all; and for each warm start the least late rest.
#[derive(Drop)]
pub(crate) struct Ways {
    rests: Vec<Way>,
    starts: Vec<Way>,
    pub stands: Vec<Stand>,
    late: Vec<Late>,
}

// Since when the least of the rests lasts that are late enough for a warm start, and behind which period those begin that weren't looked at.
#[derive(Clone, Copy)]
struct Late {
    least: usize,
    behind: usize,
}

const UNSEEN: Late = Late {
    least: 0,
    behind: 0,
};

/// The rests that go on: since when no period forbids one, whether the initial one does, and the least that has lasted the minimum time.
#[derive(Clone, Copy)]
pub(crate) struct Resting {
    since: usize,
    first: bool,
    least: Way,
}

impl Ways {
    /// Memory for so many periods. The only error is `NoMemory`.
    pub(crate) fn new(alloc: Global, periods: usize) -> Result<Ways, NoMemory> {
        Ok(Ways {
            rests: vec![in alloc; NO_WAY; periods.saturating_add(1)]?,
            starts: vec![in alloc; NO_WAY; periods]?,
            stands: vec![in alloc; Stand::Off; periods]?,
            late: vec![in alloc; UNSEEN; MAX_START_ROWS]?,
        })
    }

    /// The initial state, and a stop in the first period, where the unit may stop there.
    pub(crate) fn begin(&mut self, unit: &Unit, choices: &[Choice], may_stop: bool) -> Resting {
        let stops = !choices.is_empty() && choices[0].off && unit.was_on && may_stop;
        let rest = if stops && unit.first_stop == 0 {
            Way {
                amount: 0,
                since: None,
            }
        } else {
            NO_WAY
        };
        put(&mut self.rests, 0, rest);
        self.late.fill(UNSEEN);
        Resting {
            since: 0,
            first: !unit.was_on,
            least: NO_WAY,
        }
    }

    /// The rest that has lasted long enough in period t for the first time.
    pub(crate) fn lengthen_rest(&self, unit: &Unit, resting: &mut Resting, t: usize) {
        let Some(since) = t.checked_sub(unit.down_time) else {
            return;
        };
        if since >= resting.since {
            let amount = self.rest_at(since).amount;
            if amount < resting.least.amount {
                resting.least = Way {
                    amount,
                    since: Some(since),
                };
            }
        }
    }

    /// The way that ends in a rest from this period on.
    pub(crate) fn rest_at(&self, since: usize) -> Way {
        entry_or(&self.rests, since, NO_WAY)
    }

    /// Puts down the least way to a rest from this period on.
    pub(crate) fn rest(&mut self, since: usize, way: Way) {
        put(&mut self.rests, since, way);
    }

    /// The least way into a run from period t on, which is put down.
    pub(crate) fn start(&mut self, unit: &Unit, resting: &Resting, t: usize) -> i64 {
        let always = amount_at(&unit.starts.always, t);
        let mut way = NO_WAY;
        if resting.first && t >= unit.first_start {
            way.amount = always;
        }
        let amount = resting.least.amount.saturating_add(always);
        if amount < way.amount {
            way = Way {
                amount,
                since: resting.least.since,
            };
        }
        for i in 0..unit.starts.warm.len().min(self.late.len()) {
            let warm = unit.starts.warm[i];
            if t >= warm.from && resting.least.amount.saturating_add(warm.cost) < way.amount {
                let since = self.warm_since(i, unit, resting, t);
                self.start_behind(&mut way, warm.cost, since);
            }
        }
        put(&mut self.starts, t, way);
        way.amount
    }

    // Since when the least rest lasts that is late enough for warm start i in period t: the least of all, if it is, or else the least of those
    // that are.
    fn warm_since(&mut self, i: usize, unit: &Unit, resting: &Resting, t: usize) -> Option<usize> {
        let warm = unit.starts.warm.get(i)?;
        let first = t.saturating_sub(warm.longest);
        if resting.least.since >= Some(first) {
            return resting.least.since;
        }
        let behind = t.saturating_add(1).saturating_sub(unit.down_time);
        self.least_late(i, first.max(resting.since), behind)
    }

    // A way into a run behind the rest since then, at this cost of the start, where it is less.
    fn start_behind(&self, way: &mut Way, cost: i64, since: Option<usize>) {
        let Some(since) = since else {
            return;
        };
        let amount = self.rest_at(since).amount.saturating_add(cost);
        if amount < way.amount {
            *way = Way {
                amount,
                since: Some(since),
            };
        }
    }

    // Since when the least of the rests lasts that begin in some periods. It goes on from what is known of warm start i, unless that began too early.
    fn least_late(&mut self, i: usize, first: usize, behind: usize) -> Option<usize> {
        if first >= behind {
            return None;
        }
        let mut late = entry_or(&self.late, i, UNSEEN);
        if late.least < first {
            late = Late {
                least: first,
                behind: first,
            };
        }
        let mut least = late.least;
        let mut amount = self.rest_at(least).amount;
        for since in late.behind..behind {
            let own = self.rest_at(since).amount;
            if own < amount {
                least = since;
                amount = own;
            }
        }
        put(&mut self.late, i, Late { least, behind });
        Some(least)
    }

    /// The amount of the least way into a run from period t on.
    pub(crate) fn start_amount(&self, t: usize) -> i64 {
        entry_or(&self.starts, t, NO_WAY).amount
    }

    /// The least amount of a way, on which the unit stands as is put down.
    pub(crate) fn trace(&mut self, resting: &Resting) -> Option<i64> {
        for stand in self.stands.iter_mut() {
            *stand = Stand::Off;
        }
        let mut least = if resting.first { 0 } else { NEVER };
        let mut last = None;
        for since in resting.since..self.rests.len() {
            let amount = self.rest_at(since).amount;
            if amount < least {
                least = amount;
                last = Some(since);
            }
        }
        if least >= HARDLY {
            return None;
        }
        for _ in 0..self.rests.len() {
            let Some(end) = last else {
                break;
            };
            last = self.trace_run(end);
        }
        Some(least)
    }

    // Puts down the run before the rest from this period on, and tells since when the rest before it lasts.
    fn trace_run(&mut self, end: usize) -> Option<usize> {
        let way = self.rest_at(end);
        let last = end.saturating_sub(1);
        let stops = end < self.stands.len();
        for t in way.since.unwrap_or(0)..end {
            let starts = way.since == Some(t);
            put(&mut self.stands, t, stand_of(starts, stops && t == last));
        }
        entry_or(&self.starts, way.since?, NO_WAY).since
    }
}

impl Resting {
    /// A period forbids to rest in it: no rest goes on behind it.
    pub(crate) fn end(&mut self, t: usize) {
        self.since = t.saturating_add(1);
        self.first = false;
        self.least = NO_WAY;
    }
}

// How a unit stands in a period of a run, by whether it starts in it and stops behind it.
fn stand_of(starts: bool, stops: bool) -> Stand {
    match (starts, stops) {
        (false, false) => Stand::Full,
        (true, false) => Stand::Start,
        (false, true) => Stand::Stop,
        (true, true) => Stand::Both,
    }
}
