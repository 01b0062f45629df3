//! The best pattern of a unit by its cells, from switch to switch.

use crate::cells::Cells;
use crate::lists::{at, stretch};
use crate::patterns::Decided;
use crate::unit::Unit;
use std::alloc::Global;
use uc_model::limits::MAX_PERIODS;
use uc_model::{NoMemory, Pattern};

/// What a period costs that may not be as it is: more than all periods that may.
const BARRED: i64 = 1 << 55;

/// The most that a cell costs, in size.
const MOST: i64 = 1 << 46;

/// A period, or the end. What lies before it costs `on_before` to a unit that is on all the time, and `off_before` to one that is off.
/// Further the least ways from it on: `start` of a unit that starts, whose start is left out, up to the period in which it stops; `run`
/// of one that is on and may stop after it, likewise; `rest` of one that stops, with the period in which it starts again; and `cold` of
/// one that is off since long, likewise.
#[derive(Clone, Copy)]
struct Hour {
    on_before: i64,
    off_before: i64,
    start: Way,
    run: Way,
    rest: Way,
    cold: Way,
}

// What is left costs so much, and the unit is switched in this period.
#[derive(Clone, Copy)]
struct Way {
    cost: i64,
    at: usize,
}

const NO_WAY: Way = Way { cost: 0, at: 0 };

const NO_HOUR: Hour = Hour {
    on_before: 0,
    off_before: 0,
    start: NO_WAY,
    run: NO_WAY,
    rest: NO_WAY,
    cold: NO_WAY,
};

/// Memory for the search of a pattern: the periods, and the end.
#[derive(Drop)]
pub struct Course {
    hours: Vec<Hour>,
}

impl Way {
    // The way with what lies before it.
    fn after(&self, cost: i64) -> Way {
        Way {
            cost: self.cost.wrapping_add(cost),
            at: self.at,
        }
    }

    fn lesser(self, other: Way) -> Way {
        if other.cost < self.cost { other } else { self }
    }
}

impl Course {
    /// Memory for no period.
    pub(crate) fn new(alloc: Global) -> Course {
        Course {
            hours: Vec::new(alloc),
        }
    }

    /// Makes it memory for so many periods. The only error is `NoMemory`.
    pub(crate) fn stretch(&mut self, periods: usize) -> Result<(), NoMemory> {
        stretch(&mut self.hours, periods.saturating_add(1), NO_HOUR)
    }

    /// The least cost of a pattern that is as `fix` decides by the cells, with starts for nothing where they are free, and this pattern;
    /// `None` where there is none.
    pub fn best(
        &mut self,
        unit: &Unit,
        fix: &Decided,
        cells: &[Cells],
        are_starts_free: bool,
    ) -> Option<(i64, Pattern)> {
        let hours = self.hours.as_mut_slice();
        fill_sums(hours, unit, fix, cells);
        fill_ways(hours, unit, fix, cells, are_starts_free);
        let first = first_way(hours, unit, cells.len());
        if first.cost < BARRED / 2 {
            Some((first.cost, pattern_of(hours, unit, first.at, cells.len())))
        } else {
            None
        }
    }
}

// The sums of the periods.
fn fill_sums(hours: &mut [Hour], unit: &Unit, fix: &Decided, cells: &[Cells]) {
    let mut on: i64 = 0;
    let mut off: i64 = 0;
    for t in 0..hours.len() {
        hours[t].on_before = on;
        hours[t].off_before = off;
        if t < cells.len() {
            on = on.wrapping_add(cost_on(cells[t].plain, true, fix, t));
            off = off.wrapping_add(cost_off(unit, fix, t));
        }
    }
}

// The ways from the end and from each period on.
fn fill_ways(
    hours: &mut [Hour],
    unit: &Unit,
    fix: &Decided,
    cells: &[Cells],
    are_starts_free: bool,
) {
    let end = cells.len();
    let last = Hour {
        run: Way { cost: 0, at: end },
        cold: Way { cost: 0, at: end },
        ..hour_at(hours, end)
    };
    set(hours, end, last);
    for t in (0..end).rev() {
        let hour = hour_of(hours, unit, fix, &cells[t], t, end, are_starts_free);
        set(hours, t, hour);
    }
}

// What a cell costs, if it is allowed and nothing else is decided.
fn cost_on(cost: i64, is_allowed: bool, fix: &Decided, t: usize) -> i64 {
    if is_allowed && !is_barred(fix, t, true) {
        cost.max(-MOST).min(MOST)
    } else {
        BARRED
    }
}

// What a period costs that is off.
fn cost_off(unit: &Unit, fix: &Decided, t: usize) -> i64 {
    if unit.must_run || is_barred(fix, t, false) {
        BARRED
    } else {
        0
    }
}

// Whether it is decided that the unit isn't on, or isn't off, in period t.
fn is_barred(fix: &Decided, t: usize, on: bool) -> bool {
    t < MAX_PERIODS as usize && fix.known.is_on(t as u32) && fix.on.is_on(t as u32) != on
}

fn hour_at(hours: &[Hour], t: usize) -> Hour {
    if t < hours.len() { hours[t] } else { NO_HOUR }
}

fn set(hours: &mut [Hour], t: usize, hour: Hour) {
    if t < hours.len() {
        hours[t] = hour;
    }
}

// Period t, from the later ones.
fn hour_of(
    hours: &[Hour],
    unit: &Unit,
    fix: &Decided,
    cell: &Cells,
    t: usize,
    end: usize,
    are_starts_free: bool,
) -> Hour {
    let own = hour_at(hours, t);
    let next = t.saturating_add(1);
    let later = hour_at(hours, next);
    let mut run = later.run.after(later.on_before.wrapping_sub(own.on_before));
    if next < end {
        let stop = cost_on(cell.stop, unit.stop >= 0, fix, t);
        run = run.lesser(Way {
            cost: later.rest.cost.wrapping_add(stop),
            at: next,
        });
    }
    let start = start_of(hours, unit, fix, cell, t, end);
    let base = if are_starts_free {
        0
    } else {
        at(&unit.bases, t)
    };
    let off = later.off_before.wrapping_sub(own.off_before);
    let warm_up = Way {
        cost: start.cost.wrapping_add(base),
        at: t,
    };
    Hour {
        start,
        run,
        rest: rest_of(hours, unit, t, end, are_starts_free),
        cold: later.cold.after(off).lesser(warm_up),
        ..own
    }
}

// The least way from a start in period t on.
fn start_of(hours: &[Hour], unit: &Unit, fix: &Decided, cell: &Cells, t: usize, end: usize) -> Way {
    let next = t.saturating_add(1);
    let later = hour_at(hours, next);
    let cost = cost_on(cell.start, unit.start >= 0, fix, t);
    let least = t.saturating_add(unit.up).max(next);
    let from = hour_at(hours, least.saturating_sub(1).max(next).min(end));
    let way = from.run.after(cost.wrapping_add(from.on_before.wrapping_sub(later.on_before)));
    if least == next && next < end {
        let both = cost_on(cell.both, unit.start >= 0 && unit.stop >= 0, fix, t);
        way.lesser(Way {
            cost: later.rest.cost.wrapping_add(both),
            at: next,
        })
    } else {
        way
    }
}

// The least way from a stop in period t on.
fn rest_of(hours: &[Hour], unit: &Unit, t: usize, end: usize, are_starts_free: bool) -> Way {
    let before = hour_at(hours, t).off_before;
    let from = t
        .saturating_add(unit.down)
        .max(t.saturating_add(1))
        .min(end);
    let hour = hour_at(hours, from);
    let mut best = hour.cold.after(hour.off_before.wrapping_sub(before));
    if !are_starts_free {
        for warm in &unit.warm {
            let first = from.max(warm.lag.saturating_sub(1));
            let last = t.saturating_add(warm.lag).min(end);
            best = warm_of(hours, first, last, warm.cost.wrapping_sub(before), best);
        }
    }
    best
}

// The least of a way and of those with a start in the periods from `first` up to `last`, where starts cost so much more.
fn warm_of(hours: &[Hour], first: usize, last: usize, more: i64, way: Way) -> Way {
    let mut best = way;
    for a in first..last.min(hours.len()) {
        let cost = hours[a].start.cost.wrapping_add(hours[a].off_before);
        best = best.lesser(Way {
            cost: cost.wrapping_add(more),
            at: a,
        });
    }
    best
}

// The least way from before the first period.
fn first_way(hours: &[Hour], unit: &Unit, end: usize) -> Way {
    if !unit.was_on {
        let hour = hour_at(hours, unit.left.min(end));
        return hour.cold.after(hour.off_before);
    }
    if unit.is_too_high {
        return Way {
            cost: BARRED,
            at: end,
        };
    }
    let hour = hour_at(hours, unit.left.saturating_sub(1).min(end));
    let way = hour.run.after(hour.on_before);
    if unit.left == 0 && unit.may_stop_first {
        way.lesser(Way {
            cost: hour_at(hours, 0).rest.cost,
            at: 0,
        })
    } else {
        way
    }
}

// The pattern of the way on which the unit is switched first in this period.
fn pattern_of(hours: &[Hour], unit: &Unit, first: usize, end: usize) -> Pattern {
    let mut pattern = Pattern::all_off();
    let mut from: usize = 0;
    let mut to = first;
    let mut on = unit.was_on;
    for _ in 0..=end {
        if on {
            for t in from..to.min(end) {
                if t < MAX_PERIODS as usize {
                    pattern.switch_on(t as u32);
                }
            }
        }
        if to >= end {
            break;
        }
        from = to;
        on = !on;
        let hour = hour_at(hours, from);
        to = if on { hour.start.at } else { hour.rest.at };
    }
    pattern
}
