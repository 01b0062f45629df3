//! Swaps: over a run of periods one unit gives more and another as much less, where that costs less.
//!
//! What all units together give in each period stays, and a swap goes only as far as caps, ramps and the wanted reserve let it.

use crate::leeway::{FREE, Leeway, fill_leeways};
use crate::lists::{push_rows, put, stretch};
use crate::merit::PART;
use crate::period::Period;
use crate::swap_run::{NO_RUN, Run, best_run, shift_row, take_spares, watts_of};
use crate::system::Plant;
use crate::unit::Unit;
use crate::window::{Window, limits_at};
use std::alloc::Global;
use uc_model::{NoMemory, Pattern};

/// So many units swap at most.
const MOVERS: usize = 256;

/// The most swaps of two units, one after another, and the most passes over all pairs.
const SWAPS: u32 = 32;

const PASSES: u32 = 4;

/// A swap gains at least this rate, of a thousandth of a micro-dollar a watt.
const LEAST: i64 = PART / 1000;

/// Memory for swaps: the units that can gain by one and what each can give, by how much the reserve of each period is more than wanted, one
/// unit's leeways, and the rates between which a period's units can gain nothing.
#[derive(Drop)]
pub(crate) struct Swaps {
    movers: Vec<usize>,
    leeways: Vec<Vec<Leeway>>,
    spares: Vec<i64>,
    own: Vec<Leeway>,
    spans: Vec<Span>,
}

// The least rate of a watt more in a period, and the greatest one that a watt less saves.
#[derive(Clone, Copy)]
struct Span {
    up_rate: i64,
    down_rate: i64,
}

const NO_SPAN: Span = Span {
    up_rate: i64::MAX,
    down_rate: i64::MIN,
};

impl Span {
    // The same with what a unit can give more.
    fn with(&self, own: &Leeway) -> Span {
        Span {
            up_rate: if own.up > 0 {
                self.up_rate.min(own.up_rate)
            } else {
                self.up_rate
            },
            down_rate: if own.down > 0 {
                self.down_rate.max(own.down_rate)
            } else {
                self.down_rate
            },
        }
    }
}

// The mover at one place gives more over a run, and that at another as much less.
#[derive(Clone, Copy)]
struct Swap {
    more: usize,
    less: usize,
    run: Run,
}

/// Units on their patterns in so many periods.
#[derive(Clone, Copy)]
pub(crate) struct Committed<'a> {
    pub units: &'a [Unit],
    pub patterns: &'a [Pattern],
    pub count: u32,
}

impl Committed<'_> {
    // Fills in what unit g can give, if it is there.
    fn fill(&self, g: usize, rows: &[Vec<Window>], leeways: &mut [Leeway]) {
        if g < self.units.len() && g < self.patterns.len() && g < rows.len() {
            fill_leeways(
                &self.units[g],
                &self.patterns[g],
                self.count,
                &rows[g],
                leeways,
            );
        }
    }

    // Whether the ramps of a unit can bind, if there is one.
    fn is_ramped(&self, g: Option<usize>) -> bool {
        match g {
            Some(g) => g < self.units.len() && self.units[g].is_ramped,
            None => false,
        }
    }

    // The reserve that unit g can give in period t.
    fn reserve(&self, g: usize, row: &[Window], t: u32) -> i64 {
        let i = t as usize;
        if g >= self.units.len() || g >= self.patterns.len() || i >= row.len() || !row[i].on {
            return 0;
        }
        let unit = &self.units[g];
        let before = if i > 0 { row[i - 1].power } else { unit.before };
        let most = before.saturating_add(unit.rise);
        limits_at(unit, &self.patterns[g], t, self.count)
            .head
            .min(most)
            .saturating_sub(row[i].power)
    }
}

impl Swaps {
    /// No memory for swaps.
    pub(crate) fn new(alloc: Global) -> Swaps {
        Swaps {
            movers: Vec::new(alloc),
            leeways: Vec::new(alloc),
            spares: Vec::new(alloc),
            own: Vec::new(alloc),
            spans: Vec::new(alloc),
        }
    }

    /// Takes memory for those of the plant in so many periods, if ramps can bind there. The only error is `NoMemory`.
    pub(crate) fn fill(
        &mut self,
        alloc: Global,
        plant: &Plant,
        count: usize,
    ) -> Result<(), NoMemory> {
        let movers = if plant.is_ramped {
            plant.units.len().min(MOVERS)
        } else {
            0
        };
        push_rows(alloc, FREE, movers, count, &mut self.leeways)
            .and(stretch(&mut self.spares, count, 0))
            .and(stretch(&mut self.own, count, FREE))
            .and(stretch(&mut self.spans, count, NO_SPAN))
    }

    /// Moves the centres of windows by swaps, as long as those gain. The only error is `NoMemory`.
    pub(crate) fn make(
        &mut self,
        committed: &Committed,
        periods: &[Period],
        rows: &mut [Vec<Window>],
    ) -> Result<(), NoMemory> {
        set_spares(committed, periods, rows, &mut self.spares);
        set_spans(committed, rows, &mut self.own, &mut self.spans);
        self.list(committed, rows)?;
        for _ in 0..PASSES {
            if !self.pass(committed, rows) {
                break;
            }
        }
        Ok(())
    }

    // Lists the units that can gain by a swap, as many as there is memory for, with what each can give.
    fn list(&mut self, committed: &Committed, rows: &[Vec<Window>]) -> Result<(), NoMemory> {
        self.movers.clear();
        for g in 0..rows.len() {
            committed.fill(g, rows, &mut self.own);
            let place = self.movers.len();
            if place < self.leeways.len() && can_gain(&self.own, &self.spans) {
                put(&mut self.movers, g)?;
                self.refill(committed, place, rows);
            }
        }
        Ok(())
    }

    // Fills in anew what the mover at a place can give.
    fn refill(&mut self, committed: &Committed, place: usize, rows: &[Vec<Window>]) {
        if let Some(g) = at_place(&self.movers, place) {
            if place < self.leeways.len() {
                committed.fill(g, rows, &mut self.leeways[place]);
            }
        }
    }

    // Makes the swaps of all pairs, and tells whether there were any.
    fn pass(&mut self, committed: &Committed, rows: &mut [Vec<Window>]) -> bool {
        let mut has_swapped = false;
        for i in 0..self.movers.len() {
            for j in 0..i {
                let (g, h) = (at_place(&self.movers, i), at_place(&self.movers, j));
                if committed.is_ramped(g) || committed.is_ramped(h) {
                    let swapped = self.swap_pair(committed, i, j, rows);
                    has_swapped = has_swapped || swapped;
                }
            }
        }
        has_swapped
    }

    // Makes the swaps of the movers at two places, and tells whether there were any.
    fn swap_pair(
        &mut self,
        committed: &Committed,
        i: usize,
        j: usize,
        rows: &mut [Vec<Window>],
    ) -> bool {
        let mut has_swapped = false;
        for _ in 0..SWAPS {
            let there = self.best_swap(i, j);
            let back = self.best_swap(j, i);
            let best = if there.run.gain < back.run.gain {
                back
            } else {
                there
            };
            if !self.swap(committed, &best, rows) {
                break;
            }
            has_swapped = true;
        }
        has_swapped
    }

    // The swap that gains most where the mover at one place gives more, and that at another less.
    fn best_swap(&self, more: usize, less: usize) -> Swap {
        let run = if more < self.leeways.len() && less < self.leeways.len() {
            best_run(&self.leeways[more], &self.leeways[less], &self.spares)
        } else {
            NO_RUN
        };
        Swap { more, less, run }
    }

    // Makes a swap, if it gains, and tells whether it does.
    fn swap(&mut self, committed: &Committed, swap: &Swap, rows: &mut [Vec<Window>]) -> bool {
        let Swap { more, less, run } = *swap;
        let Some(g) = at_place(&self.movers, more) else {
            return false;
        };
        let Some(h) = at_place(&self.movers, less) else {
            return false;
        };
        if run.gain < LEAST || more >= self.leeways.len() || less >= self.leeways.len() {
            return false;
        }
        let (up, down) = (self.leeways[more].as_slice(), self.leeways[less].as_slice());
        let watts = watts_of(up, down, &self.spares, &run);
        if watts <= 0 {
            return false;
        }
        take_spares(up, down, &run, watts, &mut self.spares);
        shift_row(rows, g, &run, watts);
        shift_row(rows, h, &run, watts.saturating_neg());
        self.refill(committed, more, rows);
        self.refill(committed, less, rows);
        true
    }
}

// Sets by how much the reserve of each period is more than wanted.
fn set_spares(committed: &Committed, periods: &[Period], rows: &[Vec<Window>], spares: &mut [i64]) {
    let mut t: u32 = 0;
    for i in 0..spares.len().min(periods.len()) {
        let mut spare = periods[i].reserve.saturating_neg();
        for g in 0..rows.len() {
            spare = spare.saturating_add(committed.reserve(g, &rows[g], t));
        }
        spares[i] = spare;
        t = t.saturating_add(1);
    }
}

// Sets the rates between which units can't gain.
fn set_spans(committed: &Committed, rows: &[Vec<Window>], own: &mut [Leeway], spans: &mut [Span]) {
    spans.fill(NO_SPAN);
    for g in 0..rows.len() {
        committed.fill(g, rows, own);
        for t in 0..spans.len().min(own.len()) {
            spans[t] = spans[t].with(&own[t]);
        }
    }
}

// The unit at a place of a list, and none past its end.
fn at_place(movers: &[usize], i: usize) -> Option<usize> {
    if i < movers.len() {
        Some(movers[i])
    } else {
        None
    }
}

// Whether a unit can give more in a period for less than another saves, or the other way round.
fn can_gain(own: &[Leeway], spans: &[Span]) -> bool {
    let mut can_gain = false;
    for t in 0..own.len().min(spans.len()) {
        can_gain = can_gain
            || own[t].rises_below(spans[t].down_rate)
            || own[t].falls_above(spans[t].up_rate);
    }
    can_gain
}
