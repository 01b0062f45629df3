//! The segments of all thermal units in order of merit, and what watts cost.

use crate::lists::put;
use crate::unit::Unit;
use std::alloc::Global;
use uc_model::{Instance, NoMemory, Point};

/// Rates are in parts of this of a micro-dollar a watt.
pub const PART: i64 = 1 << 16;

/// The greatest rate in size, of a million dollars a megawatt.
const STEEPEST: i64 = 1 << 36;

/// What is lacking or too much costs so many times the dearest watt of a segment or a minimum.
const SCARCITY: i64 = 50;

/// The most that a period costs by itself in which something is lacking.
const DEAREST_BREACH: i64 = 1 << 43;

/// A segment of a unit's hull: its place in the order of merit, its watts, and the rate of each.
#[derive(Clone, Copy)]
pub(crate) struct Segment {
    pub place: usize,
    pub watts: i64,
    pub rate: i64,
}

/// The rates of all segments in order of merit, how many of them are below 0, the rate of the segment with which half of all watts are
/// reached, and that of what is lacking; and what a period costs beside it in which something is lacking. Where demand may stay unserved, `shed` is the rate of that, and so many segments are `worthwhile`, which cost
/// less; else it is 0, and all are. `missing` is the rate of missing reserve.
#[derive(Drop)]
pub struct Market {
    pub(crate) rates: Vec<i64>,
    pub(crate) gainful: usize,
    pub middle: i64,
    pub(crate) scarcity: i64,
    pub(crate) breach: i64,
    pub(crate) shed: i64,
    pub(crate) worthwhile: usize,
    pub missing: i64,
}

// Where a segment stands among its unit's.
#[derive(Clone, Copy)]
struct Entry {
    rate: i64,
    watts: i64,
    unit: usize,
    number: usize,
}

/// What so many watts cost at a rate, in micro-dollars.
pub(crate) fn cost_of(rate: i64, watts: i64) -> i64 {
    rate.saturating_mul(watts) / PART
}

/// The same of a shortage, of which there may be more watts at a greater rate.
pub(crate) fn shortage_cost(rate: i64, watts: i64) -> i64 {
    (rate / PART)
        .saturating_mul(watts)
        .saturating_add(cost_of(rate % PART, watts))
}

/// A number kept within the greatest rate.
pub fn rate_within(number: &i128) -> i64 {
    let most = i128::from(STEEPEST);
    (*number).min(most).max(-most) as i64
}

/// Adds the segments between corners of a curve, in rising order, without their places.
pub(crate) fn push_segments(all: &mut Vec<Segment>, corners: &[Point]) -> Result<(), NoMemory> {
    for i in 1..corners.len() {
        put(all, segment_between(&corners[i - 1], &corners[i]))?;
    }
    Ok(())
}

fn segment_between(from: &Point, to: &Point) -> Segment {
    let watts = to.mw.saturating_sub(from.mw);
    let rise = i128::from(to.cost.saturating_sub(from.cost));
    let rate = rise.saturating_mul(i128::from(PART)) / i128::from(watts.max(1));
    Segment {
        place: 0,
        watts,
        rate: rate_within(&rate),
    }
}

impl Market {
    /// No segments.
    pub(crate) fn new(alloc: Global) -> Market {
        Market {
            rates: Vec::new(alloc),
            gainful: 0,
            middle: 0,
            scarcity: 0,
            breach: 0,
            shed: 0,
            worthwhile: 0,
            missing: 0,
        }
    }

    /// Orders the segments of the units by merit, and tells them their places. The only error is `NoMemory`.
    pub(crate) fn fill(
        &mut self,
        alloc: Global,
        instance: &Instance,
        units: &mut [Unit],
    ) -> Result<(), NoMemory> {
        let mut entries = Vec::new(alloc);
        for unit in 0..units.len() {
            push_entries(&mut entries, unit, &units[unit].segments)?;
        }
        entries.sort_by_key(|entry| entry.rate)?;
        self.gainful = below(&entries, 0);
        self.middle = middle(&entries);
        self.scarcity = dearest_rate(&entries, units).saturating_mul(SCARCITY);
        self.breach = dearest_run(units).min(DEAREST_BREACH);
        self.set_shortages(instance, &entries);
        for place in 0..entries.len() {
            set_place(units, &entries[place], place);
            put(&mut self.rates, entries[place].rate)?;
        }
        Ok(())
    }

    // Sets what unserved demand and missing reserve cost. What may not be lacking costs more than what may.
    fn set_shortages(&mut self, instance: &Instance, entries: &[Entry]) {
        self.shed = i64::from(instance.a).saturating_mul(PART);
        let missing = i64::from(instance.b).saturating_mul(PART);
        self.scarcity = self.scarcity.max(self.shed.max(missing).saturating_mul(2));
        self.worthwhile = if self.shed > 0 {
            below(entries, self.shed)
        } else {
            entries.len()
        };
        self.missing = if missing > 0 { missing } else { self.scarcity };
    }

    /// Whether demand may stay unserved.
    pub fn may_shed(&self) -> bool {
        self.shed > 0
    }

    /// Whether reserve may be missing.
    pub fn may_miss(&self) -> bool {
        self.missing < self.scarcity
    }
}

// How many rates are below this one, which come first.
fn below(entries: &[Entry], rate: i64) -> usize {
    let mut count: usize = 0;
    for entry in entries {
        if entry.rate < rate {
            count = count.saturating_add(1);
        }
    }
    count
}

// The dearest rate in size, of a segment or at a unit's minimum; at least 1.
fn dearest_rate(entries: &[Entry], units: &[Unit]) -> i64 {
    let mut dearest: i64 = 1;
    for entry in entries {
        dearest = dearest.max(entry.rate.saturating_abs());
    }
    for unit in units {
        dearest = dearest.max(unit.rate_at_minimum().saturating_abs());
    }
    dearest
}

// What the dearest unit's start and run cost.
fn dearest_run(units: &[Unit]) -> i64 {
    let mut dearest: i64 = 0;
    for unit in units {
        dearest = dearest.max(unit.cost_of_run());
    }
    dearest
}

// Adds the segments of a unit.
fn push_entries(all: &mut Vec<Entry>, unit: usize, segments: &[Segment]) -> Result<(), NoMemory> {
    for number in 0..segments.len() {
        let Segment { watts, rate, .. } = segments[number];
        let entry = Entry {
            rate,
            watts,
            unit,
            number,
        };
        put(all, entry)?;
    }
    Ok(())
}

// The rate of the segment with which, in order of merit, half of all watts are reached; at least 1.
fn middle(entries: &[Entry]) -> i64 {
    let mut watts: i64 = 0;
    for entry in entries {
        watts = watts.saturating_add(entry.watts);
    }
    let mut left = watts / 2;
    for entry in entries {
        left = left.saturating_sub(entry.watts);
        if left <= 0 {
            return entry.rate.max(1);
        }
    }
    1
}

fn set_place(units: &mut [Unit], entry: &Entry, place: usize) {
    if entry.unit < units.len() {
        let segments = units[entry.unit].segments.as_mut_slice();
        if entry.number < segments.len() {
            segments[entry.number].place = place;
        }
    }
}
