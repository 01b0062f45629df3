//! The trajectory of one unit: its outputs that cost least beside the others and keep its ramps.

use crate::beside::Beside;
use crate::convex::{Bottom, Convex};
use crate::lists::put;
use crate::merit::PART;
use crate::period::Period;
use crate::unit::Unit;
use crate::window::Window;
use std::alloc::Global;
use uc_model::NoMemory;

/// Into how many parts a range of outputs is cut where its cost is told.
const PARTS: i64 = 8;

/// Memory for the search of a trajectory: the cost of outputs so far, that of the period, and where the former is least in each period.
#[derive(Drop)]
pub struct Trajectory {
    value: Convex,
    reached: Convex,
    own: Convex,
    points: Vec<i64>,
    bottoms: Vec<Bottom>,
}

impl Trajectory {
    /// Memory for a trajectory. None is taken until one is sought.
    pub(crate) fn new(alloc: Global) -> Trajectory {
        Trajectory {
            value: Convex::new(alloc),
            reached: Convex::new(alloc),
            own: Convex::new(alloc),
            points: Vec::new(alloc),
            bottoms: Vec::new(alloc),
        }
    }

    /// Centres open windows on the outputs that cost least with those of all periods, near the centres so far where several do. The
    /// only error is `NoMemory`.
    pub fn center(&mut self, beside: &Beside, row: &mut [Window]) -> Result<(), NoMemory> {
        self.bottoms.clear();
        self.value.set(beside.unit.before);
        let (rise, fall) = (beside.unit.rise, beside.unit.fall);
        for t in 0..beside.periods.len().min(row.len()) {
            self.reached
                .set_reached(&self.value, rise, fall, row[t].high)?;
            let wanted = wanted_output(beside, row, t + 1);
            self.set_own(beside, &beside.periods[t], &row[t], wanted)?;
            self.value.set_sum(&self.reached, &self.own)?;
            put(&mut self.bottoms, self.value.bottom())?;
        }
        read_back(beside.unit, &self.bottoms, row);
        Ok(())
    }

    // The cost of the period over the outputs that are reached, with what lacks of the reserve of the next one below the wanted output.
    fn set_own(
        &mut self,
        beside: &Beside,
        period: &Period,
        window: &Window,
        wanted: (i64, i64),
    ) -> Result<(), NoMemory> {
        let low = self.reached.low;
        let high = self.reached.high();
        self.own.set(low);
        set_points(&mut self.points, beside, period, wanted.0, low, high)?;
        let mut from = low;
        let mut cost = cost_to(beside, period, window, wanted, from);
        for to in &self.points {
            if *to > from {
                let next = cost_to(beside, period, window, wanted, *to);
                let width = to.saturating_sub(from);
                let rate = next.saturating_sub(cost).saturating_mul(PART) / width.max(1);
                self.own.push(width, rate)?;
                from = *to;
                cost = next;
            }
        }
        Ok(())
    }
}

// What an output costs in its period, and by what lacks of the reserve of the next.
fn cost_to(
    beside: &Beside,
    period: &Period,
    window: &Window,
    wanted: (i64, i64),
    power: i64,
) -> i64 {
    let lacking = wanted.0.saturating_sub(power).max(0);
    beside
        .cost_at(period, window.on, power, window.head)
        .saturating_add(lacking.saturating_mul(wanted.1) / PART)
}

// The least output that leaves the reserve of period t its head, and the rate of missing reserve there.
fn wanted_output(beside: &Beside, row: &[Window], t: usize) -> (i64, i64) {
    if t < beside.periods.len() && t < row.len() && row[t].on {
        wanted_in(beside, &beside.periods[t], &row[t])
    } else {
        (0, 0)
    }
}

// The same of a period in which the unit is on.
fn wanted_in(beside: &Beside, period: &Period, window: &Window) -> (i64, i64) {
    let addition = beside.unit.addition(window.power, 0);
    let short = period.short_with(beside.market, &addition);
    let head = short.min(window.head);
    (head.saturating_sub(beside.unit.rise), period.reserve_rate)
}

// The outputs between which the cost is told: the ends of the unit's segments, those at which the others give nothing or all they can,
// the wanted one, and some between.
fn set_points(
    points: &mut Vec<i64>,
    beside: &Beside,
    period: &Period,
    wanted: i64,
    low: i64,
    high: i64,
) -> Result<(), NoMemory> {
    points.clear();
    let mut end: i64 = 0;
    for segment in &beside.unit.segments {
        end = end.saturating_add(segment.watts);
        put(points, end.max(low).min(high))?;
    }
    let needed = period.served_with(beside.market, &beside.unit.addition(0, 0));
    put(points, needed.max(low).min(high))?;
    let others = needed.saturating_sub(period.watts());
    put(points, others.max(low).min(high))?;
    put(points, wanted.max(low).min(high))?;
    let part = high.saturating_sub(low) / PARTS;
    let mut between = low;
    for _ in 1..PARTS {
        between = between.saturating_add(part);
        put(points, between)?;
    }
    put(points, high)?;
    points.sort()?;
    Ok(())
}

// From the last period back, the output at the bottom that is nearest to the centre so far, within the ramp to the next one.
fn read_back(unit: &Unit, bottoms: &[Bottom], row: &mut [Window]) {
    let mut least = i64::MIN;
    let mut most = i64::MAX;
    for t in (0..row.len().min(bottoms.len())).rev() {
        let power = row[t].power.max(bottoms[t].low).min(bottoms[t].high);
        row[t].power = power.max(least).min(most);
        least = row[t].power.saturating_sub(unit.rise);
        most = row[t].power.saturating_add(unit.fall);
    }
}
