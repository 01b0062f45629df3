//! A thermal unit as evaluations take it.

ghost use Rattle.std.specs.Prelude.{IfSome};
ghost use Rattle.uc_model.specs.Prelude.{IsLawfulInstance, IsLawfulThermal};

use crate::amounts::{NEVER, SCALE, amount_of, times, word};
use crate::starts::Starts;
use cost_curves::Curve;
use std::alloc::Global;
use uc_model::{Instance, NoMemory, Point, Thermal, floor_div};

/// A corner of the production cost: output above the minimum in watts, its amount, and the least price of output at which a watt more
/// earns.
#[derive(Clone, Copy)]
pub(crate) struct Corner {
    pub power: i64,
    pub cost: i64,
    pub price: i64,
}

/// What output and reserve may be together, the greatest output above the minimum that this leaves, and the amount that it costs.
#[derive(Clone, Copy)]
pub(crate) struct Cap {
    pub most: i64,
    pub power: i64,
    pub cost: i64,
}

/// A thermal unit. Its caps are those of a cell by itself, `full`, of a start, of one that a stop follows, and of both. The first period
/// in which it may stop, or start, is that of its initial state.
#[derive(Drop)]
pub(crate) struct Unit {
    pub minimum: i64,
    pub corners: Vec<Corner>,
    pub full: Cap,
    pub start: Cap,
    pub stop: Cap,
    pub both: Cap,
    pub rise: i64,
    pub fall: i64,
    pub before: i64,
    pub is_ramped: bool,
    pub starts: Starts,
    pub up_time: usize,
    pub down_time: usize,
    pub first_stop: usize,
    pub first_start: usize,
    pub was_on: bool,
    pub may_stay: bool,
    pub may_stop_at_once: bool,
}

impl Unit {
    /// A unit of an instance of so many periods. The only error is `NoMemory`.
    pub(crate) fn of(alloc: Global, unit: &Thermal, periods: u32) -> Result<Unit, NoMemory>
        requires { IsLawfulThermal unit.now }
    {
        let curve = Curve::of(alloc, unit.points.as_slice())?;
        let full = unit.range();
        let start = full.min(unit.su.saturating_sub(unit.pmin));
        let stop = full.min(unit.sd.saturating_sub(unit.pmin));
        let points = curve.corners();
        Ok(Unit {
            minimum: unit.pmin,
            corners: corners_of(alloc, points)?,
            full: cap_of(points, full),
            start: cap_of(points, start),
            stop: cap_of(points, stop),
            both: cap_of(points, start.min(stop)),
            rise: unit.ru,
            fall: unit.rd,
            before: unit.initial_output(),
            is_ramped: can_bind(unit, &curve),
            starts: Starts::of(alloc, unit, periods)?,
            up_time: unit.ut.max(1) as usize,
            down_time: unit.dt.max(1) as usize,
            first_stop: unit.up_time_left() as usize,
            first_start: unit.down_time_left() as usize,
            was_on: unit.on0,
            may_stay: unit.p0 <= unit.pmax,
            may_stop_at_once: unit.p0 <= unit.pmax && unit.p0 <= unit.sd,
        })
    }

    /// Makes all outputs and starts cost nothing.
    pub(crate) fn forget_costs(&mut self) {
        for corner in self.corners.iter_mut() {
            corner.forget_cost();
        }
        self.full.forget_cost();
        self.start.forget_cost();
        self.stop.forget_cost();
        self.both.forget_cost();
        self.starts.forget_costs();
    }
}

impl Corner {
    // Makes it cost nothing, so that behind it, if it isn't the last one, a watt more earns at any price.
    fn forget_cost(&mut self) {
        self.cost = 0;
        if self.price != i64::MAX {
            self.price = 1;
        }
    }
}

impl Cap {
    // Makes it cost nothing, if it leaves anything.
    fn forget_cost(&mut self) {
        if self.most >= 0 {
            self.cost = 0;
        }
    }
}

// Whether a unit's ramps can bind.
fn can_bind(unit: &Thermal, curve: &Curve) -> bool {
    let range = unit.range();
    let reach = range.min(curve.width()).max(unit.initial_output());
    unit.ru < range || unit.rd < reach
}

// The corners from the corners of a hull.
fn corners_of(alloc: Global, points: &[Point]) -> Result<Vec<Corner>, NoMemory> {
    let mut corners = Vec::new(alloc);
    let least = match points.first() {
        Some(point) => point.mw,
        None => 0,
    };
    for (i, point) in points.iter().enumerate() {
        let price = match points.get(i.saturating_add(1)) {
            Some(next) => price_between(point, next),
            None => i64::MAX,
        };
        corners.push(Corner {
            power: point.mw.saturating_sub(least),
            cost: amount_of(&times(SCALE, point.cost)),
            price,
        })?;
    }
    Ok(corners)
}

// The least price, in parts of the scale, at which output between two points earns.
fn price_between(from: &Point, to: &Point) -> i64 {
    let rise = times(SCALE, to.cost.saturating_sub(from.cost));
    let run = to.mw.saturating_sub(from.mw).max(1);
    word(&floor_div(rise, i128::from(run)).saturating_add(1))
}

// The cap of so many watts.
fn cap_of(points: &[Point], most: i64) -> Cap {
    if most < 0 {
        return Cap {
            most,
            power: 0,
            cost: NEVER,
        };
    }
    let (power, cost) = end_within(points, most);
    Cap { most, power, cost }
}

// How far a hull goes within so many watts above its first point, and the amount that it costs there.
fn end_within(points: &[Point], most: i64) -> (i64, i64) {
    let mut power: i64 = 0;
    let mut cost = match points.first() {
        Some(point) => times(SCALE, point.cost),
        None => 0,
    };
    for i in 1..points.len() {
        let run = points[i].mw.saturating_sub(points[i - 1].mw);
        let part = run.min(most.saturating_sub(power)).max(0);
        let rise = points[i].cost.saturating_sub(points[i - 1].cost);
        cost = cost.saturating_add(rise_of(rise, run, part));
        power = power.saturating_add(part);
    }
    (power, amount_of(&cost))
}

// By how much the cost at the scale rises over a part of the run of a segment.
fn rise_of(rise: i64, run: i64, part: i64) -> i128 {
    let run = run.max(1);
    times(rise, part).saturating_mul(i128::from(SCALE)) / i128::from(run)
}

/// Thermal unit g of an instance, from 0.
pub(crate) fn unit_at(instance: &Instance, g: usize) -> Option<&Thermal>
    requires { IsLawfulInstance instance.now }
    ensures { IfSome result (λ unit. IsLawfulThermal unit.now) }
{
    let units = instance.thermal.as_slice();
    if g < units.len() {
        Some(&units[g])
    } else {
        None
    }
}
