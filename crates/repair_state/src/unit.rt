//! What repairs have to know of a thermal unit.

ghost use Rattle.std.specs.Prelude.{IfSome};
ghost use Rattle.uc_model.specs.Prelude.{IsLawfulInstance, IsLawfulThermal};

use crate::lists::put;
use crate::merit::{PART, Segment, cost_of, push_segments, rate_within};
use crate::patterns::Decided;
use crate::period::{Addition, mixed};
use crate::window::Window;
use std::alloc::Global;
use uc_model::limits::MAX_PERIODS;
use uc_model::{Instance, NoMemory, Point, StartRow, Thermal};

/// What the salts of units are made of: any odd number.
const SALT: u64 = 0x2545_F491_4F6C_DD1D;

/// A thermal unit. Outputs are watts above its minimum: those that its caps leave, `full` beside no start or stop; how far it may rise
/// and fall in an hour; and what it gave before the first period. `fix` keeps it on as long as it can't fall to where it may stop. Its
/// minimum times are `up` and `down`, and `left` is what is left of one before the first period. `bases` is what a start in each period
/// costs without a stop before it, and `warm` what it may cost after one. `salt` tells its marks from those of other units.
#[derive(Drop)]
pub struct Unit {
    pub minimum: i64,
    pub(crate) base: i64,
    pub(crate) segments: Vec<Segment>,
    pub(crate) width: i64,
    pub(crate) full: i64,
    pub(crate) start: i64,
    pub(crate) stop: i64,
    pub rise: i64,
    pub(crate) fall: i64,
    pub before: i64,
    pub was_on: bool,
    pub is_ramped: bool,
    pub(crate) salt: u64,
    pub fix: Decided,
    pub(crate) must_run: bool,
    pub(crate) up: usize,
    pub(crate) down: usize,
    pub(crate) left: usize,
    pub(crate) may_stop_first: bool,
    pub(crate) is_too_high: bool,
    pub(crate) bases: Vec<i64>,
    pub(crate) warm: Vec<Warm>,
}

/// A start less than `lag` periods after a stop costs so much.
#[derive(Clone, Copy)]
pub(crate) struct Warm {
    pub lag: usize,
    pub cost: i64,
}

/// The most output of a cell, and the most output and reserve together.
#[derive(Clone, Copy)]
pub struct Limits {
    pub most: i64,
    pub head: i64,
}

impl Limits {
    /// Whether two are the same.
    pub(crate) fn is(&self, other: &Limits) -> bool {
        self.most == other.most && self.head == other.head
    }
}

impl Unit {
    /// What repairs know of the unit of this number, without its curve, what hangs on that, and what starts cost.
    pub fn new(alloc: Global, unit: &Thermal, number: usize) -> Unit {
        Unit {
            minimum: unit.pmin,
            base: 0,
            segments: Vec::new(alloc),
            width: 0,
            full: unit.range(),
            start: unit.su.saturating_sub(unit.pmin),
            stop: unit.sd.saturating_sub(unit.pmin),
            rise: unit.ru,
            fall: unit.rd,
            before: unit.initial_output(),
            was_on: unit.on0,
            is_ramped: false,
            salt: mixed(SALT, number as u64),
            fix: Decided::nothing(),
            must_run: unit.must_run,
            up: unit.ut as usize,
            down: unit.dt as usize,
            left: time_left(unit) as usize,
            may_stop_first: unit.p0 <= unit.sd,
            is_too_high: unit.p0 > unit.pmax,
            bases: Vec::new(alloc),
            warm: Vec::new(alloc),
        }
    }

    /// Fills these in, by the corners of its curve, and by what a start in each period costs without a stop before it. The
    /// only error is `NoMemory`.
    pub fn fill(
        &mut self,
        unit: &Thermal,
        corners: &[Point],
        bases: &[i64],
    ) -> Result<(), NoMemory> {
        if !corners.is_empty() {
            self.base = corners[0].cost;
            let last = &corners[corners.len() - 1];
            self.width = last.mw.saturating_sub(corners[0].mw);
        }
        self.is_ramped = self.can_ramps_bind();
        self.fix = self.first_periods(bases.len());
        self.bases.extend_from_slice(bases)?;
        push_segments(&mut self.segments, corners).and(push_warm_starts(
            &mut self.warm,
            unit.startup.as_slice(),
        ))
    }

    /// What a cell leaves, by whether it is a start and whether a stop follows.
    pub(crate) fn limits(&self, starts: bool, stops: bool) -> Limits {
        let mut head = self.full;
        let mut most = self.width;
        if starts {
            head = head.min(self.start).min(self.rise);
        }
        if stops {
            head = head.min(self.stop);
            most = most.min(self.fall);
        }
        Limits {
            most: most.min(head).max(0),
            head: head.max(0),
        }
    }

    /// Whether a unit is on and gives less at the centre of a window than it can beside no start or stop.
    pub fn could_give_more(&self, window: &Window) -> bool {
        window.on && window.power < self.width.min(self.full)
    }

    /// The place of the first segment in the order of merit, and 0 where there is none.
    pub(crate) fn first_place(&self) -> usize {
        match self.segments.first() {
            Some(segment) => segment.place,
            None => 0,
        }
    }

    /// What an hour at an output above the minimum costs.
    pub(crate) fn cost_at(&self, power: i64) -> i64 {
        let mut cost = self.base;
        let mut left = power;
        for segment in &self.segments {
            if left <= 0 {
                break;
            }
            cost = cost.saturating_add(cost_of(segment.rate, segment.watts.min(left)));
            left = left.saturating_sub(segment.watts);
        }
        cost
    }

    /// What the unit adds to a period at an output above its minimum, and a head.
    pub(crate) fn addition(&self, power: i64, head: i64) -> Addition {
        Addition {
            floor: self.minimum.saturating_add(power),
            power,
            head,
        }
    }

    /// What a watt costs at the minimum.
    pub(crate) fn rate_at_minimum(&self) -> i64 {
        let cost = i128::from(self.base).saturating_mul(i128::from(PART));
        rate_within(&(cost / i128::from(self.minimum.max(1))))
    }

    /// What the dearest start and a run at full load for the minimum up time cost, each in size.
    pub(crate) fn cost_of_run(&self) -> i64 {
        let mut start: i64 = 0;
        for base in &self.bases {
            start = start.max(base.saturating_abs());
        }
        for warm in &self.warm {
            start = start.max(warm.cost.saturating_abs());
        }
        let hours = self.up.min(self.bases.len()) as i64;
        let hour = self.cost_at(self.width).saturating_abs();
        start.saturating_add(hour.saturating_mul(hours))
    }

    fn can_ramps_bind(&self) -> bool {
        let reach = self.full.min(self.width).max(self.before);
        self.before < 0 || self.rise < self.full || self.fall < reach
    }

    // That the unit is on until it has fallen so far that it may stop.
    fn first_periods(&self, periods: usize) -> Decided {
        let mut fix = Decided::nothing();
        let mut reach = self.before;
        let mut most = self.fall;
        for t in 0..periods.min(MAX_PERIODS as usize) as u32 {
            if reach <= most {
                break;
            }
            fix = fix.with_turn(t, true);
            reach = reach.saturating_sub(self.fall);
            most = self.fall.min(self.stop).max(0);
        }
        fix
    }
}

// How long a unit has to stay as it is initially.
fn time_left(unit: &Thermal) -> u32 {
    if unit.on0 {
        unit.up_time_left()
    } else {
        unit.down_time_left()
    }
}

// Adds what starts may cost after a stop, by how long ago it was.
fn push_warm_starts(warm: &mut Vec<Warm>, rows: &[StartRow]) -> Result<(), NoMemory> {
    for i in 1..rows.len() {
        if rows[i - 1].lag < rows[i].lag {
            let start = Warm {
                lag: rows[i].lag as usize,
                cost: rows[i - 1].cost,
            };
            put(warm, start)?;
        }
    }
    Ok(())
}

/// Thermal unit g of an instance, from 0.
pub fn unit_at(instance: &Instance, g: usize) -> Option<&Thermal>
    requires { IsLawfulInstance instance.now }
    ensures { IfSome result (λ unit. IsLawfulThermal unit.now) }
{
    let units = instance.thermal.as_slice();
    if g < units.len() {
        Some(&units[g])
    } else {
        None
    }
}
