//! The instance: what a file in the pglib-uc format says, rounded to whole watts and micro-dollars.

use crate::list::{List, Name};

/// A point of a unit's production cost: `cost` micro-dollars for an hour at `mw` watts of total output.
#[derive(Clone, Copy, Debug)]
pub struct Point {
    pub mw: i64,
    pub cost: i64,
}

/// A start category: from `lag` hours after the stop on, a start costs `cost` micro-dollars.
#[derive(Clone, Copy)]
pub struct StartRow {
    pub lag: u32,
    pub cost: i64,
}

/// A thermal unit. Powers are watts, times hours; `p0` is total output at the initial time, the
/// minimum included. The rows of `startup` are its start categories, cheapest lag first as in the
/// file, and those of `points` its production cost, by rising output.
#[derive(Drop)]
pub struct Thermal {
    /// The unit's name in the file.
    pub name: Name,
    /// Whether the unit must run in every period.
    pub must_run: bool,
    /// The least output while on.
    pub pmin: i64,
    /// The greatest output.
    pub pmax: i64,
    /// The ramp-up limit in an hour.
    pub ru: i64,
    /// The ramp-down limit in an hour.
    pub rd: i64,
    /// The greatest output in the hour of a start.
    pub su: i64,
    /// The greatest output in the hour before a stop.
    pub sd: i64,
    /// The minimum up time, at least 1.
    pub ut: u32,
    /// The minimum down time, at least 1.
    pub dt: u32,
    /// Total output at the initial time.
    pub p0: i64,
    /// Whether the unit is on at the initial time.
    pub on0: bool,
    /// Hours on at the initial time.
    pub ut0: u32,
    /// Hours off at the initial time.
    pub dt0: u32,
    pub startup: List<StartRow>,
    pub points: List<Point>,
}

/// A renewable unit: its least and greatest output in each period, in watts.
#[derive(Drop)]
pub struct Renewable {
    pub name: Name,
    pub minimum: List<i64>,
    pub maximum: List<i64>,
}

/// A system over `periods` hours. `demand` and `reserves` are watts in each period. `a` and `b` are the prices at which
/// demand may stay unserved and reserve may be missing, in micro-dollars for a watt and an hour; 0 allows neither.
#[derive(Drop)]
pub struct Instance {
    pub periods: u32,
    pub demand: List<i64>,
    pub reserves: List<i64>,
    pub thermal: List<Thermal>,
    pub renewable: List<Renewable>,
    pub a: u32,
    pub b: u32,
}
