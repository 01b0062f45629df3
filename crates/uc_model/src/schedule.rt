//! Printed schedules.

use crate::list::List;

/// A thermal unit's hour in a printed schedule: whether it is on, output above its minimum and
/// reserve, and the category of the start in this hour (from 1; 0 is no start).
#[derive(Clone, Copy, Debug)]
pub struct Cell {
    pub on: bool,
    pub p: i64,
    pub r: i64,
    pub category: u8,
}

/// A schedule: for each thermal unit a cell for each period, and for each renewable unit its output in each
/// period, in the order of the instance; then the demand that stays unserved in each period, and the reserve
/// that is missing. Powers are whole numerators over the denominator, in watts.
#[derive(Debug, Drop)]
pub struct Printed {
    pub thermal: List<List<Cell>>,
    pub renewable: List<List<i64>>,
    /// Demand that isn't served.
    pub shed: List<i64>,
    /// Reserve that is missing.
    pub short: List<i64>,
    /// From 1 to 99; 1 where the watts are whole.
    pub denominator: u8,
}
