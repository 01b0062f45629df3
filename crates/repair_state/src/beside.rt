//! One unit beside all others.

use crate::cells::{Cells, cost_at};
use crate::merit::Market;
use crate::period::{Addition, NOTHING, Period};
use crate::unit::Unit;
use crate::window::Window;

/// A unit that was taken away from all others, with its cells beside them.
#[derive(Clone, Copy)]
pub struct Beside<'a> {
    pub market: &'a Market,
    pub periods: &'a [Period],
    pub cells: &'a [Cells],
    pub unit: &'a Unit,
    pub count: u32,
}

impl Beside<'_> {
    /// What the period costs with the unit on at this output and head, or off.
    pub(crate) fn cost_at(&self, period: &Period, on: bool, power: i64, head: i64) -> i64 {
        if on {
            cost_at(self.market, period, self.unit, power, head)
        } else {
            period.cost_with(self.market, &NOTHING)
        }
    }

    /// Whether the system costs less than so much with the unit at the centres of these windows, without its starts.
    pub fn is_below(&self, row: &[Window], most: i64) -> bool {
        let mut cost = self.least_cost(row);
        let mut before = self.unit.before;
        let count = self.periods.len().min(self.cells.len());
        for t in 0..count.min(row.len()) {
            if cost >= most {
                break;
            }
            let head = row[t].head.min(before.saturating_add(self.unit.rise));
            let more = self.cost_above(&self.periods[t], &self.cells[t], &row[t], head);
            cost = cost.saturating_add(more);
            before = row[t].power;
        }
        cost < most
    }

    // What a period costs at the centre of a window and this head above what it would cost with neither caps nor ramps.
    fn cost_above(&self, period: &Period, cell: &Cells, window: &Window, head: i64) -> i64 {
        if !window.on || (window.power == cell.power && head == self.unit.full) {
            return 0;
        }
        self.cost_at(period, true, window.power, head)
            .saturating_sub(cell.off)
            .saturating_sub(cell.plain)
    }

    // What the system would cost with the unit on in these windows and neither caps nor ramps.
    fn least_cost(&self, row: &[Window]) -> i64 {
        let mut cost: i64 = 0;
        for t in 0..self.cells.len().min(row.len()) {
            let more = if row[t].on { self.cells[t].plain } else { 0 };
            cost = cost.saturating_add(self.cells[t].off).saturating_add(more);
        }
        cost
    }

    /// Whether output or reserve is lacking in a period, or output is too much, with the unit at the centres of these windows.
    pub fn is_lacking(&self, row: &[Window]) -> bool {
        let mut before = self.unit.before;
        let mut is_lacking = false;
        for t in 0..self.periods.len().min(row.len()) {
            let head = row[t].head.min(before.saturating_add(self.unit.rise));
            let addition = self.addition(&row[t], head);
            is_lacking = is_lacking || self.periods[t].is_lacking_with(self.market, &addition);
            before = row[t].power;
        }
        is_lacking
    }

    // What the unit adds to a period at the centre of a window, with this head.
    fn addition(&self, window: &Window, head: i64) -> Addition {
        if window.on {
            self.unit.addition(window.power, head)
        } else {
            NOTHING
        }
    }
}
