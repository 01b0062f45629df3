//! What units give in a period for the reserve of the next alone, and how much of that the reserve can do without.

use crate::merit::Market;
use crate::period::Period;
use crate::unit::Unit;
use crate::window::Window;

/// Raises the centres of open windows so far that the ramps let tight periods have all heads.
pub(crate) fn raise(unit: &Unit, periods: &[Period], row: &mut [Window]) {
    let mut least: i64 = 0;
    for t in (0..periods.len().min(row.len())).rev() {
        let window = row[t];
        if window.on {
            row[t].power = window.power.max(least).min(window.high);
        }
        least = if window.on && periods[t].is_tight {
            window.head.saturating_sub(unit.rise)
        } else {
            0
        };
    }
}

/// How much of a unit's head in each period the reserve can do without, by its windows so far and as they are open: none where the unit
/// would give no less in the period before, in which it lies above the low end of its window.
pub(crate) fn set_spares(
    market: &Market,
    periods: &[Period],
    row: &[Window],
    opened: &[Window],
    spares: &mut [i64],
) {
    let count = periods.len().min(row.len()).min(opened.len());
    let mut is_low = false;
    for t in 0..count.min(spares.len()) {
        spares[t] = if is_low && periods[t].is_tight {
            let head = opened[t].head.saturating_sub(row[t].head);
            periods[t].spare(market).saturating_add(head).max(0)
        } else {
            0
        };
        is_low = row[t].on && opened[t].power <= row[t].low;
    }
}
