//! Windows: what a unit may give in each period, so that whatever it gives inside them keeps its ramps.

use crate::lists::at;
use crate::patterns::is_on;
use crate::period::Period;
use crate::unit::{Limits, Unit};
use uc_model::Pattern;

/// What a unit may give above its minimum in a period, round the output on which the window is centred, and with reserve up to the head.
#[derive(Clone, Copy)]
pub struct Window {
    pub on: bool,
    pub power: i64,
    pub low: i64,
    pub high: i64,
    pub head: i64,
}

/// That of a unit that is off.
pub(crate) const IDLE: Window = Window {
    on: false,
    power: 0,
    low: 0,
    high: 0,
    head: 0,
};

/// What the pattern leaves in period t, from 0.
pub fn limits_at(unit: &Unit, pattern: &Pattern, t: u32, periods: u32) -> Limits {
    let was_on = if t == 0 {
        unit.was_on
    } else {
        is_on(pattern, t.saturating_sub(1))
    };
    let next = t.saturating_add(1);
    let stops = next < periods && !is_on(pattern, next);
    unit.limits(!was_on, stops)
}

/// Opens the windows as far as the caps allow, whatever the ramps.
pub fn open(unit: &Unit, pattern: &Pattern, periods: u32, row: &mut [Window]) {
    let mut t: u32 = 0;
    for window in row.iter_mut() {
        *window = if is_on(pattern, t) {
            let limits = limits_at(unit, pattern, t, periods);
            Window {
                on: true,
                power: window.power.min(limits.most),
                low: 0,
                high: limits.most,
                head: limits.head,
            }
        } else {
            IDLE
        };
        t = t.saturating_add(1);
    }
}

/// Moves the centres of open windows until they keep the ramps.
pub fn keep_ramps(unit: &Unit, row: &mut [Window]) {
    let mut next: i64 = i64::MAX;
    for t in (0..row.len()).rev() {
        if row[t].on {
            row[t].power = row[t].power.min(next.saturating_add(unit.fall));
        }
        next = row[t].power;
    }
    let mut before = unit.before;
    for window in row.iter_mut() {
        if window.on {
            let least = before.saturating_sub(unit.fall);
            let most = before.saturating_add(unit.rise);
            window.power = window.power.max(least).min(most).max(0);
        }
        before = window.power;
    }
}

/// Narrows open windows round their centres, which keep the ramps, until whatever is inside keeps them.
pub fn narrow(unit: &Unit, periods: &[Period], row: &mut [Window]) {
    narrow_to(unit, periods, &[], row);
}

/// The same, where so much of the head in each period may go.
pub(crate) fn narrow_to(unit: &Unit, periods: &[Period], spares: &[i64], row: &mut [Window]) {
    let mut before = initial(unit);
    for t in 0..periods.len().min(row.len()) {
        if periods[t].is_tight && row[t].on {
            let head = row[t].head.saturating_sub(at(spares, t));
            let least = head.saturating_sub(unit.rise).min(before.power);
            before.low = before.low.max(least);
        }
        narrow_both(unit, &mut before, &mut row[t]);
        if t > 0 {
            row[t - 1] = before;
        }
        before = row[t];
    }
    lower_heads(unit, row);
}

// The state before the first period.
fn initial(unit: &Unit) -> Window {
    Window {
        on: unit.was_on,
        power: unit.before,
        low: unit.before,
        high: unit.before,
        head: unit.before,
    }
}

// Narrows the windows of a period and of the one before.
fn narrow_both(unit: &Unit, before: &mut Window, own: &mut Window) {
    let rise = own.power.saturating_sub(before.power);
    let up = own.high.saturating_sub(own.power);
    let down = before.power.saturating_sub(before.low);
    let both = unit.rise.saturating_sub(rise).max(0);
    own.high = own.power.saturating_add(first_share(up, down, both));
    before.low = before.power.saturating_sub(second_share(up, down, both));
    let down = own.power.saturating_sub(own.low);
    let up = before.high.saturating_sub(before.power);
    let both = unit.fall.saturating_add(rise).max(0);
    own.low = own.power.saturating_sub(first_share(down, up, both));
    before.high = before.power.saturating_add(second_share(down, up, both));
}

// What is left of the first of two rooms where both are cut so that they are within a sum, the larger one first.
fn first_share(first: i64, second: i64, sum: i64) -> i64 {
    let half = sum / 2;
    if first.saturating_add(second) <= sum || first <= half {
        first
    } else if second <= half {
        sum.saturating_sub(second)
    } else {
        half
    }
}

// What is left of the second.
fn second_share(first: i64, second: i64, sum: i64) -> i64 {
    let half = sum / 2;
    if first.saturating_add(second) <= sum || (first > half && second <= half) {
        second
    } else {
        sum.saturating_sub(first.min(half))
    }
}

// Keeps the heads within the ramps from the low ends.
fn lower_heads(unit: &Unit, row: &mut [Window]) {
    let mut low = unit.before;
    for window in row.iter_mut() {
        if window.on {
            window.head = window.head.min(low.saturating_add(unit.rise));
        }
        low = window.low;
    }
}
