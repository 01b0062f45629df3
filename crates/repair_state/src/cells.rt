//! What it costs the system that a unit is on in a period, beside all other units.

use crate::merit::Market;
use crate::period::{NOTHING, Period};
use crate::unit::{Limits, Unit};

/// What the system costs with a unit off in a period; by how much more with it on, for the four kinds of cell in the order of `Terms`;
/// and what the unit gives then where no cap is in the way.
#[derive(Clone, Copy)]
pub struct Cells {
    pub off: i64,
    pub plain: i64,
    pub start: i64,
    pub stop: i64,
    pub both: i64,
    pub power: i64,
}

/// No difference.
pub const SAME: Cells = Cells {
    off: 0,
    plain: 0,
    start: 0,
    stop: 0,
    both: 0,
    power: 0,
};

/// The cells of a unit as they were reckoned last, with the key of the period without it.
#[derive(Clone, Copy)]
pub struct Known {
    pub key: u64,
    pub cells: Cells,
}

pub(crate) const UNKNOWN: Known = Known {
    key: 0,
    cells: SAME,
};

/// For so many contents of a period a unit's cells may be known.
pub const WAYS: usize = 2;

/// The cells of a unit that was taken out of the period.
pub fn cells_of(market: &Market, period: &Period, unit: &Unit) -> Cells {
    let off = period.cost_with(market, &NOTHING);
    let plain = unit.limits(false, false);
    let power = merit_power(market, period, unit, plain.head);
    let above = |limits: &Limits| on_cost(market, period, unit, limits, power).saturating_sub(off);
    let on = above(&plain);
    let other = |limits: &Limits| {
        if limits.head == plain.head && power <= limits.most {
            on
        } else {
            above(limits)
        }
    };
    let (starting, stopping) = (unit.limits(true, false), unit.limits(false, true));
    let (start, stop) = (other(&starting), other(&stopping));
    let both = unit.limits(true, true);
    Cells {
        off,
        plain: on,
        start,
        stop,
        both: if both.is(&starting) {
            start
        } else if both.is(&stopping) {
            stop
        } else {
            other(&both)
        },
        power,
    }
}

// What the period costs with the unit on at so much output, or as much as the limits leave.
fn on_cost(market: &Market, period: &Period, unit: &Unit, limits: &Limits, power: i64) -> i64 {
    cost_at(market, period, unit, power.min(limits.most), limits.head)
}

/// What the period costs with the unit on at this output and head.
pub(crate) fn cost_at(market: &Market, period: &Period, unit: &Unit, power: i64, head: i64) -> i64 {
    unit.cost_at(power)
        .saturating_add(period.cost_with(market, &unit.addition(power, head)))
}

// What the unit gives above its minimum in the order of merit, with so high a head. Segments that come before what all of the unit leaves of
// the needed watts are taken whole, and none behind the last watt that is taken: only between these two are watts counted.
fn merit_power(market: &Market, period: &Period, unit: &Unit, head: i64) -> i64 {
    let least = unit.addition(0, head);
    let needed = period.served_with(market, &least);
    let room = period.room_with(&least).max(needed);
    let whole = period.place_of(needed.saturating_sub(unit.width));
    let last = period.place_of(if market.gainful > 0 { room } else { needed });
    let mut power: i64 = 0;
    for segment in &unit.segments {
        if segment.place > last || segment.place >= market.worthwhile {
            break;
        }
        if segment.place < whole {
            power = power.saturating_add(segment.watts);
        } else {
            let cheaper = period.watts_before(segment.place);
            let wanted = if segment.rate < 0 { room } else { needed };
            let left = wanted.saturating_sub(cheaper).saturating_sub(power);
            if left <= 0 {
                break;
            }
            power = power.saturating_add(segment.watts.min(left));
        }
    }
    power
}
