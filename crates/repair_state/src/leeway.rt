//! How far the output of a unit can move in a period, and what that costs.

use crate::unit::{Limits, Unit};
use crate::window::{Window, limits_at};
use uc_model::Pattern;

/// How much more or less a unit can give in a period. It costs one rate for so many watts `up`, and another for so many `down`. The ramp from
/// the period before leaves a `rise` and a `fall`. The unit's head in the next period falls once its output falls by more than `idle`, and
/// rises with it as far as `lent`.
#[derive(Clone, Copy)]
pub(crate) struct Leeway {
    pub up: i64,
    pub up_rate: i64,
    pub down: i64,
    pub down_rate: i64,
    pub rise: i64,
    pub fall: i64,
    pub idle: i64,
    pub lent: i64,
}

/// That of a period in which the unit is off, and of what lies behind the last one: it can give neither more nor less there, no ramp bounds
/// what it gives in the period before, and no head hangs on it.
pub(crate) const FREE: Leeway = Leeway {
    up: 0,
    up_rate: 0,
    down: 0,
    down_rate: 0,
    rise: i64::MAX,
    fall: i64::MAX,
    idle: i64::MAX,
    lent: 0,
};

impl Leeway {
    /// Whether a watt more costs less than this rate.
    pub(crate) fn rises_below(&self, rate: i64) -> bool {
        self.up > 0 && self.up_rate < rate
    }

    /// Whether a watt less saves more than this rate.
    pub(crate) fn falls_above(&self, rate: i64) -> bool {
        self.down > 0 && self.down_rate > rate
    }

    // Sets what the curve of the unit leaves at an output, and the most of the period.
    fn set_curve(&mut self, unit: &Unit, power: i64, most: i64) {
        let mut from: i64 = 0;
        for segment in &unit.segments {
            let to = from.saturating_add(segment.watts);
            if power > from {
                self.down = power.saturating_sub(from);
                self.down_rate = segment.rate;
            }
            if power < to {
                self.up = to.min(most).saturating_sub(power);
                self.up_rate = segment.rate;
                break;
            }
            from = to;
        }
    }
}

/// Fills in what a unit on its pattern can give beside the centres of its windows.
pub(crate) fn fill_leeways(
    unit: &Unit,
    pattern: &Pattern,
    periods: u32,
    row: &[Window],
    leeways: &mut [Leeway],
) {
    let mut before = unit.before;
    let mut t: u32 = 0;
    for i in 0..row.len().min(leeways.len()) {
        let power = row[i].power;
        let mut leeway = FREE;
        if row[i].on {
            leeway.set_curve(unit, power, limits_at(unit, pattern, t, periods).most);
            leeway.rise = before.saturating_add(unit.rise).saturating_sub(power);
            leeway.fall = power.saturating_add(unit.fall).saturating_sub(before);
        }
        t = t.saturating_add(1);
        if i + 1 < row.len() && row[i + 1].on {
            set_next(
                unit,
                power,
                &limits_at(unit, pattern, t, periods),
                &mut leeway,
            );
        }
        leeways[i] = leeway;
        before = power;
    }
}

// Sets how the head in the next period hangs on the output.
fn set_next(unit: &Unit, power: i64, next: &Limits, leeway: &mut Leeway) {
    let above = power.saturating_add(unit.rise).saturating_sub(next.head);
    leeway.idle = above.max(0);
    leeway.lent = above.saturating_neg().max(0);
}
