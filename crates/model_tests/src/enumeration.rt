//! The least cost of a unit, and its patterns with the most and the fewest on periods, by going over all patterns.
//!
//! A pattern is the list of a unit's states: the one before the horizon, and then that of each period, from 1. Its number has
//! bit t for period t + 1.

ghost use Rattle.std.specs.Prelude.{◌≤◌, length};

use crate::cells::Cell;
use dual_model::Fix;
use uc_model::Thermal;

/// The greatest number of periods.
pub(crate) const PERIODS: usize = 8;

// Whether this is the state in period t.
fn is(states: &[bool], t: usize, on: bool) -> bool {
    states.get(t) == Some(&on)
}

// Whether the state is entered in period t.
fn enters(states: &[bool], t: usize, on: bool) -> bool {
    t > 0 && is(states, t - 1, !on) && is(states, t, on)
}

// M4 and M5: a state that is entered lasts a minimum time, or to the end.
fn lasts(states: &[bool], minimum: u32, on: bool) -> bool {
    let mut lasted = minimum;
    for t in 1..states.len() {
        if enters(states, t, !on) && lasted < minimum {
            return false;
        }
        lasted = if enters(states, t, on) {
            1
        } else {
            lasted.saturating_add(1)
        };
    }
    true
}

// M1 to M3: the unit is on throughout where it must run, and the initial state lasts its minimum time.
fn begins(unit: &Thermal, states: &[bool]) -> bool {
    let (minimum, lasted) = if unit.on0 {
        (unit.ut, unit.ut0)
    } else {
        (unit.dt, unit.dt0)
    };
    let left = minimum.saturating_sub(lasted) as usize;
    for t in 1..states.len() {
        if t <= left && !is(states, t, unit.on0) || unit.must_run && !is(states, t, true) {
            return false;
        }
    }
    true
}

// The greatest output above the minimum by M9 and M10.
fn cap(unit: &Thermal, start: bool, stop: bool) -> i64 {
    let mut most = unit.pmax;
    if start {
        most = most.min(unit.su);
    }
    if stop {
        most = most.min(unit.sd);
    }
    most.saturating_sub(unit.pmin)
}

// Whether the pattern obeys M1 to M5 and M7.
fn allows(unit: &Thermal, states: &[bool]) -> bool {
    let highest = cap(unit, false, enters(states, 1, false));
    let low = !unit.on0 || unit.p0.saturating_sub(unit.pmin) <= highest;
    low && begins(unit, states) && lasts(states, unit.ut, true) && lasts(states, unit.dt, false)
}

// The cheapest category of a start in period t that the last stop allows.
fn start_cost(unit: &Thermal, last_stop: Option<usize>, t: usize) -> i64 {
    let rows = unit.startup.as_slice();
    let mut least = rows.last().map_or(0, |row| row.cost);
    for (row, next) in rows.iter().zip(rows.iter().skip(1)) {
        let lag = next.lag as usize;
        let allowed = match last_stop {
            _ if t < lag => t < (lag + 1).saturating_sub(unit.dt0 as usize).max(1),
            Some(stop) => row.lag < next.lag && t.saturating_sub(stop) < lag,
            None => false,
        };
        if allowed {
            least = least.min(row.cost);
        }
    }
    least
}

// The least cost of an hour on at the prices of output, of reserve and of demand, without the start.
fn hour(unit: &Thermal, prices: &(i128, i128, i128), start: bool, stop: bool) -> Option<i128> {
    let cap = cap(unit, start, stop);
    if cap < 0 {
        return None;
    }
    let (a, b, demand) = *prices;
    let cell = Cell {
        k: 1,
        a,
        b,
        first: unit.pmin,
        cap,
    };
    let least_output = demand.saturating_mul(i128::from(unit.pmin));
    Some(
        cell.least(unit.points.as_slice())
            .saturating_sub(least_output),
    )
}

// The cost of the pattern, if it is allowed.
fn cost(unit: &Thermal, prices: &[(i128, i128, i128)], states: &[bool]) -> Option<i128> {
    if !allows(unit, states) {
        return None;
    }
    let mut total: i128 = 0;
    let mut last_stop = None;
    for (t, price) in (1..).zip(prices) {
        let start = enters(states, t, true);
        if enters(states, t, false) {
            last_stop = Some(t);
        }
        if start {
            total = total.saturating_add(i128::from(start_cost(unit, last_stop, t)));
        }
        if is(states, t, true) {
            total = total.saturating_add(hour(unit, price, start, enters(states, t + 1, false))?);
        }
    }
    Some(total)
}

/// The cost of the pattern of a number, if it is allowed.
pub(crate) fn cost_of(unit: &Thermal, prices: &[(i128, i128, i128)], number: u128) -> Option<i128>
    requires { length prices.now ≤ 8 }
{
    let mut states = [unit.on0; PERIODS + 1];
    let mut rest = number;
    for t in 1..=prices.len() {
        states[t] = rest % 2 == 1;
        rest /= 2;
    }
    cost(unit, prices, &states[..=prices.len()])
}

/// Whether the pattern of a number is as decided, and off past so many periods.
pub(crate) fn agrees(fix: &Fix, number: u128, periods: usize) -> bool
    requires { periods ≤ 8 }
{
    let end = 1_u128 << periods;
    number < end && (number ^ fix.on.low) & fix.known.low & (end - 1) == 0
}

/// The least cost of the patterns, and the numbers of those with the most and the fewest on periods.
pub(crate) type Found = Option<(i128, u128, u128)>;

/// What is found among the patterns that are as decided.
pub(crate) fn enumerated(unit: &Thermal, prices: &[(i128, i128, i128)], fix: &Fix) -> Found
    requires { length prices.now ≤ 8 }
{
    let mut found = None;
    for number in 0..1_u128 << prices.len() {
        if agrees(fix, number, prices.len()) {
            found = better(found, cost_of(unit, prices, number), number);
        }
    }
    found
}

// What is found, with one pattern more.
fn better(found: Found, cost: Option<i128>, number: u128) -> Found {
    match (found, cost) {
        (Some((least, most, fewest)), Some(cost)) => {
            let ones = number.count_ones();
            Some((
                least.min(cost),
                if ones > most.count_ones() {
                    number
                } else {
                    most
                },
                if ones < fewest.count_ones() {
                    number
                } else {
                    fewest
                },
            ))
        }
        (None, Some(cost)) => Some((cost, number, number)),
        (found, None) => found,
    }
}
