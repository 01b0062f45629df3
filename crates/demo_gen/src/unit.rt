//! A thermal unit of drawn numbers.

ghost use Rattle.std.specs.Prelude.{◌≡◌, ◌+◌, ◌<◌, ◌*◌, ◌/◌, ◌∷◌, [], IfOk};
ghost use Rattle.demo_gen.specs.Demo.{millions, points_of, ramp_of, start_rows_of, unit_of};
ghost use Rattle.demo_gen.specs.inside.Bounds.{IsSmall};

use crate::millions::millions_of;
use crate::numbers::Numbers;
use std::alloc::Global;
use uc_model::{List, Name, NoMemory, Point, StartRow, Thermal};

/// How much longer than its minimum down time a unit is off before a start costs twice as much, in hours.
const COLD_AFTER: u32 = 6;

/// How much more a megawatt-hour of the minimum costs than one of the lower half, in dollars.
const MINIMUM_SURPLUS: u32 = 5;

/// The thermal unit with these numbers, the `g`-th from 0. The only error is `NoMemory`.
pub(crate) fn thermal(alloc: Global, g: u32, numbers: &Numbers) -> Result<Thermal, NoMemory>
    requires place { g < 40 }
    requires small { IsSmall numbers.now }
    ensures { IfOk result (λ unit. unit ≡ unit_of g numbers.now) }
{
    let number = g + 1;
    let name = format!(in alloc; "u{number}")?;
    let startup = start_rows(alloc, numbers)?;
    let points = points(alloc, numbers)?;
    let ramp = ramp(numbers);
    let hourly = millions_of(ramp);
    let limit = millions_of(numbers.minimum + ramp);
    Ok(Thermal {
        name: Name::from_string(name),
        must_run: false,
        pmin: millions_of(numbers.minimum),
        pmax: millions_of(numbers.minimum + numbers.range),
        ru: hourly,
        rd: hourly,
        su: limit,
        sd: limit,
        ut: numbers.time_up,
        dt: numbers.time_down,
        p0: millions_of(numbers.minimum + 3 * numbers.range / 10),
        on0: true,
        ut0: numbers.time_up,
        dt0: 0,
        startup: List::from_vec(startup),
        points: List::from_vec(points),
    })
}

// How far a unit ramps in an hour.
fn ramp(numbers: &Numbers) -> u32
    requires { IsSmall numbers.now }
    ensures { result ≡ ramp_of numbers.now }
{
    (numbers.range + 1) / 2
}

// A start after the minimum down time, and a cold one.
fn start_rows(alloc: Global, numbers: &Numbers) -> Result<Vec<StartRow>, NoMemory>
    requires { IsSmall numbers.now }
    ensures { IfOk result (λ rows. rows.items ≡ start_rows_of numbers.now) }
{
    let warm = StartRow {
        lag: numbers.time_down,
        cost: millions_of(numbers.start_cost),
    };
    let cold = StartRow {
        lag: numbers.time_down + COLD_AFTER,
        cost: millions_of(2 * numbers.start_cost),
    };
    Ok(vec![in alloc; warm, cold]?)
}

// The points at the minimum, in the middle of the range and at the maximum.
fn points(alloc: Global, numbers: &Numbers) -> Result<Vec<Point>, NoMemory>
    requires { IsSmall numbers.now }
    ensures { IfOk result (λ points. points.items ≡ points_of numbers.now) }
{
    let lower = numbers.range / 2;
    let upper = numbers.range - lower;
    let first_cost = product(numbers.minimum, numbers.low_cost + MINIMUM_SURPLUS);
    let second_cost = first_cost + product(numbers.low_cost, lower);
    let third_cost = second_cost + product(numbers.high_cost, upper);
    let first = point(numbers.minimum, first_cost);
    let second = point(numbers.minimum + lower, second_cost);
    let third = point(numbers.minimum + numbers.range, third_cost);
    Ok(vec![in alloc; first, second, third]?)
}

// A point of megawatts and dollars.
fn point(mw: u32, cost: u32) -> Point
    ensures { result ≡ record { mw = millions mw; cost = millions cost } }
{
    Point {
        mw: millions_of(mw),
        cost: millions_of(cost),
    }
}

// The product of two small numbers.
fn product(left: u32, right: u32) -> u32
    requires left { left < 1000 }
    requires right { right < 1000 }
    ensures value { result ≡ left * right }
    ensures size { result < 1000000 }
{
    left * right
}
