//! Why a period can't be filled.

ghost use Rattle.std.specs.Prelude.{◌≡◌, ◌+◌, ◌<◌, ◌≤◌, ◌+ℤ◌, ◌-ℤ◌, ◌≤ℤ◌, ◌==◌, ◌&&◌, int_lt, ◌*◌, length, unsigned_abs, MatchOption};
ghost use Rattle.std.specs.Int.{int_max};
ghost use Rattle.uc_model.specs.Prelude.{IsPower, renewable_count, thermal_count};
ghost use Rattle.dispatch_repair.specs.Period.{Period, demand_of, high_of, low_of, need_of, total_output};
ghost use Rattle.dispatch_repair.specs.Shortage.{greatest_room as greatest_room_of, reserve_room as reserve_room_of};
ghost use Rattle.dispatch_repair.specs.Stuck.{HaveRanges, IsFirstObstacle, IsFree};
ghost use Rattle.dispatch_repair.specs.Amounts.{AreRangesOf};
ghost use Rattle.dispatch_repair.specs.Segments.{source_count};
ghost use Rattle.dispatch_repair.specs.Totals.{AreSizedTotals, AreTotalsOf, IsSizedTotal};

use crate::range::Range;
use uc_model::limits::{MAX_POWER, MAX_UNITS};
use uc_model::{Instance, Why};

/// The sums over a period's sources, in watts.
#[derive(Clone, Copy)]
pub struct Totals {
    /// The minimums of the units that are on.
    pub minimums: i64,
    /// The thermal units' low ends, high ends and heads.
    pub thermal_low: i64,
    pub thermal_high: i64,
    pub heads: i64,
    /// The renewable units' low and high ends.
    pub renewable_low: i64,
    pub renewable_high: i64,
}

/// The least output of all.
pub(crate) fn least(totals: &Totals) -> i64
    requires { AreSizedTotals totals.now }
    ensures size { unsigned_abs result ≤ MAX_UNITS * (9 * MAX_POWER) }
    ensures value { (period : Period) → AreTotalsOf period totals.now → result ≡ total_output period (low_of period) }
{
    totals.minimums + totals.thermal_low + totals.renewable_low
}

/// The most output of all, without regard to reserve.
pub(crate) fn most(totals: &Totals) -> i64
    requires { AreSizedTotals totals.now }
    ensures size { IsSizedTotal result }
    ensures value { (period : Period) → AreTotalsOf period totals.now → result ≡ total_output period (high_of period) }
{
    totals.minimums + totals.thermal_high + totals.renewable_high
}

/// The room for reserve where demand is this.
pub(crate) fn reserve_room(totals: &Totals, demand: i64) -> i64
    requires sizes { AreSizedTotals totals.now }
    requires demand { unsigned_abs demand ≤ MAX_UNITS * (12 * MAX_POWER) }
    ensures size { unsigned_abs result ≤ MAX_UNITS * (22 * MAX_POWER) }
    ensures value { (period : Period) → AreTotalsOf period totals.now → demand ≡ demand_of period → result ≡ reserve_room_of period }
{
    let given = greater(totals.thermal_low, rest(totals, demand));
    totals.heads - given
}

// What the thermal units have to give above their minimums where the renewable ones give the most.
fn rest(totals: &Totals, demand: i64) -> i64
    requires sizes { AreSizedTotals totals.now }
    requires demand { unsigned_abs demand ≤ MAX_UNITS * (12 * MAX_POWER) }
    ensures value { result ≡ demand -ℤ totals.now.minimums -ℤ totals.now.renewable_high }
    ensures size { unsigned_abs result ≤ MAX_UNITS * (18 * MAX_POWER) }
{
    demand - totals.minimums - totals.renewable_high
}

// The greater of two totals.
fn greater(first: i64, second: i64) -> i64
    requires first { unsigned_abs first ≤ MAX_UNITS * (18 * MAX_POWER) }
    requires second { unsigned_abs second ≤ MAX_UNITS * (18 * MAX_POWER) }
    ensures value { result ≡ int_max first second }
    ensures size { unsigned_abs result ≤ MAX_UNITS * (18 * MAX_POWER) }
{
    first.max(second)
}

// The most room for reserve: where a watt of demand has a price, that of the least output.
fn greatest_room(price: u32, totals: &Totals, demand: i64) -> i64
    requires sizes { AreSizedTotals totals.now }
    requires demand { IsPower demand }
    ensures size { unsigned_abs result ≤ MAX_UNITS * (22 * MAX_POWER) }
    ensures value { (period : Period) → price ≡ period.instance.a → AreTotalsOf period totals.now → demand ≡ demand_of period
        → result ≡ greatest_room_of period }
{
    if price > 0 {
        totals.heads - totals.thermal_low
    } else {
        reserve_room(totals, demand)
    }
}

/// The first thermal unit with an empty range.
pub(crate) fn empty_range(ranges: &[Range], renewables: usize) -> Option<Why>
    requires { renewables ≤ length ranges.now }
    ensures { (period : Period) → renewables ≡ renewable_count period.instance → length ranges.now ≡ source_count period.instance
        → AreRangesOf period ranges.now → MatchOption result (HaveRanges period (thermal_count period.instance)) (IsFirstObstacle period) }
{
    for unit in 0..ranges.len() - renewables {
        let range = &ranges[renewables + unit];
        if is_empty(range) {
            return Some(Why::Box {
                unit,
                low: range.low,
                high: range.high,
            });
        }
    }
    None
}

/// Whether there is no output inside a range.
pub fn is_empty(range: &Range) -> bool
    ensures { result ≡ int_lt range.now.high range.now.low }
{
    range.high < range.low
}

/// The first obstacle on the whole system in a period of this demand and need of reserve, in watts, where no range is empty.
pub(crate) fn imbalance(
    instance: &Instance,
    totals: &Totals,
    demand: &i64,
    need: &i64,
) -> Option<Why>
    requires sizes { AreSizedTotals totals.now }
    requires demand { IsPower demand.now }
    requires need { IsPower need.now }
    ensures { (period : Period) → period.instance ≡ instance.now → HaveRanges period (thermal_count period.instance)
        → AreTotalsOf period totals.now → demand.now ≡ demand_of period → need.now ≡ need_of period
        → MatchOption result (IsFree period) (IsFirstObstacle period) }
{
    let least = least(totals);
    if least > *demand {
        return Some(Why::Over {
            least,
            demand: *demand,
        });
    }
    let most = most(totals);
    let is_under = is_beyond(instance.a, *demand, most);
    if is_under {
        return Some(Why::Under {
            most,
            demand: *demand,
        });
    }
    let room = greatest_room(instance.a, totals, *demand);
    let is_short = is_beyond(instance.b, *need, room);
    if is_short {
        return Some(Why::Reserve { room, need: *need });
    }
    None
}

// Whether what is wanted is above what there may be, and a watt of it has no price.
fn is_beyond(price: u32, wanted: i64, most: i64) -> bool
    ensures { result ≡ (price == 0 && int_lt most wanted) }
{
    price == 0 && most < wanted
}
