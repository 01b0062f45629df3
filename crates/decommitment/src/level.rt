//! Steps along the order of merit: a source gives more or less, and the next one, until demand is met.

ghost use Rattle.std.specs.Prelude.{◌≡◌, ◌-◌, ◌*◌, ◌<◌, ◌≤◌, ◌⊎◌, pos, ◌+ℤ◌, ◌-ℤ◌, ◌≤ℤ◌, ◌<ℤ◌, int_lt, length, suc, slice_set, unsigned_abs, if◌then◌else◌};
ghost use Rattle.uc_model.specs.Prelude.{IsLawfulInstance, thermal_count};
ghost use Rattle.dispatch_repair.specs.Prelude.{AreBeforePeriod, IsRangeOf, IsSizedEnd, next_period, source_count, HaveRanges, IsSizedSum};
ghost use Rattle.dispatch_repair.specs.Amounts.{amount_at};
ghost use Rattle.decommitment.specs.inside.Fills.{AreGiven, IsHourOf, IsSizedAim, IsSizedAmount, IsStanding, IsWalked, hour_period};
ghost use Rattle.decommitment.specs.inside.Levels.{IsRisen, IsSunk};

use crate::fill::{Fill, Given, Hour, System};
use crate::merit::open_at;
use dispatch_repair::Range;
use dispatch_repair::fill::{end, raised, rise};
use dispatch_repair::ranges::{reach_of, renewable_range};
use uc_model::Instance;
use uc_model::limits::{MAX_POWER, MAX_UNITS};

/// Goes up or down from the level until all sources give so much, in watts, or there is no further segment.
pub(crate) fn walk(system: &System, hour: &Hour, fill: &mut Fill, all: i64)
    requires hour { IsHourOf system.now hour.now }
    requires ranges { HaveRanges (hour_period system.now hour.now) (thermal_count system.now.instance.now) }
    requires standing { IsStanding (hour_period system.now hour.now) system.now.merit.now.order.items fill.old }
    requires all { IsSizedAim all }
    ensures { IsWalked (hour_period system.now hour.now) system.now.merit.now.order.items fill.old fill.new }
{
    climb(system, hour, fill, all);
    descend(system, hour, fill, all);
}

// Goes up while something is missing.
fn climb(system: &System, hour: &Hour, fill: &mut Fill, all: i64)
    requires hour { IsHourOf system.now hour.now }
    requires ranges { HaveRanges (hour_period system.now hour.now) (thermal_count system.now.instance.now) }
    requires standing { IsStanding (hour_period system.now hour.now) system.now.merit.now.order.items fill.old }
    requires all { IsSizedAim all }
    ensures { IsWalked (hour_period system.now hour.now) system.now.merit.now.order.items fill.old fill.new }
{
    let count = system.merit.order.len();
    for _ in 0..count {
        let missing = missing(all, &fill.given);
        if !is_some(missing) || fill.level >= count {
            return;
        }
        step_up(system, hour, fill, missing);
    }
}

// Goes down while too much is given.
fn descend(system: &System, hour: &Hour, fill: &mut Fill, all: i64)
    requires hour { IsHourOf system.now hour.now }
    requires ranges { HaveRanges (hour_period system.now hour.now) (thermal_count system.now.instance.now) }
    requires standing { IsStanding (hour_period system.now hour.now) system.now.merit.now.order.items fill.old }
    requires all { IsSizedAim all }
    ensures { IsWalked (hour_period system.now hour.now) system.now.merit.now.order.items fill.old fill.new }
{
    for _ in 0..system.merit.order.len() {
        let excess = excess(all, &fill.given);
        if !is_some(excess) {
            return;
        }
        step_down(system, hour, fill, excess);
    }
}

/// What is missing of what all are to give.
pub(crate) fn missing(all: i64, given: &Given) -> i64
    requires all { IsSizedAim all }
    requires thermal { IsSizedSum given.now.thermal }
    requires renewable { IsSizedSum given.now.renewable }
    ensures { result ≡ (all -ℤ given.now.thermal) -ℤ given.now.renewable }
{
    all - given.thermal - given.renewable
}

// What is given beyond what all are to give.
fn excess(all: i64, given: &Given) -> i64
    requires all { IsSizedAim all }
    requires thermal { IsSizedSum given.now.thermal }
    requires renewable { IsSizedSum given.now.renewable }
    ensures { result ≡ (given.now.thermal +ℤ given.now.renewable) -ℤ all }
{
    given.thermal + given.renewable - all
}

// Whether an amount is above 0.
fn is_some(amount: i64) -> bool
    ensures { result ≡ int_lt (pos 0) amount }
{
    0 < amount
}

// The source of the segment at the level gives more: what is missing, up to the segment's end.
fn step_up(system: &System, hour: &Hour, fill: &mut Fill, missing: i64)
    requires hour { IsHourOf system.now hour.now }
    requires ranges { HaveRanges (hour_period system.now hour.now) (thermal_count system.now.instance.now) }
    requires standing { IsStanding (hour_period system.now hour.now) system.now.merit.now.order.items fill.old }
    requires level { fill.old.level < length system.now.merit.now.order.items }
    requires missing { pos 0 ≤ℤ missing }
    ensures { IsWalked (hour_period system.now hour.now) system.now.merit.now.order.items fill.old fill.new }
{
    let order = system.merit.order.as_slice();
    let segment = &order[fill.level];
    let source = segment.source;
    let range = source_range(system.instance, hour, source);
    let step = risen(amount_of(fill, source), end(segment, &range), missing);
    set_amount(system.instance, fill, source, step.amount);
    fill.level = level_up(fill.level, order.len(), step.goes_on);
}

// The source of the segment at the level gives less: what is given too much, down to where its segments before are full.
fn step_down(system: &System, hour: &Hour, fill: &mut Fill, excess: i64)
    requires hour { IsHourOf system.now hour.now }
    requires ranges { HaveRanges (hour_period system.now hour.now) (thermal_count system.now.instance.now) }
    requires standing { IsStanding (hour_period system.now hour.now) system.now.merit.now.order.items fill.old }
    requires segments { 0 < length system.now.merit.now.order.items }
    requires excess { pos 0 ≤ℤ excess }
    ensures { IsWalked (hour_period system.now hour.now) system.now.merit.now.order.items fill.old fill.new }
{
    let order = system.merit.order.as_slice();
    let level = fill.level.min(order.len() - 1);
    let source = order[level].source;
    let range = source_range(system.instance, hour, source);
    let part = open_at(system.merit, source, level, &range);
    let step = sunk(amount_of(fill, source), part.low, excess);
    set_amount(system.instance, fill, source, step.amount);
    fill.level = level_down(level, step.goes_on);
}

// A source's new amount, in watts, and whether the walk goes on to the next segment.
#[derive(Clone, Copy)]
struct Step {
    amount: i64,
    goes_on: bool,
}

// The amount of source n.
fn amount_of(fill: &Fill, n: usize) -> i64
    requires { n < length fill.now.amounts.items }
    ensures { result ≡ amount_at fill.now.amounts.items n }
{
    fill.amounts[n]
}

// An amount that rises by what is missing, up to an end.
fn risen(amount: i64, end: i64, missing: i64) -> Step
    requires low { pos 0 ≤ℤ amount }
    requires amount { unsigned_abs amount ≤ 3 * MAX_POWER }
    requires end { end ≤ℤ pos (3 * MAX_POWER) }
    requires missing { pos 0 ≤ℤ missing }
    ensures { IsRisen amount end result }
{
    let more = rise(&amount, &end, &missing);
    Step {
        amount: raised(&amount, &more),
        goes_on: is_less(more, missing),
    }
}

// An amount that falls by what is given too much, down to a least one.
fn sunk(amount: i64, least: i64, excess: i64) -> Step
    requires low { pos 0 ≤ℤ amount }
    requires amount { unsigned_abs amount ≤ 3 * MAX_POWER }
    requires least { pos 0 ≤ℤ least }
    requires excess { pos 0 ≤ℤ excess }
    ensures { IsSunk amount least result }
{
    let less = fall(amount, least, excess);
    Step {
        amount: lowered(amount, less),
        goes_on: is_less(less, excess),
    }
}

// By how much an amount falls towards a least one, within what is given too much.
fn fall(amount: i64, least: i64, excess: i64) -> i64
    requires low { pos 0 ≤ℤ least }
    requires amount { unsigned_abs amount ≤ 3 * MAX_POWER }
    requires excess { pos 0 ≤ℤ excess }
    ensures down { pos 0 ≤ℤ result }
    ensures within { pos 0 <ℤ result → least ≤ℤ (amount -ℤ result) }
    ensures spare { result ≤ℤ excess }
    ensures done { ((amount -ℤ result) ≤ℤ least) ⊎ (result ≡ excess) }
    ensures size { unsigned_abs (amount -ℤ result) ≤ 3 * MAX_POWER }
{
    if amount <= least {
        0
    } else {
        (amount - least).min(excess)
    }
}

// An amount less what it falls by.
fn lowered(amount: i64, less: i64) -> i64
    requires { unsigned_abs (amount -ℤ less) ≤ 3 * MAX_POWER }
    ensures { result ≡ amount -ℤ less }
{
    amount - less
}

// Whether one number is less than another.
fn is_less(first: i64, second: i64) -> bool
    ensures { result ≡ int_lt first second }
{
    first < second
}

// The level after a step up.
fn level_up(level: usize, count: usize, goes_on: bool) -> usize
    requires { level < count }
    ensures { result ≡ (if goes_on then suc level else level) }
{
    if goes_on { level + 1 } else { level }
}

// The level after a step down.
fn level_down(level: usize, goes_on: bool) -> usize
    ensures { result ≡ (if goes_on then level - 1 else level) }
{
    if goes_on {
        level.saturating_sub(1)
    } else {
        level
    }
}

// The range of source n.
fn source_range(instance: &Instance, hour: &Hour, n: usize) -> Range
    requires before { AreBeforePeriod instance.now hour.now.patterns.now hour.now.t hour.now.before.now }
    requires source { n < source_count instance.now }
    ensures { IsRangeOf (next_period instance.now hour.now.patterns.now hour.now.t hour.now.before.now) n result }
{
    let renewables = instance.renewable.as_slice().len();
    if n < renewables {
        renewable_range(instance, hour.t, n)
    } else {
        let reach = reach_of(hour.before, instance, hour.patterns, hour.t, n - renewables);
        reach.range
    }
}

/// Sets the amount of source n, in watts, and with it the sums over all.
pub(crate) fn set_amount(instance: &Instance, fill: &mut Fill, n: usize, amount: i64)
    requires lawful { IsLawfulInstance instance.now }
    requires source { n < source_count instance.now }
    requires given { AreGiven instance.now fill.old.amounts.items fill.old.given }
    requires amount { IsSizedAmount amount }
    ensures amounts { fill.new.amounts.items ≡ slice_set fill.old.amounts.items n amount }
    ensures given { AreGiven instance.now fill.new.amounts.items fill.new.given }
    ensures level { fill.new.level ≡ fill.old.level }
    ensures totals { fill.new.totals ≡ fill.old.totals }
    ensures shortage { fill.new.shortage ≡ fill.old.shortage }
{
    let is_free = n < instance.renewable.as_slice().len();
    let old = amount_of(fill, n);
    fill.given = given_with(&fill.given, old, amount, is_free);
    fill.amounts[n] = amount;
}

// The sums with another amount in the place of an old one.
fn given_with(given: &Given, old: i64, new: i64, is_free: bool) -> Given
    requires thermal { IsSizedSum given.now.thermal }
    requires renewable { IsSizedSum given.now.renewable }
    requires old { IsSizedEnd old }
    requires new { IsSizedEnd new }
    ensures thermal { result.thermal ≡ (if is_free then given.now.thermal else given.now.thermal +ℤ (new -ℤ old)) }
    ensures renewable { result.renewable ≡ (if is_free then given.now.renewable +ℤ (new -ℤ old) else given.now.renewable) }
{
    if is_free {
        Given {
            thermal: given.thermal,
            renewable: exchanged(given.renewable, old, new),
        }
    } else {
        Given {
            thermal: exchanged(given.thermal, old, new),
            renewable: given.renewable,
        }
    }
}

/// A sum with another term in the place of an old one.
pub(crate) fn exchanged(total: i64, old: i64, new: i64) -> i64
    requires total { unsigned_abs total ≤ MAX_UNITS * (9 * MAX_POWER) }
    requires old { IsSizedEnd old }
    requires new { IsSizedEnd new }
    ensures { result ≡ total +ℤ (new -ℤ old) }
{
    total + (new - old)
}
