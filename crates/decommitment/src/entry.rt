//! A thermal unit enters a period: its parts of the sums are added, and it gives what the level says.

ghost use Rattle.std.specs.Prelude.{◌≡◌, ℕ, ◌+◌, ◌*◌, ◌<◌, ◌≤◌, IsTrue, MatchOption, length, slice_index_or, slice_set, suc, unsigned_abs};
ghost use Rattle.uc_model.specs.Prelude.{IsLawfulInstance, commitment_of, renewable_count, thermal_count};
ghost use Rattle.dispatch_repair.specs.Prelude.{IsSizedOutput, thermal_amount, HaveRanges, IsFirstObstacle};
ghost use Rattle.decommitment.specs.inside.Fills.{AreEntered, AreGiven, AreWide, HasSizes, IsAlike, IsBaseOf, IsEntered, IsHourOf, base_parts, base_period, exchanged_totals as totals_with, hour_period, unit_part as part_of};

use crate::fill::{Base, Fill, Hour, System};
use crate::level::{exchanged, set_amount};
use crate::merit::open_at;
use crate::stretch::{Stretch, are_same, has_unit};
use dispatch_repair::obstacle::is_empty;
use dispatch_repair::totals::minimum;
use dispatch_repair::{Reach, Totals, unit_reach};
use uc_model::limits::{MAX_POWER, MAX_UNITS};
use uc_model::{Instance, Pattern, Why};

/// A thermal unit's parts of the sums over a period, in watts: its minimum where it is on, and its head and range.
#[derive(Clone, Copy)]
pub(crate) struct Part {
    pub minimum: i64,
    pub reach: Reach,
}

/// Puts thermal unit g, from 0, into the sums, where it had the part `old`, and sets what it gives at the level; or says that its
/// range is empty.
pub(crate) fn enter(
    system: &System,
    hour: &Hour,
    fill: &mut Fill,
    g: usize,
    old: &Part,
) -> Option<Why>
    requires hour { IsHourOf system.now hour.now }
    requires unit { g < thermal_count system.now.instance.now }
    requires old { HasSizes old.now }
    requires given { AreGiven system.now.instance.now fill.old.amounts.items fill.old.given }
    requires totals { AreWide (thermal_count system.now.instance.now) fill.old.totals }
    ensures count { length fill.new.amounts.items ≡ length fill.old.amounts.items }
    ensures entered { MatchOption result (IsEntered (hour_period system.now hour.now) system.now.merit.now.order.items g old.now fill.old fill.new)
        (λ why. HaveRanges (hour_period system.now hour.now) g → IsFirstObstacle (hour_period system.now hour.now) why) }
{
    let n = system.instance.renewable.as_slice().len() + g;
    let part = unit_part(
        system.instance,
        g,
        &hour.patterns[g],
        hour.t,
        hour.before[n],
    );
    let range = &part.reach.range;
    if is_empty(range) {
        return Some(Why::Box {
            unit: g,
            low: range.low,
            high: range.high,
        });
    }
    let rest = open_at(system.merit, n, fill.level, range);
    fill.totals = exchanged_totals(&fill.totals, old, &part);
    set_amount(system.instance, fill, n, rest.low);
    None
}

/// The same of each unit of a stretch in the place of how it was in a commitment that differs in one unit alone; nothing of those that are
/// alike in both.
pub(crate) fn renew_stretch(
    system: &System,
    hour: &Hour,
    base: &Base,
    fill: &mut Fill,
    stretch: Stretch,
) -> Option<Why>
    requires hour { IsHourOf system.now hour.now }
    requires base { IsBaseOf system.now hour.now base.now }
    requires order { stretch.from ≤ stretch.to }
    requires within { stretch.to ≤ thermal_count system.now.instance.now }
    requires entered { AreEntered (hour_period system.now hour.now) system.now.merit.now.order.items (base_parts system.now hour.now base.now)
        stretch.from base.now.fill.now fill.old }
    ensures count { length fill.new.amounts.items ≡ length fill.old.amounts.items }
    ensures entered { MatchOption result (AreEntered (hour_period system.now hour.now) system.now.merit.now.order.items
        (base_parts system.now hour.now base.now) stretch.to base.now.fill.now fill.new) (IsFirstObstacle (hour_period system.now hour.now)) }
{
    if are_alike(system.instance, hour, base, stretch) {
        return None;
    }
    for g in stretch.from..stretch.to {
        if let Some(why) = renew_unit(system, hour, base, fill, g) {
            return Some(why);
        }
    }
    None
}

// Whether none of a stretch's units is the one that differs, and each gave as much before.
fn are_alike(instance: &Instance, hour: &Hour, base: &Base, stretch: Stretch) -> bool
    requires hour { renewable_count instance.now + stretch.to ≤ length hour.now.before.now }
    requires base { renewable_count instance.now + stretch.to ≤ length base.now.before.now }
    ensures { IsTrue result → ((g : ℕ) → stretch.from ≤ g → g < stretch.to → IsAlike hour.now base.now g (renewable_count instance.now + g)) }
{
    if has_unit(stretch, base.g) {
        return false;
    }
    let renewables = instance.renewable.as_slice().len();
    are_same(hour.before, base.before, renewables, stretch)
}

// The same of one unit.
fn renew_unit(system: &System, hour: &Hour, base: &Base, fill: &mut Fill, g: usize) -> Option<Why>
    requires hour { IsHourOf system.now hour.now }
    requires base { IsBaseOf system.now hour.now base.now }
    requires unit { g < thermal_count system.now.instance.now }
    requires entered { AreEntered (hour_period system.now hour.now) system.now.merit.now.order.items (base_parts system.now hour.now base.now)
        g base.now.fill.now fill.old }
    ensures count { length fill.new.amounts.items ≡ length fill.old.amounts.items }
    ensures entered { MatchOption result (AreEntered (hour_period system.now hour.now) system.now.merit.now.order.items
        (base_parts system.now hour.now base.now) (suc g) base.now.fill.now fill.new) (IsFirstObstacle (hour_period system.now hour.now)) }
{
    let n = system.instance.renewable.as_slice().len() + g;
    if is_alike(hour, base, g, n) {
        return None;
    }
    let pattern = base_pattern(hour, base, g);
    let old = unit_part(system.instance, g, &pattern, hour.t, base.before[n]);
    enter(system, hour, fill, g, &old)
}

// Whether unit g, at place n of the sources, isn't the one that differs, and gave as much before.
fn is_alike(hour: &Hour, base: &Base, g: usize, n: usize) -> bool
    requires hour { n < length hour.now.before.now }
    requires base { n < length base.now.before.now }
    ensures { IsTrue result → IsAlike hour.now base.now g n }
{
    g != base.g && hour.before[n] == base.before[n]
}

// The pattern of unit g in the other commitment.
fn base_pattern(hour: &Hour, base: &Base, g: usize) -> Pattern
    requires unit { g < length hour.now.patterns.now }
    requires other { base.now.g < length hour.now.patterns.now }
    ensures { result ≡ slice_index_or (slice_set hour.now.patterns.now base.now.g base.now.stood) g (record { low = 0; high = 0 }) }
{
    if g == base.g {
        base.stood
    } else {
        hour.patterns[g]
    }
}

// The parts of thermal unit g, with this pattern, in period t after the output `before`.
fn unit_part(instance: &Instance, g: usize, pattern: &Pattern, t: usize, before: i64) -> Part
    requires lawful { IsLawfulInstance instance.now }
    requires unit { g < thermal_count instance.now }
    requires period { t < instance.now.periods }
    requires before { IsSizedOutput before }
    ensures is { result ≡ part_of instance.now g (commitment_of pattern.now) t before }
    ensures sizes { HasSizes result }
{
    let unit = &instance.thermal.as_slice()[g];
    let on = pattern.is_on(t as u32);
    Part {
        minimum: minimum(unit, on),
        reach: unit_reach(instance.periods as usize, unit, pattern, t, &before),
    }
}

// The sums with another part in the place of an old one.
fn exchanged_totals(totals: &Totals, old: &Part, new: &Part) -> Totals
    requires minimums { unsigned_abs totals.now.minimums ≤ MAX_UNITS * (9 * MAX_POWER) }
    requires thermal_low { unsigned_abs totals.now.thermal_low ≤ MAX_UNITS * (9 * MAX_POWER) }
    requires thermal_high { unsigned_abs totals.now.thermal_high ≤ MAX_UNITS * (9 * MAX_POWER) }
    requires heads { unsigned_abs totals.now.heads ≤ MAX_UNITS * (9 * MAX_POWER) }
    requires old { HasSizes old.now }
    requires new { HasSizes new.now }
    ensures { result ≡ totals_with totals.now old.now new.now }
{
    let was = &old.reach;
    let is = &new.reach;
    Totals {
        minimums: exchanged(totals.minimums, old.minimum, new.minimum),
        thermal_low: exchanged(totals.thermal_low, was.range.low, is.range.low),
        thermal_high: exchanged(totals.thermal_high, was.range.high, is.range.high),
        heads: exchanged(totals.heads, was.head, is.head),
        renewable_low: totals.renewable_low,
        renewable_high: totals.renewable_high,
    }
}
