//! The sums over a period's sources.

ghost use Rattle.std.specs.Prelude.{◌≡◌, ℕ, ℤ, ◌<◌, ◌≤◌, ◌+ℤ◌, ◌*ℤ◌, length};
ghost use Rattle.uc_model.specs.Prelude.{IsLawfulInstance, IsLawfulThermal, bit, sum_below, thermal_count, thermal_unit};
ghost use Rattle.dispatch_repair.specs.Dispatch.{period_after};
ghost use Rattle.dispatch_repair.specs.Period.{commitment_at};
ghost use Rattle.dispatch_repair.specs.Amounts.{AreHeadsOf, AreRangesOf, AreSizedHeads, AreSizedRanges, IsSizedEnd, IsSizedRange, amount_at, range_at};
ghost use Rattle.dispatch_repair.specs.Segments.{source_count};
ghost use Rattle.dispatch_repair.specs.Totals.{AreSizedTotals, AreTotalsOf, IsSizedSum};

use crate::obstacle::Totals;
use crate::range::Range;
use uc_model::limits::MAX_UNITS;
use uc_model::{Instance, Pattern, Thermal};

/// The sums over the period's sources.
pub(crate) fn totals(
    instance: &Instance,
    patterns: &[Pattern],
    t: usize,
    ranges: &[Range],
    heads: &[i64],
) -> Totals
    requires lawful { IsLawfulInstance instance.now }
    requires patterns { length patterns.now ≡ thermal_count instance.now }
    requires period { t < instance.now.periods }
    requires ranges { length ranges.now ≡ source_count instance.now }
    requires heads { length heads.now ≡ thermal_count instance.now }
    requires range_sizes { AreSizedRanges ranges.now }
    requires head_sizes { AreSizedHeads heads.now }
    ensures sizes { AreSizedTotals result }
    ensures totals { (before : ℕ → ℤ) → AreRangesOf (period_after instance.now patterns.now t before) ranges.now
        → AreHeadsOf (period_after instance.now patterns.now t before) heads.now
        → AreTotalsOf (period_after instance.now patterns.now t before) result }
{
    let renewables = instance.renewable.as_slice().len();
    let renewable = sum_of_ranges(&ranges[..renewables]);
    let thermal = sum_of_ranges(&ranges[renewables..]);
    Totals {
        minimums: sum_of_minimums(instance, patterns, t),
        thermal_low: thermal.low,
        thermal_high: thermal.high,
        heads: sum_of_heads(heads),
        renewable_low: renewable.low,
        renewable_high: renewable.high,
    }
}

// The sums of the ranges' low ends and of their high ones.
fn sum_of_ranges(ranges: &[Range]) -> Range
    requires count { length ranges.now ≤ MAX_UNITS }
    requires sizes { AreSizedRanges ranges.now }
    ensures low { result.low ≡ sum_below (length ranges.now) (λ n. (range_at ranges.now n).low) }
    ensures high { result.high ≡ sum_below (length ranges.now) (λ n. (range_at ranges.now n).high) }
    ensures low_size { IsSizedSum result.low }
    ensures high_size { IsSizedSum result.high }
{
    let mut total = Range { low: 0, high: 0 };
    for n in 0..ranges.len() {
        total = with_range(&total, &ranges[n]);
    }
    total
}

/// The sums of ends of ranges, in watts, with those of a range more.
pub fn with_range(total: &Range, range: &Range) -> Range
    requires low { IsSizedSum total.now.low }
    requires high { IsSizedSum total.now.high }
    requires range { IsSizedRange range.now }
    ensures low { result.low ≡ total.now.low +ℤ range.now.low }
    ensures high { result.high ≡ total.now.high +ℤ range.now.high }
{
    Range {
        low: with_term(total.low, range.low),
        high: with_term(total.high, range.high),
    }
}

// A sum with a term more.
fn with_term(total: i64, term: i64) -> i64
    requires total { IsSizedSum total }
    requires term { IsSizedEnd term }
    ensures { result ≡ total +ℤ term }
{
    total + term
}

// The sum of the heads.
fn sum_of_heads(heads: &[i64]) -> i64
    requires count { length heads.now ≤ MAX_UNITS }
    requires sizes { AreSizedHeads heads.now }
    ensures value { result ≡ sum_below (length heads.now) (amount_at heads.now) }
    ensures size { IsSizedSum result }
{
    let mut total = 0;
    for g in 0..heads.len() {
        total = with_term(total, heads[g]);
    }
    total
}

// The sum of the minimums of the units that are on.
fn sum_of_minimums(instance: &Instance, patterns: &[Pattern], t: usize) -> i64
    requires lawful { IsLawfulInstance instance.now }
    requires patterns { length patterns.now ≡ thermal_count instance.now }
    requires period { t < instance.now.periods }
    ensures value { result ≡ sum_below (thermal_count instance.now) (λ g. (thermal_unit instance.now g).pmin *ℤ bit (commitment_at patterns.now g t)) }
    ensures size { IsSizedSum result }
{
    let mut total = 0;
    for g in 0..instance.thermal.as_slice().len() {
        total = with_term(total, unit_minimum(instance, patterns, t, g));
    }
    total
}

// The minimum of thermal unit g where it is on, and else 0.
fn unit_minimum(instance: &Instance, patterns: &[Pattern], t: usize, g: usize) -> i64
    requires lawful { IsLawfulInstance instance.now }
    requires patterns { length patterns.now ≡ thermal_count instance.now }
    requires period { t < instance.now.periods }
    requires unit { g < thermal_count instance.now }
    ensures value { result ≡ (thermal_unit instance.now g).pmin *ℤ bit (commitment_at patterns.now g t) }
    ensures size { IsSizedEnd result }
{
    let unit = &instance.thermal.as_slice()[g];
    minimum(unit, patterns[g].is_on(t as u32))
}

/// A unit's minimum where it is on, in watts, and else 0.
pub fn minimum(unit: &Thermal, on: bool) -> i64
    requires { IsLawfulThermal unit.now }
    ensures value { result ≡ unit.now.pmin *ℤ bit on }
    ensures size { IsSizedEnd result }
{
    if on { unit.pmin } else { 0 }
}
