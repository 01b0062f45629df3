//! The ranges of all sources in a period, and the heads of the thermal units.

ghost use Rattle.std.specs.Prelude.{◌≡◌, ℕ, ℤ, ◌+◌, ◌<◌, ◌≤◌, pos, length, List};
ghost use Rattle.std.specs.Int.{int_max};
ghost use Rattle.uc_model.specs.Prelude.{IsLawfulInstance, IsPower, renewable_count, renewable_maximum, renewable_minimum, thermal_count};
ghost use Rattle.uc_model.specs.declared.pattern.Pattern.{Pattern as PatternValue};
ghost use Rattle.dispatch_repair.specs.Dispatch.{period_after};
ghost use Rattle.dispatch_repair.specs.Rooms.{IsRoomOf};
ghost use Rattle.dispatch_repair.specs.Amounts.{AreBeforePeriod, AreHeadsOf, AreRangesOf, IsHeadOf, IsRangeOf, IsSizedEnd, next_period, range_at};
ghost use Rattle.dispatch_repair.specs.Segments.{source_count};

use crate::range::{Range, Reach, unit_reach};
use crate::room::Room;
use uc_model::{Instance, Pattern};

/// Sets the ranges of all sources and the heads of the thermal units, after the amounts of the period before.
pub(crate) fn set_ranges(room: &mut Room, instance: &Instance, patterns: &[Pattern], t: usize)
    requires room { IsRoomOf instance.now room.old }
    requires before { AreBeforePeriod instance.now patterns.now t room.old.amounts.items }
    ensures room { IsRoomOf instance.now room.new }
    ensures amounts { room.new.amounts ≡ room.old.amounts }
    ensures ranges { AreRangesOf (next_period instance.now patterns.now t room.old.amounts.items) room.new.ranges.items }
    ensures heads { AreHeadsOf (next_period instance.now patterns.now t room.old.amounts.items) room.new.heads.items }
{
    set_ends(
        &mut room.ranges,
        &mut room.heads,
        &room.amounts,
        instance,
        patterns,
        t,
    );
}

// The same of their numbers.
fn set_ends(
    ranges: &mut [Range],
    heads: &mut [i64],
    amounts: &[i64],
    instance: &Instance,
    patterns: &[Pattern],
    t: usize,
)
    requires before { AreBeforePeriod instance.now patterns.now t amounts.now }
    requires ranges { length ranges.old ≡ source_count instance.now }
    requires heads { length heads.old ≡ thermal_count instance.now }
    ensures range_count { length ranges.new ≡ length ranges.old }
    ensures head_count { length heads.new ≡ length heads.old }
    ensures ranges { AreRangesOf (next_period instance.now patterns.now t amounts.now) ranges.new }
    ensures heads { AreHeadsOf (next_period instance.now patterns.now t amounts.now) heads.new }
{
    set_renewable(ranges, instance, t);
    set_thermal(ranges, heads, amounts, instance, patterns, t);
}

// The ranges of the renewable units.
fn set_renewable(ranges: &mut [Range], instance: &Instance, t: usize)
    requires lawful { IsLawfulInstance instance.now }
    requires period { t < instance.now.periods }
    requires ranges { length ranges.old ≡ source_count instance.now }
    ensures length { length ranges.new ≡ length ranges.old }
    ensures ranges { (patterns : List PatternValue) (before : ℕ → ℤ) (w : ℕ) → w < renewable_count instance.now
        → IsRangeOf (period_after instance.now patterns t before) w (range_at ranges.new w) }
{
    for w in 0..instance.renewable.as_slice().len() {
        ranges[w] = renewable_range(instance, t, w);
    }
}

/// The range of renewable unit w in period t, both from 0.
pub fn renewable_range(instance: &Instance, t: usize, w: usize) -> Range
    requires lawful { IsLawfulInstance instance.now }
    requires period { t < instance.now.periods }
    requires unit { w < renewable_count instance.now }
    ensures low { result.low ≡ int_max (renewable_minimum instance.now w t) (pos 0) }
    ensures high { result.high ≡ renewable_maximum instance.now w t }
    ensures low_size { IsSizedEnd result.low }
    ensures high_size { IsSizedEnd result.high }
{
    let unit = &instance.renewable.as_slice()[w];
    free_range(unit.minimum.as_slice()[t], unit.maximum.as_slice()[t])
}

// The range between two limits, none of it below 0.
fn free_range(minimum: i64, maximum: i64) -> Range
    requires minimum { IsPower minimum }
    requires maximum { IsPower maximum }
    ensures low { result.low ≡ int_max minimum (pos 0) }
    ensures high { result.high ≡ maximum }
    ensures low_size { IsSizedEnd result.low }
    ensures high_size { IsSizedEnd result.high }
{
    Range {
        low: minimum.max(0),
        high: maximum,
    }
}

// The ranges and the heads of the thermal units.
fn set_thermal(
    ranges: &mut [Range],
    heads: &mut [i64],
    amounts: &[i64],
    instance: &Instance,
    patterns: &[Pattern],
    t: usize,
)
    requires before { AreBeforePeriod instance.now patterns.now t amounts.now }
    requires ranges { length ranges.old ≡ source_count instance.now }
    requires heads { length heads.old ≡ thermal_count instance.now }
    ensures range_count { length ranges.new ≡ length ranges.old }
    ensures head_count { length heads.new ≡ length heads.old }
    ensures others { (w : ℕ) → w < renewable_count instance.now → range_at ranges.new w ≡ range_at ranges.old w }
    ensures ranges { (g : ℕ) → g < thermal_count instance.now
        → IsRangeOf (next_period instance.now patterns.now t amounts.now) (renewable_count instance.now + g)
        (range_at ranges.new (renewable_count instance.now + g)) }
    ensures heads { AreHeadsOf (next_period instance.now patterns.now t amounts.now) heads.new }
{
    let renewables = instance.renewable.as_slice().len();
    for g in 0..instance.thermal.as_slice().len() {
        let reach = reach_of(amounts, instance, patterns, t, g);
        heads[g] = reach.head;
        ranges[renewables + g] = reach.range;
    }
}

/// The head and the range of thermal unit g in period t, both from 0, after these amounts of all sources.
pub fn reach_of(
    amounts: &[i64],
    instance: &Instance,
    patterns: &[Pattern],
    t: usize,
    g: usize,
) -> Reach
    requires before { AreBeforePeriod instance.now patterns.now t amounts.now }
    requires unit { g < thermal_count instance.now }
    ensures head { IsHeadOf (next_period instance.now patterns.now t amounts.now) g result.head }
    ensures range { IsRangeOf (next_period instance.now patterns.now t amounts.now) (renewable_count instance.now + g) result.range }
{
    let before = &amounts[instance.renewable.as_slice().len() + g];
    let unit = &instance.thermal.as_slice()[g];
    unit_reach(instance.periods as usize, unit, &patterns[g], t, before)
}
