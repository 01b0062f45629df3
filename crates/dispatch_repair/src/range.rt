//! Where a source's output may lie in a period.

ghost use Rattle.std.specs.Prelude.{◌≡◌, ℤ, suc, ◌<◌, ◌≤◌, pos, ◌+ℤ◌, ◌-ℤ◌, if◌then◌else◌};
ghost use Rattle.std.specs.Int.{int_max, int_min};
ghost use Rattle.uc_model.specs.Prelude.{cap as cap_of, start_cap as start_cap_of, starts as starts_at, stop_cap as stop_cap_of, IsLawfulThermal, IsLimit, commitment_of};
ghost use Rattle.dispatch_repair.specs.Period.{head as head_after, highest, is_off_next as is_off_after, lowest};
ghost use Rattle.dispatch_repair.specs.Amounts.{IsSizedEnd, IsSizedOutput};

use schedule_check::limits::width;
use start_costs::{stops, was_on};
use uc_model::limits::MAX_PERIODS;
use uc_model::{Pattern, Thermal};

/// The ends of a source's range, in watts, of a thermal unit above its minimum.
#[derive(Clone, Copy)]
pub struct Range {
    pub low: i64,
    pub high: i64,
}

/// The most that a thermal unit's output and reserve may be, in watts, and where its output may lie.
#[derive(Clone, Copy)]
pub struct Reach {
    pub head: i64,
    pub range: Range,
}

/// A thermal unit's head and range in period t, from 0, after the output `before`, in watts above its minimum.
pub fn unit_reach(
    periods: usize,
    unit: &Thermal,
    pattern: &Pattern,
    t: usize,
    before: &i64,
) -> Reach
    requires lawful { IsLawfulThermal unit.now }
    requires period { t < periods }
    requires few { periods ≤ MAX_PERIODS }
    requires before { IsSizedOutput before.now }
    ensures head { result.head ≡ head_after periods unit.now (commitment_of pattern.now) t before.now }
    ensures low { result.range.low ≡ lowest unit.now before.now }
    ensures high { result.range.high ≡ highest periods unit.now (commitment_of pattern.now) t before.now }
    ensures head_size { IsSizedEnd result.head }
    ensures low_size { IsSizedEnd result.range.low }
    ensures high_size { IsSizedEnd result.range.high }
{
    let head = head(periods, unit, pattern, t, *before);
    let range = Range {
        low: lowest_output(*before, unit.rd),
        high: highest_output(periods, unit, pattern, t, head),
    };
    Reach { head, range }
}

// The head, by the cap and by what output may rise.
fn head(periods: usize, unit: &Thermal, pattern: &Pattern, t: usize, before: i64) -> i64
    requires lawful { IsLawfulThermal unit.now }
    requires period { t < periods }
    requires few { periods ≤ MAX_PERIODS }
    requires before { IsSizedOutput before }
    ensures value { result ≡ head_after periods unit.now (commitment_of pattern.now) t before }
    ensures size { IsSizedEnd result }
{
    lower(cap(periods, unit, pattern, t), risen(before, unit.ru))
}

// The most that output may be, by the head.
fn highest_output(periods: usize, unit: &Thermal, pattern: &Pattern, t: usize, head: i64) -> i64
    requires lawful { IsLawfulThermal unit.now }
    requires period { t < periods }
    requires few { periods ≤ MAX_PERIODS }
    requires head { IsSizedEnd head }
    ensures value { (before : ℤ) → head ≡ head_after periods unit.now (commitment_of pattern.now) t before
        → result ≡ highest periods unit.now (commitment_of pattern.now) t before }
    ensures size { IsSizedEnd result }
{
    let most = lower(head, width(unit.points.as_slice()));
    falling(periods, unit, pattern, t, most)
}

// The most that output may be, by what it may rise.
fn risen(before: i64, rise: i64) -> i64
    requires before { IsSizedOutput before }
    requires rise { IsLimit rise }
    ensures value { result ≡ before +ℤ rise }
    ensures size { IsSizedEnd result }
{
    before + rise
}

// The least output, by what it may fall.
fn lowest_output(before: i64, fall: i64) -> i64
    requires before { IsSizedOutput before }
    requires fall { IsLimit fall }
    ensures value { result ≡ int_max (pos 0) (before -ℤ fall) }
    ensures size { IsSizedEnd result }
{
    (before - fall).max(0)
}

// The lower of two ends.
fn lower(first: i64, second: i64) -> i64
    requires first { IsSizedEnd first }
    requires second { IsSizedEnd second }
    ensures value { result ≡ int_min first second }
    ensures size { IsSizedEnd result }
{
    first.min(second)
}

// The most that output may be so that it can fall to nothing before a stop.
fn falling(periods: usize, unit: &Thermal, pattern: &Pattern, t: usize, most: i64) -> i64
    requires lawful { IsLawfulThermal unit.now }
    requires period { t < periods }
    requires few { periods ≤ MAX_PERIODS }
    requires most { IsSizedEnd most }
    ensures value { result ≡ (if is_off_after periods (commitment_of pattern.now) t then int_min most unit.now.rd else most) }
    ensures size { IsSizedEnd result }
{
    lowered(most, unit.rd, is_off_next(periods, pattern, t))
}

// Whether the unit is off in the period after t.
fn is_off_next(periods: usize, pattern: &Pattern, t: usize) -> bool
    requires period { t < periods }
    requires few { periods ≤ MAX_PERIODS }
    ensures { result ≡ is_off_after periods (commitment_of pattern.now) t }
{
    t + 1 < periods && !pattern.is_on(t as u32 + 1)
}

// An end with a limit, where it applies.
fn lowered(end: i64, limit: i64, applies: bool) -> i64
    requires end { IsSizedEnd end }
    requires limit { IsSizedEnd limit }
    ensures value { result ≡ (if applies then int_min end limit else end) }
    ensures size { IsSizedEnd result }
{
    if applies { lower(end, limit) } else { end }
}

// The cap of a cell: the least of the limits of a start, and of a stop in the next period.
fn cap(periods: usize, unit: &Thermal, pattern: &Pattern, t: usize) -> i64
    requires lawful { IsLawfulThermal unit.now }
    requires period { t < periods }
    requires few { periods ≤ MAX_PERIODS }
    ensures value { result ≡ cap_of periods unit.now (commitment_of pattern.now) t }
    ensures size { IsSizedEnd result }
{
    let start = start_cap(unit, pattern, t);
    if t + 1 < periods {
        lower(start, stop_cap(unit, pattern, t))
    } else {
        start
    }
}

// The limit of a start in period t, on what the unit may give at all.
fn start_cap(unit: &Thermal, pattern: &Pattern, t: usize) -> i64
    requires lawful { IsLawfulThermal unit.now }
    requires period { t < MAX_PERIODS }
    ensures value { result ≡ start_cap_of unit.now (commitment_of pattern.now) t }
    ensures size { IsSizedEnd result }
{
    unit.start_cap(pattern.is_on(t as u32), starts(unit, pattern, t))
}

// Whether the unit starts in period t.
fn starts(unit: &Thermal, pattern: &Pattern, t: usize) -> bool
    requires { t < MAX_PERIODS }
    ensures { result ≡ starts_at unit.now (commitment_of pattern.now) t }
{
    !was_on(unit, pattern, t) && pattern.is_on(t as u32)
}

// The limit of a stop in the period after t, on what the unit may give at all.
fn stop_cap(unit: &Thermal, pattern: &Pattern, t: usize) -> i64
    requires lawful { IsLawfulThermal unit.now }
    requires period { suc t < MAX_PERIODS }
    ensures value { result ≡ stop_cap_of unit.now (commitment_of pattern.now) t }
    ensures size { IsSizedEnd result }
{
    unit.stop_cap(pattern.is_on(t as u32), stops(unit, pattern, t + 1))
}
