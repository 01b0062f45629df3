//! Filling the sources' ranges in order of merit.

ghost use Rattle.std.specs.Prelude.{◌≡◌, ℕ, ◌+◌, ◌*◌, ◌<◌, ◌≤◌, ◌⊎◌, pos, ◌+ℤ◌, ◌-ℤ◌, ◌≤ℤ◌, ◌<ℤ◌, nat_lt, length, unsigned_abs, if◌then◌else◌};
ghost use Rattle.std.specs.Int.{int_min};
ghost use Rattle.dispatch_repair.specs.Amounts.{IsSizedEnd, amount_at, range_at};
ghost use Rattle.dispatch_repair.specs.Filling.{MAX_UNITS, IsFilledTo, IsLeft, IsOpen, IsRaise, end_of as end_within};
ghost use Rattle.dispatch_repair.specs.Segments.{MAX_POWER, AreInMeritOrder, source_count};

use crate::range::Range;
use crate::segment::Segment;
use uc_model::Instance;

/// What is left to give, in watts: to meet demand, and by the thermal units within their limit.
#[derive(Clone, Copy)]
pub struct Left {
    pub need: i64,
    pub room: i64,
}

/// Raises the sources' amounts from the low ends of their ranges, segment by segment in the order of merit, until demand is
/// met or the ranges are full.
pub(crate) fn fill(
    instance: &Instance,
    order: &[Segment],
    ranges: &[Range],
    amounts: &mut [i64],
    left: &mut Left,
)
    requires order { AreInMeritOrder instance.now order.now }
    requires ranges { length ranges.now ≡ source_count instance.now }
    requires amounts { length amounts.old ≡ source_count instance.now }
    requires sources { (n : ℕ) → n < source_count instance.now → IsOpen instance.now n (range_at ranges.now n) }
    requires lows { (n : ℕ) → n < source_count instance.now → amount_at amounts.old n ≡ (range_at ranges.now n).low }
    requires left { IsLeft left.old }
    ensures { IsFilledTo instance.now order.now ranges.now left.old (length order.now) amounts.new left.new }
{
    let renewables = instance.renewable.as_slice().len();
    for segment in order {
        if left.need <= 0 {
            return;
        }
        raise(segment, ranges, renewables, amounts, left);
    }
}

// Raises the amount of a segment's source, up to the segment's end.
fn raise(
    segment: &Segment,
    ranges: &[Range],
    renewables: usize,
    amounts: &mut [i64],
    left: &mut Left,
)
    requires range { segment.now.source < length ranges.now }
    requires source { segment.now.source < length amounts.old }
    requires low { pos 0 ≤ℤ amount_at amounts.old segment.now.source }
    requires high { amount_at amounts.old segment.now.source ≤ℤ (range_at ranges.now segment.now.source).high }
    requires size { IsSizedEnd (range_at ranges.now segment.now.source).high }
    requires left { IsLeft left.old }
    ensures { IsRaise renewables ranges.now segment.now amounts.old amounts.new left.old left.new }
{
    let source = segment.source;
    let is_free = source < renewables;
    let end = end(segment, &ranges[source]);
    let more = rise(&amounts[source], &end, &spare(left, is_free));
    amounts[source] = raised(&amounts[source], &more);
    *left = rest(left, more, is_free);
}

/// Where a segment ends within its source's range, in watts.
pub fn end(segment: &Segment, range: &Range) -> i64
    ensures { result ≡ int_min segment.now.end range.now.high }
{
    segment.end.min(range.high)
}

// What a source may give of what is left.
fn spare(left: &Left, is_free: bool) -> i64
    requires { IsLeft left.now }
    ensures value { result ≡ (if is_free then left.now.need else int_min left.now.need left.now.room) }
    ensures low { pos 0 ≤ℤ result }
{
    if is_free {
        left.need
    } else {
        left.need.min(left.room)
    }
}

/// By how much an amount rises towards an end, within what may be given, all in watts.
pub fn rise(amount: &i64, end: &i64, spare: &i64) -> i64
    requires low { pos 0 ≤ℤ amount.now }
    requires amount { unsigned_abs amount.now ≤ 3 * MAX_POWER }
    requires end { end.now ≤ℤ pos (3 * MAX_POWER) }
    requires spare { pos 0 ≤ℤ spare.now }
    ensures up { pos 0 ≤ℤ result }
    ensures within { pos 0 <ℤ result → (amount.now +ℤ result) ≤ℤ end.now }
    ensures spare { result ≤ℤ spare.now }
    ensures done { (end.now ≤ℤ (amount.now +ℤ result)) ⊎ (result ≡ spare.now) }
    ensures size { unsigned_abs (amount.now +ℤ result) ≤ 3 * MAX_POWER }
{
    if *end <= *amount {
        0
    } else {
        (*end - *amount).min(*spare)
    }
}

/// An amount and what it rises by, in watts.
pub fn raised(amount: &i64, more: &i64) -> i64
    requires { unsigned_abs (amount.now +ℤ more.now) ≤ 3 * MAX_POWER }
    ensures { result ≡ amount.now +ℤ more.now }
{
    *amount + *more
}

// What is left after a source gave so much.
fn rest(left: &Left, more: i64, is_free: bool) -> Left
    requires left { IsLeft left.now }
    requires up { pos 0 ≤ℤ more }
    requires spare { more ≤ℤ (if is_free then left.now.need else int_min left.now.need left.now.room) }
    ensures need { result.need ≡ left.now.need -ℤ more }
    ensures room { result.room ≡ (if is_free then left.now.room else left.now.room -ℤ more) }
    ensures left { IsLeft result }
{
    if is_free {
        Left {
            need: left.need - more,
            room: left.room,
        }
    } else {
        Left {
            need: left.need - more,
            room: left.room - more,
        }
    }
}
