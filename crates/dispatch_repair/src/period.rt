//! The dispatch of one period, from the one before.

ghost use Rattle.std.specs.Prelude.{◌≡◌, ℕ, ℤ, ◌*◌, ◌<◌, ◌≤◌, pos, ◌-ℤ◌, unsigned_abs, length, MatchResult};
ghost use Rattle.std.specs.Int.{int_max};
ghost use Rattle.uc_model.specs.Prelude.{initial_p, IsLawfulInstance, IsPower, thermal_count, thermal_unit};
ghost use Rattle.dispatch_repair.specs.Dispatch.{period_after};
ghost use Rattle.dispatch_repair.specs.Period.{Period, demand_of, need_of};
ghost use Rattle.dispatch_repair.specs.Stuck.{HaveRanges, IsFirstObstacle};
ghost use Rattle.dispatch_repair.specs.Rooms.{IsRoomOf};
ghost use Rattle.dispatch_repair.specs.Amounts.{AreBeforePeriod, AreHeadsOf, AreRangesOf, AreSizedHeads, AreSizedRanges, amount_at, next_period, range_at, thermal_amount};
ghost use Rattle.dispatch_repair.specs.Filled.{AreShortages, IsDispatchedFrom, served_by};
ghost use Rattle.dispatch_repair.specs.Filling.{MAX_UNITS, IsFilledTo, IsFirstLeft, IsLeft, IsOpen, IsStart};
ghost use Rattle.dispatch_repair.specs.Segments.{MAX_POWER, AreInMeritOrder, source_count};
ghost use Rattle.dispatch_repair.specs.Totals.{AreSizedTotals, AreTotalsOf, IsSizedLeft, IsSizedMissing, IsSizedPart, IsSizedSum, IsSizedTotal};

use crate::fill::{Left, fill};
use crate::obstacle::{Totals, empty_range, imbalance, least};
use crate::range::Range;
use crate::ranges::set_ranges;
use crate::room::Room;
use crate::segment::Segment;
use crate::shortage::{Shortage, shortage_of};
use crate::totals::totals;
use uc_model::{Instance, Pattern, Why};

/// Makes the amounts those before the first period: what each thermal unit gives initially.
pub(crate) fn begin(room: &mut Room, instance: &Instance)
    requires lawful { IsLawfulInstance instance.now }
    requires room { IsRoomOf instance.now room.old }
    ensures room { IsRoomOf instance.now room.new }
    ensures initial { (g : ℕ) → g < thermal_count instance.now
        → thermal_amount instance.now room.new.amounts.items g ≡ initial_p (thermal_unit instance.now g) }
{
    set_initial(&mut room.amounts, instance);
}

/// Writes what each thermal unit gives initially, in watts above its minimum, behind the renewable units' amounts.
pub fn set_initial(amounts: &mut [i64], instance: &Instance)
    requires lawful { IsLawfulInstance instance.now }
    requires amounts { length amounts.old ≡ source_count instance.now }
    ensures length { length amounts.new ≡ length amounts.old }
    ensures initial { (g : ℕ) → g < thermal_count instance.now
        → thermal_amount instance.now amounts.new g ≡ initial_p (thermal_unit instance.now g) }
{
    let renewables = instance.renewable.as_slice().len();
    for g in 0..instance.thermal.as_slice().len() {
        amounts[renewables + g] = initial_of(instance, g);
    }
}

// What thermal unit g gives initially.
fn initial_of(instance: &Instance, g: usize) -> i64
    requires lawful { IsLawfulInstance instance.now }
    requires unit { g < thermal_count instance.now }
    ensures { result ≡ initial_p (thermal_unit instance.now g) }
{
    instance.thermal.as_slice()[g].initial_output()
}

/// Dispatches period t, from 0: the thermal units' amounts are those of the period before, and become those of this one,
/// as the renewable units' do. Answers what is missing, or why it can't be filled.
pub(crate) fn dispatch_period(
    room: &mut Room,
    instance: &Instance,
    patterns: &[Pattern],
    t: usize,
) -> Result<Shortage, Why>
    requires room { IsRoomOf instance.now room.old }
    requires before { AreBeforePeriod instance.now patterns.now t room.old.amounts.items }
    ensures room { IsRoomOf instance.now room.new }
    ensures dispatched { let period = next_period instance.now patterns.now t room.old.amounts.items in
        MatchResult result (λ shortage. IsDispatchedFrom period shortage room.new.amounts.items room.new.heads.items) (IsFirstObstacle period) }
{
    set_ranges(room, instance, patterns, t);
    match begin_period(room, instance, patterns, t) {
        Ok(start) => {
            fill_from_lows(
                instance,
                &room.order,
                &room.ranges,
                &mut room.amounts,
                &start.left,
            );
            Ok(start.shortage)
        }
        Err(why) => Err(why),
    }
}

/// Dispatches period t, from 0, after these amounts of all sources, in watts by their places, which become those of this
/// period. Answers what is missing, in watts; the error is the first reason why the period can't be filled.
pub fn dispatch_after(
    room: &mut Room,
    instance: &Instance,
    patterns: &[Pattern],
    t: usize,
    amounts: &mut [i64],
) -> Result<Shortage, Why>
    requires room { IsRoomOf instance.now room.old }
    requires before { AreBeforePeriod instance.now patterns.now t amounts.old }
    ensures room { IsRoomOf instance.now room.new }
    ensures count { length amounts.new ≡ length amounts.old }
    ensures dispatched { let period = next_period instance.now patterns.now t amounts.old in
        MatchResult result (λ shortage. IsDispatchedFrom period shortage amounts.new room.new.heads.items) (IsFirstObstacle period) }
{
    room.amounts.copy_from_slice(amounts);
    let shortage = dispatch_period(room, instance, patterns, t)?;
    amounts.copy_from_slice(&room.amounts);
    Ok(shortage)
}

/// What a period is filled from: what is missing, and what is left to give where each source gives its least.
#[derive(Clone, Copy)]
pub struct PeriodStart {
    pub shortage: Shortage,
    pub left: Left,
}

// What a period is filled from, or else the first obstacle.
fn begin_period(
    room: &Room,
    instance: &Instance,
    patterns: &[Pattern],
    t: usize,
) -> Result<PeriodStart, Why>
    requires room { IsRoomOf instance.now room.now }
    requires lawful { IsLawfulInstance instance.now }
    requires patterns { length patterns.now ≡ thermal_count instance.now }
    requires period { t < instance.now.periods }
    requires ranges { AreSizedRanges room.now.ranges.items }
    requires heads { AreSizedHeads room.now.heads.items }
    ensures { (before : ℕ → ℤ) → let period = period_after instance.now patterns.now t before in
        AreRangesOf period room.now.ranges.items → AreHeadsOf period room.now.heads.items
        → MatchResult result (IsStart period) (IsFirstObstacle period) }
{
    let renewables = instance.renewable.as_slice().len();
    if let Some(why) = empty_range(&room.ranges, renewables) {
        return Err(why);
    }
    let totals = totals(instance, patterns, t, &room.ranges, &room.heads);
    let demand = &instance.demand.as_slice()[t];
    let need = &instance.reserves.as_slice()[t];
    start_from(instance, &totals, demand, need)
}

/// What a period of this demand and need of reserve, in watts, is filled from, by the sums over its sources, where no range is empty;
/// the error is the first obstacle on the whole system.
pub fn start_from(
    instance: &Instance,
    totals: &Totals,
    demand: &i64,
    need: &i64,
) -> Result<PeriodStart, Why>
    requires lawful { IsLawfulInstance instance.now }
    requires sizes { AreSizedTotals totals.now }
    requires demand { IsPower demand.now }
    requires need { IsPower need.now }
    ensures { (period : Period) → period.instance ≡ instance.now → period.t < period.instance.periods
        → HaveRanges period (thermal_count period.instance) → AreTotalsOf period totals.now → demand.now ≡ demand_of period
        → need.now ≡ need_of period → MatchResult result (IsStart period) (IsFirstObstacle period) }
{
    match imbalance(instance, totals, demand, need) {
        Some(why) => Err(why),
        None => Ok(start_of(instance, totals, demand, need)),
    }
}

// What is missing of this demand and need of reserve, in watts, and what is left to give of the rest.
fn start_of(instance: &Instance, totals: &Totals, demand: &i64, need: &i64) -> PeriodStart
    requires sizes { AreSizedTotals totals.now }
    requires demand { IsPower demand.now }
    requires need { IsPower need.now }
    ensures shortages { (period : Period) → period.instance ≡ instance.now → AreTotalsOf period totals.now
        → demand.now ≡ demand_of period → need.now ≡ need_of period → AreShortages period result.shortage }
    ensures first { (period : Period) → AreTotalsOf period totals.now → demand.now ≡ demand_of period → need.now ≡ need_of period
        → IsFirstLeft (served_by period result.shortage) result.left }
    ensures need_size { IsSizedLeft result.left.need }
    ensures room_size { IsSizedLeft result.left.room }
{
    let shortage = shortage_of(instance, totals, *demand, *need);
    let left = left(
        totals,
        without(*demand, shortage.shed),
        without(*need, shortage.short),
    );
    PeriodStart { shortage, left }
}

// Fills the ranges from their low ends; answers what is left to give.
fn fill_from_lows(
    instance: &Instance,
    order: &[Segment],
    ranges: &[Range],
    amounts: &mut [i64],
    left: &Left,
) -> Left
    requires order { AreInMeritOrder instance.now order.now }
    requires ranges { length ranges.now ≡ source_count instance.now }
    requires amounts { length amounts.old ≡ source_count instance.now }
    requires sources { (n : ℕ) → n < source_count instance.now → IsOpen instance.now n (range_at ranges.now n) }
    requires left { IsLeft left.now }
    ensures length { length amounts.new ≡ length amounts.old }
    ensures filled { IsFilledTo instance.now order.now ranges.now left.now (length order.now) amounts.new result }
{
    let mut rest = *left;
    take_lows(amounts, ranges);
    fill(instance, order, ranges, amounts, &mut rest);
    rest
}

// A demand or a need, without what is missing of it.
fn without(whole: i64, missing: i64) -> i64
    requires whole { IsPower whole }
    requires missing { IsSizedMissing missing }
    ensures value { result ≡ whole -ℤ missing }
    ensures size { IsSizedPart result }
{
    whole - missing
}

// What is left to give where each source gives its least.
fn left(totals: &Totals, demand: i64, need: i64) -> Left
    requires sizes { AreSizedTotals totals.now }
    requires demand { IsSizedPart demand }
    requires need { IsSizedPart need }
    ensures first { (period : Period) → AreTotalsOf period totals.now → demand ≡ demand_of period → need ≡ need_of period
        → IsFirstLeft period result }
    ensures need_size { IsSizedLeft result.need }
    ensures room_size { IsSizedLeft result.room }
{
    Left {
        need: unmet(demand, least(totals)),
        room: room_above(totals, need),
    }
}

// What is left of demand.
fn unmet(demand: i64, least: i64) -> i64
    requires demand { IsSizedPart demand }
    requires least { IsSizedTotal least }
    ensures value { result ≡ demand -ℤ least }
    ensures size { IsSizedLeft result }
{
    demand - least
}

// What the thermal units may give beside the reserve that is needed, above their low ends.
fn room_above(totals: &Totals, need: i64) -> i64
    requires sizes { AreSizedTotals totals.now }
    requires need { IsSizedPart need }
    ensures value { result ≡ (totals.now.heads -ℤ int_max need (pos 0)) -ℤ totals.now.thermal_low }
    ensures size { IsSizedLeft result }
{
    above(limit(totals, need), totals.thermal_low)
}

// What the thermal units may give beside the reserve that is needed.
fn limit(totals: &Totals, need: i64) -> i64
    requires sizes { AreSizedTotals totals.now }
    requires need { IsSizedPart need }
    ensures value { result ≡ totals.now.heads -ℤ int_max need (pos 0) }
    ensures size { unsigned_abs result ≤ MAX_UNITS * (45 * MAX_POWER) }
{
    beside(totals.heads, positive(need))
}

// Reserve that is needed, which is at least none.
fn positive(need: i64) -> i64
    requires { IsSizedPart need }
    ensures value { result ≡ int_max need (pos 0) }
    ensures size { IsSizedPart result }
{
    need.max(0)
}

// A sum less a part.
fn beside(total: i64, part: i64) -> i64
    requires total { IsSizedSum total }
    requires part { IsSizedPart part }
    ensures value { result ≡ total -ℤ part }
    ensures size { unsigned_abs result ≤ MAX_UNITS * (45 * MAX_POWER) }
{
    total - part
}

// A total less a sum.
fn above(total: i64, part: i64) -> i64
    requires total { unsigned_abs total ≤ MAX_UNITS * (45 * MAX_POWER) }
    requires part { IsSizedSum part }
    ensures value { result ≡ total -ℤ part }
    ensures size { IsSizedLeft result }
{
    total - part
}

// Each source gives its least.
fn take_lows(amounts: &mut [i64], ranges: &[Range])
    requires { length amounts.old ≡ length ranges.now }
    ensures length { length amounts.new ≡ length amounts.old }
    ensures lows { (n : ℕ) → n < length ranges.now → amount_at amounts.new n ≡ (range_at ranges.now n).low }
{
    for source in 0..ranges.len() {
        amounts[source] = ranges[source].low;
    }
}
