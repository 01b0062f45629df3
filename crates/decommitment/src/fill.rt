//! Periods of a commitment, filled in order of merit: from nothing, or from how a like commitment was filled.

ghost use Rattle.std.specs.Prelude.{◌≡◌, ℕ, ◌<◌, pos, ◌+ℤ◌, IfOk, IsTrue, MatchOption, length};
ghost use Rattle.uc_model.specs.Prelude.{renewable_count};
ghost use Rattle.dispatch_repair.specs.Amounts.{amount_at};
ghost use Rattle.dispatch_repair.specs.Prelude.{IsFirstObstacle, source_count, AreSizedTotals, IsSizedLeft, IsSizedSum};
ghost use Rattle.decommitment.specs.inside.Fills.{ComesTo, IsBaseOf, IsBegun, IsBegunTo, IsClear, IsCopy, IsHourOf, IsMet, IsReady, IsSizedAim, IsStarted, hour_period, no_given, no_part, no_totals};

use crate::entry::{Part, enter, renew_stretch};
use crate::level::{missing, set_amount, walk};
use crate::merit::Merit;
use crate::stretch::stretch_from;
use dispatch_repair::ranges::renewable_range;
use dispatch_repair::totals::with_range;
use dispatch_repair::{Left, Range, Reach, Shortage, Totals, start_from};
use std::alloc::Global;
use uc_model::{Instance, NoMemory, Pattern, Why};

/// A period as it was filled: each source's amount, in watts, by its place; the place in the order of merit up to which segments
/// are full, from 0; the sums of the amounts and of the ranges; what is missing; and whether a like commitment's period may be filled from
/// this one. It may not where the thermal units' limit binds: then the amounts stand at no one place.
#[derive(Drop)]
pub(crate) struct Fill {
    pub amounts: Vec<i64>,
    pub level: usize,
    pub given: Given,
    pub totals: Totals,
    pub shortage: Shortage,
    pub is_base: bool,
}

/// What the thermal units give in all above their minimums, and what the renewable ones, in watts.
#[derive(Clone, Copy)]
pub(crate) struct Given {
    pub thermal: i64,
    pub renewable: i64,
}

/// What became of a period: filled in order of merit; barred, for this reason first, by an empty range or, with all units entered, by
/// what they give in all; or not filled, as the thermal units' limit binds.
#[derive(Drop)]
pub(crate) enum Filling {
    Filled,
    Barred(Why),
    Uneven(Why),
    Bound,
}

/// What the periods of one instance are filled with.
#[derive(Clone, Copy)]
pub(crate) struct System<'a> {
    pub instance: &'a Instance,
    pub merit: &'a Merit,
}

/// Period `t`, from 0, of a commitment, a pattern for each thermal unit, after the amounts `before` of all sources, in watts.
#[derive(Clone, Copy)]
pub(crate) struct Hour<'a> {
    pub patterns: &'a [Pattern],
    pub t: usize,
    pub before: &'a [i64],
}

/// The same period of a commitment that differs in thermal unit `g` alone, from 0, which has the pattern `stood` there: what each
/// source gave before, in watts, and how it was filled.
#[derive(Clone, Copy)]
pub(crate) struct Base<'a> {
    pub before: &'a [i64],
    pub fill: &'a Fill,
    pub g: usize,
    pub stood: Pattern,
}

/// Memory for a period of so many sources. The only error is `NoMemory`.
pub(crate) fn no_fill(alloc: Global, sources: usize) -> Result<Fill, NoMemory>
    ensures { IfOk result (λ fill. length fill.amounts.items ≡ sources) }
{
    Ok(Fill {
        amounts: vec![in alloc; 0; sources]?,
        level: 0,
        given: no_given(),
        totals: no_totals(),
        shortage: Shortage { shed: 0, short: 0 },
        is_base: true,
    })
}

/// Fills a period from nothing.
pub(crate) fn fill_anew(system: &System, hour: &Hour, fill: &mut Fill) -> Filling
    requires hour { IsHourOf system.now hour.now }
    requires count { length fill.old.amounts.items ≡ source_count system.now.instance.now }
    ensures count { length fill.new.amounts.items ≡ source_count system.now.instance.now }
    ensures filling { ComesTo system.now hour.now fill.new result }
{
    begin(system, hour, fill);
    match enter_all(system, hour, fill) {
        Some(why) => Filling::Barred(why),
        None => settle(system, hour, fill),
    }
}

/// Fills a period from how it was filled in a commitment that differs in one unit alone.
pub(crate) fn fill_again(system: &System, hour: &Hour, base: &Base, fill: &mut Fill) -> Filling
    requires hour { IsHourOf system.now hour.now }
    requires base { IsBaseOf system.now hour.now base.now }
    requires count { length fill.old.amounts.items ≡ source_count system.now.instance.now }
    ensures count { length fill.new.amounts.items ≡ source_count system.now.instance.now }
    ensures filling { ComesTo system.now hour.now fill.new result }
{
    copy(base.fill, fill);
    match renew_all(system, hour, base, fill) {
        Some(why) => Filling::Barred(why),
        None => settle(system, hour, fill),
    }
}

// Sums over no source.
fn no_given() -> Given
    ensures { result ≡ no_given }
{
    Given {
        thermal: 0,
        renewable: 0,
    }
}

fn no_totals() -> Totals
    ensures { result ≡ no_totals }
{
    Totals {
        minimums: 0,
        thermal_low: 0,
        thermal_high: 0,
        heads: 0,
        renewable_low: 0,
        renewable_high: 0,
    }
}

// No part of them.
fn no_part() -> Part
    ensures { result ≡ no_part }
{
    Part {
        minimum: 0,
        reach: Reach {
            head: 0,
            range: Range { low: 0, high: 0 },
        },
    }
}

// Each renewable unit gives its least, and the thermal units nothing.
fn begin(system: &System, hour: &Hour, fill: &mut Fill)
    requires hour { IsHourOf system.now hour.now }
    requires count { length fill.old.amounts.items ≡ source_count system.now.instance.now }
    ensures { IsBegun (hour_period system.now hour.now) fill.new }
{
    clear(system.instance, fill);
    let sums = begin_free(system, hour, fill);
    fill.totals.renewable_low = sums.low;
    fill.totals.renewable_high = sums.high;
}

// No source gives anything.
fn clear(instance: &Instance, fill: &mut Fill)
    requires count { length fill.old.amounts.items ≡ source_count instance.now }
    ensures { IsClear instance.now fill.new }
{
    set_zero(&mut fill.amounts);
    fill.level = 0;
    fill.given = no_given();
    fill.totals = no_totals();
}

// Each amount is 0.
fn set_zero(amounts: &mut [i64])
    ensures length { length amounts.new ≡ length amounts.old }
    ensures zero { (n : ℕ) → n < length amounts.old → amount_at amounts.new n ≡ pos 0 }
{
    for n in 0..amounts.len() {
        amounts[n] = 0;
    }
}

// Each renewable unit gives its least; answers the sums over their ranges.
fn begin_free(system: &System, hour: &Hour, fill: &mut Fill) -> Range
    requires hour { IsHourOf system.now hour.now }
    requires clear { IsClear system.now.instance.now fill.old }
    ensures { IsBegunTo (hour_period system.now hour.now) (renewable_count system.now.instance.now) result fill.new }
{
    let mut sums = Range { low: 0, high: 0 };
    for w in 0..system.instance.renewable.as_slice().len() {
        let range = renewable_range(system.instance, hour.t, w);
        sums = with_range(&sums, &range);
        set_amount(system.instance, fill, w, range.low);
    }
    sums
}

// Each thermal unit gives its least; or the first empty range.
fn enter_all(system: &System, hour: &Hour, fill: &mut Fill) -> Option<Why>
    requires hour { IsHourOf system.now hour.now }
    requires begun { IsBegun (hour_period system.now hour.now) fill.old }
    ensures count { length fill.new.amounts.items ≡ length fill.old.amounts.items }
    ensures ready { MatchOption result (IsReady (hour_period system.now hour.now) system.now.merit.now.order.items fill.new)
        (IsFirstObstacle (hour_period system.now hour.now)) }
{
    let none = no_part();
    for g in 0..system.instance.thermal.as_slice().len() {
        if let Some(why) = enter(system, hour, fill, g, &none) {
            return Some(why);
        }
    }
    None
}

// As the base was filled.
fn copy(base: &Fill, fill: &mut Fill)
    requires { length fill.old.amounts.items ≡ length base.now.amounts.items }
    ensures { IsCopy base.now fill.new }
{
    fill.amounts.copy_from_slice(&base.amounts);
    fill.level = base.level;
    fill.given = base.given;
    fill.totals = base.totals;
}

// Enters each thermal unit that isn't alike in the base; or the first empty range.
fn renew_all(system: &System, hour: &Hour, base: &Base, fill: &mut Fill) -> Option<Why>
    requires hour { IsHourOf system.now hour.now }
    requires base { IsBaseOf system.now hour.now base.now }
    requires copy { IsCopy base.now.fill.now fill.old }
    ensures count { length fill.new.amounts.items ≡ length fill.old.amounts.items }
    ensures ready { MatchOption result (IsReady (hour_period system.now hour.now) system.now.merit.now.order.items fill.new)
        (IsFirstObstacle (hour_period system.now hour.now)) }
{
    let units = system.instance.thermal.as_slice().len();
    let mut done = 0;
    while done < units {
        let stretch = stretch_from(done, units);
        if let Some(why) = renew_stretch(system, hour, base, fill, stretch) {
            return Some(why);
        }
        done = stretch.to;
    }
    None
}

// Fills a period whose units have entered; or the first obstacle on the whole system.
fn settle(system: &System, hour: &Hour, fill: &mut Fill) -> Filling
    requires hour { IsHourOf system.now hour.now }
    requires ready { IsReady (hour_period system.now hour.now) system.now.merit.now.order.items fill.old }
    ensures count { length fill.new.amounts.items ≡ source_count system.now.instance.now }
    ensures filling { ComesTo system.now hour.now fill.new result }
{
    let demand = &system.instance.demand.as_slice()[hour.t];
    let need = &system.instance.reserves.as_slice()[hour.t];
    match start_from(system.instance, &fill.totals, demand, need) {
        Err(why) => Filling::Uneven(why),
        Ok(start) => {
            fill.shortage = start.shortage;
            meet(system, hour, fill, &start.left)
        }
    }
}

// Meets what is left to give above the low ends, where that keeps the thermal units within their limit.
fn meet(system: &System, hour: &Hour, fill: &mut Fill, left: &Left) -> Filling
    requires hour { IsHourOf system.now hour.now }
    requires ready { IsReady (hour_period system.now hour.now) system.now.merit.now.order.items fill.old }
    requires begun { IsStarted (hour_period system.now hour.now) fill.old.shortage left.now }
    ensures count { length fill.new.amounts.items ≡ source_count system.now.instance.now }
    ensures filling { ComesTo system.now hour.now fill.new result }
{
    let target = target_of(left, &fill.totals);
    walk(system, hour, fill, target.all);
    if is_met(&target, &fill.given) {
        Filling::Filled
    } else {
        Filling::Bound
    }
}

// What all sources are to give, and the most that the thermal units may, in watts.
#[derive(Clone, Copy)]
struct Target {
    all: i64,
    thermal: i64,
}

// What all are to give, by what is left of it above the low ends.
fn target_of(left: &Left, totals: &Totals) -> Target
    requires need { IsSizedLeft left.now.need }
    requires room { IsSizedLeft left.now.room }
    requires totals { AreSizedTotals totals.now }
    ensures all { result.all ≡ (left.now.need +ℤ totals.now.thermal_low) +ℤ totals.now.renewable_low }
    ensures thermal { result.thermal ≡ left.now.room +ℤ totals.now.thermal_low }
    ensures size { IsSizedAim result.all }
{
    Target {
        all: left.need + totals.thermal_low + totals.renewable_low,
        thermal: left.room + totals.thermal_low,
    }
}

// Whether all give what they are to, and the thermal units no more than they may.
fn is_met(target: &Target, given: &Given) -> bool
    requires all { IsSizedAim target.now.all }
    requires thermal { IsSizedSum given.now.thermal }
    requires renewable { IsSizedSum given.now.renewable }
    ensures { IsTrue result → IsMet target.now given.now }
{
    missing(target.all, given) == 0 && given.thermal <= target.thermal
}
