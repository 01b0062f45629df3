//! How often an amount stands in a limit.
ghost use Rattle.std.specs.Prelude.{◌≡◌, ◌≤◌, ◌==◌, ◌&&◌, ◌≤ℤ◌, pos, suc, unsigned_abs};
ghost use Rattle.uc_model.specs.Prelude.{bit};
ghost use Rattle.dispatch_rules.specs.Prelude.{limit_of, parts, times_in};

use dispatch_rules::{Amount, LimitAt, LimitRule};

/// How often the amount stands in the limit.
pub(crate) fn times(limit: &LimitAt, amount: &Amount) -> i128
    ensures value { result ≡ times_in (limit_of limit.now) (parts amount.now) }
    ensures size { unsigned_abs result ≤ 1 }
{
    match amount {
        Amount::Length(g, t, k) => times_length(limit, *g, *t, *k),
        Amount::Held(g, t) => times_held(limit, *g, *t),
        Amount::Given(w, t) => times_given(limit, *w, *t),
        Amount::Shed(t) => times_shed(limit, *t),
        Amount::Short(t) => times_short(limit, *t),
    }
}

// How often the length of segment `k` of unit `g` in period `t` does.
fn times_length(limit: &LimitAt, g: u32, t: u32, k: u32) -> i128
    ensures value { result ≡ times_in (limit_of limit.now) (parts (Amount.Length g t k)) }
    ensures size { unsigned_abs result ≤ 1 }
{
    match limit.rule {
        LimitRule::Production => once(is_at(limit, g, t, k)),
        LimitRule::StartCap | LimitRule::StopCap => once(is_at(limit, g, t, 0)),
        LimitRule::RampUp => once(is_at(limit, g, t, 0)) - once(is_after(limit, g, t)),
        LimitRule::RampDown => once(is_after(limit, g, t)) - once(is_at(limit, g, t, 0)),
        LimitRule::Demand => once(is_at(limit, 0, t, 0)),
        _ => 0,
    }
}

// How often the reserve of unit `g` in period `t` does.
fn times_held(limit: &LimitAt, g: u32, t: u32) -> i128
    ensures value { result ≡ times_in (limit_of limit.now) (parts (Amount.Held g t)) }
    ensures size { unsigned_abs result ≤ 1 }
{
    match limit.rule {
        LimitRule::StartCap | LimitRule::StopCap | LimitRule::RampUp => once(is_at(limit, g, t, 0)),
        LimitRule::Reserve => -once(is_at(limit, 0, t, 0)),
        _ => 0,
    }
}

// How often what the renewable unit `w` gives in period `t` does.
fn times_given(limit: &LimitAt, w: u32, t: u32) -> i128
    ensures value { result ≡ times_in (limit_of limit.now) (parts (Amount.Given w t)) }
    ensures size { unsigned_abs result ≤ 1 }
{
    match limit.rule {
        LimitRule::RenewableRange => once(is_at(limit, w, t, 0)),
        LimitRule::Demand => once(is_at(limit, 0, t, 0)),
        _ => 0,
    }
}

// How often the demand that isn't served in period `t` does.
fn times_shed(limit: &LimitAt, t: u32) -> i128
    ensures value { result ≡ times_in (limit_of limit.now) (parts (Amount.Shed t)) }
    ensures size { unsigned_abs result ≤ 1 }
{
    match limit.rule {
        LimitRule::Demand | LimitRule::ShedRange => once(is_at(limit, 0, t, 0)),
        _ => 0,
    }
}

// How often the reserve that is missing in period `t` does.
fn times_short(limit: &LimitAt, t: u32) -> i128
    ensures value { result ≡ times_in (limit_of limit.now) (parts (Amount.Short t)) }
    ensures size { unsigned_abs result ≤ 1 }
{
    match limit.rule {
        LimitRule::Reserve => -once(is_at(limit, 0, t, 0)),
        LimitRule::ShortRange => once(is_at(limit, 0, t, 0)),
        _ => 0,
    }
}

// 1 where it holds, and else 0.
fn once(holds: bool) -> i128
    ensures value { result ≡ bit holds }
    ensures low { pos 0 ≤ℤ result }
    ensures high { result ≤ℤ pos 1 }
{
    if holds { 1 } else { 0 }
}

// Whether the limit is at this unit, period and segment.
fn is_at(limit: &LimitAt, unit: u32, period: u32, segment: u32) -> bool
    ensures { result ≡ ((limit.now.unit == unit) && ((limit.now.period == period) && (limit.now.segment == segment))) }
{
    limit.unit == unit && limit.period == period && limit.segment == segment
}

// Whether the limit is at this unit in the period after this one.
fn is_after(limit: &LimitAt, unit: u32, period: u32) -> bool
    ensures { result ≡ ((limit.now.unit == unit) && ((limit.now.period == suc period) && (limit.now.segment == 0))) }
{
    limit.unit == unit && is_next(limit.period, period) && limit.segment == 0
}

fn is_next(later: u32, period: u32) -> bool
    ensures { result ≡ (later == suc period) }
{
    later > 0 && later - 1 == period
}
