//! The cheapest start category that a pattern's history allows.

ghost use Rattle.std.specs.Prelude.{◌≡◌, ℕ, suc, ◌<◌, ◌≤◌, ◌≤ℤ◌, ◌<ℤ◌, IsTrue};
ghost use Rattle.uc_model.specs.Prelude.{is_allowed as is_pattern_allowed, starts, stops as stops_at, was_on as was_on_before, IsLawfulThermal, commitment_of, category_cost, category_count, has_stop_within as has_stop_in, is_category_allowed, last_stop, sigma};
ghost use Rattle.start_costs.specs.Cheapest.{HasLeastCategory, IsCheapestAbove};
ghost use Rattle.start_costs.specs.Regular.{AreStartsRegular};

use crate::barred::is_barred;
use uc_model::limits::MAX_PERIODS;
use uc_model::{Pattern, Thermal};

/// The cheapest start category, from 1, that the pattern's history allows in period `t` (from 0), and its cost
/// in micro-dollars; of several that cost the same, the first. At a start it costs no less than `sigma` of the
/// pattern's last stop, and just that where the start rows are regular and the pattern is allowed.
pub fn least_allowed(unit: &Thermal, pattern: &Pattern, t: usize) -> (u8, i64)
    requires lawful { IsLawfulThermal unit.now }
    requires period { t < MAX_PERIODS }
    ensures allowed { IsTrue (is_category_allowed unit.now (commitment_of pattern.now) result.0 t) }
    ensures cost { result.1 ≡ category_cost unit.now result.0 }
    ensures cheapest { (s : ℕ) → IsTrue (is_category_allowed unit.now (commitment_of pattern.now) s t)
        → result.1 ≤ℤ category_cost unit.now s }
    ensures first { (s : ℕ) → s < result.0 → IsTrue (is_category_allowed unit.now (commitment_of pattern.now) s t)
        → result.1 <ℤ category_cost unit.now s }
    ensures last_stop { IsTrue (starts unit.now (commitment_of pattern.now) t)
        → sigma unit.now (last_stop unit.now (commitment_of pattern.now) t) t ≤ℤ result.1 }
    ensures regular { (periods : ℕ) → AreStartsRegular unit.now → IsTrue (is_pattern_allowed periods unit.now (commitment_of pattern.now))
        → t < periods → IsTrue (starts unit.now (commitment_of pattern.now) t)
        → result.1 ≡ sigma unit.now (last_stop unit.now (commitment_of pattern.now) t) t }
{
    let last = unit.startup.as_slice().len() - 1;
    let mut least = category(unit, last);
    for s in (0..last).rev() {
        least = cheaper(unit, pattern, t, s, least);
    }
    least
}

/// The category of the start in period `t` (from 0), from 1: the cheapest one that the pattern's history allows, and of several that
/// cost the same the first; 0 is no start.
pub fn start_category(unit: &Thermal, pattern: &Pattern, t: usize) -> u8
    requires lawful { IsLawfulThermal unit.now }
    requires period { t < MAX_PERIODS }
    ensures { HasLeastCategory unit.now (commitment_of pattern.now) t result }
{
    if !was_on(unit, pattern, t) && pattern.is_on(t as u32) {
        least_allowed(unit, pattern, t).0
    } else {
        0
    }
}

// The cheapest category above s, from the cheapest one above s + 1.
fn cheaper(unit: &Thermal, pattern: &Pattern, t: usize, s: usize, least: (u8, i64)) -> (u8, i64)
    requires lawful { IsLawfulThermal unit.now }
    requires period { t < MAX_PERIODS }
    requires category { suc s < category_count unit.now }
    requires least { IsCheapestAbove unit.now (commitment_of pattern.now) t (suc s) least }
    ensures { IsCheapestAbove unit.now (commitment_of pattern.now) t s result }
{
    let own = category(unit, s);
    if is_allowed(unit, pattern, t, s) && own.1 <= least.1 {
        own
    } else {
        least
    }
}

// Category s + 1, with its cost.
fn category(unit: &Thermal, s: usize) -> (u8, i64)
    requires lawful { IsLawfulThermal unit.now }
    requires category { s < category_count unit.now }
    ensures number { result.0 ≡ suc s }
    ensures cost { result.1 ≡ category_cost unit.now (suc s) }
{
    ((s + 1) as u8, unit.startup.as_slice()[s].cost)
}

// Whether the history allows category s + 1, which isn't the last one, in period t.
fn is_allowed(unit: &Thermal, pattern: &Pattern, t: usize, s: usize) -> bool
    requires period { t < MAX_PERIODS }
    requires category { suc s < category_count unit.now }
    ensures { result ≡ is_category_allowed unit.now (commitment_of pattern.now) (suc s) t }
{
    let rows = unit.startup.as_slice();
    let next = rows[s + 1].lag as usize;
    if next <= t + 1 {
        has_stop_within(unit, pattern, rows[s].lag as usize, next, t)
    } else {
        !is_barred(unit.dt0 as usize, next, t)
    }
}

// Whether the pattern has a stop at least `from` periods before t, and less than `to`.
fn has_stop_within(unit: &Thermal, pattern: &Pattern, from: usize, to: usize, t: usize) -> bool
    requires period { t < MAX_PERIODS }
    requires reached { to ≤ suc t }
    ensures { result ≡ has_stop_in unit.now (commitment_of pattern.now) from to t }
{
    for i in from..to {
        if stops(unit, pattern, t - i) {
            return true;
        }
    }
    false
}

/// Whether the pattern has a stop in period t, from 0.
pub fn stops(unit: &Thermal, pattern: &Pattern, t: usize) -> bool
    requires { t < MAX_PERIODS }
    ensures { result ≡ stops_at unit.now (commitment_of pattern.now) t }
{
    was_on(unit, pattern, t) && !pattern.is_on(t as u32)
}

/// Whether the unit is on in the period before t, from 0, which is the initial one before the first.
pub fn was_on(unit: &Thermal, pattern: &Pattern, t: usize) -> bool
    requires { t < MAX_PERIODS }
    ensures { result ≡ was_on_before unit.now (commitment_of pattern.now) t }
{
    if t == 0 {
        unit.on0
    } else {
        pattern.is_on(t as u32 - 1)
    }
}
