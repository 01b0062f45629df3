//! A thermal unit's allowed patterns with the most and with the fewest on periods: each changes the unit's state once at most,
//! one as early as the unit may, the other never.

ghost use Rattle.std.specs.Prelude.{◌≡◌, ◌<◌, ◌≤◌, ◌≤ℤ◌, true, false, IfSome, MatchOption};
ghost use Rattle.uc_model.specs.Prelude.{IsLawfulThermal, commitment_of, IsMostOn, IsFewestOn, HasNoAllowedPattern, on_during};
ghost use Rattle.dispatch_repair.specs.MostOn.{IsOffFrom};

use uc_model::limits::MAX_PERIODS;
use uc_model::{Pattern, Thermal};

/// The unit's allowed pattern with the most on periods; `None` exactly where no pattern is allowed.
pub fn most_of(unit: &Thermal, periods: u32) -> Option<Pattern>
    requires lawful { IsLawfulThermal unit.now }
    requires some { 1 ≤ periods }
    requires few { periods ≤ MAX_PERIODS }
    ensures pattern { MatchOption result (HasNoAllowedPattern periods unit.now) (λ pattern. IsMostOn periods unit.now (commitment_of pattern)) }
    ensures off { IfSome result (IsOffFrom periods) }
{
    if unit.on0 {
        if unit.p0 <= unit.pmax {
            Some(pattern_on(0, periods))
        } else {
            None
        }
    } else {
        let start = first_start(unit, periods)?;
        Some(pattern_on(start, periods))
    }
}

/// The unit's allowed pattern with the fewest on periods; `None` exactly where no pattern is allowed.
pub fn fewest_of(unit: &Thermal, periods: u32) -> Option<Pattern>
    requires lawful { IsLawfulThermal unit.now }
    requires some { 1 ≤ periods }
    requires few { periods ≤ MAX_PERIODS }
    ensures pattern { MatchOption result (HasNoAllowedPattern periods unit.now) (λ pattern. IsFewestOn periods unit.now (commitment_of pattern)) }
    ensures off { IfSome result (IsOffFrom periods) }
{
    if unit.must_run {
        most_of(unit, periods)
    } else if !unit.on0 {
        Some(pattern_on(periods, periods))
    } else if unit.p0 <= unit.pmax {
        Some(pattern_on(0, first_stop(unit, periods)))
    } else {
        None
    }
}

// The first period in which a unit that is off may start and stay on to the end, or `periods` where it may in none; `None`
// exactly where no pattern is allowed.
fn first_start(unit: &Thermal, periods: u32) -> Option<u32>
    requires lawful { IsLawfulThermal unit.now }
    requires off { unit.now.on0 ≡ false }
    requires some { 1 ≤ periods }
    ensures most { MatchOption result (HasNoAllowedPattern periods unit.now) (λ start. IsMostOn periods unit.now (on_during start periods)) }
    ensures within { IfSome result (λ start. start ≤ periods) }
{
    let held = unit.down_time_left();
    if unit.su < unit.pmin {
        if unit.must_run { None } else { Some(periods) }
    } else if unit.must_run && held > 0 {
        None
    } else {
        Some(held.min(periods))
    }
}

// The first period in which a unit that is on, and need not run, may stop and stay off to the end, or `periods` where it
// may in none.
fn first_stop(unit: &Thermal, periods: u32) -> u32
    requires lawful { IsLawfulThermal unit.now }
    requires on { unit.now.on0 ≡ true }
    requires free { unit.now.must_run ≡ false }
    requires initial { unit.now.p0 ≤ℤ unit.now.pmax }
    requires some { 1 ≤ periods }
    ensures fewest { IsFewestOn periods unit.now (on_during 0 result) }
    ensures within { result ≤ periods }
{
    let held = unit.up_time_left();
    if held == 0 && unit.p0 <= unit.sd {
        0
    } else if unit.sd < unit.pmin {
        periods
    } else {
        held.max(1).min(periods)
    }
}

// The pattern that is on from the period `first` to the one before `end`.
fn pattern_on(first: u32, end: u32) -> Pattern
    requires order { first ≤ end }
    requires few { end ≤ MAX_PERIODS }
    ensures { commitment_of result ≡ on_during first end }
{
    // Invariant, before period t: the pattern is on from `first` to t - 1, and off in every other period.
    let mut pattern = Pattern::all_off();
    for t in first..end {
        pattern.switch_on(t);
    }
    pattern
}
