//! What the numbers of a thermal unit say of its output, of the caps of its hours, and of when it may be switched.

ghost use Rattle.std.specs.Prelude.{◌≡◌, ℕ, suc, ◌+◌, ◌*◌, ◌-◌, ◌<◌, ◌≤◌, ◌-ℤ◌, ◌*ℤ◌, ◌==◌, ◌&&◌, not, nat_le, nat_lt, unsigned_abs};
ghost use Rattle.uc_model.specs.Commitment.{cell_cap as cap_of, initial_p, start_reduction as start_reduction_of, stop_reduction as stop_reduction_of};
ghost use Rattle.uc_model.specs.Limits.{IsLawfulThermal, IsLimit, IsPower};
ghost use Rattle.uc_model.specs.Sums.{bit};
ghost use Rattle.uc_model.specs.Switches.{has_lasted, may_switch as may_switch_in};

use crate::instance::Thermal;
use crate::limits::{MAX_PERIODS, MAX_POWER, MAX_TIME};

// Each number is as said for a lawful unit; past the limits a difference saturates.
impl Thermal {
    /// The width of the unit's range: the greatest output less the least, in watts.
    pub fn range(&self) -> i64
        ensures value { IsLawfulThermal self.now → result ≡ self.now.pmax -ℤ self.now.pmin }
        ensures limit { IsLawfulThermal self.now → IsLimit result }
    {
        difference(self.pmax, self.pmin)
    }

    /// Output above the minimum before the first period, in watts: 0 where the unit is off.
    pub fn initial_output(&self) -> i64
        ensures value { IsLawfulThermal self.now → result ≡ initial_p self.now }
        ensures size { IsLawfulThermal self.now → unsigned_abs result ≤ 2 * MAX_POWER }
    {
        if self.on0 {
            difference(self.p0, self.pmin)
        } else {
            0
        }
    }

    /// How far the limit of a start lies below the greatest output, in watts; 0 where it lies above.
    pub fn start_reduction(&self) -> i64
        ensures value { IsLawfulThermal self.now → result ≡ start_reduction_of self.now }
        ensures limit { IsLawfulThermal self.now → IsLimit result }
    {
        difference(self.pmax, self.su).max(0)
    }

    /// How far the limit of a stop lies below the greatest output, in watts; 0 where it lies above.
    pub fn stop_reduction(&self) -> i64
        ensures value { IsLawfulThermal self.now → result ≡ stop_reduction_of self.now }
        ensures limit { IsLawfulThermal self.now → IsLimit result }
    {
        difference(self.pmax, self.sd).max(0)
    }

    /// The right side of M9 in watts: the range of an hour in which the unit is `on`, and else 0, less what a start in it takes.
    pub fn start_cap(&self, on: bool, is_start: bool) -> i64
        ensures value { IsLawfulThermal self.now → result ≡ (self.now.pmax -ℤ self.now.pmin) *ℤ bit on -ℤ start_reduction_of self.now *ℤ bit is_start }
        ensures size { IsLawfulThermal self.now → unsigned_abs result ≤ MAX_POWER }
    {
        reduced(self.range_where(on), self.start_reduction(), is_start)
    }

    /// The right side of M10 in watts: the range of an hour in which the unit is `on`, and else 0, less what a stop behind it takes.
    pub fn stop_cap(&self, on: bool, is_followed: bool) -> i64
        ensures value { IsLawfulThermal self.now → result ≡ (self.now.pmax -ℤ self.now.pmin) *ℤ bit on -ℤ stop_reduction_of self.now *ℤ bit is_followed }
        ensures size { IsLawfulThermal self.now → unsigned_abs result ≤ MAX_POWER }
    {
        reduced(self.range_where(on), self.stop_reduction(), is_followed)
    }

    // The range where the unit is on, and else 0.
    fn range_where(&self, on: bool) -> i64
        ensures value { IsLawfulThermal self.now → result ≡ (self.now.pmax -ℤ self.now.pmin) *ℤ bit on }
        ensures limit { IsLawfulThermal self.now → IsLimit result }
    {
        if on { self.range() } else { 0 }
    }

    /// The cap of an on hour, in watts above the minimum: that of period `t` (from 0) of `periods`, by whether the unit starts
    /// in it and whether a stop follows it.
    pub fn cell_cap(&self, periods: usize, t: usize, start: bool, stop: bool) -> i64
        requires period { t < periods }
        ensures value { IsLawfulThermal self.now → result ≡ cap_of periods self.now t start stop }
        ensures size { IsLawfulThermal self.now → unsigned_abs result ≤ MAX_POWER }
    {
        let started = self.start_cap(true, is_start(self, t, start));
        let followed = self.stop_cap(true, is_followed(periods, t, stop));
        started.min(followed)
    }

    /// What is left of the minimum up time at the initial time, in hours: M2 keeps a unit on for so long that is on then.
    pub fn up_time_left(&self) -> u32
        ensures { result ≡ self.now.ut - self.now.ut0 }
    {
        self.ut.saturating_sub(self.ut0)
    }

    /// What is left of the minimum down time at the initial time, in hours: M3 keeps a unit off for so long that is off then.
    pub fn down_time_left(&self) -> u32
        ensures { result ≡ self.now.dt - self.now.dt0 }
    {
        self.dt.saturating_sub(self.dt0)
    }

    /// The first period, from 0, in which the minimum times let a unit be switched that is `on`, or off, since `since`: 0 is
    /// since before the first period, and s + 1 since period s, in which it was switched.
    pub fn first_switch(&self, on: bool, since: usize) -> usize
        requires past { since ≤ MAX_PERIODS }
        ensures first { (t : ℕ) → may_switch_in self.now on since t ≡ nat_le result t }
        ensures size { IsLawfulThermal self.now → result ≤ MAX_PERIODS + MAX_TIME }
    {
        if on {
            first_left(self.ut, self.up_time_left(), since)
        } else {
            first_left(self.dt, self.down_time_left(), since)
        }
    }

    /// Whether the minimum times let such a unit be switched in period `t`, from 0.
    pub fn may_switch(&self, on: bool, since: usize, t: usize) -> bool
        requires past { since ≤ MAX_PERIODS }
        ensures { result ≡ may_switch_in self.now on since t }
    {
        self.first_switch(on, since) <= t
    }
}

// The difference of two powers, which saturates where it doesn't fit.
fn difference(power: i64, other: i64) -> i64
    ensures { IsPower power → IsPower other → result ≡ power -ℤ other }
{
    power.saturating_sub(other)
}

// A limit less a reduction, where it applies.
fn reduced(limit: i64, reduction: i64, applies: bool) -> i64
    ensures value { IsLimit limit → IsLimit reduction → result ≡ limit -ℤ reduction *ℤ bit applies }
    ensures size { IsLimit limit → IsLimit reduction → IsPower result }
{
    if applies {
        difference(limit, reduction)
    } else {
        limit
    }
}

// Whether an hour that is to be a start can be one.
fn is_start(unit: &Thermal, t: usize, start: bool) -> bool
    ensures { result ≡ (start && not (unit.now.on0 && (t == 0))) }
{
    start && !(unit.on0 && t == 0)
}

// Whether an hour that a stop is to follow can have one.
fn is_followed(periods: usize, t: usize, stop: bool) -> bool
    requires { t < periods }
    ensures { result ≡ (stop && nat_lt (suc t) periods) }
{
    stop && t + 1 < periods
}

// The first period in which a state may be left: initially `left` hours remain, and a state that was entered in the horizon lasts
// `most`.
fn first_left(most: u32, left: u32, since: usize) -> usize
    requires left { left ≤ most }
    requires past { since ≤ MAX_PERIODS }
    ensures first { (t : ℕ) → has_lasted left most since t ≡ nat_le result t }
    ensures size { result ≤ since + most }
{
    match since.checked_sub(1) {
        None => left as usize,
        Some(period) => period + most as usize,
    }
}
