//! The numbers of an instance: powers, costs, times, flags and the number of periods.

ghost use Rattle.std.specs.Prelude.{◌≡◌, ◌+◌, ◌<◌, ◌≤◌, ◌^◌, ◌&&◌, nat_lt, OnOk, IfOk};
ghost use Rattle.decimal_json.specs.View.{view, decimal_of};
ghost use Rattle.instance.specs.FirstFault.{MAX_PERIODS, MAX_POWER, number_at, amount_at, power_from, whole_at, time_at, flag_at, periods_at, rounded_value};
ghost use Rattle.instance.specs.Scaled.{signed};
ghost use Rattle.instance.specs.Answer.{Gives};
ghost use Rattle.instance.specs.inside.Parts.{HoldsWhole, Counts};

use crate::fault::{
    NOT_WHOLE, OTHER_KIND, OUT_OF_RANGE, PAST_LIMIT, PlacedFault, ROUNDED, TOO_MANY,
};
use crate::object;
use crate::placed::PlacedValue;
use crate::reader::Reader;
use crate::scaled::{MILLION, rounds, scaled_size};
use decimal_json::Number;
use uc_model::limits::{MAX_PERIODS, MAX_POWER, MAX_TIME};

impl Reader {
    /// A number of any size.
    #[tactic(auto, unfolding(crate::specs::FirstFault::number_at, crate::specs::FirstFault::rounded_value))]
    fn number<'a>(&mut self, placed: PlacedValue<'a>) -> Result<&'a Number, PlacedFault>
        requires { self.old.rounded + 1 < 2 ^ 64 }
        ensures read { Gives (λ n. decimal_of n.now) result (number_at self.old.exact placed.entry.place (view placed.entry.value.now)) }
        ensures counted { OnOk result (Counts self.old self.new (rounded_value (view placed.entry.value.now)) 1) }
    {
        let Some(number) = object::number(placed.value) else {
            return Err(placed.place.refused(OTHER_KIND));
        };
        if rounds(number) {
            if self.exact {
                return Err(placed.place.refused(ROUNDED));
            }
            self.rounded += 1;
        }
        Ok(number)
    }

    /// A power in watts or a cost in micro-dollars, of a size up to the most.
    #[tactic(auto, unfolding(crate::specs::FirstFault::amount_at))]
    pub(crate) fn amount(&mut self, placed: PlacedValue<'_>, most: u64) -> Result<i64, PlacedFault>
        requires room { self.old.rounded + 1 < 2 ^ 64 }
        requires few { most ≤ MAX_POWER }
        ensures read { Gives (λ z. z) result (amount_at most self.old.exact placed.entry.place (view placed.entry.value.now)) }
        ensures counted { OnOk result (Counts self.old self.new (rounded_value (view placed.entry.value.now)) 1) }
    {
        let number = self.number(placed)?;
        let size = scaled_size(number);
        if size > most {
            return Err(placed.place.refused(PAST_LIMIT));
        }
        Ok(signed(number.negative, size))
    }

    /// A power in watts, no less than another one.
    #[tactic(auto, unfolding(crate::specs::FirstFault::power_from))]
    pub(crate) fn power_from(
        &mut self,
        placed: PlacedValue<'_>,
        least: i64,
    ) -> Result<i64, PlacedFault>
        requires { self.old.rounded + 1 < 2 ^ 64 }
        ensures read { Gives (λ z. z) result (power_from self.old.exact placed.entry.place least (view placed.entry.value.now)) }
        ensures counted { OnOk result (Counts self.old self.new (rounded_value (view placed.entry.value.now)) 1) }
    {
        let power = self.amount(placed, MAX_POWER)?;
        if power < least {
            return Err(placed.place.refused(OUT_OF_RANGE));
        }
        Ok(power)
    }

    /// A time in hours.
    #[tactic(auto, unfolding(crate::specs::FirstFault::time_at))]
    pub(crate) fn time(&mut self, placed: PlacedValue<'_>) -> Result<u32, PlacedFault>
        requires { self.old.rounded + 1 < 2 ^ 64 }
        ensures read { Gives (λ h. h) result (time_at self.old.exact placed.entry.place (view placed.entry.value.now)) }
        ensures counted { OnOk result (Counts self.old self.new (rounded_value (view placed.entry.value.now)) 1) }
    {
        let (negative, hours) = self.whole(placed)?;
        if is_below_zero(negative, hours) || hours > u64::from(MAX_TIME) {
            return Err(placed.place.refused(PAST_LIMIT));
        }
        Ok(hours as u32)
    }

    /// A flag, 0 or 1.
    #[tactic(auto, unfolding(crate::specs::FirstFault::flag_at))]
    pub(crate) fn flag(&mut self, placed: PlacedValue<'_>) -> Result<bool, PlacedFault>
        requires { self.old.rounded + 1 < 2 ^ 64 }
        ensures read { Gives (λ b. b) result (flag_at self.old.exact placed.entry.place (view placed.entry.value.now)) }
        ensures counted { OnOk result (Counts self.old self.new (rounded_value (view placed.entry.value.now)) 1) }
    {
        let (negative, wholes) = self.whole(placed)?;
        if is_below_zero(negative, wholes) || wholes > 1 {
            return Err(placed.place.refused(OUT_OF_RANGE));
        }
        Ok(wholes == 1)
    }

    /// The number of periods, from 1 on.
    #[tactic(auto, unfolding(crate::specs::FirstFault::periods_at))]
    pub(crate) fn periods(&mut self, placed: PlacedValue<'_>) -> Result<u32, PlacedFault>
        requires { self.old.rounded + 1 < 2 ^ 64 }
        ensures read { Gives (λ t. t) result (periods_at self.old.exact placed.entry.place (view placed.entry.value.now)) }
        ensures counted { OnOk result (Counts self.old self.new (rounded_value (view placed.entry.value.now)) 1) }
        ensures most { IfOk result (λ t. t ≤ MAX_PERIODS) }
    {
        let (negative, periods) = self.whole(placed)?;
        if negative || periods == 0 {
            return Err(placed.place.refused(OUT_OF_RANGE));
        }
        if periods > u64::from(MAX_PERIODS) {
            return Err(placed.place.refused(TOO_MANY));
        }
        Ok(periods as u32)
    }

    /// A whole number: whether it has a minus, and its size.
    #[tactic(auto, unfolding(crate::specs::FirstFault::whole_at))]
    fn whole(&mut self, placed: PlacedValue<'_>) -> Result<(bool, u64), PlacedFault>
        requires { self.old.rounded + 1 < 2 ^ 64 }
        ensures read { HoldsWhole result (whole_at self.old.exact placed.entry.place (view placed.entry.value.now)) }
        ensures counted { OnOk result (Counts self.old self.new (rounded_value (view placed.entry.value.now)) 1) }
    {
        let number = self.number(placed)?;
        let size = scaled_size(number);
        if size % MILLION != 0 {
            return Err(placed.place.refused(NOT_WHOLE));
        }
        Ok((number.negative, size / MILLION))
    }
}

/// A number below zero, of which this is the sign and the size.
fn is_below_zero(negative: bool, size: u64) -> bool
    ensures { result ≡ negative && nat_lt 0 size }
{
    negative && size > 0
}

/// A sign and a size.
fn signed(negative: bool, size: u64) -> i64
    requires { size ≤ MAX_POWER }
    ensures { result ≡ signed negative size }
{
    let size = size as i64;
    if negative { -size } else { size }
}
