//! Arrays of powers, with an entry for each period.

ghost use Rattle.std.specs.Prelude.{◌≡◌, ◌+◌, ◌<◌, ◌≤◌, ◌^◌, length, map, OnOk, IfOk, pos, vec_len};
ghost use Rattle.std.specs.Int.{int_max};
ghost use Rattle.decimal_json.specs.View.{pair_view};
ghost use Rattle.instance.specs.FirstFault.{MAX_PERIODS, PowerOutputMaximum, each_at, powers_at, maxima_at, rounded_array};
ghost use Rattle.instance.specs.Answer.{Gives};
ghost use Rattle.instance.specs.inside.Parts.{Counts};

use crate::fault::{Place, PlacedFault};
use crate::placed::{self, PlacedValue};
use crate::reader::Reader;
use decimal_json::{Json, Pair};
use std::alloc::Global;
use uc_model::Field;
use uc_model::limits::MAX_POWER;

impl Reader {
    /// The powers of a field that is an array, up to the last period.
    #[tactic(auto, unfolding(crate::specs::FirstFault::each_at, crate::specs::FirstFault::powers_at, crate::specs::FirstFault::rounded_array))]
    pub(crate) fn powers(
        &mut self,
        alloc: Global,
        members: &[Pair],
        field: Field,
        periods: u32,
    ) -> Result<Vec<i64>, PlacedFault>
        requires few { periods ≤ MAX_PERIODS }
        requires room { self.old.rounded + periods < 2 ^ 64 }
        ensures read { Gives (λ zs. zs.items) result (powers_at self.old.exact field periods (map pair_view members.now)) }
        ensures counted { OnOk result (Counts self.old self.new (rounded_array field periods (map pair_view members.now)) periods) }
        ensures length { IfOk result (λ zs. vec_len zs ≡ periods) }
    {
        let entries = placed::entries(members, field, periods)?;
        let mut powers = Vec::new(alloc);
        for (index, value) in entries.iter().enumerate() {
            let place = Place::entry(field, index);
            powers.push(self.amount(PlacedValue { value, place }, MAX_POWER)?)?;
        }
        Ok(powers)
    }

    /// A renewable unit's maximum, beside its minimum.
    #[tactic(auto, unfolding(crate::specs::FirstFault::each_at, crate::specs::FirstFault::maxima_at, crate::specs::FirstFault::rounded_array))]
    pub(crate) fn maxima(
        &mut self,
        alloc: Global,
        members: &[Pair],
        minimum: &[i64],
    ) -> Result<Vec<i64>, PlacedFault>
        requires few { length minimum.now ≤ MAX_PERIODS }
        requires room { self.old.rounded + length minimum.now < 2 ^ 64 }
        ensures read { Gives (λ zs. zs.items) result (maxima_at self.old.exact (length minimum.now) minimum.now (map pair_view members.now)) }
        ensures counted { OnOk result (Counts self.old self.new (rounded_array PowerOutputMaximum (length minimum.now) (map pair_view members.now)) (length minimum.now)) }
    {
        let entries = placed::entries(members, Field::PowerOutputMaximum, minimum.len() as u32)?;
        let mut powers = Vec::new(alloc);
        for (index, value) in entries.iter().enumerate() {
            let place = Place::entry(Field::PowerOutputMaximum, index);
            let least = at_least_zero(minimum[index]);
            powers.push(self.power_from(PlacedValue { value, place }, least)?)?;
        }
        Ok(powers)
    }
}

fn at_least_zero(power: i64) -> i64
    ensures { result ≡ int_max power (pos 0) }
{
    if power < 0 { 0 } else { power }
}
