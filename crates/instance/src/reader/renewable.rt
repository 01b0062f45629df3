//! Renewable units.

ghost use Rattle.std.specs.Prelude.{◌+◌, ◌<◌, ◌≤◌, ◌^◌, OnOk};
ghost use Rattle.decimal_json.specs.View.{view};
ghost use Rattle.instance.specs.FirstFault.{MAX_PERIODS, renewable_at, rounded_renewable};
ghost use Rattle.instance.specs.Answer.{Gives};
ghost use Rattle.instance.specs.inside.Parts.{Counts, RENEWABLE_NUMBERS};

use crate::fault::{Place, PlacedFault};
use crate::placed::PlacedValue;
use crate::reader::Reader;
use decimal_json::Json;
use std::alloc::Global;
use uc_model::{Field, List, Name, Renewable};

impl Reader {
    /// The unit that a value is.
    #[tactic(auto, unfolding(crate::specs::FirstFault::renewable_at, crate::specs::FirstFault::rounded_renewable))]
    pub(crate) fn renewable(
        &mut self,
        alloc: Global,
        periods: u32,
        name: &str,
        value: &Json,
    ) -> Result<Renewable, PlacedFault>
        requires few { periods ≤ MAX_PERIODS }
        requires room { self.old.rounded + RENEWABLE_NUMBERS < 2 ^ 64 }
        ensures read { Gives (λ unit. unit) result (renewable_at self.old.exact periods name.now (view value.now)) }
        ensures counted { OnOk result (Counts self.old self.new (rounded_renewable periods (view value.now)) RENEWABLE_NUMBERS) }
    {
        let place = Place::whole(Field::NoField);
        let members = PlacedValue { value, place }.object()?;
        let minimum = self.powers(alloc, members, Field::PowerOutputMinimum, periods)?;
        let maximum = self.maxima(alloc, members, minimum.as_slice())?;
        Ok(Renewable {
            name: Name::from_string(String::from_str(alloc, name)?),
            minimum: List::from_vec(minimum),
            maximum: List::from_vec(maximum),
        })
    }
}
