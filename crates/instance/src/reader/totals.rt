//! The fields of the whole system: its periods, demand and reserves.

ghost use Rattle.std.specs.Prelude.{◌+◌, ◌<◌, ◌≤◌, ◌^◌, map, IfOk};
ghost use Rattle.decimal_json.specs.View.{pair_view};
ghost use Rattle.instance.specs.FirstFault.{MAX_PERIODS, totals_at, rounded_totals};
ghost use Rattle.instance.specs.Answer.{Gives};
ghost use Rattle.instance.specs.inside.Parts.{Counts, TOTAL_NUMBERS};

use crate::fault::PlacedFault;
use crate::placed::field;
use crate::reader::Reader;
use decimal_json::Pair;
use std::alloc::Global;
use uc_model::{Field, List};

/// The number of periods, and demand and reserves in each, in watts.
#[derive(Drop)]
pub(crate) struct Totals {
    pub(crate) periods: u32,
    pub(crate) demand: List<i64>,
    pub(crate) reserves: List<i64>,
}

impl Reader {
    #[tactic(auto, unfolding(crate::specs::FirstFault::totals_at, crate::specs::FirstFault::rounded_totals, crate::specs::FirstFault::rounded_field))]
    pub(crate) fn totals(&mut self, alloc: Global, members: &[Pair]) -> Result<Totals, PlacedFault>
        requires { self.old.rounded + TOTAL_NUMBERS < 2 ^ 64 }
        ensures read { Gives (λ x. x) result (totals_at self.old.exact (map pair_view members.now)) }
        ensures counted { IfOk result (λ x. Counts self.old self.new (rounded_totals x.periods (map pair_view members.now)) TOTAL_NUMBERS) }
        ensures few { IfOk result (λ x. x.periods ≤ MAX_PERIODS) }
    {
        let periods = self.periods(field(members, Field::TimePeriods)?)?;
        let demand = self.powers(alloc, members, Field::Demand, periods)?;
        let reserves = self.powers(alloc, members, Field::Reserves, periods)?;
        Ok(Totals {
            periods,
            demand: List::from_vec(demand),
            reserves: List::from_vec(reserves),
        })
    }
}
