//! The thermal units of a seed, and what their numbers sum up to.

ghost use Rattle.std.specs.Prelude.{◌≡◌, IfOk};
ghost use Rattle.demo_gen.specs.Demo.{first_units, minimum_sum, range_sum};

use crate::generator::Generator;
use crate::numbers::next_numbers;
use crate::unit::thermal;
use std::alloc::Global;
use uc_model::{NoMemory, Thermal};

/// How many thermal units there are.
const UNITS: u32 = 40;

/// Thermal units with the sums of their minimums and of their ranges, in megawatts.
#[derive(Drop)]
pub(crate) struct Units {
    pub thermal: Vec<Thermal>,
    pub minimum: u32,
    pub range: u32,
}

/// The thermal units of a seed. The only error is `NoMemory`.
pub(crate) fn units_of(alloc: Global, seed: u32) -> Result<Units, NoMemory>
    ensures thermal { IfOk result (λ units. units.thermal.items ≡ first_units seed 40) }
    ensures minimum { IfOk result (λ units. units.minimum ≡ minimum_sum seed 40) }
    ensures range { IfOk result (λ units. units.range ≡ range_sum seed 40) }
{
    let mut generator = Generator::of(seed);
    let mut units = Vec::new(alloc);
    let mut minimum = 0;
    let mut range = 0;
    for g in 0..UNITS {
        let numbers = next_numbers(&mut generator);
        minimum += numbers.minimum;
        range += numbers.range;
        units.push(thermal(alloc, g, &numbers)?)?;
    }
    Ok(Units {
        thermal: units,
        minimum,
        range,
    })
}
