//! From a JSON value to the instance.

ghost use Rattle.std.specs.Prelude.{◌≡◌, IsTrue, IfOk, Ok};
ghost use Rattle.uc_model.specs.Prelude.{IsLawfulInstance};
ghost use Rattle.decimal_json.specs.View.{view};
ghost use Rattle.instance.specs.FirstFault.{Instance, instance_at, rounded_instance};
ghost use Rattle.instance.specs.InstanceOf.{IsInstanceOf};
ghost use Rattle.instance.specs.Answer.{Gives};

use crate::fault::{InstanceFault, Place};
use crate::placed::PlacedValue;
use crate::reader::Reader;
use crate::reader::units::outside;
use decimal_json::Json;
use std::alloc::Global;
use uc_model::{Field, Instance, List};

/// The instance that a value in the pglib-uc format stands for, and how many of the numbers that were
/// read are rounded. With `exact` a value with a rounded number stands for none.
///
/// `Refused` is the first fault in the order of the fields. `NoMemory` may come in place of any answer.
pub fn from_json(alloc: Global, json: Json, exact: bool) -> Result<(Instance, u64), InstanceFault>
    // The value stands for the instance that is answered, which is within the limits.
    ensures found { IfOk result (λ r. IsInstanceOf exact (view json) r.0) }
    ensures lawful { IfOk result (λ r. IsLawfulInstance r.0) }
    // The instance that a value stands for is answered, unless memory runs out. So there is one at most, and
    // a refusal comes only where there is none.
    ensures only { (i : Instance) → IsInstanceOf exact (view json) i → Gives (λ r. r.0) result (Ok i) }
    // A refusal is the first fault.
    ensures first { Gives (λ r. r.0) result (instance_at exact (view json)) }
    ensures counted { IfOk result (λ r. r.1 ≡ rounded_instance r.0.periods (view json)) }
    ensures none_if_exact { IfOk result (λ r. IsTrue exact → r.1 ≡ 0) }
{
    read(alloc, &json, exact)
}

#[tactic(auto, unfolding(crate::specs::FirstFault::instance_at, crate::specs::FirstFault::rounded_instance))]
fn read(alloc: Global, json: &Json, exact: bool) -> Result<(Instance, u64), InstanceFault>
    ensures first { Gives (λ r. r.0) result (instance_at exact (view json.now)) }
    ensures counted { IfOk result (λ r. r.1 ≡ rounded_instance r.0.periods (view json.now)) }
    ensures none_if_exact { IfOk result (λ r. IsTrue exact → r.1 ≡ 0) }
{
    let place = Place::whole(Field::NoField);
    let members = match (PlacedValue { value: json, place }).object() {
        Ok(members) => members,
        Err(fault) => return Err(outside(alloc, fault)),
    };
    let mut reader = Reader { exact, rounded: 0 };
    let totals = match reader.totals(alloc, members) {
        Ok(totals) => totals,
        Err(fault) => return Err(outside(alloc, fault)),
    };
    let thermal = reader.thermal_units(alloc, members)?;
    let renewable = reader.renewable_units(alloc, members, totals.periods)?;
    let instance = Instance {
        periods: totals.periods,
        demand: totals.demand,
        reserves: totals.reserves,
        thermal: List::from_vec(thermal),
        renewable: List::from_vec(renewable),
        a: 0,
        b: 0,
    };
    Ok((instance, reader.rounded))
}
