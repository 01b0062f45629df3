//! The units of an instance, in the order of the file.

ghost use Rattle.std.specs.Prelude.{◌+◌, ◌*◌, ◌<◌, ◌≤◌, ◌^◌, [], map, OnOk};
ghost use Rattle.decimal_json.specs.View.{pair_view};
ghost use Rattle.instance.specs.FirstFault.{MAX_PERIODS, MAX_UNITS, each_at, thermal_member, renewable_member, thermal_units_at, renewable_units_at, NO_UNIT, rounded_thermal, rounded_renewable, rounded_thermal_units, rounded_renewable_units};
ghost use Rattle.instance.specs.Answer.{Gives};
ghost use Rattle.instance.specs.inside.Parts.{IsInUnit, Counts, THERMAL_NUMBERS, RENEWABLE_NUMBERS};

use crate::fault::{Fault, InstanceFault, NO_UNIT, PlacedFault, RENEWABLE, Refusal, THERMAL};
use crate::placed;
use crate::reader::Reader;
use decimal_json::Pair;
use std::alloc::Global;
use uc_model::{Field, FieldRefusal, Name, Renewable, Thermal};

impl Reader {
    #[tactic(auto, unfolding(crate::specs::FirstFault::each_at, crate::specs::FirstFault::thermal_units_at, crate::specs::FirstFault::rounded_thermal_units))]
    pub(crate) fn thermal_units(
        &mut self,
        alloc: Global,
        members: &[Pair],
    ) -> Result<Vec<Thermal>, InstanceFault>
        requires { self.old.rounded + THERMAL_NUMBERS * MAX_UNITS < 2 ^ 64 }
        ensures read { Gives (λ us. us.items) result (thermal_units_at self.old.exact (map pair_view members.now)) }
        ensures counted { OnOk result (Counts self.old self.new (rounded_thermal_units (map pair_view members.now)) (THERMAL_NUMBERS * MAX_UNITS)) }
    {
        let records = match placed::units(members, Field::ThermalGenerators) {
            Ok(records) => records,
            Err(fault) => return Err(outside(alloc, fault)),
        };
        let mut units = Vec::new(alloc);
        for record in records {
            units.push(self.thermal_unit(alloc, record)?)?;
        }
        Ok(units)
    }

    #[tactic(auto, unfolding(crate::specs::FirstFault::each_at, crate::specs::FirstFault::renewable_units_at, crate::specs::FirstFault::rounded_renewable_units))]
    pub(crate) fn renewable_units(
        &mut self,
        alloc: Global,
        members: &[Pair],
        periods: u32,
    ) -> Result<Vec<Renewable>, InstanceFault>
        requires few { periods ≤ MAX_PERIODS }
        requires room { self.old.rounded + RENEWABLE_NUMBERS * MAX_UNITS < 2 ^ 64 }
        ensures read { Gives (λ us. us.items) result (renewable_units_at self.old.exact periods (map pair_view members.now)) }
        ensures counted { OnOk result (Counts self.old self.new (rounded_renewable_units periods (map pair_view members.now)) (RENEWABLE_NUMBERS * MAX_UNITS)) }
    {
        let records = match placed::units(members, Field::RenewableGenerators) {
            Ok(records) => records,
            Err(fault) => return Err(outside(alloc, fault)),
        };
        let mut units = Vec::new(alloc);
        for record in records {
            units.push(self.renewable_unit(alloc, record, periods)?)?;
        }
        Ok(units)
    }

    fn thermal_unit(&mut self, alloc: Global, member: &Pair) -> Result<Thermal, InstanceFault>
        requires { self.old.rounded + THERMAL_NUMBERS < 2 ^ 64 }
        ensures read { Gives (λ unit. unit) result (thermal_member self.old.exact [] (pair_view member.now)) }
        ensures counted { OnOk result (Counts self.old self.new (rounded_thermal (pair_view member.now).1) THERMAL_NUMBERS) }
    {
        let name = member.key.as_str();
        match self.thermal(alloc, name, &member.value) {
            Ok(unit) => Ok(unit),
            Err(fault) => Err(in_unit(alloc, THERMAL, name, fault)),
        }
    }

    fn renewable_unit(
        &mut self,
        alloc: Global,
        member: &Pair,
        periods: u32,
    ) -> Result<Renewable, InstanceFault>
        requires few { periods ≤ MAX_PERIODS }
        requires room { self.old.rounded + RENEWABLE_NUMBERS < 2 ^ 64 }
        ensures read { Gives (λ unit. unit) result (renewable_member self.old.exact periods [] (pair_view member.now)) }
        ensures counted { OnOk result (Counts self.old self.new (rounded_renewable periods (pair_view member.now).1) RENEWABLE_NUMBERS) }
    {
        let name = member.key.as_str();
        match self.renewable(alloc, periods, name, &member.value) {
            Ok(unit) => Ok(unit),
            Err(fault) => Err(in_unit(alloc, RENEWABLE, name, fault)),
        }
    }
}

/// A fault with the unit that it is in.
fn in_unit(alloc: Global, kind_of_unit: u8, name: &str, fault: PlacedFault) -> InstanceFault
    ensures { IsInUnit kind_of_unit name.now fault result }
{
    let Fault::Refused(Refusal { code, place }) = fault else {
        return Fault::NoMemory;
    };
    match String::from_str(alloc, name) {
        Ok(unit) => Fault::Refused(FieldRefusal {
            code,
            kind_of_unit,
            unit: Name::from_string(unit),
            field: place.field,
            entry: place.entry,
        }),
        Err(_) => Fault::NoMemory,
    }
}

/// A fault in no unit.
pub(crate) fn outside(alloc: Global, fault: PlacedFault) -> InstanceFault
    ensures { IsInUnit NO_UNIT [] fault result }
{
    in_unit(alloc, NO_UNIT, "", fault)
}
