//! Reading the instance.

ghost use Rattle.std.specs.Prelude.{◌≡◌, ℕ, IfOk, IfErr};
ghost use Rattle.uc_model.specs.Prelude.{IsLawfulInstance};
ghost use Rattle.outside.specs.declared.slot.Slot.TheVariants.{Instance as InstanceSlot};
ghost use Rattle.outside.specs.Prelude.{SameBut};
ghost use Rattle.command_line.specs.Asked.{HasPrices};
ghost use Rattle.command_runs.specs.Reading.{Unopened, most_bytes, too_dear as too_dear_refusal, IsPriced, StandForPriced, HasInstance, HasCause, IsRefusal, IsOpenedByNoOther, IsOnlyRead};
ghost use Rattle.command_runs.specs.inside.Prices.{Instance, StandFor, StandForCounted, HasNone, IsDear};

use crate::slot_bytes::slot_bytes;
use instance::{ReadFault, penalize};
use outside::{Files, Slot};
use report::Fault;
use std::alloc::Global;
use uc_model::{Field, FieldRefusal, Instance, Name};

/// The most bytes of an instance file.
const INSTANCE_LIMIT: u64 = 1 << 26;

/// How an instance is read: whether a rounded number is refused, and the prices of unserved demand and of missing reserve in
/// micro-dollars for a watt and an hour, 0 where there is none.
#[derive(Clone, Copy, Debug)]
pub struct ReadOptions {
    pub exact: bool,
    pub shed: u32,
    pub spill_reserve: u32,
}

// The refusal of prices that are too high. It has no place.
fn too_dear(alloc: Global) -> FieldRefusal
    ensures { result ≡ too_dear_refusal }
{
    FieldRefusal {
        code: 9,
        kind_of_unit: 0,
        unit: Name::from_string(String::new(alloc)),
        field: Field::NoField,
        entry: 0,
    }
}

// The instance of the bytes, and how many of the numbers that were read are rounded.
fn given_of(alloc: Global, bytes: &[u8], exact: bool) -> Result<(Instance, u64), Fault>
    ensures read { IfOk result (λ r. StandForCounted exact bytes.now r.0 r.1) }
    ensures only { IfOk result (λ r. (i : Instance) → StandFor exact bytes.now i → i ≡ r.0) }
    ensures lawful { IfOk result (λ r. IsLawfulInstance r.0) }
    ensures refused { IfErr result (HasNone exact bytes.now) }
{
    match instance::read_instance(alloc, bytes, exact) {
        Ok(read) => Ok(read),
        Err(ReadFault::Json { at, kind }) => Err(Fault::Json { at, kind }),
        Err(ReadFault::Refused(refusal)) => Err(Fault::Instance(refusal)),
        Err(ReadFault::NoMemory) => Err(Fault::Memory),
    }
}

// What was given, with the prices of shortages where they aren't too high for it.
fn priced(
    alloc: Global,
    given: (Instance, u64),
    options: ReadOptions,
) -> Result<(Instance, u64), Fault>
    requires lawful { IsLawfulInstance given.0 }
    requires prices { HasPrices options.shed options.spill_reserve }
    ensures priced { IfOk result (λ r. IsPriced options given.0 r.0 × (r.1 ≡ given.1)) }
    ensures lawful { IfOk result (λ r. IsLawfulInstance r.0) }
    ensures refused { IfErr result (IsDear options given.0) }
{
    let (mut instance, rounded) = given;
    if penalize(&mut instance, options.shed, options.spill_reserve) {
        Ok((instance, rounded))
    } else {
        Err(Fault::Instance(too_dear(alloc)))
    }
}

// The instance of the bytes with the prices of shortages, and how many of the numbers that were read are rounded.
fn instance_of(alloc: Global, bytes: &[u8], options: ReadOptions) -> Result<(Instance, u64), Fault>
    requires { HasPrices options.shed options.spill_reserve }
    ensures read { IfOk result (λ r. StandForPriced options bytes.now r.0 r.1) }
    ensures only { IfOk result (λ r. (i : Instance) (count : ℕ) → StandForPriced options bytes.now i count → i ≡ r.0) }
    ensures lawful { IfOk result (λ r. IsLawfulInstance r.0) }
    ensures refused { IfErr result (IsRefusal options bytes.now) }
{
    let given = given_of(alloc, bytes, options.exact)?;
    priced(alloc, given, options)
}

/// The instance in the file of this name. A fault comes before any byte is written.
pub fn read_instance<F: Files>(
    alloc: Global,
    files: &mut F,
    name: &str,
    options: ReadOptions,
) -> Result<(Instance, u64), Fault>
    requires unopened { (F.state files.old Slot.Instance).stage ≡ Unopened }
    requires prices { HasPrices options.shed options.spill_reserve }
    ensures read { IfOk result (λ r. HasInstance options (F.state files.old Slot.Instance) r.0 r.1) }
    ensures cause { IfErr result (HasCause options (F.state files.old Slot.Instance) (F.state files.new Slot.Instance)) }
    ensures calm { IfOk result (λ _. (F.state files.new Slot.Instance).faults ≡ (F.state files.old Slot.Instance).faults) }
    ensures named { IsOpenedByNoOther name.now (F.state files.old Slot.Instance) (F.state files.new Slot.Instance) }
    ensures only_read { IsOnlyRead most_bytes (F.state files.old Slot.Instance) (F.state files.new Slot.Instance) }
    ensures others { SameBut InstanceSlot (F.state files.old) (F.state files.new) }
{
    let bytes = slot_bytes(alloc, files, Slot::Instance, name, INSTANCE_LIMIT)?;
    instance_of(alloc, &bytes, options)
}
