//! From the bytes of a file to the instance.

ghost use Rattle.std.specs.Prelude.{◌≡◌, IsTrue, IfOk, IfErr, MatchResult};
ghost use Rattle.uc_model.specs.Prelude.{IsLawfulInstance};
ghost use Rattle.instance.specs.Bytes.{Instance, StandFor, StandForCounted, HasCause};

use crate::fault::Fault;
use crate::from_value::from_json;
use decimal_json::JsonFault;
use std::alloc::Global;
use uc_model::{FieldRefusal, Instance};

/// Why bytes stand for no instance, or none was made.
#[derive(Debug, Drop)]
pub enum ReadFault {
    /// The bytes are no JSON text: the place and the kind of a [`JsonFault`].
    Json { at: usize, kind: u8 },
    /// They are one, and its value has no instance.
    Refused(FieldRefusal),
    NoMemory,
}

/// The instance that bytes stand for, and how many of the numbers that were read are rounded. With `exact`
/// bytes with a rounded number stand for none. `NoMemory` may come in place of any answer.
pub fn read_instance(alloc: Global, bytes: &[u8], exact: bool) -> Result<(Instance, u64), ReadFault>
    ensures found { IfOk result (λ r. StandForCounted exact bytes.now r.0 r.1) }
    ensures none_if_exact { IfOk result (λ r. IsTrue exact → r.1 ≡ 0) }
    ensures lawful { IfOk result (λ r. IsLawfulInstance r.0) }
    // So they stand for one at most, and a fault comes only where they stand for none.
    ensures only { (i : Instance) → StandFor exact bytes.now i →
        MatchResult result (λ r. r.0 ≡ i) (λ e. e ≡ ReadFault.NoMemory) }
    ensures cause { IfErr result (HasCause exact bytes.now) }
{
    let json = match decimal_json::read(alloc, bytes) {
        Ok(json) => json,
        Err(JsonFault::At { at, kind }) => return Err(ReadFault::Json { at, kind }),
        Err(JsonFault::NoMemory) => return Err(ReadFault::NoMemory),
    };
    match from_json(alloc, json, exact) {
        Ok(found) => Ok(found),
        Err(Fault::Refused(refusal)) => Err(ReadFault::Refused(refusal)),
        Err(Fault::NoMemory) => Err(ReadFault::NoMemory),
    }
}
