//! A value that is kept beside what may fail.

ghost use Rattle.std.specs.Prelude.{◌≡◌, IfOk, Ok};

use uc_model::NoMemory;

/// The value with what was made, or the error alone. A value of many parts is let go here by one call, where a `?` beside it would let go of each
/// part in place, with a way on from each.
pub fn beside<T: Drop, U>(value: T, made: Result<U, NoMemory>) -> Result<(T, U), NoMemory>
    ensures value { IfOk result (λ both. both.0 ≡ value) }
    ensures made { IfOk result (λ both. made ≡ Ok both.1) }
{
    match made {
        Ok(made) => Ok((value, made)),
        Err(NoMemory) => Err(NoMemory),
    }
}
