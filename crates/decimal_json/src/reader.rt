//! A whole text.

ghost use Rattle.std.specs.Prelude.{◌≡◌, ◌⊎◌, ℕ, MatchResult, IfOk, IfErr};
ghost use Rattle.decimal_json.specs.Value.{Value};
ghost use Rattle.decimal_json.specs.inside.Scan.{whole_outcome, Gives};
ghost use Rattle.decimal_json.specs.View.{view};
ghost use Rattle.decimal_json.specs.Reading.{IsText, IsFault, HasCause};

use crate::bytes::token_at;
use crate::types::{Json, JsonFault, no_json};
use crate::value::value;
use std::alloc::Global;
use std::str;

/// How many arrays and objects may stand in one another.
const DEPTH_LIMIT: usize = 64;

/// The value of a whole text, which may have white space round it.
fn document(alloc: Global, source: &str) -> Result<Json, JsonFault>
    ensures { Gives result (whole_outcome source.now) }
{
    let (value, end) = value(alloc, source, 0, DEPTH_LIMIT)?;
    let (at, more) = token_at(source, end);
    match more {
        None => Ok(value),
        Some(_) => Err(no_json(at)),
    }
}

/// The JSON value (RFC 8259) that the bytes are the text of. Arrays and objects may stand in one another up to a depth
/// of 64. A fault says at which byte, counted from 0, and why, as at [`JsonFault`]; want of memory may come instead of
/// any answer.
pub fn read(alloc: Global, bytes: &[u8]) -> Result<Json, JsonFault>
    // What is read is the value that the bytes are the text of.
    ensures text { IfOk result (λ json. IsText bytes.now (view json)) }
    // A text is read as its value, and as no other.
    ensures only { (v : Value) → IsText bytes.now v →
        MatchResult result (λ json. view json ≡ v) (λ e. e ≡ JsonFault.NoMemory) }
    // Each fault has its cause at its place.
    ensures fault { IfErr result (HasCause bytes.now) }
    // Where such a cause stands, it is the answer, and no other is.
    ensures exact { (at kind : ℕ) → IsFault bytes.now at kind →
        MatchResult result (λ _. ⊥) (λ e. (e ≡ JsonFault.At at kind) ⊎ (e ≡ JsonFault.NoMemory)) }
{
    match str::from_utf8(bytes) {
        Ok(source) => document(alloc, source),
        Err(error) => Err(JsonFault::At {
            at: error.valid_up_to(),
            kind: 1,
        }),
    }
}
