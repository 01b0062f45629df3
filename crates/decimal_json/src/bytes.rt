//! Single bytes of the input, and white space.

ghost use Rattle.std.specs.Prelude.{◌≡◌, ℕ, ◌+◌, ◌<◌, ◌≤◌, true, false, ◌==◌, List, ◌∷◌, [], length, drop, IfSome, IfNone, IfOk, IfErr};
ghost use Rattle.decimal_json.specs.Characters.{is_space};
ghost use Rattle.decimal_json.specs.inside.Scan.{SkipsSpace, StandsAt, FailsAt, IsToken};

use crate::types::{JsonFault, no_json};

/// The byte at a place, if there is one.
pub fn byte_at(bytes: &[u8], at: usize) -> Option<u8>
    ensures byte { IfSome result (λ c. drop at bytes.now ≡ c ∷ drop (at + 1) bytes.now) }
    ensures within { IfSome result (λ _. at < length bytes.now) }
    ensures end { IfNone result (drop at bytes.now ≡ []) }
{
    if at < bytes.len() {
        Some(bytes[at])
    } else {
        None
    }
}

/// The byte that has to stand at a place.
pub fn byte_wanted(bytes: &[u8], at: usize) -> Result<u8, JsonFault>
    ensures byte { IfOk result (StandsAt bytes.now at) }
    ensures within { IfOk result (λ _. at < length bytes.now) }
    ensures fault { IfErr result (λ e. (e ≡ JsonFault.At at 2) × (drop at bytes.now ≡ [])) }
{
    match byte_at(bytes, at) {
        Some(byte) => Ok(byte),
        None => Err(no_json(at)),
    }
}

/// White space of RFC 8259, section 2.
pub fn is_white(byte: u8) -> bool
    ensures { result ≡ is_space byte }
{
    byte == b' ' || byte == b'\t' || byte == b'\n' || byte == b'\r'
}

/// The next place where no white space stands.
#[tactic(auto, using(crate::proofs::Moves::past_space))]
pub fn skip_space(bytes: &[u8], start: usize) -> usize
    requires { start ≤ length bytes.now }
    ensures forward { start ≤ result }
    ensures within { result ≤ length bytes.now }
    ensures same { SkipsSpace bytes.now start result }
    ensures past { (c : ℕ) (cs : List ℕ) → drop result bytes.now ≡ c ∷ cs → is_space c ≡ false }
{
    let mut at = start;
    while at < bytes.len() && is_white(bytes[at]) {
        at += 1;
    }
    at
}

/// Whether this byte stands at a place.
pub fn has_byte(bytes: &[u8], at: usize, byte: u8) -> bool
    ensures stands { result ≡ true → StandsAt bytes.now at byte }
    ensures within { result ≡ true → at < length bytes.now }
    ensures fails { result ≡ false → FailsAt (λ c. c == byte) bytes.now at }
{
    at < bytes.len() && bytes[at] == byte
}

/// The next place where no white space stands, and the byte there, if there is one.
pub fn token_at(source: &str, start: usize) -> (usize, Option<u8>)
    requires { start ≤ length source.now }
    ensures within { (start ≤ result.0) × (result.0 ≤ length source.now) }
    ensures same { SkipsSpace source.now start result.0 }
    ensures byte { IfSome result.1 (IsToken source.now result.0) }
    ensures end { IfNone result.1 (drop result.0 source.now ≡ []) }
{
    let bytes = source.as_bytes();
    let at = skip_space(bytes, start);
    (at, byte_at(bytes, at))
}
