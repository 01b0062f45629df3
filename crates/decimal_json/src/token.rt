//! What stands behind white space.

ghost use Rattle.std.specs.Prelude.{◌≢◌, ◌<◌, ◌≤◌, length, IfOk, IfErr};
ghost use Rattle.decimal_json.specs.inside.Scan.{FindsToken, LacksToken, IsBehind, place_of};

use crate::bytes::token_at;
use crate::types::{JsonFault, no_json};

/// What stands behind an item or a member: a comma, or the bracket that closes; with the place behind it.
pub enum Past {
    Comma(usize),
    Bracket(usize),
}

/// The next place where no white space stands, and the byte that has to stand there.
pub fn token(source: &str, start: usize) -> Result<(usize, u8), JsonFault>
    requires { start ≤ length source.now }
    ensures within { IfOk result (λ r. (start ≤ r.0) × (r.0 < length source.now)) }
    ensures found { IfOk result (λ r. FindsToken source.now start r.0 r.1) }
    ensures fault { IfErr result (LacksToken (λ _. ⊥) source.now start) }
{
    let (at, byte) = token_at(source, start);
    match byte {
        Some(byte) => Ok((at, byte)),
        None => Err(no_json(at)),
    }
}

/// The next place where no white space stands, at which this byte has to stand.
pub fn token_wanted(source: &str, start: usize, wanted: u8) -> Result<usize, JsonFault>
    requires { start ≤ length source.now }
    ensures within { IfOk result (λ at. (start ≤ at) × (at < length source.now)) }
    ensures found { IfOk result (λ at. FindsToken source.now start at wanted) }
    ensures fault { IfErr result (LacksToken (λ c. c ≢ wanted) source.now start) }
{
    let (at, byte) = token_at(source, start);
    match byte {
        Some(byte) if byte == wanted => Ok(at),
        _ => Err(no_json(at)),
    }
}

/// A comma or this bracket, which has to stand behind white space.
pub fn comma_or(source: &str, start: usize, bracket: u8) -> Result<Past, JsonFault>
    requires { start ≤ length source.now }
    ensures within { IfOk result (λ b. (start < place_of b) × (place_of b ≤ length source.now)) }
    ensures stands { IsBehind source.now start bracket result }
{
    let (at, byte) = token_at(source, start);
    match byte {
        Some(b',') => Ok(Past::Comma(at + 1)),
        Some(byte) if byte == bracket => Ok(Past::Bracket(at + 1)),
        _ => Err(no_json(at)),
    }
}
