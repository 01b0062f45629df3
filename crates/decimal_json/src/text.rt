//! Strings of RFC 8259, section 7.

ghost use Rattle.std.specs.Prelude.{◌≡◌, ◌+◌, ◌-◌, ◌<◌, ◌≤◌, length, slice_range, IfOk, IfErr};
ghost use Rattle.std.specs.Str.{IsCharBoundary};
ghost use Rattle.std.specs.String.{string_bytes};
ghost use Rattle.decimal_json.specs.Characters.{is_plain};
ghost use Rattle.decimal_json.specs.inside.Scan.{FailsAt, ReadsPlain, ReadsText, BreaksText};

use crate::bytes::byte_at;
use crate::escape::escape;
use crate::types::{JsonFault, no_json};
use std::alloc::Global;

/// A byte that stands for itself: no quote, no backslash, no control character.
fn is_plain_byte(byte: u8) -> bool
    ensures { result ≡ is_plain byte }
{
    byte != b'"' && byte != b'\\' && b' ' <= byte
}

/// The next place where no byte stands for itself.
#[tactic(auto, using(crate::proofs::Numerals::reads_more))]
fn skip_plain(bytes: &[u8], start: usize) -> usize
    requires { start ≤ length bytes.now }
    ensures within { (start ≤ result) × (result ≤ length bytes.now) }
    ensures read { ReadsPlain bytes.now start result (slice_range bytes.now start result) }
    ensures past { FailsAt is_plain bytes.now result }
{
    let mut at = start;
    while at < bytes.len() && is_plain_byte(bytes[at]) {
        at += 1;
    }
    at
}

/// The text of a string behind its first quote, and the place behind the last.
pub fn text(alloc: Global, source: &str, start: usize) -> Result<(String, usize), JsonFault>
    requires { IsCharBoundary source.now start }
    ensures within { IfOk result (λ r. (start < r.1) × (r.1 ≤ length source.now)) }
    ensures read { IfOk result (λ r. ReadsText source.now start r.1 (string_bytes r.0)) }
    ensures fault { IfErr result (BreaksText source.now start) }
{
    let bytes = source.as_bytes();
    let mut text = String::new(alloc);
    let mut at = start;
    loop {
        let end = skip_plain(bytes, at);
        text.push_str(&source[at..end])?;
        let Some(byte) = byte_at(bytes, end) else {
            return Err(no_json(end));
        };
        if byte == b'"' {
            return Ok((text, end + 1));
        }
        if byte != b'\\' {
            return Err(no_json(end));
        }
        let (character, next) = escape(bytes, end)?;
        text.push(character)?;
        at = next;
    }
}
