//! Escapes of RFC 8259, section 7.

ghost use Rattle.std.specs.Prelude.{◌≡◌, ℕ, ◌+◌, ◌-◌, ◌<◌, ◌≤◌, ◌^◌, true, List, ◌++◌, length, Option, Some, None, IfOk, IfErr, IfSome, IfNone, encode_utf8, slice_index};
ghost use Rattle.std.specs.Char.Utf16.{is_low_surrogate, is_high_surrogate, surrogate_pair_char};
ghost use Rattle.decimal_json.specs.Characters.{short_escape as short_escape_of, is_hex, hex_of};
ghost use Rattle.decimal_json.specs.Value.{Frame, Purpose};
ghost use Rattle.decimal_json.specs.inside.Scan.{quoted, plain, high, fault, scan, FailsAt, StandsAt, HexAt, ReadsUnit, BreaksUnit, ReadsEscape, BreaksEscape};

use crate::bytes::{byte_at, byte_wanted, has_byte};
use crate::types::{JsonFault, no_json};

fn is_hex_byte(byte: u8) -> bool
    ensures { result ≡ is_hex byte }
{
    (48 <= byte && byte <= 57) || (65 <= byte && byte <= 70) || (97 <= byte && byte <= 102)
}

/// What a hexadecimal digit stands for.
fn hex_value(byte: u8) -> u32
    requires { is_hex byte ≡ true }
    ensures value { result ≡ hex_of byte }
    ensures small { result < 16 }
{
    if byte <= b'9' {
        u32::from(byte - b'0')
    } else if byte <= b'F' {
        u32::from(byte - b'A' + 10)
    } else {
        u32::from(byte - b'a' + 10)
    }
}

/// The hexadecimal digit that has to stand at a place.
fn hex_at(bytes: &[u8], at: usize) -> Result<u32, JsonFault>
    ensures digit { IfOk result (HexAt bytes.now at) }
    ensures small { IfOk result (λ d. d < 16) }
    ensures within { IfOk result (λ d. at < length bytes.now) }
    ensures fault { IfErr result (λ e. (e ≡ JsonFault.At at 2) × FailsAt is_hex bytes.now at) }
{
    let byte = byte_wanted(bytes, at)?;
    if !is_hex_byte(byte) {
        return Err(no_json(at));
    }
    Ok(hex_value(byte))
}

/// The unit of UTF-16 that four hexadecimal digits spell.
fn unit(bytes: &[u8], start: usize) -> Result<u32, JsonFault>
    requires { start ≤ length bytes.now }
    ensures within { IfOk result (λ u. start + 4 ≤ length bytes.now) }
    ensures small { IfOk result (λ u. u < 2 ^ 16) }
    ensures ascii { IfOk result (λ u. slice_index bytes.now (start + 3) < 128) }
    ensures read { IfOk result (ReadsUnit bytes.now start) }
    ensures fault { IfErr result (BreaksUnit bytes.now start) }
{
    let a = hex_at(bytes, start)?;
    let b = hex_at(bytes, start + 1)?;
    let c = hex_at(bytes, start + 2)?;
    let d = hex_at(bytes, start + 3)?;
    Ok(((a * 16 + b) * 16 + c) * 16 + d)
}

/// The character that an escape of one letter stands for.
fn short_escape(letter: u8) -> Option<char>
    ensures value { result ≡ short_escape_of letter }
    ensures ascii { IfSome result (λ c. c < 128) }
{
    match letter {
        b'"' => Some('"'),
        b'\\' => Some('\\'),
        b'/' => Some('/'),
        b'b' => Some('\u{8}'),
        b'f' => Some('\u{c}'),
        b'n' => Some('\n'),
        b'r' => Some('\r'),
        b't' => Some('\t'),
        _ => None,
    }
}

fn is_low(unit: u32) -> bool
    ensures { result ≡ is_low_surrogate unit }
{
    0xDC00 <= unit && unit < 0xE000
}

/// The second unit of a pair, if its escape stands at a place.
#[tactic(auto, using(crate::proofs::Numerals::no_backslash, crate::proofs::Numerals::no_u, crate::proofs::Numerals::second_broken, crate::proofs::Numerals::second_not_low, crate::proofs::Numerals::second_read))]
fn second_unit(bytes: &[u8], at: usize) -> Option<u32>
    requires { at ≤ length bytes.now }
    ensures within { IfSome result (λ v. at + 6 ≤ length bytes.now) }
    ensures low { IfSome result (λ v. is_low_surrogate v ≡ true) }
    ensures ascii { IfSome result (λ v. slice_index bytes.now (at + 5) < 128) }
    ensures read { IfSome result (λ v. (outer : List Frame) (p : Purpose) (t : List ℕ) (back u : ℕ) →
        scan bytes.now at outer (quoted p (high t back u))
        ≡ scan bytes.now (at + 6) outer (quoted p (plain (t ++ encode_utf8 (surrogate_pair_char u v))))) }
    ensures missing { IfNone result ((outer : List Frame) (p : Purpose) (t : List ℕ) (back u : ℕ) →
        scan bytes.now at outer (quoted p (high t back u)) ≡ fault back 5) }
{
    if !has_byte(bytes, at, b'\\') {
        return None;
    }
    if !has_byte(bytes, at + 1, b'u') {
        return None;
    }
    let Ok(second) = unit(bytes, at + 2) else {
        return None;
    };
    if !is_low(second) {
        return None;
    }
    Some(second)
}

/// A surrogate escape without its partner.
fn unpaired(back: usize) -> JsonFault
    ensures { result ≡ JsonFault.At back 5 }
{
    JsonFault::At { at: back, kind: 5 }
}

/// The character of two units.
fn pair_character(first: u32, second: u32) -> char
    requires first { is_high_surrogate first ≡ true }
    requires second { is_low_surrogate second ≡ true }
    ensures { result ≡ surrogate_pair_char first second }
{
    let code = 0x1_0000 + (first - 0xD800) * 0x400 + (second - 0xDC00);
    match char::from_u32(code) {
        Some(character) => character,
        None => unreachable!(),
    }
}

/// The character of an escape by hexadecimal digits whose backslash stands at a place, and the place behind it.
fn unicode_escape(bytes: &[u8], back: usize) -> Result<(char, usize), JsonFault>
    requires backslash { StandsAt bytes.now back 92 }
    requires letter { StandsAt bytes.now (back + 1) 117 }
    requires within { back + 2 ≤ length bytes.now }
    ensures within { IfOk result (λ r. (back < r.1) × (r.1 ≤ length bytes.now)) }
    ensures ascii { IfOk result (λ r. slice_index bytes.now (r.1 - 1) < 128) }
    ensures read { IfOk result (λ r. ReadsEscape bytes.now back r.1 r.0) }
    ensures fault { IfErr result (BreaksEscape bytes.now back) }
{
    let first = unit(bytes, back + 2)?;
    if let Some(character) = char::from_u32(first) {
        return Ok((character, back + 6));
    }
    if is_low(first) {
        return Err(unpaired(back));
    }
    match second_unit(bytes, back + 6) {
        Some(second) => Ok((pair_character(first, second), back + 12)),
        None => Err(unpaired(back)),
    }
}

/// The character of the escape whose backslash stands at a place, and the place behind it.
#[tactic(auto, using(crate::proofs::Numerals::letter_ends, crate::proofs::Numerals::letter_read, crate::proofs::Numerals::letter_unknown))]
pub fn escape(bytes: &[u8], back: usize) -> Result<(char, usize), JsonFault>
    requires backslash { StandsAt bytes.now back 92 }
    requires within { back < length bytes.now }
    ensures within { IfOk result (λ r. (back < r.1) × (r.1 ≤ length bytes.now)) }
    ensures ascii { IfOk result (λ r. slice_index bytes.now (r.1 - 1) < 128) }
    ensures read { IfOk result (λ r. ReadsEscape bytes.now back r.1 r.0) }
    ensures fault { IfErr result (BreaksEscape bytes.now back) }
{
    let Some(letter) = byte_at(bytes, back + 1) else {
        return Err(no_json(back + 1));
    };
    if letter == b'u' {
        return unicode_escape(bytes, back);
    }
    match short_escape(letter) {
        Some(character) => Ok((character, back + 2)),
        None => Err(no_json(back + 1)),
    }
}
