//! Numbers of RFC 8259, section 6.

ghost use Rattle.std.specs.Prelude.{◌≡◌, ℕ, ◌+◌, ◌*◌, ◌-◌, ◌<◌, ◌≤◌, ◌^◌, Bool, true, false, List, [], length, IfOk, IfErr, pos, min};
ghost use Rattle.decimal_json.specs.Value.{number as number_value, is_digit, digit_of, is_mark, exponent_of, Frame};
ghost use Rattle.decimal_json.specs.inside.Scan.{Spot, numeral, mark, signed, scan, Leads, Reads, Breaks, AfterWhole, MayEnd, AddsDigits, ReadsWhole, ReadsFraction, AddsExponent, ReadsExponent, begun, FailsAt, StandsAt, kept};
ghost use Rattle.decimal_json.specs.View.{decimal_of};

use crate::bytes::{byte_at, byte_wanted, has_byte};
use crate::types::{JsonFault, Number, no_json};
use std::alloc::Global;

const EXPONENT_LIMIT: u64 = 1_000_000_000;

// A greater exponent has the same effect: no input has as many digits.
const WRITTEN_LIMIT: u64 = 10_000_000_000_000_000_000;

pub fn is_digit_byte(byte: u8) -> bool
    ensures { result ≡ is_digit byte }
{
    48 <= byte && byte <= 57
}

fn is_mark_byte(byte: u8) -> bool
    ensures { result ≡ is_mark byte }
{
    byte == b'e' || byte == b'E'
}

/// Adds the digits from a place on to a list, up to where none stands.
fn add_digits(bytes: &[u8], start: usize, digits: &mut Vec<u8>) -> Result<usize, JsonFault>
    requires { start ≤ length bytes.now }
    ensures within { IfOk result (λ at. at ≤ length bytes.now) }
    ensures digits { IfOk result (λ at. AddsDigits bytes.now start at digits.old.items digits.new.items) }
    ensures past { IfOk result (λ at. FailsAt is_digit bytes.now at) }
    ensures fault { IfErr result (λ e. e ≡ JsonFault.NoMemory) }
{
    let mut at = start;
    while at < bytes.len() && is_digit_byte(bytes[at]) {
        digits.push(bytes[at] - b'0')?;
        at += 1;
    }
    Ok(at)
}

/// The digit that has to stand at a place.
fn digit_at(bytes: &[u8], at: usize) -> Result<u8, JsonFault>
    ensures digit { IfOk result (λ d. (c : ℕ) × StandsAt bytes.now at c × (is_digit c ≡ true) × (d ≡ digit_of c)) }
    ensures within { IfOk result (λ d. at < length bytes.now) }
    ensures fault { IfErr result (λ e. (e ≡ JsonFault.At at 2) × FailsAt is_digit bytes.now at) }
{
    let byte = byte_wanted(bytes, at)?;
    if !is_digit_byte(byte) {
        return Err(no_json(at));
    }
    Ok(byte - b'0')
}

/// Adds the digits before the point, none after a first 0.
fn add_whole(
    bytes: &[u8],
    start: usize,
    negative: bool,
    digits: &mut Vec<u8>,
) -> Result<usize, JsonFault>
    requires empty { digits.old.items ≡ [] }
    requires begins { negative ≡ false → FailsAt is_digit bytes.now start → ⊥ }
    ensures within { IfOk result (λ at. (start < at) × (at ≤ length bytes.now)) }
    ensures read { IfOk result (λ at. (outer : List Frame) →
        ReadsWhole bytes.now start at outer negative digits.new.items) }
    ensures fault { IfErr result (λ e. (outer : List Frame) →
        Leads e (scan bytes.now start outer (begun negative))) }
{
    let first = digit_at(bytes, start)?;
    digits.push(first)?;
    if first == 0 {
        return Ok(start + 1);
    }
    add_digits(bytes, start + 1, digits)
}

/// Adds the digits behind a point, if one stands here. Answers how many, and the place behind them.
fn add_fraction(
    bytes: &[u8],
    start: usize,
    digits: &mut Vec<u8>,
) -> Result<(usize, usize), JsonFault>
    requires { start ≤ length bytes.now }
    ensures within { IfOk result (λ r. (start ≤ r.1) × (r.1 ≤ length bytes.now) × (r.0 ≤ r.1)) }
    ensures read { IfOk result (λ r. ReadsFraction bytes.now start r.1 r.0 digits.old.items digits.new.items) }
    ensures fault { IfErr result (λ e. (outer : List Frame) (spot : Spot) (n : Bool) →
        AfterWhole bytes.now start outer spot n digits.old.items → Leads e (scan bytes.now start outer spot)) }
{
    if !has_byte(bytes, start, b'.') {
        return Ok((0, start));
    }
    let first = digit_at(bytes, start + 1)?;
    digits.push(first)?;
    let at = add_digits(bytes, start + 2, digits)?;
    Ok((at - (start + 1), at))
}

/// The exponent so far with one digit more, up to the limit.
fn with_digit(written: u64, digit: u8) -> u64
    requires { digit < 10 }
    ensures { (w : ℕ) → written ≡ kept w → result ≡ kept (w * 10 + digit) }
{
    if written < WRITTEN_LIMIT / 10 {
        written * 10 + u64::from(digit)
    } else {
        WRITTEN_LIMIT
    }
}

/// The digits of an exponent as one whole, from a first one on, and the place behind them.
fn exponent_digits(bytes: &[u8], start: usize, first: u8) -> (u64, usize)
    requires within { start ≤ length bytes.now }
    requires digit { first < 10 }
    ensures within { (start ≤ result.1) × (result.1 ≤ length bytes.now) }
    ensures read { AddsExponent bytes.now start result.1 first result.0 }
    ensures past { FailsAt is_digit bytes.now result.1 }
{
    let mut written = u64::from(first);
    let mut at = start;
    while at < bytes.len() && is_digit_byte(bytes[at]) {
        written = with_digit(written, bytes[at] - b'0');
        at += 1;
    }
    (written, at)
}

/// An exponent, if a mark stands here: whether it is negative, its digits as one whole, and the place behind it.
fn exponent(bytes: &[u8], start: usize) -> Result<(bool, u64, usize), JsonFault>
    requires { start ≤ length bytes.now }
    ensures within { IfOk result (λ r. (start ≤ r.2) × (r.2 ≤ length bytes.now)) }
    ensures read { IfOk result (λ r. ReadsExponent bytes.now start r.2 r.0 r.1) }
    ensures fault { IfErr result (λ e. (outer : List Frame) (spot : Spot) (n : Bool) (ds fs : List ℕ) →
        MayEnd bytes.now start outer spot n ds fs → Leads e (scan bytes.now start outer spot)) }
{
    let Some(byte) = byte_at(bytes, start) else {
        return Ok((false, 0, start));
    };
    if !is_mark_byte(byte) {
        return Ok((false, 0, start));
    }
    let (down, at) = exponent_sign(bytes, start + 1);
    let first = digit_at(bytes, at)?;
    let (written, end) = exponent_digits(bytes, at + 1, first);
    Ok((down, written, end))
}

/// The sign of an exponent, if one stands here, and the place behind it.
fn exponent_sign(bytes: &[u8], start: usize) -> (bool, usize)
    requires { start ≤ length bytes.now }
    ensures within { (start ≤ result.1) × (result.1 ≤ length bytes.now) }
    ensures same { (outer : List Frame) (n : Bool) (ds fs : List ℕ) →
        scan bytes.now start outer (numeral (mark n ds fs))
        ≡ scan bytes.now result.1 outer (numeral (signed n ds fs result.0)) }
{
    if has_byte(bytes, start, b'+') {
        (false, start + 1)
    } else if has_byte(bytes, start, b'-') {
        (true, start + 1)
    } else {
        (false, start)
    }
}

/// An exponent of that size, up to the limit.
fn limited(size: u64) -> i64
    ensures { result ≡ pos (min size 1_000_000_000) }
{
    size.min(EXPONENT_LIMIT) as i64
}

/// The exponent of the last digit, where so many digits stand behind the point.
fn held_exponent(down: bool, written: u64, places: usize) -> i64
    requires { places < 2 ^ 63 }
    ensures { (w : ℕ) → written ≡ kept w → result ≡ exponent_of down w places }
{
    let places = places as u64;
    if down {
        -limited(written.min(EXPONENT_LIMIT) + places)
    } else if places <= written {
        limited(written - places)
    } else {
        -limited(places - written)
    }
}

/// A number behind its sign, and the place behind it.
pub fn number(
    alloc: Global,
    bytes: &[u8],
    start: usize,
    negative: bool,
) -> Result<(Number, usize), JsonFault>
    requires begins { negative ≡ false → FailsAt is_digit bytes.now start → ⊥ }
    ensures within { IfOk result (λ r. (start < r.1) × (r.1 ≤ length bytes.now)) }
    ensures read { IfOk result (λ r. Reads bytes.now start (begun negative) r.1 (number_value (decimal_of r.0))) }
    ensures fault { IfErr result (Breaks bytes.now start (begun negative)) }
{
    let mut digits = Vec::new(alloc);
    let at = add_whole(bytes, start, negative, &mut digits)?;
    let (places, at) = add_fraction(bytes, at, &mut digits)?;
    let (down, written, at) = exponent(bytes, at)?;
    let exponent = held_exponent(down, written, places);
    let number = Number {
        negative,
        digits,
        exponent,
    };
    Ok((number, at))
}
