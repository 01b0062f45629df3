//! Values of RFC 8259, section 3, and white space round them.

ghost use Rattle.std.specs.Prelude.{◌≡◌, ◌≢◌, ◌+◌, ◌<◌, ◌≤◌, Bool, true, false, [], length, map, IfOk, IfErr};
ghost use Rattle.decimal_json.specs.Value.{Value, items_of, members_of, array as array_value, object as object_value};
ghost use Rattle.decimal_json.specs.Characters.{is_space};
ghost use Rattle.decimal_json.specs.inside.Scan.{wanted, awaited, first_item, first_key, StandsAt, Reads, Breaks, ReadsValue, BreaksValue, ReadsInside, BreaksInside, HasKeys, knows};
ghost use Rattle.decimal_json.specs.View.{view, pair_view};

use crate::bytes::has_byte;
use crate::key::key;
use crate::number::{is_digit_byte, number};
use crate::text::text;
use crate::token::{Past, comma_or, token};
use crate::types::{Json, JsonFault, Pair, no_json};
use indexmap::IndexMap;
use std::alloc::Global;

/// The place behind the rest of a literal, of which these letters are left.
fn literal(bytes: &[u8], start: usize, letters: &[u8]) -> Result<usize, JsonFault>
    requires { start ≤ length bytes.now }
    ensures within { IfOk result (λ at. (start ≤ at) × (at ≤ length bytes.now)) }
    ensures read { IfOk result (λ at. (v : Value) →
        Reads bytes.now start (awaited v letters.now) at v) }
    ensures fault { IfErr result (λ e. (v : Value) →
        Breaks bytes.now start (awaited v letters.now) e) }
{
    let mut at = start;
    for letter in letters {
        if !has_byte(bytes, at, *letter) {
            return Err(no_json(at));
        }
        at += 1;
    }
    Ok(at)
}

/// A value that is no array and no object, from its first byte on.
fn scalar(alloc: Global, source: &str, start: usize, first: u8) -> Result<(Json, usize), JsonFault>
    requires stands { StandsAt source.now start first }
    requires within { start < length source.now }
    requires no_space { is_space first ≡ false }
    requires no_bracket { (first ≢ 91) × (first ≢ 123) }
    ensures within { IfOk result (λ r. (start < r.1) × (r.1 ≤ length source.now)) }
    ensures read { IfOk result (λ r. Reads source.now start wanted r.1 (view r.0)) }
    ensures fault { IfErr result (Breaks source.now start wanted) }
{
    let bytes = source.as_bytes();
    if is_digit_byte(first) {
        let (number, end) = number(alloc, bytes, start, false)?;
        return Ok((Json::Number(number), end));
    }
    match first {
        b'"' => {
            let (text, end) = text(alloc, source, start + 1)?;
            Ok((Json::Text(text), end))
        }
        b't' => Ok((Json::Bool(true), literal(bytes, start + 1, b"rue")?)),
        b'f' => Ok((Json::Bool(false), literal(bytes, start + 1, b"alse")?)),
        b'n' => Ok((Json::Null, literal(bytes, start + 1, b"ull")?)),
        b'-' => {
            let (number, end) = number(alloc, bytes, start + 1, true)?;
            Ok((Json::Number(number), end))
        }
        _ => Err(no_json(start)),
    }
}

/// How many levels may open inside a bracket at a place.
fn less_room(room: usize, at: usize) -> Result<usize, JsonFault>
    ensures less { IfOk result (λ less. less + 1 ≡ room) }
    ensures fault { IfErr result (λ e. (e ≡ JsonFault.At at 3) × (room ≡ 0)) }
{
    if room == 0 {
        return Err(JsonFault::At { at, kind: 3 });
    }
    Ok(room - 1)
}

/// A value, where so many levels more may open, and the place behind it. White space may stand before it.
#[cycle(value)]
pub fn value(
    alloc: Global,
    source: &str,
    start: usize,
    room: usize,
) -> Result<(Json, usize), JsonFault>
    requires { start ≤ length source.now }
    ensures within { IfOk result (λ r. (start < r.1) × (r.1 ≤ length source.now)) }
    ensures read { IfOk result (λ r. ReadsValue source.now start r.1 room (view r.0)) }
    ensures fault { IfErr result (BreaksValue source.now start room) }
{
    let (at, first) = token(source, start)?;
    match first {
        b'[' => {
            let less = less_room(room, at)?;
            let (mut items, end) = array(alloc, source, at + 1, less)?;
            items.shrink_to_fit();
            Ok((Json::Array(items), end))
        }
        b'{' => {
            let less = less_room(room, at)?;
            let (mut pairs, end) = object(alloc, source, at + 1, less)?;
            pairs.shrink_to_fit();
            Ok((Json::Object(pairs), end))
        }
        _ => scalar(alloc, source, at, first),
    }
}

/// The items of an array behind its first bracket, and the place behind the last.
#[cycle(value)]
fn array(
    alloc: Global,
    source: &str,
    start: usize,
    room: usize,
) -> Result<(Vec<Json>, usize), JsonFault>
    requires { start ≤ length source.now }
    ensures within { IfOk result (λ r. (start < r.1) × (r.1 ≤ length source.now)) }
    ensures read { IfOk result (λ r. ReadsInside source.now start first_item r.1 room
        (array_value (items_of (map view r.0.items)))) }
    ensures fault { IfErr result (BreaksInside source.now start first_item room) }
{
    let mut items = Vec::new(alloc);
    let (mut at, first) = token(source, start)?;
    if first == b']' {
        return Ok((items, at + 1));
    }
    loop {
        let (item, end) = value(alloc, source, at, room)?;
        items.push(item)?;
        match comma_or(source, end, b']')? {
            Past::Comma(next) => at = next,
            Past::Bracket(next) => return Ok((items, next)),
        }
    }
}

/// The members of an object behind its first bracket, where none is there yet, and the place behind the last.
#[cycle(value)]
fn members(
    alloc: Global,
    source: &str,
    start: usize,
    room: usize,
    pairs: &mut Vec<Pair>,
    places: &mut IndexMap<String, usize>,
) -> Result<usize, JsonFault>
    requires begun { start ≤ length source.now }
    requires empty { pairs.old.items ≡ [] }
    requires unknown { HasKeys (knows places.old) [] }
    ensures within { IfOk result (λ at. (start < at) × (at ≤ length source.now)) }
    ensures read { IfOk result (λ at. ReadsInside source.now start first_key at room
        (object_value (members_of (map pair_view pairs.new.items)))) }
    ensures fault { IfErr result (BreaksInside source.now start first_key room) }
{
    let (mut at, first) = token(source, start)?;
    if first == b'}' {
        return Ok(at + 1);
    }
    loop {
        let (key, colon) = key(alloc, source, at, places, pairs.len())?;
        let (value, end) = value(alloc, source, colon, room)?;
        pairs.push(Pair { key, value })?;
        match comma_or(source, end, b'}')? {
            Past::Comma(next) => at = next,
            Past::Bracket(next) => return Ok(next),
        }
    }
}

/// An object behind its first bracket, and the place behind the last. The keys and their places are kept in a map
/// beside it, so that each key is looked for once.
#[cycle(value)]
fn object(
    alloc: Global,
    source: &str,
    start: usize,
    room: usize,
) -> Result<(Vec<Pair>, usize), JsonFault>
    requires { start ≤ length source.now }
    ensures within { IfOk result (λ r. (start < r.1) × (r.1 ≤ length source.now)) }
    ensures read { IfOk result (λ r. ReadsInside source.now start first_key r.1 room
        (object_value (members_of (map pair_view r.0.items)))) }
    ensures fault { IfErr result (BreaksInside source.now start first_key room) }
{
    let mut pairs = Vec::new(alloc);
    let mut places = IndexMap::new(alloc);
    let end = members(alloc, source, start, room, &mut pairs, &mut places)?;
    Ok((pairs, end))
}
