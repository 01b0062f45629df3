//! Keys of RFC 8259, section 4.

ghost use Rattle.std.specs.Prelude.{◌≡◌, ◌+◌, ◌<◌, ◌≤◌, not, length, IfOk, IfErr, OnOk};
ghost use Rattle.std.specs.String.{string_bytes};
ghost use Rattle.decimal_json.specs.inside.Scan.{knows, AddsKey, ReadsKey, BreaksKey};

use crate::text::text;
use crate::token::token_wanted;
use crate::types::JsonFault;
use indexmap::IndexMap;
use std::alloc::{AllocError, Global};

/// Notes the place of a key, and whether the key is new.
fn note_key(
    places: &mut IndexMap<String, usize>,
    key: &String,
    place: usize,
) -> Result<bool, AllocError>
    ensures fresh { IfOk result (λ fresh. fresh ≡ not (knows places.old (string_bytes key.now))) }
    ensures known { OnOk result (AddsKey (knows places.old) (knows places.new) (string_bytes key.now)) }
{
    let old = places.insert(key.clone()?, place)?;
    Ok(old.is_none())
}

/// A key and its colon, and the place behind them. White space may stand round each.
pub fn key(
    alloc: Global,
    source: &str,
    start: usize,
    places: &mut IndexMap<String, usize>,
    place: usize,
) -> Result<(String, usize), JsonFault>
    requires { start ≤ length source.now }
    ensures within { IfOk result (λ r. (start < r.1) × (r.1 ≤ length source.now)) }
    ensures read { IfOk result (λ r.
        ReadsKey (knows places.old) source.now start r.1 (string_bytes r.0)) }
    ensures known { IfOk result (λ r.
        AddsKey (knows places.old) (knows places.new) (string_bytes r.0)) }
    ensures fault { IfErr result (BreaksKey (knows places.old) source.now start) }
{
    let quote = token_wanted(source, start, b'"')?;
    let (key, end) = text(alloc, source, quote + 1)?;
    if !note_key(places, &key, place)? {
        return Err(JsonFault::At { at: quote, kind: 4 });
    }
    let colon = token_wanted(source, end, b':')?;
    Ok((key, colon + 1))
}
