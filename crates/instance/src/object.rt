//! The parts of a JSON value: an array's entries, an object's members, and one of them by its name.

ghost use Rattle.std.specs.Prelude.{◌≡◌, map, MatchOption, Some, None};
ghost use Rattle.decimal_json.specs.View.{view, pair_view, decimal_of};
ghost use Rattle.instance.specs.Fields.{number_in, entries_in, pairs_in, field_of};

use decimal_json::{Json, Number, Pair};

/// The number, where a value is one.
#[tactic(auto, using(crate::proofs::Views::view_number))]
pub(crate) fn number(value: &Json) -> Option<&Number>
    ensures { MatchOption result (number_in (view value.now) ≡ None) (λ n. number_in (view value.now) ≡ Some (decimal_of n.now)) }
{
    match value {
        Json::Number(number) => Some(number),
        _ => None,
    }
}

/// The entries, where a value is an array.
#[tactic(auto, using(crate::proofs::Views::view_array, crate::proofs::Views::entries_again))]
pub(crate) fn entries(value: &Json) -> Option<&[Json]>
    ensures { MatchOption result (entries_in (view value.now) ≡ None) (λ vs. entries_in (view value.now) ≡ Some (map view vs.now)) }
{
    match value {
        Json::Array(entries) => Some(entries.as_slice()),
        _ => None,
    }
}

/// The members, where a value is an object.
#[tactic(auto, using(crate::proofs::Views::view_object, crate::proofs::Views::pairs_again))]
pub(crate) fn members(value: &Json) -> Option<&[Pair]>
    ensures { MatchOption result (pairs_in (view value.now) ≡ None) (λ ms. pairs_in (view value.now) ≡ Some (map pair_view ms.now)) }
{
    match value {
        Json::Object(members) => Some(members.as_slice()),
        _ => None,
    }
}

/// The value of the first member with a key.
pub(crate) fn member<'a>(members: &'a [Pair], key: &str) -> Option<&'a Json>
    ensures { MatchOption result (field_of key.now (map pair_view members.now) ≡ None) (λ v. field_of key.now (map pair_view members.now) ≡ Some (view v.now)) }
{
    for pair in members {
        if pair.key.as_str() == key {
            return Some(&pair.value);
        }
    }
    None
}
