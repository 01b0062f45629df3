//! A value with its place, so that a fault in it can be told.

ghost use Rattle.std.specs.Prelude.{◌≡◌, ◌≤◌, length, take, map, IfOk};
ghost use Rattle.decimal_json.specs.View.{view, pair_view};
ghost use Rattle.instance.specs.FirstFault.{MAX_UNITS, whole, field_at, object_at, array_at, entries_at, rows_at, units_at, entries_field, members_field};
ghost use Rattle.instance.specs.Answer.{Gives};

use crate::fault::{MISSING, OTHER_KIND, OUT_OF_RANGE, Place, PlacedFault, TOO_MANY, TOO_SHORT};
use crate::key::key;
use crate::object;
use decimal_json::{Json, Pair};
use uc_model::Field;
use uc_model::limits::MAX_UNITS;

/// A value with its place.
#[derive(Clone, Copy)]
pub(crate) struct PlacedValue<'a> {
    pub(crate) value: &'a Json,
    pub(crate) place: Place,
}

/// The value of a field of an object.
pub(crate) fn field_at(members: &[Pair], place: Place) -> Result<PlacedValue<'_>, PlacedFault>
    ensures read { Gives (λ placed. view placed.value.now) result (field_at place (map pair_view members.now)) }
    ensures place { IfOk result (λ placed. placed.place ≡ place) }
{
    match object::member(members, key(place.field)) {
        Some(value) => Ok(PlacedValue { value, place }),
        None => Err(place.refused(MISSING)),
    }
}

/// The value of a field that is looked at as a whole.
pub(crate) fn field(members: &[Pair], field: Field) -> Result<PlacedValue<'_>, PlacedFault>
    ensures read { Gives (λ placed. view placed.value.now) result (field_at (whole field) (map pair_view members.now)) }
    ensures place { IfOk result (λ placed. placed.place ≡ whole field) }
{
    field_at(members, Place::whole(field))
}

impl<'a> PlacedValue<'a> {
    /// The members, where the value is to be an object.
    pub(crate) fn object(self) -> Result<&'a [Pair], PlacedFault>
        ensures { Gives (λ ms. map pair_view ms.now) result (object_at self.entry.place (view self.entry.value.now)) }
    {
        match object::members(self.value) {
            Some(members) => Ok(members),
            None => Err(self.place.refused(OTHER_KIND)),
        }
    }

    /// The entries, where the value is to be an array.
    fn array(self) -> Result<&'a [Json], PlacedFault>
        ensures { Gives (λ vs. map view vs.now) result (array_at self.entry.place (view self.entry.value.now)) }
    {
        match object::entries(self.value) {
            Some(entries) => Ok(entries),
            None => Err(self.place.refused(OTHER_KIND)),
        }
    }
}

/// The entries of a field that is an array, up to the last period.
#[tactic(auto, using(crate::proofs::Lists::taking), unfolding(crate::specs::FirstFault::entries_at))]
pub(crate) fn entries(members: &[Pair], field: Field, periods: u32) -> Result<&[Json], PlacedFault>
    ensures read { Gives (λ vs. map view vs.now) result (entries_at field periods (map pair_view members.now)) }
    ensures listed { IfOk result (λ vs. map view vs.now ≡ take periods (entries_field field (map pair_view members.now))) }
    ensures length { IfOk result (λ vs. length vs.now ≡ periods) }
{
    let place = Place::whole(field);
    let entries = field_at(members, place)?.array()?;
    let periods = periods as usize;
    if entries.len() < periods {
        return Err(place.refused(TOO_SHORT));
    }
    Ok(&entries[..periods])
}

/// The rows of a list of at least one and at most so many.
#[tactic(auto, unfolding(crate::specs::FirstFault::rows_at))]
pub(crate) fn rows(members: &[Pair], field: Field, most: usize) -> Result<&[Json], PlacedFault>
    ensures read { Gives (λ vs. map view vs.now) result (rows_at field most (map pair_view members.now)) }
    ensures listed { IfOk result (λ vs. map view vs.now ≡ entries_field field (map pair_view members.now)) }
    ensures length { IfOk result (λ vs. length vs.now ≤ most) }
{
    let place = Place::whole(field);
    let rows = field_at(members, place)?.array()?;
    if rows.is_empty() {
        return Err(place.refused(OUT_OF_RANGE));
    }
    if rows.len() > most {
        return Err(place.refused(TOO_MANY));
    }
    Ok(rows)
}

/// The units of a field, as names with records.
#[tactic(auto, unfolding(crate::specs::FirstFault::units_at))]
pub(crate) fn units(members: &[Pair], field: Field) -> Result<&[Pair], PlacedFault>
    ensures read { Gives (λ ms. map pair_view ms.now) result (units_at field (map pair_view members.now)) }
    ensures listed { IfOk result (λ ms. map pair_view ms.now ≡ members_field field (map pair_view members.now)) }
    ensures length { IfOk result (λ ms. length ms.now ≤ MAX_UNITS) }
{
    let place = Place::whole(field);
    let units = field_at(members, place)?.object()?;
    if units.len() > MAX_UNITS {
        return Err(place.refused(TOO_MANY));
    }
    Ok(units)
}
