//! Where each unit's ramp rows begin.

ghost use Rattle.std.specs.Prelude.{◌≡◌, ℕ, suc, length, slice_index_or, IfOk};
ghost use Rattle.dual_model.specs.Prices.{ArePlacesOf, AreRising};

use crate::table::RampRow;
use std::alloc::Global;
use uc_model::{List, NoMemory};

/// For each unit up to the last that has a row, how many rows the units before it have. It answers `NoMemory` only where
/// memory is refused, and asks for it once.
pub(crate) fn places_of(alloc: Global, rows: &[RampRow]) -> Result<List<usize>, NoMemory>
    requires { AreRising rows.now }
    ensures { IfOk result (λ places. ArePlacesOf places rows.now) }
{
    let mut places = Vec::with_capacity(alloc, placed_units(rows))?;
    for place in 0..rows.len() {
        places.resize(rows[place].g as usize + 1, place)?;
    }
    Ok(List::from_vec(places))
}

// How many units there are up to the last that has a row.
fn placed_units(rows: &[RampRow]) -> usize
    ensures none { length rows.now ≡ 0 → result ≡ 0 }
    ensures some { (i : ℕ) (d : RampRow) → length rows.now ≡ suc i → result ≡ suc (slice_index_or rows.now i d).g }
{
    let count = rows.len();
    if count == 0 {
        return 0;
    }
    rows[count - 1].g as usize + 1
}
