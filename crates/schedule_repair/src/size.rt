//! How large a system is, by its cells.

ghost use Rattle.std.specs.Prelude.{◌*◌, ◌≤◌, ◌↔◌, IsTrue};
ghost use Rattle.uc_model.specs.Prelude.{thermal_count};

use uc_model::Instance;

/// A system of so few cells is small.
const FEW_CELLS: usize = 64;

/// Whether a system is small: a repair takes next to no time there, so that each ascent is repaired and any cell is kicked.
pub fn is_small(instance: &Instance) -> bool
    ensures { IsTrue result ↔ (thermal_count instance.now * instance.now.periods ≤ FEW_CELLS) }
{
    let units = instance.thermal.as_slice().len();
    units.saturating_mul(instance.periods as usize) <= FEW_CELLS
}
