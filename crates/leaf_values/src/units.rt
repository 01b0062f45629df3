//! The thermal units of an instance by their numbers.

ghost use Rattle.std.specs.Prelude.{◌≡◌, ◌<◌};
ghost use Rattle.uc_model.specs.Prelude.{thermal_count, thermal_unit};

use uc_model::{Instance, Thermal};

/// Thermal unit `g`, from 0.
pub(crate) fn unit_of(instance: &Instance, g: usize) -> &Thermal
    requires { g < thermal_count instance.now }
    ensures { result.now ≡ thermal_unit instance.now g }
{
    &instance.thermal.as_slice()[g]
}
