//! The curves of an instance's thermal units.

ghost use Rattle.std.specs.Prelude.{IfOk};
ghost use Rattle.uc_model.specs.Prelude.{IsLawfulInstance};
ghost use Rattle.cost_curves.specs.UnitCurves.{AreCurvesOf};

use crate::curve::Curve;
use std::alloc::Global;
use uc_model::{Instance, NoMemory};

/// The curve of each thermal unit. The only error is `NoMemory`.
pub fn curves_of(alloc: Global, instance: &Instance) -> Result<Vec<Curve>, NoMemory>
    requires { IsLawfulInstance instance.now }
    ensures { IfOk result (λ curves. AreCurvesOf instance.now curves.items) }
{
    let units = instance.thermal.as_slice();
    let mut curves = Vec::new(alloc);
    for unit in units {
        curves.push(Curve::of(alloc, unit.points.as_slice())?)?;
    }
    Ok(curves)
}
