//! Whether a unit has a pattern at a node at all.

ghost use Rattle.std.specs.Prelude.{◌≡◌, ℕ, ◌<◌, ◌≤◌, ◌↔◌, IfOk, IsTrue};
ghost use Rattle.uc_model.specs.Prelude.{IsLawfulInstance, IsLawfulThermal, thermal_count, period_count};
ghost use Rattle.dual_model.specs.Prelude.{IsFixOf, AreSizedTerms};
ghost use Rattle.dual_model.specs.Fixings.{HasNoPattern};
ghost use Rattle.dual_model.specs.declared.node.Node.{Node};

use crate::units::unit_of;
use cost_curves::Curve;
use dual_model::Fix;
use period_term::terms;
use state_walk::{Walk, least};
use std::alloc::Global;
use uc_model::limits::MAX_PERIODS;
use uc_model::{Instance, NoMemory, Terms, Thermal};

/// Whether thermal unit `g`, from 0, has no allowed pattern that is as `fix` decides. Prices play no part in it: the
/// walk is at the scale 0, at which each pattern costs nothing. The only error is `NoMemory`.
pub fn is_empty(
    alloc: Global,
    walk: &mut Walk,
    instance: &Instance,
    g: u32,
    fix: &Fix,
) -> Result<bool, NoMemory>
    requires lawful { IsLawfulInstance instance.now }
    requires unit { g < thermal_count instance.now }
    requires room { walk.old ≡ instance.now.periods }
    ensures kept { walk.new ≡ walk.old }
    ensures empty { (node : Node) → IsFixOf instance.now.periods node g fix.now
        → IfOk result (λ empty. IsTrue empty ↔ HasNoPattern instance.now node g) }
{
    let unit = unit_of(instance, g as usize);
    let terms = free_terms(alloc, unit, instance.periods as usize)?;
    Ok(least(walk, &terms, unit, fix).is_none())
}

// The terms of a unit at the scale 0, where all prices are 0.
fn free_terms(alloc: Global, unit: &Thermal, periods: usize) -> Result<Terms, NoMemory>
    requires lawful { IsLawfulThermal unit.now }
    requires periods { (1 ≤ periods) × (periods ≤ MAX_PERIODS) }
    ensures sized { IfOk result (AreSizedTerms unit.now) }
    ensures periods { IfOk result (λ terms. period_count terms ≡ periods) }
{
    let rows = vec![in alloc; (0_i128, 0_i128, 0_i128); periods]?;
    let curve = Curve::of(alloc, unit.points.as_slice())?;
    terms(alloc, unit, &curve, 0, &rows)
}
