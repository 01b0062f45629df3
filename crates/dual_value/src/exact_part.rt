//! What one thermal unit adds to a node's exact value, which keeps the unit's ramps.

ghost use Rattle.std.specs.Prelude.{◌≡◌, ◌<◌, ◌≤◌, ◌+ℤ◌, true, int_lt, IfErr, IfOk, length, unsigned_abs, if◌then◌else◌};
ghost use Rattle.cost_curves.specs.LowerHull.{IsLowerHull};
ghost use Rattle.uc_model.specs.Prelude.{IsLawfulInstance, commitment_of, thermal_count, thermal_unit};
ghost use Rattle.dual_model.specs.Prelude.{IsFixOf, constant_at, HasSizeOf, IsWithinLimits, AreTermsOf, AreSizedTerms, IsBestPattern};
ghost use Rattle.dual_model.specs.declared.node.Node.{Node};
ghost use Rattle.dual_value.specs.NodeAnswer.{IsExactPartOf, IsPartFault, MAX_PART};
ghost use Rattle.dual_value.specs.inside.Parts.{IsSizedPart};

use crate::valued::ValueFault;
use cost_curves::Curve;
use dual_model::Table;
use uc_model::{Instance, Pattern, sum};
use unit_exact::{Exact, Plain, keeps_ramps, least};

/// What a unit adds where ramps are priced: its value, its constant, and how the value was found.
#[derive(Clone, Copy)]
pub(crate) struct Priced<'a> {
    pub(crate) value: i128,
    pub(crate) constant: i128,
    pub(crate) plain: Plain<'a>,
}

impl Priced<'_> {
    /// The value with the constant.
    pub(crate) fn part(&self) -> i128
        requires { IsSizedPart self.now }
        ensures value { result ≡ self.now.value +ℤ self.now.constant }
        ensures size { unsigned_abs result ≤ MAX_PART }
    {
        sum(self.value, self.constant)
    }
}

/// The greater of the exact value of thermal unit `g`, from 0, and of what it adds where ramps are priced, with the pattern of
/// either. `Empty(g)` exactly where the unit has no schedule of its own.
pub(crate) fn part_with_ramps(
    exact: &mut Exact,
    instance: &Instance,
    curve: &Curve,
    table: &Table,
    g: u32,
    priced: &Priced,
) -> Result<(i128, Pattern), ValueFault>
    requires lawful { IsLawfulInstance instance.now }
    requires unit { g < thermal_count instance.now }
    requires curve { IsLowerHull (thermal_unit instance.now g).points curve.now }
    requires table { HasSizeOf instance.now table.now }
    requires limits { IsWithinLimits table.now }
    requires periods { exact.old.periods ≡ instance.now.periods }
    requires points { length (thermal_unit instance.now g).points ≤ exact.old.points }
    requires terms { AreTermsOf instance.now table.now g priced.now.plain.terms.now }
    requires sized { AreSizedTerms (thermal_unit instance.now g) priced.now.plain.terms.now }
    requires constant { priced.now.constant ≡ constant_at instance.now table.now g }
    requires numbers { IsSizedPart priced.now }
    ensures kept { exact.new ≡ exact.old }
    ensures part { (node : Node) → IsFixOf instance.now.periods node g priced.now.plain.fix.now
        → IsBestPattern instance.now node table.now g (commitment_of priced.now.plain.pattern.now) priced.now.value
        → IfOk result (λ part. IsExactPartOf instance.now node table.now g part.0 part.1) }
    ensures fault { (node : Node) → IsFixOf instance.now.periods node g priced.now.plain.fix.now
        → IfErr result (IsPartFault true instance.now node g) }
    ensures size { IfOk result (λ part. unsigned_abs part.0 ≤ MAX_PART) }
{
    let part = priced.part();
    let plain = &priced.plain;
    if priced.constant >= 0 && keeps_ramps(exact, instance, curve, table, g, plain) {
        return Ok((part, *plain.pattern));
    }
    match least(exact, instance, curve, table, g, plain.fix) {
        None => Err(ValueFault::Empty(g)),
        Some((value, pattern)) => Ok(greater(value, pattern, part, *plain.pattern)),
    }
}

// The greater of both, with its pattern.
fn greater(value: i128, pattern: Pattern, part: i128, other: Pattern) -> (i128, Pattern)
    ensures { result ≡ if int_lt part value then (value, pattern) else (part, other) }
{
    if value > part {
        (value, pattern)
    } else {
        (part, other)
    }
}
