//! What the ramp rules of a unit add to a node's value, whatever its pattern.

ghost use Rattle.std.specs.Prelude.{◌≡◌, ◌^◌, ◌≤◌, ◌-ℤ◌, ◌*ℤ◌, neg_ℤ, length, unsigned_abs};
ghost use Rattle.uc_model.specs.Prelude.{initial_p, IsLawfulThermal};
ghost use Rattle.dual_model.specs.Prelude.{unit_constant, IsWithinLimits};
ghost use Rattle.ramp_duals.specs.Sizes.{MAX_CONSTANT};

use crate::multipliers::{Multipliers, following, multipliers_of};
use crate::wide::{gap, priced, wide};
use dual_model::Table;
use uc_model::limits::{MAX_PERIODS, MAX_POWER};
use uc_model::{Thermal, difference, product, sum};

/// The constant of thermal unit `g`, from 0: minus the multipliers times the ramp limits over the periods, and what
/// the first period's put on the initial output; at the scale of the table.
pub fn constant(table: &Table, unit: &Thermal, g: u32) -> i128
    requires lawful { IsLawfulThermal unit.now }
    requires periods { length table.now.pi ≤ MAX_PERIODS }
    ensures value { result ≡ unit_constant (length table.now.pi) table.now unit.now g }
    ensures size { IsWithinLimits table.now → unsigned_abs result ≤ MAX_CONSTANT }
{
    let ramps = table.unit_rows(g);
    let first = multipliers_of(ramps, g, 0);
    let mut now = first;
    let mut total = 0_i128;
    for t in 0..table.pi().len() {
        total = sum(total, ramp_part(unit, &now));
        now = following(ramps, g, t, now);
    }
    sum(total, initial_part(unit, &first))
}

// Minus the multipliers of a period times the ramp limits.
fn ramp_part(unit: &Thermal, now: &Multipliers) -> i128
    requires { IsLawfulThermal unit.now }
    ensures value { result ≡ neg_ℤ (now.now.up *ℤ unit.now.ru) -ℤ now.now.down *ℤ unit.now.rd }
    ensures size { unsigned_abs result ≤ 2 ^ 108 }
{
    let rise = priced(now.up, unit.ru);
    let fall = priced(now.down, unit.rd);
    difference(0, sum(rise, fall))
}

// What the first period's multipliers put on the initial output.
fn initial_part(unit: &Thermal, first: &Multipliers) -> i128
    requires { IsLawfulThermal unit.now }
    ensures value { result ≡ (first.now.down -ℤ first.now.up) *ℤ initial_p unit.now }
    ensures size { unsigned_abs result ≤ 2 ^ 110 }
{
    product(gap(first.down, first.up), wide(unit.initial_output()))
}
