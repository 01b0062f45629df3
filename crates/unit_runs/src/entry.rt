//! The output from which a run rises or falls.

ghost use Rattle.std.specs.Prelude.{◌≡◌, ◌*◌, ◌≤◌, unsigned_abs};
ghost use Rattle.uc_model.specs.Prelude.{IsLawfulThermal};
ghost use Rattle.unit_runs.specs.Runs.{entry_output as output_at_entry};

use uc_model::Thermal;
use uc_model::limits::MAX_POWER;

/// The output above the minimum, in watts, before a run that begins in period `t` (from 0): a start comes from none, and before the
/// first period it is given.
pub fn entry_output(unit: &Thermal, t: usize) -> i64
    requires { IsLawfulThermal unit.now }
    ensures value { result ≡ output_at_entry unit.now t }
    ensures size { unsigned_abs result ≤ 2 * MAX_POWER }
{
    if t == 0 { unit.initial_output() } else { 0 }
}
