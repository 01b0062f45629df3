//! How far the lower bound of a finished search may stay below its cost.
ghost use Rattle.std.specs.Prelude.{◌≡◌, ℕ, ◌≤◌, ℤ, pos, ◌-ℤ◌, ◌≤ℤ◌};
ghost use Rattle.uc_model.specs.Tolerance.{tolerance_of};

/// One as a number of parts per million: the greatest gap.
pub const WHOLE_GAP: u32 = 1_000_000;

/// `gap` parts per million of the size of `cost`, rounded down, in the cost's unit.
pub fn tolerance(cost: i64, gap: u32) -> u64
    requires { gap ≤ WHOLE_GAP }
    ensures { result ≡ tolerance_of cost gap }
{
    let parts = u128::from(cost.unsigned_abs()) * u128::from(gap);
    (parts / u128::from(WHOLE_GAP)) as u64
}

/// A law of the tolerance, with nothing to run: the cost less its tolerance never decreases as the
/// cost grows. So a bound within the tolerance of one cost is within that of each lesser cost.
pub fn cost_less_tolerance_never_decreases()
    ensures { (low high : ℤ) (gap : ℕ) → gap ≤ WHOLE_GAP → low ≤ℤ high
        → (low -ℤ pos (tolerance_of low gap)) ≤ℤ (high -ℤ pos (tolerance_of high gap)) }
{}
