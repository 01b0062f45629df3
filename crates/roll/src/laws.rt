//! Laws of rolling windows, each the contract of a function with an empty body.

ghost use Rattle.std.specs.Prelude.{◌≡◌, ℕ, ◌+◌};
ghost use Rattle.uc_model.specs.Prelude.{IsLawfulInstance};
ghost use Rattle.roll.specs.FirstPeriods.{Instance, first_periods};
ghost use Rattle.roll.specs.Kept.{IsKept, Printed, PrintedObeys};
ghost use Rattle.roll.specs.Stitched.{IsContinuation, IsStitched};

/// A schedule that is stitched of what is kept and of a schedule of the window behind it obeys every rule of the periods that
/// it has: the minimum times, the stop cap and the ramps over the border too.
pub fn stitched_schedules_obey()
    ensures { (instance : Instance) (m n : ℕ) (kept shown stitched : Printed) → IsLawfulInstance instance
        → IsKept instance m kept → IsContinuation instance kept m n shown → IsStitched instance m n kept shown stitched
        → PrintedObeys (first_periods (m + n) instance) stitched }
{}

/// An instance cut to all of its periods is the instance.
pub fn all_periods_are_the_instance()
    ensures { (instance : Instance) → IsLawfulInstance instance → first_periods instance.periods instance ≡ instance }
{}
