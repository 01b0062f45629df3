//! The door for schedules over a denominator: what the feasibility check accepts goes through.

ghost use Rattle.std.specs.Prelude.{◌≡◌, true, IfSome, Some};
ghost use Rattle.uc_model.specs.Prelude.{IsLawfulInstance, HasShapeOf, printed_cost};
ghost use Rattle.schedule_check.specs.SizedNumbers.{HasSizedNumbers};
ghost use Rattle.found_schedule.specs.Found.{IsFound, IsObeying};

use schedule_check::check;
use uc_model::{Instance, Printed};

/// The cost, in micro-dollars, of a schedule of the instance's shape; none exactly where it breaks a rule. One that obeys has numbers that a
/// certificate can tell.
pub fn accepted(instance: &Instance, printed: &Printed) -> Option<i64>
    requires lawful { IsLawfulInstance instance.now }
    requires shape { HasShapeOf instance.now printed.now }
    requires sized { HasSizedNumbers printed.now }
    ensures found { IfSome result (IsFound true instance.now printed.now) }
    ensures all { IsObeying instance.now printed.now → result ≡ Some (printed_cost instance.now printed.now) }
{
    match check(instance, printed) {
        Ok(cost) => Some(cost),
        Err(_) => None,
    }
}
