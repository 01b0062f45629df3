//! The limits on what is missing of demand and reserve: M16 and M17.

ghost use Rattle.std.specs.Prelude.{◌≡◌, ◌&&◌, ◌||◌, nat_lt, int_le, pos, length};
ghost use Rattle.std.specs.Int.{int_max};
ghost use Rattle.std.specs.Ordering.{int_eq};
ghost use Rattle.uc_model.specs.Prelude.{IsLawfulInstance, HasShapeOf};
ghost use Rattle.schedule_check.specs.inside.Failures.{IsFirstFailure};
ghost use Rattle.schedule_check.specs.WholeWatts.{is_shortage_within, over, shed_holds, short_holds};

use crate::limits::is_at_most;
use uc_model::{Instance, Printed};

/// The first period in which the demand that stays unserved is out of its range.
pub(crate) fn first_shed(instance: &Instance, printed: &Printed) -> Option<usize>
    requires lawful { IsLawfulInstance instance.now }
    requires shape { HasShapeOf instance.now printed.now }
    ensures { IsFirstFailure instance.now.periods (shed_holds (over printed.now.denominator) instance.now printed.now) result }
{
    first_outside(
        printed.denominator,
        instance.a,
        instance.demand.as_slice(),
        printed.shed.as_slice(),
    )
}

/// The first period in which the reserve that is missing is out of its range.
pub(crate) fn first_short(instance: &Instance, printed: &Printed) -> Option<usize>
    requires lawful { IsLawfulInstance instance.now }
    requires shape { HasShapeOf instance.now printed.now }
    ensures { IsFirstFailure instance.now.periods (short_holds (over printed.now.denominator) instance.now printed.now) result }
{
    first_outside(
        printed.denominator,
        instance.b,
        instance.reserves.as_slice(),
        printed.short.as_slice(),
    )
}

// The first period in which what is missing of a need is out of its range.
fn first_outside(denominator: u8, price: u32, needs: &[i64], missing: &[i64]) -> Option<usize>
    requires { length needs.now ≡ length missing.now }
    ensures { IsFirstFailure (length missing.now) (is_shortage_within (over denominator) price needs.now missing.now) result }
{
    for t in 0..missing.len() {
        if !is_within(denominator, price, needs[t], missing[t]) {
            return Some(t);
        }
    }
    None
}

// Whether what is missing of a need isn't below 0 nor above the need, and is 0 where it has no price.
fn is_within(denominator: u8, price: u32, need: i64, missing: i64) -> bool
    ensures { result ≡ (int_le (pos 0) missing && int_le missing (over denominator (int_max need (pos 0))) && (nat_lt 0 price || int_eq missing (pos 0))) }
{
    let most = need.max(0);
    0 <= missing && is_at_most(denominator, missing, most) && (price > 0 || missing == 0)
}
