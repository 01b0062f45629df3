//! Quotients of whole numbers, rounded to a whole number.
ghost use Rattle.std.specs.Prelude.{pos, ◌<ℤ◌};
ghost use Rattle.uc_model.specs.Division.{IsCeiling, IsFloor};

/// `a / b` for a positive `b`, rounded toward minus infinity. No quotient overflows.
pub fn floor_div(a: i128, b: i128) -> i128
    requires { pos 0 <ℤ b }
    ensures { IsFloor a b result }
{
    a.div_euclid(b)
}

/// `a / b` for a positive `b`, rounded toward plus infinity. No quotient overflows.
pub fn ceil_div(a: i128, b: i128) -> i128
    requires { pos 0 <ℤ b }
    ensures { IsCeiling a b result }
{
    let floor = a.div_euclid(b);
    if a.rem_euclid(b) == 0 {
        floor
    } else {
        floor + 1
    }
}
