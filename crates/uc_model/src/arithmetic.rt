//! Sums, differences and products of whole numbers that fit 128 bits.
ghost use Rattle.std.specs.Prelude.{◌≡◌, ◌+◌, ◌*◌, ◌^◌, ◌<◌, ◌+ℤ◌, ◌-ℤ◌, ◌*ℤ◌, unsigned_abs};

/// The sum of two numbers.
pub fn sum(left: i128, right: i128) -> i128
    requires { unsigned_abs left + unsigned_abs right < 2 ^ 127 }
    ensures { result ≡ left +ℤ right }
{
    left + right
}

/// What is left of a number when another is taken away.
pub fn difference(left: i128, right: i128) -> i128
    requires { unsigned_abs left + unsigned_abs right < 2 ^ 127 }
    ensures { result ≡ left -ℤ right }
{
    left - right
}

/// The product of two numbers.
pub fn product(left: i128, right: i128) -> i128
    requires { unsigned_abs left * unsigned_abs right < 2 ^ 127 }
    ensures { result ≡ left *ℤ right }
{
    left * right
}

/// The product of two numbers of 64 bits, which always fits.
pub fn scaled(scale: i64, number: i64) -> i128
    ensures { result ≡ scale *ℤ number }
{
    i128::from(scale) * i128::from(number)
}
