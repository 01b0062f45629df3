//! Fractions in lowest terms, and least common multiples.
ghost use Rattle.std.specs.Prelude.{◌≡◌, ℕ, ◌^◌, ◌<◌, ◌≤◌, ◌<ℤ◌, pos, unsigned_abs, IfOk, IfErr, OnOk};
ghost use Rattle.pivot_run.specs.Prelude.{IsNarrow, IsWide};
ghost use Rattle.fractions.specs.Fractions.{JoinForms, joined, lowest as in_lowest_terms};

use pivot_run::{Wide, common_divisor, product, quotient};

/// A fraction in lowest terms: no number above 1 divides both.
#[derive(Debug, Clone, Copy)]
pub struct Fraction {
    pub numerator: i128,
    /// Above 0.
    pub denominator: i128,
}

impl Fraction {
    /// The numerator over the denominator, in lowest terms.
    pub fn lowest(numerator: &i128, denominator: &i128) -> Fraction
        requires positive { pos 0 <ℤ denominator.now }
        requires small { unsigned_abs numerator.now < 2 ^ 127 }
        ensures value { result ≡ in_lowest_terms numerator.now denominator.now }
        ensures size { unsigned_abs result.numerator ≤ unsigned_abs numerator.now }
    {
        let divisor = common_divisor(&[*numerator, *denominator]);
        Fraction {
            numerator: quotient(numerator, divisor),
            denominator: quotient(denominator, divisor),
        }
    }
}

/// The least common multiple of two numbers above 0, or the two factors of it whose product is too large.
pub fn least_multiple(first: &i128, second: &i128) -> Result<i128, Wide>
    requires first { pos 0 <ℤ first.now }
    requires second { pos 0 <ℤ second.now }
    ensures value { IfOk result (λ z. z ≡ joined first.now second.now) }
    ensures narrow { OnOk result (IsNarrow (JoinForms first.now second.now)) }
    ensures wide { IfErr result (λ wide. JoinForms first.now second.now wide.size wide.other × IsWide wide.size wide.other) }
{
    let divisor = common_divisor(&[*first, *second]);
    product(first, &quotient(second, divisor))
}
