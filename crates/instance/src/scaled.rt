//! The scaled number of a JSON number: its value in whole millionths.

ghost use Rattle.std.specs.Prelude.{◌≡◌, ◌+◌, ◌*◌, ◌%◌, ◌^◌, ◌<◌, min, nat_le};
ghost use Rattle.decimal_json.specs.View.{decimal_of};
ghost use Rattle.decimal_json.specs.Value.{whole_of};
ghost use Rattle.instance.specs.Scaled.{places_past, places_before, kept_digits, cut_digits, seventh_digit, size_of, is_rounded, held};

use decimal_json::Number;

/// Millionths in a whole.
pub(crate) const MILLION: u64 = 1_000_000;

/// From here on a size stands as this number with the last six digits of the size, which tell whether it
/// is whole. It is past every limit of an instance.
const HELD: u64 = 100_000_000_000_000;

/// The size of a number's scaled number, held.
#[tactic(auto, using(crate::proofs::Sizes::held_small, crate::proofs::Sizes::held_carry, crate::proofs::Sizes::held_places), unfolding(crate::specs::Scaled::size_of))]
pub(crate) fn scaled_size(number: &Number) -> u64
    ensures { result ≡ held (size_of (decimal_of number.now)) }
{
    let (kept, cut) = split(number);
    let size = shifted(kept, places_before(number.exponent));
    if carries(number, cut) {
        hold(size + 1)
    } else {
        size
    }
}

/// Whether a digit past the sixth decimal isn't 0.
#[tactic(auto, unfolding(crate::specs::Scaled::is_rounded))]
pub(crate) fn rounds(number: &Number) -> bool
    ensures { result ≡ is_rounded (decimal_of number.now) }
{
    let (_, cut) = split(number);
    cut.iter().any(|digit| *digit > 0)
}

/// The digits through the sixth decimal, and those past it.
fn split(number: &Number) -> (&[u8], &[u8])
    ensures kept { result.0.now ≡ kept_digits (decimal_of number.now) }
    ensures cut { result.1.now ≡ cut_digits (decimal_of number.now) }
{
    let digits = number.digits.as_slice();
    let past = places_past(number.exponent);
    if past > digits.len() as u64 {
        digits.split_at(0)
    } else {
        digits.split_at(digits.len() - past as usize)
    }
}

fn places_past(exponent: i64) -> u64
    ensures { result ≡ places_past exponent }
{
    if exponent < -6 {
        exponent.unsigned_abs() - 6
    } else {
        0
    }
}

/// At most 26: from there on a size that isn't 0 is held as a whole one.
fn places_before(exponent: i64) -> u64
    ensures { result ≡ min (places_before exponent) 26 }
{
    if exponent < -6 {
        0
    } else if exponent < 20 {
        (exponent + 6) as u64
    } else {
        26
    }
}

/// A number that went past what a size is held at.
fn hold(size: u64) -> u64
    ensures { result ≡ held size }
{
    if size < HELD {
        size
    } else {
        HELD + size % MILLION
    }
}

/// The held size of digits, read as one whole, with as many zeros behind them.
#[tactic(auto, using(crate::proofs::Sizes::held_small, crate::proofs::Sizes::held_ten))]
fn shifted(digits: &[u8], zeros: u64) -> u64
    ensures { result ≡ held (whole_of digits.now * 10 ^ zeros) }
{
    let mut size = 0;
    'digits: for digit in digits {
        size = hold(size * 10 + u64::from(*digit));
    }
    'zeros: for _ in 0..zeros {
        size = hold(size * 10);
    }
    size
}

/// Whether the seventh decimal digit is 5 or more, where these are the digits past the sixth.
fn carries(number: &Number, cut: &[u8]) -> bool
    requires { cut.now ≡ cut_digits (decimal_of number.now) }
    ensures { result ≡ nat_le 5 (seventh_digit (decimal_of number.now)) }
{
    if places_past(number.exponent) > number.digits.len() as u64 {
        return false;
    }
    match cut {
        [] => false,
        [digit, ..] => *digit >= 5,
    }
}
