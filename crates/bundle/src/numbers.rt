//! Whole numbers kept within limits.

/// The most in size of a move, 2^48.
pub(crate) const FARTHEST: i64 = 1 << 48;

/// A number kept within the most of a move.
pub(crate) fn narrow(number: i128) -> i64 {
    let limit = i128::from(FARTHEST);
    number.min(limit).max(-limit) as i64
}

/// A number kept within so much in size, which is less than the most of a move.
pub(crate) fn within(number: i128, most: i64) -> i64 {
    narrow(number).min(most).max(most.saturating_neg())
}

/// A number kept within the limits of a word.
pub fn word(number: i128) -> i64 {
    let limit = i128::from(i64::MAX);
    number.min(limit).max(-limit) as i64
}

/// The entry of a list, and 0 past its end.
pub fn at(numbers: &[i64], i: usize) -> i64 {
    match numbers.get(i) {
        Some(number) => *number,
        None => 0,
    }
}

/// The product of two numbers, which fits.
pub fn times(first: i64, second: i64) -> i128 {
    i128::from(first).wrapping_mul(i128::from(second))
}
