//! Amounts of cost in numbers of 64 bits.

/// The scale of the prices: so many of their parts are a micro-dollar.
pub const SCALE: i64 = 1_000_000;

/// So many parts of cost at the scale are one of an amount, which is some micro-dollar.
pub(crate) const PART: i128 = 1 << 20;

/// The most of one amount in size, 2^53: as many as a unit has in all its periods add up to less than `NEVER`.
const MOST: i128 = 1 << 53;

/// The amount of what can't be.
pub(crate) const NEVER: i64 = 1 << 62;

/// What is as much counts as what can't be: amounts that were added to it may be below 0.
pub(crate) const HARDLY: i64 = 1 << 61;

/// The amount of so much cost at the scale, rounded and kept within its limit.
pub(crate) fn amount_of(cost: &i128) -> i64 {
    (*cost / PART).min(MOST).max(-MOST) as i64
}

/// A number kept within the limits of a word.
pub(crate) fn word(number: &i128) -> i64 {
    let limit = i128::from(i64::MAX);
    (*number).min(limit).max(-limit) as i64
}

/// The product of two numbers of 64 bits, which fits.
pub(crate) fn times(first: i64, second: i64) -> i128 {
    i128::from(first).wrapping_mul(i128::from(second))
}

/// The entry of a list, and what can't be past its end.
pub(crate) fn amount_at(amounts: &[i64], i: usize) -> i64 {
    if i < amounts.len() { amounts[i] } else { NEVER }
}

/// The entry of a list, and 0 past its end.
pub(crate) fn number_at(numbers: &[i64], i: usize) -> i64 {
    if i < numbers.len() { numbers[i] } else { 0 }
}

/// The entry of a list, and this one past its end.
pub(crate) fn entry_or<T: Copy + Drop>(entries: &[T], i: usize, missing: T) -> T {
    if i < entries.len() {
        entries[i]
    } else {
        missing
    }
}

/// Sets an entry of a list, if it has it.
pub(crate) fn put<T: Copy + Drop>(entries: &mut [T], i: usize, entry: T) {
    if i < entries.len() {
        entries[i] = entry;
    }
}
