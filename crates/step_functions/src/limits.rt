//! The limits on places and values.

/// The greatest size of a place, in watts.
pub const MAX_PLACE: u64 = 1_000_000_000_000_000_000;

/// The greatest size of a value.
pub const MAX_VALUE: u128 = 1_000_000_000_000_000_000_000_000_000_000_000_000;
