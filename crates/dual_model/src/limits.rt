//! The limits on a price table's numbers, and on a unit's prices and caps there.

ghost use Rattle.std.specs.Prelude.{◌≡◌, ◌*◌, ◌^◌, pos};

/// The greatest scale K.
pub const MAX_SCALE: i64 = 1_000_000_000;

/// The greatest size of a price number.
pub const MAX_PRICE: u64 = 100_000_000_000_000;

/// The greatest size of the prices of output and reserve in a cell, and of the price of demand beside them.
pub const MAX_UNIT_PRICE: u64 = 500_000_000_000_000;

/// The greatest size of a cell's cap, in watts.
pub const MAX_CAP: u64 = 20_000_000_000_000;

/// A law, with nothing to run: the limits as numbers.
pub fn limits_are_these()
    ensures scale { MAX_SCALE ≡ pos (10 ^ 9) }
    ensures price { MAX_PRICE ≡ 10 ^ 14 }
    ensures unit_price { MAX_UNIT_PRICE ≡ 5 * 10 ^ 14 }
    ensures cap { MAX_CAP ≡ 2 * 10 ^ 13 }
{}
