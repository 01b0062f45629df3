//! The limits on an instance's numbers, and on terms.

ghost use Rattle.std.specs.Prelude.{◌≡◌, ◌+◌, ◌*◌, ◌^◌};

/// The most periods.
pub const MAX_PERIODS: u32 = 168;

/// The most thermal units, and the most renewable ones.
pub const MAX_UNITS: usize = 4096;

/// The most points of a unit's production cost.
pub const MAX_POINTS: usize = 64;

/// The most start categories of a unit.
pub const MAX_START_ROWS: usize = 16;

/// The greatest size of a power, in watts.
pub const MAX_POWER: u64 = 10_000_000_000_000;

/// The greatest size of the cost of an hour or of a start, in micro-dollars.
pub const MAX_COST: u64 = 5_000_000_000_000;

/// The greatest time or lag, in hours.
pub const MAX_TIME: u32 = 1_000_000;

/// The greatest price of a shortage, in micro-dollars for a watt and an hour.
pub const MAX_PENALTY: u32 = 1_000_000;

/// The most that all shortages of an instance may cost, in micro-dollars.
pub const MAX_SHORTAGE_COST: u64 = 2_000_000_000_000_000_000;

/// The greatest denominator of a printed schedule.
pub const MAX_DENOMINATOR: u8 = 99;

/// The greatest size of a schedule's cost, in micro-dollars: that of an hour and a start in each period of
/// each unit, and of all shortages. It fits an `i64`.
pub const COST_MAX: u64 = 8_881_280_000_000_000_000;

/// The greatest size of a cell's term at a price table.
pub const MAX_TERM: u128 = 100_000_000_000_000_000_000_000_000_000;

/// A law, with nothing to run: the limits as numbers.
pub fn limits_are_these()
    ensures periods { MAX_PERIODS ≡ 168 }
    ensures units { MAX_UNITS ≡ 4096 }
    ensures points { MAX_POINTS ≡ 64 }
    ensures start_rows { MAX_START_ROWS ≡ 16 }
    ensures power { MAX_POWER ≡ 10 ^ 13 }
    ensures cost { MAX_COST ≡ 5 * 10 ^ 12 }
    ensures time { MAX_TIME ≡ 10 ^ 6 }
    ensures penalty { MAX_PENALTY ≡ 10 ^ 6 }
    ensures shortage { MAX_SHORTAGE_COST ≡ 2 * 10 ^ 18 }
    ensures denominator { MAX_DENOMINATOR ≡ 99 }
    ensures schedule { COST_MAX ≡ 4096 * 168 * (10 ^ 13) + MAX_SHORTAGE_COST }
    ensures term { MAX_TERM ≡ 10 ^ 29 }
{}
