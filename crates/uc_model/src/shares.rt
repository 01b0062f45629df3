//! Shares of a unit's hours: how often it is on in a period among several of its patterns.

/// The share of an hour in which the unit is on in each of the patterns. A share is a whole number from 0 to this one.
pub const WHOLE_SHARE: i64 = 65_536;

/// A share that is no further than this from 0, or from the whole, divides nothing: an hour with such a share counts as off, or on.
pub const LEAST_DIVIDED_SHARE: i64 = WHOLE_SHARE / 100;
