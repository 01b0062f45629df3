//! The terms of one thermal unit at a price table.

ghost use Rattle.std.specs.Prelude.{◌≡◌, ◌<◌};
ghost use Rattle.uc_model.specs.Terms.{place as place_of};

use crate::list::List;

/// The least reduced cost of an on hour in each period, at the scale `k`: for period t, from 0, the term at
/// each of its four caps, in the order neither a start nor a stop after it, a start, a stop after it, both;
/// `None` where the cap is negative. `pi` is the price of demand in each period.
#[derive(Drop)]
pub struct Terms {
    pub k: i64,
    pub pi: List<i128>,
    pub terms: List<[Option<i128>; 4]>,
}

/// The place of a cell's term in its period's row, by whether the cell is a start and whether a stop follows.
pub fn place(start: bool, stop: bool) -> usize
    ensures value { result ≡ place_of start stop }
    ensures within { result < 4 }
{
    match (start, stop) {
        (false, false) => 0,
        (true, false) => 1,
        (false, true) => 2,
        (true, true) => 3,
    }
}
