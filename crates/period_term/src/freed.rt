//! A cell's prices where all the room that output leaves is reserve, or none of it.

ghost use Rattle.std.specs.Prelude.{◌*◌, ◌≤◌, unsigned_abs};
ghost use Rattle.dual_model.specs.Prelude.{IsLawfulScale};
ghost use Rattle.period_term.specs.inside.Freed.{AreFreed, AreLawfulPrices};

use dual_model::limits::MAX_UNIT_PRICE;
use uc_model::difference;

/// The scale, the price of output above that of the reserve which it takes the room of, and the price of the
/// reserve, which is not above 0.
#[derive(Clone, Copy)]
pub(crate) struct Prices {
    pub(crate) k: i64,
    pub(crate) a: i128,
    pub(crate) b: i128,
}

/// The prices of a cell, freed of the choice of reserve: it is worth taking only where its price is below 0,
/// and then all the room is.
pub(crate) fn freed(k: i64, a: i128, b: i128) -> Prices
    requires scale { IsLawfulScale k }
    requires output_price { unsigned_abs a ≤ MAX_UNIT_PRICE }
    requires reserve_price { unsigned_abs b ≤ MAX_UNIT_PRICE }
    ensures freed { AreFreed k a b result.k result.a result.b }
    ensures lawful { AreLawfulPrices result.k result.a result.b }
{
    let reserve = b.min(0);
    let output = difference(a, reserve);
    Prices {
        k,
        a: output,
        b: reserve,
    }
}
