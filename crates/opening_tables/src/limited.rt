//! Prices within their limit.

ghost use Rattle.std.specs.Prelude.{◌≡◌};
ghost use Rattle.dual_model.specs.Prelude.{IsPrice};
ghost use Rattle.opening_tables.specs.Marginal.{kept_within};

use dual_model::limits::MAX_PRICE;

/// A price kept within the limit in size.
pub fn kept(price: i128) -> i64
    ensures value { result ≡ kept_within MAX_PRICE price }
    ensures size { IsPrice result }
{
    let limit = i128::from(MAX_PRICE);
    price.min(limit).max(-limit) as i64
}
