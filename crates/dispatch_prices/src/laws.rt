//! What the printed schedule and the prices of a commitment's dispatch say, as laws over the definitions. Each is the contract of a function that
//! does nothing.
ghost use Rattle.dispatch_prices.specs.Dispatched.{DispatchesAreLeast, DispatchesObey, PricesAreExact};

/// The printed schedule of a dispatch obeys the model.
pub fn dispatches_obey()
    ensures { DispatchesObey }
{}

/// The prices of a cheapest basis bound the cost of its printed schedule exactly, with the least cost of each start; so no schedule with the
/// same commitment and the same start categories costs less.
pub fn prices_are_exact()
    ensures exact { PricesAreExact }
    ensures least { DispatchesAreLeast }
{}
