//! Laws of start costs, each the contract of a function with an empty body.

ghost use Rattle.start_costs.specs.Regular.{RegularStarts};

/// Where a unit's lags and costs don't decrease from category to category and the first lag is at most the minimum down
/// time, `sigma` is the least allowed cost at each start of each allowed pattern.
pub fn regular_starts()
    ensures { RegularStarts }
{}
