//! The laws of a commitment's table. Each is the contract of a function that does nothing.

ghost use Rattle.dispatch_rules.specs.Dispatch.{LimitsAdd, LimitsAreOnce};
ghost use Rattle.dispatch_rules.specs.Duals.{LastRowsBound};
ghost use Rattle.dispatch_rules.specs.Primals.{NodeCoversDispatch, ValuesDispatch};
ghost use Rattle.dispatch_rules.specs.Rays.{CostsGoOn, NoRays, RunsEndLast};
ghost use Rattle.dispatch_rules.specs.RunEnds.{RunsGiveDispatches, RunsGiveRays};

/// Each limit is a rule of the program once, and the rules are these limits alone: so multipliers are read off by limits.
pub fn limits_are_rules()
    ensures once { LimitsAreOnce }
    ensures sum { LimitsAdd }
{}

/// The value of the commitment's node, at the table that is read off a last row, is at least what the row's right side says.
pub fn last_rows_bound()
    ensures { LastRowsBound }
{}

/// Values of 0 or above that solve the start of the table, with artificial columns of 0, obey the rules of a dispatch.
pub fn values_are_dispatches()
    ensures { ValuesDispatch }
{}

/// The value of the commitment's node is at least K times what the dispatch of these values costs, where they balance the last row.
pub fn nodes_cover_dispatches()
    ensures { NodeCoversDispatch }
{}

/// The table has no ray but of slack beside artificial columns; so wherever a column enters by the row of the cost, a row leaves, and a run from
/// the start ends with a sum that is left or at a cheapest basis.
pub fn tables_have_no_rays()
    ensures rays { NoRays }
    ensures rows { CostsGoOn }
    ensures runs { RunsEndLast }
{}

/// At the end of a run: where a sum is left, the prices of its row are a ray that excludes the commitment, and else the values of the
/// basis are a dispatch whose cost the value of the commitment's node covers.
pub fn ends_give_rays_or_dispatches()
    ensures rays { RunsGiveRays }
    ensures dispatches { RunsGiveDispatches }
{}
