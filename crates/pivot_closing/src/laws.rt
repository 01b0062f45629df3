//! Laws of searches that use the exact dispatch, each the contract of a function with an empty body.

ghost use Rattle.pivot_closing.specs.Pivoted.{ClosedStatuses, PivotedSearchesClose};
ghost use Rattle.pivot_closing.specs.PivotedSteps.{CommitsKeepPivoted, StartsArePivoted};
ghost use Rattle.pivot_closing.specs.TreeSizes.{TreesAreSmall};

/// A tree whose splits are each on a cell of the instance that its path hasn't decided has fewer than `2^(G*T + 1)` nodes.
pub fn trees_are_small()
    ensures { TreesAreSmall }
{}

/// What a log tells of exact dispatches is so with no entry, and after a commit again where its node's first evaluation is by the exact
/// dispatch, or, while a cell is undecided there, doesn't leave the node open.
pub fn commits_keep_pivoted()
    ensures start { StartsArePivoted }
    ensures commit { CommitsKeepPivoted }
{}

/// A search that takes the exact dispatch of a commitment where every cell is decided, and splits after one evaluation elsewhere, ends
/// closed or with each leaf excluded, and so with the status 0 or 3, where
///
/// - the budget is at least `2^(G*T + 1)` claims;
/// - each unit's start rows are regular;
/// - the exact dispatch of no commitment that it evaluates is `Wide`;
/// - the tolerance of each cost that these give is at least `2*G*T + 2*T + 1` micro-dollars.
pub fn pivoted_searches_close()
    ensures closes { PivotedSearchesClose }
    ensures statuses { ClosedStatuses }
{}
