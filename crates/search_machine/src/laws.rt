//! The laws of the machine: the contracts of functions that have nothing to compute.

ghost use Rattle.search_machine.specs.Runs.{RunsHold, StartsAreReached, StepsReach, ReachedStatesHold, TreeRunsHold};

use uc_model::tolerance::cost_less_tolerance_never_decreases;

/// Every run of any number of workers, whatever the order of their steps: from a true start, after each of a list of
/// legal events whose commits and published costs are true,
///
/// - the leaves are a cover, and each node's ticket is in exactly one hand or queue;
/// - what each leaf stores holds, by V or the exact value as its kind says, so no schedule costs less than the tree's bound, and without
///   one there is none;
/// - the best cost never rises, and is at most what any worker has seen;
/// - each pruned leaf's bound is within the gap of the best cost, though it was pruned by an older one;
/// - where no node is open or held, the best cost is within the gap of the bound, or each leaf is excluded;
/// - the log is true, each outcome that of its node at a lawful table, and no two entries share a claim, or a node, a table and a
///   kind; the first table is that of the start;
/// - each leaf that isn't excluded stores what its own entries leave of what its parent stored;
/// - a node at which a cell is undecided has at most 100 entries, the first of them, but at the root, at the table that its
///   parent stored.
pub fn runs_hold()
    ensures { RunsHold }
{
    cost_less_tolerance_never_decreases();
}

/// The same for a caller that takes one step after another: a true start is reached from itself, a legal and true event leads
/// from a state that a start reaches to another, and of each reached state all this holds by its start.
pub fn reached_states_hold()
    ensures start { StartsAreReached }
    ensures step { StepsReach }
    ensures holds { ReachedStatesHold }
{
    cost_less_tolerance_never_decreases();
}

/// What of this is said of the tree, the tables and the log, where workers prune by any cost, so that a Prune is legal by its number test
/// alone; and what every state keeps.
pub fn tree_runs_hold()
    ensures { TreeRunsHold }
{}
