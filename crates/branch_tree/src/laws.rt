//! The laws of covers, of what contracts see of a tree. Each is the contract of a function that does nothing.

ghost use Rattle.branch_tree.specs.TreeLaws.{TreesPart, TreesBound, TreesExclude, StoredBoundsHold};

/// Every schedule agrees with exactly one leaf of a tree. So, where the tables that its leaves name are lawful, a
/// tree that holds for b bounds the cost of every schedule by b, and one whose leaves are all excluded leaves no
/// schedule. Where what the leaves store holds, no schedule costs less than the tree's bound, and without a bound
/// there is none.
pub fn cover_law()
    ensures part { TreesPart }
    ensures bound { TreesBound }
    ensures exclude { TreesExclude }
    ensures stored { StoredBoundsHold }
{}
