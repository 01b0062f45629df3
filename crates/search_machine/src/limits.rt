//! The limits of a search.

/// The greatest budget, in evaluations.
pub const MAX_BUDGET: u32 = 1_000_000;

/// With so many entries of the log a node has had its turns, while a cell is undecided there.
pub const NODE_ENTRIES: usize = 100;
