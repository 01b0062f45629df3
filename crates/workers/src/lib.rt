//! The search: from an instance to a schedule, a lower bound on the cost of every schedule, and the log of what was evaluated.
//!
//! One worker or several search one tree: the book, under a lock, has the tree with its tables, its log and the claims; the incumbent has
//! the least cost that any of them has found; and each worker's open nodes lie in its hand and in its queue, from which the others steal.
//! Here the parts are joined: what comes before the claims, the search over the tree, and the answer; and a roll, which is such a search for
//! each window.
#![tactic(auto)]

mod rolling;
mod root_search;

pub use branch_tree::{Entry, Found};
pub use roll::Rolled;
pub use rolling::roll;
pub use root_search::search;
pub use tree_search::{MAX_WORKERS, Options};
