//! What a search knows before its first claim, and what it answers: the opening's table, schedule and first ascent; and the answer where the
//! opening shows that no schedule exists, or else that of the search over the tree.
#![tactic(auto)]

mod answer;
mod start;

pub use answer::{bounded, excluded, without_unit};
pub use start::{OpenedSearch, started};
