//! The search over the tree: the threads of its workers, what each of them claims, evaluates, commits and repairs, and what they leave.
#![tactic(auto)]

mod begun;
mod crew;
mod crowd;
mod grow;
mod members;
mod options;

pub use grow::search_tree;
pub use options::{MAX_WORKERS, Options};
