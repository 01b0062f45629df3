//! Claims of open nodes: in which order a worker takes the nodes that it has in hand, and on which cell a claim splits its node.
#![tactic(auto)]

mod branching;
mod hand;
mod splits;

pub use hand::{Hand, Ticket};
pub use splits::{Branching, Hints, split_cell};
