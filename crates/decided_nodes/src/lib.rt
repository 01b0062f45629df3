//! The exact dispatch at a node at which each cell is decided: a table to evaluate it at, and the cheapest schedule of its commitment.
#![tactic(auto)]

mod cells;
mod decided;
mod pivoting;

pub use cells::{decides, free_cell};
pub use decided::{Decided, exact_dispatch};
pub use pivoting::Pivoting;
