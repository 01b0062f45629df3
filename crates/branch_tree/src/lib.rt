//! What a search found: its tree of commitments, the log of its evaluations and its schedule.
#![tactic(auto)]

mod cells;
pub mod found;
pub mod laws;
pub mod layout;
mod minima;
mod places;
pub mod tree;

pub use found::{Entry, Found, Outcome, is_within_gap};
pub use layout::Layout;
pub use tree::{Leaf, Spot, Tree};
