//! The prices that a search tries: the tables of its opening, and the table to try next at a node, which an ascent finds.
#![tactic(auto)]

mod ascent;
pub mod laws;
mod merit;
mod pool;
mod price_list;
mod steps;
mod tight;

pub use ascent::{Ascent, AscentEffort, Plan, Values, ascend, with_ray};
pub use opening_tables::{SCALE, marginal, marginal_in, opening_ray, unpriced, zero};
pub use pool::CutPool;
pub use steps::{TriedNode, next_ascent, step};
pub use tight::with_cell;
