//! What the hours of a unit's run cost by an output, as convex functions: L, the least production cost by the output with slopes
//! rounded down, and the steps by which an hour is added to others, before them or behind.
#![tactic(auto)]

mod costs;
pub mod hour;
mod hull;
mod problem;

pub use costs::{add_outputs, add_reserve, spread};
pub use hour::Hour;
pub use hull::fill;
pub use problem::Problem;
