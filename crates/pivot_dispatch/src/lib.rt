//! The exact dispatch of a commitment: its cheapest schedule, with prices that bound its cost exactly; or a ray that excludes the commitment; or
//! the number that meets a limit on the way. By the simplex method in whole numbers (G. B. Dantzig, "Linear Programming and Extensions", 1963).
#![tactic(auto)]

mod dispatch;
mod ending;
mod pivot;

pub use dispatch::best;
pub use pivot::{DispatchAnswer, WideCause};
