//! The exact dispatch of a commitment as a linear program: its amounts and limits by names, and what the table of the simplex method (G. B. Dantzig,
//! "Linear Programming and Extensions", 1963) says of them at the end of a run. Definitions stand in `specs/`, the laws are the contracts of the module
//! `laws`, and a worked example that of `examples`.
#![tactic(auto)]

mod amount;
pub mod examples;
pub mod laws;
mod limit;

pub use amount::Amount;
pub use limit::{LimitAt, LimitRule};
